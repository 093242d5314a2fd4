//! A keeper beside a relay. All that it sends waits in the connection from the beginning.

use super::peers::at;
use macs_control::ask_for_buffer;
use macs_disk::messages::{CallAnswer, Greeting};
use macs_disk::{DeviceCall, DeviceFault, FileDisk, SectorDisk};
use macs_endpoint::Endpoint;
use macs_offline::open_disk;
use std::alloc::Global;
use std::cell::RefCell;
use std::fs::File;
use std::io;
use std::io::ErrorKind;
use std::net::{Net, UdpSocket};
use std::os::fd::{AsRawFd, OwnedFd};
use std::os::unix::net::{SocketAddr, UnixStream};
use std::process::Abort;
use std::rt::Files;
use std::time::Duration;

/// How many octets are asked for the answers that wait: those to the calls of an opening, and more.
const ROOM: u32 = 212_992;

/// How long a call of the connection waits if it waits, in milliseconds.
const PATIENCE: u64 = 50;

/// How many octets a part of an answer has: the last one has fewer.
const PART: usize = 100;

/// A disk that sends the answer of a keeper after each call.
#[derive(Drop)]
struct Answering<'a, D> {
    disk: D,
    socket: &'a UdpSocket,
}

impl<D> Answering<'_, D> {
    fn answer(&self, call: &DeviceCall, read: &[u8; 512], end: Result<(), DeviceFault>) {
        let _ = self.socket.send(&CallAnswer::to(call, read, end).octets());
    }
}

impl<D: SectorDisk> SectorDisk for Answering<'_, D> {
    ghost use Rattle.std.specs.Prelude.{true};

    ghost disk = { λ it. record {
      sectors = (D.disk it.disk).sectors;
      past = (D.disk it.disk).past;
      clock = (D.disk it.disk).clock;
      failures = (D.disk it.disk).failures;
      honest = (D.disk it.disk).honest;
      worn = (D.disk it.disk).worn;
      prompt = true;
    } };

    ghost sound = { λ it honest. D.sound it.disk honest };

    ghost wear = { λ it. D.wear it.disk };

    fn sectors(&self) -> u64 {
        self.disk.sectors()
    }

    fn read(&mut self, at: u64, into: &mut [u8; 512]) -> Result<(), DeviceFault> {
        let end = self.disk.read(at, into);
        self.answer(&DeviceCall::Read(at), into, end);
        end
    }

    fn write(&mut self, at: u64, from: &[u8; 512]) -> Result<(), DeviceFault> {
        let end = self.disk.write(at, from);
        self.answer(&DeviceCall::Write(at, *from), from, end);
        end
    }

    fn sync(&mut self) -> Result<(), DeviceFault> {
        let end = self.disk.sync();
        self.answer(&DeviceCall::Sync, &[0; 512], end);
        end
    }
}

/// Two sockets, each the other's peer. At the second one many answers may wait.
fn joined(net: &impl Net) -> io::Result<(UdpSocket, UdpSocket)> {
    let first = UdpSocket::bind(net, at(1))?;
    let second = UdpSocket::bind(net, at(1))?;
    first.connect(second.local_addr()?)?;
    second.connect(first.local_addr()?)?;
    let _ = ask_for_buffer(net, second.as_raw_fd(), ROOM);
    Ok((first, second))
}

/// Sends what a keeper of this disk sends to a client that opens its endpoint.
fn open(rt: &impl Abort, disk: FileDisk<File>, socket: &UdpSocket) -> io::Result<()> {
    let greeting = Greeting {
        sectors: disk.sectors(),
    };
    socket.send(&greeting.octets())?;
    match Endpoint::open(Answering { disk, socket }) {
        Ok(_endpoint) => Ok(()),
        Err(_) => panic!(rt; "not opened"),
    }
}

/// Sends the answer to a write or a sync, in parts.
fn send_done(socket: &UdpSocket) -> io::Result<()> {
    for part in CallAnswer::Done.octets().chunks(PART) {
        socket.send(part)?;
    }
    Ok(())
}

/// Sends the answers to so many writes and syncs, and then the end or nothing.
fn answer(socket: &UdpSocket, answered: u32, is_over: bool) -> io::Result<()> {
    for _ in 0..answered {
        send_done(socket)?;
    }
    if is_over {
        socket.send(&[])?;
    }
    Ok(())
}

/// A keeper that lets one relay in. Its connection is a socket for datagrams: a read takes one part
/// of what was sent, and one without octets is the end.
#[derive(Drop)]
pub struct Keeper {
    name: &'static str,
    /// Where requests arrive. They are not read.
    own: UdpSocket,
    /// The end of the relay, until that comes.
    waiting: RefCell<Option<UnixStream>>,
}

impl Keeper {
    /// The keeper of the disk file with this path, whose socket has this name: it answers the calls
    /// of an opening, and so many writes and syncs; and then it ends, or is silent.
    pub fn new(
        rt: &(impl Abort + Files<File = File> + Net),
        alloc: Global,
        disk: &str,
        name: &'static str,
        answered: u32,
        is_over: bool,
    ) -> io::Result<Keeper> {
        let (own, other) = joined(rt)?;
        let opened = open_disk(rt, alloc, disk).ok().expect(rt, "a disk");
        open(rt, opened, &own)?;
        answer(&own, answered, is_over)?;
        let stream = UnixStream::from(OwnedFd::from(other));
        stream.set_read_timeout(Some(Duration::from_millis(PATIENCE)))?;
        Ok(Keeper {
            name,
            own,
            waiting: RefCell::new(Some(stream)),
        })
    }

    /// Whether its socket has this name.
    pub fn is_at(&self, at: &SocketAddr) -> bool {
        match at.as_pathname() {
            Some(path) => path.to_str() == Some(self.name),
            None => false,
        }
    }

    /// The connection of a relay that comes. A second one is refused.
    pub fn let_in(&self) -> io::Result<UnixStream> {
        let _kept = &self.own;
        match self.waiting.try_borrow_mut() {
            Ok(mut waiting) => match waiting.take() {
                Some(stream) => Ok(stream),
                None => Err(io::Error::from(ErrorKind::ConnectionRefused)),
            },
            Err(_) => Err(io::Error::from(ErrorKind::ConnectionRefused)),
        }
    }
}
