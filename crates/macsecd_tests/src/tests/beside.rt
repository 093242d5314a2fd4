//! What goes on beside a relay or a keeper, in its own process: clients that come once everything is
//! bound, the parent that is notified, and the keeper of the disk.

use super::keepers::Keeper;
use super::visitors::Visitor;
use libc::net as c;
use os::FromRawFd;
use std::alloc::{AllocError, Global};
use std::cell::{Cell, RefCell};
use std::io;
use std::io::{ErrorKind, Read, Write};
use std::net::Net;
use std::os::fd::{AsFd, OwnedFd};
use std::os::unix::net::{SocketAddr, UnixStream};
use std::rt::Files;
use std::time::Duration;

/// A client of a control socket, its connection, once it has one, and all that was said to it.
#[derive(Drop)]
struct Guest {
    lines: &'static str,
    /// What it sends once everyone has an answer to each of the first lines.
    later: &'static str,
    stream: RefCell<Option<UnixStream>>,
    heard: RefCell<Vec<u8>>,
}

/// How many of these lines end an answer.
fn answers_in(text: &str) -> usize {
    let mut count: usize = 0;
    for line in text.split('\n') {
        if line.starts_with("end ") {
            count = count.saturating_add(1);
        }
    }
    count
}

/// How many line feeds there are.
fn lines_in(text: &str) -> usize {
    let mut count: usize = 0;
    for octet in text.as_bytes() {
        if *octet == b'\n' {
            count = count.saturating_add(1);
        }
    }
    count
}

/// Takes what has arrived. Returns whether the connection has ended.
fn take_all(mut stream: &UnixStream, heard: &mut Vec<u8>) -> bool {
    let mut room = [0; 512];
    for _ in 0..64_u32 {
        match stream.read(&mut room) {
            Ok(0) => return true,
            Ok(count) => {
                let _ = heard.extend_from_slice(&room[..count]);
            }
            Err(_) => return false,
        }
    }
    false
}

impl Guest {
    fn new(alloc: Global, lines: &'static str, later: &'static str) -> Guest {
        Guest {
            lines,
            later,
            stream: RefCell::new(None),
            heard: RefCell::new(Vec::new(alloc)),
        }
    }

    /// Connects, and sends its first lines.
    fn come(&self, net: &impl Net, control: &str) -> io::Result<()> {
        let mut stream = UnixStream::connect(net, control)?;
        stream.write_all(self.lines.as_bytes())?;
        stream.set_nonblocking(true)?;
        if let Ok(mut place) = self.stream.try_borrow_mut() {
            *place = Some(stream);
        }
        Ok(())
    }

    /// Hears what was said to it. Returns whether its connection has ended.
    fn hear(&self) -> bool {
        if let (Ok(place), Ok(mut heard)) = (
            self.stream.try_borrow(),
            self.heard.try_borrow_mut(),
        ) {
            if let Some(stream) = &*place {
                return take_all(stream, &mut heard);
            }
        }
        false
    }

    /// Whether it has an answer to each of its first lines.
    fn is_answered(&self) -> bool {
        self.hear();
        match self.heard.try_borrow() {
            Ok(heard) => {
                let text = str::from_utf8(heard.as_slice()).unwrap_or("");
                answers_in(text) >= lines_in(self.lines)
            }
            Err(_) => false,
        }
    }

    /// Sends what it sends later.
    fn go_on(&self) {
        if let Ok(place) = self.stream.try_borrow() {
            if let Some(stream) = &*place {
                let mut stream = stream;
                let _ = stream.write_all(self.later.as_bytes());
            }
        }
    }

    /// All that was said to it.
    fn told(&self, alloc: Global) -> Result<String, AllocError> {
        self.hear();
        let mut told = String::new(alloc);
        if let Ok(heard) = self.heard.try_borrow() {
            told.push_str(str::from_utf8(heard.as_slice()).unwrap_or("no text"))?;
        }
        Ok(told)
    }
}

/// The parent of a program: the socket where notices come, and what was seen at which moment.
#[derive(Drop)]
struct Parent {
    alloc: Global,
    /// The name of the socket.
    name: &'static str,
    socket: UnixStream,
    seen: RefCell<String>,
}

/// A socket for datagrams that has a name and does not wait.
fn datagrams_at(files: &impl Files, name: &str) -> io::Result<UnixStream> {
    let fd = unsafe { c::socket(c::AF_UNIX, c::SOCK_DGRAM | c::SOCK_CLOEXEC, 0) };
    if fd < 0 {
        return Err(io::Error::from(ErrorKind::Other));
    }
    let socket = unsafe { UnixStream::from_raw_fd(fd) };
    files.bind_unix(socket.as_fd(), &SocketAddr::from_pathname(name)?)?;
    socket.set_nonblocking(true)?;
    Ok(socket)
}

impl Parent {
    fn new(files: &impl Files, alloc: Global, name: &'static str) -> io::Result<Parent> {
        Ok(Parent {
            alloc,
            name,
            socket: datagrams_at(files, name)?,
            seen: RefCell::new(String::new(alloc)),
        })
    }

    /// The line of a moment: the notices that have come since the last one, whether the control
    /// socket has its name, and whether a client was refused.
    fn line(&self, moment: &str, is_named: bool, is_refused: bool) -> Result<String, AllocError> {
        let mut line = String::new(self.alloc);
        line.push_str(moment)?;
        let mut room = [0; 64];
        let mut socket = &self.socket;
        for _ in 0..8_u32 {
            let Ok(count) = socket.read(&mut room) else {
                break;
            };
            line.push_str(" ")?;
            line.push_str(str::from_utf8(&room[..count]).unwrap_or("no text"))?;
        }
        line.push_str(if is_named { " named" } else { "" })?;
        line.push_str(if is_refused { " refused\n" } else { "\n" })?;
        Ok(line)
    }

    /// Looks at a moment. Nothing is added where it is as the one before.
    fn look(&self, moment: &str, is_named: bool, is_refused: bool) -> Result<(), AllocError> {
        let line = self.line(moment, is_named, is_refused)?;
        if let Ok(mut seen) = self.seen.try_borrow_mut() {
            if !seen.ends_with(line.as_str()) {
                seen.push_str(line.as_str())?;
            }
        }
        Ok(())
    }

    /// Whether this was seen.
    fn has_seen(&self, lines: &str) -> bool {
        match self.seen.try_borrow_mut() {
            Ok(seen) => seen.as_str() == lines,
            Err(_) => false,
        }
    }
}

/// What goes on beside a relay or a keeper.
#[derive(Drop)]
pub struct Beside {
    control: &'static str,
    guests: Vec<Guest>,
    visitors: Vec<Visitor>,
    have_come: Cell<bool>,
    have_gone_on: Cell<bool>,
    /// A client's connection ended while the disk file was open.
    is_left_open: Cell<bool>,
    parent: Option<Parent>,
    keeper: Option<Keeper>,
}

impl Beside {
    /// Nobody, yet, beside a program with this socket.
    pub fn new(alloc: Global, control: &'static str) -> Beside {
        Beside {
            control,
            guests: Vec::new(alloc),
            visitors: Vec::new(alloc),
            have_come: Cell::new(false),
            have_gone_on: Cell::new(false),
            is_left_open: Cell::new(false),
            parent: None,
            keeper: None,
        }
    }

    /// Adds a client that will send these lines, and these later.
    pub fn invite(
        &mut self,
        alloc: Global,
        lines: &'static str,
        later: &'static str,
    ) -> Result<(), AllocError> {
        self.guests.push(Guest::new(alloc, lines, later))?;
        Ok(())
    }

    /// Adds a client of a keeper.
    pub fn admit(&mut self, visitor: Visitor) -> Result<(), AllocError> {
        self.visitors.push(visitor)?;
        Ok(())
    }

    /// Adds a parent whose socket has this name.
    pub fn notify(
        &mut self,
        files: &impl Files,
        alloc: Global,
        name: &'static str,
    ) -> io::Result<()> {
        self.parent = Some(Parent::new(files, alloc, name)?);
        Ok(())
    }

    /// Adds a keeper of the disk.
    pub fn keep(&mut self, keeper: Keeper) {
        self.keeper = Some(keeper);
    }

    /// A connection to the keeper, if the name is its; else to whoever listens there.
    pub fn connect(&self, system: &(impl Net + Files), at: &SocketAddr) -> io::Result<UnixStream> {
        match &self.keeper {
            Some(keeper) if keeper.is_at(at) => {
                self.look(system, "keeper");
                keeper.let_in()
            }
            Some(_) | None => system.connect_unix(at),
        }
    }

    /// Has the clients come, one after another: those that find nobody have heard nothing in the
    /// end.
    pub fn come(&self, net: &impl Net) {
        if self.have_come.replace(true) {
            return;
        }
        for guest in &self.guests {
            let _ = guest.come(net, self.control);
        }
        for visitor in &self.visitors {
            let _ = visitor.come(net, self.control);
        }
    }

    /// Whether each client has an answer to each of its first lines.
    fn are_answered(&self) -> bool {
        for guest in &self.guests {
            if !guest.is_answered() {
                return false;
            }
        }
        true
    }

    /// Has the clients go on, one after another, once all of them have their answers.
    pub fn go_on(&self) {
        if self.have_gone_on.get() || !self.are_answered() {
            return;
        }
        self.have_gone_on.set(true);
        for guest in &self.guests {
            guest.go_on();
        }
    }

    /// The name of the parent's socket: empty if there is none.
    pub fn parent(&self) -> &'static str {
        match &self.parent {
            Some(parent) => parent.name,
            None => "",
        }
    }

    /// Whether the second client of a keeper has a connection that has ended.
    fn is_refused(&self) -> bool {
        match self.visitors.get(1) {
            Some(visitor) => visitor.has_ended(),
            None => false,
        }
    }

    /// Looks at the moment of a call of a keeper's disk file.
    pub fn look_at_call(&self, files: &impl Files) {
        if !self.visitors.is_empty() {
            self.look(files, "call");
        }
    }

    /// Looks at the moment before the disk file is closed.
    pub fn look_at_close(&self) {
        for guest in &self.guests {
            if guest.hear() {
                self.is_left_open.set(true);
            }
        }
    }

    /// Whether the disk file was closed before a client's connection ended.
    pub fn is_closed_first(&self) -> bool {
        !self.is_left_open.get()
    }

    /// This socket, on which a keeper waits for a client for at most 0.3 s.
    pub fn limit(&self, socket: OwnedFd) -> io::Result<OwnedFd> {
        let stream = UnixStream::from(socket);
        stream.set_read_timeout(Some(Duration::from_millis(300)))?;
        Ok(OwnedFd::from(stream))
    }

    /// Looks at a moment of a run.
    pub fn look(&self, files: &impl Files, moment: &str) {
        if let Some(parent) = &self.parent {
            let is_named = files.symlink_metadata(self.control).is_ok();
            let _ = parent.look(moment, is_named, self.is_refused());
        }
    }

    /// Looks at the moment at which a name is to be removed, if it is that of the control socket.
    pub fn look_at_removal(&self, files: &impl Files, path: &str) {
        if path == self.control {
            self.look(files, "removal");
        }
    }

    /// All that was said to the client with this number.
    pub fn told(&self, alloc: Global, client: usize) -> Result<String, AllocError> {
        match self.guests.get(client) {
            Some(guest) => guest.told(alloc),
            None => Ok(String::new(alloc)),
        }
    }

    /// All that came to the client of a keeper with this number, if it has a connection.
    pub fn answered(&self, alloc: Global, visitor: usize) -> Option<Vec<u8>> {
        self.visitors.get(visitor)?.answered(alloc)
    }

    /// Whether a parent has seen this.
    pub fn has_seen(&self, lines: &str) -> bool {
        match &self.parent {
            Some(parent) => parent.has_seen(lines),
            None => lines.is_empty(),
        }
    }
}
