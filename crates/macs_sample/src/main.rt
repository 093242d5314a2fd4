//! The program of docs/LIBRARY.md: a frame from an endpoint on a disk in memory to one on a disk
//! in a file, and what a restart of the sender does to its packet numbers.
#![tactic(auto)]

use macs_aes::Key;
use macs_config::{Command, Identity};
use macs_disk::{FileDisk, MemDisk, SectorDisk};
use macs_endpoint::{Endpoint, format};
use macs_frame::{An, FrameBuf, Sci};
use macs_rxsc::{Kind, Verdict};
use std::process::ExitCode;

/// How many sectors of 512 octets an endpoint needs.
const SECTORS: u64 = 1_028;

const KEY: Key = Key::Short([0x5A; 16]);

const SENDER: Sci = Sci([2, 0, 0, 0, 0, 1, 0, 1]);

const RECEIVER: Sci = Sci([2, 0, 0, 0, 0, 2, 0, 1]);

/// Two addresses, the EtherType of IPv4, and four octets of User Data.
const PLAIN: [u8; 18] = [
    2, 0, 0, 0, 0, 2, 2, 0, 0, 0, 0, 1, 0x08, 0x00, 0xDE, 0xAD, 0xBE, 0xEF,
];

/// Makes an endpoint on a blank disk. It writes a ceiling for each 1,024 packet numbers that it
/// sends, and for each 16 that it receives.
fn new_endpoint<D: SectorDisk + Drop>(mut disk: D, sci: Sci) -> Option<Endpoint<D>> {
    format(&mut disk, &Identity::new(sci, 1_024, 16)?).ok()?;
    opened(disk)
}

/// Opens the endpoint on a disk.
fn opened<D: SectorDisk + Drop>(disk: D) -> Option<Endpoint<D>> {
    match Endpoint::open(disk) {
        Ok(endpoint) => Some(endpoint),
        Err(_) => None,
    }
}

/// Has an endpoint send under the key. A command that answers Ok is on the disk.
fn send_under_key<D: SectorDisk>(endpoint: &mut Endpoint<D>) -> Option<()> {
    let an = An::new(0)?;
    let install = Command::TxInstall {
        an,
        key: KEY,
        start: 1,
        confidential: true,
        offset: 0,
    };
    endpoint.command(install).ok()?;
    endpoint.command(Command::TxUse { an }).ok()
}

/// Has an endpoint receive from the sender under the key.
fn receive_under_key<D: SectorDisk>(endpoint: &mut Endpoint<D>) -> Option<()> {
    let an = An::new(0)?;
    let install = Command::RxInstall {
        sci: SENDER,
        an,
        key: KEY,
        start: 1,
        offset: 0,
    };
    endpoint.command(Command::RxAdd { sci: SENDER }).ok()?;
    endpoint.command(install).ok()
}

/// Protects the plain frame. The answer is its packet number.
fn send<D: SectorDisk>(endpoint: &mut Endpoint<D>, out: &mut FrameBuf) -> Option<u32> {
    // Ceilings are raised between frames, so that there is a number for the next one.
    endpoint.refill().ok()?;
    let number = endpoint.protect(&PLAIN, out).ok()?;
    Some(number.get())
}

/// Receives a frame. Whether it is delivered as verified, with the plain frame in `out`.
fn receive<D: SectorDisk>(endpoint: &mut Endpoint<D>, frame: &[u8], out: &mut FrameBuf) -> bool {
    let mut verdict = endpoint.receive(frame, out);
    if verdict == Ok(Verdict::HeldBack) && endpoint.refill().is_ok() {
        // Its number is at or above the ceiling, which is raised now.
        verdict = endpoint.receive(frame, out);
    }
    verdict == Ok(Verdict::Delivered(Kind::Ok))
}

/// Sends a frame from one endpoint to the other, and sends another after a restart.
fn play(rt: &HostRuntime) -> Option<()> {
    let memory = MemDisk::new(rt.alloc(), SECTORS).ok()?;
    let mut sender = new_endpoint(memory, SENDER)?;
    send_under_key(&mut sender)?;
    let file = FileDisk::create(rt, rt.alloc(), "receiver.disk", SECTORS).ok()?;
    let mut receiver = new_endpoint(file, RECEIVER)?;
    receive_under_key(&mut receiver)?;

    let mut frame = FrameBuf::new();
    let mut plain = FrameBuf::new();
    let first = send(&mut sender, &mut frame)?;
    let is_delivered = receive(&mut receiver, frame.as_slice(), &mut plain);
    let is_same = plain.as_slice() == PLAIN.as_slice();
    println!(rt; "number {first} delivered {is_delivered} same {is_same}").ok()?;

    let mut restarted = opened(sender.into_disk())?;
    let next = send(&mut restarted, &mut frame)?;
    println!(rt; "number {next} after a restart").ok()
}

fn main(rt: HostRuntime) -> ExitCode {
    match play(&rt) {
        Some(()) => ExitCode::SUCCESS,
        None => ExitCode::FAILURE,
    }
}
