//! Captures that run through an endpoint, whose disk is in memory and whose blocks are 4 packet
//! numbers on either side. Readers and writers move one octet a call, and fail where they are told
//! to.

mod faults;
mod frames;
mod memory;

use super::endpoints::{OWN, command, formatted, number_of, opened, sending};
use macs_aes::Key;
use macs_config::Command;
use macs_disk::{MemDisk, SectorDisk};
use macs_edge::{RunFault, Summary, run_protect, run_validate};
use macs_endpoint::Endpoint;
use macs_fixtures::{NarrowReader, NarrowWriter};
use macs_frame::{FrameBuf, Sci};
use macs_pcap::{ReaderSource, Sink, Source, WriterSink};
use std::alloc::{Allocator, Global};
use std::process::Abort;
use std::test::Fail;

/// A header of stamps in nanoseconds, as it is read.
const HEADER: [u8; 24] = [
    0xa1, 0xb2, 0x3c, 0x4d, 0, 2, 0, 4, 0, 0, 0, 0, 0, 0, 0, 0, 0, 0, 0xff, 0xff, 0, 0, 0, 1,
];

/// The same as it is written.
const WRITTEN: [u8; 24] = [
    0xa1, 0xb2, 0x3c, 0x4d, 0, 2, 0, 4, 0, 0, 0, 0, 0, 0, 0, 0, 0, 4, 0, 0, 0, 0, 0, 1,
];

/// The SCI of the sender of the published frame, and the key of its association 2.
const PEER: Sci = Sci([0x12, 0x15, 0x35, 0x24, 0xc0, 0x89, 0x5e, 0x81]);

const PEER_KEY: Key = Key::Short(
    *b"\xad\x7a\x2b\xd0\x3e\xac\x83\x5a\x6f\x62\x0f\xdc\xb5\x06\xb3\x45",
);

/// The published frame (IEEE Std 802.1AE-2018, Annex C) with integrity protection, number b2c28465.
const SEALED: [u8; 86] = *b"\xd6\x09\xb1\xf0\x56\x63\x7a\x0d\x46\xdf\x99\x8d\
\x88\xe5\x22\x2a\xb2\xc2\x84\x65\x12\x15\x35\x24\xc0\x89\x5e\x81\
\x08\x00\x0f\x10\x11\x12\x13\x14\x15\x16\x17\x18\x19\x1a\x1b\x1c\x1d\x1e\x1f\x20\x21\x22\x23\x24\x25\x26\x27\x28\x29\x2a\x2b\x2c\x2d\x2e\x2f\x30\x31\x32\x33\x34\x00\x01\
\xf0\x94\x78\xa9\xb0\x90\x07\xd0\x6f\x46\xe9\xb6\xa1\xda\x25\xdd";

/// The plain frame of the published one: addresses and User Data.
const PLAIN: [u8; 54] = *b"\xd6\x09\xb1\xf0\x56\x63\x7a\x0d\x46\xdf\x99\x8d\
\x08\x00\x0f\x10\x11\x12\x13\x14\x15\x16\x17\x18\x19\x1a\x1b\x1c\x1d\x1e\x1f\x20\x21\x22\x23\x24\x25\x26\x27\x28\x29\x2a\x2b\x2c\x2d\x2e\x2f\x30\x31\x32\x33\x34\x00\x01";

/// Which way a capture runs.
#[derive(Clone, Copy)]
enum Way {
    Protect,
    Validate,
}

fn run<D: SectorDisk, R: Source, W: Sink, A: Allocator>(
    alloc: A,
    endpoint: &mut Endpoint<D>,
    way: Way,
    source: &mut R,
    sink: &mut W,
) -> Result<Summary, RunFault> {
    match way {
        Way::Protect => run_protect(alloc, endpoint, source, sink),
        Way::Validate => run_validate(alloc, endpoint, source, sink),
    }
}

/// Runs these octets with memory for frames from an allocator, and answers what was written, too.
/// The call of the reader with this number fails, and that of the writer with the other.
fn run_in<D: SectorDisk, A: Allocator>(
    memory: A,
    alloc: Global,
    endpoint: &mut Endpoint<D>,
    way: Way,
    octets: &[u8],
    read_fails_at: u64,
    write_fails_at: u64,
) -> (Result<Summary, RunFault>, Vec<u8>) {
    let mut source = ReaderSource::new(NarrowReader::new(octets, read_fails_at));
    let mut writer = NarrowWriter::without_flush(alloc, write_fails_at);
    let mut sink = WriterSink::new(&mut writer);
    let answer = run(memory, endpoint, way, &mut source, &mut sink);
    drop(sink);
    (answer, writer.into_octets())
}

/// Runs these octets where no call fails.
fn run_whole<D: SectorDisk>(
    alloc: Global,
    endpoint: &mut Endpoint<D>,
    way: Way,
    octets: &[u8],
) -> (Result<Summary, RunFault>, Vec<u8>) {
    run_in(alloc, alloc, endpoint, way, octets, 0, 0)
}

/// Appends a record header with the stamp of the record at this place.
fn push_record(octets: &mut Vec<u8>, place: u32, kept: u32, original: u32) -> Result<(), Fail> {
    octets.extend_from_slice(&place.to_be_bytes())?;
    octets.extend_from_slice(&(!place).to_be_bytes())?;
    octets.extend_from_slice(&kept.to_be_bytes())?;
    octets.extend_from_slice(&original.to_be_bytes())?;
    Ok(())
}

/// Appends the record at this place, with its frame.
fn push_frame(octets: &mut Vec<u8>, place: u32, frame: &[u8]) -> Result<(), Fail> {
    let size = u32::try_from(frame.len()).unwrap_or(u32::MAX);
    push_record(octets, place, size, size)?;
    octets.extend_from_slice(frame)?;
    Ok(())
}

/// A plain frame of so many octets, each of them the number of its place.
fn plain(alloc: Global, place: u32, size: usize) -> Result<Vec<u8>, Fail> {
    let mut frame = Vec::new(alloc);
    frame.resize(size, (place % 256) as u8)?;
    Ok(frame)
}

/// A capture of plain frames of these sizes, up to the first that is 0.
fn plain_capture(alloc: Global, sizes: [usize; 10]) -> Result<Vec<u8>, Fail> {
    let mut octets = Vec::from_slice(alloc, &HEADER)?;
    let mut place = 0_u32;
    for size in sizes {
        if size == 0 {
            break;
        }
        push_frame(&mut octets, place, plain(alloc, place, size)?.as_slice())?;
        place = place.wrapping_add(1);
    }
    Ok(octets)
}

fn protect<D: SectorDisk>(endpoint: &mut Endpoint<D>, plain: &[u8], out: &mut FrameBuf) -> bool {
    endpoint.protect(plain, out).is_ok()
}

fn next_number<D: SectorDisk>(rt: &impl Abort, endpoint: &Endpoint<D>) -> Option<u64> {
    endpoint.next_number(number_of(rt, 0))
}

/// A new endpoint that sends under association 0.
fn sender(rt: &impl Abort, alloc: Global) -> Endpoint<MemDisk> {
    sending(rt, formatted(rt, alloc, OWN, 4))
}

/// The endpoint of a disk, receiving under the peer's association 2 from packet number 1 on.
fn receiving<D: SectorDisk + Drop>(rt: &impl Abort, disk: D) -> Endpoint<D> {
    let mut endpoint = opened(rt, disk);
    let install = Command::RxInstall {
        sci: PEER,
        an: number_of(rt, 2),
        key: PEER_KEY,
        start: 1,
        offset: 0,
    };
    command(rt, &mut endpoint, Command::RxAdd { sci: PEER });
    command(rt, &mut endpoint, install);
    endpoint
}

/// A new endpoint that receives so.
fn receiver(rt: &impl Abort, alloc: Global) -> Endpoint<MemDisk> {
    receiving(rt, formatted(rt, alloc, OWN, 4))
}

fn summary(passed: u64, dropped: u64) -> Result<Summary, RunFault> {
    Ok(Summary { passed, dropped })
}
