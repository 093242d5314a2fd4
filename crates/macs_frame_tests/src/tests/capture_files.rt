//! Captures written out by hand from the tables of the format, and readers and writers that move
//! one octet a call and fail where they are told to.

mod buffers;
mod elsewhere;
mod failures;
mod faults;
mod forms;
mod memory;
mod vectors;

use macs_fixtures::NarrowReader;
use macs_pcap::{
    Header, PcapFault, PcapReader, PcapWriter, ReaderSource, Sink, Source, Stamp, WriterSink,
};
use std::alloc::{Allocator, Global};
use std::process::Abort;

/// The octets of a header, and of a whole capture with one record of three octets.
const HEADER: usize = 24;

const WHOLE: usize = 43;

/// What the worked captures say, and their frame.
const ZONE: u32 = 0x1112_1314;

const SIGFIGS: u32 = 0x2122_2324;

const STAMP: Stamp = Stamp {
    seconds: 0x3132_3334,
    fraction: 0x4142_4344,
};

const FRAME: [u8; 3] = *b"abc";

/// Highest octets first, stamps in microseconds.
const BIG: [u8; WHOLE] = [
    0xa1, 0xb2, 0xc3, 0xd4, 0, 2, 0, 4, 0x11, 0x12, 0x13, 0x14, 0x21, 0x22, 0x23, 0x24, 0, 4, 0, 0,
    0, 0, 0, 1, 0x31, 0x32, 0x33, 0x34, 0x41, 0x42, 0x43, 0x44, 0, 0, 0, 3, 0, 0, 0, 3, b'a', b'b',
    b'c',
];

/// Lowest octets first, stamps in microseconds.
const LITTLE: [u8; WHOLE] = [
    0xd4, 0xc3, 0xb2, 0xa1, 2, 0, 4, 0, 0x14, 0x13, 0x12, 0x11, 0x24, 0x23, 0x22, 0x21, 0, 0, 4, 0,
    1, 0, 0, 0, 0x34, 0x33, 0x32, 0x31, 0x44, 0x43, 0x42, 0x41, 3, 0, 0, 0, 3, 0, 0, 0, b'a', b'b',
    b'c',
];

/// Octets with some of them changed.
fn with_octets(
    rt: &impl Abort,
    mut octets: [u8; WHOLE],
    place: usize,
    changed: [u8; 4],
) -> [u8; WHOLE] {
    assert!(rt; place < WHOLE - 4);
    for i in 0..4 {
        octets[place + i] = changed[i];
    }
    octets
}

/// A reader of these octets, of which one call fails.
fn source_of(octets: &[u8], fails_at: u64) -> ReaderSource<NarrowReader<'_>> {
    ReaderSource::new(NarrowReader::new(octets, fails_at))
}

/// What comes of a capture that is read.
#[derive(Clone, Copy, PartialEq, Eq)]
enum Outcome {
    /// The header is refused for this.
    Header(PcapFault),
    /// So many capture records are read, and then comes this fault, or the end.
    Records(u64, Option<PcapFault>),
}

fn begin<R: Source + Drop>(source: R) -> Result<PcapReader<R>, PcapFault> {
    PcapReader::new(source)
}

fn take<R: Source, A: Allocator>(
    reader: &mut PcapReader<R>,
    frame: &mut Vec<u8, A>,
) -> Result<Option<Stamp>, PcapFault> {
    reader.next(frame)
}

fn gives(answer: Result<Option<Stamp>, PcapFault>, expected: Option<Stamp>) -> bool {
    answer == Ok(expected)
}

/// Reads a capture up to its end or its first fault, which is then asked for once more.
fn outcome_of<R: Source + Drop>(rt: &impl Abort, alloc: Global, source: R) -> Outcome {
    let mut reader = match begin(source) {
        Ok(reader) => reader,
        Err(fault) => return Outcome::Header(fault),
    };
    let mut frame = Vec::new(alloc);
    for count in 0..10_000 {
        let answer = take(&mut reader, &mut frame);
        if let Ok(Some(_)) = answer {
            continue;
        }
        assert!(rt; frame.is_empty());
        if answer.is_err() {
            assert!(rt; take(&mut reader, &mut frame) == answer);
        }
        return Outcome::Records(count, answer.err());
    }
    Outcome::Records(10_000, None)
}

/// Reads these octets, of which one call fails.
fn reading_of(rt: &impl Abort, alloc: Global, octets: &[u8], fails_at: u64) -> Outcome {
    outcome_of(rt, alloc, source_of(octets, fails_at))
}

fn begin_writing<W: Sink + Drop>(sink: W, header: &Header) -> Result<PcapWriter<W>, PcapFault> {
    PcapWriter::new(sink, header)
}

fn put<W: Sink>(
    rt: &impl Abort,
    writer: &mut PcapWriter<W>,
    stamp: Stamp,
    frame: &[u8],
) -> Result<(), PcapFault> {
    assert!(rt; frame.len() <= 262_144);
    writer.put(stamp, frame)
}

fn flush<W: Sink>(writer: &mut PcapWriter<W>) -> Result<(), PcapFault> {
    writer.flush()
}

/// After a fault every further call answers it, too.
fn answers_for_good<W: Sink>(
    rt: &impl Abort,
    writer: &mut PcapWriter<W>,
    fault: Result<(), PcapFault>,
) {
    assert!(rt; put(rt, writer, STAMP, &FRAME) == fault);
    assert!(rt; flush(writer) == fault);
}

/// Writes a header and the worked record, and flushes.
fn write_whole<W: Sink + Drop>(rt: &impl Abort, sink: W, header: &Header) -> Result<(), PcapFault> {
    let mut writer = begin_writing(sink, header)?;
    let answer = put(rt, &mut writer, STAMP, &FRAME);
    let end = flush(&mut writer);
    if end.is_err() {
        assert!(rt; answer.is_ok() || answer == end);
        answers_for_good(rt, &mut writer, end);
    }
    end
}
