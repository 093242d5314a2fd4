//! Captures that another program wrote.

use super::vectors::CAPTURES;
use super::{begin, begin_writing, gives, put, source_of, take};
use macs_fixtures::{Failure, NarrowWriter};
use macs_pcap::{Header, PcapFault, PcapReader, Sink, Source, Stamp, WriterSink};
use std::alloc::Global;
use std::process::Abort;

/// When the two frames were captured, in microseconds and in nanoseconds.
const MICROS: [Stamp; 2] = [
    Stamp {
        seconds: 1_234_567_890,
        fraction: 123_456,
    },
    Stamp {
        seconds: u32::MAX,
        fraction: 999_999,
    },
];

const NANOS: [Stamp; 2] = [
    Stamp {
        seconds: 1_234_567_890,
        fraction: 123_456_789,
    },
    Stamp {
        seconds: u32::MAX,
        fraction: 999_999_999,
    },
];

/// The two frames.
const FRAMES: [&[u8]; 2] = [
    &[0, 1, 2, 3, 4, 5, 6, 7, 8, 9, 10, 11, 12, 13],
    b"defghijklmnopqrst",
];

/// What a capture says, by its number among the four.
fn header_of(at: usize) -> Header {
    Header {
        big: at < 2,
        nanos: at == 1 || at == 3,
        zone: 0,
        sigfigs: 0,
    }
}

fn stamps_of(header: &Header) -> &'static [Stamp; 2] {
    if header.nanos { &NANOS } else { &MICROS }
}

/// The reader gives the two frames with their stamps, and then the end.
fn gives_both<R: Source>(
    rt: &impl Abort,
    alloc: Global,
    reader: &mut PcapReader<R>,
    stamps: &[Stamp; 2],
) {
    let mut frame = Vec::new(alloc);
    for i in 0..2 {
        assert!(rt; gives(take(reader, &mut frame), Some(stamps[i])));
        assert!(rt; frame.as_slice() == FRAMES[i]);
    }
    assert!(rt; gives(take(reader, &mut frame), None));
}

#[test]
fn each_is_read(rt: HostRuntime) {
    for at in 0..4 {
        let mut reader = begin(source_of(&CAPTURES[at], 0))
            .ok()
            .expect(&rt, "header");
        let header = *reader.header();
        assert!(rt; header == header_of(at));
        gives_both(&rt, rt.alloc(), &mut reader, stamps_of(&header));
    }
}

/// Writes the two frames.
fn write_both<W: Sink + Drop>(rt: &impl Abort, sink: W, header: &Header) -> Result<(), PcapFault> {
    let mut writer = begin_writing(sink, header)?;
    let stamps = stamps_of(header);
    for i in 0..2 {
        put(rt, &mut writer, stamps[i], FRAMES[i])?;
    }
    Ok(())
}

#[test]
fn each_is_written(rt: HostRuntime) {
    for at in 0..4 {
        let mut writer = NarrowWriter::new(rt.alloc(), 0, Failure::Error);
        assert!(rt; write_both(&rt, WriterSink::new(&mut writer), &header_of(at)).is_ok());
        assert!(rt; writer.octets() == CAPTURES[at].as_slice());
    }
}
