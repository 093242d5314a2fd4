//! Readers and writers of the standard library that move 65,536 octets at a time.

use super::Outcome::Records;
use super::{
    BIG, FRAME, HEADER, Outcome, SIGFIGS, STAMP, ZONE, begin_writing, flush, outcome_of, put,
    with_octets,
};
use macs_pcap::{Header, PcapFault, PcapWriter, ReaderSource, Sink, WriterSink};
use std::alloc::Global;
use std::io::{self, BufReader, BufWriter, Read, Write};
use std::process::Abort;
use std::test::Fail;

/// The octets that are moved at a time.
const BUFFER: usize = 65_536;

/// A reader that counts its calls.
#[derive(Drop)]
struct CountedReader<'a> {
    octets: &'a [u8],
    calls: u64,
}

impl Read for CountedReader<'_> {
    fn read(&mut self, into: &mut [u8]) -> io::Result<usize> {
        self.calls = self.calls.wrapping_add(1);
        self.octets.read(into)
    }
}

/// A writer that counts its calls, and fails at one.
#[derive(Drop)]
struct CountedWriter {
    octets: Vec<u8>,
    calls: u64,
    fails_at: u64,
}

impl Write for CountedWriter {
    fn write(&mut self, from: &[u8]) -> io::Result<usize> {
        self.calls = self.calls.wrapping_add(1);
        if self.calls == self.fails_at {
            return Ok(0);
        }
        self.octets.extend_from_slice(from)?;
        Ok(from.len())
    }

    fn flush(&mut self) -> io::Result<()> {
        Ok(())
    }
}

/// A capture of so many records of three octets.
fn many(rt: &(impl Abort + AllocGlobal), records: u64) -> Result<Vec<u8>, Fail> {
    let mut octets = Vec::new(rt.alloc());
    let (header, one) = BIG.split_at(HEADER);
    octets.extend_from_slice(header)?;
    for _ in 0..records {
        octets.extend_from_slice(one)?;
    }
    Ok(octets)
}

/// Reads a capture through a buffer.
fn outcome_through(
    rt: &(impl Abort + AllocGlobal),
    below: &mut CountedReader<'_>,
) -> Result<Outcome, Fail> {
    let reader = BufReader::with_capacity(rt.alloc(), BUFFER, below)?;
    Ok(outcome_of(rt, rt.alloc(), ReaderSource::new(reader)))
}

/// 7,000 records have 133,024 octets: three reads, and one at the end.
#[test]
fn a_read_is_not_made_for_each_record(rt: HostRuntime) -> Result<(), Fail> {
    let octets = many(&rt, 7_000)?;
    let mut below = CountedReader {
        octets: &octets,
        calls: 0,
    };
    assert!(rt; outcome_through(&rt, &mut below)? == Records(7_000, None));
    assert!(rt; below.calls <= 5);
    Ok(())
}

/// A capture that is written through a buffer.
type Buffered<'a> = PcapWriter<WriterSink<BufWriter<&'a mut CountedWriter>>>;

fn writer_over<'a>(
    rt: &(impl Abort + AllocGlobal),
    below: &'a mut CountedWriter,
) -> Result<Buffered<'a>, Fail> {
    let buffered = BufWriter::with_capacity(rt.alloc(), BUFFER, below)?;
    let header = Header {
        big: true,
        nanos: false,
        zone: ZONE,
        sigfigs: SIGFIGS,
    };
    Ok(
        begin_writing(WriterSink::new(buffered), &header)
            .ok()
            .expect(rt, "header"),
    )
}

fn counted(alloc: Global, fails_at: u64) -> CountedWriter {
    CountedWriter {
        octets: Vec::new(alloc),
        calls: 0,
        fails_at,
    }
}

/// A frame of 262,144 octets, and the capture that has it.
fn longest(rt: &(impl Abort + AllocGlobal)) -> Result<(Vec<u8>, Vec<u8>), Fail> {
    let kept = with_octets(rt, BIG, 32, [0, 4, 0, 0]);
    let front = with_octets(rt, kept, 36, [0, 4, 0, 0]);
    let mut frame = Vec::new(rt.alloc());
    frame.extend_from_slice(&FRAME)?;
    frame.resize(262_144, 7)?;
    let mut octets = Vec::new(rt.alloc());
    let (headers, _) = front.split_at(HEADER + 16);
    octets.extend_from_slice(headers)?;
    octets.extend_from_slice(&frame)?;
    Ok((frame, octets))
}

/// The longest frame is read past a buffer that has no room for it.
#[test]
fn the_longest_frame_is_read(rt: HostRuntime) -> Result<(), Fail> {
    let (_, octets) = longest(&rt)?;
    let mut below = CountedReader {
        octets: &octets,
        calls: 0,
    };
    assert!(rt; outcome_through(&rt, &mut below)? == Records(1, None));
    Ok(())
}

fn put_many<W: Sink>(rt: &impl Abort, writer: &mut PcapWriter<W>, frame: &[u8], records: u64) {
    for _ in 0..records {
        assert!(rt; put(rt, writer, STAMP, frame).is_ok());
    }
}

/// Writes so many records of a frame through a buffer.
fn write_through(
    rt: &(impl Abort + AllocGlobal),
    below: &mut CountedWriter,
    frame: &[u8],
    records: u64,
) -> Result<(), Fail> {
    let mut writer = writer_over(rt, below)?;
    put_many(rt, &mut writer, frame, records);
    assert!(rt; flush(&mut writer).is_ok());
    Ok(())
}

/// The longest frame is written past a buffer that has no room for it.
#[test]
fn the_longest_frame_is_written(rt: HostRuntime) -> Result<(), Fail> {
    let (frame, octets) = longest(&rt)?;
    let mut below = counted(rt.alloc(), 0);
    write_through(&rt, &mut below, &frame, 1)?;
    assert!(rt; below.octets.as_slice() == octets.as_slice());
    Ok(())
}

#[test]
fn a_write_is_not_made_for_each_record(rt: HostRuntime) -> Result<(), Fail> {
    let mut below = counted(rt.alloc(), 0);
    write_through(&rt, &mut below, &FRAME, 7_000)?;
    assert!(rt; below.calls <= 4);
    assert!(rt; below.octets.as_slice() == many(&rt, 7_000)?.as_slice());
    Ok(())
}

/// What a writer keeps back fails late: the flush reports it, and so does every call from then on.
#[test]
fn a_late_failure_is_told_by_the_flush(rt: HostRuntime) -> Result<(), Fail> {
    let mut below = counted(rt.alloc(), 1);
    let mut writer = writer_over(&rt, &mut below)?;
    assert!(rt; put(&rt, &mut writer, STAMP, &FRAME).is_ok());
    for _ in 0..2 {
        assert!(rt; flush(&mut writer) == Err(PcapFault::Write));
        assert!(rt; put(&rt, &mut writer, STAMP, &FRAME) == Err(PcapFault::Write));
    }
    drop(writer);
    assert!(rt; BIG.as_slice().starts_with(below.octets.as_slice()));
    Ok(())
}
