//! Reads and writes that fail, each call in turn.

use super::Outcome::{Header, Records};
use super::{BIG, HEADER, LITTLE, SIGFIGS, WHOLE, ZONE, reading_of, with_octets, write_whole};
use macs_fixtures::{Failure, NarrowWriter};
use macs_pcap::{Header as CaptureHeader, PcapFault, WriterSink};
use std::alloc::Global;
use std::process::Abort;

/// Each octet takes a read, and the end one more: 44 calls of each of two captures, and five that
/// do not come.
#[test]
fn each_read_fails_in_turn(rt: HostRuntime) {
    let mut readings = 0_u32;
    for whole in [BIG, LITTLE] {
        for call in 1..50 {
            let expected = if call > 44 {
                Records(1, None)
            } else if call == 44 {
                Records(1, Some(PcapFault::Read))
            } else if call > HEADER as u64 {
                Records(0, Some(PcapFault::Read))
            } else {
                Header(PcapFault::Read)
            };
            assert!(rt;
                reading_of(&rt, rt.alloc(), &whole, call) == expected,
                "read {call}"
            );
            readings = readings.wrapping_add(1);
        }
    }
    assert!(rt; readings == 2 * (44 + 5));
}

/// What is wrong with a record header is found before its frame is read.
#[test]
fn record_headers_are_judged_before_frames_are_read(rt: HostRuntime) {
    for (place, fault) in [(32, PcapFault::RecordTooLong), (36, PcapFault::CutRecord)] {
        let octets = with_octets(&rt, BIG, place, [0, 4, 0, 1]);
        assert!(rt; reading_of(&rt, rt.alloc(), &octets, 41) == Records(0, Some(fault)));
    }
}

/// Writes the worked capture, of whose calls one fails. What was written is the front of the
/// capture.
fn expect_front(rt: &impl Abort, alloc: Global, big: bool, failure: Failure, call: u64) {
    let header = CaptureHeader {
        big,
        nanos: false,
        zone: ZONE,
        sigfigs: SIGFIGS,
    };
    let mut writer = NarrowWriter::new(alloc, call, failure);
    let answer = write_whole(rt, WriterSink::new(&mut writer), &header);
    let is_whole = call == 0 || call > 44;
    let expected = if is_whole {
        Ok(())
    } else {
        Err(PcapFault::Write)
    };
    assert!(rt; answer == expected, "write {call}");
    let written = if is_whole { WHOLE } else { call as usize - 1 };
    let whole = if big { BIG } else { LITTLE };
    let (front, _) = whole.split_at(written);
    assert!(rt; writer.octets() == front, "write {call}");
}

/// Each octet takes a write, and the flush is one call more: 44 calls of each of two captures,
/// which fail in three ways, and five that do not come. No call that was interrupted is made again.
#[test]
fn each_write_fails_in_turn(rt: HostRuntime) {
    let mut writings = 0_u32;
    for big in [true, false] {
        for failure in [Failure::Error, Failure::Interrupted, Failure::Nothing] {
            for call in 1..50 {
                expect_front(&rt, rt.alloc(), big, failure, call);
                writings = writings.wrapping_add(1);
            }
        }
    }
    assert!(rt; writings == 6 * (44 + 5));
}
