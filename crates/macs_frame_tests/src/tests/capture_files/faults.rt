//! Octets that are no capture, or no whole one, and a record too many.

use super::Outcome::{Header, Records};
use super::{
    BIG, HEADER, LITTLE, Outcome, STAMP, WHOLE, gives, reading_of, source_of, with_octets,
};
use macs_pcap::{PcapFault, Source, Stamp, read_record};
use std::alloc::Global;
use std::process::Abort;

/// A header that is too short is cut, whatever is in it.
#[test]
fn short_headers_are_cut(rt: HostRuntime) {
    let octets = with_octets(&rt, BIG, 0, [0; 4]);
    for length in [4, 23] {
        let (front, _) = octets.split_at(length);
        assert!(rt; reading_of(&rt, rt.alloc(), front, 0) == Header(PcapFault::CutFile));
    }
}

/// Inside the header and inside a record a capture is cut; after the header and after a record it
/// ends. Both captures of 43 octets: 2 * 44 lengths.
#[test]
fn cut_at_every_length(rt: HostRuntime) {
    let mut captures = 0_u32;
    for whole in [BIG, LITTLE] {
        for length in 0..=WHOLE {
            let expected = if length < HEADER {
                Header(PcapFault::CutFile)
            } else if length == HEADER {
                Records(0, None)
            } else if length < WHOLE {
                Records(0, Some(PcapFault::CutFile))
            } else {
                Records(1, None)
            };
            let (octets, _) = whole.split_at(length);
            assert!(rt;
                reading_of(&rt, rt.alloc(), octets, 0) == expected,
                "length {length}"
            );
            captures = captures.wrapping_add(1);
        }
    }
    assert!(rt; captures == 88);
}

/// Four octets from a place on that are changed.
type Change = (usize, [u8; 4]);

/// No change: the zone as it was.
const SAME: Change = (8, [0x11, 0x12, 0x13, 0x14]);

const NO_MAGIC: Change = (0, [0xa1, 0xb2, 0xc3, 0xd5]);

const OTHER_VERSION: Change = (4, [0, 2, 0, 3]);

const OTHER_LINK: Change = (20, [0, 0, 0, 101]);

const TOO_LONG: Change = (32, [0, 4, 0, 1]);

/// What is changed, and what is found: of two faults the first one.
const FAULTS: [([Change; 2], Outcome); 18] = [
    ([NO_MAGIC, SAME], Header(PcapFault::BadMagic)),
    (
        [(0, [0xb2, 0xa1, 0xd4, 0xc3]), SAME],
        Header(PcapFault::BadMagic),
    ),
    ([NO_MAGIC, OTHER_VERSION], Header(PcapFault::BadMagic)),
    ([NO_MAGIC, OTHER_LINK], Header(PcapFault::BadMagic)),
    ([OTHER_VERSION, SAME], Header(PcapFault::BadVersion)),
    ([(4, [0, 1, 0, 4]), SAME], Header(PcapFault::BadVersion)),
    ([OTHER_VERSION, OTHER_LINK], Header(PcapFault::BadVersion)),
    ([OTHER_LINK, SAME], Header(PcapFault::NotEthernet)),
    ([(20, [0, 1, 0, 1]), SAME], Header(PcapFault::NotEthernet)),
    ([(20, [1, 0, 0, 0]), SAME], Header(PcapFault::NotEthernet)),
    ([TOO_LONG, SAME], Records(0, Some(PcapFault::RecordTooLong))),
    (
        [TOO_LONG, (36, [0, 4, 0, 2])],
        Records(0, Some(PcapFault::RecordTooLong)),
    ),
    (
        [(32, [0xff; 4]), SAME],
        Records(0, Some(PcapFault::RecordTooLong)),
    ),
    (
        [(36, [0, 0, 0, 4]), SAME],
        Records(0, Some(PcapFault::CutRecord)),
    ),
    (
        [(32, [0, 0, 0, 4]), (36, [0, 0, 0, 5])],
        Records(0, Some(PcapFault::CutRecord)),
    ),
    ([(36, [0, 0, 0, 2]), SAME], Records(1, None)),
    ([(36, [0; 4]), SAME], Records(1, None)),
    (
        [(32, [0, 4, 0, 0]), SAME],
        Records(0, Some(PcapFault::CutFile)),
    ),
];

fn changed(rt: &impl Abort, octets: [u8; WHOLE], change: Change) -> [u8; WHOLE] {
    let (place, four) = change;
    with_octets(rt, octets, place, four)
}

fn finds(rt: &impl Abort, alloc: Global, changes: [Change; 2], expected: Outcome) {
    let [first, second] = changes;
    let octets = changed(rt, changed(rt, BIG, first), second);
    assert!(rt; reading_of(rt, alloc, &octets, 0) == expected);
}

#[test]
fn the_first_fault_is_found(rt: HostRuntime) {
    for (changes, expected) in FAULTS {
        finds(&rt, rt.alloc(), changes, expected);
    }
}

/// Reads the record of the worked capture, or its end, after so many records.
fn read_after<R: Source>(
    source: &mut R,
    alloc: Global,
    count: u32,
) -> Result<Option<Stamp>, PcapFault> {
    read_record(source, true, count, &mut Vec::new(alloc))
}

/// After 2^32 - 2 records there may be one more, and after 2^32 - 1 only the end.
#[test]
fn the_last_record_has_the_greatest_number(rt: HostRuntime) {
    let (_, record) = BIG.split_at(HEADER);
    let mut last = source_of(record, 0);
    assert!(rt; gives(read_after(&mut last, rt.alloc(), u32::MAX - 1), Some(STAMP)));
    assert!(rt; gives(read_after(&mut last, rt.alloc(), u32::MAX), None));
    let mut beyond = source_of(record, 0);
    let answer = read_after(&mut beyond, rt.alloc(), u32::MAX);
    assert!(rt; answer == Err(PcapFault::TooManyRecords));
}
