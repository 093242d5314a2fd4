//! A record of each kind, with each octet of its sector set to each of the 256 values.

use super::sector_of;
use macs_record::RecordFault::{Field, Kind, Rest};
use macs_record::{SECTOR, decode, encode};
use std::process::Abort;

/// How many sectors are records, and how many are refused as `Kind`, `Field` and `Rest`.
type Counts = [u32; 4];

/// What the sector of a record begins with, and the answers for all that are made of it.
struct Row {
    front: &'static [u8],
    counts: Counts,
}

/// No mark (4 octets) or no kind (0, and 22 to 255).
const NO_KIND: u32 = 4 * 255 + 235;

/// Worked out from the layout. The summands of each count, in this order:
/// - records: the mark, the kinds that fit what is after them, the field values in range, the zeros
///   after the fields;
/// - `Field`: the kinds that find a wrong field there, the field values out of range;
/// - `Rest`: the kinds that leave octets after their fields, the field values that do, 255 for each
///   zero.
///
/// Of a snapshot: settings, a transmit association, a channel, a receive association, spent keys.
const SNAPSHOT: &[Row] = &[
    Row {
        front: b"MREC\x01\x01\x01\x01\x02\x03\x04\x02\x03",
        counts: [4 + 6 + 1_036 + 499, NO_KIND, 10 + 1_012, 5 + 255 * 499],
    },
    Row {
        front: b"MREC\x02\x010123456789abcdef\0\0\0\0\x01\x02\x03\x04\x01\x1e",
        counts: [4 + 1 + 5_132 + 480, NO_KIND, 12 + 1_780, 8 + 255 * 480],
    },
    Row {
        front: b"MREC\x03peer-A\x00\x07",
        counts: [4 + 4 + 2_048 + 499, NO_KIND, 17, 255 * 499],
    },
    Row {
        front: b"MREC\x04peer-A\x00\x07\x020123456789abcdef\0\0\0\0\x01\x02\x03\x04\x1e",
        counts: [4 + 1 + 7_179 + 473, NO_KIND, 16 + 1_525, 4 + 255 * 473],
    },
    Row {
        front: b"MREC\x05\x01\x02the first of the fingerprints 01the last one of the fingerprints",
        counts: [4 + 1 + 16_400 + 441, NO_KIND, 12 + 495, 8 + 1 + 255 * 441],
    },
];

/// Of commands, as `SNAPSHOT`: the three settings, and those for transmit associations.
const TRANSMIT: &[Row] = &[
    Row {
        front: b"MREC\x06\x01",
        counts: [4 + 10 + 2 + 506, NO_KIND, 11 + 254, 255 * 506],
    },
    Row {
        front: b"MREC\x07\x01\x01\x02\x03\x04",
        counts: [4 + 7 + 1_026 + 502, NO_KIND, 10 + 254, 4 + 255 * 502],
    },
    Row {
        front: b"MREC\x08\x02",
        counts: [4 + 7 + 3 + 506, NO_KIND, 14 + 253, 255 * 506],
    },
    Row {
        front: b"MREC\x09\x010123456789abcdef\x01\x02\x03\x04\x01\x1e",
        counts: [4 + 1 + 5_128 + 484, NO_KIND, 12 + 760, 8 + 255 * 484],
    },
    Row {
        front: b"MREC\x0a\x03",
        counts: [4 + 6 + 4 + 506, NO_KIND, 15 + 252, 255 * 506],
    },
    Row {
        front: b"MREC\x0b\x00",
        counts: [4 + 10 + 4 + 506, NO_KIND, 11 + 252, 255 * 506],
    },
];

/// Of commands, as `SNAPSHOT`: those for receive channels and their associations.
const RECEIVE: &[Row] = &[
    Row {
        front: b"MREC\x0cpeer-A\x00\x07",
        counts: [4 + 4 + 2_048 + 499, NO_KIND, 17, 255 * 499],
    },
    Row {
        front: b"MREC\x0dpeer-A\x00\x07",
        counts: [4 + 4 + 2_048 + 499, NO_KIND, 17, 255 * 499],
    },
    Row {
        front: b"MREC\x0epeer-A\x00\x07\x020123456789abcdef\x01\x02\x03\x04\x32",
        counts: [4 + 1 + 7_175 + 477, NO_KIND, 16 + 505, 4 + 255 * 477],
    },
    Row {
        front: b"MREC\x0fpeer-A\x00\x07\x02",
        counts: [4 + 1 + 2_052 + 498, NO_KIND, 17 + 252, 3 + 255 * 498],
    },
];

/// Of raised ceilings, as `SNAPSHOT`.
const CEILINGS: &[Row] = &[
    Row {
        front: b"MREC\x10\x02\0\0\0\0\0\0\0\x09",
        counts: [4 + 1 + 1_031 + 498, NO_KIND, 14 + 1_273, 6 + 255 * 498],
    },
    Row {
        front: b"MREC\x11peer-A\x00\x07\x02\0\0\0\x01\0\0\0\0",
        counts: [4 + 1 + 2_060 + 490, NO_KIND, 16 + 2_292, 4 + 255 * 490],
    },
];

/// Of associations and commands with a long key, as `SNAPSHOT`.
const LONG_KEYS: &[Row] = &[
    Row {
        front: b"MREC\x12\x010123456789abcdefghijklmnopqrstuv\0\0\0\0\x01\x02\x03\x04\x01\x1e",
        counts: [4 + 1 + 9_228 + 464, NO_KIND, 12 + 1_780, 8 + 255 * 464],
    },
    Row {
        front: b"MREC\x13peer-A\x00\x07\x020123456789abcdefghijklmnopqrstuv\0\0\0\0\x01\x02\x03\x04\x1e",
        counts: [4 + 1 + 11_275 + 457, NO_KIND, 16 + 1_525, 4 + 255 * 457],
    },
    Row {
        front: b"MREC\x14\x010123456789abcdefghijklmnopqrstuv\x01\x02\x03\x04\x01\x1e",
        counts: [4 + 1 + 9_224 + 468, NO_KIND, 12 + 760, 8 + 255 * 468],
    },
    Row {
        front: b"MREC\x15peer-A\x00\x07\x020123456789abcdefghijklmnopqrstuv\x01\x02\x03\x04\x32",
        counts: [4 + 1 + 11_271 + 461, NO_KIND, 16 + 505, 4 + 255 * 461],
    },
];

/// The place of a sector's answer among the counts. A record is written as the very sector it was
/// read from.
fn place_of(rt: &impl Abort, sector: &[u8; SECTOR]) -> usize {
    match decode(sector) {
        Ok(read) => {
            assert!(rt; encode(&read) == *sector);
            0
        }
        Err(Kind) => 1,
        Err(Field) => 2,
        Err(Rest) => 3,
    }
}

/// Sets an octet to each value and counts the answers.
fn count(rt: &impl Abort, sector: &[u8; SECTOR], at: usize, counts: &mut Counts) {
    let mut changed = *sector;
    assert!(rt; at < SECTOR);
    for value in 0..=u8::MAX {
        changed[at] = value;
        let place = place_of(rt, &changed);
        assert!(rt; place < counts.len());
        counts[place] = counts[place].saturating_add(1);
    }
}

fn add(total: &mut Counts, counts: &Counts) {
    for place in 0..4 {
        total[place] = total[place].saturating_add(counts[place]);
    }
}

/// The answers where each octet of each row's sector is set to each value in turn.
fn answers_to(rt: &impl Abort, rows: &[Row]) -> Counts {
    let mut total = [0; 4];
    for row in rows {
        let sector = sector_of(rt, row.front);
        let mut counts = [0; 4];
        for at in 0..SECTOR {
            count(rt, &sector, at, &mut counts);
        }
        assert!(rt; counts == row.counts);
        add(&mut total, &counts);
    }
    total
}

/// 5 * 512 * 256 = 655,360 sectors.
#[test]
fn each_octet_of_a_snapshot(rt: HostRuntime) {
    assert!(rt; answers_to(&rt, SNAPSHOT) == [34_220, 6_275, 4_879, 609_986]);
}

/// 6 * 512 * 256 = 786,432 sectors.
#[test]
fn each_octet_of_settings_and_transmit_commands(rt: HostRuntime) {
    assert!(rt; answers_to(&rt, TRANSMIT) == [9_242, 7_530, 2_098, 767_562]);
}

/// 4 * 512 * 256 = 524,288 sectors.
#[test]
fn each_octet_of_receive_commands(rt: HostRuntime) {
    assert!(rt; answers_to(&rt, RECEIVE) == [15_322, 5_020, 824, 503_122]);
}

/// 2 * 512 * 256 = 262,144 sectors.
#[test]
fn each_octet_of_ceilings(rt: HostRuntime) {
    assert!(rt; answers_to(&rt, CEILINGS) == [4_089, 2_510, 3_595, 251_950]);
}

/// 4 * 512 * 256 = 524,288 sectors; with those above 2,752,512, of which 105,741 are records.
#[test]
fn each_octet_of_records_with_a_long_key(rt: HostRuntime) {
    assert!(rt; answers_to(&rt, LONG_KEYS) == [42_868, 5_020, 4_626, 471_774]);
}
