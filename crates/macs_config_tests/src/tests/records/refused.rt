//! Sectors that are no records.

use super::{are_refused, sector_of};
use macs_record::RecordFault::{Field, Kind, Rest};
use macs_record::{SECTOR, decode};

const WRONG_KINDS: &[&[u8]] = &[
    b"",
    b"NREC\x06\x00",
    b"MSEC\x06\x00",
    b"MRFC\x06\x00",
    b"MRED\x06\x00",
    b"MREC\x00",
    b"MREC\x16",
    b"MREC\xff",
    b"MREC\x00\x02\x00\x00\x00\x00\x00\x00\x00\x09",
];

#[test]
fn wrong_kinds(rt: HostRuntime) {
    are_refused(&rt, WRONG_KINDS, Kind);
}

const WRONG_SETTINGS: &[&[u8]] = &[
    b"MREC\x01\x02\x01\x00\x00\x00\x00\x00\xff",
    b"MREC\x01\x00\x02\x00\x00\x00\x00\x00\xff",
    b"MREC\x01\x00\x01\x00\x00\x00\x00\x03\xff",
    b"MREC\x01\x00\x01\x00\x00\x00\x00\x00\x04",
    b"MREC\x01\x00\x01\x00\x00\x00\x00\x00\xfe",
    b"MREC\x06\x02",
    b"MREC\x07\x02\x00\x00\x00\x00",
    b"MREC\x08\x03",
];

#[test]
fn wrong_settings(rt: HostRuntime) {
    are_refused(&rt, WRONG_SETTINGS, Field);
}

const WRONG_ASSOCIATION_NUMBERS: &[&[u8]] = &[
    b"MREC\x0a\x04",
    b"MREC\x0b\xff",
    b"MREC\x0fpeer-A\x00\x07\x04",
    b"MREC\x10\x04\x00\x00\x00\x00\x00\x00\x00\x09",
    b"MREC\x11peer-A\x00\x07\x04\x00\x00\x00\x00\x00\x00\x00\x09",
    b"MREC\x02\x040123456789abcdef\x00\x00\x00\x00\x00\x00\x00\x01\x00\x00",
    b"MREC\x09\x040123456789abcdef\x00\x00\x00\x01\x00\x00",
    b"MREC\x12\x040123456789abcdefghijklmnopqrstuv\x00\x00\x00\x00\x00\x00\x00\x01\x00\x00",
    b"MREC\x13peer-A\x00\x07\x040123456789abcdefghijklmnopqrstuv\x00\x00\x00\x00\x00\x00\x00\x01\x00",
    b"MREC\x14\x040123456789abcdefghijklmnopqrstuv\x00\x00\x00\x01\x00\x00",
    b"MREC\x15peer-A\x00\x07\x040123456789abcdefghijklmnopqrstuv\x00\x00\x00\x01\x00",
];

#[test]
fn wrong_association_numbers(rt: HostRuntime) {
    are_refused(&rt, WRONG_ASSOCIATION_NUMBERS, Field);
}

const WRONG_CEILINGS: &[&[u8]] = &[
    b"MREC\x10\x02\x00\x00\x00\x00\x00\x00\x00\x00",
    b"MREC\x10\x02\x00\x00\x00\x01\x00\x00\x00\x01",
    b"MREC\x11peer-A\x00\x07\x01\xff\xff\xff\xff\xff\xff\xff\xff",
    b"MREC\x02\x010123456789abcdef\x00\x00\x00\x00\x00\x00\x00\x00\x00\x00",
    b"MREC\x04peer-A\x00\x07\x010123456789abcdef\x00\x00\x00\x02\x00\x00\x00\x00\x00",
    b"MREC\x12\x010123456789abcdefghijklmnopqrstuv\x00\x00\x00\x00\x00\x00\x00\x00\x00\x00",
    b"MREC\x13peer-A\x00\x07\x010123456789abcdefghijklmnopqrstuv\x00\x00\x00\x02\x00\x00\x00\x00\x00",
];

#[test]
fn wrong_ceilings(rt: HostRuntime) {
    are_refused(&rt, WRONG_CEILINGS, Field);
}

const WRONG_STARTS: &[&[u8]] = &[
    b"MREC\x09\x010123456789abcdef\x00\x00\x00\x00\x00\x00",
    b"MREC\x0epeer-A\x00\x07\x010123456789abcdef\x00\x00\x00\x00\x00",
    b"MREC\x14\x010123456789abcdefghijklmnopqrstuv\x00\x00\x00\x00\x00\x00",
    b"MREC\x15peer-A\x00\x07\x010123456789abcdefghijklmnopqrstuv\x00\x00\x00\x00\x00",
];

#[test]
fn wrong_starts(rt: HostRuntime) {
    are_refused(&rt, WRONG_STARTS, Field);
}

const WRONG_OFFSETS: &[&[u8]] = &[
    b"MREC\x09\x010123456789abcdef\x00\x00\x00\x01\x01\x14",
    b"MREC\x09\x010123456789abcdef\x00\x00\x00\x01\x02\x00",
    b"MREC\x0epeer-A\x00\x07\x010123456789abcdef\x00\x00\x00\x01\x14",
    b"MREC\x09\x010123456789abcdef\x00\x00\x00\x01\x00\x1e",
    b"MREC\x02\x010123456789abcdef\x00\x00\x00\x00\x00\x00\x00\x01\x00\x32",
    b"MREC\x04peer-A\x00\x07\x010123456789abcdef\x00\x00\x00\x00\x00\x00\x00\x01\x33",
    b"MREC\x12\x010123456789abcdefghijklmnopqrstuv\x00\x00\x00\x00\x00\x00\x00\x01\x00\x32",
    b"MREC\x13peer-A\x00\x07\x010123456789abcdefghijklmnopqrstuv\x00\x00\x00\x00\x00\x00\x00\x01\x33",
    b"MREC\x14\x010123456789abcdefghijklmnopqrstuv\x00\x00\x00\x01\x01\x14",
    b"MREC\x15peer-A\x00\x07\x010123456789abcdefghijklmnopqrstuv\x00\x00\x00\x01\x14",
];

#[test]
fn wrong_offsets(rt: HostRuntime) {
    are_refused(&rt, WRONG_OFFSETS, Field);
}

const WRONG_SPENT_KEYS: &[&[u8]] = &[
    b"MREC\x05\x02\x01the first of the fingerprints 01",
    b"MREC\x05\x00\x00",
    b"MREC\x05\x00\x00the first of the fingerprints 01",
    b"MREC\x05\x00\x10",
    b"MREC\x05\x00\xff",
];

#[test]
fn wrong_spent_keys(rt: HostRuntime) {
    are_refused(&rt, WRONG_SPENT_KEYS, Field);
}

const OCTETS_BEHIND_THE_FIELDS: &[&[u8]] = &[
    b"MREC\x06\x00\x01",
    b"MREC\x0a\x03\x00\x01",
    b"MREC\x05\x00\x01the first of the fingerprints 01one more",
    b"MREC\x03peer-A\x00\x07\x80",
    b"MREC\x12\x010123456789abcdefghijklmnopqrstuv\x00\x00\x00\x00\x00\x00\x00\x01\x00\x00\x01",
    b"MREC\x15peer-A\x00\x07\x010123456789abcdefghijklmnopqrstuv\x00\x00\x00\x01\x00\x01",
];

#[test]
fn octets_behind_the_fields(rt: HostRuntime) {
    are_refused(&rt, OCTETS_BEHIND_THE_FIELDS, Rest);
}

#[test]
fn last_octet(rt: HostRuntime) {
    let mut sector = sector_of(&rt, b"MREC\x10\x02\x00\x00\x00\x00\x00\x00\x00\x09");
    sector[SECTOR - 1] = 1;
    assert_eq!(rt; decode(&sector).err(), Some(Rest));
}
