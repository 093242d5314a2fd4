//! Heads and their octets, written out by hand.

use super::sector_of;
use macs_config::Identity;
use macs_fields::Sci;
use macs_record::{Format, Head, SECTOR, decode_head, encode_head};
use std::process::Abort;

/// An SCI whose octets differ.
const SCI: Sci = Sci(*b"\x12\x15\x35\x24\xc0\x89\x5e\x81");

/// The first head of a journal, with one record and blocks of 4.
const FIRST: &[u8] =
    b"MSECHEAD\0\0\0\x01\0\0\0\0\0\0\0\x01\0\0\0\x01\x12\x15\x35\x24\xc0\x89\x5e\x81\0\0\0\x04\0\0\0\x04";

fn identity_of(rt: &impl Abort, tx_block: u32, rx_block: u32) -> Identity {
    Identity::new(SCI, tx_block, rx_block).expect(rt, "identity")
}

/// A head with blocks of 4.
fn head_of(rt: &impl Abort, generation: u64, count: u32) -> Head {
    Head::new(Format::One, generation, count, identity_of(rt, 4, 4)).expect(rt, "head")
}

/// A head of generation 1 with one record.
fn head_with_blocks(rt: &impl Abort, tx_block: u32, rx_block: u32) -> Head {
    Head::new(Format::One, 1, 1, identity_of(rt, tx_block, rx_block)).expect(rt, "head")
}

/// The sector of the first head, but that these octets are at a place.
fn first_but(rt: &impl Abort, place: usize, octets: &[u8]) -> [u8; SECTOR] {
    let mut sector = sector_of(rt, FIRST);
    assert!(rt; place <= SECTOR && octets.len() <= SECTOR - place);
    sector[place..place + octets.len()].copy_from_slice(octets);
    sector
}

/// The head is written as this sector, and that is read as it.
fn stands_as(rt: &impl Abort, head: Head, sector: [u8; SECTOR]) {
    assert_eq!(rt; encode_head(&head), sector);
    assert_eq!(rt; decode_head(&sector), Some(head));
}

/// The sector of the first head is no head once octets of it are changed, each time these at a
/// place.
fn are_no_heads(rt: &impl Abort, changes: &[(usize, &[u8])]) {
    for &(place, octets) in changes {
        assert!(rt; decode_head(&first_but(rt, place, octets)).is_none());
    }
}

#[test]
fn first(rt: HostRuntime) {
    stands_as(&rt, head_of(&rt, 1, 1), sector_of(&rt, FIRST));
}

#[test]
fn fields_in_order(rt: HostRuntime) {
    let identity = identity_of(&rt, 0x0c0d, 0x0e0f);
    let head = Head::new(Format::One, 0x0102_0304_0506_0708, 0x0b, identity).expect(&rt, "head");
    let front =
        b"MSECHEAD\0\0\0\x01\x01\x02\x03\x04\x05\x06\x07\x08\0\0\0\x0b\x12\x15\x35\x24\xc0\x89\x5e\x81\0\0\x0c\x0d\0\0\x0e\x0f";
    stands_as(&rt, head, sector_of(&rt, front));
    assert!(rt; head.format() == Format::One);
    assert!(rt; head.generation() == 0x0102_0304_0506_0708);
    assert!(rt; head.count() == 0x0b);
    assert!(rt; head.identity() == identity);
}

const WRONG_GENERATIONS: &[(usize, &[u8])] = &[(12, b"\0\0\0\0\0\0\0\0")];

#[test]
fn generations(rt: HostRuntime) {
    stands_as(
        &rt,
        head_of(&rt, u64::MAX, 1),
        first_but(&rt, 12, &[0xff; 8]),
    );
    are_no_heads(&rt, WRONG_GENERATIONS);
    assert!(rt; Head::new(Format::One, 0, 1, identity_of(&rt, 4, 4)).is_none());
}

const WRONG_COUNTS: &[(usize, &[u8])] = &[
    (20, b"\0\0\0\0"),
    (20, b"\0\0\x01\x01"),
    (20, b"\x01\0\0\x01"),
];

#[test]
fn counts(rt: HostRuntime) {
    stands_as(&rt, head_of(&rt, 1, 256), first_but(&rt, 20, b"\0\0\x01\0"));
    are_no_heads(&rt, WRONG_COUNTS);
    assert!(rt; Head::new(Format::One, 1, 0, identity_of(&rt, 4, 4)).is_none());
    assert!(rt; Head::new(Format::Two, 1, 257, identity_of(&rt, 4, 4)).is_none());
}

const WRONG_BLOCKS: &[(usize, &[u8])] = &[
    (32, b"\0\0\0\0"),
    (36, b"\0\0\0\0"),
    (32, b"\0\x01\0\x01"),
    (36, b"\0\x01\0\x01"),
];

#[test]
fn blocks(rt: HostRuntime) {
    let narrow = head_with_blocks(&rt, 1, 65_536);
    stands_as(&rt, narrow, first_but(&rt, 32, b"\0\0\0\x01\0\x01\0\0"));
    let wide = head_with_blocks(&rt, 65_536, 1);
    stands_as(&rt, wide, first_but(&rt, 32, b"\0\x01\0\0\0\0\0\x01"));
    are_no_heads(&rt, WRONG_BLOCKS);
}

const OTHER_VERSIONS: &[(usize, &[u8])] = &[
    (8, b"\0\0\0\0"),
    (8, b"\0\0\0\x03"),
    (8, b"\x01\0\0\x02"),
    (8, b"\x02\0\0\0"),
];

#[test]
fn version_2(rt: HostRuntime) {
    let head = Head::new(Format::Two, 1, 1, identity_of(&rt, 4, 4)).expect(&rt, "head");
    stands_as(&rt, head, first_but(&rt, 8, b"\0\0\0\x02"));
    assert!(rt; head.format() == Format::Two);
}

#[test]
fn other_versions(rt: HostRuntime) {
    are_no_heads(&rt, OTHER_VERSIONS);
}

const OTHER_MARKS: &[(usize, &[u8])] = &[(0, b"N"), (7, b"E"), (4, b"OPEN")];

#[test]
fn other_marks(rt: HostRuntime) {
    are_no_heads(&rt, OTHER_MARKS);
    assert!(rt; decode_head(&[0; SECTOR]).is_none());
}

const OCTETS_BEHIND_THE_FIELDS: &[(usize, &[u8])] = &[(40, b"\x01"), (SECTOR - 1, b"\x80")];

#[test]
fn octets_behind_the_fields(rt: HostRuntime) {
    are_no_heads(&rt, OCTETS_BEHIND_THE_FIELDS);
}
