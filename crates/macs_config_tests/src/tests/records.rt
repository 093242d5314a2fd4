//! Records and their octets, written out by hand from the table of the kinds; heads and gates.

mod altered;
mod commands;
mod gates;
mod heads;
mod kinds;
mod refused;

use macs_aes::Key;
use macs_fields::{Pn, Sci};
use macs_record::{Ceiling, Record, RecordFault, SECTOR, decode, encode};
use std::process::Abort;

/// A short key, a long one, and an SCI with port 00-07, whose octets differ.
const KEY: Key = Key::Short(*b"0123456789abcdef");

const LONG_KEY: Key = Key::Long(*b"0123456789abcdefghijklmnopqrstuv");

const SCI: Sci = Sci(*b"peer-A\x00\x07");

/// A sector that begins with these octets and goes on with zeros.
fn sector_of(rt: &impl Abort, front: &[u8]) -> [u8; SECTOR] {
    assert!(rt; front.len() <= SECTOR);
    let mut sector = [0; SECTOR];
    sector[..front.len()].copy_from_slice(front);
    sector
}

/// The record is written as these octets and zeros, and they are read as it.
fn stands_as(rt: &impl Abort, value: &Record, front: &[u8]) {
    let sector = sector_of(rt, front);
    assert_eq!(rt; encode(value), sector);
    let read = decode(&sector).ok().expect(rt, "record");
    assert_eq!(rt; encode(&read), sector);
}

/// Each of these octets, and zeros, are no record.
fn are_refused(rt: &impl Abort, fronts: &[&[u8]], fault: RecordFault) {
    for &front in fronts {
        assert_eq!(rt; decode(&sector_of(rt, front)).err(), Some(fault));
    }
}

fn pn_of(rt: &impl Abort, number: u32) -> Pn {
    Pn::new(number).expect(rt, "packet number")
}

fn ceiling_of(rt: &impl Abort, number: u64) -> Ceiling {
    Ceiling::new(number).expect(rt, "ceiling")
}
