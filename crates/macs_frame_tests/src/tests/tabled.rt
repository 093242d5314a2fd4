//! Frames of many lengths against those of another implementation.

use super::vectors::{GROUPS, Group, LENGTHS};
use super::{Fields, Security};
use macs_aes::Key;
use macs_frame::{FrameBuf, MIN_FRAME, Offset, OpenFault, TagFault};
use std::process::Abort;

/// Appends octets by rule: octet i is factor * i + first.
fn append_by_rule(rt: &impl Abort, out: &mut FrameBuf, factor: u8, first: u8, count: u16) {
    let mut next = first;
    for _ in 0..count {
        assert!(rt; !out.is_full());
        out.push(next);
        next = next.wrapping_add(factor);
    }
}

/// The plain frame with so many octets of User Data.
fn plain_of(rt: &impl Abort, user_data: u16) -> FrameBuf {
    let mut plain = FrameBuf::new();
    append_by_rule(rt, &mut plain, 5, 2, 12);
    append_by_rule(rt, &mut plain, 7, 3, user_data);
    plain
}

/// The key of a frame: octet i is 13 i + number. It has 32 octets where the number is 2 modulo 3,
/// else 16.
fn key_of(number: u8) -> Key {
    let mut octets = [0; 32];
    for i in 0..32u8 {
        octets[usize::from(i)] = i.wrapping_mul(13).wrapping_add(number);
    }
    if number % 3 == 2 {
        return Key::Long(octets);
    }
    let mut front = [0; 16];
    front.copy_from_slice(&octets[..16]);
    Key::Short(front)
}

/// So many octets of the blocks.
fn from_blocks(rt: &impl Abort, blocks: &[u128], count: usize) -> FrameBuf {
    let mut octets = FrameBuf::new();
    for at in 0..count {
        let block = *blocks.get(at / 16).unwrap_or(&0);
        assert!(rt; !octets.is_full());
        octets.push(block.to_be_bytes()[at % 16]);
    }
    octets
}

/// How many octets of a frame the table has.
fn listed_len(frame_len: usize) -> usize {
    if frame_len <= 1000 { frame_len } else { 96 }
}

/// Whether this is the frame of the table, which has the first 64 octets and the last 32 of a long
/// one.
fn is_listed(frame: &[u8], listed: &[u8]) -> bool {
    if frame.len() <= 1000 || listed.len() != 96 {
        return frame == listed;
    }
    let (first, last) = listed.split_at(64);
    frame.starts_with(first) && frame.ends_with(last)
}

impl Group {
    fn security(&self, number: u8) -> Security {
        Security {
            key: key_of(number),
            sci: self.sci,
            offset: self.offset.unwrap_or(Offset::Zero),
        }
    }

    fn fields(&self, number: u8) -> Fields {
        Fields {
            naming: self.naming,
            association: number % 4,
            number: 0x89abcdef + u32::from(number),
            encrypted: self.offset.is_some(),
            changed: self.offset.is_some(),
        }
    }

    /// The octets of the table for a frame whose plain one has so many.
    fn listed(&self, rt: &impl Abort, plain_len: usize, blocks: &[u128]) -> FrameBuf {
        let overhead = self.fields(0).name(self.sci).overhead();
        from_blocks(rt, blocks, listed_len(plain_len.wrapping_add(overhead)))
    }

    /// Seals the plain frame of a vector to the frame of the table, and opens it.
    fn check_sealed(&self, rt: &impl Abort, number: u8, plain: &[u8], listed: &[u8]) {
        let security = self.security(number);
        let fields = self.fields(number);
        let frame = security.seal(rt, &fields, plain);
        assert!(rt; is_listed(frame.as_slice(), listed), "vector {number}");
        security.check_opened(rt, frame.as_slice(), &fields, plain);
    }

    /// Opens a frame whose plain frame is too short to be sealed: one without User Data is refused.
    fn check_short(&self, rt: &impl Abort, number: u8, plain: &[u8], frame: &[u8]) {
        let security = self.security(number);
        if plain.len() == 12 {
            security.check_refused(rt, frame, OpenFault::Tag(TagFault::BadTag));
        } else {
            security.check_opened(rt, frame, &self.fields(number), plain);
        }
    }

    fn check(&self, rt: &impl Abort, number: u8, user_data: u16, blocks: &[u128]) {
        let plain = plain_of(rt, user_data);
        let listed = self.listed(rt, plain.len(), blocks);
        if plain.len() < MIN_FRAME {
            self.check_short(rt, number, plain.as_slice(), listed.as_slice());
        } else {
            self.check_sealed(rt, number, plain.as_slice(), listed.as_slice());
        }
    }
}

#[test]
fn seals_and_opens_vectors(rt: HostRuntime) {
    let mut number = 0u8;
    for group in GROUPS {
        for at in 0..LENGTHS.len() {
            group.check(&rt, number, LENGTHS[at], &group.frames[at]);
            number = number.wrapping_add(1);
        }
    }
    assert!(rt; number == 132);
}
