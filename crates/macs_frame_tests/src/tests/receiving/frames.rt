//! Frames that are received: changed ones, by Python's `cryptography`, and sealed as a test runs. A
//! line of a frame is its addresses, its SecTAG, its Secure Data or its ICV.

use crate::tests::known_frames::{CHANNEL, CHANNEL_KEY};
use crate::tests::number_of;
use macs_frame::{FrameBuf, MAX_FRAME, MIN_FRAME, Offset, Pn, ScName, Sci, SecTag, seal_frame};
use macs_gcm::{GcmKey, seal};
use std::process::Abort;

/// The frame of Annex C with integrity alone, but with packet number 0.
pub(super) const NO_NUMBER: &[u8] = b"\xd6\x09\xb1\xf0\x56\x63\x7a\x0d\x46\xdf\x99\x8d\
\x88\xe5\x22\x2a\x00\x00\x00\x00\x12\x15\x35\x24\xc0\x89\x5e\x81\
\x08\x00\x0f\x10\x11\x12\x13\x14\x15\x16\x17\x18\x19\x1a\x1b\x1c\x1d\x1e\x1f\x20\x21\x22\x23\x24\x25\x26\x27\x28\x29\x2a\x2b\x2c\x2d\x2e\x2f\x30\x31\x32\x33\x34\x00\x01\
\xf0\x94\x78\xa9\xb0\x90\x07\xd0\x6f\x46\xe9\xb6\xa1\xda\x25\xdd";

/// `SHORTEST` with C clear.
pub(super) const UNVERIFIED: &[u8] = b"\xe2\x01\x06\xd7\xcd\x0d\xf0\x76\x1e\x8d\xcd\x3d\
\x88\xe5\x23\x02\x00\x00\x00\x01\xf0\x76\x1e\x8d\xcd\x3d\x00\x01\
\xe4\xf1\
\x48\xf7\xa7\x49\x33\xdf\xe6\x6f\x0e\xe1\x47\x9b\x43\xdf\x50\x26";

/// By Python's `cryptography`: a frame of the channel under association 2 and number 5, with
/// confidentiality offset 30.
pub(super) const OFFSET_30: &[u8] = b"\xd6\x09\xb1\xf0\x56\x63\x7a\x0d\x46\xdf\x99\x8d\
\x88\xe5\x2e\x00\x00\x00\x00\x05\x12\x15\x35\x24\xc0\x89\x5e\x81\
\x08\x00\x0f\x10\x11\x12\x13\x14\x15\x16\x17\x18\x19\x1a\x1b\x1c\x1d\x1e\x1f\x20\x21\x22\x23\x24\x25\x26\x27\x28\x29\x2a\x14\xdd\x94\x6e\x5d\x12\x0a\xe8\x1b\x2d\x3a\xd4\x4b\xe5\x6f\xa2\x83\xf7\x62\x79\x94\x8c\x5f\x41\xba\xe3\xec\x78\xa5\xcb\xd9\x21\xe3\x9a\
\xa3\x3a\x2e\x92\x6e\xf6\x3b\x23\x42\x7d\xe7\xbc\xdb\xba\xc7\x89";

/// By Python's `cryptography`: the same with offset 50.
pub(super) const OFFSET_50: &[u8] = b"\xd6\x09\xb1\xf0\x56\x63\x7a\x0d\x46\xdf\x99\x8d\
\x88\xe5\x2e\x00\x00\x00\x00\x05\x12\x15\x35\x24\xc0\x89\x5e\x81\
\x08\x00\x0f\x10\x11\x12\x13\x14\x15\x16\x17\x18\x19\x1a\x1b\x1c\x1d\x1e\x1f\x20\x21\x22\x23\x24\x25\x26\x27\x28\x29\x2a\x2b\x2c\x2d\x2e\x2f\x30\x31\x32\x33\x34\x35\x36\x37\x38\x39\x3a\x3b\x3c\x3d\x3e\x00\xb1\xf8\x02\x31\x66\x7e\x9c\x6f\x51\x46\xa8\x37\x91\
\x65\x92\xae\x67\xc8\x50\xd4\xc8\x9d\x82\xf0\xd2\x44\x0f\x16\x29";

/// The plain frame of both.
pub(super) const OFFSET_PLAIN: &[u8] = b"\xd6\x09\xb1\xf0\x56\x63\x7a\x0d\x46\xdf\x99\x8d\
\x08\x00\x0f\x10\x11\x12\x13\x14\x15\x16\x17\x18\x19\x1a\x1b\x1c\x1d\x1e\x1f\x20\x21\x22\x23\x24\x25\x26\x27\x28\x29\x2a\x2b\x2c\x2d\x2e\x2f\x30\x31\x32\x33\x34\x35\x36\x37\x38\x39\x3a\x3b\x3c\x3d\x3e\x3f\x40\x41\x42\x43\x44\x45\x46\x47\x48\x49\x4a\x4b\x4c";

/// By Python's `cryptography`: a frame of the channel under association 2 and number 5, with one
/// octet of Secure Data.
pub(super) const ONE_OCTET: &[u8] = b"\xd6\x09\xb1\xf0\x56\x63\x7a\x0d\x46\xdf\x99\x8d\
\x88\xe5\x2e\x01\x00\x00\x00\x05\x12\x15\x35\x24\xc0\x89\x5e\x81\
\x37\
\x98\xe7\x8a\xdc\x19\x6f\x0f\xe7\x7f\x2e\x66\xbc\x3d\x61\x72\x9c";

/// Its addresses and that octet.
pub(super) const ONE_OCTET_PLAIN: &[u8] = b"\xd6\x09\xb1\xf0\x56\x63\x7a\x0d\x46\xdf\x99\x8d\x08";

/// The plain frame of a frame that is sealed as a test runs.
pub(super) const PLAIN: &[u8] = &[7; 62];

/// How a frame is protected: E and C are clear, or both are set.
#[derive(Clone, Copy)]
pub(super) enum Security {
    Integrity,
    Confidentiality,
}

/// Where a frame comes from.
#[derive(Clone, Copy)]
pub(super) enum Source {
    These(&'static [u8]),
    /// It is sealed under the channel's key. Its tag spells this SCI out, and has this association
    /// and this number. Its plain frame has so many octets of 7.
    Sealed([u8; 8], u8, u32, Security, usize),
    /// It is one of the channel under association 2 and number 5 whose SL says 50. A sender writes
    /// 0 there (9.7). It has 50 octets of Secure Data in the clear.
    LongSl,
}

/// What becomes of a frame before it is received.
#[derive(Clone, Copy)]
pub(super) enum Change {
    Nothing,
    /// The octet at this place is this one.
    Octet(usize, u8),
    /// The last bit of its ICV is the other one.
    LastBit,
    /// Its last octet is missing.
    Cut,
    /// So many octets of padding follow.
    Padding(usize),
}

/// A frame of the channel under association 2 and this number, encrypted, whose plain frame is
/// `PLAIN`.
pub(super) fn numbered(number: u32) -> Source {
    Source::Sealed(CHANNEL, 2, number, Security::Confidentiality, 62)
}

/// The frame, after the change.
pub(super) fn frame_of(rt: &impl Abort, source: Source, change: Change) -> FrameBuf {
    let frame = match source {
        Source::These(octets) => copied(rt, octets),
        Source::Sealed(sci, association, number, security, octets) => {
            let tag = tag_of(rt, sci, association, number, security);
            sealed(rt, &tag, sci, octets)
        }
        Source::LongSl => with_long_sl(rt),
    };
    changed(rt, frame, change)
}

fn changed(rt: &impl Abort, mut frame: FrameBuf, change: Change) -> FrameBuf {
    match change {
        Change::Nothing => {}
        Change::Octet(place, octet) => {
            assert!(rt; place < frame.len());
            frame[place] = octet;
        }
        Change::LastBit => {
            let last = frame.pop().expect(rt, "octet");
            append(rt, &mut frame, &[last ^ 1]);
        }
        Change::Cut => {
            let _last = frame.pop();
        }
        Change::Padding(octets) => pad(rt, &mut frame, octets),
    }
    frame
}

fn pad(rt: &impl Abort, frame: &mut FrameBuf, octets: usize) {
    for _ in 0..octets {
        append(rt, frame, &[0]);
    }
}

fn append(rt: &impl Abort, frame: &mut FrameBuf, octets: &[u8]) {
    frame.try_extend_from_slice(octets).expect(rt, "room");
}

/// These octets.
fn copied(rt: &impl Abort, octets: &[u8]) -> FrameBuf {
    let mut frame = FrameBuf::new();
    append(rt, &mut frame, octets);
    frame
}

fn tag_of(
    rt: &impl Abort,
    sci: [u8; 8],
    association: u8,
    number: u32,
    security: Security,
) -> SecTag {
    let is_encrypted = matches!(security, Security::Confidentiality);
    SecTag {
        an: number_of(rt, association),
        pn: Pn::new(number).expect(rt, "packet number"),
        name: ScName::Explicit(Sci(sci)),
        encrypted: is_encrypted,
        changed: is_encrypted,
    }
}

/// A frame with this tag under the channel's key. Its plain frame has so many octets of 7.
fn sealed(rt: &impl Abort, tag: &SecTag, sci: [u8; 8], octets: usize) -> FrameBuf {
    let plain = PLAIN.get(..octets).expect(rt, "octets");
    assert!(rt; plain.len() >= MIN_FRAME);
    assert!(rt; plain.len() <= MAX_FRAME - tag.name.overhead());
    assert!(rt; tag.encrypted == tag.changed);
    let key = GcmKey::new(&CHANNEL_KEY);
    let mut frame = FrameBuf::new();
    seal_frame(&key, Sci(sci), tag, Offset::Zero, plain, &mut frame);
    frame
}

/// The frame whose SL says 50.
fn with_long_sl(rt: &impl Abort) -> FrameBuf {
    const BEFORE: &[u8] = b"\xd6\x09\xb1\xf0\x56\x63\x7a\x0d\x46\xdf\x99\x8d\
\x88\xe5\x22\x32\x00\x00\x00\x05\x12\x15\x35\x24\xc0\x89\x5e\x81";
    const IV: [u8; 12] = [0x12, 0x15, 0x35, 0x24, 0xc0, 0x89, 0x5e, 0x81, 0, 0, 0, 5];
    let mut frame = copied(rt, BEFORE);
    append(rt, &mut frame, &[7; 50]);
    let key = GcmKey::new(&CHANNEL_KEY);
    let icv = seal(&key, &IV, frame.as_slice(), &mut []);
    append(rt, &mut frame, &icv);
    frame
}
