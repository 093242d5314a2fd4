//! Frames that go out: the known ones, and others by Python's `cryptography`.

use super::fixture::{channel, install, protect, select};
use super::{HIDDEN, Security};
use crate::tests::known_frames::{self, CHANNEL, CHANNEL_KEY, STATION, STATION_KEY};
use crate::tests::{END, number_of};
use macs_config::SciMode;
use macs_frame::{FrameBuf, Offset};
use macs_txsc::Tx;
use std::process::Abort;

/// What a frame goes out under, and the frame. A line of it is its addresses, its SecTAG, its
/// Secure Data or its ICV.
#[derive(Clone, Copy)]
pub(super) struct Case {
    pub(super) sci: [u8; 8],
    pub(super) mode: SciMode,
    pub(super) association: u8,
    pub(super) security: Security,
    pub(super) number: u32,
    pub(super) plain: &'static [u8],
    pub(super) frame: &'static [u8],
}

/// Annex C: integrity protection of a frame with an SCI.
pub(super) const INTEGRITY: Case = Case {
    sci: CHANNEL,
    mode: SciMode::Explicit,
    association: 2,
    security: Security {
        key: CHANNEL_KEY,
        confidential: false,
        offset: Offset::Zero,
    },
    number: 0xb2c2_8465,
    plain: known_frames::INTEGRITY_PLAIN,
    frame: known_frames::INTEGRITY,
};

/// Annex C: confidentiality protection of a frame with an SCI.
pub(super) const CONFIDENTIALITY: Case = Case {
    sci: CHANNEL,
    mode: SciMode::Explicit,
    association: 2,
    security: Security {
        key: CHANNEL_KEY,
        confidential: true,
        offset: Offset::Zero,
    },
    number: 0xb2c2_8465,
    plain: known_frames::CONFIDENTIALITY_PLAIN,
    frame: known_frames::CONFIDENTIALITY,
};

/// Annex C: confidentiality protection of an end station's frame.
pub(super) const END_STATION: Case = Case {
    sci: STATION,
    mode: SciMode::EndStation,
    association: 0,
    security: HIDDEN,
    number: 0x76d4_57ed,
    plain: known_frames::END_STATION_PLAIN,
    frame: known_frames::END_STATION,
};

/// By Python's `cryptography`: 30 octets of User Data, all of them in the clear.
pub(super) const ALL_CLEAR: Case = Case {
    sci: STATION,
    mode: SciMode::Explicit,
    association: 0,
    security: Security {
        key: STATION_KEY,
        confidential: true,
        offset: Offset::Thirty,
    },
    number: 0x76d4_57ed,
    plain: b"\xe2\x01\x06\xd7\xcd\x0d\xf0\x76\x1e\x8d\xcd\x3d\
\x08\x00\x0f\x10\x11\x12\x13\x14\x15\x16\x17\x18\x19\x1a\x1b\x1c\x1d\x1e\x1f\x20\x21\x22\x23\x24\x25\x26\x27\x28\x29\x2a",
    frame: b"\xe2\x01\x06\xd7\xcd\x0d\xf0\x76\x1e\x8d\xcd\x3d\
\x88\xe5\x2c\x1e\x76\xd4\x57\xed\xf0\x76\x1e\x8d\xcd\x3d\x00\x01\
\x08\x00\x0f\x10\x11\x12\x13\x14\x15\x16\x17\x18\x19\x1a\x1b\x1c\x1d\x1e\x1f\x20\x21\x22\x23\x24\x25\x26\x27\x28\x29\x2a\
\x53\xef\x3a\xb8\xdf\xc6\x56\xdc\x59\x86\xf6\x03\xf6\x72\xe7\x60",
};

/// By Python's `cryptography`: 30 octets of User Data in the clear and one encrypted.
pub(super) const ONE_HIDDEN: Case = Case {
    sci: STATION,
    mode: SciMode::Explicit,
    association: 0,
    security: Security {
        key: STATION_KEY,
        confidential: true,
        offset: Offset::Thirty,
    },
    number: 0x76d4_57ed,
    plain: b"\xe2\x01\x06\xd7\xcd\x0d\xf0\x76\x1e\x8d\xcd\x3d\
\x08\x00\x0f\x10\x11\x12\x13\x14\x15\x16\x17\x18\x19\x1a\x1b\x1c\x1d\x1e\x1f\x20\x21\x22\x23\x24\x25\x26\x27\x28\x29\x2a\x2b",
    frame: b"\xe2\x01\x06\xd7\xcd\x0d\xf0\x76\x1e\x8d\xcd\x3d\
\x88\xe5\x2c\x1f\x76\xd4\x57\xed\xf0\x76\x1e\x8d\xcd\x3d\x00\x01\
\x08\x00\x0f\x10\x11\x12\x13\x14\x15\x16\x17\x18\x19\x1a\x1b\x1c\x1d\x1e\x1f\x20\x21\x22\x23\x24\x25\x26\x27\x28\x29\x2a\
\x30\
\x9e\x65\xd3\x41\x1e\x42\x56\x00\x35\x24\x8b\x17\x6a\x40\xe6\x3b",
};

/// By Python's `cryptography`: the shortest plain frame, 14 octets.
const SHORTEST: Case = Case {
    sci: STATION,
    mode: SciMode::Explicit,
    association: 3,
    security: HIDDEN,
    number: 1,
    plain: known_frames::SHORTEST_PLAIN,
    frame: known_frames::SHORTEST,
};

/// By Python's `cryptography`: a channel that is not named.
const IMPLICIT: Case = Case {
    sci: CHANNEL,
    mode: SciMode::Implicit,
    association: 1,
    security: HIDDEN,
    number: 1,
    plain: known_frames::SHORTEST_PLAIN,
    frame: known_frames::IMPLICIT,
};

/// By Python's `cryptography`: the last packet number.
pub(super) const LAST_NUMBER: Case = Case {
    sci: STATION,
    mode: SciMode::EndStation,
    association: 0,
    security: HIDDEN,
    number: 0xffff_ffff,
    plain: known_frames::SHORTEST_PLAIN,
    frame: b"\xe2\x01\x06\xd7\xcd\x0d\xf0\x76\x1e\x8d\xcd\x3d\
\x88\xe5\x4c\x02\xff\xff\xff\xff\
\xe3\x1c\
\x88\x7e\xc9\xb7\x6e\x74\xa4\x88\xaa\x2d\x6c\x69\xd2\xfe\xfe\xbb",
};

/// Every frame that goes out.
const CASES: &[Case] = &[
    INTEGRITY,
    CONFIDENTIALITY,
    END_STATION,
    ALL_CLEAR,
    ONE_HIDDEN,
    SHORTEST,
    IMPLICIT,
    LAST_NUMBER,
];

/// The channel of a case, which sends under its association.
fn channel_of(rt: &impl Abort, case: &Case) -> Tx {
    let an = number_of(rt, case.association);
    let mut tx = channel(rt, case.sci, case.mode);
    install(rt, &mut tx, an, &case.security, u64::from(case.number), END);
    select(rt, &mut tx, an);
    tx
}

/// The frame of a case goes out under its number.
pub(super) fn expect_frame(rt: &impl Abort, tx: &mut Tx, case: &Case) {
    let mut out = FrameBuf::new();
    let answer = protect(rt, tx, case.plain, &mut out);
    assert_eq!(rt; answer, Ok(case.number));
    assert_eq!(rt; out.as_slice(), case.frame);
}

/// The frame of a case goes out under a channel of its own, and its number is used.
pub(super) fn expect_case(rt: &impl Abort, case: &Case) {
    let mut tx = channel_of(rt, case);
    expect_frame(rt, &mut tx, case);
    let an = number_of(rt, case.association);
    assert_eq!(rt; tx.next_number(an), Some(u64::from(case.number) + 1));
}

#[test]
fn protects_frames(rt: HostRuntime) {
    for case in CASES {
        expect_case(&rt, case);
    }
}
