//! Frames that go out under a key of 256 bits.

use super::Security;
use super::fixture::{channel, install, select};
use super::frames::{Case, expect_case};
use super::story::{Plain, Step, play};
use crate::tests::known_frames::{CHANNEL, STATION};
use crate::tests::{END, long_frames, number_of};
use macs_config::SciMode;
use macs_frame::Offset;
use macs_txsc::{Tx, TxFault};
use std::process::Abort;

/// Confidentiality under the key.
const HIDDEN: Security = Security {
    key: long_frames::KEY,
    confidential: true,
    offset: Offset::Zero,
};

/// The same with confidentiality offset 30.
const PARTLY_HIDDEN: Security = Security {
    key: long_frames::KEY,
    confidential: true,
    offset: Offset::Thirty,
};

const CHANNEL_CASE: Case = Case {
    sci: CHANNEL,
    mode: SciMode::Explicit,
    association: 2,
    security: HIDDEN,
    number: 0xb2c2_8465,
    plain: long_frames::CHANNEL_FRAME_PLAIN,
    frame: long_frames::CHANNEL_FRAME,
};

const STATION_CASE: Case = Case {
    sci: STATION,
    mode: SciMode::EndStation,
    association: 0,
    security: HIDDEN,
    number: 0x76d4_57ed,
    plain: long_frames::STATION_FRAME_PLAIN,
    frame: long_frames::STATION_FRAME,
};

const SHORTEST: Case = Case {
    sci: STATION,
    mode: SciMode::Explicit,
    association: 0,
    security: HIDDEN,
    number: 0x76d4_57ed,
    plain: long_frames::SHORTEST_PLAIN,
    frame: long_frames::SHORTEST,
};

const ALL_CLEAR: Case = Case {
    sci: STATION,
    mode: SciMode::Explicit,
    association: 0,
    security: PARTLY_HIDDEN,
    number: 0x76d4_57ed,
    plain: long_frames::ALL_CLEAR_PLAIN,
    frame: long_frames::ALL_CLEAR,
};

const ONE_HIDDEN: Case = Case {
    sci: STATION,
    mode: SciMode::Explicit,
    association: 0,
    security: PARTLY_HIDDEN,
    number: 0x76d4_57ed,
    plain: long_frames::ONE_HIDDEN_PLAIN,
    frame: long_frames::ONE_HIDDEN,
};

/// Each frame, and how many octets it has: those that it has under a key of 128 bits.
const CASES: &[(Case, usize)] = &[
    (CHANNEL_CASE, 92),
    (STATION_CASE, 78),
    (SHORTEST, 46),
    (ALL_CLEAR, 74),
    (ONE_HIDDEN, 75),
];

#[test]
fn protects_frames(rt: HostRuntime) {
    for (case, octets) in CASES {
        assert_eq!(rt; case.frame.len(), *octets);
        expect_case(&rt, case);
    }
}

/// The end station's channel, which sends under the key.
fn station(rt: &impl Abort) -> Tx {
    let an = number_of(rt, 0);
    let mut tx = channel(rt, STATION, SciMode::EndStation);
    install(rt, &mut tx, an, &HIDDEN, 0x76d4_57ed, END);
    select(rt, &mut tx, an);
    tx
}

/// A frame from another address and one that is too short use no number.
#[test]
fn refuses_frames(rt: HostRuntime) {
    const STEPS: &[Step] = &[
        Step::Sends(Plain::Differs(11), Err(TxFault::ForeignSource)),
        Step::Next(Some(0x76d4_57ed), None, None, None),
        Step::Sends(Plain::Own(13), Err(TxFault::Runt)),
        Step::Next(Some(0x76d4_57ed), None, None, None),
        Step::Sends(Plain::Own(14), Ok(0x76d4_57ed)),
    ];
    play(&rt, &mut station(&rt), STEPS);
}
