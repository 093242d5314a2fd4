//! Which plain frames do not go out, which fault comes first, and what is counted.

use super::fixture::{channel, protect};
use super::story::{Plain, Step, plain_frame, play, take};
use crate::tests::END;
use crate::tests::known_frames::STATION;
use macs_config::SciMode;
use macs_frame::{FrameBuf, MAX_FRAME};
use macs_txsc::{Tx, TxCounters, TxFault};
use std::process::Abort;

/// A channel that sends under an association from this number on, below this ceiling.
fn sending(rt: &impl Abort, mode: SciMode, next: u64, ceiling: u64) -> Tx {
    let mut tx = channel(rt, STATION, mode);
    take(rt, &mut tx, Step::Install(0, next, ceiling));
    take(rt, &mut tx, Step::Select(0));
    tx
}

/// Every fault that a frame has, and then the answer to a frame without one.
fn expect_first_faults(rt: &impl Abort, tx: &mut Tx, answer: Result<u32, TxFault>) {
    const FAULTS: &[Step] = &[
        Step::Sends(Plain::Own(13), Err(TxFault::Runt)),
        Step::Sends(Plain::Foreign(13), Err(TxFault::Runt)),
        Step::Sends(Plain::Foreign(9193), Err(TxFault::TooLong)),
        Step::Sends(Plain::Foreign(9192), Err(TxFault::ForeignSource)),
    ];
    const COUNTS: &[Step] = &[
        Step::Faults(TxFault::Runt, 2),
        Step::Faults(TxFault::TooLong, 1),
        Step::Faults(TxFault::ForeignSource, 1),
    ];
    play(rt, tx, FAULTS);
    take(rt, tx, Step::Sends(Plain::Published, answer));
    play(rt, tx, COUNTS);
}

/// Every fault that a frame has with every state of the association.
#[test]
fn answers_the_first_fault(rt: HostRuntime) {
    let mut unset = channel(&rt, STATION, SciMode::EndStation);
    expect_first_faults(&rt, &mut unset, Err(TxFault::NoEncodingSa));
    for (next, ceiling, answer) in [
        (END, END, Err(TxFault::Exhausted)),
        (5, 5, Err(TxFault::NoNumber)),
        (5, 6, Ok(5)),
    ] {
        let mut tx = sending(&rt, SciMode::EndStation, next, ceiling);
        expect_first_faults(&rt, &mut tx, answer);
    }
}

/// Each octet of the source counts, and only where frames name an end station.
#[test]
fn compares_the_source(rt: HostRuntime) {
    const STEPS: &[Step] = &[
        Step::Sends(Plain::Differs(6), Err(TxFault::ForeignSource)),
        Step::Sends(Plain::Differs(7), Err(TxFault::ForeignSource)),
        Step::Sends(Plain::Differs(8), Err(TxFault::ForeignSource)),
        Step::Sends(Plain::Differs(9), Err(TxFault::ForeignSource)),
        Step::Sends(Plain::Differs(10), Err(TxFault::ForeignSource)),
        Step::Sends(Plain::Differs(11), Err(TxFault::ForeignSource)),
        Step::Next(Some(0x76d4_57ed), None, None, None),
        Step::Mode(SciMode::Implicit),
        Step::Sends(Plain::Differs(11), Ok(0x76d4_57ed)),
    ];
    let mut tx = sending(&rt, SciMode::EndStation, 0x76d4_57ed, END);
    play(&rt, &mut tx, STEPS);
}

#[test]
fn counts_faults_apart(rt: HostRuntime) {
    const STEPS: &[Step] = &[
        Step::Sends(Plain::Own(9193), Err(TxFault::TooLong)),
        Step::Sends(Plain::Differs(6), Err(TxFault::ForeignSource)),
        Step::Sends(Plain::Differs(6), Err(TxFault::ForeignSource)),
        Step::Faults(TxFault::TooLong, 1),
        Step::Faults(TxFault::ForeignSource, 2),
        Step::Faults(TxFault::Runt, 0),
        Step::Protected(0),
    ];
    let mut tx = sending(&rt, SciMode::EndStation, 1, END);
    play(&rt, &mut tx, STEPS);
}

/// A plain frame of so many octets makes the longest frame that goes out.
fn expect_longest(rt: &impl Abort, tx: &mut Tx, octets: usize) {
    let plain = plain_frame(rt, Plain::Own(octets));
    let mut out = FrameBuf::new();
    assert_eq!(rt; protect(rt, tx, plain.as_slice(), &mut out), Ok(1));
    assert_eq!(rt; out.len(), MAX_FRAME);
}

/// The longest plain frame that fits, and one octet more.
#[test]
fn bounds_lengths(rt: HostRuntime) {
    for (mode, longest, beyond) in [
        (SciMode::Explicit, 9184, 9185),
        (SciMode::Implicit, 9192, 9193),
        (SciMode::EndStation, 9192, 9193),
    ] {
        let mut tx = sending(&rt, mode, 1, END);
        expect_longest(&rt, &mut tx, longest);
        let too_long = Step::Sends(Plain::Own(beyond), Err(TxFault::TooLong));
        take(&rt, &mut tx, too_long);
    }
}

#[test]
fn counts_answers(rt: HostRuntime) {
    const LAST_NUMBERS: &[Step] = &[
        Step::Sends(Plain::Published, Ok(4_294_967_294)),
        Step::Sends(Plain::Published, Ok(4_294_967_295)),
        Step::Sends(Plain::Published, Err(TxFault::Exhausted)),
        Step::Protected(2),
        Step::Faults(TxFault::Exhausted, 1),
        Step::Faults(TxFault::NoNumber, 0),
    ];
    const AT_THE_CEILING: &[Step] = &[
        Step::Sends(Plain::Published, Err(TxFault::NoNumber)),
        Step::Faults(TxFault::NoNumber, 1),
    ];
    const UNSET: &[Step] = &[
        Step::Sends(Plain::Published, Err(TxFault::NoEncodingSa)),
        Step::Faults(TxFault::NoEncodingSa, 1),
        Step::Protected(0),
    ];
    let mode = SciMode::EndStation;
    play(&rt, &mut sending(&rt, mode, END - 2, END), LAST_NUMBERS);
    play(&rt, &mut sending(&rt, mode, 5, 5), AT_THE_CEILING);
    play(&rt, &mut channel(&rt, STATION, mode), UNSET);
}

#[test]
fn counters_stay_at_their_greatest(rt: HostRuntime) {
    let mut counters = TxCounters::new();
    counters.runt = u64::MAX - 1;
    for _ in 0..2 {
        counters.add_fault(TxFault::Runt);
        assert_eq!(rt; counters.fault_count(TxFault::Runt), u64::MAX);
    }
}
