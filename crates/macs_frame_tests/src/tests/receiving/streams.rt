//! Packet numbers in disorder and with duplicates, against the rules in plain numbers.

use super::story::{Step, ready, take};
use super::{LATE, OK};
use crate::tests::END;
use crate::tests::known_frames::CHANNEL;
use macs_config::Validate;
use macs_rxsc::{Rx, Verdict};
use std::process::Abort;

/// How many numbers are reserved at a time.
const BLOCK: u32 = 64;

/// Where the numbers of a round begin.
const ROUNDS: [u32; 8] = [0, 12, 24, 600, 1_300, 36, 1_312, 400];

/// The numbers of a round.
const ORDER: [u32; 12] = [3, 1, 2, 2, 7, 5, 6, 12, 4, 12, 9, 30];

/// An association by its rules. `seen` is 0 before a frame has verified.
#[derive(Drop)]
struct Rules {
    window: u64,
    next: u64,
    lowest: u64,
    ceiling: u64,
    seen: u32,
}

impl Rules {
    fn receive(&mut self, number: u32) -> Verdict {
        let pn = u64::from(number);
        if pn < self.lowest {
            return LATE;
        }
        self.seen = self.seen.max(number);
        if pn >= self.ceiling {
            return Verdict::HeldBack;
        }
        self.next = self.next.max(pn + 1);
        self.lowest = self.lowest.max(self.next.saturating_sub(self.window));
        OK
    }

    /// The ceiling that is asked for.
    fn raised(&self) -> Option<u64> {
        let raised = END.min(u64::from(self.seen) + u64::from(BLOCK));
        let is_low = u64::from(self.seen) >= self.ceiling
            || self.ceiling.saturating_sub(self.next) <= u64::from(BLOCK / 2);
        (self.seen > 0 && is_low && raised > self.ceiling).then_some(raised)
    }
}

/// The number has this verdict, and the numbers of the association are then those of the rules.
fn expect_number(rt: &impl Abort, rx: &mut Rx, rules: &Rules, number: u32, verdict: Verdict) {
    take(rt, rx, Step::Number(number, verdict));
    take(rt, rx, Step::Numbers(rules.next, rules.lowest));
}

/// The number has the verdict of the rules. Where it is held back, the ceiling is raised and it
/// comes again.
fn expect_step(rt: &impl Abort, rx: &mut Rx, rules: &mut Rules, number: u32) {
    let verdict = rules.receive(number);
    expect_number(rt, rx, rules, number, verdict);
    let Some(raised) = rules.raised() else {
        take(rt, rx, Step::Need(BLOCK, None));
        return;
    };
    take(rt, rx, Step::Need(BLOCK, Some((CHANNEL, 2, rules.seen))));
    if verdict == Verdict::HeldBack {
        take(rt, rx, Step::Raise(BLOCK, CHANNEL, 2, rules.seen));
        rules.ceiling = raised;
        assert_eq!(rt; rules.receive(number), OK);
        expect_number(rt, rx, rules, number, OK);
    }
}

fn expect_stream(rt: &impl Abort, window: u32) {
    let mut rx = ready(rt, 1, 1);
    take(rt, &mut rx, Step::Policy(Validate::Strict, true, window));
    let mut rules = Rules {
        window: u64::from(window),
        next: 1,
        lowest: 1,
        ceiling: 1,
        seen: 0,
    };
    for round in ROUNDS {
        for place in ORDER {
            let number = round.saturating_add(place);
            expect_step(rt, &mut rx, &mut rules, number);
        }
    }
}

#[test]
fn streams(rt: HostRuntime) {
    for window in [0, 1, 16, 1_000, 0xffff_ffff] {
        expect_stream(&rt, window);
    }
}
