//! What is found on a disk in memory after calls, choices and power losses.

use super::Call::{Fill, Sync};
use super::Step::{Crash, Find, Make, Tear};
use super::{Step, begin};

const SYNCED: &[Step] = &[
    Find(1, (0, 0, false)),
    Make(Fill(1, 1)),
    Find(1, (1, 0, true)),
    Find(0, (0, 0, false)),
    Find(2, (0, 0, false)),
    Make(Sync),
    Find(1, (1, 1, false)),
    Make(Fill(1, 2)),
    Find(1, (2, 1, true)),
    Crash,
    Find(1, (2, 2, false)),
];

#[test]
fn a_power_loss_keeps_what_was_synced(rt: HostRuntime) {
    begin(&rt, rt.alloc(), 4, SYNCED);
}

const CHOSEN: &[Step] = &[
    Tear(1, 9, false),
    Make(Fill(1, 1)),
    Make(Fill(2, 2)),
    Tear(1, 3, true),
    Tear(0, 9, false),
    Find(1, (1, 0, true)),
    Crash,
    Find(0, (0, 0, false)),
    Find(1, (3, 3, false)),
    Find(2, (2, 2, false)),
];

#[test]
fn a_power_loss_leaves_what_was_chosen(rt: HostRuntime) {
    begin(&rt, rt.alloc(), 4, CHOSEN);
}

const CHOSEN_AGAIN: &[Step] = &[
    Make(Fill(0, 1)),
    Tear(0, 2, true),
    Make(Fill(0, 3)),
    Find(0, (3, 0, true)),
    Make(Fill(1, 4)),
    Tear(1, 5, true),
    Tear(1, 6, true),
    Crash,
    Find(0, (2, 2, false)),
    Find(1, (6, 6, false)),
    Make(Fill(0, 7)),
    Make(Fill(1, 8)),
    Tear(1, 9, true),
    Make(Sync),
    Make(Fill(1, 10)),
    Crash,
    Find(0, (7, 7, false)),
    Find(1, (10, 10, false)),
];

/// A choice holds over a later write and until a later choice, a sync or a power loss.
#[test]
fn a_choice_stands_until_a_sync(rt: HostRuntime) {
    begin(&rt, rt.alloc(), 3, CHOSEN_AGAIN);
}
