//! Stops at each device call.

use super::cutting::{Cut, Kind, Stop, play_to};
use super::disks::copy;
use super::judging::{
    judge, judge_formatted, judge_opened, judge_stopped_migrations, judge_stopped_openings,
};
use super::known::Known;
use super::tearing::{pending, tear, ways};
use macs_disk::MemDisk;
use std::alloc::Global;
use std::process::Abort;

/// How many stops there were, how many power losses after them, and how many openings that were
/// stopped.
#[derive(Clone, Copy, PartialEq)]
pub(super) struct Totals {
    pub(super) stops: u64,
    pub(super) losses: u64,
    pub(super) openings: u64,
}

/// What is done after a stop.
#[derive(Clone, Copy)]
pub(super) enum Behind {
    /// The power goes, and the disk is opened.
    Loses,
    /// The power goes, and openings are stopped at each of their device calls, twice in a row.
    StopsOpenings,
    /// The disk is opened as it is, then the power goes, and it is opened again.
    Opens,
    /// The disk is formatted as it is, then the power goes, and it is opened.
    Formats,
}

/// Each of these device calls is a stop, of both kinds.
pub(super) fn stop_at_each(
    rt: &impl Abort,
    alloc: Global,
    first: u64,
    end: u64,
    behind: Behind,
) -> Totals {
    let mut totals = Totals {
        stops: 0,
        losses: 0,
        openings: 0,
    };
    for passed in first..end {
        stop_at(
            rt,
            alloc,
            Stop {
                passed,
                kind: Kind::Dead,
            },
            behind,
            &mut totals,
        );
        stop_at(
            rt,
            alloc,
            Stop {
                passed,
                kind: Kind::Filled,
            },
            behind,
            &mut totals,
        );
    }
    totals
}

/// A stop, and what comes after it.
fn stop_at(rt: &impl Abort, alloc: Global, stop: Stop, behind: Behind, totals: &mut Totals) {
    let (is_cut, cut) = play_to(rt, alloc, stop);
    assert!(rt; is_cut);
    totals.stops = totals.stops.saturating_add(1);
    match behind {
        Behind::Loses => lose_cut(rt, alloc, cut, After::Opens, totals),
        Behind::StopsOpenings => lose_cut(rt, alloc, cut, After::StopsOpenings, totals),
        Behind::Opens => judge_opened(rt, cut),
        Behind::Formats => judge_formatted(rt, cut),
    }
}

/// What is done after a power loss.
#[derive(Clone, Copy)]
pub(super) enum After {
    /// The disk is opened.
    Opens,
    /// Openings are stopped at each of their device calls, twice in a row.
    StopsOpenings,
    /// The same, of a disk whose opening may start its journal over.
    StopsMigrations,
}

/// The power goes after a life that was cut short.
fn lose_cut(rt: &impl Abort, alloc: Global, cut: Cut, after: After, totals: &mut Totals) {
    let Cut { disk, known } = cut;
    lose_in_each_way(rt, alloc, disk, &known, after, totals);
}

/// The power goes in each of the ways, each on a copy of the disk.
pub(super) fn lose_in_each_way(
    rt: &impl Abort,
    alloc: Global,
    disk: MemDisk,
    known: &Known,
    after: After,
    totals: &mut Totals,
) {
    let mut disk = disk;
    let torn = pending(rt, &disk);
    for way in 0..ways(torn.len()) {
        let mut disk = copy(rt, alloc, &mut disk, &torn);
        tear(rt, &mut disk, &torn, way);
        disk.crash();
        totals.losses = totals.losses.saturating_add(1);
        let openings = match after {
            After::Opens => {
                judge(rt, disk, known);
                0
            }
            After::StopsOpenings => judge_stopped_openings(rt, disk, known),
            After::StopsMigrations => judge_stopped_migrations(rt, alloc, disk, known),
        };
        totals.openings = totals.openings.saturating_add(openings);
    }
}
