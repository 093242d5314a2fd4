//! Each sync of a file fails in turn, and the operator goes on: the next program opens the disk
//! again, and plays on. Then memory is short, the power is lost, and what an opening finds is
//! judged.

use super::cutting::{identity, opening};
use super::judging::judge;
use super::kernel_files::{
    Disk, Going, Ground, fail_none, fail_sync, folder, go_on, is_due, make_disk, named, open_disk,
};
use super::known::Known;
use super::life::{command, protect, step, take};
use super::script::{Asked, Part, command_of};
use macs_endpoint::{Endpoint, format};
use macs_fixtures::{Left, MemFolder};
use macs_journal::JournalFault;
use std::alloc::Global;
use std::process::Abort;

/// What is played: commands, frames of both sides with refills after them, and a command that is
/// refused.
const PARTS: [Part; 12] = [
    Part::Keeps(Asked::AddsPeer),
    Part::Keeps(Asked::InstallsPeer),
    Part::Keeps(Asked::Installs(0, 0)),
    Part::Keeps(Asked::Uses(0)),
    Part::Passes(6),
    Part::Keeps(Asked::Replays(7)),
    Part::Keeps(Asked::Installs(1, 1)),
    Part::Keeps(Asked::Uses(1)),
    Part::Keeps(Asked::Removes(0)),
    Part::Spends(Asked::Installs(0, 0)),
    Part::Passes(4),
    Part::Settles,
];

/// The command that the power loss cuts short.
const LAST: Asked = Asked::Replays(9);

/// A run.
#[derive(Clone, Copy)]
struct Run {
    ground: Ground,
    /// Which sync fails, counted from 1.
    failing: u64,
    /// How many of the blocks that it was to write reach the device.
    reached: usize,
    going: Going,
    behind: Behind,
    /// What the power loss leaves in each block that is pending.
    left: Left,
}

/// What a program does once it has opened the disk again.
#[derive(Clone, Copy)]
enum Behind {
    /// It refills, and frames go out.
    Sends,
    /// The rest is played, and a command is begun.
    Plays,
}

/// The syncs of a run without a failure: one of a new disk, two of a format, whose first leaves the
/// file alone, and one of an opening; and two for each of eight commands and nine ceilings that are
/// kept.
const SYNCS: u64 = 1 + 2 + 1 + 2 * (8 + 9);

/// More syncs than any run has.
const MOST_SYNCS: u64 = 200;

/// How many blocks of the failed sync reach the device, and what the power loss leaves.
const WAYS: [(usize, Left); 6] = [
    (0, Left::Durable),
    (0, Left::Written),
    (0, Left::Half),
    (0, Left::Zeros),
    (1, Left::Zeros),
    (usize::MAX, Left::Half),
];

/// A disk of a new endpoint. Where a sync fails, it is formatted once more.
fn formatted<'a>(rt: &impl Abort, folder: &'a MemFolder, run: Run) -> Disk<'a> {
    let mut disk = make_disk(rt, folder, run.ground);
    if format(&mut disk, &identity(rt)).is_ok() {
        return disk;
    }
    let mut disk = go_on(rt, folder, run.going);
    if let Err(fault) = format(&mut disk, &identity(rt)) {
        assert!(rt; fault == JournalFault::AlreadyFormatted);
    }
    disk
}

/// The endpoint of a disk. Where a sync fails, it is opened once more.
fn opened<'a>(
    rt: &impl Abort,
    folder: &'a MemFolder,
    disk: Disk<'a>,
    going: Going,
) -> Endpoint<Disk<'a>> {
    if let Ok(endpoint) = opening(rt, disk) {
        return endpoint;
    }
    match opening(rt, go_on(rt, folder, going)) {
        Ok(endpoint) => endpoint,
        Err(_) => panic!(rt; "no endpoint"),
    }
}

/// An endpoint that a device fault has stopped is opened again: it has what was acknowledged.
fn opened_again<'a>(
    rt: &impl Abort,
    folder: &'a MemFolder,
    stopped: Endpoint<Disk<'a>>,
    known: &mut Known,
    going: Going,
) -> Endpoint<Disk<'a>> {
    known.is_under_way = stopped.under_way().is_some();
    let endpoint = opened(rt, folder, go_on(rt, folder, going), going);
    known.catch_up(rt, &endpoint);
    endpoint
}

/// Whether the command that a fault has cut short was kept. Then it counts as acknowledged.
fn is_kept<'a>(
    rt: &impl Abort,
    endpoint: &Endpoint<Disk<'a>>,
    known: &mut Known,
    part: Part,
) -> bool {
    let Part::Keeps(asked) = part else {
        return false;
    };
    if known.is_before(endpoint.config()) {
        return false;
    }
    assert!(rt; known.before.apply(&command_of(rt, asked)).is_ok());
    true
}

/// Plays a part once more that a fault has cut short.
fn repeat<'a>(rt: &impl Abort, endpoint: &mut Endpoint<Disk<'a>>, known: &mut Known, part: Part) {
    let Part::Keeps(asked) = part else {
        assert!(rt; take(rt, endpoint, known, part).is_ok());
        return;
    };
    let asked = command_of(rt, asked);
    assert!(rt; matches!(command(rt, endpoint, asked), Ok(Ok(()))));
    assert!(rt; known.before.apply(&asked).is_ok());
}

/// Frames go out until one waits for a packet number, or none can.
fn send_all<'a>(rt: &impl Abort, endpoint: &mut Endpoint<Disk<'a>>, known: &mut Known) {
    assert!(rt; endpoint.refill().is_ok());
    for _ in 0..u32::BITS {
        let Ok(number) = protect(endpoint) else {
            return;
        };
        known.passed.send(rt, endpoint.config(), number);
    }
    panic!(rt; "frames without an end")
}

/// Begins the last command, and makes so many steps of it.
fn cut_last<'a>(rt: &impl Abort, endpoint: &mut Endpoint<Disk<'a>>, known: &mut Known, steps: u64) {
    let last = command_of(rt, LAST);
    assert!(rt; known.after.apply(&last).is_ok());
    assert!(rt; endpoint.submit(last).is_ok());
    for _ in 0..steps {
        assert!(rt; step(rt, endpoint).is_ok());
    }
    known.is_under_way = endpoint.under_way().is_some();
}

/// Plays all parts, or those up to the failure and frames.
fn play<'a>(
    rt: &impl Abort,
    folder: &'a MemFolder,
    endpoint: Endpoint<Disk<'a>>,
    known: &mut Known,
    run: Run,
) -> Endpoint<Disk<'a>> {
    let mut endpoint = endpoint;
    for part in PARTS {
        if take(rt, &mut endpoint, known, part).is_err() {
            endpoint = opened_again(rt, folder, endpoint, known, run.going);
            let is_kept = is_kept(rt, &endpoint, known, part);
            if matches!(run.behind, Behind::Sends) {
                send_all(rt, &mut endpoint, known);
                return endpoint;
            }
            if !is_kept {
                repeat(rt, &mut endpoint, known, part);
            }
        }
    }
    // A sync that is still to come would fail the last command's.
    if !is_due(rt, folder) {
        cut_last(rt, &mut endpoint, known, run.failing % 4);
    }
    endpoint
}

/// Makes a run. Whether its sync failed.
fn make_run(rt: &impl Abort, alloc: Global, run: Run) -> bool {
    let folder = folder(rt, alloc, run.ground);
    let mut known = Known::new(&identity(rt));
    fail_sync(rt, &folder, run.failing, run.reached);
    let disk = formatted(rt, &folder, run);
    known.is_formatted = true;
    let endpoint = opened(rt, &folder, disk, run.going);
    let endpoint = play(rt, &folder, endpoint, &mut known, run);
    let is_failed = !is_due(rt, &folder);
    fail_none(rt, &folder);
    named(rt, &folder).press();
    named(rt, &folder).crash(run.left);
    judge(rt, open_disk(rt, &folder), &known);
    is_failed
}

/// Makes a run for each sync. How many there are.
fn fail_each(rt: &impl Abort, alloc: Global, run: Run) -> u64 {
    let mut run = run;
    for failing in 1..MOST_SYNCS {
        run.failing = failing;
        if !make_run(rt, alloc, run) {
            return failing - 1;
        }
    }
    panic!(rt; "syncs without an end")
}

/// Each sync of a packed disk fails in turn, in each of the ways.
fn fail_packed(rt: &impl Abort, alloc: Global, going: Going, behind: Behind) {
    for (reached, left) in WAYS {
        let run = Run {
            ground: Ground::Packed,
            failing: 0,
            reached,
            going,
            behind,
            left,
        };
        assert!(rt; fail_each(rt, alloc, run) == SYNCS);
    }
}

#[test]
fn frames_go_out_behind_a_failed_sync_whose_pages_stay(rt: HostRuntime) {
    fail_packed(&rt, rt.alloc(), Going::IsHeld, Behind::Sends);
}

#[test]
fn frames_go_out_behind_a_failed_sync_whose_pages_are_dropped(rt: HostRuntime) {
    fail_packed(&rt, rt.alloc(), Going::IsDropped, Behind::Sends);
}

#[test]
fn all_is_played_behind_a_failed_sync_whose_pages_stay(rt: HostRuntime) {
    fail_packed(&rt, rt.alloc(), Going::IsHeld, Behind::Plays);
}

#[test]
fn all_is_played_behind_a_failed_sync_whose_pages_are_dropped(rt: HostRuntime) {
    fail_packed(&rt, rt.alloc(), Going::IsDropped, Behind::Plays);
}

/// Each sync of a spaced disk fails in turn, and then a power loss spoils whole blocks.
fn fail_spaced(rt: &impl Abort, alloc: Global, going: Going, behind: Behind) {
    let run = Run {
        ground: Ground::Spaced,
        failing: 0,
        reached: 0,
        going,
        behind,
        left: Left::Zeros,
    };
    assert!(rt; fail_each(rt, alloc, run) == SYNCS);
}

#[test]
fn frames_go_out_behind_a_failed_sync_of_a_spaced_disk(rt: HostRuntime) {
    fail_spaced(&rt, rt.alloc(), Going::IsDropped, Behind::Sends);
}

#[test]
fn all_is_played_behind_a_failed_sync_of_a_spaced_disk(rt: HostRuntime) {
    fail_spaced(&rt, rt.alloc(), Going::IsHeld, Behind::Plays);
}
