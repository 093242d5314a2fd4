//! Disks of format one: an opening starts the journal over, in format two, and is stopped at each
//! of its device calls.

use super::SECTORS;
use super::cutting::{Cut, Kind, Stop, format_again, fused, identity, opened};
use super::disks::{blank, copy, durable};
use super::judging::{judge, open_fused};
use super::known::Known;
use super::life::take;
use super::script::{Asked, Part, SCRIPT};
use super::stops::{After, Totals, lose_in_each_way};
use super::tearing::Pending;
use macs_disk::{MemDisk, SectorDisk};
use macs_endpoint::Endpoint;
use std::alloc::Global;
use std::process::Abort;

/// What an older program left.
#[derive(Clone, Copy)]
enum Old {
    /// The first parts of the script: four commands, and twelve frames each way. The second area
    /// was never written.
    Young,
    /// The whole script: the second area is current, and the first one has 256 open gates.
    Grown,
}

/// How many parts of the script the young disk has.
const PARTS: usize = 5;

/// As many records as an area has slots.
const AREA: u32 = 256;

/// Where the body of a head has its version, whose last octet this is.
const VERSION: usize = 11;

/// Where the head of the second area is.
const SECOND_HEAD: u64 = 514;

/// An opening of the young disk, of any format, begins with a sync, the reads of two head gates and
/// a head body, of 255 gates after the snapshot, and of the settings, four commands and eight
/// ceilings.
const FINDS: u64 = 1 + 3 + 255 + 13;

/// Its journal starts over: the reads of 257 gates, a sync, the body of the head and of six
/// records, a sync, the head gate and a sync.
const CALLS: u64 = FINDS + 257 + 1 + 7 + 1 + 1 + 1;

/// An opening of the disk once that is done: a sync, the reads of two head gates and both head
/// bodies, of 250 gates and of six records.
const OPENING: u64 = 1 + 4 + 250 + 6;

/// An opening of the grown disk finds six records of a snapshot, a command and six ceilings.
const GROWN_FINDS: u64 = OPENING + 7;

/// Of 257 gates each is read, and written closed but for that of the settings, the snapshot of the
/// first area.
const GROWN_CLOSED: u64 = GROWN_FINDS + 257 + 256;

/// A hundred gates are closed, and another hundred.
const GROWN_HUNDRED: u64 = GROWN_FINDS + 101 + 100;

const GROWN_TWO_HUNDRED: u64 = GROWN_HUNDRED + 100 + 100;

/// A sync, the body of the head and of six records, a sync, the head gate and a sync.
const GROWN_CALLS: u64 = GROWN_CLOSED + 1 + 7 + 1 + 1 + 1;

/// A head has version 1: so an older program wrote it.
fn make_older(rt: &impl Abort, disk: &mut MemDisk, at: u64) {
    let mut head = durable(rt, disk, at);
    head[VERSION] = 1;
    assert!(rt; at < disk.sectors());
    assert!(rt; disk.write(at, &head).is_ok());
    assert!(rt; disk.sync().is_ok());
    disk.crash();
}

/// A part of the script as an older program takes it, which has no keys of 256 bits.
fn older_part(part: Part) -> Part {
    match part {
        Part::Keeps(Asked::Installs(1, 1)) => Part::Keeps(Asked::Installs(1, 2)),
        Part::Rests => Part::Settles, // It ends without a rest.
        _ => part,
    }
}

/// Plays so many parts of the script, from the first on, as an older program takes them.
fn play_older<D: SectorDisk>(
    rt: &impl Abort,
    endpoint: &mut Endpoint<D>,
    known: &mut Known,
    end: usize,
) {
    for place in 0..end {
        assert!(rt; place < SCRIPT.len());
        assert!(rt; take(rt, endpoint, known, older_part(SCRIPT[place])).is_ok());
    }
}

/// Plays the parts of the script after those of the young disk.
fn play_rest<D: SectorDisk>(rt: &impl Abort, endpoint: &mut Endpoint<D>, known: &mut Known) {
    for place in PARTS..SCRIPT.len() {
        assert!(rt; take(rt, endpoint, known, SCRIPT[place]).is_ok());
    }
}

/// The disk of an endpoint has heads as an older program writes them.
fn older_disk(rt: &impl Abort, disk: MemDisk, old: Old) -> MemDisk {
    let mut disk = disk;
    make_older(rt, &mut disk, 0);
    if let Old::Grown = old {
        make_older(rt, &mut disk, SECOND_HEAD);
    }
    disk
}

/// An older program's disk, and what was known at its end.
fn older(rt: &impl Abort, alloc: Global, old: Old) -> Cut {
    let mut disk = blank(rt, alloc);
    assert!(rt; disk.sectors() == SECTORS);
    assert!(rt; format_again(rt, &mut disk).is_ok());
    let mut known = Known::new(&identity(rt));
    known.is_formatted = true;
    let mut endpoint = opened(rt, disk);
    let end = match old {
        Old::Young => PARTS,
        Old::Grown => SCRIPT.len(),
    };
    play_older(rt, &mut endpoint, &mut known, end);
    let disk = older_disk(rt, endpoint.into_disk(), old);
    Cut { disk, known }
}

/// Its opening is stopped at each of these calls, in both ways, each on a copy of the disk; then
/// the power goes.
fn stop_at_each(rt: &impl Abort, alloc: Global, old: Old, calls: [u64; 2], after: After) -> Totals {
    let [first, end] = calls;
    let mut totals = Totals {
        stops: 0,
        losses: 0,
        openings: 0,
    };
    let Cut { mut disk, known } = older(rt, alloc, old);
    for passed in first..end {
        for kind in [Kind::Dead, Kind::Filled] {
            let tried = copy(rt, alloc, &mut disk, &Pending::new());
            let (left, is_open) = open_fused(rt, fused(tried, Stop { passed, kind }));
            assert!(rt; !is_open);
            totals.stops = totals.stops.saturating_add(1);
            lose_in_each_way(rt, alloc, left, &known, after, &mut totals);
        }
    }
    totals
}

/// So many stops and power losses, and no opening after them is stopped.
fn expect(rt: &impl Abort, alloc: Global, old: Old, calls: [u64; 2], losses: u64) {
    let [first, end] = calls;
    assert!(rt; first < end);
    assert!(rt; end <= GROWN_CALLS);
    let totals = Totals {
        stops: 2 * (end - first),
        losses,
        openings: 0,
    };
    assert!(rt; stop_at_each(rt, alloc, old, calls, After::Opens) == totals);
}

/// The opening of an older program's disk has so many device calls.
fn expect_calls(rt: &impl Abort, alloc: Global, old: Old, calls: u64) {
    assert!(rt; 0 < calls);
    let Cut { mut disk, .. } = older(rt, alloc, old);
    for (passed, opens) in [(calls - 1, false), (calls, true)] {
        let tried = copy(rt, alloc, &mut disk, &Pending::new());
        let kind = Kind::Dead;
        let (_, is_open) = open_fused(rt, fused(tried, Stop { passed, kind }));
        assert!(rt; is_open == opens);
    }
}

#[test]
fn a_migration_has_so_many_device_calls(rt: HostRuntime) {
    expect_calls(&rt, rt.alloc(), Old::Young, CALLS);
    expect_calls(&rt, rt.alloc(), Old::Grown, GROWN_CALLS);
}

/// The rest of the script is played on the young disk, with a key of 256 bits besides the short
/// one, and as many records more as an area has slots: the journal starts over in the area that was
/// of format one, whose gates are open.
#[test]
fn the_script_goes_on_behind_a_migration(rt: HostRuntime) {
    let Cut { disk, mut known } = older(&rt, rt.alloc(), Old::Young);
    let mut endpoint = opened(&rt, disk);
    known.catch_up(&rt, &endpoint);
    play_rest(&rt, &mut endpoint, &mut known);
    assert!(rt; take(&rt, &mut endpoint, &mut known, Part::Windows(AREA)).is_ok());
    let mut disk = endpoint.into_disk();
    disk.crash();
    judge(&rt, disk, &known);
}

/// Nothing is pending while the disk is read.
#[test]
fn what_comes_before_a_migration_is_stopped_at_each_call(rt: HostRuntime) {
    expect(&rt, rt.alloc(), Old::Young, [0, FINDS], 2 * FINDS);
}

/// The pending sectors are those of any compaction.
#[test]
fn a_migration_is_stopped_at_each_call(rt: HostRuntime) {
    let dead = 257 + 1 + 1 + 6 + 36 + 4 * 6 + 6 + 1 + 6;
    let filled = 257 + 1 + 6 + 36 + 5 * 6 + 6 + 6 + 6;
    expect(&rt, rt.alloc(), Old::Young, [FINDS, CALLS], dead + filled);
}

/// At the read and the write of a gate as many sectors are pending as gates were closed before, and
/// one more where a write filled its own.
#[test]
fn the_first_closed_gates_of_a_migration_are_stopped_at_each_call(rt: HostRuntime) {
    let reads = 2 * (1 + 6 + 6 + 36 + 97 * 6);
    let dead = 1 + 6 + 36 + 97 * 6;
    let filled = 6 + 36 + 98 * 6;
    let calls = [GROWN_FINDS, GROWN_HUNDRED];
    expect(&rt, rt.alloc(), Old::Grown, calls, reads + dead + filled);
}

#[test]
fn further_closed_gates_of_a_migration_are_stopped_at_each_call(rt: HostRuntime) {
    let calls = [GROWN_HUNDRED, GROWN_TWO_HUNDRED];
    expect(&rt, rt.alloc(), Old::Grown, calls, 4 * 100 * 6);
}

/// The last gates, their sync, and what comes after it as in any compaction.
#[test]
fn the_end_of_such_a_migration_is_stopped_at_each_call(rt: HostRuntime) {
    let gates = 4 * 56 * 6 + 2 * 6;
    let dead = 1 + 6 + 36 + 4 * 6 + 6 + 1 + 6;
    let filled = 6 + 36 + 5 * 6 + 6 + 6 + 6;
    let calls = [GROWN_TWO_HUNDRED, GROWN_CALLS];
    expect(&rt, rt.alloc(), Old::Grown, calls, gates + dead + filled);
}

/// After these calls of the young disk's opening there are so many power losses after which the
/// journal of format one is found, and starts over again, and so many after which that of format
/// two is. Each call of the openings is stopped.
fn expect_openings(rt: &impl Abort, alloc: Global, calls: [u64; 2], before: u64, after: u64) {
    assert!(rt; before <= 12);
    assert!(rt; after <= 12);
    let totals = Totals {
        stops: 2,
        losses: before + after,
        openings: before * (2 * CALLS - 1) + after * 2 * OPENING,
    };
    let stopped = stop_at_each(rt, alloc, Old::Young, calls, After::StopsMigrations);
    assert!(rt; stopped == totals);
}

#[test]
fn openings_behind_a_cut_body_of_a_migration_are_stopped_at_each_call(rt: HostRuntime) {
    expect_openings(&rt, rt.alloc(), [CALLS - 4, CALLS - 3], 6 + 6, 0);
}

#[test]
fn openings_behind_a_cut_sync_of_a_migration_are_stopped_at_each_call(rt: HostRuntime) {
    expect_openings(&rt, rt.alloc(), [CALLS - 3, CALLS - 2], 6 + 6, 0);
}

/// The new head gate is open in one of six contents where a write filled it.
#[test]
fn openings_behind_a_cut_gate_of_a_migration_are_stopped_at_each_call(rt: HostRuntime) {
    expect_openings(&rt, rt.alloc(), [CALLS - 2, CALLS - 1], 1 + 5, 1);
}

/// It is open in three of six contents.
#[test]
fn openings_behind_the_last_sync_of_a_migration_are_stopped_at_each_call(rt: HostRuntime) {
    expect_openings(&rt, rt.alloc(), [CALLS - 1, CALLS], 3 + 3, 3 + 3);
}
