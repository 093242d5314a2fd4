//! The device calls of the script, in their order, and how often each part of them is stopped.

use super::cutting::{Kind, Stop, play_to};
use super::judging::judge_rested;
use super::stops::Behind::{Formats, Loses, Opens, StopsOpenings};
use super::stops::{Behind, Totals, stop_at_each};
use std::alloc::Global;
use std::process::Abort;

/// A format: a sync, the reads of two head gates, two bodies, the reads of 256 gates, a sync, the
/// head gate and a sync.
const FORMAT: u64 = 1 + 2 + 2 + 256 + 1 + 1 + 1;

/// The opening after it: a sync, the reads of two head gates and a head body, of 255 gates after
/// the snapshot and of the one record in it.
const OPENING: u64 = 1 + 3 + 255 + 1;

/// A command or a reservation: a body, a sync, a gate and a sync.
const PIECE: u64 = 4;

/// The first piece of work.
const PIECES: u64 = FORMAT + OPENING;

/// After 16 pieces the windows begin: seven commands are kept by then, and nine ceilings were
/// raised.
const WINDOWS: u64 = PIECES + 16 * PIECE;

/// The second transmit association is installed after 12 pieces.
const SECOND_INSTALL: u64 = PIECES + 12 * PIECE;

/// After 255 pieces the journal starts over: the reads of 257 gates, a sync, the body of the head
/// and of six records, a sync, the head gate and a sync.
const COMPACTION: u64 = PIECES + 255 * PIECE;

/// Its end.
const COMPACTED: u64 = COMPACTION + 257 + 1 + 7 + 1 + 1 + 1;

/// The command after it is kept.
const KEPT: u64 = COMPACTED + PIECE;

/// The rest begins: six ceilings were raised.
const REST: u64 = KEPT + 6 * PIECE;

/// The gate of the head of the first area was read and closed, and that of slot 0 read, which is of
/// the snapshot and so never open.
const SLOTS: u64 = REST + 2 + 1;

/// The gates of the 255 other slots, all of which were used, were read and closed.
const ALL_CLOSED: u64 = SLOTS + 2 * 255;

/// The script ends: a sync, the body of the head and of six records, a sync, the head gate and a
/// sync.
const END: u64 = ALL_CLOSED + 1 + 7 + 1 + 1 + 1;

/// Each device call from one to before another is a stop: so many stops, power losses and stopped
/// openings.
fn expect(rt: &impl Abort, alloc: Global, calls: [u64; 2], behind: Behind, totals: Totals) {
    let [first, end] = calls;
    assert!(rt; stop_at_each(rt, alloc, first, end, behind) == totals);
}

/// How many power losses there are for a piece of work. After a call that does not reach the disk
/// nothing is pending at either write, and one sector at either sync; after a write that fills its
/// sector, one at each.
const LOSSES: u64 = 1 + 6 + 1 + 6 + 4 * 6;

/// So many pieces of work from a device call on are stopped at each of their calls.
fn expect_pieces(rt: &impl Abort, alloc: Global, first: u64, pieces: u64) {
    assert!(rt; first < END);
    assert!(rt; pieces < END);
    let calls = [first, first + PIECE * pieces];
    let totals = Totals {
        stops: 8 * pieces,
        losses: LOSSES * pieces,
        openings: 0,
    };
    expect(rt, alloc, calls, Loses, totals);
}

#[test]
fn the_script_has_so_many_device_calls(rt: HostRuntime) {
    let (is_cut, _) = play_to(
        &rt,
        rt.alloc(),
        Stop {
            passed: END - 1,
            kind: Kind::Dead,
        },
    );
    assert!(rt; is_cut);
    let (is_cut, whole) = play_to(
        &rt,
        rt.alloc(),
        Stop {
            passed: END,
            kind: Kind::Dead,
        },
    );
    assert!(rt; !is_cut);
    judge_rested(&rt, whole);
}

/// So many calls of a format from one on are stopped, at which two bodies are pending: the reads of
/// gates and the sync after them.
fn expect_bodies(rt: &impl Abort, alloc: Global, first: u64, calls: u64) {
    assert!(rt; first < FORMAT);
    assert!(rt; calls < FORMAT);
    let totals = Totals {
        stops: 2 * calls,
        losses: 2 * 36 * calls,
        openings: 0,
    };
    expect(rt, alloc, [first, first + calls], Loses, totals);
}

/// Nothing is pending at the first four calls, one body at the fifth, and two at the 65 after it.
/// Where a write fills its sector, that is one more.
#[test]
fn the_start_of_a_format_is_stopped_at_each_call(rt: HostRuntime) {
    let dead = 4 + 6 + 65 * 36;
    let filled = 3 + 6 + 36 + 65 * 36;
    let totals = Totals {
        stops: 2 * 70,
        losses: dead + filled,
        openings: 0,
    };
    expect(&rt, rt.alloc(), [0, 70], Loses, totals);
}

#[test]
fn the_first_reads_of_a_format_are_stopped_at_each_call(rt: HostRuntime) {
    expect_bodies(&rt, rt.alloc(), 70, 64);
}

#[test]
fn further_reads_of_a_format_are_stopped_at_each_call(rt: HostRuntime) {
    expect_bodies(&rt, rt.alloc(), 134, 66);
}

/// Two bodies are pending at the first 62 calls, nothing when the head gate is written, and that
/// gate at the last sync.
#[test]
fn the_end_of_a_format_is_stopped_at_each_call(rt: HostRuntime) {
    let dead = 62 * 36 + 1 + 6;
    let filled = 62 * 36 + 6 + 6;
    let totals = Totals {
        stops: 2 * 64,
        losses: dead + filled,
        openings: 0,
    };
    expect(&rt, rt.alloc(), [200, FORMAT], Loses, totals);
}

/// Nothing is pending.
#[test]
fn an_opening_is_stopped_at_each_call(rt: HostRuntime) {
    let totals = Totals {
        stops: 2 * OPENING,
        losses: 2 * OPENING,
        openings: 0,
    };
    expect(&rt, rt.alloc(), [FORMAT, PIECES], Loses, totals);
}

#[test]
fn commands_and_reservations_are_stopped_at_each_call(rt: HostRuntime) {
    expect_pieces(&rt, rt.alloc(), PIECES, 16);
}

#[test]
fn the_first_windows_are_stopped_at_each_call(rt: HostRuntime) {
    expect_pieces(&rt, rt.alloc(), WINDOWS, 120);
}

#[test]
fn further_windows_are_stopped_at_each_call(rt: HostRuntime) {
    expect_pieces(&rt, rt.alloc(), WINDOWS + 120 * PIECE, 60);
}

#[test]
fn the_last_windows_are_stopped_at_each_call(rt: HostRuntime) {
    expect_pieces(&rt, rt.alloc(), WINDOWS + 180 * PIECE, 59);
}

/// Nothing is pending while gates are read. Then bodies are: one more with each that is written.
#[test]
fn a_compaction_is_stopped_at_each_call(rt: HostRuntime) {
    let dead = 257 + 1 + 1 + 6 + 36 + 4 * 6 + 6 + 1 + 6;
    let filled = 257 + 1 + 6 + 36 + 5 * 6 + 6 + 6 + 6;
    let calls = COMPACTED - COMPACTION;
    let totals = Totals {
        stops: 2 * calls,
        losses: dead + filled,
        openings: 0,
    };
    expect(&rt, rt.alloc(), [COMPACTION, COMPACTED], Loses, totals);
}

/// As many gates are pending as were closed: none at the first two calls, one at the next three,
/// two at the two after them. Where a write fills its sector, that is one more.
#[test]
fn the_start_of_a_rest_is_stopped_at_each_call(rt: HostRuntime) {
    let dead = 1 + 1 + 6 + 2 * 6 + 2 * 36 + 83 * 12;
    let filled = 1 + 6 + 6 + (6 + 36) + (36 + 6) + 83 * 12;
    let totals = Totals {
        stops: 2 * (3 + 2 * 85),
        losses: dead + filled,
        openings: 0,
    };
    expect(&rt, rt.alloc(), [REST, SLOTS + 2 * 85], Loses, totals);
}

/// The gates of so many slots, after so many others, are read and closed.
fn expect_gates(rt: &impl Abort, alloc: Global, before: u64, gates: u64) {
    assert!(rt; before < 256);
    assert!(rt; gates < 256);
    let first = SLOTS + 2 * before;
    let totals = Totals {
        stops: 4 * gates,
        losses: 24 * gates,
        openings: 0,
    };
    expect(rt, alloc, [first, first + 2 * gates], Loses, totals);
}

#[test]
fn further_gates_of_a_rest_are_stopped_at_each_call(rt: HostRuntime) {
    expect_gates(&rt, rt.alloc(), 85, 85);
}

#[test]
fn the_last_gates_of_a_rest_are_stopped_at_each_call(rt: HostRuntime) {
    expect_gates(&rt, rt.alloc(), 170, 85);
}

/// The gates are pending at the first sync. Then bodies are, as in a compaction.
#[test]
fn the_end_of_a_rest_is_stopped_at_each_call(rt: HostRuntime) {
    let dead = 6 + 1 + 6 + 36 + 4 * 6 + 6 + 1 + 6;
    let filled = 6 + 6 + 36 + 5 * 6 + 6 + 6 + 6;
    let totals = Totals {
        stops: 2 * (END - ALL_CLOSED),
        losses: dead + filled,
        openings: 0,
    };
    expect(&rt, rt.alloc(), [ALL_CLOSED, END], Loses, totals);
}

#[test]
fn what_comes_behind_a_compaction_is_stopped_at_each_call(rt: HostRuntime) {
    expect_pieces(&rt, rt.alloc(), COMPACTED, 7);
}

/// An opening takes 272 calls, and one more where the command is found: where the gate was written,
/// or left open. That is so in one of six contents where a write filled it with ones, and in three
/// of six at either sync of it.
#[test]
fn openings_behind_a_cut_command_are_stopped_at_each_call(rt: HostRuntime) {
    let before = 1 + 6 + 6 + 6 + 1 + 5 + 3 + 3;
    let after = 1 + 3 + 3;
    let totals = Totals {
        stops: 8,
        losses: LOSSES,
        openings: 2 * (before * 272 + after * 273),
    };
    expect(
        &rt,
        rt.alloc(),
        [SECOND_INSTALL, SECOND_INSTALL + PIECE],
        StopsOpenings,
        totals,
    );
}

/// An opening of a full area reads all 256 slots, gates and bodies, and takes 515 calls.
#[test]
fn openings_behind_cut_bodies_are_stopped_at_each_call(rt: HostRuntime) {
    let losses = 36 + 3 * 6 + 4 * 6;
    let totals = Totals {
        stops: 8,
        losses,
        openings: 2 * losses * 515,
    };
    expect(
        &rt,
        rt.alloc(),
        [COMPACTED - 8, COMPACTED - 4],
        StopsOpenings,
        totals,
    );
}

/// An opening takes 515 calls, or 261 where the new head gate is open: in one of six contents where
/// a write filled it, and in three of six at either sync of it.
#[test]
fn openings_behind_a_cut_head_gate_are_stopped_at_each_call(rt: HostRuntime) {
    let before = 6 + 6 + 1 + 6 + 6 + 5 + 3 + 3;
    let after = 1 + 3 + 3;
    let openings = 2 * (before * 515 + after * 261);
    let totals = Totals {
        stops: 8,
        losses: before + after,
        openings,
    };
    expect(
        &rt,
        rt.alloc(),
        [COMPACTED - 4, COMPACTED],
        StopsOpenings,
        totals,
    );
}

/// So many device calls are stopped, and no power loss comes after them at first.
fn expect_without_loss(
    rt: &impl Abort,
    alloc: Global,
    calls: [u64; 2],
    behind: Behind,
    stops: u64,
) {
    let totals = Totals {
        stops,
        losses: 0,
        openings: 0,
    };
    expect(rt, alloc, calls, behind, totals);
}

#[test]
fn a_format_that_was_stopped_is_made_again(rt: HostRuntime) {
    expect_without_loss(&rt, rt.alloc(), [0, FORMAT], Formats, 2 * FORMAT);
}

#[test]
fn an_endpoint_that_was_stopped_is_opened_again(rt: HostRuntime) {
    expect_without_loss(&rt, rt.alloc(), [PIECES, WINDOWS], Opens, 2 * 16 * PIECE);
}

#[test]
fn a_compaction_that_was_stopped_is_opened_again(rt: HostRuntime) {
    expect_without_loss(&rt, rt.alloc(), [COMPACTED - 10, KEPT], Opens, 2 * 14);
}
