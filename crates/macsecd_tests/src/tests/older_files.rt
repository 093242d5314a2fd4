//! Files as a program wrote them that knew format one alone, by the octets of their sectors.

use super::stand_in::Broken::{Sync, Write};
use super::stories::Step::{Failing, Keeping, Patch, Run, Text, Zeros};
use super::stories::{Step, play};
use crate::Outcome;

pub const HEAD: &str =
    "4d534543484541440000000100000000000000010000000112153524c0895e810000000400000004";

/// That of a journal that has started over as often as may be.
pub const LAST_HEAD: &str =
    "4d5345434845414400000001ffffffffffffffff0000000112153524c0895e810000000400000004";

pub const GATE: &str = "4d5345434f50454e";

/// The settings of a new endpoint.
pub const SETTINGS: &str = "4d5245430100010000000000ff";

/// A transmit association, and that frames go out under it.
pub const TX_INSTALL: &str = "4d5245430900ad7a2bd03eac835a6f620fdcb506b34500000001011e";

pub const TX_USE: &str = "4d5245430a00";

const DISK_FAULT: Outcome = Outcome::Disk("macsecd: disk\n");

/// The ceiling is the start and a block.
const SHOWN: Outcome = Outcome::Done(
    "sci 12153524c0895e81
blocks tx 4 rx 4
validate strict
replay on window 0
sci-mode explicit
encoding 0
tx 0 confidential offset 30 next 5
spent tx 1 rx 0
",
);

/// The key is spent, and a key of 256 bits is taken at the other number.
pub const KEYS: &str = "[[command]]
do = 'tx-install'
an = 1
key = 'ad7a2bd03eac835a6f620fdcb506b345'
start = 1
confidential = true
offset = 30

[[command]]
do = 'tx-install'
an = 1
key = 'ad7a2bd03eac835a6f620fdcb506b345ad7a2bd03eac835a6f620fdcb506b345'
start = 1
confidential = true
offset = 30
";

const SHOWN_WITH_KEYS: Outcome = Outcome::Done(
    "sci 12153524c0895e81
blocks tx 4 rx 4
validate strict
replay on window 0
sci-mode explicit
encoding 0
tx 0 confidential offset 30 next 5
tx 1 confidential offset 30 next 5
spent tx 2 rx 0
",
);

const DISK: &str = "story-older/disk";

const SHOW: &[&str] = &["show", DISK];

/// `format` leaves the file as it is. An opening copies it, in 33 parts, and syncs the copy; then
/// the journal starts over: a sync, a head and three records, a sync, a gate and a sync. From the
/// gate on it is of format two, and a `show` writes nothing.
const BEGUN_ANEW: &[Step] = &[
    Zeros(DISK, 526_336),
    Patch(DISK, 0, HEAD),
    Patch(DISK, 512, GATE),
    Patch(DISK, 2 * 512, SETTINGS),
    Patch(DISK, 4 * 512, TX_INSTALL),
    Patch(DISK, 5 * 512, GATE),
    Patch(DISK, 6 * 512, TX_USE),
    Patch(DISK, 7 * 512, GATE),
    Keeping(
        &[DISK],
        &["format", DISK, "12153524c0895e81", "4", "4"],
        Outcome::Disk("macsecd: already formatted\n"),
    ),
    Failing(DISK, Sync(1), SHOW, DISK_FAULT),
    Failing(DISK, Sync(2), SHOW, DISK_FAULT),
    Failing(DISK, Write(34), SHOW, DISK_FAULT),
    Failing(DISK, Write(37), SHOW, DISK_FAULT),
    Failing(DISK, Sync(3), SHOW, DISK_FAULT),
    Failing(DISK, Write(38), SHOW, DISK_FAULT),
    Failing(DISK, Sync(4), SHOW, DISK_FAULT),
    Failing(DISK, Write(34), SHOW, SHOWN),
    Keeping(&[DISK], SHOW, SHOWN),
    Text("story-older/keys.toml", KEYS),
    Run(
        &["apply", DISK, "story-older/keys.toml"],
        Outcome::Refused("1 refused KeySpent\n2 ok\n"),
    ),
    Keeping(&[DISK], SHOW, SHOWN_WITH_KEYS),
];

#[test]
fn an_older_file_goes_on(rt: HostRuntime) {
    play(&rt, rt.alloc(), "story-older", BEGUN_ANEW);
}

const SPACED: &str = "story-older-spaced/disk";

/// The same sectors, each in a block of its own: 258 parts.
const BEGUN_ANEW_SPACED: &[Step] = &[
    Zeros(SPACED, 4_214_784),
    Patch(SPACED, 1_028 * 4_096, "4d53454334303936"),
    Patch(SPACED, 0, HEAD),
    Patch(SPACED, 4_096, GATE),
    Patch(SPACED, 2 * 4_096, SETTINGS),
    Patch(SPACED, 4 * 4_096, TX_INSTALL),
    Patch(SPACED, 5 * 4_096, GATE),
    Patch(SPACED, 6 * 4_096, TX_USE),
    Patch(SPACED, 7 * 4_096, GATE),
    Failing(SPACED, Write(263), &["show", SPACED], DISK_FAULT),
    Failing(SPACED, Write(264), &["show", SPACED], SHOWN),
    Failing(SPACED, Write(259), &["show", SPACED], SHOWN),
    Keeping(&[SPACED], &["show", SPACED], SHOWN),
];

#[test]
fn an_older_file_in_blocks_goes_on(rt: HostRuntime) {
    play(&rt, rt.alloc(), "story-older-spaced", BEGUN_ANEW_SPACED);
}

const LAST: &str = "story-older-last/disk";

const SPENT: Outcome = Outcome::Disk("macsecd: generations spent\n");

/// It cannot start over, and is left as it is; but a record that is none is seen first.
const LAST_GENERATION: &[Step] = &[
    Zeros(LAST, 526_336),
    Patch(LAST, 0, LAST_HEAD),
    Patch(LAST, 512, GATE),
    Patch(LAST, 2 * 512, SETTINGS),
    Keeping(&[LAST], &["show", LAST], SPENT),
    Keeping(&[LAST], &["apply", LAST, "story-older-last/no"], SPENT),
    Patch(LAST, 2 * 512, "ff"),
    Keeping(
        &[LAST],
        &["show", LAST],
        Outcome::Disk("macsecd: bad journal\n"),
    ),
];

#[test]
fn an_older_file_in_its_last_generation_is_refused(rt: HostRuntime) {
    play(&rt, rt.alloc(), "story-older-last", LAST_GENERATION);
}
