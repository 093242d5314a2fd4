//! What commands would be answered on a disk, which stays as it is.

use super::applying::SIX_COMMANDS;
use super::captures::SENDER;
use super::older_files::{GATE, HEAD, KEYS, LAST_HEAD, SETTINGS, TX_INSTALL, TX_USE};
use super::stand_in::Broken::{Opening, Printed, Read};
use super::stories::Step::{
    Claimed, Closing, Failing, Filled, Folder, HasOctets, IsMissing, Keeping, Patch, Run, Shared,
    Text, Zeros,
};
use super::stories::{Step, play};
use crate::Outcome;
use std::io::ErrorKind::{NotFound, Other, OutOfMemory};

const FORMATTED: Outcome = Outcome::Done("formatted\n");

/// The answers of `apply` to the same commands.
const SIX_LINES: Outcome = Outcome::Refused(
    "1 ok\n2 refused KeySpent\n3 refused OffsetChoice\n4 refused SlotEmpty\n5 ok\n6 refused InUse\n",
);

const WOULD_SIX: Outcome = Outcome::Refused(
    "1 would be ok
2 would be refused KeySpent
3 would be refused OffsetChoice
4 would be refused SlotEmpty
5 would be ok
6 would be refused InUse
",
);

const WOULD_BE_OK: Outcome = Outcome::Done("1 would be ok\n2 would be ok\n");

const DISK: &str = "story-trying/disk";

const SPACED: &str = "story-trying/spaced";

const SIX: &str = "story-trying/six.toml";

const TWO: &str = "story-trying/two.toml";

const ONE: &str = "story-trying/one.toml";

/// A trial leaves both files as they are, and answers as `apply` does after it.
const TRIED: &[Step] = &[
    Run(&["format", DISK, "12153524c0895e81", "4", "4"], FORMATTED),
    Text(SIX, SIX_COMMANDS),
    Text(TWO, SENDER),
    Text(ONE, "[[command]]\ndo = 'tx-use'\nan = 0\n"),
    Keeping(&[DISK, SIX], &["check", SIX, DISK], WOULD_SIX),
    Keeping(&[DISK, TWO], &["check", TWO, DISK], WOULD_BE_OK),
    Run(
        &["check", ONE, DISK],
        Outcome::Refused("1 would be refused SlotEmpty\n"),
    ),
    Run(&["apply", DISK, SIX], SIX_LINES),
    Keeping(
        &[DISK],
        &["check", ONE, DISK],
        Outcome::Done("1 would be ok\n"),
    ),
    Shared(
        DISK,
        &["check", ONE, DISK],
        Outcome::Done("1 would be ok\n"),
    ),
    Text(ONE, ""),
    Run(&["check", ONE, DISK], Outcome::Done("0 commands\n")),
    Closing(0, 0, &["check", SIX, DISK]),
    Run(
        &[
            "format",
            SPACED,
            "12153524c0895e81",
            "4",
            "4",
            "--block",
            "4096",
        ],
        FORMATTED,
    ),
    Keeping(&[SPACED], &["check", SIX, SPACED], WOULD_SIX),
    Run(&["apply", SPACED, SIX], SIX_LINES),
    Keeping(
        &[SPACED],
        &["check", SIX, SPACED],
        Outcome::Refused(
            "1 would be refused SlotTaken
2 would be refused KeySpent
3 would be refused OffsetChoice
4 would be refused SlotEmpty
5 would be ok
6 would be refused InUse
",
        ),
    ),
];

#[test]
fn commands_are_tried(rt: HostRuntime) {
    play(&rt, rt.alloc(), "story-trying", TRIED);
}

const OLDER: &str = "story-trying-older/disk";

const OLDER_KEYS: &str = "story-trying-older/keys.toml";

const LAST: &str = "story-trying-older/last";

/// Files of an older program: they are not brought up to date. One in its last generation cannot
/// be.
const TRIED_OLDER: &[Step] = &[
    Zeros(OLDER, 526_336),
    Patch(OLDER, 0, HEAD),
    Patch(OLDER, 512, GATE),
    Patch(OLDER, 2 * 512, SETTINGS),
    Patch(OLDER, 4 * 512, TX_INSTALL),
    Patch(OLDER, 5 * 512, GATE),
    Patch(OLDER, 6 * 512, TX_USE),
    Patch(OLDER, 7 * 512, GATE),
    Text(OLDER_KEYS, KEYS),
    Keeping(
        &[OLDER],
        &["check", OLDER_KEYS, OLDER],
        Outcome::Refused("1 would be refused KeySpent\n2 would be ok\n"),
    ),
    Zeros(LAST, 526_336),
    Patch(LAST, 0, LAST_HEAD),
    Patch(LAST, 512, GATE),
    Patch(LAST, 2 * 512, SETTINGS),
    Keeping(
        &[LAST],
        &["check", OLDER_KEYS, LAST],
        Outcome::Disk("macsecd: generations spent\n"),
    ),
];

#[test]
fn older_files_are_tried(rt: HostRuntime) {
    play(&rt, rt.alloc(), "story-trying-older", TRIED_OLDER);
}

const FAULTY: &str = "story-trial-faults/disk";

const COMMANDS: &str = "story-trial-faults/two.toml";

const TRY: &[&str] = &["check", COMMANDS, FAULTY];

const NO_FILE: Outcome = Outcome::Disk(
    "macsecd: disk file: story-trial-faults/disk: no such file\n",
);

const DISK_FAULT: Outcome = Outcome::Disk("macsecd: disk\n");

/// The command file is read first. Nothing is printed before a fault, and no file is made.
const FAULTS: &[Step] = &[
    Run(
        TRY,
        Outcome::Fault("macsecd: commands: story-trial-faults/two.toml: no such file\n"),
    ),
    Text(COMMANDS, "[[command]]\ndo = 'tx-use'\nan = 4\n"),
    Run(TRY, Outcome::Fault("macsecd: command 1 an: not 0 to 3\n")),
    Text(COMMANDS, SENDER),
    Run(TRY, NO_FILE),
    IsMissing(FAULTY),
    Folder("story-trial-faults/folder"),
    Run(
        &["check", COMMANDS, "story-trial-faults/folder"],
        Outcome::Disk("macsecd: disk file: story-trial-faults/folder: a folder\n"),
    ),
    Filled(FAULTY, 0, 526_337),
    Run(TRY, Outcome::Disk("macsecd: disk length\n")),
    Filled(FAULTY, 0, 512),
    Run(TRY, Outcome::Disk("macsecd: too small\n")),
    HasOctets(FAULTY, 512),
    Filled(FAULTY, 0, 526_848),
    Run(TRY, Outcome::Disk("macsecd: not formatted\n")),
    Run(&["format", FAULTY, "12153524c0895e81", "1", "1"], FORMATTED),
    Run(TRY, WOULD_BE_OK),
    Claimed(
        FAULTY,
        TRY,
        Outcome::Disk("macsecd: disk file: story-trial-faults/disk: in use by another program\n"),
    ),
    Failing(
        FAULTY,
        Printed,
        TRY,
        Outcome::Disk(
            "macsecd: disk file: story-trial-faults/disk: not a regular file, or standard output goes there\n",
        ),
    ),
    Failing(FAULTY, Opening(NotFound), TRY, NO_FILE),
    Failing(
        FAULTY,
        Opening(OutOfMemory),
        TRY,
        Outcome::Fault("macsecd: memory\n"),
    ),
    // A sector is read in six parts here, and the last of 1,028 by the reads up to the 6,168th.
    Failing(FAULTY, Read(1, Other), TRY, DISK_FAULT),
    Failing(FAULTY, Read(6_168, Other), TRY, DISK_FAULT),
    Failing(FAULTY, Read(6_169, Other), TRY, WOULD_BE_OK),
    Patch(FAULTY, 0, "ff"),
    Run(TRY, Outcome::Disk("macsecd: bad journal\n")),
];

#[test]
fn each_fault_of_a_trial_is_told(rt: HostRuntime) {
    play(&rt, rt.alloc(), "story-trial-faults", FAULTS);
}
