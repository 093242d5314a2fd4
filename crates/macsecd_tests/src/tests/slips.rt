//! Words that name another file than they should: nothing is written over.

use super::captures::{CAPTURE_FAULT, PLAIN, SENDER};
use super::stories::Step::{
    Claimed, Filled, Folder, Hex, Holds, IsMissing, Keeping, Link, Patch, Run, Shared, Symbolic,
    Text, Zeros,
};
use super::stories::{Step, play};
use crate::Outcome;

const FORMATTED: Outcome = Outcome::Done("formatted\n");

const NONE_DELIVERED: Outcome = Outcome::Done("delivered 0 discarded 3\n");

const COMMANDS_FAULT: Outcome = Outcome::Fault("macsecd: commands\n");

const NO_FILE: Outcome = Outcome::Disk("macsecd: disk file\n");

/// The endpoint of a run.
const DISK: &str = "story-slips/disk";

/// Other endpoints, one of them in a spaced file.
const OTHER: &str = "story-slips/other";

const SPACED: &str = "story-slips/spaced";

const FILE: &str = "story-slips/file.toml";

const IN: &str = "story-slips/in";

const OUT: &str = "story-slips/out";

/// Other names of the disk file: a second one, and a symbolic link.
const SECOND: &str = "story-slips/second";

const SYMBOLIC: &str = "story-slips/symbolic";

const FILES: &[&str] = &[DISK, OTHER, FILE, IN];

/// The numbers begin after those that the first run reserved: no slip used one.
const SHOWN: Outcome = Outcome::Done(
    "sci 12153524c0895e81
blocks tx 4 rx 4
validate strict
replay on window 0
sci-mode explicit
encoding 0
tx 0 confidential offset 0 next 5
spent tx 1 rx 0
",
);

const SLIPS: &[Step] = &[
    Run(&["format", DISK, "12153524c0895e81", "4", "4"], FORMATTED),
    Run(&["format", OTHER, "12153524c0895e82", "4", "4"], FORMATTED),
    Run(
        &[
            "format",
            SPACED,
            "12153524c0895e83",
            "4",
            "4",
            "--block",
            "4096",
        ],
        FORMATTED,
    ),
    Text(FILE, SENDER),
    Hex(IN, PLAIN),
    Symbolic("disk", SYMBOLIC),
    Run(&["apply", DISK, FILE], Outcome::Done("1 ok\n2 ok\n")),
    // OUTPUT is the disk, by each of its names, or that of another endpoint, or INPUT.
    Keeping(FILES, &["protect", DISK, IN, DISK], CAPTURE_FAULT),
    Keeping(FILES, &["protect", DISK, IN, SYMBOLIC], CAPTURE_FAULT),
    Keeping(FILES, &["validate", DISK, IN, DISK], CAPTURE_FAULT),
    Keeping(FILES, &["protect", DISK, IN, OTHER], CAPTURE_FAULT),
    Keeping(&[SPACED], &["protect", DISK, IN, SPACED], CAPTURE_FAULT),
    Keeping(FILES, &["validate", SPACED, IN, DISK], CAPTURE_FAULT),
    Keeping(FILES, &["protect", DISK, IN, IN], CAPTURE_FAULT),
    Claimed(OTHER, &["protect", DISK, IN, OTHER], CAPTURE_FAULT),
    // INPUT is the disk, or the output of another run.
    Keeping(FILES, &["protect", DISK, DISK, OUT], CAPTURE_FAULT),
    Keeping(FILES, &["validate", DISK, SYMBOLIC, OUT], CAPTURE_FAULT),
    Claimed(IN, &["protect", DISK, IN, OUT], CAPTURE_FAULT),
    IsMissing(OUT),
    // An input may have other readers, and an output none.
    Shared(IN, &["validate", DISK, IN, OUT], NONE_DELIVERED),
    Shared(OUT, &["validate", DISK, IN, OUT], CAPTURE_FAULT),
    // The command file is the disk.
    Keeping(FILES, &["apply", DISK, DISK], COMMANDS_FAULT),
    // A disk is formatted that has an endpoint, or that another run has.
    Keeping(
        FILES,
        &["format", FILE, "12153524c0895e81", "4", "4"],
        Outcome::Disk("macsecd: disk length\n"),
    ),
    Claimed(
        DISK,
        &["format", DISK, "12153524c0895e81", "4", "4", "--over"],
        NO_FILE,
    ),
    Claimed(DISK, &["show", DISK], NO_FILE),
    Run(&["show", DISK], SHOWN),
    // What is no regular file is taken as it is, for OUTPUT alone.
    Run(
        &["format", "/dev/null", "12153524c0895e81", "4", "4"],
        NO_FILE,
    ),
    Hex(OUT, "00"),
    Run(&["validate", DISK, "/dev/null", OUT], CAPTURE_FAULT),
    Holds(OUT, ""),
    Run(
        &["protect", DISK, IN, "/dev/null"],
        Outcome::Done("protected 3 dropped 0\n"),
    ),
    // A disk file with a second name is refused: that one would keep packet numbers of before.
    Link(DISK, SECOND),
    Keeping(FILES, &["protect", DISK, IN, SECOND], NO_FILE),
    Keeping(FILES, &["show", SECOND], NO_FILE),
];

#[test]
fn a_slip_writes_over_nothing(rt: HostRuntime) {
    play(&rt, rt.alloc(), "story-slips", SLIPS);
}

const WRITTEN: &str = "story-marks/out";

const PROTECT: &[&str] = &["protect", "story-marks/disk", "story-marks/in", WRITTEN];

/// What an endpoint begins with, and one that is in use: in each area of both layouts.
const HEAD: &str = "4d53454348454144";

const OPEN: &str = "4d5345434f50454e";

const MARKS: &[Step] = &[
    Run(
        &["format", "story-marks/disk", "12153524c0895e81", "4", "4"],
        FORMATTED,
    ),
    Hex("story-marks/in", PLAIN),
    Filled(WRITTEN, 1, 512),
    Patch(WRITTEN, 0, HEAD),
    Keeping(&[WRITTEN], PROTECT, CAPTURE_FAULT),
    Filled(WRITTEN, 1, 1_024),
    Patch(WRITTEN, 512, OPEN),
    Keeping(&[WRITTEN], PROTECT, CAPTURE_FAULT),
    Zeros(WRITTEN, 263_680),
    Patch(WRITTEN, 263_168, HEAD),
    Keeping(&[WRITTEN], PROTECT, CAPTURE_FAULT),
    Zeros(WRITTEN, 264_192),
    Patch(WRITTEN, 263_680, OPEN),
    Keeping(&[WRITTEN], PROTECT, CAPTURE_FAULT),
    Zeros(WRITTEN, 4_608),
    Patch(WRITTEN, 4_096, OPEN),
    Keeping(&[WRITTEN], PROTECT, CAPTURE_FAULT),
    Zeros(WRITTEN, 2_105_856),
    Patch(WRITTEN, 2_105_344, HEAD),
    Keeping(&[WRITTEN], PROTECT, CAPTURE_FAULT),
    Zeros(WRITTEN, 2_109_952),
    Patch(WRITTEN, 2_109_440, OPEN),
    Keeping(&[WRITTEN], PROTECT, CAPTURE_FAULT),
    // Elsewhere they are octets as others are.
    Filled(WRITTEN, 1, 10_000),
    Patch(WRITTEN, 1_024, HEAD),
    Patch(WRITTEN, 8_192, OPEN),
    Run(PROTECT, Outcome::Done("protected 0 dropped 3\n")),
    Folder("story-marks/folder"),
    Run(
        &[
            "protect",
            "story-marks/disk",
            "story-marks/in",
            "story-marks/folder",
        ],
        CAPTURE_FAULT,
    ),
];

#[test]
fn an_endpoint_is_no_output(rt: HostRuntime) {
    play(&rt, rt.alloc(), "story-marks", MARKS);
}
