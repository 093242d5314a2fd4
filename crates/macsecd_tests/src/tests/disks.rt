//! Disk files and values that do not serve, and an output that fails.

use super::stories::Step::{Closing, Filled, Folder, HasOctets, IsMissing, Patch, Run};
use super::stories::{Step, play};
use crate::Outcome;

const FORMATTED: Outcome = Outcome::Done("formatted\n");

const NO_FILE: Outcome = Outcome::Disk("macsecd: disk file\n");

/// A disk that another subcommand than `format` opens.
const SHOW: &[&str] = &["show", "story-disks/disk"];

const FORMAT: &[&str] = &["format", "story-disks/disk", "12153524c0895e81", "1", "1"];

const DISKS: &[Step] = &[
    Run(SHOW, NO_FILE),
    Run(&["apply", "story-disks/disk", "story-disks/no"], NO_FILE),
    Run(
        &[
            "protect",
            "story-disks/disk",
            "story-disks/no",
            "story-disks/out",
        ],
        NO_FILE,
    ),
    Run(
        &[
            "validate",
            "story-disks/disk",
            "story-disks/no",
            "story-disks/out",
        ],
        NO_FILE,
    ),
    IsMissing("story-disks/disk"),
    IsMissing("story-disks/out"),
    Folder("story-disks/folder"),
    Run(&["show", "story-disks/folder"], NO_FILE),
    Run(
        &["format", "story-disks/folder", "12153524c0895e81", "1", "1"],
        NO_FILE,
    ),
    Filled("story-disks/disk", 0, 526_337),
    Run(SHOW, Outcome::Disk("macsecd: disk length\n")),
    Run(FORMAT, Outcome::Disk("macsecd: disk length\n")),
    HasOctets("story-disks/disk", 526_337),
    Filled("story-disks/disk", 0, 512),
    Run(SHOW, Outcome::Disk("macsecd: too small\n")),
    // A new file has 1,028 sectors, whether the old one was shorter or longer.
    Run(FORMAT, FORMATTED),
    HasOctets("story-disks/disk", 526_336),
    Filled("story-disks/disk", 0, 526_848),
    Run(SHOW, Outcome::Disk("macsecd: not formatted\n")),
    HasOctets("story-disks/disk", 526_848),
    Run(FORMAT, FORMATTED),
    HasOctets("story-disks/disk", 526_336),
    Patch("story-disks/disk", 0, "ff"),
    Run(SHOW, Outcome::Disk("macsecd: bad journal\n")),
];

#[test]
fn each_fault_of_a_disk_is_told(rt: HostRuntime) {
    play(&rt, rt.alloc(), "story-disks", DISKS);
}

const NO_BLOCK: Outcome = Outcome::Usage("macsecd: --block is not 512 or 4096\n");

/// Values that are refused before the disk is looked at: the SCI, the transmit block, the receive
/// block, the block of the device.
const VALUES: &[Step] = &[
    Run(
        &["format", "story-values/disk", "12153524c0895e8", "0", "0"],
        Outcome::Usage("macsecd: SCI is not 16 hex digits\n"),
    ),
    Run(
        &["format", "story-values/disk", "zz", "4", "4"],
        Outcome::Usage("macsecd: SCI is not 16 hex digits\n"),
    ),
    Run(
        &["format", "story-values/disk", "12153524c0895e81", "0", "0"],
        Outcome::Usage("macsecd: TX is not 1 to 65536\n"),
    ),
    Run(
        &[
            "format",
            "story-values/disk",
            "12153524c0895e81",
            "65537",
            "4",
        ],
        Outcome::Usage("macsecd: TX is not 1 to 65536\n"),
    ),
    Run(
        &["format", "story-values/disk", "12153524c0895e81", "4", "0"],
        Outcome::Usage("macsecd: RX is not 1 to 65536\n"),
    ),
    Run(
        &[
            "format",
            "story-values/disk",
            "12153524c0895e81",
            "4",
            "65537",
        ],
        Outcome::Usage("macsecd: RX is not 1 to 65536\n"),
    ),
    Run(
        &[
            "format",
            "story-values/disk",
            "zz",
            "4",
            "4",
            "--block",
            "1",
        ],
        Outcome::Usage("macsecd: SCI is not 16 hex digits\n"),
    ),
    Run(
        &[
            "format",
            "story-values/disk",
            "12153524c0895e81",
            "4",
            "0",
            "--block",
            "1",
        ],
        Outcome::Usage("macsecd: RX is not 1 to 65536\n"),
    ),
    Run(
        &[
            "format",
            "story-values/disk",
            "12153524c0895e81",
            "4",
            "4",
            "--block",
            "1024",
        ],
        NO_BLOCK,
    ),
    Run(
        &[
            "format",
            "--block=0512",
            "story-values/disk",
            "12153524c0895e81",
            "4",
            "4",
        ],
        NO_BLOCK,
    ),
    Run(
        &[
            "format",
            "--block=",
            "story-values/disk",
            "12153524c0895e81",
            "4",
            "4",
            "--over",
        ],
        NO_BLOCK,
    ),
    IsMissing("story-values/disk"),
];

#[test]
fn each_wrong_value_is_usage(rt: HostRuntime) {
    play(&rt, rt.alloc(), "story-values", VALUES);
}

/// Standard output takes nothing, or is not flushed.
const CLOSED: &[Step] = &[
    Closing(
        0,
        0,
        &["format", "story-closed/disk", "12153524c0895e81", "4", "4"],
    ),
    Closing(0, 0, &["show", "story-closed/disk"]),
    Closing(9, 0, &["show", "story-closed/disk"]),
];

#[test]
fn an_output_that_fails_is_output(rt: HostRuntime) {
    play(&rt, rt.alloc(), "story-closed", CLOSED);
}
