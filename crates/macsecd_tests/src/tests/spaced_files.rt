//! The two ends of the example link, each in a spaced file: what they do is what they do in a
//! packed one.

use super::link_files::{LEFT, PLAIN, PROTECTED, RIGHT};
use super::stories::Step::{HasOctets, Hex, Holds, Patch, Run, Text};
use super::stories::{Step, play};
use crate::Outcome;

const LEFT_DISK: &str = "story-spaced/left.disk";

const RIGHT_DISK: &str = "story-spaced/right.disk";

const ALL_OK: Outcome = Outcome::Done("1 ok\n2 ok\n3 ok\n4 ok\n");

/// The numbers after two runs of three frames: a block of 1,024 was skipped by each opening.
const SHOWN: Outcome = Outcome::Done(
    "sci 0200000000010001
blocks tx 1024 rx 16
validate strict
replay on window 0
sci-mode explicit
encoding 0
tx 0 confidential offset 0 next 2049
channel 0200000000020001
rx 0200000000020001 0 offset 0 next 1 lowest 1
spent tx 1 rx 1
",
);

const LINK: &[Step] = &[
    Text("story-spaced/left.toml", LEFT),
    Text("story-spaced/right.toml", RIGHT),
    Hex("story-spaced/plain.pcap", PLAIN),
    Run(
        &[
            "format",
            LEFT_DISK,
            "0200000000010001",
            "1024",
            "16",
            "--block",
            "4096",
        ],
        Outcome::Done("formatted\n"),
    ),
    Run(
        &[
            "format",
            "--block=4096",
            RIGHT_DISK,
            "0200000000020001",
            "1024",
            "16",
        ],
        Outcome::Done("formatted\n"),
    ),
    HasOctets(LEFT_DISK, 4_214_784),
    Run(&["apply", LEFT_DISK, "story-spaced/left.toml"], ALL_OK),
    Run(&["apply", RIGHT_DISK, "story-spaced/right.toml"], ALL_OK),
    Run(
        &[
            "protect",
            LEFT_DISK,
            "story-spaced/plain.pcap",
            "story-spaced/protected.pcap",
        ],
        Outcome::Done("protected 3 dropped 0\n"),
    ),
    Holds("story-spaced/protected.pcap", PROTECTED),
    Run(
        &[
            "validate",
            RIGHT_DISK,
            "story-spaced/protected.pcap",
            "story-spaced/again.pcap",
        ],
        Outcome::Done("delivered 3 discarded 0\n"),
    ),
    Holds("story-spaced/again.pcap", PLAIN),
    Run(&["show", LEFT_DISK], SHOWN),
    HasOctets(LEFT_DISK, 4_214_784),
    // What lies between the sectors is never read.
    Patch(LEFT_DISK, 512, "4d5345434f50454e"),
    Run(&["show", LEFT_DISK], SHOWN),
    // The default is the other layout.
    Run(
        &[
            "format",
            "story-spaced/packed.disk",
            "0200000000010001",
            "1024",
            "16",
            "--block=512",
        ],
        Outcome::Done("formatted\n"),
    ),
    HasOctets("story-spaced/packed.disk", 526_336),
];

#[test]
fn a_spaced_file_does_as_a_packed_one(rt: HostRuntime) {
    play(&rt, rt.alloc(), "story-spaced", LINK);
}
