//! The two ends of the example link, in the lines that a newcomer types.

use super::link_files::{LEFT, PLAIN, PROTECTED, RIGHT};
use super::stories::Step::{Hex, Holds, Run, Text};
use super::stories::{Step, play};
use crate::Outcome;

const LINK: &[Step] = &[
    Text("story-link/left.toml", LEFT),
    Text("story-link/right.toml", RIGHT),
    Hex("story-link/plain.pcap", PLAIN),
    Run(
        &[
            "format",
            "story-link/left.disk",
            "0200000000010001",
            "1024",
            "16",
        ],
        Outcome::Done("formatted\n"),
    ),
    Run(
        &[
            "format",
            "story-link/right.disk",
            "0200000000020001",
            "1024",
            "16",
        ],
        Outcome::Done("formatted\n"),
    ),
    Run(
        &["apply", "story-link/left.disk", "story-link/left.toml"],
        Outcome::Done("1 ok\n2 ok\n3 ok\n4 ok\n"),
    ),
    Run(
        &["apply", "story-link/right.disk", "story-link/right.toml"],
        Outcome::Done("1 ok\n2 ok\n3 ok\n4 ok\n"),
    ),
    Run(
        &[
            "protect",
            "story-link/left.disk",
            "story-link/plain.pcap",
            "story-link/protected.pcap",
        ],
        Outcome::Done("protected 3 dropped 0\n"),
    ),
    Holds("story-link/protected.pcap", PROTECTED),
    Run(
        &[
            "validate",
            "story-link/right.disk",
            "story-link/protected.pcap",
            "story-link/again.pcap",
        ],
        Outcome::Done("delivered 3 discarded 0\n"),
    ),
    Holds("story-link/again.pcap", PLAIN),
];

#[test]
fn a_link_carries_a_capture(rt: HostRuntime) {
    play(&rt, rt.alloc(), "story-link", LINK);
}

/// Nothing is in use on this disk, and a device that is full takes no octet.
const IDLE: &[Step] = &[
    Hex("story-idle/plain", PLAIN),
    Run(
        &["format", "story-idle/disk", "0200000000010001", "1", "1"],
        Outcome::Done("formatted\n"),
    ),
    Run(
        &[
            "protect",
            "story-idle/disk",
            "story-idle/plain",
            "story-idle/out",
        ],
        Outcome::Done("protected 0 dropped 3\n"),
    ),
    Run(
        &[
            "protect",
            "story-idle/disk",
            "story-idle/plain",
            "/dev/full",
        ],
        Outcome::Fault("macsecd: capture\n"),
    ),
];

#[test]
fn a_full_device_is_capture(rt: HostRuntime) {
    play(&rt, rt.alloc(), "story-idle", IDLE);
}
