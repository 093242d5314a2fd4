//! Relays: their words, what they find first, and what they print. No frame comes to these.

use super::stories::Step::{IsMissing, Keeping, Run, Text};
use super::stories::{Step, play};
use crate::Outcome::{Disk, Done, Fault, Usage};

const FORMAT: &[&str] = &["format", "story-relay/disk", "12153524c0895e81", "4", "4"];

/// The line of a relay to which no frame came.
const NOTHING: &str = "sent 0 delivered 0 dropped 0 faults 0\n";

const OWN1: &str = "macsecd: OWN1 is not an address and a port\n";

const PEER1: &str = "macsecd: PEER1 is not an address and a port\n";

const OWN2: &str = "macsecd: OWN2 is not an address and a port\n";

const PEER2: &str = "macsecd: PEER2 is not an address and a port\n";

/// A word that is no address, an address of any port, and one of a port that nobody listens at.
const BAD: &str = "localhost:4000";

const ANY: &str = "127.0.0.1:0";

const NOBODY: &str = "127.0.0.1:9";

/// An address that only one wire can be bound to.
const ONE: &str = "127.0.0.1:4000";

const NO: &str = "story-relay/no";

const DISK: &str = "story-relay/disk";

const CONTROL: &str = "story-relay/control";

/// A file of counters, and the new one that takes its place.
const COUNTERS: &str = "story-relay/counters";

const NEW_COUNTERS: &str = "story-relay/counters.new";

/// Another endpoint.
const OTHER: &str = "story-relay/other";

/// What its endpoint is: no command and no frame came to it.
const SHOWN: &str = "sci 12153524c0895e81
blocks tx 4 rx 4
validate strict
replay on window 0
sci-mode explicit
encoding none
spent tx 0 rx 0
";

const RELAYS: &[Step] = &[
    Run(FORMAT, Done("formatted\n")),
    Run(
        &["relay", DISK, ANY, NOBODY, ANY, NOBODY, "--turns", "5"],
        Done(NOTHING),
    ),
    Run(
        &["relay", DISK, "--turns=0", ANY, NOBODY, ANY, NOBODY],
        Done(NOTHING),
    ),
    Run(
        &[
            "relay", DISK, ANY, NOBODY, ANY, NOBODY, "--wait", "1", "--turns", "5",
        ],
        Done(NOTHING),
    ),
    Run(
        &["relay", DISK, ONE, NOBODY, ONE, NOBODY, "--wait", "5"],
        Fault("macsecd: wire\n"),
    ),
    Run(
        &["relay", "--turns", "1", DISK, ANY, NOBODY, ANY, NOBODY],
        Done(NOTHING),
    ),
    Run(
        &["relay", DISK, ONE, NOBODY, ONE, NOBODY, "--turns", "5"],
        Fault("macsecd: wire\n"),
    ),
    Run(
        &[
            "relay",
            DISK,
            "192.0.2.1:0",
            NOBODY,
            ANY,
            NOBODY,
            "--turns",
            "5",
        ],
        Fault("macsecd: wire\n"),
    ),
    Run(
        &["relay", NO, BAD, BAD, BAD, BAD, "--turns", "5"],
        Usage(OWN1),
    ),
    Run(
        &["relay", NO, ANY, BAD, BAD, BAD, "--turns", "5"],
        Usage(PEER1),
    ),
    Run(
        &["relay", NO, ANY, ANY, "127.0.0.1", BAD, "--turns", "5"],
        Usage(OWN2),
    ),
    Run(
        &[
            "relay",
            NO,
            ANY,
            ANY,
            ANY,
            "127.0.0.1:65536",
            "--turns",
            "5",
        ],
        Usage(PEER2),
    ),
    Run(
        &["relay", NO, ONE, ANY, ONE, "[::1]:9", "--turns", "5"],
        Disk("macsecd: disk file\n"),
    ),
    Run(
        &[
            "relay",
            DISK,
            ANY,
            NOBODY,
            ANY,
            NOBODY,
            "--turns",
            "5",
            "--control",
            CONTROL,
            "--buffer",
            "4096",
        ],
        Done(NOTHING),
    ),
    IsMissing(CONTROL),
    Run(
        &[
            "relay",
            DISK,
            ANY,
            NOBODY,
            ANY,
            NOBODY,
            "--turns",
            "5",
            "--control",
            DISK,
        ],
        Fault("macsecd: control\n"),
    ),
    Run(
        &["format", OTHER, "12153524c0895e81", "4", "4"],
        Done("formatted\n"),
    ),
    Keeping(
        &[DISK, OTHER],
        &[
            "relay",
            DISK,
            ANY,
            NOBODY,
            ANY,
            NOBODY,
            "--turns",
            "5",
            "--metrics",
            OTHER,
        ],
        Fault("macsecd: control\n"),
    ),
    Keeping(
        &[DISK, OTHER],
        &[
            "relay",
            DISK,
            ANY,
            NOBODY,
            ANY,
            NOBODY,
            "--turns",
            "5",
            "--metrics",
            DISK,
        ],
        Fault("macsecd: control\n"),
    ),
    Run(
        &[
            "relay",
            DISK,
            ANY,
            NOBODY,
            ANY,
            NOBODY,
            "--turns",
            "5",
            "--metrics",
            "story-relay",
        ],
        Fault("macsecd: control\n"),
    ),
    Run(
        &[
            "relay",
            DISK,
            ANY,
            NOBODY,
            ANY,
            NOBODY,
            "--turns",
            "5",
            "--metrics",
            COUNTERS,
        ],
        Done(NOTHING),
    ),
    Run(
        &[
            "relay",
            DISK,
            ANY,
            NOBODY,
            ANY,
            NOBODY,
            "--turns",
            "5",
            "--metrics",
            COUNTERS,
        ],
        Done(NOTHING),
    ),
    Text(COUNTERS, "# HELP mac"),
    Run(
        &[
            "relay",
            DISK,
            ANY,
            NOBODY,
            ANY,
            NOBODY,
            "--turns",
            "5",
            "--metrics",
            COUNTERS,
        ],
        Done(NOTHING),
    ),
    Text(COUNTERS, "# HELP macsec is on page 1\n"),
    Keeping(
        &[COUNTERS],
        &[
            "relay",
            DISK,
            ANY,
            NOBODY,
            ANY,
            NOBODY,
            "--turns",
            "5",
            "--metrics",
            COUNTERS,
        ],
        Fault("macsecd: control\n"),
    ),
    Text(COUNTERS, ""),
    Text(NEW_COUNTERS, "notes"),
    Keeping(
        &[COUNTERS, NEW_COUNTERS],
        &[
            "relay",
            DISK,
            ANY,
            NOBODY,
            ANY,
            NOBODY,
            "--turns",
            "5",
            "--metrics",
            COUNTERS,
        ],
        Fault("macsecd: control\n"),
    ),
    Run(
        &["ask", CONTROL, "show"],
        Fault("macsecd: control: story-relay/control: no such socket\n"),
    ),
    Run(
        &["ask", CONTROL, "about", "--json"],
        Fault("macsecd: control: story-relay/control: no such socket\n"),
    ),
    Run(
        &["ask", DISK, "stop"],
        Fault("macsecd: control: story-relay/disk: nobody listens\n"),
    ),
    Run(
        &["ask", NO, "apply", "story-relay/none.toml"],
        Fault("macsecd: control: story-relay/no: no such socket\n"),
    ),
    Run(&["show", DISK], Done(SHOWN)),
    IsMissing(NO),
];

#[test]
fn each_line_of_a_relay_is_told(rt: HostRuntime) {
    play(&rt, rt.alloc(), "story-relay", RELAYS);
}
