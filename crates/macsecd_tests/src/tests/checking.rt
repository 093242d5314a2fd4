//! Whether the commands of a file can be read.

use super::captures::SENDER;
use super::stand_in::Broken::{Opening, Read};
use super::stories::Step::{Closing, Failing, Filled, Hex, Keeping, Mode, Run, Text};
use super::stories::{Step, play};
use crate::Outcome;
use std::io::ErrorKind;

const CHECKED: &[Step] = &[
    Text("story-check/two", SENDER),
    Keeping(
        &["story-check/two"],
        &["check", "story-check/two"],
        Outcome::Done("2 commands\n"),
    ),
    Text("story-check/one", "[[command]]\ndo = 'tx-use'\nan = 0\n"),
    Run(&["check", "story-check/one"], Outcome::Done("1 command\n")),
    Text("story-check/none", ""),
    Run(
        &["check", "story-check/none"],
        Outcome::Done("0 commands\n"),
    ),
    Filled("story-check/long", b' ', 1_048_576),
    Run(
        &["check", "story-check/long"],
        Outcome::Done("0 commands\n"),
    ),
    Filled("story-check/long", b' ', 1_048_577),
    Run(
        &["check", "story-check/long"],
        Outcome::Fault("macsecd: command file: more than 1048576 octets\n"),
    ),
    Hex("story-check/octets", "ff"),
    Run(
        &["check", "story-check/octets"],
        Outcome::Fault("macsecd: command file: not UTF-8\n"),
    ),
    Run(
        &["check", "story-check/missing"],
        Outcome::Fault("macsecd: commands: story-check/missing: no such file\n"),
    ),
    Run(
        &["check", "story-check"],
        Outcome::Fault("macsecd: commands: story-check: a folder\n"),
    ),
    Failing(
        "story-check/two",
        Opening(ErrorKind::PermissionDenied),
        &["check", "story-check/two"],
        Outcome::Fault("macsecd: commands: story-check/two: no permission\n"),
    ),
    Failing(
        "story-check/two",
        Read(1, ErrorKind::Other),
        &["check", "story-check/two"],
        Outcome::Fault("macsecd: commands: story-check/two: cannot be read\n"),
    ),
    Failing(
        "story-check/two",
        Read(1, ErrorKind::OutOfMemory),
        &["check", "story-check/two"],
        Outcome::Fault("macsecd: memory\n"),
    ),
    Closing(0, 0, &["check", "story-check/two"]),
];

#[test]
fn commands_are_counted(rt: HostRuntime) {
    play(&rt, rt.alloc(), "story-check", CHECKED);
}

const OWN: &str = "story-ends/own.toml";

const OTHER: &str = "story-ends/other.toml";

const WRONG: &str = "story-ends/wrong.toml";

const DISK: &str = "story-ends/disk";

const OWN_TEXT: &str = "sci = '12153524C0895e81'
[[command]]
do = 'tx-use'
an = 0
";

const OTHER_TEXT: &str = "sci = '12153524c0895e82'
[[command]]
do = 'rx-add'
sci = '12153524c0895e83'
";

const WRONG_TEXT: &str = "sci = '12153524c0895e8'
[[command]]
do = 'rx-add'
sci = '12153524c0895e83'
";

/// Files that name an end are for that end alone.
const ENDS: &[Step] = &[
    Run(
        &["format", DISK, "12153524c0895e81", "4", "4"],
        Outcome::Done("formatted\n"),
    ),
    Text(OWN, OWN_TEXT),
    Text(OTHER, OTHER_TEXT),
    Text(WRONG, WRONG_TEXT),
    Run(&["check", OWN], Outcome::Done("1 command\n")),
    Run(&["check", OTHER], Outcome::Done("1 command\n")),
    Run(
        &["check", OWN, DISK],
        Outcome::Refused("1 would be refused SlotEmpty\n"),
    ),
    Keeping(
        &[DISK],
        &["check", OTHER, DISK],
        Outcome::Fault("macsecd: command file sci: not that of DISK\n"),
    ),
    Run(
        &["apply", DISK, OWN],
        Outcome::Refused("1 refused SlotEmpty\n"),
    ),
    Run(
        &["apply", DISK, OTHER],
        Outcome::Fault("macsecd: commands\n"),
    ),
    Run(
        &["apply", DISK, WRONG],
        Outcome::Fault("macsecd: commands\n"),
    ),
    Run(
        &["show", DISK],
        Outcome::Done(
            "sci 12153524c0895e81
blocks tx 4 rx 4
validate strict
replay on window 0
sci-mode explicit
encoding none
spent tx 0 rx 0
",
        ),
    ),
];

#[test]
fn a_file_is_for_its_end(rt: HostRuntime) {
    play(&rt, rt.alloc(), "story-ends", ENDS);
}

const SEEN: &str = "story-modes/seen.toml";

const SEEN_DISK: &str = "story-modes/disk";

/// The mode of a file that others can read comes last.
const MODES: &[Step] = &[
    Text(SEEN, "[[command]]\ndo = 'tx-use'\nan = 0\n"),
    Mode(SEEN, 0o600),
    Run(&["check", SEEN], Outcome::Done("1 command\n")),
    Mode(SEEN, 0o640),
    Run(&["check", SEEN], Outcome::Done("1 command\n")),
    Mode(SEEN, 0o644),
    Run(&["check", SEEN], Outcome::Done("1 command\nmode 644\n")),
    Mode(SEEN, 0o1604),
    Run(&["check", SEEN], Outcome::Done("1 command\nmode 1604\n")),
    // Of what is no regular file no mode is printed.
    Run(&["check", "/dev/null"], Outcome::Done("0 commands\n")),
    Run(
        &["format", SEEN_DISK, "12153524c0895e81", "4", "4"],
        Outcome::Done("formatted\n"),
    ),
    Run(
        &["check", SEEN, SEEN_DISK],
        Outcome::Refused("1 would be refused SlotEmpty\nmode 1604\n"),
    ),
    Closing(1, 1, &["check", SEEN]),
    Text(SEEN, "[[command]]\n"),
    Run(
        &["check", SEEN],
        Outcome::Fault("macsecd: command 1 do: not a command\n"),
    ),
];

#[test]
fn a_mode_is_printed(rt: HostRuntime) {
    play(&rt, rt.alloc(), "story-modes", MODES);
}
