//! Files that the system does not open.

use super::captures::{CAPTURE_FAULT, PLAIN};
use super::stand_in::Broken;
use super::stand_in::Broken::Opening;
use super::stories::Step::{Failing, Hex, Holds, IsMissing, Run};
use super::stories::{Step, play};
use crate::Outcome;
use std::io::ErrorKind;

const MEMORY: Outcome = Outcome::Fault("macsecd: memory\n");

const NO_FILE: Outcome = Outcome::Disk("macsecd: disk file\n");

const COMMANDS_FAULT: Outcome = Outcome::Fault("macsecd: commands\n");

/// The system has no memory to open a file.
const NO_MEMORY: Broken = Opening(ErrorKind::OutOfMemory);

/// Nobody may open a file.
const NO_LEAVE: Broken = Opening(ErrorKind::PermissionDenied);

const DISK: &str = "story-shut/disk";

const FILE: &str = "story-shut/file.toml";

const IN: &str = "story-shut/in";

const OUT: &str = "story-shut/out";

const FORMAT: &[&str] = &["format", DISK, "12153524c0895e81", "4", "4"];

const APPLY: &[&str] = &["apply", DISK, FILE];

const SHOW: &[&str] = &["show", DISK];

const PROTECT: &[&str] = &["protect", DISK, IN, OUT];

const VALIDATE: &[&str] = &["validate", DISK, IN, OUT];

const RELAY: &[&str] = &[
    "relay",
    DISK,
    "127.0.0.1:0",
    "127.0.0.1:9",
    "127.0.0.1:0",
    "127.0.0.1:9",
    "--turns",
    "5",
];

const DISKS: &[Step] = &[
    Failing(DISK, NO_MEMORY, FORMAT, MEMORY),
    Failing(DISK, NO_LEAVE, FORMAT, NO_FILE),
    IsMissing(DISK),
    Run(FORMAT, Outcome::Done("formatted\n")),
    Failing(DISK, NO_MEMORY, SHOW, MEMORY),
    Failing(DISK, NO_LEAVE, SHOW, NO_FILE),
    // The disk file comes before the files that are not there.
    Failing(DISK, NO_MEMORY, APPLY, MEMORY),
    Failing(DISK, NO_LEAVE, APPLY, NO_FILE),
    Failing(DISK, NO_MEMORY, PROTECT, MEMORY),
    Failing(DISK, NO_LEAVE, PROTECT, NO_FILE),
    Failing(DISK, NO_MEMORY, VALIDATE, MEMORY),
    Failing(DISK, NO_LEAVE, VALIDATE, NO_FILE),
    Failing(DISK, NO_MEMORY, RELAY, MEMORY),
    Failing(DISK, NO_LEAVE, RELAY, NO_FILE),
    IsMissing(OUT),
    // A command file, INPUT, OUTPUT.
    Failing(FILE, NO_MEMORY, APPLY, MEMORY),
    Failing(FILE, NO_LEAVE, APPLY, COMMANDS_FAULT),
    Hex(IN, PLAIN),
    Hex(OUT, "00"),
    Failing(IN, NO_MEMORY, PROTECT, MEMORY),
    Failing(IN, NO_LEAVE, VALIDATE, CAPTURE_FAULT),
    Failing(OUT, NO_MEMORY, PROTECT, MEMORY),
    Failing(OUT, NO_LEAVE, VALIDATE, CAPTURE_FAULT),
    Holds(OUT, "00"),
];

#[test]
fn a_file_that_is_not_opened_says_why(rt: HostRuntime) {
    play(&rt, rt.alloc(), "story-shut", DISKS);
}
