//! A disk file of which a read, a write or a sync fails.

use super::captures::{PLAIN, SENDER};
use super::stand_in::Broken;
use super::stand_in::Broken::{Read, Sync, Write};
use super::stories::Step::{Failing, Hex, Run, Text};
use super::stories::{Step, play};
use crate::Outcome;
use std::io::ErrorKind;

const DISK_FAULT: Outcome = Outcome::Disk("macsecd: disk\n");

const NO_FILE: Outcome = Outcome::Disk("macsecd: disk file\n");

/// The first read fails.
const NOT_READ: Broken = Read(1, ErrorKind::Other);

const DISK: &str = "story-failing/disk";

const FILE: &str = "story-failing/file.toml";

const IN: &str = "story-failing/in";

const OUT: &str = "story-failing/out";

const FORMAT: &[&str] = &["format", DISK, "12153524c0895e81", "4", "4"];

const APPLY: &[&str] = &["apply", DISK, FILE];

const SHOW: &[&str] = &["show", DISK];

const PROTECT: &[&str] = &["protect", DISK, IN, OUT];

const RELAY: &[&str] = &[
    "relay",
    DISK,
    "127.0.0.1:0",
    "127.0.0.1:9",
    "127.0.0.1:0",
    "127.0.0.1:9",
    "--turns",
    "5",
];

/// What is shown once both commands were applied. A `show` neither writes nor reserves.
const SHOWN: Outcome = Outcome::Done(
    "sci 12153524c0895e81
blocks tx 4 rx 4
validate strict
replay on window 0
sci-mode explicit
encoding 0
tx 0 confidential offset 0 next 5
spent tx 1 rx 0
",
);

/// A format writes its zeros into a new file, 129 times, and syncs it before it writes the journal.
/// An opening copies the file, in 33 parts of 16,384 octets, and syncs the copy; each command
/// writes twice and syncs after each write.
const DISKS: &[Step] = &[
    Failing(DISK, NOT_READ, FORMAT, DISK_FAULT),
    Failing(DISK, NOT_READ, FORMAT, DISK_FAULT),
    Failing(DISK, Write(1), FORMAT, NO_FILE),
    Failing(DISK, Write(129), FORMAT, NO_FILE),
    Failing(DISK, Write(130), FORMAT, DISK_FAULT),
    Failing(DISK, Sync(1), FORMAT, NO_FILE),
    Failing(DISK, Sync(2), FORMAT, DISK_FAULT),
    Run(FORMAT, Outcome::Done("formatted\n")),
    Failing(DISK, NOT_READ, SHOW, DISK_FAULT),
    Failing(DISK, Write(1), SHOW, NO_FILE),
    Failing(DISK, Write(33), SHOW, NO_FILE),
    Failing(DISK, Sync(1), SHOW, DISK_FAULT),
    Text(FILE, SENDER),
    Failing(DISK, NOT_READ, APPLY, DISK_FAULT),
    Failing(DISK, Sync(1), APPLY, DISK_FAULT),
    Failing(DISK, Write(34), APPLY, DISK_FAULT),
    Failing(DISK, Sync(2), APPLY, DISK_FAULT),
    Failing(
        DISK,
        Write(36),
        APPLY,
        Outcome::DiskBehind("1 ok\n", "macsecd: disk\n"),
    ),
    Run(APPLY, Outcome::Refused("1 refused SlotTaken\n2 ok\n")),
    Failing(DISK, Write(34), SHOW, SHOWN),
    Failing(DISK, NOT_READ, RELAY, DISK_FAULT),
    // A frame waits for packet numbers, which cannot be reserved.
    Hex(IN, PLAIN),
    Failing(DISK, NOT_READ, PROTECT, DISK_FAULT),
    Failing(DISK, Write(34), PROTECT, DISK_FAULT),
    Failing(DISK, Sync(2), PROTECT, DISK_FAULT),
];

#[test]
fn a_disk_that_fails_is_disk(rt: HostRuntime) {
    play(&rt, rt.alloc(), "story-failing", DISKS);
}
