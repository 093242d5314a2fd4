//! A command file and captures of which a read, a write or a flush fails, an output that cannot be
//! read, and files that standard output goes to.

use super::captures::{CAPTURE_FAULT, PLAIN, SENDER};
use super::stand_in::Broken;
use super::stand_in::Broken::{Flush, Printed, Read, Special, Unreadable, Write};
use super::stories::Step::{Failing, Filled, HasOctets, Hex, Holds, Run, Text};
use super::stories::{Step, play};
use crate::Outcome;
use std::io::ErrorKind;

const COMMANDS_FAULT: Outcome = Outcome::Fault("macsecd: commands\n");

const MEMORY: Outcome = Outcome::Fault("macsecd: memory\n");

/// The first read fails.
const NOT_READ: Broken = Read(1, ErrorKind::Other);

/// The second read fails, in mid-stream.
const CUT_SHORT: Broken = Read(2, ErrorKind::Other);

/// The second read is interrupted: one of a command file is made again, and one of a capture fails.
const INTERRUPTED: Broken = Read(2, ErrorKind::Interrupted);

/// There is no memory for the second read.
const NO_MEMORY: Broken = Read(2, ErrorKind::OutOfMemory);

const DISK: &str = "story-streams/disk";

const FILE: &str = "story-streams/file.toml";

const IN: &str = "story-streams/in";

const OUT: &str = "story-streams/out";

const FORMAT: &[&str] = &["format", DISK, "12153524c0895e81", "4", "4"];

const APPLY: &[&str] = &["apply", DISK, FILE];

const PROTECT: &[&str] = &["protect", DISK, IN, OUT];

const PROTECTED: Outcome = Outcome::Done("protected 3 dropped 0\n");

const NO_FILE: Outcome = Outcome::Disk("macsecd: disk file\n");

/// A file that is not formatted.
const NEW: &str = "story-streams/in";

const FORMAT_NEW: &[&str] = &["format", NEW, "12153524c0895e81", "4", "4", "--over"];

/// The header, and the first frame as it goes out under packet number 5.
const FRONT: &str =
    "d4c3b2a1020004000000000000000000000004000100000000f15365000000003600000036000000d609b1f056637a0d46df998d88e52c0a0000000512153524c0895e8137f1a95160312fcf3e0ed2dce4357b7a4fdaf25f25642f5d36bb";

/// A read of 100 octets has the first record whole and the second one in part: the first frame goes
/// out.
const STREAMS: &[Step] = &[
    Run(FORMAT, Outcome::Done("formatted\n")),
    Text(FILE, SENDER),
    Failing(FILE, NOT_READ, APPLY, COMMANDS_FAULT),
    Failing(FILE, CUT_SHORT, APPLY, COMMANDS_FAULT),
    Failing(FILE, NO_MEMORY, APPLY, MEMORY),
    Failing(FILE, INTERRUPTED, APPLY, Outcome::Done("1 ok\n2 ok\n")),
    Hex(IN, PLAIN),
    Failing(IN, NOT_READ, PROTECT, CAPTURE_FAULT),
    Failing(IN, CUT_SHORT, PROTECT, CAPTURE_FAULT),
    Holds(OUT, FRONT),
    Failing(IN, INTERRUPTED, PROTECT, CAPTURE_FAULT),
    Failing(OUT, Write(1), PROTECT, CAPTURE_FAULT),
    Failing(OUT, Flush, PROTECT, CAPTURE_FAULT),
    // An output that cannot be read is cut where it has no sector, and else stays.
    Failing(OUT, Unreadable, PROTECT, PROTECTED),
    Filled(OUT, 1, 512),
    Failing(OUT, Unreadable, PROTECT, CAPTURE_FAULT),
    HasOctets(OUT, 512),
    // What is printed would be written over it.
    Failing(OUT, Printed, PROTECT, CAPTURE_FAULT),
    HasOctets(OUT, 512),
    Failing(DISK, Printed, PROTECT, NO_FILE),
    Failing(DISK, Printed, APPLY, NO_FILE),
    Failing(DISK, Printed, &["show", DISK], NO_FILE),
    Failing(NEW, Printed, FORMAT_NEW, NO_FILE),
    Run(PROTECT, PROTECTED),
    Failing(OUT, Special, PROTECT, PROTECTED),
];

#[test]
fn a_file_that_fails_is_told(rt: HostRuntime) {
    play(&rt, rt.alloc(), "story-streams", STREAMS);
}
