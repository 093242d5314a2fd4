//! Which files `format` takes, and what it does to the folder.

use super::stand_in::Broken::{Folder as FolderSync, Opening, Write};
use super::stories::Step::{
    Failing, Filled, Folder, HasOctets, Hex, Keeping, Patch, Run, Symbolic, Zeros,
};
use super::stories::{Step, play};
use crate::Outcome;
use std::io::ErrorKind;

const FORMATTED: Outcome = Outcome::Done("formatted\n");

const NO_FILE: Outcome = Outcome::Disk("macsecd: disk file\n");

const TAKEN: Outcome = Outcome::Disk("macsecd: already formatted\n");

const DEVICE: Outcome = Outcome::Disk("macsecd: disk\n");

const FILE: &str = "story-blank/file";

const FORMAT: &[&str] = &["format", FILE, "12153524c0895e81", "4", "4"];

const OVER: &[&str] = &["format", FILE, "12153524c0895e81", "4", "4", "--over"];

const SPACED: &[&str] = &[
    "format",
    FILE,
    "12153524c0895e81",
    "4",
    "4",
    "--block",
    "4096",
];

/// The octets `MSECOPEN`, `MSEC4096`.
const OPEN: &str = "4d5345434f50454e";

const MARK: &str = "4d53454334303936";

/// A file that is empty or has zeros alone is taken, and one with any other octet only with
/// `--over`.
const OTHERS: &[Step] = &[
    Filled(FILE, 0x5a, 512),
    Keeping(&[FILE], FORMAT, NO_FILE),
    Keeping(&[FILE], SPACED, NO_FILE),
    Run(OVER, FORMATTED),
    HasOctets(FILE, 526_336),
    Keeping(&[FILE], OVER, TAKEN),
    Keeping(&[FILE], FORMAT, TAKEN),
    Hex(FILE, ""),
    Run(FORMAT, FORMATTED),
    // The last octet, and those next to what a cut format leaves.
    Zeros(FILE, 1_049_088),
    Patch(FILE, 1_049_087, "01"),
    Keeping(&[FILE], FORMAT, NO_FILE),
    Zeros(FILE, 526_336),
    Patch(FILE, 0, "4d53454348454144"),
    Keeping(&[FILE], FORMAT, NO_FILE),
    Zeros(FILE, 526_336),
    Patch(FILE, 520, "01"),
    Keeping(&[FILE], FORMAT, NO_FILE),
    Zeros(FILE, 526_336),
    Patch(FILE, 1_536, "4d524543"),
    Keeping(&[FILE], FORMAT, NO_FILE),
    // An open gate in the second area, in each layout.
    Filled(FILE, 0x5a, 264_192),
    Patch(FILE, 263_680, OPEN),
    Keeping(&[FILE], FORMAT, TAKEN),
    Keeping(&[FILE], OVER, TAKEN),
    Zeros(FILE, 2_109_952),
    Patch(FILE, 0, "5a"),
    Patch(FILE, 2_109_440, OPEN),
    Keeping(&[FILE], OVER, TAKEN),
    Filled(FILE, 0x5a, 4_608),
    Patch(FILE, 4_096, OPEN),
    Keeping(&[FILE], OVER, TAKEN),
    // The mark of a spaced file, whole and in part, and with an octet more.
    Zeros(FILE, 4_214_784),
    Patch(FILE, 4_210_688, MARK),
    Patch(FILE, 4_210_690, "0000"),
    Run(FORMAT, FORMATTED),
    Zeros(FILE, 4_214_784),
    Patch(FILE, 4_210_688, MARK),
    Patch(FILE, 4_210_696, "01"),
    Keeping(&[FILE], FORMAT, NO_FILE),
];

#[test]
fn a_file_that_is_not_blank_stays(rt: HostRuntime) {
    play(&rt, rt.alloc(), "story-blank", OTHERS);
}

const CUT_FILE: &str = "story-cut/file";

const FORMAT_CUT: &[&str] = &["format", CUT_FILE, "12153524c0895e81", "4", "4"];

const SPACED_CUT: &[&str] = &[
    "format",
    CUT_FILE,
    "12153524c0895e81",
    "4",
    "4",
    "--block=4096",
];

/// A format that is cut short at a write may be called again, in the same layout or the other one.
/// The journal's first writes are those of the head, the first record and the gate.
const CUT: &[Step] = &[
    Failing(CUT_FILE, Write(1), FORMAT_CUT, NO_FILE),
    Failing(CUT_FILE, Write(60), FORMAT_CUT, NO_FILE),
    Failing(CUT_FILE, Write(130), FORMAT_CUT, DEVICE),
    Failing(CUT_FILE, Write(131), FORMAT_CUT, DEVICE),
    Failing(CUT_FILE, Write(132), FORMAT_CUT, DEVICE),
    Failing(CUT_FILE, Write(1), SPACED_CUT, NO_FILE),
    Failing(CUT_FILE, Write(500), SPACED_CUT, NO_FILE),
    Failing(CUT_FILE, Write(1_031), SPACED_CUT, DEVICE),
    Failing(CUT_FILE, Write(1_032), SPACED_CUT, DEVICE),
    Failing(CUT_FILE, Write(1_033), SPACED_CUT, DEVICE),
    Run(FORMAT_CUT, FORMATTED),
    Keeping(&[CUT_FILE], SPACED_CUT, TAKEN),
];

#[test]
fn a_format_that_was_cut_short_is_repeated(rt: HostRuntime) {
    play(&rt, rt.alloc(), "story-cut", CUT);
}

const NEW_FILE: &str = "story-folder/file";

const FORMAT_NEW: &[&str] = &["format", NEW_FILE, "12153524c0895e81", "4", "4"];

/// A file in another folder than its name.
const FORMAT_LINKED: &[&str] = &["format", "story-folder/link", "12153524c0895e81", "4", "4"];

/// The folder that holds the file is synced, also through a symbolic link. Where it cannot be
/// opened the new file does not take the name; where it is not synced, it has the name, and may
/// lose it.
const FOLDERS: &[Step] = &[
    Failing(
        "story-folder",
        Opening(ErrorKind::PermissionDenied),
        FORMAT_NEW,
        NO_FILE,
    ),
    Failing(
        "story-folder",
        Opening(ErrorKind::OutOfMemory),
        FORMAT_NEW,
        Outcome::Fault("macsecd: memory\n"),
    ),
    HasOctets(NEW_FILE, 0),
    Failing("story-folder", FolderSync, FORMAT_NEW, NO_FILE),
    HasOctets(NEW_FILE, 526_336),
    Run(FORMAT_NEW, TAKEN),
    Folder("story-folder/folder"),
    Symbolic("folder/file", "story-folder/link"),
    Failing(
        "story-folder/folder",
        Opening(ErrorKind::PermissionDenied),
        FORMAT_LINKED,
        NO_FILE,
    ),
    HasOctets("story-folder/folder/file", 0),
    Run(FORMAT_LINKED, FORMATTED),
    HasOctets("story-folder/folder/file", 526_336),
];

#[test]
fn the_folder_is_synced(rt: HostRuntime) {
    play(&rt, rt.alloc(), "story-folder", FOLDERS);
}
