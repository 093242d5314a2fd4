//! Files of the system that an opening makes anew: what has a second name, what lies beside, links
//! to them, and who may read them.

use super::{done, expect, is_missing, seen};
use macs_disk::{DeviceFault, FileDisk, FileFault, SectorDisk};
use std::fs::{File, Permissions};
use std::os::unix::fs::{MetadataExt, PermissionsExt};
use std::process::Abort;
use std::rt::Files;
use std::{fs, io};

/// A step of a story of files, which are named by their paths.
#[derive(Clone, Copy)]
enum Step {
    /// Makes a file anew, of one sector that is full of an octet.
    Make(&'static str, u8),
    /// Makes a file of 700 octets.
    MakeLonger(&'static str),
    MakeFolder(&'static str),
    /// Gives a file a second name.
    Link(&'static str, &'static str),
    /// Makes a link to a file.
    LinkTo(&'static str, &'static str),
    SetMode(&'static str, u32),
    Remove(&'static str),
    RemoveFolder(&'static str),
    /// Opens the disk: the octet that its one sector is full of, or why there is none.
    Open(&'static str, Result<u8, FileFault>),
    /// Makes a disk of two sectors, which is refused.
    Refuse(&'static str),
    /// Keeps in mind which file has a name.
    Note(&'static str),
    /// Whether that file has this name.
    IsNoted(&'static str, bool),
    /// One sector that is full of an octet is all that the file has.
    Has(&'static str, u8),
    HasMode(&'static str, u32),
    IsLink(&'static str),
    IsMissing(&'static str),
}

use Step::{
    Has, HasMode, IsLink, IsMissing, IsNoted, Link, LinkTo, Make, MakeFolder, MakeLonger, Note,
    Open, Refuse, Remove, RemoveFolder, SetMode,
};

fn make(rt: &impl Files<File = File>, path: &str, octet: u8) -> io::Result<()> {
    remove(rt, path);
    fs::write(rt, path, &[octet; 512])
}

fn make_folder(rt: &impl Files<File = File>, path: &str) -> io::Result<()> {
    let _ = fs::remove_dir(rt, path);
    fs::create_dir(rt, path)
}

/// Removes a file, if there is one.
fn remove(rt: &impl Files<File = File>, path: &str) {
    let _ = fs::remove_file(rt, path);
}

fn link(rt: &impl Files<File = File>, path: &str, name: &str) -> io::Result<()> {
    remove(rt, name);
    fs::hard_link(rt, path, name)
}

fn link_to(rt: &impl Files<File = File>, path: &str, name: &str) -> io::Result<()> {
    remove(rt, name);
    rt.symlink(path, name)
}

/// Which file of the system has a name.
fn inode(rt: &impl Files<File = File>, path: &str) -> io::Result<u64> {
    let about = fs::metadata(rt, path)?;
    Ok(about.ino())
}

fn note(rt: &impl Files<File = File>, path: &str, noted: &mut u64) -> io::Result<()> {
    *noted = inode(rt, path)?;
    Ok(())
}

/// The octet that the one sector of a disk is full of.
fn only_octet<D: SectorDisk>(rt: &impl Abort, disk: &mut D) -> Result<u8, DeviceFault> {
    assert!(rt; disk.sectors() == 1);
    seen(rt, disk, 0)
}

/// The same of the disk at a path, or why there is no disk.
fn octet<R: Abort + Files<File = File> + AllocGlobal>(rt: &R, path: &str) -> Result<u8, FileFault> {
    let mut disk = FileDisk::open(rt, rt.alloc(), path)?;
    Ok(only_octet(rt, &mut disk)?)
}

fn refusal<R: Files<File = File> + AllocGlobal>(rt: &R, path: &str) -> Option<FileFault> {
    FileDisk::create(rt, rt.alloc(), path, 2).err()
}

/// Whether a file is one sector that is full of an octet.
fn has(rt: &(impl Files<File = File> + AllocGlobal), path: &str, octet: u8) -> io::Result<bool> {
    let found = fs::read(rt, path)?;
    Ok(found.as_slice() == [octet; 512].as_slice())
}

fn set_mode(rt: &impl Files<File = File>, path: &str, mode: u32) -> io::Result<()> {
    rt.set_permissions(path, Permissions::from_mode(mode))
}

fn has_mode(rt: &impl Files<File = File>, path: &str, mode: u32) -> io::Result<bool> {
    let about = fs::metadata(rt, path)?;
    Ok(about.mode() & 0o7777 == mode)
}

fn is_link(rt: &impl Files<File = File>, path: &str) -> io::Result<bool> {
    let about = fs::symlink_metadata(rt, path)?;
    Ok(about.is_symlink())
}

fn is_noted(
    rt: &impl Files<File = File>,
    path: &str,
    noted: u64,
    wanted: bool,
) -> io::Result<bool> {
    Ok((inode(rt, path)? == noted) == wanted)
}

/// Takes one step.
fn take<R: Abort + Files<File = File> + AllocGlobal>(rt: &R, noted: &mut u64, step: Step) {
    match step {
        Make(path, octet) => done(rt, make(rt, path, octet)),
        MakeLonger(path) => done(rt, fs::write(rt, path, &[9; 700])),
        MakeFolder(path) => done(rt, make_folder(rt, path)),
        Link(path, name) => done(rt, link(rt, path, name)),
        LinkTo(path, name) => done(rt, link_to(rt, path, name)),
        SetMode(path, mode) => done(rt, set_mode(rt, path, mode)),
        Remove(path) => done(rt, fs::remove_file(rt, path)),
        RemoveFolder(path) => done(rt, fs::remove_dir(rt, path)),
        Open(path, wanted) => expect(rt, Ok(octet(rt, path) == wanted)),
        Refuse(path) => expect(rt, Ok(refusal(rt, path) == Some(FileFault::Open))),
        Note(path) => done(rt, note(rt, path, noted)),
        IsNoted(path, wanted) => expect(rt, is_noted(rt, path, *noted, wanted)),
        Has(path, octet) => expect(rt, has(rt, path, octet)),
        HasMode(path, mode) => expect(rt, has_mode(rt, path, mode)),
        IsLink(path) => expect(rt, is_link(rt, path)),
        IsMissing(path) => expect(rt, is_missing(rt, path)),
    }
}

/// Takes steps, one after the other.
fn play<R: Abort + Files<File = File> + AllocGlobal>(rt: &R, story: &[Step]) {
    let mut noted = 0;
    for step in story {
        take(rt, &mut noted, *step);
    }
}

const TWO_NAMES: &[Step] = &[
    Make("two-names", 7),
    Link("two-names", "two-names-other"),
    Note("two-names"),
    Open("two-names", Err(FileFault::Open)),
    Open("two-names-other", Err(FileFault::Open)),
    Refuse("two-names"),
    IsNoted("two-names", true),
    IsNoted("two-names-other", true),
    Has("two-names", 7),
    IsMissing("two-names.new"),
    Remove("two-names-other"),
    Open("two-names", Ok(7)),
    IsNoted("two-names", false),
    Remove("two-names"),
];

#[test]
fn a_file_of_two_names_is_refused(rt: HostRuntime) {
    play(&rt, TWO_NAMES);
}

const LEFT_OVER: &[Step] = &[
    Make("left-over", 7),
    MakeLonger("left-over.new"),
    Open("left-over", Ok(7)),
    Has("left-over", 7),
    IsMissing("left-over.new"),
    Remove("left-over"),
];

#[test]
fn what_is_left_beside_is_removed(rt: HostRuntime) {
    play(&rt, LEFT_OVER);
}

const LINKED_OVER: &[Step] = &[
    Make("linked-over", 7),
    Make("linked-over-other", 9),
    LinkTo("linked-over-other", "linked-over.new"),
    Open("linked-over", Ok(7)),
    Has("linked-over-other", 9),
    IsMissing("linked-over.new"),
    Remove("linked-over"),
    Remove("linked-over-other"),
];

/// The link is removed, and what it leads to stays.
#[test]
fn a_link_beside_is_not_followed(rt: HostRuntime) {
    play(&rt, LINKED_OVER);
}

const FOLDER_BESIDE: &[Step] = &[
    Make("folder-beside", 7),
    MakeFolder("folder-beside.new"),
    Open("folder-beside", Err(FileFault::Open)),
    Has("folder-beside", 7),
    RemoveFolder("folder-beside.new"),
    Remove("folder-beside"),
];

/// A folder in the place of the new file is not removed.
#[test]
fn a_folder_beside_is_refused(rt: HostRuntime) {
    play(&rt, FOLDER_BESIDE);
}

const LINKED_TO: &[Step] = &[
    Make("link-end", 7),
    LinkTo("link-end", "link-to-it"),
    Note("link-end"),
    Open("link-to-it", Ok(7)),
    IsLink("link-to-it"),
    IsNoted("link-end", false),
    Note("link-end"),
    IsNoted("link-to-it", true),
    IsMissing("link-to-it.new"),
    IsMissing("link-end.new"),
    Remove("link-to-it"),
    Remove("link-end"),
];

#[test]
fn a_link_to_a_file_stays_one(rt: HostRuntime) {
    play(&rt, LINKED_TO);
}

const MODES: &[Step] = &[
    Make("mode-of-it", 7),
    SetMode("mode-of-it", 0o600),
    Open("mode-of-it", Ok(7)),
    HasMode("mode-of-it", 0o600),
    Make("mode-of-it", 7),
    SetMode("mode-of-it", 0o640),
    Open("mode-of-it", Ok(7)),
    HasMode("mode-of-it", 0o640),
    Make("mode-of-it", 7),
    SetMode("mode-of-it", 0o666),
    Open("mode-of-it", Ok(7)),
    HasMode("mode-of-it", 0o666),
    Remove("mode-of-it"),
];

#[test]
fn who_may_use_a_file_still_may(rt: HostRuntime) {
    play(&rt, MODES);
}
