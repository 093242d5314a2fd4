//! Steps on files: those that make or change one, and those that look at one.

use super::Step;
use std::alloc::Global;
use std::fs::{File, OpenOptions, Permissions};
use std::io::{Read, Seek, SeekFrom, Write};
use std::os::unix::fs::{MetadataExt, OpenOptionsExt, PermissionsExt};
use std::process::Abort;
use std::rt::Files;
use std::{fs, io};

/// Takes a step that makes or changes a file, or looks at one.
pub fn make(rt: &(impl Abort + Files<File = File>), alloc: Global, step: Step) -> io::Result<()> {
    match step {
        Step::Text(path, text) => write(rt, path, text.as_bytes()),
        Step::Mode(path, mode) => rt.set_permissions(path, Permissions::from_mode(mode)),
        Step::Hex(path, text) => write_hex(rt, alloc, path, text),
        Step::Filled(path, octet, count) => fill(rt, alloc, path, octet, count),
        Step::Zeros(path, count) => zeros(rt, path, count),
        Step::Patch(path, at, text) => patch(rt, alloc, path, at, text),
        Step::Folder(path) => fs::create_dir(rt, path),
        Step::Link(original, link) => rt.hard_link(original, link),
        Step::Symbolic(text, link) => rt.symlink(text, link),
        _ => look(rt, alloc, step),
    }
}

/// Takes a step that looks at a file.
fn look(rt: &(impl Abort + Files<File = File>), alloc: Global, step: Step) -> io::Result<()> {
    match step {
        Step::Holds(path, text) => {
            let octets = octets_of(rt, alloc, text);
            expect_octets(rt, alloc, path, octets.as_slice())
        }
        Step::HasOctets(path, count) => expect_length(rt, path, count),
        Step::HasMode(path, mode) => expect_mode(rt, path, mode),
        Step::IsMissing(path) => expect_none(rt, path),
        _ => panic!(rt; "a step that is not taken"),
    }
}

/// Makes a file of these octets, which others cannot read where it is new.
fn write(rt: &(impl Abort + Files<File = File>), path: &str, octets: &[u8]) -> io::Result<()> {
    let mut options = OpenOptions::new();
    options.write(true).create(true).truncate(true).mode(0o600);
    options.open(rt, path)?.write_all(octets)
}

/// Makes a file of octets that are spelled in hex.
fn write_hex(
    rt: &(impl Abort + Files<File = File>),
    alloc: Global,
    path: &str,
    text: &str,
) -> io::Result<()> {
    let octets = octets_of(rt, alloc, text);
    write(rt, path, octets.as_slice())
}

/// Makes a file of one octet, so many times.
fn fill(
    rt: &(impl Abort + Files<File = File>),
    alloc: Global,
    path: &str,
    octet: u8,
    count: usize,
) -> io::Result<()> {
    let octets = vec![in alloc; octet; count]?;
    write(rt, path, octets.as_slice())
}

/// Makes a file of so many zeros.
fn zeros(rt: &impl Files<File = File>, path: &str, count: u64) -> io::Result<()> {
    fs::create(rt, path)?.set_len(count)
}

/// The octets that a text spells.
pub fn octets_of(rt: &impl Abort, alloc: Global, text: &str) -> Vec<u8> {
    hex::decode(alloc, text.as_bytes())
        .ok()
        .expect(rt, "hex digits")
}

/// Writes octets that are spelled in hex from this octet of a file on.
fn patch(
    rt: &(impl Abort + Files<File = File>),
    alloc: Global,
    path: &str,
    at: u64,
    text: &str,
) -> io::Result<()> {
    let octets = octets_of(rt, alloc, text);
    write_from(rt, path, at, octets.as_slice())
}

/// Writes octets from this octet of a file on.
fn write_from(rt: &impl Files<File = File>, path: &str, at: u64, octets: &[u8]) -> io::Result<()> {
    let mut file = OpenOptions::new().write(true).open(rt, path)?;
    file.seek(SeekFrom::Start(at))?;
    file.write_all(octets)
}

/// The octets of a file.
pub fn octets_in(rt: &impl Files<File = File>, alloc: Global, path: &str) -> io::Result<Vec<u8>> {
    let mut found = Vec::new(alloc);
    fs::open(rt, path)?.read_to_end(&mut found)?;
    Ok(found)
}

/// The file holds these octets.
pub fn expect_octets(
    rt: &(impl Abort + Files<File = File>),
    alloc: Global,
    path: &str,
    octets: &[u8],
) -> io::Result<()> {
    let found = octets_in(rt, alloc, path)?;
    assert!(rt; found.as_slice() == octets, "{path}");
    Ok(())
}

/// The file has so many octets.
fn expect_length(rt: &(impl Abort + Files<File = File>), path: &str, count: u64) -> io::Result<()> {
    let about = fs::metadata(rt, path)?;
    assert!(rt; about.len() == count, "{path}");
    Ok(())
}

/// The file has this mode.
fn expect_mode(rt: &(impl Abort + Files<File = File>), path: &str, mode: u32) -> io::Result<()> {
    let about = fs::metadata(rt, path)?;
    assert!(rt; about.mode() & 0o7777 == mode, "{path}");
    Ok(())
}

/// There is no such file.
fn expect_none(rt: &(impl Abort + Files<File = File>), path: &str) -> io::Result<()> {
    assert!(rt; !fs::exists(rt, path)?, "{path}");
    Ok(())
}
