//! Runs over a file that fails or is claimed, over an output that fails, and beside files that stay
//! as they are.

use super::super::stand_in::{Broken, StandIn};
use super::super::{expect, expect_over};
use super::files::{expect_octets, octets_in};
use crate::{Closing, Outcome, status_of};
use std::alloc::Global;
use std::fs::{File, OpenOptions};
use std::io;
use std::net::Net;
use std::process::Abort;
use std::random::RandomSource;
use std::rt::{Clock, Env, Files};

/// What each of these files holds.
fn octets_in_each(
    rt: &impl Files<File = File>,
    alloc: Global,
    paths: &[&str],
) -> io::Result<Vec<Vec<u8>>> {
    let mut each = Vec::new(alloc);
    for path in paths {
        each.push(octets_in(rt, alloc, path)?)?;
    }
    Ok(each)
}

/// Each of these files holds these octets.
fn expect_octets_in_each(
    rt: &(impl Abort + Files<File = File>),
    alloc: Global,
    paths: &[&str],
    each: &[Vec<u8>],
) -> io::Result<()> {
    assert!(rt; paths.len() == each.len());
    for i in 0..paths.len() {
        expect_octets(rt, alloc, paths[i], each[i].as_slice())?;
    }
    Ok(())
}

/// Runs these words, and looks whether these files hold what they held before.
pub fn expect_keeping(
    rt: &(impl Abort + Files<File = File> + Net + Clock + Env + RandomSource),
    alloc: Global,
    paths: &[&str],
    words: &[&str],
    outcome: Outcome,
) -> io::Result<()> {
    let each = octets_in_each(rt, alloc, paths)?;
    expect(rt, alloc, words, outcome);
    expect_octets_in_each(rt, alloc, paths, each.as_slice())
}

/// Opens a file as one that claims it does.
fn opened(rt: &impl Files<File = File>, path: &str) -> io::Result<File> {
    OpenOptions::new().read(true).write(true).open(rt, path)
}

/// Runs these words while a file is claimed for itself alone: it is kept.
pub fn expect_claimed(
    rt: &(impl Abort + Files<File = File> + Net + Clock + Env + RandomSource),
    alloc: Global,
    path: &str,
    words: &[&str],
    outcome: Outcome,
) -> io::Result<()> {
    let file = opened(rt, path)?;
    assert!(rt; file.try_lock().is_ok());
    expect_keeping(rt, alloc, &[path], words, outcome)
}

/// The same while it is claimed along with other readers.
pub fn expect_shared(
    rt: &(impl Abort + Files<File = File> + Net + Clock + Env + RandomSource),
    alloc: Global,
    path: &str,
    words: &[&str],
    outcome: Outcome,
) -> io::Result<()> {
    let file = opened(rt, path)?;
    assert!(rt; file.try_lock_shared().is_ok());
    expect_keeping(rt, alloc, &[path], words, outcome)
}

/// Runs these words where the file of a path fails.
pub fn expect_failing(
    rt: &(impl Abort + Files<File = File> + Net + Clock + Env + RandomSource),
    alloc: Global,
    path: &'static str,
    broken: Broken,
    words: &[&str],
    outcome: Outcome,
) {
    let system = StandIn {
        system: rt,
        path,
        broken,
        peers: None,
        beside: None,
    };
    expect_over(rt, &system, alloc, words, outcome);
}

/// Words over a writer that fails end with status 5 and the line that says so.
pub fn expect_output(
    rt: &(impl Abort + Files<File = File> + Net + Clock + Env + RandomSource),
    alloc: Global,
    writes: u32,
    flushes: u32,
    words: &[&str],
) {
    let mut out = Closing { writes, flushes };
    let mut err = Vec::new(alloc);
    let status = status_of(rt, alloc, words, &mut b"".as_slice(), &mut out, &mut err);
    assert!(rt; err.as_slice() == b"macsecd: output\n".as_slice());
    assert!(rt; status == 5);
}
