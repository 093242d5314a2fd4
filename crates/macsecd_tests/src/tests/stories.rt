//! Stories of runs over files in a folder of their own.

mod attended;
mod files;
mod kept;
mod kept_relays;
mod relays;
mod runs;

use super::expect;
use super::stand_in::Broken;
use crate::Outcome;
pub use attended::{Attended, Client, Told};
pub use kept::Kept;
pub use kept_relays::KeptRelay;
pub use relays::{Frames, Relayed};
use std::alloc::Global;
use std::fs::File;
use std::net::Net;
use std::process::Abort;
use std::random::RandomSource;
use std::rt::{Clock, Env, Files};
use std::{fs, io};

/// A step of a story. Files and folders are named by their paths.
#[derive(Clone, Copy)]
pub enum Step {
    /// Runs these words.
    Run(&'static [&'static str], Outcome),
    /// Runs these words where the file of this path fails so.
    Failing(&'static str, Broken, &'static [&'static str], Outcome),
    /// Runs these words over a standard output that takes so many writes and so many flushes, and
    /// then fails: that is `output`.
    Closing(u32, u32, &'static [&'static str]),
    /// Relays a frame each way.
    Relay(&'static Relayed),
    /// Relays beside clients and a parent.
    Attend(&'static Attended),
    /// Keeps a disk file for a client.
    Keep(&'static Kept),
    /// Relays over the disk of a keeper.
    RelayKept(&'static KeptRelay),
    /// Runs these words while another open of the file of this path has claimed it: for itself
    /// alone, or along with other readers.
    Claimed(&'static str, &'static [&'static str], Outcome),
    Shared(&'static str, &'static [&'static str], Outcome),
    /// Runs these words, and these files hold what they held before.
    Keeping(&'static [&'static str], &'static [&'static str], Outcome),
    /// Makes a file of this text, which others cannot read where it is new.
    Text(&'static str, &'static str),
    /// Gives a file this mode.
    Mode(&'static str, u32),
    /// Makes a file of octets that are spelled in hex.
    Hex(&'static str, &'static str),
    /// Makes a file of one octet, so many times.
    Filled(&'static str, u8, usize),
    /// Makes a file of so many zeros.
    Zeros(&'static str, u64),
    /// Writes octets that are spelled in hex from this octet of a file on.
    Patch(&'static str, u64, &'static str),
    /// Makes a folder.
    Folder(&'static str),
    /// Makes a second name for a file, and one that is a symbolic link with this text.
    Link(&'static str, &'static str),
    Symbolic(&'static str, &'static str),
    /// The file holds these octets, spelled in hex.
    Holds(&'static str, &'static str),
    /// The file has so many octets.
    HasOctets(&'static str, u64),
    /// The file has this mode.
    HasMode(&'static str, u32),
    /// There is no such file.
    IsMissing(&'static str),
}

/// Takes one step: a run over what is there, or another.
fn take(
    rt: &(impl Abort + Files<File = File> + Net + Clock + Env + RandomSource),
    alloc: Global,
    step: Step,
) -> io::Result<()> {
    match step {
        Step::Run(words, outcome) => {
            expect(rt, alloc, words, outcome);
            Ok(())
        }
        Step::Failing(path, broken, words, outcome) => {
            runs::expect_failing(rt, alloc, path, broken, words, outcome);
            Ok(())
        }
        Step::Closing(writes, flushes, words) => {
            runs::expect_output(rt, alloc, writes, flushes, words);
            Ok(())
        }
        Step::Relay(relayed) => relays::relay(rt, alloc, relayed),
        Step::Attend(attended) => attended::attend(rt, alloc, attended),
        Step::Keep(kept) => kept::keep(rt, alloc, kept),
        Step::RelayKept(relayed) => kept_relays::relay_kept(rt, alloc, relayed),
        _ => take_beside(rt, alloc, step),
    }
}

/// Takes a run beside another open of a file, or a step on files.
fn take_beside(
    rt: &(impl Abort + Files<File = File> + Net + Clock + Env + RandomSource),
    alloc: Global,
    step: Step,
) -> io::Result<()> {
    match step {
        Step::Claimed(path, words, outcome) => {
            runs::expect_claimed(rt, alloc, path, words, outcome)
        }
        Step::Shared(path, words, outcome) => runs::expect_shared(rt, alloc, path, words, outcome),
        Step::Keeping(paths, words, outcome) => {
            runs::expect_keeping(rt, alloc, paths, words, outcome)
        }
        _ => files::make(rt, alloc, step),
    }
}

/// Takes steps, one after another, in a folder that is removed at the end.
fn take_each(
    rt: &(impl Abort + Files<File = File> + Net + Clock + Env + RandomSource + AllocGlobal),
    alloc: Global,
    folder: &str,
    story: &[Step],
) -> io::Result<()> {
    fs::create_dir(rt, folder)?;
    for step in story {
        take(rt, alloc, *step)?;
    }
    fs::remove_dir_all(rt, folder)
}

/// Takes steps, one after another, over files in a folder that is not there at first, and that is
/// removed at the end.
pub fn play(
    rt: &(impl Abort + Files<File = File> + Net + Clock + Env + RandomSource + AllocGlobal),
    alloc: Global,
    folder: &str,
    story: &[Step],
) {
    let _ = fs::remove_dir_all(rt, folder);
    if let Err(error) = take_each(rt, alloc, folder, story) {
        panic!(rt; "{folder}: {error:?}");
    }
}
