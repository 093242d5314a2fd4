//! Runs of the program over files and sockets of the system, and over a stand-in for it. Where
//! frames and captures come from is said where they are.

mod applying;
mod asking;
mod attending;
mod beside;
mod blank_files;
mod broken_streams;
mod captures;
mod checking;
mod disks;
mod examining;
mod failing;
mod inspecting;
mod judging;
mod keepers;
mod keeping;
mod kept_relays;
mod link;
mod link_files;
mod older_files;
mod overruns;
mod peers;
mod planning;
mod relaying;
mod shut;
mod slips;
mod spaced_files;
mod stand_in;
mod stories;
mod trying;
mod visitors;
mod waiting;
mod wires;

use crate::{Outcome, wrong_part};
use macs_program::CaptureFile;
use std::alloc::Global;
use std::fs::File;
use std::net::Net;
use std::process::Abort;
use std::random::RandomSource;
use std::rt::{Clock, Env, Files};

/// Runs the words over a system on no input, and asserts the whole outcome.
fn expect_over<T: Files + Net + Clock + Env + RandomSource>(
    rt: &impl Abort,
    system: &T,
    alloc: Global,
    words: &[&str],
    outcome: Outcome,
)
where
    T::File: CaptureFile,
{
    let wrong = wrong_part(system, alloc, words, &mut b"".as_slice(), outcome);
    assert!(rt; wrong.is_empty(), "{wrong}");
}

/// Runs the words on no input, and asserts the whole outcome.
fn expect(
    rt: &(impl Abort + Files<File = File> + Net + Clock + Env + RandomSource),
    alloc: Global,
    words: &[&str],
    outcome: Outcome,
) {
    expect_over(rt, rt, alloc, words, outcome);
}
