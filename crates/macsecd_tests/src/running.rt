//! Runs of the program. What is proved of a run is left out: the tests look at what it does.

use super::Outcome;
use macs_program::run::run;
use macs_program::{CaptureFile, ReaderInput, WriterStream};
use std::alloc::Global;
use std::io::{Read, Write};
use std::net::Net;
use std::random::RandomSource;
use std::rt::{Clock, Env, Files};

/// Runs the program.
pub fn status_of<T: Files + Net + Clock + Env + RandomSource, R: Read, W: Write, E: Write>(
    system: &T,
    alloc: Global,
    words: &[&str],
    input: &mut R,
    out: &mut W,
    err: &mut E,
) -> u8
where
    T::File: CaptureFile,
{
    let mut input = ReaderInput::new(input);
    let mut out = WriterStream::new(out);
    let mut err = WriterStream::new(err);
    run(system, alloc, words, &mut input, &mut out, &mut err)
}

/// Runs the words over a system on what a reader gives. The part of the answer that is not that of
/// the outcome: no text where the whole outcome is as it is to be.
pub fn wrong_part<T: Files + Net + Clock + Env + RandomSource, R: Read>(
    system: &T,
    alloc: Global,
    words: &[&str],
    input: &mut R,
    outcome: Outcome,
) -> &'static str
where
    T::File: CaptureFile,
{
    let mut out = Vec::new(alloc);
    let mut err = Vec::new(alloc);
    let status = status_of(system, alloc, words, input, &mut out, &mut err);
    outcome.differing_part(status, out.as_slice(), err.as_slice())
}
