//! What the program says of words, inputs and streams. Keys, SCIs and frames come from outside: the
//! frames of integrity and of confidentiality from IEEE Std 802.1AE-2018, Annex C; those with an
//! offset were made from them by Python's `cryptography` (AESGCM with the octets in front of the
//! offset in the additional data).

mod command_faults;
mod help;
mod help_text;
mod input;
mod key;
mod link_faults;
mod opening;
mod refused_words;
mod relay_words;
mod report_json;
mod streams;
mod words;

use macsecd_tests::{Outcome, status_of, wrong_part};
use std::alloc::{AllocError, Global};
use std::fs::File;
use std::io::Read;
use std::net::Net;
use std::process::Abort;
use std::random::RandomSource;
use std::rt::{Clock, Env, Files};
use std::test::Fail;

/// The key and the SCI of most of the frames.
const KEY: &str = "ad7a2bd03eac835a6f620fdcb506b345";

const SCI: &str = "12153524c0895e81";

/// A frame under integrity alone, of 86 octets.
const INTEGRITY: &str =
    "d609b1f056637a0d46df998d88e5222ab2c2846512153524c0895e8108000f101112131415161718191a1b1c1d1e1f202122232425262728292a2b2c2d2e2f30313233340001f09478a9b09007d06f46e9b6a1da25dd";

/// The input of the frame under integrity.
const INPUT: &str =
    "ad7a2bd03eac835a6f620fdcb506b345\n12153524c0895e81\n0\nd609b1f056637a0d46df998d88e5222ab2c2846512153524c0895e8108000f101112131415161718191a1b1c1d1e1f202122232425262728292a2b2c2d2e2f30313233340001f09478a9b09007d06f46e9b6a1da25dd\n";

/// The line that is printed for it.
const INTEGRITY_LINE: &str =
    "valid an=2 pn=b2c28465 plain=d609b1f056637a0d46df998d08000f101112131415161718191a1b1c1d1e1f202122232425262728292a2b2c2d2e2f30313233340001\n";

/// The frame under integrity is opened.
const OPENED: Outcome = Outcome::Done(INTEGRITY_LINE);

/// Runs the words on what a reader gives, and asserts the whole outcome.
fn expect_of<R: Read>(
    rt: &(impl Abort + Files<File = File> + Net + Clock + Env + RandomSource),
    alloc: Global,
    words: &[&str],
    input: &mut R,
    outcome: Outcome,
) {
    let wrong = wrong_part(rt, alloc, words, input, outcome);
    assert!(rt; wrong.is_empty(), "{wrong}");
}

/// Runs the words on an input, and asserts the whole outcome.
fn expect(
    rt: &(impl Abort + Files<File = File> + Net + Clock + Env + RandomSource),
    alloc: Global,
    words: &[&str],
    input: &str,
    outcome: Outcome,
) {
    expect_of(rt, alloc, words, &mut input.as_bytes(), outcome);
}

/// Words, and what a run of them on no input comes to.
type Row = (&'static [&'static str], Outcome);

/// Runs the words of each row, and asserts the whole outcome.
fn expect_each(
    rt: &(impl Abort + Files<File = File> + Net + Clock + Env + RandomSource),
    alloc: Global,
    rows: &[Row],
) {
    for (words, outcome) in rows {
        expect(rt, alloc, words, "", *outcome);
    }
}

/// What is printed for words that are done.
fn printed(
    rt: &(impl Abort + Files<File = File> + Net + Clock + Env + RandomSource),
    alloc: Global,
    words: &[&str],
) -> Vec<u8> {
    let mut out = Vec::new(alloc);
    let mut err = Vec::new(alloc);
    let status = status_of(rt, alloc, words, &mut b"".as_slice(), &mut out, &mut err);
    assert_eq!(rt; status, 0);
    out
}

/// The texts, one after another.
fn joined(alloc: Global, texts: &[&str]) -> Result<String, AllocError> {
    let mut whole = String::new(alloc);
    for text in texts {
        whole.push_str(text)?;
    }
    Ok(whole)
}

/// Opens an input of these texts, one after another, and asserts the whole outcome.
fn expect_texts(
    rt: &(impl Abort + Files<File = File> + Net + Clock + Env + RandomSource),
    alloc: Global,
    texts: &[&str],
    outcome: Outcome,
) -> Result<(), Fail> {
    let input = joined(alloc, texts)?;
    expect(rt, alloc, &["open"], input.as_str(), outcome);
    Ok(())
}

/// A key, an SCI, an offset and a frame, and what opens them.
type FourLines = ([&'static str; 4], Outcome);

/// Opens an input of these four lines, each with its end, and of what is after them.
fn expect_lines_and(
    rt: &(impl Abort + Files<File = File> + Net + Clock + Env + RandomSource),
    alloc: Global,
    [key, sci, offset, frame]: [&str; 4],
    more: &str,
    outcome: Outcome,
) -> Result<(), Fail> {
    let texts = [key, "\n", sci, "\n", offset, "\n", frame, "\n", more];
    expect_texts(rt, alloc, &texts, outcome)
}

/// Opens an input of four lines for each row.
fn expect_openings(
    rt: &(impl Abort + Files<File = File> + Net + Clock + Env + RandomSource),
    alloc: Global,
    rows: &[FourLines],
) -> Result<(), Fail> {
    for (lines, outcome) in rows {
        expect_lines_and(rt, alloc, *lines, "", *outcome)?;
    }
    Ok(())
}
