//! Readers and writers that fail, and memory that is refused.

use super::help_text::{HELP_TEXT, OPEN_TEXT};
use super::{INPUT, INTEGRITY_LINE, KEY, OPENED, expect_of};
use linked_list_allocator::LocalHeap;
use macs_fixtures::{Failure, NarrowWriter};
use macs_offline::{Opened, answer_of};
use macs_program::run::line_of;
use macsecd_tests::{Closing, Outcome, status_of};
use std::alloc::Global;
use std::fs::File;
use std::io::{self, Read, Write};
use std::net::Net;
use std::process::Abort;
use std::random::RandomSource;
use std::rt::{Clock, Env, Files};
use std::test::Fail;

/// A reader that gives some octets and then fails, and remembers whether it was asked.
#[derive(Drop)]
struct Broken<'a> {
    rest: &'a [u8],
    is_asked: bool,
}

impl Read for Broken<'_> {
    fn read(&mut self, buf: &mut [u8]) -> io::Result<usize> {
        self.is_asked = true;
        let count = self.rest.read(buf)?;
        if count == 0 {
            return Err(io::Error::from(io::ErrorKind::Other));
        }
        Ok(count)
    }
}

/// One that gives these octets.
fn giving(octets: &[u8]) -> Broken<'_> {
    Broken {
        rest: octets,
        is_asked: false,
    }
}

/// A reader that is interrupted before each octet that it gives.
#[derive(Drop)]
struct Slow<'a> {
    rest: &'a [u8],
    is_interrupted: bool,
}

impl Read for Slow<'_> {
    fn read(&mut self, buf: &mut [u8]) -> io::Result<usize> {
        self.is_interrupted = !self.is_interrupted;
        if self.is_interrupted {
            return Err(io::Error::from(io::ErrorKind::Interrupted));
        }
        match buf {
            [first, ..] => {
                let mut one = [0];
                let count = self.rest.read(&mut one)?;
                *first = one[0];
                Ok(count)
            }
            [] => Ok(0),
        }
    }
}

/// A writer that is interrupted before each octet that it takes.
#[derive(Drop)]
struct Patient {
    taken: Vec<u8>,
    is_interrupted: bool,
}

impl Write for Patient {
    fn write(&mut self, buf: &[u8]) -> io::Result<usize> {
        self.is_interrupted = !self.is_interrupted;
        if self.is_interrupted {
            return Err(io::Error::from(io::ErrorKind::Interrupted));
        }
        match buf {
            [first, ..] => {
                self.taken.push(*first)?;
                Ok(1)
            }
            [] => Ok(0),
        }
    }

    fn flush(&mut self) -> io::Result<()> {
        Ok(())
    }
}

/// A writer that keeps what it takes until it is flushed.
#[derive(Drop)]
struct Lazy {
    /// How many octets wait for a flush.
    waiting: usize,
}

impl Write for Lazy {
    fn write(&mut self, buf: &[u8]) -> io::Result<usize> {
        self.waiting = self.waiting.saturating_add(buf.len());
        Ok(buf.len())
    }

    fn flush(&mut self) -> io::Result<()> {
        self.waiting = 0;
        Ok(())
    }
}

const READ_FAULT: Outcome = Outcome::Fault("macsecd: input\n");

/// Words, what they come to over a reader that fails, and whether it is asked.
const READINGS: &[(&[&str], Outcome, bool)] = &[
    (
        &["frobnicate"],
        Outcome::Usage(
            "macsecd: unrecognized subcommand 'frobnicate' tip: a similar subcommand exists: 'format'\n",
        ),
        false,
    ),
    (&["--help"], Outcome::Done(HELP_TEXT), false),
    (&["open", "-h"], Outcome::Done(OPEN_TEXT), false),
    (&["--version"], Outcome::Done("macsecd 0.1.0\n"), false),
    (&["open"], READ_FAULT, true),
];

/// The words are judged before anything is read.
#[test]
fn reads_for_open_alone(rt: HostRuntime) {
    for (words, outcome, is_asked) in READINGS {
        let mut reader = giving(b"");
        expect_of(&rt, rt.alloc(), words, &mut reader, *outcome);
        assert_eq!(rt; reader.is_asked, *is_asked);
    }
}

/// At once, in mid-stream, and where the input would end.
#[test]
fn a_failed_read_is_input(rt: HostRuntime) {
    for given in ["", KEY, INPUT] {
        let mut reader = giving(given.as_bytes());
        expect_of(&rt, rt.alloc(), &[], &mut reader, READ_FAULT);
    }
}

#[test]
fn a_slow_reader_is_read_whole(rt: HostRuntime) {
    let mut reader = Slow {
        rest: INPUT.as_bytes(),
        is_interrupted: false,
    };
    expect_of(&rt, rt.alloc(), &[], &mut reader, OPENED);
}

/// The status and standard error of a run.
fn expect_told(rt: &impl Abort, word: &str, found: (u8, &[u8]), status: u8, message: &str) {
    let (answer, err) = found;
    assert_eq!(rt; answer, status, "on {word}");
    assert_eq!(rt; err, message.as_bytes(), "on {word}");
}

/// A word on the input over a writer ends with this status and this line on standard error.
fn expect_written<W: Write>(
    rt: &(impl Abort + Files<File = File> + Net + Clock + Env + RandomSource),
    alloc: Global,
    word: &str,
    out: &mut W,
    status: u8,
    message: &str,
) {
    let mut err = Vec::new(alloc);
    let answer = status_of(rt, alloc, &[word], &mut INPUT.as_bytes(), out, &mut err);
    expect_told(rt, word, (answer, err.as_slice()), status, message);
}

/// The line goes out as far as there is room for it, an octet at a time; the call of this number
/// takes none.
fn expect_narrow(
    rt: &(impl Abort + Files<File = File> + Net + Clock + Env + RandomSource),
    alloc: Global,
    stops_at: u64,
    status: u8,
    message: &str,
) -> usize {
    let mut out = NarrowWriter::new(alloc, stops_at, Failure::Nothing);
    expect_written(rt, alloc, "open", &mut out, status, message);
    assert!(rt; INTEGRITY_LINE.as_bytes().starts_with(out.octets()));
    out.octets().len()
}

/// It stops at the first octet, the second, and the last, and where it does not the line is whole.
#[test]
fn a_writer_that_stops_is_output(rt: HostRuntime) {
    let whole = INTEGRITY_LINE.len();
    for room in [0, 1, whole - 1] {
        let stops_at = (room as u64).saturating_add(1);
        let taken = expect_narrow(&rt, rt.alloc(), stops_at, 5, "macsecd: output\n");
        assert_eq!(rt; taken, room);
    }
    assert_eq!(rt; expect_narrow(&rt, rt.alloc(), 0, 0, ""), whole);
}

#[test]
fn an_interrupted_print_is_made_again(rt: HostRuntime) {
    let mut out = Patient {
        taken: Vec::new(rt.alloc()),
        is_interrupted: false,
    };
    expect_written(&rt, rt.alloc(), "open", &mut out, 0, "");
    assert_eq!(rt; out.taken.as_slice(), INTEGRITY_LINE.as_bytes());
}

#[test]
fn a_writer_that_fails_is_output(rt: HostRuntime) {
    for writes in [0, u32::MAX] {
        for word in ["open", "--help", "--version"] {
            let mut out = Closing { writes, flushes: 0 };
            expect_written(&rt, rt.alloc(), word, &mut out, 5, "macsecd: output\n");
        }
    }
}

/// What a word on the input comes to over streams that keep what they take: its status, and how
/// many octets wait in either.
fn waiting(
    rt: &(impl Abort + Files<File = File> + Net + Clock + Env + RandomSource),
    alloc: Global,
    word: &str,
) -> (u8, usize, usize) {
    let mut out = Lazy { waiting: 0 };
    let mut err = Lazy { waiting: 0 };
    let status = status_of(
        rt,
        alloc,
        &[word],
        &mut INPUT.as_bytes(),
        &mut out,
        &mut err,
    );
    (status, out.waiting, err.waiting)
}

/// Each text is flushed once it is written, on either stream: nothing waits at the end.
#[test]
fn nothing_that_is_printed_waits(rt: HostRuntime) {
    for (word, status) in [("open", 0), ("--help", 0), ("frobnicate", 2)] {
        assert_eq!(rt; waiting(&rt, rt.alloc(), word), (status, 0, 0), "on {word}");
    }
}

/// The status of words over a standard error that fails. They print nothing.
fn status_alone(
    rt: &(impl Abort + Files<File = File> + Net + Clock + Env + RandomSource),
    alloc: Global,
    words: &[&str],
) -> u8 {
    let mut out = Vec::new(alloc);
    let mut err = Closing {
        writes: 0,
        flushes: 0,
    };
    let status = status_of(rt, alloc, words, &mut b"".as_slice(), &mut out, &mut err);
    assert!(rt; out.is_empty());
    status
}

/// Where standard error fails too, the status still reports it.
#[test]
fn the_status_tells_without_standard_error(rt: HostRuntime) {
    assert_eq!(rt; status_alone(&rt, rt.alloc(), &["frobnicate"]), 2);
    assert_eq!(rt; status_alone(&rt, rt.alloc(), &[]), 5);
}

/// Whether a heap of so many octets has room for the line, which is then whole.
fn has_room(rt: &impl Abort, alloc: Global, answer: &Opened, octets: usize) -> Result<bool, Fail> {
    let heap = LocalHeap::new(alloc, octets)?;
    match line_of(&heap, answer) {
        Ok(line) => {
            assert_eq!(rt; line.as_str(), INTEGRITY_LINE);
            Ok(true)
        }
        Err(_) => Ok(false),
    }
}

/// In heaps of growing size the line is refused or whole.
#[test]
fn refused_memory_gives_no_line(rt: HostRuntime) -> Result<(), Fail> {
    let Ok(answer) = answer_of(INPUT.as_bytes()) else {
        return Err(Fail::from(io::Error::from(io::ErrorKind::Other)));
    };
    let mut is_ever_whole = false;
    let mut is_ever_refused = false;
    for blocks in 1..64 {
        let is_whole = has_room(&rt, rt.alloc(), &answer, 32 * blocks)?;
        is_ever_whole |= is_whole;
        is_ever_refused |= !is_whole;
    }
    assert!(rt; is_ever_whole && is_ever_refused);
    Ok(())
}
