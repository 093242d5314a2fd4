//! A reader and a writer that move one octet a call, and of which one call fails.

use std::alloc::Global;
use std::io::{self, ErrorKind, Read, Write};

/// A reader that gives one octet a call. The call of this number fails, as if it were interrupted;
/// at 0 none does.
#[derive(Drop)]
pub struct NarrowReader<'a> {
    octets: &'a [u8],
    calls: u64,
    fails_at: u64,
}

impl<'a> NarrowReader<'a> {
    /// A reader of these octets.
    pub fn new(octets: &'a [u8], fails_at: u64) -> NarrowReader<'a> {
        NarrowReader {
            octets,
            calls: 0,
            fails_at,
        }
    }
}

impl Read for NarrowReader<'_> {
    fn read(&mut self, into: &mut [u8]) -> io::Result<usize> {
        self.calls = self.calls.wrapping_add(1);
        if self.calls == self.fails_at {
            return Err(io::Error::from(ErrorKind::Interrupted));
        }
        let (Some((first, rest)), [place, ..]) = (self.octets.split_first(), into) else {
            return Ok(0);
        };
        *place = *first;
        self.octets = rest;
        Ok(1)
    }
}

/// How a call of a writer fails.
#[derive(Clone, Copy)]
pub enum Failure {
    /// With an error.
    Error,
    /// As if it were interrupted.
    Interrupted,
    /// It takes no octet, and says so. A flush fails with an error.
    Nothing,
}

/// A writer that takes one octet a call. The call of this number fails, flushes included; at 0 none
/// does.
#[derive(Drop)]
pub struct NarrowWriter {
    octets: Vec<u8>,
    calls: u64,
    fails_at: u64,
    failure: Failure,
    is_flushed: bool,
}

impl NarrowWriter {
    /// A writer that has taken nothing yet.
    pub fn new(alloc: Global, fails_at: u64, failure: Failure) -> NarrowWriter {
        NarrowWriter {
            octets: Vec::new(alloc),
            calls: 0,
            fails_at,
            failure,
            is_flushed: true,
        }
    }

    /// One that takes no flush: each fails.
    pub fn without_flush(alloc: Global, fails_at: u64) -> NarrowWriter {
        NarrowWriter {
            octets: Vec::new(alloc),
            calls: 0,
            fails_at,
            failure: Failure::Error,
            is_flushed: false,
        }
    }

    /// What it has taken.
    pub fn octets(&self) -> &[u8] {
        self.octets.as_slice()
    }

    /// What it took, once it is done.
    pub fn into_octets(self) -> Vec<u8> {
        let NarrowWriter { octets, .. } = self;
        octets
    }

    /// Counts a call. Whether it is the one that fails.
    fn is_failing(&mut self) -> bool {
        self.calls = self.calls.wrapping_add(1);
        self.calls == self.fails_at
    }
}

impl Write for NarrowWriter {
    fn write(&mut self, from: &[u8]) -> io::Result<usize> {
        if self.is_failing() {
            return match self.failure {
                Failure::Error => Err(io::Error::from(ErrorKind::BrokenPipe)),
                Failure::Interrupted => Err(io::Error::from(ErrorKind::Interrupted)),
                Failure::Nothing => Ok(0),
            };
        }
        let Some(first) = from.first() else {
            return Ok(0);
        };
        self.octets.push(*first)?;
        Ok(1)
    }

    fn flush(&mut self) -> io::Result<()> {
        if self.is_failing() || !self.is_flushed {
            return Err(io::Error::from(match self.failure {
                Failure::Interrupted => ErrorKind::Interrupted,
                Failure::Error | Failure::Nothing => ErrorKind::BrokenPipe,
            }));
        }
        Ok(())
    }
}
