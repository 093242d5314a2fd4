//! Fresh keys.

use super::printed;
use macs_cli::WriterStream;
use macs_offline::key::{SystemOctets, print_key};
use macs_program::run::report;
use std::alloc::Global;
use std::cell::Cell;
use std::io;
use std::process::Abort;
use std::random::RandomSource;

/// A source that counts, from 0 on, through all its octets; or one that gives nothing.
#[derive(Drop)]
struct Counting {
    is_broken: bool,
    next: Cell<u8>,
}

impl Counting {
    fn new(is_broken: bool) -> Counting {
        Counting {
            is_broken,
            next: Cell::new(0),
        }
    }
}

impl RandomSource for Counting {
    fn fill_bytes(&self, buf: &mut [u8]) -> io::Result<()> {
        if self.is_broken {
            return Err(io::Error::from(io::ErrorKind::Other));
        }
        let mut next = self.next.get();
        for octet in buf.iter_mut() {
            *octet = next;
            next = next.wrapping_add(1);
        }
        self.next.set(next);
        Ok(())
    }
}

/// Asserts what is printed of a key from a source that counts, and how many octets it takes.
fn expect_key(rt: &impl Abort, alloc: Global, is_long: bool, taken: u8, wanted: &str) {
    let source = Counting::new(false);
    let mut octets = SystemOctets { rt: &source };
    let mut out = Vec::new(alloc);
    let done = print_key(&mut octets, is_long, &mut WriterStream::new(&mut out));
    assert!(rt; done.is_ok());
    assert_eq!(rt; out.as_slice(), wanted.as_bytes());
    assert!(rt; source.next.get() == taken);
}

#[test]
fn digits_are_those_of_the_octets(rt: HostRuntime) {
    let short = "000102030405060708090a0b0c0d0e0f\n";
    let long = "000102030405060708090a0b0c0d0e0f101112131415161718191a1b1c1d1e1f\n";
    expect_key(&rt, rt.alloc(), false, 16, short);
    expect_key(&rt, rt.alloc(), true, 32, long);
}

#[test]
fn a_source_that_fails_is_said(rt: HostRuntime) {
    let source = Counting::new(true);
    let mut octets = SystemOctets { rt: &source };
    let mut out = Vec::new(rt.alloc());
    let mut err = Vec::new(rt.alloc());
    let done = print_key(&mut octets, true, &mut WriterStream::new(&mut out));
    let Err(failure) = done else {
        panic!(rt; "a key");
    };
    let status = report(&failure, &mut WriterStream::new(&mut err));
    assert!(rt; out.is_empty());
    assert!(rt; err.as_slice() == b"macsecd: random source\n".as_slice());
    assert!(rt; status == 5);
}

/// Keys of the system have their length, and no two are the same.
#[test]
fn keys_are_fresh(rt: HostRuntime) {
    let one = printed(&rt, rt.alloc(), &["key"]);
    let other = printed(&rt, rt.alloc(), &["key"]);
    let long = printed(&rt, rt.alloc(), &["key", "--long"]);
    assert_eq!(rt; one.len(), 33);
    assert_eq!(rt; long.len(), 65);
    assert!(rt; one.as_slice() != other.as_slice());
}
