//! A keeper of a disk and its client, each over a connection that plays the other side. Octets are
//! worked out by hand.

mod client;
mod keeper;
mod waiting;

use macs_control::keeping::Waits;
use macs_control::{Connection, Taken};
use std::alloc::Global;
use std::cell::RefCell;
use std::process::Abort;

/// A message: its first octet, the last octet of a number of 8, if it has one, and the octet that
/// its sector is full of.
type Message = (u8, Option<u8>, u8);

/// The other side: what it sends, at most `most` octets at a time, what follows then, and how many
/// messages it takes.
#[derive(Drop)]
struct Played<'a> {
    coming: &'a [u8],
    most: usize,
    last: Taken,
    room: usize,
    taken: &'a RefCell<Vec<u8>>,
}

impl Connection for Played<'_> {
    fn take_into(&mut self, into: &mut [u8]) -> Taken {
        let count = self.coming.len().min(into.len()).min(self.most);
        if count == 0 {
            return match self.last {
                Taken::Octets(_) => Taken::Gone,
                other => other,
            };
        }
        into[..count].copy_from_slice(&self.coming[..count]);
        self.coming = &self.coming[count..];
        Taken::Octets(count.min(into.len()))
    }

    fn try_send(&mut self, octets: &[u8]) -> bool {
        if self.room == 0 {
            return false;
        }
        self.room -= 1;
        match self.taken.try_borrow_mut() {
            Ok(mut taken) => taken.extend_from_slice(octets).is_ok(),
            Err(_) => false,
        }
    }
}

/// What it sends is there at once, and nothing comes later.
impl Waits for Played<'_> {
    fn wait(&mut self) -> bool {
        !self.coming.is_empty() || self.last == Taken::Ended
    }
}

/// Appends a message.
fn put(rt: &impl Abort, into: &mut Vec<u8>, message: &Message) {
    let (kind, number, octet) = *message;
    into.push(kind).expect(rt, "memory");
    if let Some(last) = number {
        let number = [0, 0, 0, 0, 0, 0, 0, last];
        into.extend_from_slice(&number).expect(rt, "memory");
    }
    into.extend_from_slice(&[octet; 512]).expect(rt, "memory");
}

/// Messages, one after another.
fn octets(rt: &impl Abort, alloc: Global, messages: &[Message]) -> Vec<u8> {
    let mut all = Vec::new(alloc);
    for message in messages {
        put(rt, &mut all, message);
    }
    all
}

/// The greeting of a keeper of four sectors, and messages.
fn greeted(rt: &impl Abort, alloc: Global, messages: &[Message]) -> Vec<u8> {
    let mut all = Vec::new(alloc);
    let greeting = b"MSECKEEP\0\0\0\0\0\0\0\x04";
    all.extend_from_slice(greeting).expect(rt, "memory");
    for message in messages {
        put(rt, &mut all, message);
    }
    all
}

/// Whether a connection took exactly these octets.
fn took(taken: &RefCell<Vec<u8>>, wanted: &[u8]) -> bool {
    match taken.try_borrow_mut() {
        Ok(taken) => taken.as_slice() == wanted,
        Err(_) => false,
    }
}
