//! Key stream generated in advance, for consecutive initialisation vectors.

ghost use Rattle.std.specs.Prelude.{◌≡◌, ◌+◌, ◌*◌, ◌^◌, ◌<◌, ◌≤◌, ℕ, List, [], ◌++◌, IfSome};
ghost use Rattle.std.specs.Prelude.{get_or, length};
ghost use Rattle.std.specs.Int.{to_be_bytes, w32};
ghost use Rattle.macs_aes.specs.Cipher.{encrypt};
ghost use Rattle.macs_gcm.specs.Gcm.{ciphertext_of, pre_counter_block};
ghost use Rattle.macs_gcm.specs.KeyStream.{IsRow, IsStream};
ghost use Rattle.macs_gcm.specs.declared.key_stream.TheConstants.{DEPTH};

use crate::counter::{GROUP, mask_room, xor_block};
use macs_aes::{Block, Schedule};
use macs_planes::{GroupKeys, key_room};
use std::marker::Model;

/// How many counter blocks of an initialisation vector are made in advance at most: J0, and those
/// of 304 octets of text. For more, whole groups of them are as fast.
pub(crate) const DEPTH: usize = 20;

/// The fixed field and the invocation field of an initialisation vector (NIST SP 800-38D, 8.2.1).
fn fields_of(iv: &[u8; 12]) -> ([u8; 8], u32)
    ensures { iv.now ≡ result.0 ++ to_be_bytes w32 result.1 }
{
    let [a, b, c, d, e, f, g, h, i, j, k, l] = *iv;
    ([a, b, c, d, e, f, g, h], u32::from_be_bytes([i, j, k, l]))
}

/// A counter block of a fixed field, an invocation field and a number.
#[inline(always)]
fn stream_block(fixed: &[u8; 8], invocation: u32, number: u32) -> Block
    ensures { result ≡ fixed.now ++ to_be_bytes w32 invocation ++ to_be_bytes w32 number }
{
    let [a, b, c, d, e, f, g, h] = *fixed;
    let [i, j, k, l] = invocation.to_be_bytes();
    let [m, n, o, p] = number.to_be_bytes();
    [a, b, c, d, e, f, g, h, i, j, k, l, m, n, o, p]
}

/// Counter blocks of one number, encrypted: one for each of as many invocations as a group has
/// blocks. In clauses it is the list of them.
#[derive(Clone, Copy)]
pub(crate) struct Row {
    masks: [Block; GROUP],
}

impl Model for Row {
    ghost Value = { List (List ℕ) };

    ghost view = { λ r. r.masks };

    ghost inverse = { λ v. record { masks = v } };
}

impl Row {
    /// That of the invocation at this place.
    #[inline(always)]
    fn get(&self, place: usize) -> &Block
        requires { place < GROUP }
        ensures { result.now ≡ get_or self.now place [] }
    {
        let masks = &self.masks;
        &masks[place]
    }
}

/// The counter block with this number of each invocation of a group, from the first on, encrypted.
fn row_of(keys: &GroupKeys, fixed: &[u8; 8], first: u32, number: u32) -> Row
    ensures { IsRow GROUP keys.now fixed.now first number result }
{
    let mut masks = mask_room();
    for j in 0..GROUP {
        masks[j] = stream_block(fixed, first.wrapping_add(j as u32), number);
    }
    keys.encrypt_group(&mut masks);
    Row { masks }
}

/// Encrypted counter blocks of consecutive invocations, as many as a group has blocks: row c has
/// those with the number c + 1.
#[derive(Drop)]
pub(crate) struct KeyStream {
    pub(crate) fixed: [u8; 8],
    pub(crate) first: u32,
    pub(crate) depth: usize,
    pub(crate) rows: [Row; DEPTH],
    ghost within: { depth ≤ DEPTH },
}

impl KeyStream {
    /// No counter blocks.
    pub(crate) fn new() -> Self
        ensures { result.depth ≡ 0 }
    {
        let none = Row { masks: mask_room() };
        KeyStream {
            fixed: [0; 8],
            first: 0,
            depth: 0,
            rows: [none; DEPTH],
        }
    }

    /// Makes `depth` counter blocks of each of the invocations from the first on.
    fn make(&mut self, schedule: &Schedule, fixed: &[u8; 8], first: u32, depth: usize)
        requires { depth ≤ DEPTH }
        ensures fixed { self.new.fixed ≡ fixed.now }
        ensures first { self.new.first ≡ first }
        ensures depth { self.new.depth ≡ depth }
        ensures stream { IsStream GROUP schedule.now fixed.now first depth self.new.rows }
    {
        let mut room = key_room();
        let keys = GroupKeys::new(schedule, &mut room);
        for c in 0..depth {
            self.rows[c] = row_of(&keys, fixed, first, c as u32 + 1);
        }
        self.fixed = *fixed;
        self.first = first;
        self.depth = depth;
    }

    /// The place of an invocation, if `depth` of its counter blocks are present.
    fn place_of(&self, fixed: &[u8; 8], invocation: u32, depth: usize) -> Option<usize>
        ensures place { IfSome result (λ place. self.now.first + place ≡ invocation) }
        ensures group { IfSome result (λ place. place < GROUP) }
        ensures fixed { IfSome result (λ place. self.now.fixed ≡ fixed.now) }
        ensures deep { IfSome result (λ place. depth ≤ self.now.depth) }
    {
        let place = invocation.checked_sub(self.first)? as usize;
        if place < GROUP && depth <= self.depth && self.fixed == *fixed {
            Some(place)
        } else {
            None
        }
    }

    /// The place of an initialisation vector. If it does not have `depth` counter blocks yet, 1 to
    /// 20, they are made for it and for those that follow it.
    pub(crate) fn place_for(&mut self, schedule: &Schedule, iv: &[u8; 12], depth: usize) -> usize
        requires depth { depth ≤ DEPTH }
        requires stream { IsStream GROUP schedule.now self.old.fixed self.old.first self.old.depth
            self.old.rows }
        ensures place { result < GROUP }
        ensures number { self.new.first + result < 2 ^ 32 }
        ensures iv { iv.now ≡ self.new.fixed ++ to_be_bytes w32 (self.new.first + result) }
        ensures deep { depth ≤ self.new.depth }
        ensures stream { IsStream GROUP schedule.now self.new.fixed self.new.first self.new.depth
            self.new.rows }
    {
        let (fixed, invocation) = fields_of(iv);
        if let Some(place) = self.place_of(&fixed, invocation, depth) {
            return place;
        }
        self.make(schedule, &fixed, invocation, depth);
        0
    }

    /// GCTR on a text in place, from the counter block after J0 on, for the invocation at this
    /// place. It returns J0 encrypted.
    pub(crate) fn encipher(&self, place: usize, text: &mut [u8]) -> Block
        requires place { place < GROUP }
        requires number { self.now.first + place < 2 ^ 32 }
        requires text { length text.old + 16 ≤ 16 * self.now.depth }
        ensures text { (key : List ℕ)
            → IsStream GROUP key self.now.fixed self.now.first self.now.depth self.now.rows
            → text.new ≡ ciphertext_of key
            (self.now.fixed ++ to_be_bytes w32 (self.now.first + place)) text.old }
        ensures mask { (key : List ℕ)
            → IsStream GROUP key self.now.fixed self.now.first self.now.depth self.now.rows
            → result ≡ encrypt key (pre_counter_block
            (self.now.fixed ++ to_be_bytes w32 (self.now.first + place))) }
    {
        for i in 0..text.len().div_ceil(16) {
            xor_block(text, 16 * i, self.rows[i + 1].get(place));
        }
        *self.rows[0].get(place)
    }
}
