//! Texts with a limit, whose room is reserved before they are written.

use crate::secrets::{wipe, write_digits};
use itoa::Buffer;
use std::alloc::{AllocError, Global};
use std::marker::Model;

/// A text of at most `room` octets. Its memory is reserved when it is made, so that no later call
/// fails for memory. If more is written than fits, the text is cut, and it is lost as a whole: what
/// is left of it is not shown. It is overwritten when it is cleared and when it is dropped.
pub struct Paper {
    octets: Vec<u8>,
    room: usize,
    is_cut: bool,
}

impl Model for Paper {
    ghost use Rattle.std.specs.Prelude.{◌≤◌, length, Some, None, if◌then◌else◌};
    ghost use Rattle.std.specs.Vec.{vec_capacity};
    ghost use Rattle.macs_commands.specs.Papers.{Sheet};

    ghost Value = { Sheet };

    ghost view = { λ paper. record {
      room = paper.room;
      text = if paper.is_cut then None else Some paper.octets.items;
    } };

    ghost invariant = { λ paper. (length paper.octets.items ≤ paper.room)
        × (paper.room ≤ vec_capacity paper.octets) };
}

impl Drop for Paper {
    fn drop(self) {
        let Paper {
            mut octets,
            room: _,
            is_cut: _,
        } = self;
        wipe(octets.as_mut_slice());
    }
}

impl Paper {
    ghost use Rattle.std.specs.Prelude.{◌≡◌, ◌∷◌, [], List, ℕ, IfOk, decimal, option_map};
    ghost use Rattle.hex.specs.Hex.{encode_lower};
    ghost use Rattle.macs_commands.specs.Papers.{IsWritten, Writes, blank, fitting};

    /// A blank paper for `room` octets. Fails if memory is refused.
    pub fn new(alloc: Global, room: usize) -> Result<Paper, AllocError>
        ensures { IfOk result (λ paper. paper ≡ blank room) }
    {
        let octets = Vec::with_capacity(alloc, room)?;
        Ok(Paper {
            octets,
            room,
            is_cut: false,
        })
    }

    /// Overwrites the text. The paper is blank again, with the same room.
    pub fn clear(&mut self)
        ensures { self.new ≡ blank self.old.room }
    {
        wipe(self.octets.as_mut_slice());
        self.octets.clear();
        self.is_cut = false;
    }

    /// Writes octets.
    pub fn put_octets(&mut self, octets: &[u8])
        ensures { Writes self.old self.new octets.now }
    {
        if octets.len() > self.room - self.octets.len() {
            self.is_cut = true;
        } else {
            let _ = self.octets.extend_from_slice(octets);
        }
    }

    /// Writes a text.
    pub fn put(&mut self, text: &str)
        ensures { Writes self.old self.new text.now }
    {
        self.put_octets(text.as_bytes());
    }

    /// Writes a number in decimal.
    pub fn number(&mut self, number: u64)
        ensures { Writes self.old self.new (decimal number) }
    {
        let mut digits = Buffer::new();
        self.put(digits.format(number));
    }

    /// Writes octets as lower-case hexadecimal digits, two an octet. No branch and no address
    /// depends on a digit's value.
    pub fn hex(&mut self, octets: &[u8])
        ensures { Writes self.old self.new (encode_lower octets.now) }
    {
        for &octet in octets {
            let mut pair = [0; 2];
            write_digits(&[octet], &mut pair);
            self.put_octets(&pair);
        }
    }

    /// Writes a line feed.
    pub fn end_line(&mut self)
        ensures { Writes self.old self.new (10 ∷ []) }
    {
        self.put_octets(b"\n");
    }

    /// The text, `None` if more was written than fits.
    pub fn text(&self) -> Option<&[u8]>
        ensures { (text : List ℕ) → IsWritten self.now text
            → option_map (λ octets. octets.now) result ≡ fitting self.now.room text }
    {
        if self.is_cut {
            return None;
        }
        Some(self.octets.as_slice())
    }
}
