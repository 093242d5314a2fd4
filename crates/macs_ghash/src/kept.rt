//! A hash subkey whose tables are kept, for a key that is used often.

ghost use Rattle.std.specs.Prelude.{◌≡◌, ◌^◌, ◌<◌, length};
ghost use Rattle.std.specs.Int.{to_be_bytes, w128};
ghost use Rattle.macs_gf.specs.Ghash.{blocks_of, ghash, hash_input};

use crate::filling::room;
use crate::powers::Powers;
use crate::strides::hashed;
use crate::tables::{EIGHT, Part};
use std::marker::Model;
use std::simd::prelude::*;

/// A hash subkey (NIST SP 800-38D, 7.1, step 1) with the tables of its eight powers, which take 2
/// KB. In clauses it is the subkey.
#[derive(Drop)]
pub struct Tables {
    key: u128,
    eight: [[Part; EIGHT]; 16],
}

impl Model for Tables {
    ghost use Rattle.std.specs.Prelude.{◌-◌, ◌^◌, ◌<◌, ℕ};
    ghost use Rattle.macs_gf.specs.Ghash.{subkey_power};
    ghost use Rattle.macs_ghash.specs.Tables.{AreTables};
    ghost use Rattle.macs_ghash.specs.declared.octets.TheConstants.{SIXTEENS};
    ghost use Rattle.macs_ghash.specs.declared.tables.TheConstants.{EIGHT};

    ghost Value = { ℕ };

    ghost view = { λ s. s.key };

    ghost invariant = { λ s. (s.key < 2 ^ 128)
        × AreTables SIXTEENS EIGHT (λ l. subkey_power s.key (8 - l)) s.eight };
}

impl Tables {
    /// The tables of a subkey.
    pub fn new(powers: &Powers) -> Self
        ensures { result ≡ powers.now }
    {
        let mut eight = room();
        let key = powers.fill_eight(&mut eight);
        Tables { key, eight }
    }

    /// GHASH as by `ghash`, of fewer than 2^32 octets each, without making a table.
    pub fn ghash(&self, aad: &[u8], text: &[u8]) -> [u8; 16]
        requires aad { length aad.now < 2 ^ 32 }
        requires text { length text.now < 2 ^ 32 }
        ensures { result
            ≡ to_be_bytes w128 (ghash self.now (blocks_of (hash_input aad.now text.now))) }
    {
        let count = aad.len().div_ceil(16) + text.len().div_ceil(16) + 1;
        hashed::<EIGHT, 128>(&self.eight, aad, text, count).to_be_bytes()
    }
}
