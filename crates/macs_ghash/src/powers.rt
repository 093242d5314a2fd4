//! A hash subkey with its powers.

ghost use Rattle.std.specs.Prelude.{◌≡◌, ◌<◌, ◌+◌, ◌-◌, ◌*◌, ◌/◌, ◌^◌, ℕ, length};
ghost use Rattle.macs_gf.specs.Gf128.{block_product};
ghost use Rattle.macs_gf.specs.Ghash.{blocks_of, ghash, hash_input, subkey_power};
ghost use Rattle.macs_ghash.specs.Tables.{AreEightPowers, AreTables};
ghost use Rattle.macs_ghash.specs.declared.octets.TheConstants.{SIXTEENS};
ghost use Rattle.macs_ghash.specs.declared.tables.TheConstants.{EIGHT, FOUR, TWO};

use crate::filling::{fill, room};
use crate::octets::SIXTEENS;
use crate::strides::{add_state, hashed};
use crate::tables::{EIGHT, FOUR, Part, TWO, products};
use std::marker::Model;
use std::simd::prelude::*;

/// A hash subkey (NIST SP 800-38D, 7.1, step 1) prepared for `ghash`: its powers from the eighth
/// down to the first, and the tables of the last four of them, which take 1 KB. In clauses it is
/// the subkey.
#[derive(Drop)]
pub struct Powers {
    key: u128,
    powers: [u128; 8],
    four: [[Part; FOUR]; 16],
}

impl Model for Powers {
    ghost Value = { ℕ };

    ghost view = { λ s. s.key };

    ghost invariant = { λ s. AreEightPowers s.key s.powers
        × AreTables SIXTEENS FOUR (λ l. subkey_power s.key (4 - l)) s.four };
}

/// The product of a block and the first of two powers.
fn product_by_first(tables: &[[Part; TWO]; 16], block: u128) -> u128
    ensures { (powers : ℕ → ℕ) → AreTables SIXTEENS TWO powers tables.now
        → result ≡ block_product block (powers 0) }
{
    let mut octets = [0u8; 32];
    add_state(&mut octets, block);
    products(tables, &octets)
}

/// The tables of the square of a key and of the key, made in the caller's buffer. Returns the
/// square.
fn fill_pair(pair: &mut [[Part; TWO]; 16], key: u128) -> u128
    ensures square { result ≡ subkey_power key 2 }
    ensures tables { AreTables SIXTEENS TWO (λ l. subkey_power key (2 - l)) pair.new }
{
    fill(pair, &[key, key]);
    let square = product_by_first(pair, key);
    fill(pair, &[square, key]);
    square
}

/// The powers of a key, from the eighth down to the first.
fn powers_of(key: u128, square: u128, pair: &[[Part; TWO]; 16]) -> [u128; 8]
    requires square { square ≡ subkey_power key 2 }
    requires tables { AreTables SIXTEENS TWO (λ l. subkey_power key (2 - l)) pair.now }
    ensures { AreEightPowers key result }
{
    let third = product_by_first(pair, key);
    let fourth = product_by_first(pair, square);
    let fifth = product_by_first(pair, third);
    let sixth = product_by_first(pair, fourth);
    let seventh = product_by_first(pair, fifth);
    let eighth = product_by_first(pair, sixth);
    [eighth, seventh, sixth, fifth, fourth, third, square, key]
}

/// The tables of the first four powers of a key, made in the caller's buffer.
fn fill_four(four: &mut [[Part; FOUR]; 16], key: u128, powers: &[u128; 8])
    requires { AreEightPowers key powers.now }
    ensures { AreTables SIXTEENS FOUR (λ l. subkey_power key (4 - l)) four.new }
{
    fill(four, &[powers[4], powers[5], powers[6], powers[7]]);
}

impl Powers {
    /// A hash subkey, prepared.
    pub fn new(h: u128) -> Self
        ensures { result ≡ h }
    {
        let mut pair = room();
        let square = fill_pair(&mut pair, h);
        let powers = powers_of(h, square, &pair);
        let mut four = room();
        fill_four(&mut four, h, &powers);
        Powers {
            key: h,
            powers,
            four,
        }
    }

    /// The hash of few blocks, four a stride.
    pub(crate) fn by_fours(&self, aad: &[u8], text: &[u8], count: usize) -> u128
        requires aad { length aad.now < 2 ^ 32 }
        requires text { length text.now < 2 ^ 32 }
        requires all { count ≡ (length aad.now + 15) / 16 + (length text.now + 15) / 16 + 1 }
        ensures { result ≡ ghash self.now (blocks_of (hash_input aad.now text.now)) }
    {
        hashed::<FOUR, 64>(&self.four, aad, text, count)
    }

    /// The hash of many blocks, eight a stride, under tables of 2 KB that are made for it.
    pub(crate) fn by_eights(&self, aad: &[u8], text: &[u8], count: usize) -> u128
        requires aad { length aad.now < 2 ^ 32 }
        requires text { length text.now < 2 ^ 32 }
        requires all { count ≡ (length aad.now + 15) / 16 + (length text.now + 15) / 16 + 1 }
        ensures { result ≡ ghash self.now (blocks_of (hash_input aad.now text.now)) }
    {
        let mut tables = room();
        self.fill_eight(&mut tables);
        hashed::<EIGHT, 128>(&tables, aad, text, count)
    }

    /// The tables of the eight powers, made in the caller's buffer. Returns the subkey.
    #[inline(always)]
    pub(crate) fn fill_eight(&self, tables: &mut [[Part; EIGHT]; 16]) -> u128
        ensures key { result ≡ self.now }
        ensures tables { AreTables SIXTEENS EIGHT (λ l. subkey_power self.now (8 - l)) tables.new }
    {
        fill(tables, &self.powers);
        self.key
    }
}
