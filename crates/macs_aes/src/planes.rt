//! Blocks in eight planes of bits, and the cipher's four steps on all of them at a time.

ghost use Rattle.std.specs.Prelude.{◌≡◌, ◌<◌, ℕ, List, [], ◌∷◌, map};
ghost use Rattle.macs_aes.specs.Cipher.{mix_columns, shift_rows, sub_bytes, xor_tables};
ghost use Rattle.macs_aes.specs.Blocks.{ArePlanes, blocks_in, octet, octet_basis};
ghost use Rattle.macs_aes.specs.BlockSteps.{AreBlocks};
ghost use Rattle.macs_aes.specs.RoundKeys.{octet_in_words, octets_in_words};

use crate::Block;
use crate::bits::plane;
use crate::columns::{Columns, cross, row};
use crate::mixing::{mix, xor};
use crate::round_keys::{KeyBits, bits_of};
use crate::rows::shift;
use crate::sbox::s_boxes;
use std::marker::Model;
use std::simd::prelude::*;

/// N blocks in eight planes: bit j of lane i of plane k is bit k (the least significant first) of
/// octet j of block i. In contracts its value is the list of the blocks, each a list of 16 octets.
#[derive(Drop)]
pub struct Planes<const N: usize> {
    pub p0: [u16; N],
    pub p1: [u16; N],
    pub p2: [u16; N],
    pub p3: [u16; N],
    pub p4: [u16; N],
    pub p5: [u16; N],
    pub p6: [u16; N],
    pub p7: [u16; N],
}

impl<const N: usize> Model for Planes<N> {
    ghost Value = { List (List ℕ) };

    ghost view = { λ s.
        blocks_in N octet_basis (s.p0 ∷ s.p1 ∷ s.p2 ∷ s.p3 ∷ s.p4 ∷ s.p5 ∷ s.p6 ∷ s.p7 ∷ []) };

    ghost invariant = { λ s.
        ArePlanes N (s.p0 ∷ s.p1 ∷ s.p2 ∷ s.p3 ∷ s.p4 ∷ s.p5 ∷ s.p6 ∷ s.p7 ∷ []) };
}

/// There are N blocks of sixteen octets. It does nothing: its contract is what the steps need to
/// know.
#[inline(always)]
pub fn are_blocks<const N: usize>(x: &Planes<N>)
    ensures { AreBlocks N x.now }
{
    let _octets = &x.p0;
}

/// A round key in each block's place.
#[inline(always)]
fn key_planes<const N: usize>(words: &KeyBits) -> Planes<N>
    ensures { (i j : ℕ) → i < N → j < 16 → octet result i j ≡ octet_in_words words.now j }
{
    Planes {
        p0: Simd::splat(words[0]).to_array(),
        p1: Simd::splat(words[1]).to_array(),
        p2: Simd::splat(words[2]).to_array(),
        p3: Simd::splat(words[3]).to_array(),
        p4: Simd::splat(words[4]).to_array(),
        p5: Simd::splat(words[5]).to_array(),
        p6: Simd::splat(words[6]).to_array(),
        p7: Simd::splat(words[7]).to_array(),
    }
}

impl<const N: usize> Planes<N> {
    /// The planes of N blocks.
    #[inline(always)]
    pub fn load(blocks: &[Block; N]) -> Self
        ensures { result ≡ blocks.now }
    {
        Planes {
            p0: plane(blocks, 0x01),
            p1: plane(blocks, 0x02),
            p2: plane(blocks, 0x04),
            p3: plane(blocks, 0x08),
            p4: plane(blocks, 0x10),
            p5: plane(blocks, 0x20),
            p6: plane(blocks, 0x40),
            p7: plane(blocks, 0x80),
        }
    }

    /// The N blocks.
    #[inline(always)]
    pub fn store(&self) -> [Block; N]
        ensures { result ≡ self.now }
    {
        let rows = cross(&Columns {
            q0: self.p0,
            q1: self.p1,
            q2: self.p2,
            q3: self.p3,
            q4: self.p4,
            q5: self.p5,
            q6: self.p6,
            q7: self.p7,
        });
        let mut stored = [[0; 16]; N];
        for i in 0..N {
            stored[i] = row(&rows, i);
        }
        stored
    }

    /// SubBytes (FIPS 197, 5.1.1) of each block.
    #[inline(always)]
    pub fn sub_bytes(&mut self)
        ensures { self.new ≡ map sub_bytes self.old }
    {
        are_blocks(self);
        *self = s_boxes(self);
        are_blocks(self);
    }

    /// ShiftRows (FIPS 197, 5.1.2) of each block.
    #[inline(always)]
    pub fn shift_rows(&mut self)
        ensures { self.new ≡ map shift_rows self.old }
    {
        are_blocks(self);
        *self = shift(self);
        are_blocks(self);
    }

    /// MixColumns (FIPS 197, 5.1.3) of each block.
    #[inline(always)]
    pub fn mix_columns(&mut self)
        ensures { self.new ≡ map mix_columns self.old }
    {
        are_blocks(self);
        *self = mix(self);
        are_blocks(self);
    }

    /// AddRoundKey (FIPS 197, 5.1.4) of each block, with a round key of 16 octets.
    #[inline(always)]
    pub fn add_round_key(&mut self, key: &Block)
        ensures { self.new ≡ map (λ s. xor_tables s key.now) self.old }
    {
        self.add_bits(&bits_of(key));
    }

    /// AddRoundKey of each block, with the bits of a round key.
    #[inline(always)]
    pub(crate) fn add_bits(&mut self, key: &KeyBits)
        ensures { self.new ≡ map (λ s. xor_tables s (octets_in_words key.now)) self.old }
    {
        are_blocks(self);
        *self = xor(self, &key_planes(key));
        are_blocks(self);
    }
}
