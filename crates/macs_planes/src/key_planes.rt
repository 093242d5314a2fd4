//! Round keys in planes: each block of the planes is the key.

ghost use Rattle.std.specs.Prelude.{◌≡◌, ◌<◌, ◌≤◌, ℕ, List, [], ◌∷◌, ◌*◌, ◌/◌, ◌%◌, get_or, length};
ghost use Rattle.std.specs.Prelude.{slice_index};
ghost use Rattle.macs_aes.specs.Cipher.{round_key};
ghost use Rattle.macs_aes.specs.KeyExpansion.{key_words, rounds_of};
ghost use Rattle.macs_planes.specs.Across.{AreKeyPlanes, IsKeyPlanes, octet_of_words, turned_back};
ghost use Rattle.macs_aes.specs.Bits.{tested};
ghost use Rattle.macs_aes.specs.Blocks.{ArePlanes, blocks_in, octet_basis};

use crate::places::{LANES, OCTETS, PlacesTable, moved, octet_in, octets_of_words};
use macs_aes::{Block, Planes, Schedule};
use std::marker::Model;
use std::simd::prelude::*;

/// The maximum number of round keys: one for each of fourteen rounds, and one before the first.
pub const ROUND_KEYS: usize = 15;

/// Where an octet comes from, so that as many turns as the index says bring it back.
const BACK: [PlacesTable; 4] = [
    [
        0, 1, 2, 3, 4, 5, 6, 7, 8, 9, 10, 11, 12, 13, 14, 15, 0, 1, 2, 3, 4, 5, 6, 7, 8, 9, 10, 11,
        12, 13, 14, 15,
    ],
    [
        0, 13, 10, 7, 4, 1, 14, 11, 8, 5, 2, 15, 12, 9, 6, 3, 0, 13, 10, 7, 4, 1, 14, 11, 8, 5, 2,
        15, 12, 9, 6, 3,
    ],
    [
        0, 9, 2, 11, 4, 13, 6, 15, 8, 1, 10, 3, 12, 5, 14, 7, 0, 9, 2, 11, 4, 13, 6, 15, 8, 1, 10,
        3, 12, 5, 14, 7,
    ],
    [
        0, 5, 10, 15, 4, 9, 14, 3, 8, 13, 2, 7, 12, 1, 6, 11, 0, 5, 10, 15, 4, 9, 14, 3, 8, 13, 2,
        7, 12, 1, 6, 11,
    ],
];

/// A round key in eight planes, in each block's place. In clauses it is the list of the planes.
#[derive(Clone, Copy)]
pub struct KeyPlanes {
    p0: [u16; LANES],
    p1: [u16; LANES],
    p2: [u16; LANES],
    p3: [u16; LANES],
    p4: [u16; LANES],
    p5: [u16; LANES],
    p6: [u16; LANES],
    p7: [u16; LANES],
}

impl Model for KeyPlanes {
    ghost Value = { List (List ℕ) };

    ghost view = { λ k. k.p0 ∷ k.p1 ∷ k.p2 ∷ k.p3 ∷ k.p4 ∷ k.p5 ∷ k.p6 ∷ k.p7 ∷ [] };

    ghost inverse = { λ v.
        record {
          p0 = get_or v 0 [];
          p1 = get_or v 1 [];
          p2 = get_or v 2 [];
          p3 = get_or v 3 [];
          p4 = get_or v 4 [];
          p5 = get_or v 5 [];
          p6 = get_or v 6 [];
          p7 = get_or v 7 [];
        } };
}

impl KeyPlanes {
    /// A round key with rows that must still be turned `turns` times.
    #[inline(always)]
    pub(crate) fn of(key: &Block, turns: usize) -> Self
        requires { turns < 4 }
        ensures { IsKeyPlanes LANES (turned_back turns key.now) result }
    {
        let words = moved(Simd::from_array(repeated(key)), &BACK[turns]);
        let octets = octets_of_words(Simd::from_array(words));
        KeyPlanes {
            p0: bit_plane(octets, 0x01),
            p1: bit_plane(octets, 0x02),
            p2: bit_plane(octets, 0x04),
            p3: bit_plane(octets, 0x08),
            p4: bit_plane(octets, 0x10),
            p5: bit_plane(octets, 0x20),
            p6: bit_plane(octets, 0x40),
            p7: bit_plane(octets, 0x80),
        }
    }

    /// The same as planes of blocks.
    #[inline(always)]
    pub(crate) fn planes(&self) -> Planes<LANES>
        requires { ArePlanes LANES self.now }
        ensures { result ≡ blocks_in LANES octet_basis self.now }
    {
        Planes {
            p0: self.p0,
            p1: self.p1,
            p2: self.p2,
            p3: self.p3,
            p4: self.p4,
            p5: self.p5,
            p6: self.p6,
            p7: self.p7,
        }
    }
}

/// A block's octets, once or twice.
#[inline(always)]
fn repeated(block: &Block) -> [u16; LANES]
    ensures lanes { length result ≡ LANES }
    ensures octets { (m : ℕ) → m < OCTETS
        → octet_of_words result m ≡ slice_index block.now (m % 16) }
{
    let mut octets = [0u8; OCTETS];
    for m in 0..OCTETS {
        octets[m] = octet_in(block, m % 16);
    }
    Simd::<u16, LANES>::from_le_bytes(Simd::<u8, OCTETS>::from_array(octets)).to_array()
}

/// Ones in each octet that has the bit of the mask, a power of two, and zeros in the others.
#[inline(always)]
fn bit_plane(octets: Simd<u8, OCTETS>, mask: u8) -> [u16; LANES]
    ensures lanes { length result ≡ LANES }
    ensures octets { (m : ℕ) → m < OCTETS
        → octet_of_words result m ≡ tested mask (get_or octets m 0) * 255 }
    ensures small { (m : ℕ) → m < OCTETS → get_or octets m 0 < 256 }
{
    let masks = Simd::splat(mask);
    let ones = (octets & masks)
        .simd_eq(masks)
        .select(Simd::splat(0xff), Simd::splat(0));
    Simd::<u16, LANES>::from_le_bytes(ones).to_array()
}

/// A buffer for the round keys of a schedule.
#[inline(always)]
pub fn key_room() -> [KeyPlanes; ROUND_KEYS] {
    let none = [0; LANES];
    [KeyPlanes {
        p0: none,
        p1: none,
        p2: none,
        p3: none,
        p4: none,
        p5: none,
        p6: none,
        p7: none,
    }; ROUND_KEYS]
}

/// All round keys of a schedule, in the caller's buffer. Anything after those of a short key is not
/// read.
#[inline(always)]
pub(crate) fn fill(keys: &mut [KeyPlanes; ROUND_KEYS], schedule: &Schedule)
    ensures { AreKeyPlanes LANES schedule.now keys.new }
{
    for round in 0..schedule.rounds() + 1 {
        keys[round] = KeyPlanes::of(&schedule.round_key(round), round % 4);
    }
}
