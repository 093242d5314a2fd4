//! Blocks across the lanes of planes, and the cipher's four steps on all of them at a time.

ghost use Rattle.std.specs.Prelude.{◌≡◌, ◌≢◌, ◌<◌, ℕ, List, [], ◌+◌, ◌*◌, ◌/◌, ◌%◌, get_or, length};
ghost use Rattle.std.specs.Prelude.{map, slice_index};
ghost use Rattle.std.specs.List.{range_with_len};
ghost use Rattle.macs_aes.specs.Cipher.{mix_columns, mixed_octet, shift_rows, sub_bytes};
ghost use Rattle.macs_planes.specs.Across.{IsKeyPlanes, blocks_across, octet_at, octet_of_words};
ghost use Rattle.macs_planes.specs.Across.{row_below, turned};
ghost use Rattle.macs_planes.specs.Counters.{numbered};
ghost use Rattle.macs_aes.specs.Bits.{IsBlock};
ghost use Rattle.macs_aes.specs.Blocks.{ArePlanes, octet};
ghost use Rattle.macs_aes.specs.RoundKeys.{keyed};

use crate::counters::numbers;
use crate::key_planes::KeyPlanes;
use crate::places::{LANES, OCTETS, PlacesTable, moved_each, octet_in};
use macs_aes::Block;
use macs_aes::columns::{Columns, cross};
use macs_aes::mixing::{twice, xor};
use macs_aes::planes::{Planes, are_blocks};
use macs_aes::sbox::s_boxes;
use std::marker::Model;
use std::simd::prelude::*;

/// One row below in its column, for rows that must still be turned as often as the index says.
const NEXT: [PlacesTable; 4] = [
    [
        1, 2, 3, 0, 5, 6, 7, 4, 9, 10, 11, 8, 13, 14, 15, 12, 1, 2, 3, 0, 5, 6, 7, 4, 9, 10, 11, 8,
        13, 14, 15, 12,
    ],
    [
        5, 6, 7, 4, 9, 10, 11, 8, 13, 14, 15, 12, 1, 2, 3, 0, 5, 6, 7, 4, 9, 10, 11, 8, 13, 14, 15,
        12, 1, 2, 3, 0,
    ],
    [
        9, 10, 11, 8, 13, 14, 15, 12, 1, 2, 3, 0, 5, 6, 7, 4, 9, 10, 11, 8, 13, 14, 15, 12, 1, 2,
        3, 0, 5, 6, 7, 4,
    ],
    [
        13, 14, 15, 12, 1, 2, 3, 0, 5, 6, 7, 4, 9, 10, 11, 8, 13, 14, 15, 12, 1, 2, 3, 0, 5, 6, 7,
        4, 9, 10, 11, 8,
    ],
];

/// Two rows below in its column, for rows that must still be turned as often as the index says.
const AFTER: [PlacesTable; 4] = [
    [
        2, 3, 0, 1, 6, 7, 4, 5, 10, 11, 8, 9, 14, 15, 12, 13, 2, 3, 0, 1, 6, 7, 4, 5, 10, 11, 8, 9,
        14, 15, 12, 13,
    ],
    [
        10, 11, 8, 9, 14, 15, 12, 13, 2, 3, 0, 1, 6, 7, 4, 5, 10, 11, 8, 9, 14, 15, 12, 13, 2, 3,
        0, 1, 6, 7, 4, 5,
    ],
    [
        2, 3, 0, 1, 6, 7, 4, 5, 10, 11, 8, 9, 14, 15, 12, 13, 2, 3, 0, 1, 6, 7, 4, 5, 10, 11, 8, 9,
        14, 15, 12, 13,
    ],
    [
        10, 11, 8, 9, 14, 15, 12, 13, 2, 3, 0, 1, 6, 7, 4, 5, 10, 11, 8, 9, 14, 15, 12, 13, 2, 3,
        0, 1, 6, 7, 4, 5,
    ],
];

/// Where ShiftRows takes an octet from when it is applied twice.
const TWICE: PlacesTable = [
    0, 9, 2, 11, 4, 13, 6, 15, 8, 1, 10, 3, 12, 5, 14, 7, 0, 9, 2, 11, 4, 13, 6, 15, 8, 1, 10, 3,
    12, 5, 14, 7,
];

/// As many blocks as a vector register has words of 16 bits, across the lanes of eight planes: bit
/// n of octet 16 g + j of plane k is bit k (the least significant first) of octet j of block 8 g +
/// n. In clauses it is the list of the blocks, each a list of 16 octets.
#[derive(Drop)]
pub(crate) struct Across {
    rows: Planes<LANES>,
}

impl Model for Across {
    ghost use Rattle.std.specs.Prelude.{List, ℕ};
    ghost use Rattle.macs_planes.specs.Across.{blocks_across};
    ghost use Rattle.macs_planes.specs.declared.places.TheConstants.{LANES};

    ghost Value = { List (List ℕ) };

    ghost view = { λ s. blocks_across LANES s.rows };
}

/// The octets of block i, followed by those of block i + 8 if there are sixteen blocks.
#[inline(always)]
fn side_by_side(blocks: &[Block; LANES], i: usize) -> [u16; LANES]
    requires { i < 8 }
    ensures lanes { length result ≡ LANES }
    ensures octets { (m : ℕ) → m < OCTETS
        → octet_of_words result m ≡ octet blocks.now (8 * (m / 16) + i) (m % 16) }
    ensures whole { (g : ℕ) → g < LANES / 8 → IsBlock (get_or blocks.now (8 * g + i) []) }
{
    let mut octets = [0u8; OCTETS];
    for m in 0..OCTETS {
        octets[m] = octet_in(&blocks[8 * (m / 16) + i], m % 16);
    }
    Simd::<u16, LANES>::from_le_bytes(Simd::<u8, OCTETS>::from_array(octets)).to_array()
}

/// Sixteen octets of words.
#[inline(always)]
fn sixteen_of(words: Simd<u16, LANES>, g: usize) -> Block
    requires { g < LANES / 8 }
    ensures size { length result ≡ 16 }
    ensures octets { (j : ℕ) → j < 16 → get_or result j 0 ≡ octet_of_words words (16 * g + j) }
{
    let octets = words.to_le_bytes().to_array();
    let mut block = [0; 16];
    block.copy_from_slice(&octets[16 * g..16 * g + 16]);
    block
}

/// Stores the octets of words as block i, and those after them as block i + 8 if there are sixteen
/// blocks.
#[inline(always)]
fn put_apart(blocks: &mut [Block; LANES], i: usize, words: Simd<u16, LANES>)
    requires { i < 8 }
    ensures size { length blocks.new ≡ LANES }
    ensures sizes { (g : ℕ) → g < LANES / 8 → length (get_or blocks.new (8 * g + i) []) ≡ 16 }
    ensures octets { (g j : ℕ) → g < LANES / 8 → j < 16
        → octet blocks.new (8 * g + i) j ≡ octet_of_words words (16 * g + j) }
    ensures others { (n : ℕ) → n % 8 ≢ i → get_or blocks.new n [] ≡ get_or blocks.old n [] }
{
    for g in 0..LANES / 8 {
        blocks[8 * g + i] = sixteen_of(words, g);
    }
}

/// Planes of blocks across lanes.
#[inline(always)]
fn loaded(blocks: &[Block; LANES]) -> Planes<LANES>
    ensures { blocks_across LANES result ≡ blocks.now }
{
    let crossed = cross(&Columns {
        q0: side_by_side(blocks, 0),
        q1: side_by_side(blocks, 1),
        q2: side_by_side(blocks, 2),
        q3: side_by_side(blocks, 3),
        q4: side_by_side(blocks, 4),
        q5: side_by_side(blocks, 5),
        q6: side_by_side(blocks, 6),
        q7: side_by_side(blocks, 7),
    });
    let Columns {
        q0,
        q1,
        q2,
        q3,
        q4,
        q5,
        q6,
        q7,
    } = crossed;
    Planes {
        p0: q0,
        p1: q1,
        p2: q2,
        p3: q3,
        p4: q4,
        p5: q5,
        p6: q6,
        p7: q7,
    }
}

/// The blocks across the lanes of planes. Each goes to its place by a call of its own, so that the
/// compiler takes it from a register.
#[inline(always)]
fn store_all(x: &Planes<LANES>, blocks: &mut [Block; LANES])
    ensures { blocks.new ≡ blocks_across LANES x.now }
{
    let crossed = cross(&Columns {
        q0: x.p0,
        q1: x.p1,
        q2: x.p2,
        q3: x.p3,
        q4: x.p4,
        q5: x.p5,
        q6: x.p6,
        q7: x.p7,
    });
    put_apart(blocks, 0, Simd::from_array(crossed.q0));
    put_apart(blocks, 1, Simd::from_array(crossed.q1));
    put_apart(blocks, 2, Simd::from_array(crossed.q2));
    put_apart(blocks, 3, Simd::from_array(crossed.q3));
    put_apart(blocks, 4, Simd::from_array(crossed.q4));
    put_apart(blocks, 5, Simd::from_array(crossed.q5));
    put_apart(blocks, 6, Simd::from_array(crossed.q6));
    put_apart(blocks, 7, Simd::from_array(crossed.q7));
}

/// Each octet mixed with the three below it in its column, in blocks whose rows must still be
/// turned `turns` times.
#[inline(always)]
fn mixed(x: &Planes<LANES>, turns: usize) -> Planes<LANES>
    requires { turns < 4 }
    ensures { (m n : ℕ) → m < OCTETS → n < 8
        → octet_at result m n
        ≡ mixed_octet (octet_at x.now m n) (octet_at x.now (16 * (m / 16) + row_below turns 1
        (m % 16)) n) (octet_at x.now (16 * (m / 16) + row_below turns 2 (m % 16)) n)
        (octet_at x.now (16 * (m / 16) + row_below turns 3 (m % 16)) n) }
{
    are_blocks(x);
    let next = moved_each(x, &NEXT[turns]);
    let pair = xor(x, &next);
    xor(
        &xor(&twice(&pair), &next),
        &moved_each(&pair, &AFTER[turns]),
    )
}

impl Across {
    /// The blocks of a group that equal the given one, except for the last octet, to which the
    /// number of each is added. No octet is crossed: the planes of one block in each place are
    /// those of a round key.
    #[inline(always)]
    pub(crate) fn numbered(first: &Block) -> Self
        requires { slice_index first.now 15 % LANES ≡ 0 }
        ensures { result ≡ map (numbered first.now) (range_with_len 0 LANES) }
    {
        let same = KeyPlanes::of(first, 0);
        let rows = xor(&same.planes(), &numbers());
        Across { rows }
    }

    /// The blocks, across lanes.
    #[inline(always)]
    pub(crate) fn load(blocks: &[Block; LANES]) -> Self
        ensures { result ≡ blocks.now }
    {
        let rows = loaded(blocks);
        Across { rows }
    }

    /// The blocks, each in its place.
    #[inline(always)]
    pub(crate) fn store(&self, blocks: &mut [Block; LANES])
        ensures { blocks.new ≡ self.now }
    {
        store_all(&self.rows, blocks);
    }

    /// SubBytes (FIPS 197, 5.1.1) of each block.
    #[inline(always)]
    pub(crate) fn sub_bytes(&mut self)
        ensures { self.new ≡ map sub_bytes self.old }
    {
        let rows = s_boxes(&self.rows);
        *self = Across { rows };
    }

    /// ShiftRows (FIPS 197, 5.1.2) of each block, twice.
    #[inline(always)]
    pub(crate) fn shift_rows_twice(&mut self)
        ensures { self.new ≡ map (turned 2) self.old }
    {
        let rows = moved_each(&self.rows, &TWICE);
        *self = Across { rows };
    }

    /// MixColumns (FIPS 197, 5.1.3) of each block, whose rows ShiftRows must still turn `turns`
    /// times, before and after.
    #[inline(always)]
    pub(crate) fn mix_columns(&mut self, turns: usize)
        requires { turns < 4 }
        ensures { map (turned turns) self.new ≡ map mix_columns (map (turned turns) self.old) }
    {
        let rows = mixed(&self.rows, turns);
        *self = Across { rows };
    }

    /// AddRoundKey (FIPS 197, 5.1.4) of each block.
    #[inline(always)]
    pub(crate) fn add_round_key(&mut self, key: &KeyPlanes)
        requires { ArePlanes LANES key.now }
        ensures { (k : List ℕ) → IsKeyPlanes LANES k key.now → self.new ≡ keyed k self.old }
    {
        let rows = xor(&self.rows, &key.planes());
        *self = Across { rows };
    }
}
