//! Tables of four bits, made from the powers of a hash subkey.

ghost use Rattle.std.specs.Prelude.{◌≡◌, ◌<◌, ◌≤◌, ◌+◌, ◌-◌, ◌*◌, ◌/◌, ◌%◌, ◌^◌, ℕ, [], bit_xor};
ghost use Rattle.std.specs.Prelude.{get_or};
ghost use Rattle.std.specs.Int.{bit_at};
ghost use Rattle.std.specs.List.{All};
ghost use Rattle.macs_gf.specs.Gf128.{times_power, times_x};
ghost use Rattle.macs_ghash.specs.Tables.{AreTables, chosen_octets, nibble_product};
ghost use Rattle.macs_ghash.specs.Tables.{octet_from_left, octets_in};

use crate::octets::{OCTETS, SIXTEENS, sum};
use crate::tables::Part;
use macs_gf::REGISTER_BITS;
use std::simd::prelude::*;

/// The remainder of x^128 (NIST SP 800-38D, 6.3).
const REDUCTION: u128 = 0xE1 << 120;

/// How many lanes of 64 bits a vector register has.
const WORDS: usize = REGISTER_BITS / 64;

/// In row k zero in each place whose number, in its sixteen, has bit k, counted from the highest of
/// four. In the others 128, where a shuffle finds zero.
pub(crate) const NOWHERE: [[u8; 32]; 4] = [
    [
        128, 128, 128, 128, 128, 128, 128, 128, 0, 0, 0, 0, 0, 0, 0, 0, 128, 128, 128, 128, 128,
        128, 128, 128, 0, 0, 0, 0, 0, 0, 0, 0,
    ],
    [
        128, 128, 128, 128, 0, 0, 0, 0, 128, 128, 128, 128, 0, 0, 0, 0, 128, 128, 128, 128, 0, 0,
        0, 0, 128, 128, 128, 128, 0, 0, 0, 0,
    ],
    [
        128, 128, 0, 0, 128, 128, 0, 0, 128, 128, 0, 0, 128, 128, 0, 0, 128, 128, 0, 0, 128, 128,
        0, 0, 128, 128, 0, 0, 128, 128, 0, 0,
    ],
    [
        128, 0, 128, 0, 128, 0, 128, 0, 128, 0, 128, 0, 128, 0, 128, 0, 128, 0, 128, 0, 128, 0,
        128, 0, 128, 0, 128, 0, 128, 0, 128, 0,
    ],
];

/// x times a block.
#[inline(always)]
fn further_by_x(block: u128) -> u128
    ensures { result ≡ times_x block }
{
    (block >> 1) ^ (block % 2 * REDUCTION)
}

/// x times each of several blocks.
#[inline(always)]
fn all_further_by_x<const P: usize>(blocks: &[u128; P]) -> [u128; P]
    ensures { (l : ℕ) → l < P → get_or result l 0 ≡ times_x (get_or blocks.now l 0) }
{
    let mut further = [0u128; P];
    for l in 0..P {
        further[l] = further_by_x(blocks[l]);
    }
    further
}

/// The first 64 bits of a block.
#[inline(always)]
fn first_half(block: u128) -> u64
    ensures { result ≡ block / 2 ^ 64 }
{
    (block >> 64) as u64
}

/// The last 64 bits of a block.
#[inline(always)]
fn second_half(block: u128) -> u64
    ensures { result ≡ block % 2 ^ 64 }
{
    (block & 0xffff_ffff_ffff_ffff) as u64
}

/// The octets of as many blocks as a register has room for: octet b of a block is at the place b ^
/// 7 of its sixteen.
#[inline(always)]
pub(crate) fn octets_of<const P: usize>(blocks: &[u128; P], p: usize) -> Simd<u8, OCTETS>
    requires { SIXTEENS * p + SIXTEENS ≤ P }
    ensures { (g b : ℕ) → g < SIXTEENS → b < 16
        → octets_in result g (bit_xor b 7)
        ≡ octet_from_left (get_or blocks.now (SIXTEENS * p + g) 0) b }
{
    let mut words = [0u64; WORDS];
    for g in 0..SIXTEENS {
        words[2 * g] = first_half(blocks[SIXTEENS * p + g]);
        words[2 * g + 1] = second_half(blocks[SIXTEENS * p + g]);
    }
    Simd::<u64, WORDS>::from_array(words).to_le_bytes()
}

/// The octets of several blocks, part by part.
#[inline(always)]
fn all_octets<const N: usize, const P: usize>(blocks: &[u128; P]) -> [Part; N]
    requires { P ≡ SIXTEENS * N }
    ensures { (p g b : ℕ) → p < N → g < SIXTEENS → b < 16
        → octets_in (get_or result p []) g (bit_xor b 7)
        ≡ octet_from_left (get_or blocks.now (SIXTEENS * p + g) 0) b }
{
    let none = Part {
        octets: Simd::splat(0),
    };
    let mut parts = [none; N];
    for p in 0..N {
        parts[p] = Part {
            octets: octets_of(blocks, p),
        };
    }
    parts
}

/// One octet of each sixteen, in each place whose number has bit k, counted from the highest of
/// four.
#[inline(always)]
fn chosen(x: Simd<u8, OCTETS>, place: u8, k: usize) -> Simd<u8, OCTETS>
    requires place { place < 16 }
    requires bit { k < 4 }
    ensures { (g n : ℕ) → g < SIXTEENS → n < 16
        → octets_in result g n ≡ bit_at n (3 - k) * octets_in x g place }
{
    let places = Simd::splat(place) | Simd::<u8, OCTETS>::from_slice(&NOWHERE[k]);
    x.swizzle_dyn_within::<16>(places)
}

/// A row of tables: one octet of each multiple of each power, from the octets of the powers'
/// multiples by x^0 to x^3.
#[inline(always)]
fn row_of<const N: usize>(
    x0: &[Part; N],
    x1: &[Part; N],
    x2: &[Part; N],
    x3: &[Part; N],
    place: u8,
) -> [Part; N]
    requires { place < 16 }
    ensures { (p g n : ℕ) → p < N → g < SIXTEENS → n < 16
        → octets_in (get_or result p []) g n
        ≡ chosen_octets n
        (octets_in (get_or x0.now p []) g place) (octets_in (get_or x1.now p []) g place)
        (octets_in (get_or x2.now p []) g place) (octets_in (get_or x3.now p []) g place) }
{
    let none = Part {
        octets: Simd::splat(0),
    };
    let mut parts = [none; N];
    for p in 0..N {
        let part0 = x0[p];
        let part1 = x1[p];
        let part2 = x2[p];
        let part3 = x3[p];
        let two = sum(
            chosen(part0.octets, place, 0),
            chosen(part1.octets, place, 1),
        );
        let three = sum(two, chosen(part2.octets, place, 2));
        parts[p] = Part {
            octets: sum(three, chosen(part3.octets, place, 3)),
        };
    }
    parts
}

/// A buffer for tables.
#[inline(always)]
pub(crate) fn room<const N: usize>() -> [[Part; N]; 16] {
    let none = Part {
        octets: Simd::splat(0),
    };
    let row = [none; N];
    [row; 16]
}

/// Blocks are below 2^128: a proof that calls this learns it about blocks behind a reference.
#[inline(always)]
fn blocks_in_range(blocks: &[u128])
    ensures { All (λ block. block < 2 ^ 128) blocks.now }
{}

/// The tables of several powers, made in the caller's buffer.
#[inline(never)]
pub(crate) fn fill<const N: usize, const P: usize>(tables: &mut [[Part; N]; 16], powers: &[u128; P])
    requires size { P ≡ SIXTEENS * N }
    ensures { AreTables SIXTEENS N (λ l. get_or powers.now l 0) tables.new }
{
    blocks_in_range(powers);
    let second = all_further_by_x(powers);
    let third = all_further_by_x(&second);
    let fourth = all_further_by_x(&third);
    let x0 = all_octets(powers);
    let x1 = all_octets(&second);
    let x2 = all_octets(&third);
    let x3 = all_octets(&fourth);
    for b in 0..16u8 {
        tables[b as usize] = row_of(&x0, &x1, &x2, &x3, b ^ 7);
    }
}
