//! Octets side by side in a vector register: sixteen, or twice sixteen, each sixteen by itself.
#![tactic(auto, using(std::proofs::lemmas::Simd::shifts_fit_splat))]

ghost use Rattle.std.specs.Prelude.{◌≡◌, ◌<◌, ◌*◌, ◌/◌, ◌%◌, ◌^◌, ℕ, bit_or, bit_xor, get_or};
ghost use Rattle.std.specs.Prelude.{length};
ghost use Rattle.std.specs.List.{All};
ghost use Rattle.macs_ghash.specs.Tables.{block_of_octets, octets_in, pushed, sum_of};

use macs_gf::REGISTER_BITS;
use std::simd::prelude::*;

/// How many octets a vector register has.
pub(crate) const OCTETS: usize = REGISTER_BITS / 8;

/// How many blocks of sixteen octets a vector register has.
pub(crate) const SIXTEENS: usize = REGISTER_BITS / 128;

/// The place before each, and none before the first of each sixteen.
pub(crate) const BEFORE: [u8; 32] = [
    128, 0, 1, 2, 3, 4, 5, 6, 7, 8, 9, 10, 11, 12, 13, 14, 128, 0, 1, 2, 3, 4, 5, 6, 7, 8, 9, 10,
    11, 12, 13, 14,
];

/// The last place of each sixteen at its first, and none elsewhere.
pub(crate) const LAST: [u8; 32] = [
    15, 128, 128, 128, 128, 128, 128, 128, 128, 128, 128, 128, 128, 128, 128, 128, 15, 128, 128,
    128, 128, 128, 128, 128, 128, 128, 128, 128, 128, 128, 128, 128,
];

/// Octets are below 2^8: a proof that calls this learns it about octets behind a reference.
#[inline(always)]
pub(crate) fn octets_in_range(octets: &[u8])
    ensures { All (λ octet. octet < 2 ^ 8) octets.now }
{}

/// In each place the octet that the table has, in the same sixteen, where the number there says.
#[inline(always)]
pub(crate) fn found(table: Simd<u8, OCTETS>, at: Simd<u8, OCTETS>) -> Simd<u8, OCTETS>
    requires { (g j : ℕ) → g < SIXTEENS → j < 16 → octets_in at g j < 16 }
    ensures { (g j : ℕ) → g < SIXTEENS → j < 16
        → octets_in result g j ≡ octets_in table g (octets_in at g j) }
{
    table.swizzle_dyn_within::<16>(at)
}

/// The left half of each octet.
#[inline(always)]
pub(crate) fn left_halves(x: Simd<u8, OCTETS>) -> Simd<u8, OCTETS>
    ensures { (g j : ℕ) → g < SIXTEENS → j < 16 → octets_in result g j ≡ octets_in x g j / 16 }
{
    x >> 4
}

/// The right half of each octet.
#[inline(always)]
pub(crate) fn right_halves(x: Simd<u8, OCTETS>) -> Simd<u8, OCTETS>
    ensures { (g j : ℕ) → g < SIXTEENS → j < 16 → octets_in result g j ≡ octets_in x g j % 16 }
{
    x & Simd::splat(15)
}

/// The right half of each octet, moved to the place of the left one.
#[inline(always)]
fn raised(x: Simd<u8, OCTETS>) -> Simd<u8, OCTETS>
    ensures { (g j : ℕ) → g < SIXTEENS → j < 16 → octets_in result g j ≡ octets_in x g j % 16 * 16 }
{
    x << 4
}

/// The sums of the octets of two vectors.
#[inline(always)]
pub(crate) fn sum(x: Simd<u8, OCTETS>, y: Simd<u8, OCTETS>) -> Simd<u8, OCTETS>
    ensures { (g j : ℕ) → g < SIXTEENS → j < 16
        → octets_in result g j ≡ bit_xor (octets_in x g j) (octets_in y g j) }
{
    x ^ y
}

/// The octets of two vectors, of which in each place one has zero. It is an `or` and not an `xor`,
/// since compilers merge two shuffles and an `or` into one shuffle.
#[inline(always)]
fn either(x: Simd<u8, OCTETS>, y: Simd<u8, OCTETS>) -> Simd<u8, OCTETS>
    ensures { (g j : ℕ) → g < SIXTEENS → j < 16
        → octets_in result g j ≡ bit_or (octets_in x g j) (octets_in y g j) }
{
    x | y
}

/// Each octet one place further to the right in its sixteen, and zero in front.
#[inline(always)]
fn further(x: Simd<u8, OCTETS>) -> Simd<u8, OCTETS>
    ensures { (g j : ℕ) → g < SIXTEENS → j < 16
        → octets_in result g j ≡ pushed 0 (octets_in x g) j }
{
    x.swizzle_dyn_within::<16>(Simd::<u8, OCTETS>::from_slice(&BEFORE))
}

/// The last octet of each sixteen in its first place, and zeros after it.
#[inline(always)]
fn last_first(x: Simd<u8, OCTETS>) -> Simd<u8, OCTETS>
    ensures { (g j : ℕ) → g < SIXTEENS → j < 16
        → octets_in result g j ≡ pushed (octets_in x g 15) (λ i. 0) j }
{
    x.swizzle_dyn_within::<16>(Simd::<u8, OCTETS>::from_slice(&LAST))
}

/// Sums of octets, and beside them what went beyond their right end.
#[derive(Clone, Copy)]
pub(crate) struct OctetSums {
    pub(crate) low: Simd<u8, OCTETS>,
    pub(crate) high: Simd<u8, OCTETS>,
}

/// The sums one octet further to the right; added are octets, and others half an octet further to
/// the right.
#[inline(always)]
pub(crate) fn next_sums(
    sums: OctetSums,
    left: Simd<u8, OCTETS>,
    right: Simd<u8, OCTETS>,
) -> OctetSums
    ensures low { (g j : ℕ) → g < SIXTEENS → j < 16
        → octets_in result.low g j
        ≡ bit_xor
        (pushed 0 (λ i. bit_xor (octets_in sums.low g i) (octets_in right g i % 16 * 16)) j)
        (bit_xor (octets_in left g j) (octets_in right g j / 16)) }
    ensures high { (g j : ℕ) → g < SIXTEENS → j < 16
        → octets_in result.high g j
        ≡ pushed
        (bit_xor (octets_in sums.low g 15) (octets_in right g 15 % 16 * 16))
        (octets_in sums.high g) j }
{
    let low = sum(sums.low, raised(right));
    let added = sum(left, left_halves(right));
    OctetSums {
        low: sum(further(low), added),
        high: either(last_first(low), further(sums.high)),
    }
}

/// Sixteen octets.
#[inline(always)]
fn sixteen_of(x: Simd<u8, OCTETS>, g: usize) -> [u8; 16]
    requires { g < SIXTEENS }
    ensures size { length result ≡ 16 }
    ensures octets { (j : ℕ) → j < 16 → get_or result j 0 ≡ octets_in x g j }
    ensures small { (j : ℕ) → j < 16 → octets_in x g j < 256 }
{
    let octets = x.to_array();
    let mut block = [0u8; 16];
    for j in 0..16 {
        block[j] = octets[16 * g + j];
    }
    block
}

/// The sum of the blocks that a register has, as a number.
#[inline(always)]
pub(crate) fn number(x: Simd<u8, OCTETS>) -> u128
    ensures { result ≡ sum_of (λ g. block_of_octets (octets_in x g)) SIXTEENS }
{
    let mut total = 0u128;
    for g in 0..SIXTEENS {
        total ^= u128::from_be_bytes(sixteen_of(x, g));
    }
    total
}
