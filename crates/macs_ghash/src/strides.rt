//! A string taken in by strides of several blocks, under tables of as many powers of the hash
//! subkey.

ghost use Rattle.std.specs.Prelude.{◌≡◌, ◌≢◌, ◌+◌, ◌*◌, ◌/◌, ◌^◌, ◌<◌, ◌≤◌, ◌-◌, ℕ, bit_xor};
ghost use Rattle.std.specs.Prelude.{length};
ghost use Rattle.macs_gf.specs.Ghash.{block_at, blocks_of, ghash, hash_input, subkey_power};
ghost use Rattle.macs_ghash.specs.Tables.{AreTables, octet_from_left, octets_in};

use crate::filling::octets_of;
use crate::octets::{OCTETS, SIXTEENS, found, octets_in_range, sum};
use crate::strings::{behind_zeros, input_blocks};
use crate::tables::{Part, products};
use std::simd::prelude::*;

/// For each octet of a block, the place among its sixteen where `octets_of` puts it.
pub(crate) const FLIPPED: [u8; 32] = [
    7, 6, 5, 4, 3, 2, 1, 0, 15, 14, 13, 12, 11, 10, 9, 8, 7, 6, 5, 4, 3, 2, 1, 0, 15, 14, 13, 12,
    11, 10, 9, 8,
];

/// The octets of a state in the first sixteen of a register, and zeros after them.
#[inline(always)]
fn octets_of_state(state: u128) -> Simd<u8, OCTETS>
    ensures first { (j : ℕ) → j < 16 → octets_in result 0 j ≡ octet_from_left state j }
    ensures rest { (g j : ℕ) → 0 < g → g < SIXTEENS → j < 16 → octets_in result g j ≡ 0 }
{
    let mut blocks = [0; SIXTEENS];
    blocks[0] = state;
    found(
        octets_of(&blocks, 0),
        Simd::<u8, OCTETS>::from_slice(&FLIPPED),
    )
}

/// A state added to the first of several blocks. A whole register is stored, so that the load that
/// follows does not wait for it.
#[inline(always)]
pub(crate) fn add_state<const M: usize>(octets: &mut [u8; M], state: u128)
    requires { OCTETS ≤ M }
    ensures first { block_at octets.new 0 ≡ bit_xor state (block_at octets.old 0) }
    ensures others { (l : ℕ) → 16 * l + 16 ≤ M → l ≢ 0
        → block_at octets.new l ≡ block_at octets.old l }
{
    octets_in_range(octets);
    let sums = sum(
        Simd::<u8, OCTETS>::from_slice(octets),
        octets_of_state(state),
    );
    sums.copy_to_slice(octets);
    octets_in_range(octets);
}

/// How many blocks the first of strides of `size` blocks takes: at least one, and those that whole
/// strides leave.
#[inline(always)]
fn first_of(count: usize, size: usize) -> usize
    requires size { 0 < size }
    requires count { 0 < count }
    ensures some { 0 < result }
    ensures few { result ≤ size }
    ensures whole { result + size * ((count - result) / size) ≡ count }
{
    (count - 1) % size + 1
}

/// The hash of the additional data and the text, which make `count` blocks, by strides of as many
/// blocks as the tables have powers.
#[inline(always)]
pub(crate) fn hashed<const N: usize, const M: usize>(
    tables: &[[Part; N]; 16],
    aad: &[u8],
    text: &[u8],
    count: usize,
) -> u128
    requires size { M ≡ OCTETS * N }
    requires some { 0 < N }
    requires few { N ≤ 8 }
    requires aad { length aad.now < 2 ^ 32 }
    requires text { length text.now < 2 ^ 32 }
    requires all { count ≡ (length aad.now + 15) / 16 + (length text.now + 15) / 16 + 1 }
    ensures { (h : ℕ) → h < 2 ^ 128
        → AreTables SIXTEENS N (λ l. subkey_power h (SIXTEENS * N - l)) tables.now
        → result ≡ ghash h (blocks_of (hash_input aad.now text.now)) }
{
    let size = M / 16;
    // The first stride takes what whole strides leave: there is no state to add yet.
    let first = first_of(count, size);
    let mut taken = first;
    let mut state = products::<N>(tables, &behind_zeros::<M>(aad, text, first));
    for _stride in 0..(count - first) / size {
        let mut octets = input_blocks::<M>(aad, text, taken);
        add_state(&mut octets, state);
        state = products::<N>(tables, &octets);
        taken += size;
    }
    state
}
