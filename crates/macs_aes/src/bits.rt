//! One bit of each octet, as a word of sixteen bits.

ghost use Rattle.std.specs.Prelude.{◌≡◌, ◌<◌, ℕ, [], get_or, length};
ghost use Rattle.std.specs.Int.{bit_at};
ghost use Rattle.macs_aes.specs.Bits.{HasBits, IsBlock, tested};

use crate::Block;
use std::simd::prelude::*;

/// In bit j whether octet j has the bit of the mask, a power of two.
#[inline(always)]
pub(crate) fn bit_word(octets: u8x16, mask: u8) -> u16
    requires { length octets ≡ 16 }
    ensures { (j : ℕ) → j < 16 → bit_at result j ≡ tested mask (get_or octets j 0) }
{
    let masks = u8x16::splat(mask);
    ((octets & masks).simd_eq(masks).to_bitmask() & 0xffff) as u16
}

/// The octets of a block, which are sixteen.
#[inline(always)]
pub(crate) fn octets_of(block: &Block) -> u8x16
    ensures octets { result ≡ block.now }
    ensures block { IsBlock result }
{
    let _first = block[0];
    u8x16::from_array(*block)
}

/// In bit j of lane i whether octet j of block i has the bit of the mask.
#[inline(always)]
pub(crate) fn plane<const N: usize>(blocks: &[Block; N], mask: u8) -> [u16; N]
    ensures lanes { length result ≡ N }
    ensures bits { HasBits N mask blocks.now result }
    ensures blocks { (i : ℕ) → i < N → IsBlock (get_or blocks.now i []) }
{
    let mut lanes = [0; N];
    for i in 0..N {
        lanes[i] = bit_word(octets_of(&blocks[i]), mask);
    }
    // As a vector and back, so that the compiler hands on a register in place of N numbers.
    Simd::from_array(lanes).to_array()
}
