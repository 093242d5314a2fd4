//! Octets of planes taken from other places of the same sixteen. The octet in row r and column c of
//! a block is at r + 4 c.

ghost use Rattle.std.specs.Prelude.{◌≡◌, ◌<◌, ℕ, ◌+◌, ◌*◌, ◌/◌, ◌%◌, length, slice_index};
ghost use Rattle.macs_planes.specs.Across.{octet_at, octet_of_words};
ghost use Rattle.macs_aes.specs.Bits.{IsBlock};

use macs_aes::{Block, Planes};
use macs_gf::REGISTER_BITS;
use std::simd::prelude::*;

/// How many words of 16 bits a vector register has.
pub const LANES: usize = REGISTER_BITS / 16;

/// How many octets a vector register has.
pub(crate) const OCTETS: usize = REGISTER_BITS / 8;

/// A place for each octet of a register, the same for each sixteen.
pub(crate) type PlacesTable = [u8; 32];

/// An octet of a block.
#[inline(always)]
pub(crate) fn octet_in(block: &Block, j: usize) -> u8
    requires { j < 16 }
    ensures octet { result ≡ slice_index block.now j }
    ensures block { IsBlock block.now }
{
    block[j]
}

/// The octets of words.
#[inline(always)]
pub(crate) fn octets_of_words(words: Simd<u16, LANES>) -> Simd<u8, OCTETS>
    ensures { (m : ℕ) → m < OCTETS → slice_index result m ≡ octet_of_words words m }
{
    words.to_le_bytes()
}

/// In each place the octet of the same sixteen that the table names.
#[inline(always)]
pub(crate) fn moved(x: Simd<u16, LANES>, places: &PlacesTable) -> [u16; LANES]
    requires { (m : ℕ) → m < 32 → slice_index places.now m < 16 }
    ensures lanes { length result ≡ LANES }
    ensures octets { (m : ℕ) → m < OCTETS
        → octet_of_words result m ≡ octet_of_words x (16 * (m / 16) + slice_index places.now m) }
{
    let octets = x.to_le_bytes();
    let from = Simd::<u8, OCTETS>::from_slice(places);
    Simd::<u16, LANES>::from_le_bytes(octets.swizzle_dyn_within::<16>(from)).to_array()
}

/// The same in each of eight planes.
#[inline(always)]
pub(crate) fn moved_each(x: &Planes<LANES>, places: &PlacesTable) -> Planes<LANES>
    requires { (m : ℕ) → m < 32 → slice_index places.now m < 16 }
    ensures { (m n : ℕ) → m < OCTETS → n < 8
        → octet_at result m n ≡ octet_at x.now (16 * (m / 16) + slice_index places.now m) n }
{
    Planes {
        p0: moved(Simd::from_array(x.p0), places),
        p1: moved(Simd::from_array(x.p1), places),
        p2: moved(Simd::from_array(x.p2), places),
        p3: moved(Simd::from_array(x.p3), places),
        p4: moved(Simd::from_array(x.p4), places),
        p5: moved(Simd::from_array(x.p5), places),
        p6: moved(Simd::from_array(x.p6), places),
        p7: moved(Simd::from_array(x.p7), places),
    }
}
