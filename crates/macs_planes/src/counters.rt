//! Counter blocks of a group, made as planes: they differ only in the last octet.

ghost use Rattle.std.specs.Prelude.{◌≡◌, ◌<◌, ℕ, [], get_or, take};
ghost use Rattle.macs_planes.specs.Across.{octet_at};
ghost use Rattle.macs_planes.specs.Counters.{number_at};

use crate::places::{LANES, OCTETS};
use macs_aes::Planes;
use std::simd::prelude::*;

/// In row k, bit k of the number of each block, in the place of the block's last octet.
const NUMBERS: [[u16; 16]; 4] = [
    [0, 0, 0, 0, 0, 0, 0, 0xaa00, 0, 0, 0, 0, 0, 0, 0, 0xaa00],
    [0, 0, 0, 0, 0, 0, 0, 0xcc00, 0, 0, 0, 0, 0, 0, 0, 0xcc00],
    [0, 0, 0, 0, 0, 0, 0, 0xf000, 0, 0, 0, 0, 0, 0, 0, 0xf000],
    [0, 0, 0, 0, 0, 0, 0, 0, 0, 0, 0, 0, 0, 0, 0, 0xff00],
];

/// Bit k of the numbers.
#[inline(always)]
fn number_bits(k: usize) -> [u16; LANES]
    requires { k < 4 }
    ensures { result ≡ take LANES (get_or NUMBERS k []) }
{
    Simd::<u16, LANES>::from_slice(&NUMBERS[k]).to_array()
}

/// Blocks of zeros, except for the last octet, which is the number of the block.
#[inline(always)]
pub(crate) fn numbers() -> Planes<LANES>
    ensures { (m n : ℕ) → m < OCTETS → n < 8 → octet_at result m n ≡ number_at m n }
{
    let none = [0; LANES];
    Planes {
        p0: number_bits(0),
        p1: number_bits(1),
        p2: number_bits(2),
        p3: number_bits(3),
        p4: none,
        p5: none,
        p6: none,
        p7: none,
    }
}
