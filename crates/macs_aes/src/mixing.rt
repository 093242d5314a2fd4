//! MixColumns (FIPS 197, 5.1.3) on planes.

ghost use Rattle.std.specs.Prelude.{◌≡◌, ◌<◌, ℕ, bit_xor};
ghost use Rattle.macs_gf.specs.Gf256.{octet_product};
ghost use Rattle.macs_aes.specs.Cipher.{mixed_octet};
ghost use Rattle.macs_aes.specs.Blocks.{octet};
ghost use Rattle.macs_aes.specs.Rows.{below};

use crate::planes::{Planes, are_blocks};
use crate::rows::{lift, lift_twice};
use std::simd::prelude::*;

/// The xor of each two octets.
#[inline(always)]
pub fn xor<const N: usize>(x: &Planes<N>, y: &Planes<N>) -> Planes<N>
    ensures { (i j : ℕ) → i < N → j < 16
        → octet result i j ≡ bit_xor (octet x.now i j) (octet y.now i j) }
{
    Planes {
        p0: (Simd::from_array(x.p0) ^ Simd::from_array(y.p0)).to_array(),
        p1: (Simd::from_array(x.p1) ^ Simd::from_array(y.p1)).to_array(),
        p2: (Simd::from_array(x.p2) ^ Simd::from_array(y.p2)).to_array(),
        p3: (Simd::from_array(x.p3) ^ Simd::from_array(y.p3)).to_array(),
        p4: (Simd::from_array(x.p4) ^ Simd::from_array(y.p4)).to_array(),
        p5: (Simd::from_array(x.p5) ^ Simd::from_array(y.p5)).to_array(),
        p6: (Simd::from_array(x.p6) ^ Simd::from_array(y.p6)).to_array(),
        p7: (Simd::from_array(x.p7) ^ Simd::from_array(y.p7)).to_array(),
    }
}

/// Twice each octet.
#[inline(always)]
pub fn twice<const N: usize>(x: &Planes<N>) -> Planes<N>
    ensures { (i j : ℕ) → i < N → j < 16 → octet result i j ≡ octet_product 2 (octet x.now i j) }
{
    let x0 = Simd::from_array(x.p0);
    let x2 = Simd::from_array(x.p2);
    let x3 = Simd::from_array(x.p3);
    let x7 = Simd::from_array(x.p7);
    Planes {
        p0: x.p7,
        p1: (x0 ^ x7).to_array(),
        p2: x.p1,
        p3: (x2 ^ x7).to_array(),
        p4: (x3 ^ x7).to_array(),
        p5: x.p4,
        p6: x.p5,
        p7: x.p6,
    }
}

/// Each octet mixed with the three below it in its column: 2 (a + b) + b + (c + d).
#[inline(always)]
pub(crate) fn mix<const N: usize>(x: &Planes<N>) -> Planes<N>
    ensures { (i j : ℕ) → i < N → j < 16 → octet result i j ≡ mixed_octet (octet x.now i j)
        (octet x.now i (below 1 j)) (octet x.now i (below 2 j)) (octet x.now i (below 3 j)) }
{
    are_blocks(x);
    let next = lift(x);
    let pair = xor(x, &next);
    xor(&xor(&twice(&pair), &next), &lift_twice(&pair))
}
