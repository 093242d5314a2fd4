//! Octets of the subfield of sixteen elements.

ghost use Rattle.std.specs.Prelude.{◌≡◌, ◌<◌, ℕ, List, [], ◌∷◌, bit_xor};
ghost use Rattle.macs_gf.specs.Gf256.{octet_product};
ghost use Rattle.macs_aes.specs.Blocks.{ArePlanes, blocks_in, octet, subfield_basis};
ghost use Rattle.macs_aes.specs.Tower.{fourteenth, tower_unit};

use std::marker::Model;
use std::simd::prelude::*;

/// N blocks of octets that are in the subfield: four planes, which count w z, w^2 z, w z^4 and w^2
/// z^4, where w is the root bc of x^2 + x + 1 and z the root 5c of x^2 + x + w.
#[derive(Drop)]
pub(crate) struct Subfield<const N: usize> {
    pub(crate) p0: [u16; N],
    pub(crate) p1: [u16; N],
    pub(crate) p2: [u16; N],
    pub(crate) p3: [u16; N],
}

impl<const N: usize> Model for Subfield<N> {
    ghost Value = { List (List ℕ) };

    ghost view = { λ s. blocks_in N subfield_basis (s.p0 ∷ s.p1 ∷ s.p2 ∷ s.p3 ∷ []) };

    ghost invariant = { λ s. ArePlanes N (s.p0 ∷ s.p1 ∷ s.p2 ∷ s.p3 ∷ []) };
}

/// The product of each two octets.
#[inline(always)]
pub(crate) fn product<const N: usize>(x: &Subfield<N>, y: &Subfield<N>) -> Subfield<N>
    ensures { (i j : ℕ) → i < N → j < 16
        → octet result i j ≡ octet_product (octet x.now i j) (octet y.now i j) }
{
    let x0 = Simd::from_array(x.p0);
    let x1 = Simd::from_array(x.p1);
    let x2 = Simd::from_array(x.p2);
    let x3 = Simd::from_array(x.p3);
    let y0 = Simd::from_array(y.p0);
    let y1 = Simd::from_array(y.p1);
    let y2 = Simd::from_array(y.p2);
    let y3 = Simd::from_array(y.p3);
    let s01 = x0 ^ x1;
    let s23 = x2 ^ x3;
    let s02 = x0 ^ x2;
    let s13 = x1 ^ x3;
    let s = s02 ^ s13;
    let u01 = y0 ^ y1;
    let u23 = y2 ^ y3;
    let u02 = y0 ^ y2;
    let u13 = y1 ^ y3;
    let u = u02 ^ u13;
    let l = s01 & u01;
    let h = s23 & u23;
    let m0 = s02 & u02;
    let m1 = s13 & u13;
    let m = s & u;
    let n0 = m1 ^ m;
    let n1 = m1 ^ m0;
    let k0 = l ^ n0;
    let k1 = l ^ n1;
    let k2 = h ^ n0;
    let k3 = h ^ n1;
    Subfield {
        p0: ((x0 & y0) ^ k0).to_array(),
        p1: ((x1 & y1) ^ k1).to_array(),
        p2: ((x2 & y2) ^ k2).to_array(),
        p3: ((x3 & y3) ^ k3).to_array(),
    }
}

/// The power 14 of each octet: its inverse, and 0 for 0.
#[inline(always)]
pub(crate) fn inverse<const N: usize>(x: &Subfield<N>) -> Subfield<N>
    ensures { (i j : ℕ) → i < N → j < 16 → octet result i j ≡ fourteenth (octet x.now i j) }
{
    let x0 = Simd::from_array(x.p0);
    let x1 = Simd::from_array(x.p1);
    let x2 = Simd::from_array(x.p2);
    let x3 = Simd::from_array(x.p3);
    let a = x0 ^ x1;
    let b = x0 & x2;
    let c = x3 ^ b;
    let r3 = (a & c) ^ x1;
    let d = x2 ^ x3;
    let e = x1 ^ b;
    let r1 = (e & d) ^ x3;
    let f = x2 ^ r1;
    let g = c ^ r1;
    let h = x3 & g;
    let r0 = h ^ f;
    let k = c ^ h;
    let r2 = a ^ (r3 & k);
    Subfield {
        p0: r0.to_array(),
        p1: r1.to_array(),
        p2: r2.to_array(),
        p3: r3.to_array(),
    }
}

/// t^17 times the square of each octet, where t is the root ff.
#[inline(always)]
pub(crate) fn scaled_square<const N: usize>(x: &Subfield<N>) -> Subfield<N>
    ensures { (i j : ℕ) → i < N → j < 16 → octet result i j
        ≡ octet_product tower_unit (octet_product (octet x.now i j) (octet x.now i j)) }
{
    let x0 = Simd::from_array(x.p0);
    let x1 = Simd::from_array(x.p1);
    let x2 = Simd::from_array(x.p2);
    let x3 = Simd::from_array(x.p3);
    Subfield {
        p0: (x0 ^ x1).to_array(),
        p1: x.p1,
        p2: (x1 ^ x3).to_array(),
        p3: (x0 ^ x2).to_array(),
    }
}

/// The xor of each two octets.
#[inline(always)]
pub(crate) fn add<const N: usize>(x: &Subfield<N>, y: &Subfield<N>) -> Subfield<N>
    ensures { (i j : ℕ) → i < N → j < 16
        → octet result i j ≡ bit_xor (octet x.now i j) (octet y.now i j) }
{
    Subfield {
        p0: (Simd::from_array(x.p0) ^ Simd::from_array(y.p0)).to_array(),
        p1: (Simd::from_array(x.p1) ^ Simd::from_array(y.p1)).to_array(),
        p2: (Simd::from_array(x.p2) ^ Simd::from_array(y.p2)).to_array(),
        p3: (Simd::from_array(x.p3) ^ Simd::from_array(y.p3)).to_array(),
    }
}
