//! Rows of the state, as moves of bits inside each lane: the octet in row r and column c is bit
//! r + 4 c.
#![tactic(auto, using(std::proofs::lemmas::Simd::shifts_fit_splat))]

ghost use Rattle.std.specs.Prelude.{◌≡◌, ◌<◌, ℕ, length};
ghost use Rattle.macs_aes.specs.Blocks.{bit_in, octet};
ghost use Rattle.macs_aes.specs.Rows.{below, shifted};

use crate::planes::Planes;
use std::simd::prelude::*;

/// ShiftRows (FIPS 197, 5.1.2) on the bits of a plane: rows 2 and 3 turn by two columns, and then
/// rows 1 and 3 by one.
#[inline(always)]
pub(crate) fn shift_plane<const N: usize>(x: [u16; N]) -> [u16; N]
    requires { length x ≡ N }
    ensures lanes { length result ≡ N }
    ensures bits { (i j : ℕ) → i < N → j < 16 → bit_in result i j ≡ bit_in x.entry i (shifted j) }
{
    let x = Simd::from_array(x);
    let swapped = ((x >> 8) & Simd::splat(0x00ff)) ^ (x << 8);
    let y = (x & Simd::splat(0x3333)) ^ (swapped & Simd::splat(0xcccc));
    let turned = ((y >> 4) & Simd::splat(0x0fff)) ^ (y << 12);
    ((y & Simd::splat(0x5555)) ^ (turned & Simd::splat(0xaaaa))).to_array()
}

/// In each place the bit one row below, in the last row that of the first.
#[inline(always)]
pub(crate) fn lift_plane<const N: usize>(x: [u16; N]) -> [u16; N]
    requires { length x ≡ N }
    ensures lanes { length result ≡ N }
    ensures bits { (i j : ℕ) → i < N → j < 16 → bit_in result i j ≡ bit_in x.entry i (below 1 j) }
{
    let x = Simd::from_array(x);
    (((x >> 1) & Simd::splat(0x7777)) ^ ((x << 3) & Simd::splat(0x8888))).to_array()
}

/// In each place the bit two rows below.
#[inline(always)]
pub(crate) fn lift_plane_twice<const N: usize>(x: [u16; N]) -> [u16; N]
    requires { length x ≡ N }
    ensures lanes { length result ≡ N }
    ensures bits { (i j : ℕ) → i < N → j < 16 → bit_in result i j ≡ bit_in x.entry i (below 2 j) }
{
    let x = Simd::from_array(x);
    (((x >> 2) & Simd::splat(0x3333)) ^ ((x << 2) & Simd::splat(0xcccc))).to_array()
}

/// In each place the octet that ShiftRows takes there.
#[inline(always)]
pub(crate) fn shift<const N: usize>(x: &Planes<N>) -> Planes<N>
    ensures { (i j : ℕ) → i < N → j < 16 → octet result i j ≡ octet x.now i (shifted j) }
{
    Planes {
        p0: shift_plane(x.p0),
        p1: shift_plane(x.p1),
        p2: shift_plane(x.p2),
        p3: shift_plane(x.p3),
        p4: shift_plane(x.p4),
        p5: shift_plane(x.p5),
        p6: shift_plane(x.p6),
        p7: shift_plane(x.p7),
    }
}

/// In each place the octet one row below.
#[inline(always)]
pub(crate) fn lift<const N: usize>(x: &Planes<N>) -> Planes<N>
    ensures { (i j : ℕ) → i < N → j < 16 → octet result i j ≡ octet x.now i (below 1 j) }
{
    Planes {
        p0: lift_plane(x.p0),
        p1: lift_plane(x.p1),
        p2: lift_plane(x.p2),
        p3: lift_plane(x.p3),
        p4: lift_plane(x.p4),
        p5: lift_plane(x.p5),
        p6: lift_plane(x.p6),
        p7: lift_plane(x.p7),
    }
}

/// In each place the octet two rows below.
#[inline(always)]
pub(crate) fn lift_twice<const N: usize>(x: &Planes<N>) -> Planes<N>
    ensures { (i j : ℕ) → i < N → j < 16 → octet result i j ≡ octet x.now i (below 2 j) }
{
    Planes {
        p0: lift_plane_twice(x.p0),
        p1: lift_plane_twice(x.p1),
        p2: lift_plane_twice(x.p2),
        p3: lift_plane_twice(x.p3),
        p4: lift_plane_twice(x.p4),
        p5: lift_plane_twice(x.p5),
        p6: lift_plane_twice(x.p6),
        p7: lift_plane_twice(x.p7),
    }
}
