//! From planes to octets: the bits of an octet, which are one in each plane, are put side by side.
#![tactic(auto, using(std::proofs::lemmas::Simd::shifts_fit_splat))]

ghost use Rattle.std.specs.Prelude.{◌≡◌, ◌<◌, ◌*◌, ◌/◌, ◌%◌, ◌^◌, ℕ, [], ◌∷◌, get_or, length};
ghost use Rattle.std.specs.Prelude.{slice_index};
ghost use Rattle.macs_aes.specs.Blocks.{ArePlanes, zeros};
ghost use Rattle.macs_aes.specs.Columns.{IsCrossed, IsExchanged};

use crate::Block;
use std::simd::prelude::*;

/// Eight vectors. Crossed, octets m and m + 8 of block i are the lower and the upper half of lane i
/// of vector m.
#[derive(Drop)]
pub struct Columns<const N: usize> {
    pub q0: [u16; N],
    pub q1: [u16; N],
    pub q2: [u16; N],
    pub q3: [u16; N],
    pub q4: [u16; N],
    pub q5: [u16; N],
    pub q6: [u16; N],
    pub q7: [u16; N],
}

/// Vectors that are next to each other exchange half of their bits: the number of a vector and the
/// place of a bit within a half exchange their bits of weight 1.
#[inline(always)]
fn exchange_ones<const N: usize>(x: &Columns<N>) -> Columns<N>
    requires { ArePlanes N (x.now.q0 ∷ x.now.q1 ∷ x.now.q2 ∷ x.now.q3 ∷ x.now.q4 ∷ x.now.q5
        ∷ x.now.q6 ∷ x.now.q7 ∷ []) }
    ensures lanes { ArePlanes N (result.q0 ∷ result.q1 ∷ result.q2 ∷ result.q3 ∷ result.q4
        ∷ result.q5 ∷ result.q6 ∷ result.q7 ∷ []) }
    ensures q0 { IsExchanged N 1 0 (x.now.q0 ∷ x.now.q1 ∷ x.now.q2 ∷ x.now.q3 ∷ x.now.q4 ∷ x.now.q5
        ∷ x.now.q6 ∷ x.now.q7 ∷ []) result.q0 }
    ensures q1 { IsExchanged N 1 1 (x.now.q0 ∷ x.now.q1 ∷ x.now.q2 ∷ x.now.q3 ∷ x.now.q4 ∷ x.now.q5
        ∷ x.now.q6 ∷ x.now.q7 ∷ []) result.q1 }
    ensures q2 { IsExchanged N 1 2 (x.now.q0 ∷ x.now.q1 ∷ x.now.q2 ∷ x.now.q3 ∷ x.now.q4 ∷ x.now.q5
        ∷ x.now.q6 ∷ x.now.q7 ∷ []) result.q2 }
    ensures q3 { IsExchanged N 1 3 (x.now.q0 ∷ x.now.q1 ∷ x.now.q2 ∷ x.now.q3 ∷ x.now.q4 ∷ x.now.q5
        ∷ x.now.q6 ∷ x.now.q7 ∷ []) result.q3 }
    ensures q4 { IsExchanged N 1 4 (x.now.q0 ∷ x.now.q1 ∷ x.now.q2 ∷ x.now.q3 ∷ x.now.q4 ∷ x.now.q5
        ∷ x.now.q6 ∷ x.now.q7 ∷ []) result.q4 }
    ensures q5 { IsExchanged N 1 5 (x.now.q0 ∷ x.now.q1 ∷ x.now.q2 ∷ x.now.q3 ∷ x.now.q4 ∷ x.now.q5
        ∷ x.now.q6 ∷ x.now.q7 ∷ []) result.q5 }
    ensures q6 { IsExchanged N 1 6 (x.now.q0 ∷ x.now.q1 ∷ x.now.q2 ∷ x.now.q3 ∷ x.now.q4 ∷ x.now.q5
        ∷ x.now.q6 ∷ x.now.q7 ∷ []) result.q6 }
    ensures q7 { IsExchanged N 1 7 (x.now.q0 ∷ x.now.q1 ∷ x.now.q2 ∷ x.now.q3 ∷ x.now.q4 ∷ x.now.q5
        ∷ x.now.q6 ∷ x.now.q7 ∷ []) result.q7 }
{
    let q0 = Simd::from_array(x.q0);
    let q1 = Simd::from_array(x.q1);
    let q2 = Simd::from_array(x.q2);
    let q3 = Simd::from_array(x.q3);
    let q4 = Simd::from_array(x.q4);
    let q5 = Simd::from_array(x.q5);
    let q6 = Simd::from_array(x.q6);
    let q7 = Simd::from_array(x.q7);
    let t0 = ((q0 >> 1) ^ q1) & Simd::splat(0x5555);
    let t2 = ((q2 >> 1) ^ q3) & Simd::splat(0x5555);
    let t4 = ((q4 >> 1) ^ q5) & Simd::splat(0x5555);
    let t6 = ((q6 >> 1) ^ q7) & Simd::splat(0x5555);
    Columns {
        q0: (q0 ^ (t0 << 1)).to_array(),
        q1: (q1 ^ t0).to_array(),
        q2: (q2 ^ (t2 << 1)).to_array(),
        q3: (q3 ^ t2).to_array(),
        q4: (q4 ^ (t4 << 1)).to_array(),
        q5: (q5 ^ t4).to_array(),
        q6: (q6 ^ (t6 << 1)).to_array(),
        q7: (q7 ^ t6).to_array(),
    }
}

/// Vectors that are two apart exchange half of their bits: the number of a vector and the place of
/// a bit within a half exchange their bits of weight 2.
#[inline(always)]
fn exchange_twos<const N: usize>(x: &Columns<N>) -> Columns<N>
    requires { ArePlanes N (x.now.q0 ∷ x.now.q1 ∷ x.now.q2 ∷ x.now.q3 ∷ x.now.q4 ∷ x.now.q5
        ∷ x.now.q6 ∷ x.now.q7 ∷ []) }
    ensures lanes { ArePlanes N (result.q0 ∷ result.q1 ∷ result.q2 ∷ result.q3 ∷ result.q4
        ∷ result.q5 ∷ result.q6 ∷ result.q7 ∷ []) }
    ensures q0 { IsExchanged N 2 0 (x.now.q0 ∷ x.now.q1 ∷ x.now.q2 ∷ x.now.q3 ∷ x.now.q4 ∷ x.now.q5
        ∷ x.now.q6 ∷ x.now.q7 ∷ []) result.q0 }
    ensures q1 { IsExchanged N 2 1 (x.now.q0 ∷ x.now.q1 ∷ x.now.q2 ∷ x.now.q3 ∷ x.now.q4 ∷ x.now.q5
        ∷ x.now.q6 ∷ x.now.q7 ∷ []) result.q1 }
    ensures q2 { IsExchanged N 2 2 (x.now.q0 ∷ x.now.q1 ∷ x.now.q2 ∷ x.now.q3 ∷ x.now.q4 ∷ x.now.q5
        ∷ x.now.q6 ∷ x.now.q7 ∷ []) result.q2 }
    ensures q3 { IsExchanged N 2 3 (x.now.q0 ∷ x.now.q1 ∷ x.now.q2 ∷ x.now.q3 ∷ x.now.q4 ∷ x.now.q5
        ∷ x.now.q6 ∷ x.now.q7 ∷ []) result.q3 }
    ensures q4 { IsExchanged N 2 4 (x.now.q0 ∷ x.now.q1 ∷ x.now.q2 ∷ x.now.q3 ∷ x.now.q4 ∷ x.now.q5
        ∷ x.now.q6 ∷ x.now.q7 ∷ []) result.q4 }
    ensures q5 { IsExchanged N 2 5 (x.now.q0 ∷ x.now.q1 ∷ x.now.q2 ∷ x.now.q3 ∷ x.now.q4 ∷ x.now.q5
        ∷ x.now.q6 ∷ x.now.q7 ∷ []) result.q5 }
    ensures q6 { IsExchanged N 2 6 (x.now.q0 ∷ x.now.q1 ∷ x.now.q2 ∷ x.now.q3 ∷ x.now.q4 ∷ x.now.q5
        ∷ x.now.q6 ∷ x.now.q7 ∷ []) result.q6 }
    ensures q7 { IsExchanged N 2 7 (x.now.q0 ∷ x.now.q1 ∷ x.now.q2 ∷ x.now.q3 ∷ x.now.q4 ∷ x.now.q5
        ∷ x.now.q6 ∷ x.now.q7 ∷ []) result.q7 }
{
    let q0 = Simd::from_array(x.q0);
    let q1 = Simd::from_array(x.q1);
    let q2 = Simd::from_array(x.q2);
    let q3 = Simd::from_array(x.q3);
    let q4 = Simd::from_array(x.q4);
    let q5 = Simd::from_array(x.q5);
    let q6 = Simd::from_array(x.q6);
    let q7 = Simd::from_array(x.q7);
    let t0 = ((q0 >> 2) ^ q2) & Simd::splat(0x3333);
    let t1 = ((q1 >> 2) ^ q3) & Simd::splat(0x3333);
    let t4 = ((q4 >> 2) ^ q6) & Simd::splat(0x3333);
    let t5 = ((q5 >> 2) ^ q7) & Simd::splat(0x3333);
    Columns {
        q0: (q0 ^ (t0 << 2)).to_array(),
        q1: (q1 ^ (t1 << 2)).to_array(),
        q2: (q2 ^ t0).to_array(),
        q3: (q3 ^ t1).to_array(),
        q4: (q4 ^ (t4 << 2)).to_array(),
        q5: (q5 ^ (t5 << 2)).to_array(),
        q6: (q6 ^ t4).to_array(),
        q7: (q7 ^ t5).to_array(),
    }
}

/// Vectors that are four apart exchange half of their bits: the number of a vector and the place of
/// a bit within a half exchange their bits of weight 4.
#[inline(always)]
fn exchange_fours<const N: usize>(x: &Columns<N>) -> Columns<N>
    requires { ArePlanes N (x.now.q0 ∷ x.now.q1 ∷ x.now.q2 ∷ x.now.q3 ∷ x.now.q4 ∷ x.now.q5
        ∷ x.now.q6 ∷ x.now.q7 ∷ []) }
    ensures lanes { ArePlanes N (result.q0 ∷ result.q1 ∷ result.q2 ∷ result.q3 ∷ result.q4
        ∷ result.q5 ∷ result.q6 ∷ result.q7 ∷ []) }
    ensures q0 { IsExchanged N 4 0 (x.now.q0 ∷ x.now.q1 ∷ x.now.q2 ∷ x.now.q3 ∷ x.now.q4 ∷ x.now.q5
        ∷ x.now.q6 ∷ x.now.q7 ∷ []) result.q0 }
    ensures q1 { IsExchanged N 4 1 (x.now.q0 ∷ x.now.q1 ∷ x.now.q2 ∷ x.now.q3 ∷ x.now.q4 ∷ x.now.q5
        ∷ x.now.q6 ∷ x.now.q7 ∷ []) result.q1 }
    ensures q2 { IsExchanged N 4 2 (x.now.q0 ∷ x.now.q1 ∷ x.now.q2 ∷ x.now.q3 ∷ x.now.q4 ∷ x.now.q5
        ∷ x.now.q6 ∷ x.now.q7 ∷ []) result.q2 }
    ensures q3 { IsExchanged N 4 3 (x.now.q0 ∷ x.now.q1 ∷ x.now.q2 ∷ x.now.q3 ∷ x.now.q4 ∷ x.now.q5
        ∷ x.now.q6 ∷ x.now.q7 ∷ []) result.q3 }
    ensures q4 { IsExchanged N 4 4 (x.now.q0 ∷ x.now.q1 ∷ x.now.q2 ∷ x.now.q3 ∷ x.now.q4 ∷ x.now.q5
        ∷ x.now.q6 ∷ x.now.q7 ∷ []) result.q4 }
    ensures q5 { IsExchanged N 4 5 (x.now.q0 ∷ x.now.q1 ∷ x.now.q2 ∷ x.now.q3 ∷ x.now.q4 ∷ x.now.q5
        ∷ x.now.q6 ∷ x.now.q7 ∷ []) result.q5 }
    ensures q6 { IsExchanged N 4 6 (x.now.q0 ∷ x.now.q1 ∷ x.now.q2 ∷ x.now.q3 ∷ x.now.q4 ∷ x.now.q5
        ∷ x.now.q6 ∷ x.now.q7 ∷ []) result.q6 }
    ensures q7 { IsExchanged N 4 7 (x.now.q0 ∷ x.now.q1 ∷ x.now.q2 ∷ x.now.q3 ∷ x.now.q4 ∷ x.now.q5
        ∷ x.now.q6 ∷ x.now.q7 ∷ []) result.q7 }
{
    let q0 = Simd::from_array(x.q0);
    let q1 = Simd::from_array(x.q1);
    let q2 = Simd::from_array(x.q2);
    let q3 = Simd::from_array(x.q3);
    let q4 = Simd::from_array(x.q4);
    let q5 = Simd::from_array(x.q5);
    let q6 = Simd::from_array(x.q6);
    let q7 = Simd::from_array(x.q7);
    let t0 = ((q0 >> 4) ^ q4) & Simd::splat(0x0f0f);
    let t1 = ((q1 >> 4) ^ q5) & Simd::splat(0x0f0f);
    let t2 = ((q2 >> 4) ^ q6) & Simd::splat(0x0f0f);
    let t3 = ((q3 >> 4) ^ q7) & Simd::splat(0x0f0f);
    Columns {
        q0: (q0 ^ (t0 << 4)).to_array(),
        q1: (q1 ^ (t1 << 4)).to_array(),
        q2: (q2 ^ (t2 << 4)).to_array(),
        q3: (q3 ^ (t3 << 4)).to_array(),
        q4: (q4 ^ t0).to_array(),
        q5: (q5 ^ t1).to_array(),
        q6: (q6 ^ t2).to_array(),
        q7: (q7 ^ t3).to_array(),
    }
}

/// Bit k of a half of a lane of vector m, and bit m of the same half and lane of vector k, change
/// places.
#[inline(always)]
pub fn cross<const N: usize>(x: &Columns<N>) -> Columns<N>
    requires { ArePlanes N (x.now.q0 ∷ x.now.q1 ∷ x.now.q2 ∷ x.now.q3 ∷ x.now.q4 ∷ x.now.q5
        ∷ x.now.q6 ∷ x.now.q7 ∷ []) }
    ensures lanes { ArePlanes N (result.q0 ∷ result.q1 ∷ result.q2 ∷ result.q3 ∷ result.q4
        ∷ result.q5 ∷ result.q6 ∷ result.q7 ∷ []) }
    ensures q0 { IsCrossed N 0 (x.now.q0 ∷ x.now.q1 ∷ x.now.q2 ∷ x.now.q3 ∷ x.now.q4 ∷ x.now.q5
        ∷ x.now.q6 ∷ x.now.q7 ∷ []) result.q0 }
    ensures q1 { IsCrossed N 1 (x.now.q0 ∷ x.now.q1 ∷ x.now.q2 ∷ x.now.q3 ∷ x.now.q4 ∷ x.now.q5
        ∷ x.now.q6 ∷ x.now.q7 ∷ []) result.q1 }
    ensures q2 { IsCrossed N 2 (x.now.q0 ∷ x.now.q1 ∷ x.now.q2 ∷ x.now.q3 ∷ x.now.q4 ∷ x.now.q5
        ∷ x.now.q6 ∷ x.now.q7 ∷ []) result.q2 }
    ensures q3 { IsCrossed N 3 (x.now.q0 ∷ x.now.q1 ∷ x.now.q2 ∷ x.now.q3 ∷ x.now.q4 ∷ x.now.q5
        ∷ x.now.q6 ∷ x.now.q7 ∷ []) result.q3 }
    ensures q4 { IsCrossed N 4 (x.now.q0 ∷ x.now.q1 ∷ x.now.q2 ∷ x.now.q3 ∷ x.now.q4 ∷ x.now.q5
        ∷ x.now.q6 ∷ x.now.q7 ∷ []) result.q4 }
    ensures q5 { IsCrossed N 5 (x.now.q0 ∷ x.now.q1 ∷ x.now.q2 ∷ x.now.q3 ∷ x.now.q4 ∷ x.now.q5
        ∷ x.now.q6 ∷ x.now.q7 ∷ []) result.q5 }
    ensures q6 { IsCrossed N 6 (x.now.q0 ∷ x.now.q1 ∷ x.now.q2 ∷ x.now.q3 ∷ x.now.q4 ∷ x.now.q5
        ∷ x.now.q6 ∷ x.now.q7 ∷ []) result.q6 }
    ensures q7 { IsCrossed N 7 (x.now.q0 ∷ x.now.q1 ∷ x.now.q2 ∷ x.now.q3 ∷ x.now.q4 ∷ x.now.q5
        ∷ x.now.q6 ∷ x.now.q7 ∷ []) result.q7 }
{
    let ones = exchange_ones(x);
    let twos = exchange_twos(&ones);
    exchange_fours(&twos)
}

/// Block i of crossed vectors.
#[inline(always)]
pub(crate) fn row<const N: usize>(x: &Columns<N>, i: usize) -> Block
    requires lanes { ArePlanes N (x.now.q0 ∷ x.now.q1 ∷ x.now.q2 ∷ x.now.q3 ∷ x.now.q4 ∷ x.now.q5
        ∷ x.now.q6 ∷ x.now.q7 ∷ []) }
    requires within { i < N }
    ensures size { length result ≡ 16 }
    ensures octets { (j : ℕ) → j < 16 → slice_index result j
        ≡ get_or (get_or (x.now.q0 ∷ x.now.q1 ∷ x.now.q2 ∷ x.now.q3 ∷ x.now.q4 ∷ x.now.q5 ∷ x.now.q6
        ∷ x.now.q7 ∷ []) (j % 8) (zeros N)) i 0 / 2 ^ (8 * (j / 8)) % 256 }
{
    let [a0, b0] = x.q0[i].to_le_bytes();
    let [a1, b1] = x.q1[i].to_le_bytes();
    let [a2, b2] = x.q2[i].to_le_bytes();
    let [a3, b3] = x.q3[i].to_le_bytes();
    let [a4, b4] = x.q4[i].to_le_bytes();
    let [a5, b5] = x.q5[i].to_le_bytes();
    let [a6, b6] = x.q6[i].to_le_bytes();
    let [a7, b7] = x.q7[i].to_le_bytes();
    [
        a0, a1, a2, a3, a4, a5, a6, a7, b0, b1, b2, b3, b4, b5, b6, b7,
    ]
}
