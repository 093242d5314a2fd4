//! Products of several blocks with the powers of a hash subkey, by tables of four bits: one table
//! for each octet of a product by each power. A shuffle looks up sixteen octets at once, and
//! nothing is reduced before the end.

ghost use Rattle.std.specs.Prelude.{◌≡◌, ◌<◌, ◌≤◌, ◌+◌, ◌*◌, ◌/◌, ◌%◌, ℕ, List, [], get_or, length};
ghost use Rattle.macs_gf.specs.Gf128.{block_product};
ghost use Rattle.macs_gf.specs.Ghash.{block_at};
ghost use Rattle.macs_ghash.specs.Tables.{AreTables, octets_in, sum_of};

use crate::octets::{
    OCTETS, OctetSums, SIXTEENS, found, left_halves, next_sums, number, octets_in_range,
    right_halves, sum,
};
use crate::reduction::overflow;
use std::marker::Model;
use std::simd::prelude::*;

/// How many vectors have the octets of two blocks.
pub(crate) const TWO: usize = 2 / SIXTEENS;

/// How many vectors have the octets of four blocks.
pub(crate) const FOUR: usize = 4 / SIXTEENS;

/// How many vectors have the octets of eight blocks.
pub(crate) const EIGHT: usize = 8 / SIXTEENS;

/// The octets of a vector. In clauses it is the list of them.
#[derive(Clone, Copy)]
pub(crate) struct Part {
    pub(crate) octets: Simd<u8, OCTETS>,
}

impl Model for Part {
    ghost Value = { List ℕ };

    ghost view = { λ p. p.octets };

    ghost inverse = { λ v. record { octets = v } };
}

/// What a row of tables has at the numbers, part by part, added up.
#[inline(always)]
fn found_in<const N: usize>(row: &[Part; N], at: &[Part; N]) -> Simd<u8, OCTETS>
    requires { (p g j : ℕ) → p < N → g < SIXTEENS → j < 16
        → octets_in (get_or at.now p []) g j < 16 }
    ensures { (g j : ℕ) → g < SIXTEENS → j < 16
        → octets_in result g j
        ≡ sum_of (λ p. octets_in (get_or row.now p []) g (octets_in (get_or at.now p []) g j)) N }
{
    let mut total = Simd::splat(0);
    for p in 0..N {
        let table = row[p];
        let places = at[p];
        total = sum(total, found(table.octets, places.octets));
    }
    total
}

/// The left halves of the octets of several blocks.
#[inline(always)]
fn all_left<const N: usize>(octets: &[u8]) -> [Part; N]
    requires { length octets.now ≡ OCTETS * N }
    ensures { (p g j : ℕ) → p < N → g < SIXTEENS → j < 16
        → octets_in (get_or result p []) g j
        ≡ get_or octets.now (16 * (SIXTEENS * p + g) + j) 0 / 16 }
{
    let none = Part {
        octets: Simd::splat(0),
    };
    let mut parts = [none; N];
    for p in 0..N {
        let x = Simd::<u8, OCTETS>::from_slice(&octets[OCTETS * p..]);
        parts[p] = Part {
            octets: left_halves(x),
        };
    }
    parts
}

/// The right halves of the octets of several blocks.
#[inline(always)]
fn all_right<const N: usize>(octets: &[u8]) -> [Part; N]
    requires { length octets.now ≡ OCTETS * N }
    ensures { (p g j : ℕ) → p < N → g < SIXTEENS → j < 16
        → octets_in (get_or result p []) g j
        ≡ get_or octets.now (16 * (SIXTEENS * p + g) + j) 0 % 16 }
{
    let none = Part {
        octets: Simd::splat(0),
    };
    let mut parts = [none; N];
    for p in 0..N {
        let x = Simd::<u8, OCTETS>::from_slice(&octets[OCTETS * p..]);
        parts[p] = Part {
            octets: right_halves(x),
        };
    }
    parts
}

/// The sum of the products of several blocks with the powers that the tables are of.
#[inline(never)]
pub(crate) fn products<const N: usize>(tables: &[[Part; N]; 16], octets: &[u8]) -> u128
    requires size { length octets.now ≡ OCTETS * N }
    requires few { N ≤ 8 }
    ensures { (powers : ℕ → ℕ) → AreTables SIXTEENS N powers tables.now
        → result ≡ sum_of (λ l. block_product (block_at octets.now l) (powers l)) (SIXTEENS * N) }
{
    octets_in_range(octets);
    let left = all_left::<N>(octets);
    let right = all_right::<N>(octets);
    let mut sums = OctetSums {
        low: Simd::splat(0),
        high: Simd::splat(0),
    };
    for k in 0..16 {
        let row = &tables[15 - k];
        let at_left = found_in(row, &left);
        let at_right = found_in(row, &right);
        sums = next_sums(sums, at_left, at_right);
    }
    number(sums.low) ^ overflow(number(sums.high))
}
