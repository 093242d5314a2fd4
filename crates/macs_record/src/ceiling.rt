//! Ceilings of packet numbers.

ghost use Rattle.std.specs.Prelude.{◌≡◌, ◌≤◌, ◌↔◌, ℕ, IsSome, IfSome};
ghost use Rattle.macs_record.specs.Ranges.{IsCeiling};

use macs_fields::END_OF_NUMBERS;
use std::marker::Model;

/// The ceiling of an association, 1 to 2^32: only packet numbers below it are used, or delivered as
/// verified.
#[derive(Debug, Clone, Copy, PartialEq, Eq)]
pub struct Ceiling(u64);

impl Model for Ceiling {
    ghost Value = { ℕ };

    ghost view = { λ c. c.0 };

    ghost invariant = { λ c. IsCeiling c.0 };

    ghost inverse = { λ n. record { 0 = n } };
}

impl Ceiling {
    /// `None` for 0, and for a number greater than 2^32.
    pub fn new(number: u64) -> Option<Ceiling>
        ensures within { IsSome result ↔ IsCeiling number }
        ensures value { IfSome result (λ ceiling. ceiling ≡ number) }
    {
        if (1..=END_OF_NUMBERS).contains(&number) {
            Some(Ceiling(number))
        } else {
            None
        }
    }

    /// Its number, 1 to 2^32.
    pub fn get(self) -> u64
        ensures value { result ≡ self }
        ensures range { IsCeiling result }
    {
        let Ceiling(number) = self;
        number
    }
}
