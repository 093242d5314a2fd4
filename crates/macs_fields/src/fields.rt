//! The values of a SecTAG's fields (IEEE Std 802.1AE-2018, 9.6, 9.8 and 9.9), and the
//! confidentiality offset.

ghost use Rattle.std.specs.Prelude.{◌≡◌, ℕ, ◌<◌, ◌^◌, ◌↔◌, List, [], ◌∷◌, IsSome, IfSome};

use std::marker::Model;

/// How many associations a channel may have: one for each association number (9.6).
pub const ASSOCIATIONS: usize = 4;

/// The end of the packet numbers: the first number that is not one, 2^32 (9.8).
pub const END_OF_NUMBERS: u64 = 1 << 32;

/// A secure channel identifier: the 6 octets of a MAC address, then 2 of a port (9.9).
#[derive(Debug, Default, Clone, Copy, PartialEq, Eq)]
pub struct Sci(pub [u8; 8]);

impl Model for Sci {
    ghost Value = { List ℕ };

    ghost view = { λ s. s.0 };

    ghost inverse = { λ octets. record { 0 = octets } };
}

impl Sci {
    /// Its 8 octets.
    pub fn get(self) -> [u8; 8]
        ensures { result ≡ self }
    {
        let Sci(octets) = self;
        octets
    }
}

/// An association number, 0 to 3 (9.6).
#[derive(Debug, Clone, Copy, PartialEq, Eq)]
pub struct An(u8);

impl Model for An {
    ghost Value = { ℕ };

    ghost view = { λ a. a.0 };

    ghost invariant = { λ a. a.0 < 4 };

    ghost inverse = { λ n. record { 0 = n } };
}

impl An {
    /// `None` for a number greater than 3.
    pub fn new(number: u8) -> Option<An>
        ensures within { IsSome result ↔ (number < 4) }
        ensures value { IfSome result (λ an. an ≡ number) }
    {
        if number < 4 { Some(An(number)) } else { None }
    }

    /// The four association numbers, ascending.
    pub fn all() -> [An; ASSOCIATIONS]
        ensures { result ≡ 0 ∷ 1 ∷ 2 ∷ 3 ∷ [] }
    {
        [An(0), An(1), An(2), An(3)]
    }

    /// Its number, 0 to 3.
    pub fn get(self) -> u8
        ensures value { result ≡ self }
        ensures range { result < 4 }
    {
        let An(number) = self;
        number
    }
}

/// A packet number, 1 to 2^32 - 1 (9.8).
#[derive(Debug, Clone, Copy, PartialEq, Eq)]
pub struct Pn(u32);

impl Model for Pn {
    ghost Value = { ℕ };

    ghost view = { λ p. p.0 };

    ghost invariant = { λ p. 0 < p.0 };

    ghost inverse = { λ n. record { 0 = n } };
}

impl Pn {
    /// `None` for 0.
    pub fn new(number: u32) -> Option<Pn>
        ensures within { IsSome result ↔ (0 < number) }
        ensures value { IfSome result (λ pn. pn ≡ number) }
    {
        if number == 0 { None } else { Some(Pn(number)) }
    }

    /// Its number, 1 to 2^32 - 1.
    pub fn get(self) -> u32
        ensures value { result ≡ self }
        ensures above { 0 < result }
        ensures below { result < 2 ^ 32 }
    {
        let Pn(packet_number) = self;
        packet_number
    }
}

/// The confidentiality offset: how many octets of User Data are in the clear if the rest is
/// encrypted (14.5 and 14.6).
#[derive(Debug, Clone, Copy, PartialEq, Eq)]
pub enum Offset {
    Zero,
    Thirty,
    Fifty,
}

impl Offset {
    ghost use Rattle.macs_fields.specs.Fields.{octets_of};

    /// `None` for a number of octets that is not 0, 30 or 50.
    pub fn new(octets: u8) -> Option<Offset>
        ensures { (offset : Offset) → (result ≡ Some offset) ↔ (octets ≡ octets_of offset) }
    {
        match octets {
            0 => Some(Offset::Zero),
            30 => Some(Offset::Thirty),
            50 => Some(Offset::Fifty),
            _ => None,
        }
    }

    /// Its number of octets.
    pub fn get(self) -> u8
        ensures { result ≡ octets_of self }
    {
        match self {
            Offset::Zero => 0,
            Offset::Thirty => 30,
            Offset::Fifty => 50,
        }
    }
}
