//! A sector being read from its start.

ghost use Rattle.std.specs.Prelude.{◌≡◌, ◌<◌, ◌^◌, ◌↔◌, ◌++◌, ◌∷◌, ℕ, Bool, List, IfSome};
ghost use Rattle.std.specs.Prelude.{IsTrue, Some, Option, length, replicate};
ghost use Rattle.std.specs.Int.{to_be_bytes, w32, w64};
ghost use Rattle.macs_fields.specs.Fields.{octets_of};
ghost use Rattle.macs_fields.specs.declared.fields.Offset.{Offset};
ghost use Rattle.macs_config.specs.declared.association.Protection.{Protection};
ghost use Rattle.macs_config.specs.declared.command.Replay.{Replay};
ghost use Rattle.macs_config.specs.declared.command.Role.{Role};
ghost use Rattle.macs_config.specs.declared.command.SciMode.{SciMode};
ghost use Rattle.macs_config.specs.declared.command.Validate.{Validate};
ghost use Rattle.macs_fields.specs.Fields.{IsAn, IsOctets, IsSci};
ghost use Rattle.macs_record.specs.Ranges.{IsCeiling, IsEncoding, IsFingerprints, IsKeyOf, IsStart};
ghost use Rattle.macs_record.specs.Layout.{encoding_octet, fingerprint_octets, flag_octet};
ghost use Rattle.macs_record.specs.Layout.{mode_octet, protection_octets, replay_octets};
ghost use Rattle.macs_record.specs.Layout.{role_octet, validate_octet};
ghost use Rattle.macs_record.specs.Decoding.{IsFound, IsRead};

use crate::ceiling::Ceiling;
use crate::key_length::KeyLength;
use crate::writing::NO_AN;
use macs_aes::{Key, KeyOctets};
use macs_config::{Fingerprint, Fingerprints, Protection, Replay, Role, SciMode, Validate};
use macs_fields::laws::octets_in_range;
use macs_fields::{An, Offset, Pn, Sci};
use std::marker::Model;

/// The octets that are still unread. A field is returned if and only if they begin with it; after
/// `None` nothing is promised about them.
#[derive(Drop)]
pub(crate) struct Reader<'a> {
    octets: &'a [u8],
}

impl<'a> Model for Reader<'a> {
    ghost Value = { List ℕ };

    ghost view = { λ r. r.octets.now };
}

impl<'a> Reader<'a> {
    pub(crate) fn new(octets: &'a [u8]) -> Reader<'a>
        ensures { result ≡ octets.now }
    {
        Reader { octets }
    }

    pub(crate) fn octets<const N: usize>(&mut self) -> Option<[u8; N]>
        ensures some { IsRead (IsOctets N) (λ octets. octets) self.old result self.new }
        ensures found { (octets rest : List ℕ) → length octets ≡ N → self.old ≡ octets ++ rest
            → (result ≡ Some octets) × (self.new ≡ rest) }
    {
        octets_in_range(self.octets);
        let (octets, rest) = self.octets.split_first_chunk::<N>()?;
        self.octets = rest;
        Some(*octets)
    }

    pub(crate) fn octet(&mut self) -> Option<u8>
        ensures some { IfSome result (λ octet. self.old ≡ octet ∷ self.new) }
        ensures found { (octet : ℕ) (rest : List ℕ) → self.old ≡ octet ∷ rest
            → (result ≡ Some octet) × (self.new ≡ rest) }
    {
        let (octet, rest) = self.octets.split_first()?;
        self.octets = rest;
        Some(*octet)
    }

    /// A big-endian number of 4 octets.
    pub(crate) fn u32(&mut self) -> Option<u32>
        ensures some { IsRead (λ number. number < 2 ^ 32) (to_be_bytes w32)
            self.old result self.new }
        ensures found { IsFound (λ number. number < 2 ^ 32) (to_be_bytes w32)
            self.old result self.new }
    {
        let octets = self.octets()?;
        Some(u32::from_be_bytes(octets))
    }

    /// A big-endian number of 8 octets.
    pub(crate) fn u64(&mut self) -> Option<u64>
        ensures some { IsRead (λ number. number < 2 ^ 64) (to_be_bytes w64)
            self.old result self.new }
        ensures found { IsFound (λ number. number < 2 ^ 64) (to_be_bytes w64)
            self.old result self.new }
    {
        let octets = self.octets()?;
        Some(u64::from_be_bytes(octets))
    }

    pub(crate) fn flag(&mut self) -> Option<bool>
        ensures some { IfSome result (λ is. self.old ≡ flag_octet is ∷ self.new) }
        ensures found { (is : Bool) (rest : List ℕ) → self.old ≡ flag_octet is ∷ rest
            → (result ≡ Some is) × (self.new ≡ rest) }
    {
        match self.octet()? {
            0 => Some(false),
            1 => Some(true),
            _ => None,
        }
    }

    pub(crate) fn validate(&mut self) -> Option<Validate>
        ensures some { IfSome result (λ validate. self.old ≡ validate_octet validate ∷ self.new) }
        ensures found { (validate : Validate) (rest : List ℕ)
            → self.old ≡ validate_octet validate ∷ rest
            → (result ≡ Some validate) × (self.new ≡ rest) }
    {
        match self.octet()? {
            0 => Some(Validate::Strict),
            1 => Some(Validate::Check),
            _ => None,
        }
    }

    pub(crate) fn replay(&mut self) -> Option<Replay>
        ensures some { IsRead (λ replay. replay.window < 2 ^ 32) replay_octets
            self.old result self.new }
        ensures found { IsFound (λ replay. replay.window < 2 ^ 32) replay_octets
            self.old result self.new }
    {
        let on = self.flag()?;
        let window = self.u32()?;
        Some(Replay { on, window })
    }

    pub(crate) fn sci_mode(&mut self) -> Option<SciMode>
        ensures some { IfSome result (λ mode. self.old ≡ mode_octet mode ∷ self.new) }
        ensures found { (mode : SciMode) (rest : List ℕ) → self.old ≡ mode_octet mode ∷ rest
            → (result ≡ Some mode) × (self.new ≡ rest) }
    {
        match self.octet()? {
            0 => Some(SciMode::Explicit),
            1 => Some(SciMode::EndStation),
            2 => Some(SciMode::Implicit),
            _ => None,
        }
    }

    /// An association number, or `None` for the octet ff.
    pub(crate) fn encoding(&mut self) -> Option<Option<An>>
        ensures some { IfSome result
            (λ encoding. IsEncoding encoding × (self.old ≡ encoding_octet encoding ∷ self.new)) }
        ensures found { (encoding : Option ℕ) (rest : List ℕ) → IsEncoding encoding
            → self.old ≡ encoding_octet encoding ∷ rest
            → (result ≡ Some encoding) × (self.new ≡ rest) }
    {
        match self.octet()? {
            NO_AN => Some(None),
            number => Some(Some(An::new(number)?)),
        }
    }

    pub(crate) fn an(&mut self) -> Option<An>
        ensures some { IfSome result (λ an. IsAn an × (self.old ≡ an ∷ self.new)) }
        ensures found { (an : ℕ) (rest : List ℕ) → IsAn an → self.old ≡ an ∷ rest
            → (result ≡ Some an) × (self.new ≡ rest) }
    {
        An::new(self.octet()?)
    }

    pub(crate) fn sci(&mut self) -> Option<Sci>
        ensures some { IsRead IsSci (λ sci. sci) self.old result self.new }
        ensures found { IsFound IsSci (λ sci. sci) self.old result self.new }
    {
        Some(Sci(self.octets()?))
    }

    /// A key of this length.
    pub(crate) fn key(&mut self, length: KeyLength) -> Option<KeyOctets>
        ensures some { IsRead (IsKeyOf length) (λ key. key) self.old result self.new }
        ensures found { IsFound (IsKeyOf length) (λ key. key) self.old result self.new }
    {
        match length {
            KeyLength::Short => self.short_key(),
            KeyLength::Long => self.long_key(),
        }
    }

    /// A key of 16 octets.
    fn short_key(&mut self) -> Option<KeyOctets>
        ensures some { IsRead (IsOctets 16) (λ key. key) self.old result self.new }
        ensures found { IsFound (IsOctets 16) (λ key. key) self.old result self.new }
    {
        Some(KeyOctets::of(Key::Short(self.octets()?)))
    }

    /// A key of 32 octets.
    fn long_key(&mut self) -> Option<KeyOctets>
        ensures some { IsRead (IsOctets 32) (λ key. key) self.old result self.new }
        ensures found { IsFound (IsOctets 32) (λ key. key) self.old result self.new }
    {
        Some(KeyOctets::of(Key::Long(self.octets()?)))
    }

    pub(crate) fn start(&mut self) -> Option<Pn>
        ensures some { IsRead IsStart (to_be_bytes w32) self.old result self.new }
        ensures found { IsFound IsStart (to_be_bytes w32) self.old result self.new }
    {
        Pn::new(self.u32()?)
    }

    pub(crate) fn ceiling(&mut self) -> Option<Ceiling>
        ensures some { IsRead IsCeiling (to_be_bytes w64) self.old result self.new }
        ensures found { IsFound IsCeiling (to_be_bytes w64) self.old result self.new }
    {
        Ceiling::new(self.u64()?)
    }

    pub(crate) fn offset(&mut self) -> Option<Offset>
        ensures some { IfSome result (λ offset. self.old ≡ octets_of offset ∷ self.new) }
        ensures found { (offset : Offset) (rest : List ℕ) → self.old ≡ octets_of offset ∷ rest
            → (result ≡ Some offset) × (self.new ≡ rest) }
    {
        Offset::new(self.octet()?)
    }

    /// Also `None` for an offset that is not 0 without confidentiality.
    pub(crate) fn protection(&mut self) -> Option<Protection>
        ensures some { IfSome result
            (λ protection. self.old ≡ protection_octets protection ++ self.new) }
        ensures found { (protection : Protection) (rest : List ℕ)
            → self.old ≡ protection_octets protection ++ rest
            → (result ≡ Some protection) × (self.new ≡ rest) }
    {
        let confidential = self.flag()?;
        let offset = self.offset()?;
        Protection::chosen(confidential, offset)
    }

    pub(crate) fn role(&mut self) -> Option<Role>
        ensures some { IfSome result (λ role. self.old ≡ role_octet role ∷ self.new) }
        ensures found { (role : Role) (rest : List ℕ) → self.old ≡ role_octet role ∷ rest
            → (result ≡ Some role) × (self.new ≡ rest) }
    {
        match self.octet()? {
            0 => Some(Role::Transmit),
            1 => Some(Role::Receive),
            _ => None,
        }
    }

    pub(crate) fn fingerprints(&mut self) -> Option<Fingerprints>
        ensures some { IsRead IsFingerprints fingerprint_octets self.old result self.new }
        ensures found { IsFound IsFingerprints fingerprint_octets self.old result self.new }
    {
        let count = self.octet()?;
        if count == 0 {
            return None;
        }
        let first = self.octets()?;
        let mut items = Fingerprints::new(first);
        for _ in 1..count {
            let next = self.octets()?;
            if !items.push(next) {
                return None;
            }
        }
        Some(items)
    }

    /// Whether all unread octets are zeros.
    pub(crate) fn is_zero(&self) -> bool
        ensures { IsTrue result ↔ (self.now ≡ replicate (length self.now) 0) }
    {
        self.octets.iter().all(|octet| *octet == 0)
    }
}
