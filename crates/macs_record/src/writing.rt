//! A sector being written from its start.

ghost use Rattle.std.specs.Prelude.{◌≡◌, ◌≤◌, ◌+◌, ◌++◌, ◌∷◌, ℕ, List, [], length};
ghost use Rattle.std.specs.Int.{to_be_bytes, w32, w64};
ghost use Rattle.macs_fields.specs.Fields.{octets_of};
ghost use Rattle.macs_record.specs.Sectors.{padded_sector};
ghost use Rattle.macs_record.specs.Layout.{encoding_octet, fingerprint_octets, flag_octet};
ghost use Rattle.macs_record.specs.Layout.{mode_octet, protection_octets, replay_octets};
ghost use Rattle.macs_record.specs.Layout.{role_octet, validate_octet};

use crate::SECTOR;
use crate::ceiling::Ceiling;
use arrayvec::ArrayVec;
use macs_config::{Fingerprints, Protection, Replay, Role, SciMode, Validate};
use macs_fields::{An, Offset, Pn, Sci};
use std::marker::Model;

/// The octet for no association number.
pub(crate) const NO_AN: u8 = 0xff;

/// The octets written so far.
#[derive(Drop)]
pub(crate) struct RecordWriter {
    octets: ArrayVec<u8, SECTOR>,
}

impl Model for RecordWriter {
    ghost Value = { List ℕ };

    ghost view = { λ w. w.octets.items };
}

impl RecordWriter {
    pub(crate) fn new() -> RecordWriter
        ensures { result ≡ [] }
    {
        RecordWriter {
            octets: ArrayVec::new(),
        }
    }

    pub(crate) fn octets(mut self, octets: &[u8]) -> RecordWriter
        requires room { length self + length octets.now ≤ 512 }
        ensures { result ≡ self ++ octets.now }
    {
        self.octets.try_extend_from_slice(octets).unwrap();
        self
    }

    pub(crate) fn octet(self, octet: u8) -> RecordWriter
        requires room { length self + 1 ≤ 512 }
        ensures { result ≡ self ++ octet ∷ [] }
    {
        self.octets(&[octet])
    }

    /// A big-endian number of 4 octets.
    pub(crate) fn u32(self, number: u32) -> RecordWriter
        requires room { length self + 4 ≤ 512 }
        ensures { result ≡ self ++ to_be_bytes w32 number }
    {
        self.octets(&number.to_be_bytes())
    }

    /// A big-endian number of 8 octets.
    pub(crate) fn u64(self, number: u64) -> RecordWriter
        requires room { length self + 8 ≤ 512 }
        ensures { result ≡ self ++ to_be_bytes w64 number }
    {
        self.octets(&number.to_be_bytes())
    }

    pub(crate) fn flag(self, is: bool) -> RecordWriter
        requires room { length self + 1 ≤ 512 }
        ensures { result ≡ self ++ flag_octet is ∷ [] }
    {
        self.octet(u8::from(is))
    }

    pub(crate) fn validate(self, validate: Validate) -> RecordWriter
        requires room { length self + 1 ≤ 512 }
        ensures { result ≡ self ++ validate_octet validate ∷ [] }
    {
        self.octet(match validate {
            Validate::Strict => 0,
            Validate::Check => 1,
        })
    }

    pub(crate) fn replay(self, replay: Replay) -> RecordWriter
        requires room { length self + 5 ≤ 512 }
        ensures { result ≡ self ++ replay_octets replay }
    {
        self.flag(replay.on).u32(replay.window)
    }

    pub(crate) fn sci_mode(self, sci_mode: SciMode) -> RecordWriter
        requires room { length self + 1 ≤ 512 }
        ensures { result ≡ self ++ mode_octet sci_mode ∷ [] }
    {
        self.octet(match sci_mode {
            SciMode::Explicit => 0,
            SciMode::EndStation => 1,
            SciMode::Implicit => 2,
        })
    }

    pub(crate) fn encoding(self, encoding: Option<An>) -> RecordWriter
        requires room { length self + 1 ≤ 512 }
        ensures { result ≡ self ++ encoding_octet encoding ∷ [] }
    {
        match encoding {
            Some(an) => self.an(an),
            None => self.octet(NO_AN),
        }
    }

    pub(crate) fn an(self, an: An) -> RecordWriter
        requires room { length self + 1 ≤ 512 }
        ensures { result ≡ self ++ an ∷ [] }
    {
        self.octet(an.get())
    }

    pub(crate) fn sci(self, sci: Sci) -> RecordWriter
        requires room { length self + 8 ≤ 512 }
        ensures written { result ≡ self ++ sci }
        ensures size { length result ≡ length self + 8 }
    {
        self.octets(&sci.get())
    }

    pub(crate) fn start(self, start: Pn) -> RecordWriter
        requires room { length self + 4 ≤ 512 }
        ensures { result ≡ self ++ to_be_bytes w32 start }
    {
        self.u32(start.get())
    }

    pub(crate) fn ceiling(self, ceiling: Ceiling) -> RecordWriter
        requires room { length self + 8 ≤ 512 }
        ensures { result ≡ self ++ to_be_bytes w64 ceiling }
    {
        self.u64(ceiling.get())
    }

    pub(crate) fn offset(self, offset: Offset) -> RecordWriter
        requires room { length self + 1 ≤ 512 }
        ensures { result ≡ self ++ octets_of offset ∷ [] }
    {
        self.octet(offset.get())
    }

    pub(crate) fn protection(self, protection: Protection) -> RecordWriter
        requires room { length self + 2 ≤ 512 }
        ensures { result ≡ self ++ protection_octets protection }
    {
        self.flag(protection.is_confidential())
            .offset(protection.offset())
    }

    pub(crate) fn role(self, role: Role) -> RecordWriter
        requires room { length self + 1 ≤ 512 }
        ensures { result ≡ self ++ role_octet role ∷ [] }
    {
        self.octet(match role {
            Role::Transmit => 0,
            Role::Receive => 1,
        })
    }

    pub(crate) fn fingerprints(self, fingerprints: &Fingerprints) -> RecordWriter
        requires room { length self + 481 ≤ 512 }
        ensures { result ≡ self ++ fingerprint_octets fingerprints.now }
    {
        let items = fingerprints.as_slice();
        let mut writer = self.octet(items.len() as u8);
        for item in items {
            writer = writer.octets(item);
        }
        writer
    }

    /// The octets, followed by zeros to the end of the sector.
    pub(crate) fn finish(self) -> [u8; SECTOR]
        ensures { result ≡ padded_sector self }
    {
        let mut octets = self.octets;
        let room = SECTOR - octets.len();
        octets.try_extend_from_slice(&[0; SECTOR][..room]).unwrap();
        octets.into_inner().unwrap()
    }
}
