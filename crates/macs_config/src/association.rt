//! Secure associations, as the operator configures them.

use macs_aes::KeyOctets;
use macs_fields::Offset;

/// What an association does with User Data (IEEE Std 802.1AE-2018, 14.5).
#[derive(Clone, Copy, Debug, PartialEq, Eq)]
pub enum Protection {
    /// User Data are authenticated, and all are in the clear.
    Integrity,
    /// User Data are authenticated, and encrypted from the offset on.
    Confidentiality(Offset),
}

impl Protection {
    ghost use Rattle.std.specs.Prelude.{◌≡◌, ◌↔◌, Some};
    ghost use Rattle.macs_config.specs.Association.{is_confidential, offset_of, protection_of};

    /// With confidentiality at this offset, or without: then the offset is ignored.
    pub fn new(confidential: bool, offset: Offset) -> Protection
        ensures { result ≡ protection_of confidential offset }
    {
        if confidential {
            Protection::Confidentiality(offset)
        } else {
            Protection::Integrity
        }
    }

    /// With confidentiality at this offset, or without. `None` for an offset other than 0 without
    /// confidentiality.
    pub fn chosen(confidential: bool, offset: Offset) -> Option<Protection>
        ensures { (protection : Protection) → (result ≡ Some protection)
            ↔ ((confidential ≡ is_confidential protection) × (offset ≡ offset_of protection)) }
    {
        if confidential || offset == Offset::Zero {
            Some(Protection::new(confidential, offset))
        } else {
            None
        }
    }

    /// Whether User Data are encrypted.
    pub fn is_confidential(self) -> bool
        ensures { result ≡ is_confidential self }
    {
        matches!(self, Protection::Confidentiality(_))
    }

    /// The confidentiality offset, `Zero` without confidentiality.
    pub fn offset(self) -> Offset
        ensures { result ≡ offset_of self }
    {
        match self {
            Protection::Integrity => Offset::Zero,
            Protection::Confidentiality(offset) => offset,
        }
    }
}

/// A transmit association: its key of 16 or 32 octets, and what it does with User Data.
#[derive(Clone, Copy, PartialEq, Eq)]
pub struct TxSa {
    pub key: KeyOctets,
    pub protection: Protection,
}

/// A receive association: its key of 16 or 32 octets, and the confidentiality offset of its
/// encrypted frames.
#[derive(Clone, Copy, PartialEq, Eq)]
pub struct RxSa {
    pub key: KeyOctets,
    pub offset: Offset,
}
