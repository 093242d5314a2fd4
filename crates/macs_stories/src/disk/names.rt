//! Words that name an association, a packet number, a channel, a key or a spent key.

use crate::text::Words;
use hex::FromHex;
use macs_aes::Key;
use macs_fields::{An, Pn, Sci};

/// The next word as the number of an association.
pub fn an_of(words: &mut Words<'_>) -> Option<An> {
    An::new(words.octet()?)
}

/// The next word as a packet number.
pub fn pn_of(words: &mut Words<'_>) -> Option<Pn> {
    Pn::new(words.short()?)
}

/// The next word as an SCI: hex digits, with zeros in front where they are fewer than 16.
pub fn sci_of(words: &mut Words<'_>) -> Option<Sci> {
    Some(Sci(words.hex_number()?.to_be_bytes()))
}

/// The next word as a key: of 256 bits where it is 64 hex digits; else of 128, by its hex digits,
/// with zeros in front where they are fewer than 32, or by the number of a turn.
pub fn key_of(words: &mut Words<'_>) -> Option<Key> {
    let mut behind = *words;
    if let Ok(octets) = <[u8; 32] as FromHex>::from_hex(behind.take()) {
        *words = behind;
        return Some(Key::Long(octets));
    }
    Some(Key::Short(words.hex_or_turn()?.to_be_bytes()))
}

/// The next word as the fingerprint of a key: 64 hex digits.
pub fn fingerprint_of(words: &mut Words<'_>) -> Option<[u8; 32]> {
    <[u8; 32] as FromHex>::from_hex(words.take()).ok()
}
