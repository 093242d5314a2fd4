//! Keys of the cipher, and their octets.

ghost use Rattle.std.specs.Prelude.{◌≡◌, ◌⊎◌, ◌↔◌, IfSome, IsSome, length};
ghost use Rattle.macs_aes.specs.Keys.{HasItsLength, octets_of_key};

use std::marker::Model;

/// A key of AES: of 128 bits, or of 256. It has no `Debug`, so that no key is printed.
#[derive(Clone, Copy, PartialEq, Eq)]
pub enum Key {
    /// 16 octets.
    Short([u8; 16]),
    /// 32 octets.
    Long([u8; 32]),
}

impl Key {
    /// The key with these octets, if there are 16 or 32; else `None`.
    pub fn from_slice(octets: &[u8]) -> Option<Self>
        ensures found { IfSome result (λ key. octets_of_key key ≡ octets.now) }
        ensures exactly { IsSome result ↔ ((length octets.now ≡ 16) ⊎ (length octets.now ≡ 32)) }
    {
        if let Ok(short) = <[u8; 16]>::try_from(octets) {
            return Some(Key::Short(short));
        }
        match <[u8; 32]>::try_from(octets) {
            Ok(long) => Some(Key::Long(long)),
            Err(_) => None,
        }
    }

    /// Its octets, 16 or 32.
    pub fn as_slice(&self) -> &[u8]
        ensures octets { result.now ≡ octets_of_key self.now }
        ensures size { HasItsLength self.now }
    {
        match self {
            Key::Short(octets) => octets,
            Key::Long(octets) => octets,
        }
    }
}

/// A key, for storage. In contracts its value is the list of its octets, 16 or 32.
#[derive(Clone, Copy, PartialEq, Eq)]
pub struct KeyOctets {
    key: Key,
}

impl Model for KeyOctets {
    ghost use Rattle.std.specs.Prelude.{List, ℕ};
    ghost use Rattle.macs_aes.specs.Keys.{HasItsLength, key_of_octets, octets_of_key};
    ghost use Rattle.macs_aes.specs.Keys.{key_of_octets-octets_of_key};

    ghost Value = { List ℕ };

    ghost view = { λ k. octets_of_key k.key };

    ghost invariant = { λ k. HasItsLength k.key };

    ghost inverse = { λ octets. record { key = key_of_octets octets } };

    ghost inverse_ok = { λ k h i. record { key = key_of_octets-octets_of_key k.key h i } };
}

impl KeyOctets {
    /// The octets of a key.
    pub fn of(key: Key) -> Self
        ensures { result ≡ octets_of_key key }
    {
        KeyOctets { key }
    }

    /// The key with these octets.
    pub fn get(self) -> Key
        ensures { octets_of_key result ≡ self }
    {
        self.key
    }

    /// Its octets.
    pub fn as_slice(&self) -> &[u8]
        ensures octets { result.now ≡ self.now }
        ensures size { (length self.now ≡ 16) ⊎ (length self.now ≡ 32) }
    {
        self.key.as_slice()
    }
}
