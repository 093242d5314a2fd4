//! Keys as a C program stores them.

ghost use Rattle.std.specs.Prelude.{◌≡◌, ◌↔◌, ◌≤◌, IfSome, IsSome, IsTrue, drop, length, true};
ghost use Rattle.std.specs.Bool.{OnFalse, OnTrue};
ghost use Rattle.macs_aes.specs.Keys.{octets_of_key};
ghost use Rattle.macs_c.specs.Keys.{IsKeyLength, is_key, key_octets};

use macs_aes::Key;

/// A key of GCM-AES-128 or of GCM-AES-256 (14.5 and 14.6): its first `length` octets, 16 or 32.
#[repr(C)]
pub struct MacsKey {
    /// The octets of the key, first those that the standard writes first.
    pub octets: [u8; 32],
    /// How many of them are the key: 16 or 32.
    pub length: u32,
}

/// The key, `None` if its length is neither 16 nor 32.
pub(crate) fn key_of(key: &MacsKey) -> Option<Key>
    ensures some { IsSome result ↔ (is_key key.now ≡ true) }
    ensures octets { IfSome result (λ found. octets_of_key found ≡ key_octets key.now) }
{
    let length = key.length as usize;
    if length > 32 {
        return None;
    }
    Key::from_slice(&key.octets[..length])
}

/// Stores a key of 16 or 32 octets, and leaves the other octets of `key` as they were. Returns
/// whether the length is valid; if not, `key` is unchanged.
pub(crate) fn keep(octets: &[u8], key: &mut MacsKey) -> bool
    ensures exactly { IsTrue result ↔ IsKeyLength (length octets.now) }
    ensures kept { OnTrue result ((is_key key.new ≡ true) × (key_octets key.new ≡ octets.now)) }
    ensures rest { drop (length octets.now) key.new.octets
        ≡ drop (length octets.now) key.old.octets }
    ensures same { OnFalse result (key.new ≡ key.old) }
{
    let length = octets.len();
    if length != 16 && length != 32 {
        return false;
    }
    key.octets[..length].copy_from_slice(octets);
    key.length = length as u32;
    true
}
