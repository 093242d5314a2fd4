//! Sealing and opening: authenticated encryption and decryption (NIST SP 800-38D, 7.1 and 7.2).

ghost use Rattle.std.specs.Prelude.{◌≡◌, ◌^◌, ◌<◌, ◌↔◌, ℕ, List, length, IsTrue};
ghost use Rattle.std.specs.Bool.{OnFalse, OnTrue};
ghost use Rattle.macs_aes.specs.Keys.{octets_of_key};
ghost use Rattle.macs_aes.specs.Cipher.{encrypt};
ghost use Rattle.macs_gcm.specs.Gcm.{Opens, hash_subkey, pre_counter_block, seal};
ghost use Rattle.macs_gcm.specs.Gcm.{authentication_tag, ciphertext_of};
ghost use Rattle.macs_gf.specs.Ghash.{blocks_of, ghash, hash_input};
ghost use Rattle.std.specs.Int.{to_be_bytes, w128};

use crate::counter::{gctr_after_first, mask_room, put_masks, xor_whole};
use macs_aes::{Block, Key, Schedule};
use macs_ghash::{Powers, ghash};
use macs_planes::{GroupKeys, key_room};
use std::marker::Model;

/// A key of AES, prepared for GCM: its round keys and the powers of its hash subkey. In contracts
/// its value is its key, a list of 16 or 32 octets.
#[derive(Drop)]
pub struct GcmKey {
    schedule: Schedule,
    /// The powers of H, the block of 128 zero bits encrypted (7.1, step 1).
    powers: Powers,
}

impl Model for GcmKey {
    ghost Value = { List ℕ };

    ghost view = { λ k. k.schedule };

    ghost invariant = { λ k. k.powers ≡ hash_subkey k.schedule };
}

/// H, the block of 128 zero bits encrypted (7.1, step 1): the first of a group.
pub(crate) fn hash_subkey(schedule: &Schedule) -> u128
    ensures { result ≡ hash_subkey schedule.now }
{
    let mut room = key_room();
    let keys = GroupKeys::new(schedule, &mut room);
    let mut masks = mask_room();
    put_masks(&mut masks, &keys, &[0; 12], 0);
    u128::from_be_bytes(masks[0])
}

impl GcmKey {
    /// Prepares a key of 128 or 256 bits.
    pub fn new(key: &Key) -> Self
        ensures { result ≡ octets_of_key key.now }
    {
        let schedule = Schedule::of(key);
        let powers = Powers::new(hash_subkey(&schedule));
        GcmKey { schedule, powers }
    }
}

/// The tag from the hash of additional data and ciphertext and from J0 encrypted (7.1, steps 4 to
/// 6).
pub(crate) fn tag_of(hash: [u8; 16], mask: &Block) -> [u8; 16]
    requires { length hash ≡ 16 }
    ensures { (key iv aad text : List ℕ)
        → hash ≡ to_be_bytes w128 (ghash (hash_subkey key) (blocks_of (hash_input aad text)))
        → mask.now ≡ encrypt key (pre_counter_block iv)
        → result ≡ authentication_tag key iv aad text }
{
    let mut tag = hash;
    xor_whole(&mut tag, 0, mask);
    tag
}

/// Encrypts the text in place (7.1, step 3), and returns J0 encrypted.
pub(crate) fn encipher(schedule: &Schedule, iv: &[u8; 12], text: &mut [u8]) -> Block
    requires { length text.old < 2 ^ 32 }
    ensures text { text.new ≡ ciphertext_of schedule.now iv.now text.old }
    ensures mask { result ≡ encrypt schedule.now (pre_counter_block iv.now) }
{
    let mut room = key_room();
    let keys = GroupKeys::new(schedule, &mut room);
    let mut masks = mask_room();
    put_masks(&mut masks, &keys, iv, 0);
    gctr_after_first(&keys, iv, &masks, text);
    masks[1]
}

/// Whether two tags are equal. It reads all sixteen octets of both, even after a difference.
fn is_equal(one: &[u8; 16], other: &[u8; 16]) -> bool
    ensures { IsTrue result ↔ (one.now ≡ other.now) }
{
    let mut difference = 0;
    for i in 0..16 {
        difference |= one[i] ^ other[i];
    }
    difference == 0
}

/// Encrypts the text in place, and returns the tag of 128 bits that authenticates it and the
/// additional data (7.1).
///
/// The initialisation vector has 96 bits, and no two calls with one key may have the same (8). The
/// text and the additional data have fewer than 2^32 octets each, possibly none.
pub fn seal(key: &GcmKey, iv: &[u8; 12], aad: &[u8], text: &mut [u8]) -> [u8; 16]
    requires aad { length aad.now < 2 ^ 32 }
    requires text { length text.old < 2 ^ 32 }
    ensures { (text.new, result) ≡ seal key.now iv.now aad.now text.old }
{
    let mask = encipher(&key.schedule, iv, text);
    tag_of(ghash(&key.powers, aad, text), &mask)
}

/// Decrypts the text in place and returns true if the tag of 128 bits authenticates the text and
/// the additional data; otherwise returns false and leaves the text unchanged (7.2).
///
/// The text and the additional data have fewer than 2^32 octets each, possibly none. The tag is
/// compared before anything is decrypted, by all of its octets.
pub fn open(key: &GcmKey, iv: &[u8; 12], aad: &[u8], text: &mut [u8], tag: &[u8; 16]) -> bool
    requires aad { length aad.now < 2 ^ 32 }
    requires text { length text.old < 2 ^ 32 }
    ensures exactly { IsTrue result ↔ Opens key.now iv.now aad.now text.old tag.now }
    ensures opened { OnTrue result (seal key.now iv.now aad.now text.new ≡ (text.old, tag.now)) }
    ensures same { OnFalse result (text.new ≡ text.old) }
{
    let mut room = key_room();
    let keys = GroupKeys::new(&key.schedule, &mut room);
    let mut masks = mask_room();
    put_masks(&mut masks, &keys, iv, 0);
    if !is_equal(&tag_of(ghash(&key.powers, aad, text), &masks[1]), tag) {
        return false;
    }
    gctr_after_first(&keys, iv, &masks, text);
    true
}
