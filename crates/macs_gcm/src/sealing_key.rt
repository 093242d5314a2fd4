//! A key for sealing one text after another (NIST SP 800-38D, 7.1).

ghost use Rattle.std.specs.Prelude.{◌≡◌, ◌^◌, ◌<◌, length};
ghost use Rattle.macs_aes.specs.Cipher.{encrypt};
ghost use Rattle.macs_aes.specs.Keys.{octets_of_key};
ghost use Rattle.macs_gcm.specs.Gcm.{ciphertext_of, hash_subkey, pre_counter_block, seal};

use crate::gcm::{encipher, hash_subkey, tag_of};
use crate::key_stream::{DEPTH, KeyStream};
use macs_aes::{Block, Key, Schedule};
use macs_ghash::{Powers, Tables};
use std::marker::Model;

/// A key of AES, prepared for sealing texts with consecutive initialisation vectors: the first 64
/// bits are the same, and the last 32 count (8.2.1), as those of frames under an association do.
/// Key stream for texts of up to 304 octets is generated in advance, for 8 initialisation vectors
/// (x86-64-v2) or 16 (x86-64-v3); longer texts are sealed as by `seal`. Vectors in another order
/// are sealed just as correctly, but slower. It takes 5 to 8 KB. In contracts its value is its key,
/// a list of 16 or 32 octets.
#[derive(Drop)]
pub struct SealingKey {
    schedule: Schedule,
    /// Those of H, the block of 128 zero bits encrypted (7.1, step 1).
    tables: Tables,
    stream: KeyStream,
}

impl Model for SealingKey {
    ghost use Rattle.std.specs.Prelude.{◌≡◌, List, ℕ};
    ghost use Rattle.macs_gcm.specs.Gcm.{hash_subkey};
    ghost use Rattle.macs_gcm.specs.KeyStream.{IsStream};
    ghost use Rattle.macs_gcm.specs.declared.counter.TheConstants.{GROUP};

    ghost Value = { List ℕ };

    ghost view = { λ k. k.schedule };

    ghost invariant = { λ k. (k.tables ≡ hash_subkey k.schedule)
        × IsStream GROUP k.schedule k.stream.fixed k.stream.first k.stream.depth k.stream.rows };
}

impl SealingKey {
    /// Prepares a key of 128 or 256 bits.
    pub fn new(key: &Key) -> Self
        ensures { result ≡ octets_of_key key.now }
    {
        let schedule = Schedule::of(key);
        let tables = Tables::new(&Powers::new(hash_subkey(&schedule)));
        SealingKey {
            schedule,
            tables,
            stream: KeyStream::new(),
        }
    }

    /// Seals a text in place as `seal` does, and returns the tag of 128 bits. As there, no two
    /// calls with one key may have the same initialisation vector (8), and the text and the
    /// additional data have fewer than 2^32 octets each, possibly none.
    pub fn seal(&mut self, iv: &[u8; 12], aad: &[u8], text: &mut [u8]) -> [u8; 16]
        requires aad { length aad.now < 2 ^ 32 }
        requires text { length text.old < 2 ^ 32 }
        ensures sealed { (text.new, result) ≡ seal self.old iv.now aad.now text.old }
        ensures key { self.new ≡ self.old }
    {
        let mask = self.encipher(iv, text);
        tag_of(self.tables.ghash(aad, text), &mask)
    }

    /// Encrypts a text in place (7.1, step 3), and returns J0 encrypted.
    fn encipher(&mut self, iv: &[u8; 12], text: &mut [u8]) -> Block
        requires { length text.old < 2 ^ 32 }
        ensures text { text.new ≡ ciphertext_of self.old iv.now text.old }
        ensures mask { result ≡ encrypt self.old (pre_counter_block iv.now) }
        ensures key { self.new ≡ self.old }
    {
        let depth = text.len().div_ceil(16) + 1;
        if depth > DEPTH {
            return encipher(&self.schedule, iv, text);
        }
        let place = self.stream.place_for(&self.schedule, iv, depth);
        self.stream.encipher(place, text)
    }
}
