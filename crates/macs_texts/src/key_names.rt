//! Identifiers for keys that must not be shown.
#![tactic(auto, using(crate::proofs::Adding::joined, crate::proofs::Adding::empty))]

ghost use Rattle.std.specs.Prelude.{◌≡◌};
ghost use Rattle.macs_commands.specs.Papers.{Writes};
ghost use Rattle.macs_texts.specs.KeyTexts.{key_digest, key_id};

use macs_commands::Paper;
use sha2::{Digest, Sha256};

/// The digest that identifies a key: the SHA-256 of `macsecd key `, including the trailing space,
/// followed by the key (FIPS 180-4), 32 octets. It differs from what the disk file stores for a
/// key.
pub fn key_digest(key: &[u8]) -> [u8; 32]
    ensures { result ≡ key_digest key.now }
{
    let mut hasher = Sha256::new();
    hasher.update("macsecd key ".as_bytes());
    hasher.update(key);
    hasher.finalize()
}

/// Writes the identifier by which two ends compare keys: the first eight hex digits of the digest.
pub(crate) fn key_id(paper: &mut Paper, key: &[u8])
    ensures { Writes paper.old paper.new (key_id key.now) }
{
    let digest = key_digest(key);
    paper.hex(&digest[..4]);
}
