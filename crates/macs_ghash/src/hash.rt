//! GHASH of the padded additional data, the padded text and their lengths (NIST SP 800-38D, 7.1).

ghost use Rattle.std.specs.Prelude.{◌≡◌, ◌^◌, ◌<◌, length};
ghost use Rattle.std.specs.Int.{to_be_bytes, w128};
ghost use Rattle.macs_gf.specs.Ghash.{blocks_of, ghash, hash_input};

use crate::octets::SIXTEENS;
use crate::powers::Powers;

/// From this many blocks on, tables of eight powers are made for the string. With fewer they cost
/// more than they save.
const MANY: usize = 32 + 80 / SIXTEENS;

/// GHASH (NIST SP 800-38D, 6.4) with a prepared hash subkey, of the additional data and the text,
/// which is the ciphertext, each padded to whole blocks, and of the block of their lengths (7.1,
/// step 5). Each has fewer than 2^32 octets, possibly none.
pub fn ghash(powers: &Powers, aad: &[u8], text: &[u8]) -> [u8; 16]
    requires aad { length aad.now < 2 ^ 32 }
    requires text { length text.now < 2 ^ 32 }
    ensures { result
        ≡ to_be_bytes w128 (ghash powers.now (blocks_of (hash_input aad.now text.now))) }
{
    let count = aad.len().div_ceil(16) + text.len().div_ceil(16) + 1;
    let state = if count < MANY {
        powers.by_fours(aad, text, count)
    } else {
        powers.by_eights(aad, text, count)
    };
    state.to_be_bytes()
}
