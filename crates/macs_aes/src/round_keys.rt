//! Round keys as words of bits, which are the same for all blocks.

ghost use Rattle.std.specs.Prelude.{◌≡◌};
ghost use Rattle.macs_aes.specs.RoundKeys.{octets_in_words};

use crate::Block;
use crate::bits::{bit_word, octets_of};

/// A round key: bit j of word k is bit k (the least significant first) of octet j.
pub(crate) type KeyBits = [u16; 8];

/// The bits of a round key.
#[inline(always)]
pub(crate) fn bits_of(key: &Block) -> KeyBits
    ensures { octets_in_words result ≡ key.now }
{
    let octets = octets_of(key);
    [
        bit_word(octets, 0x01),
        bit_word(octets, 0x02),
        bit_word(octets, 0x04),
        bit_word(octets, 0x08),
        bit_word(octets, 0x10),
        bit_word(octets, 0x20),
        bit_word(octets, 0x40),
        bit_word(octets, 0x80),
    ]
}
