//! The field of 2^128 elements (NIST SP 800-38D, 6.3). Bits count from the most significant, so
//! that bit i of a block, the coefficient of x^i, is the bit 127 - i of its number.

ghost use Rattle.std.specs.Prelude.{◌≡◌};
ghost use Rattle.macs_gf.specs.Gf128.{block_product, times_x};

/// R of SP 800-38D, 6.3: the octet E1 and 15 zero octets, the remainder of x^128.
const REDUCTION: u128 = 0xE1 << 120;

/// The product of x and a block in the field of GHASH: SP 800-38D, 6.3, algorithm 1, step 3: the
/// next V from V.
pub fn xtime128(a: u128) -> u128
    ensures { result ≡ times_x a }
{
    if a & 1 == 1 {
        (a >> 1) ^ REDUCTION
    } else {
        a >> 1
    }
}

/// The product of two blocks in the field of GHASH (SP 800-38D, 6.3, algorithm 1).
pub fn mul128(a: u128, b: u128) -> u128
    ensures { result ≡ block_product a b }
{
    let mut product = 0u128;
    let mut multiple = b;
    for i in 0..u128::BITS {
        if (a >> (127 - i)) & 1 == 1 {
            product ^= multiple;
        }
        multiple = xtime128(multiple);
    }
    product
}
