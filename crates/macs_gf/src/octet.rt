//! The field of 256 elements (FIPS 197, 4.2).

ghost use Rattle.std.specs.Prelude.{◌≡◌};
ghost use Rattle.macs_gf.specs.Gf256.{octet_product};

/// x^4 + x^3 + x + 1, the remainder of x^8.
const REDUCTION: u8 = 0x1B;

/// The product of x and an octet, reduced (FIPS 197, 4.2.1).
fn xtime8(a: u8) -> u8
    ensures { result ≡ octet_product 2 a }
{
    if a < 0x80 {
        a << 1
    } else {
        (a << 1) ^ REDUCTION
    }
}

/// The product of two octets in the field of AES (FIPS 197, 4.2): that of the two polynomials,
/// reduced by x^8 + x^4 + x^3 + x + 1. Bit i of an octet is the coefficient of x^i.
pub fn mul8(a: u8, b: u8) -> u8
    ensures { result ≡ octet_product a b }
{
    let mut product = 0u8;
    let mut multiple = a;
    for i in 0..u8::BITS {
        if (b >> i) & 1 == 1 {
            product ^= multiple;
        }
        multiple = xtime8(multiple);
    }
    product
}
