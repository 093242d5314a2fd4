//! Laws of the two fields. Each function does nothing: its contract is the law.

ghost use Rattle.std.specs.Prelude.{◌≡◌, ◌↔◌, ◌%◌, ◌^◌, ◌<◌, ◌++◌, List, bit_xor, length, ℕ};
ghost use Rattle.macs_gf.specs.Gf128.{block_product};
ghost use Rattle.macs_gf.specs.Gf256.{IsInverse, aes_modulus, inverse, octet_product};
ghost use Rattle.macs_gf.specs.Ghash.{blocks_of, ghash, ghash_from, subkey_power, padded_string};
ghost use Rattle.macs_gf.specs.Polynomial.{IsRemainder, product_below};

/// The product of two octets is the remainder of the product of their polynomials on division by
/// x^8 + x^4 + x^3 + x + 1 (FIPS 197, 4.2).
pub fn octet_product_is_remainder(a: u8, b: u8)
    ensures { IsRemainder aes_modulus (product_below a b 8) (octet_product a b) }
{}

/// The product of octets distributes over their sum (FIPS 197, 4.2).
pub fn octet_product_distributes(a: u8, b: u8, c: u8)
    ensures left { octet_product (bit_xor a b) c ≡ bit_xor (octet_product a c) (octet_product b c) }
    ensures right { octet_product a (bit_xor b c)
        ≡ bit_xor (octet_product a b) (octet_product a c) }
{}

/// The product of octets does not depend on their order.
pub fn octet_product_commutes(a: u8, b: u8)
    ensures { octet_product a b ≡ octet_product b a }
{}

/// The product of three octets does not depend on which two are multiplied first (FIPS 197, 4.2).
pub fn octet_product_associates(a: u8, b: u8, c: u8)
    ensures { octet_product (octet_product a b) c ≡ octet_product a (octet_product b c) }
{}

/// The octet 1 is the one of the field (FIPS 197, 4.2).
pub fn octet_one(a: u8)
    ensures left { octet_product 1 a ≡ a }
    ensures right { octet_product a 1 ≡ a }
{}

/// Each octet has exactly one inverse, an octet (FIPS 197, 4.2; that of 0 is 0, 5.1.1).
pub fn octet_inverse(a: u8)
    ensures { (b : ℕ) → IsInverse a b ↔ (b ≡ inverse a) }
{}

/// The product of two blocks is a block.
pub fn block_product_is_block(a: u128, b: u128)
    ensures { block_product a b < 2 ^ 128 }
{}

/// The product of blocks distributes over their sum.
pub fn block_product_distributes(a: u128, b: u128, c: u128)
    ensures left { block_product (bit_xor a b) c ≡ bit_xor (block_product a c) (block_product b c) }
    ensures right { block_product a (bit_xor b c)
        ≡ bit_xor (block_product a b) (block_product a c) }
{}

/// The product of blocks does not depend on their order.
pub fn block_product_commutes(a: u128, b: u128)
    ensures { block_product a b ≡ block_product b a }
{}

/// The product of three blocks does not depend on which two are multiplied first.
pub fn block_product_associates(a: u128, b: u128, c: u128)
    ensures { block_product (block_product a b) c ≡ block_product a (block_product b c) }
{}

/// The block whose only set bit is bit 0 is the one of the field.
pub fn block_one(a: u128)
    ensures left { block_product (2 ^ 127) a ≡ a }
    ensures right { block_product a (2 ^ 127) ≡ a }
{}

/// GHASH from a state is the product of the state and the hash subkey raised to the number of
/// blocks, plus GHASH of the blocks.
pub fn ghash_from_state(h: u128, y: u128, blocks: &[u128])
    ensures { let power = subkey_power h (length blocks.now) in
        ghash_from h y blocks.now ≡ bit_xor (block_product y power) (ghash h blocks.now) }
{}

/// A string appended to whole blocks of 16 octets is padded, and cut into blocks, as it is on its
/// own (SP 800-38D, 7.1).
pub fn padding_splits()
    ensures padded { (front octets : List ℕ) → length front % 16 ≡ 0
        → padded_string (front ++ octets) ≡ front ++ padded_string octets }
    ensures blocks { (front octets : List ℕ) → length front % 16 ≡ 0
        → blocks_of (front ++ octets) ≡ blocks_of front ++ blocks_of octets }
{}
