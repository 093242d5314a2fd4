//! Products in the two fields of AES-GCM: the field of 256 elements that AES computes in (FIPS 197
//! (2001), 4.2) and the field of 2^128 elements that GHASH computes in (NIST SP 800-38D, 6.3). With
//! them are the definitions of GHASH (6.4) and of the string that GCM hashes (7.1), for the crates
//! above.
//!
//! An octet of AES is a `u8`, whose bit i is the coefficient of x^i. A block of GHASH is a `u128`,
//! whose bits count from the most significant: bit 0, 2^127, is the coefficient of x^0. That is the
//! number whose 16 octets, most significant first, are the block's. The sum is `^` in both fields.
#![tactic(auto)]

mod block;
pub mod laws;
mod octet;
mod registers;

pub use block::{mul128, xtime128};
pub use octet::mul8;
pub use registers::REGISTER_BITS;
