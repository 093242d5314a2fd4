//! AES (FIPS 197, edition of 2001) on groups of blocks, as many as a vector register has words of
//! 16 bits: the cipher on planes of bits of `macs_aes`, where an octet of a plane has the bits of
//! one octet's place in eight blocks, so that rows are moved by shuffles.
//!
//! There is no table that a key or a block indexes, and no octet is taken by itself, so that no
//! address and no branch depends on a key or on a block.
#![tactic(auto)]

mod across;
mod counters;
mod group;
mod key_planes;
mod places;

pub use group::{GroupKeys, encrypt16};
pub use key_planes::{KeyPlanes, ROUND_KEYS, key_room};
pub use macs_aes::Planes;
pub use places::LANES;
