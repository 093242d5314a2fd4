//! GHASH (NIST SP 800-38D, 6.4) of the string that GCM hashes (7.1, step 5), by tables of four
//! bits: a text of few blocks by tables of four powers of the hash subkey, which are kept with it,
//! another by tables of eight, which are made for it.
//!
//! Blocks are numbers as in `macs_gf`. No branch and no index of the code depends on a subkey or on
//! what is hashed, only on lengths.
#![tactic(auto)]

mod filling;
mod hash;
mod kept;
mod octets;
mod powers;
mod reduction;
mod strides;
mod strings;
mod tables;

pub use hash::ghash;
pub use kept::Tables;
pub use powers::Powers;
