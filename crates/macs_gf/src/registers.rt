//! The width of the processor's vector registers, for the crates that work on several blocks side
//! by side. They are proved for 128 and for 256 bits, and correct with both on each processor; with
//! another width than the processor's they are slower.

/// The width of a vector register, in bits: 128 for x86-64-v2, which is the toolchain's default.
/// `tools/tree_for` writes 256 for x86-64-v3.
pub const REGISTER_BITS: usize = 128;
