//! The two lengths of keys: a record with a key has a kind for each.

/// The length of a record's key.
#[derive(Clone, Copy)]
pub(crate) enum KeyLength {
    /// 16 octets.
    Short,
    /// 32 octets.
    Long,
}
