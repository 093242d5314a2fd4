//! A link: its two ends, and the keys that they have one after the other.

use macs_aes::Key;
use macs_fields::{An, Sci};

/// An end of a link.
#[derive(Clone, Copy, Debug, PartialEq, Eq)]
pub enum End {
    /// The one of the table `[left]`.
    Left,
    /// The one of the table `[right]`.
    Right,
}

/// The keys of an association number: for the frames from the left end, and for those from the
/// right end. It has no `Debug`, so that no key is printed.
#[derive(Clone, Copy, PartialEq, Eq)]
pub struct KeyPair {
    pub an: An,
    pub left: Key,
    pub right: Key,
}

/// The SCIs of the two ends, the newest pair of keys, and the previous one, if there is one.
#[derive(Clone, Copy, PartialEq, Eq)]
pub struct Link {
    pub left: Sci,
    pub right: Sci,
    pub newest: KeyPair,
    pub before: Option<KeyPair>,
}
