//! The keys that are spent on one side.

ghost use Rattle.std.specs.Prelude.{◌≡◌, ◌<◌};

use crate::fingerprint::{Fingerprint, is_spent};
use arrayvec::ArrayVec;
use std::marker::Model;

/// The maximum number of keys that may be spent on a side.
pub const MAX_SPENT: usize = 512;

/// The fingerprints of spent keys, in the order of installation.
#[derive(Drop)]
pub(crate) struct SpentKeys {
    fingerprints: ArrayVec<Fingerprint, MAX_SPENT>,
}

impl Model for SpentKeys {
    ghost use Rattle.std.specs.Prelude.{ℕ, List};

    ghost Value = { List (List ℕ) };

    ghost view = { λ s. s.fingerprints.items };
}

impl SpentKeys {
    ghost use Rattle.std.specs.Prelude.{◌≤◌, ◌++◌, [], ◌∷◌, length, slice_get};
    ghost use Rattle.macs_config.specs.Config.{is_spent, max_spent};

    /// No key is spent.
    pub(crate) fn new() -> SpentKeys
        ensures { result ≡ [] }
    {
        SpentKeys {
            fingerprints: ArrayVec::new(),
        }
    }

    /// Removes all keys.
    pub(crate) fn clear(&mut self)
        ensures { self.new ≡ [] }
    {
        self.fingerprints.clear();
    }

    /// How many keys are spent, at most 512.
    pub(crate) fn len(&self) -> usize
        ensures count { result ≡ length self.now }
        ensures within { result ≤ max_spent }
    {
        self.fingerprints.len()
    }

    /// The fingerprint at an index in the order of installation, counting from 0.
    pub(crate) fn get(&self, at: usize) -> Option<Fingerprint>
        ensures { result ≡ slice_get self.now at }
    {
        self.fingerprints.get(at).copied()
    }

    /// Whether a fingerprint is spent.
    pub(crate) fn contains(&self, fingerprint: &Fingerprint) -> bool
        ensures { result ≡ is_spent self.now fingerprint.now }
    {
        is_spent(self.fingerprints.as_slice(), fingerprint)
    }

    /// Adds a fingerprint after those already spent.
    pub(crate) fn push(&mut self, fingerprint: Fingerprint)
        requires { length self.old < max_spent }
        ensures { self.new ≡ self.old ++ fingerprint ∷ [] }
    {
        self.fingerprints.push(fingerprint);
    }
}
