//! What was asked of a disk that is only read. It takes no memory, and its methods do nothing at
//! run time.

ghost use Rattle.std.specs.Prelude.{◌≡◌, ℕ};
ghost use Rattle.std.specs.Borrow.{ftrue};

use std::marker::Model;

/// In contracts: how many calls there were before the first write, and how many after it.
#[derive(Drop)]
pub(crate) struct History {
    pub ghost calls: { ℕ },
    pub ghost more: { ℕ },
}

impl Model for History {
    ghost also_owns = { λ _. ftrue };
}

impl History {
    /// Before the first call.
    pub(crate) fn new() -> History
        ghost given: { ℕ × ℕ }
        ensures { (result.calls ≡ given.0) × (result.more ≡ given.1) }
    {
        History {}
    }

    /// Later.
    pub(crate) fn with(&self) -> History
        ghost given: { ℕ × ℕ }
        ensures { (result.calls ≡ given.0) × (result.more ≡ given.1) }
    {
        History {}
    }
}
