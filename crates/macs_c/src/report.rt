//! What a C program reports of its disk. It takes no memory, and its methods do nothing at run
//! time.

ghost use Rattle.std.specs.Prelude.{◌≡◌, ℕ, Bool, List};
ghost use Rattle.std.specs.Borrow.{ftrue};
ghost use Rattle.macs_c.specs.ReportedDisks.{Moment};

use std::marker::Model;

/// In contracts: how many calls there were and how many of these failed; the moments of a disk, the
/// last one first, and whether it is honest.
#[derive(Drop)]
pub(crate) struct Report {
    pub ghost clock: { ℕ },
    pub ghost failures: { ℕ },
    pub ghost moments: { List Moment },
    pub ghost honest: { Bool },
}

impl Model for Report {
    ghost also_owns = { λ _. ftrue };
}

impl Report {
    /// Before the first call.
    pub(crate) fn new() -> Report
        ghost given: { List Moment × Bool }
        ensures { (result.clock ≡ 0) × (result.failures ≡ 0) × (result.moments ≡ given.0)
            × (result.honest ≡ given.1) }
    {
        Report {}
    }

    /// Later, of the same disk.
    pub(crate) fn with(&self) -> Report
        ghost given: { ℕ × ℕ × List Moment }
        ensures { (result.clock ≡ given.0) × (result.failures ≡ given.1)
            × (result.moments ≡ given.2) × (result.honest ≡ self.now.honest) }
    {
        Report {}
    }
}
