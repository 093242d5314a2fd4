//! How many datagrams the system dropped before a wire could take them.

/// How many datagrams of each wire the system dropped, if it reports that.
#[derive(Clone, Copy, Debug, PartialEq, Eq)]
pub struct Dropped {
    pub controlled: Option<u64>,
    pub common: Option<u64>,
}

/// A source of the system's drop counts.
pub trait Overruns {
    ghost use Rattle.std.specs.Prelude.{Option, None};
    ghost use Rattle.macs_control.specs.Listening.{IsKnown};
    ghost use Rattle.macs_control.specs.declared.desk.overruns.Dropped.{Dropped};

    /// What it returns, if known.
    ghost known: { Self → Option Dropped } = { λ _. None };

    /// How many were dropped so far. It is called once for each report of counters, and for nothing
    /// else, so it delays frames only as part of that report.
    fn dropped(&self) -> Dropped
        ensures { IsKnown (known self.now) result };
}
