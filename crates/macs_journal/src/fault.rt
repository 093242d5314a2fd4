//! Why a call of a journal fails.

/// Why a call of a journal failed, in the order in which the faults are checked; `GenerationsSpent`
/// is checked before any device call.
#[derive(Clone, Copy, Debug, PartialEq, Eq)]
pub enum JournalFault {
    /// A device call failed before: the journal must be recovered.
    Stopped,
    /// The disk has fewer than 1,028 sectors.
    TooSmall,
    /// A device call failed.
    Disk,
    /// A head gate is open: there is a journal.
    AlreadyFormatted,
    /// No head gate is open: there is no journal.
    NotFormatted,
    /// A head gate is open, but the disk does not hold a valid journal.
    BadJournal,
    /// The generation is 2^64 - 1: no compaction is possible. Nothing changes.
    GenerationsSpent,
}
