//! Why a command is not kept.

use macs_config::Refusal;

/// Why a command is not kept, in the order in which the faults are checked.
#[derive(Clone, Copy, Debug, PartialEq, Eq)]
pub enum CommitFault {
    /// A device call failed before: the disk must be opened again.
    Stopped,
    /// The command does not fit the configuration.
    Refused(Refusal),
    /// All 256 slots of the journal's current area are used, and its generation is 2^64 - 1: no
    /// compaction is possible. Nothing changes.
    GenerationsSpent,
    /// A device call failed.
    Disk,
}
