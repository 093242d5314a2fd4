//! The work of a journal, and its progress.

use crate::slots::Records;
use macs_record::Record;

/// The work of a journal.
#[derive(Drop)]
pub enum Work {
    /// To append a record.
    Append(Record),
    /// To compact the journal with these records.
    Compact(Records),
}

/// The progress made by a step.
#[derive(Clone, Copy, Debug, PartialEq, Eq)]
pub enum JournalStep {
    /// No work was under way, and no call of the disk was made.
    Idle,
    /// One call of the disk was made, and the work is still under way.
    Going,
    /// The last call of the work was made.
    Finished,
}
