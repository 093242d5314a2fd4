//! The configuration and the ceilings of packet numbers, kept in a journal: what is kept survives a
//! power loss at any moment.
#![tactic(auto)]

mod ahead;
mod ceiling_table;
mod fault;
mod halves;
pub mod laws;
mod meaning;
mod next_numbers;
mod opening;
mod other_disk;
mod resting;
mod snapshot;
mod standing;
mod stepping;
mod store;
mod under_way;
mod walk;

pub use fault::CommitFault;
pub use macs_journal::JournalStep;
pub use next_numbers::NextNumbers;
pub use opening::OpenRefused;
pub use store::Store;
