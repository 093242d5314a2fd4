//! A journal of records on a disk: after a power loss at any moment a record is always present once
//! its gate was durably opened, and never while that is durably closed.
#![tactic(auto)]

mod appending;
mod area;
mod bad_journal;
mod bodies;
mod compact_calls;
mod compact_stage;
mod compaction;
mod contents;
mod fault;
mod formatting;
mod gates;
mod halves;
mod head_gate;
mod heads;
mod journal;
pub mod laws;
mod other_disk;
mod place;
mod record_source;
mod recovery;
mod slots;
mod stepping;
mod under_way;
mod work;

pub use area::{LEAST_SECTORS, SLOTS};
pub use bad_journal::first_fault;
pub use contents::{Contents, contents_of, holds_endpoint};
pub use fault::JournalFault;
pub use formatting::format;
pub use journal::Journal;
pub use record_source::RecordSource;
pub use recovery::{FoundJournal, RecoverRefused, Recovered, recover, recover_into};
pub use slots::{Records, Room, new_room};
pub use work::{JournalStep, Work};
