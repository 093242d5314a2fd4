//! What stories do with a disk, a journal and a store, and what they ask of them: the words of
//! their acts, and the disk of a story.

mod commands;
mod controls;
mod device;
mod journal;
mod names;
mod questions;
mod records;
mod sectors;
mod shelf;
mod store;

pub use commands::{command_of, tell_command};
pub use controls::{Controls, Fuse};
pub use device::StoryDisk;
pub use journal::JournalLife;
pub use names::{an_of, key_of, pn_of, sci_of};
pub use questions::{ask_config, tell_identity};
pub use records::offset_of;
pub use sectors::identity_of;
pub use shelf::{act_with_disk, power_loss};
pub use store::act_with_store;
