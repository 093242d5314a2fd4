//! The configuration of a MAC Security Entity: its operator's commands, why a command is refused,
//! and which keys are spent.
#![tactic(auto)]

mod association;
mod change;
mod check;
mod checked;
mod command;
mod config;
mod contents;
mod edition;
mod fingerprint;
mod identity;
pub mod laws;
mod part;
mod part_source;
mod refusal;
mod restore;
mod spent_keys;

pub use association::{Protection, RxSa, TxSa};
pub use checked::{Checked, Judged};
pub use command::{Command, Replay, Role, SciMode, Validate};
pub use config::Config;
pub use contents::MAX_CHANNELS;
pub use fingerprint::Fingerprint;
pub use identity::Identity;
pub use part::{Fingerprints, MAX_FINGERPRINTS, Part};
pub use part_source::PartSource;
pub use refusal::Refusal;
pub use spent_keys::MAX_SPENT;
