//! The program, given its words, a reader and two streams.
#![tactic(auto)]

mod about;
mod answering;
mod apply;
mod asking;
mod attendants;
mod build;
mod captures;
mod capturing;
mod conversing;
mod counters_name;
mod entrance;
mod format;
mod input;
mod judging;
mod keep;
mod kept_relay;
pub mod laws;
mod new_disk;
pub mod overruns;
mod pacing;
mod relay;
mod relay_system;
mod relaying;
pub mod run;
mod sending;
mod show;
mod socket_reason;
mod task;
mod wires;

pub use conversing::converse;
pub use input::{Input, InputText, ReadFailed, ReaderInput};
pub use macs_cli::{CaptureFile, Failure, WriterStream};
