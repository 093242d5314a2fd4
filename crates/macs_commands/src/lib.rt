//! An operator's commands as text: in command files, in the files that describe a link, and in the
//! requests of a control socket. Each word is spelled once.
#![tactic(auto)]

mod command_word;
mod files;
pub mod links;
mod modes;
mod paper;
pub mod requests;
pub mod secrets;
mod tables;

pub use command_word::CommandWord;
pub use files::{
    CommandFile, CommandFileFault, ConfigFault, KeyName, command_file, command_file_text,
    commands_of, extra_key,
};
pub use modes::{replay_word, sci_mode_word, validate_word};
pub use paper::Paper;
pub use tables::value;
