//! Command files: an operator's commands, in TOML.

mod command_files;
mod command_table;
mod config_fault;
mod ends;
mod table_writing;
mod writing;

pub use command_files::{commands_of, extra_key};
pub use config_fault::{ConfigFault, KeyName};
pub use ends::{CommandFile, CommandFileFault, command_file};
pub use writing::command_file_text;
