//! The subcommands that write no disk file: `open`, `key`, `plan`, `inspect`, `check` and
//! `examine`; and the files of commands, captures and disks that all subcommands open.
#![tactic(auto)]

mod applying;
pub mod check;
mod command_file;
mod disk_copy;
pub mod examine;
mod examined_text;
mod files;
mod hex_text;
pub mod inspect;
pub mod key;
mod key_list;
mod opened;
pub mod plan;
mod record_lines;
mod shown_keys;
mod stop;
mod toml_place;
mod trial;

pub use applying::{apply_commands, is_own, outcome_line, status_after};
pub use command_file::{commands_of_file, commands_told};
pub use files::{
    CaptureSink, CaptureSource, failure_of, is_printed_to, make_capture, open_capture, open_disk,
};
pub use key_list::{KeyFault, KeyList, note_keys};
pub use opened::{Opened, answer_of};
pub use trial::look_at;
