//! What the subcommands share: the words of the program and its help, values, files and streams,
//! lines, failures and statuses.
#![tactic(auto)]

mod addresses;
mod capture_file;
mod failure;
mod file_mode;
mod file_reason;
mod four_lines;
mod json_output;
mod open_input;
mod output;
mod report_json;
mod status;
mod stream;
mod values;
mod whole_writes;
mod words;

pub use addresses::{AddressFault, Addresses, WireAddresses, addresses_of};
pub use capture_file::CaptureFile;
pub use failure::{DiskFault, Failure, LinkRefusal, failure_of_refill, failure_of_run};
pub use file_mode::{mode_of, print_mode};
pub use file_reason::{failure_at, failure_at_disk, failure_saying, failure_told};
pub use json_output::{print_json, print_report};
pub use macs_commands::links::{End as PlanEnd, Stage as PlanStage};
pub use open_input::{InputFault, MAX_INPUT, OpenInput, SpelledFrame, request_of};
pub use output::{Line, append_count, append_text, print, print_last, print_octets};
pub use report_json::{json_lines, json_of_line};
pub use status::Status;
pub use stream::{PrintFailed, Stream, WriterStream};
pub use values::{FormatValues, ValueFault, format_values};
pub use whole_writes::WholeWrites;
pub use words::{
    Action, DiskAction, FrameAction, Milliseconds, Pace, Question, Running, Subcommand, ToolAction,
    Topic, UsageFault, WireEnds, action_of, printable, topic_of,
};
