//! The words of the program: the action that they request, parsed by `clap`, and the help.

mod action;
mod arguments;
mod help;
mod help_texts;
mod known;
mod pace;
mod plain_text;
mod read_ask;
mod read_plan;
mod read_relay;
mod read_subcommands;
mod read_values;
mod reading;
mod usage;

pub use action::{Action, DiskAction, FrameAction, Question, ToolAction, UsageFault, WireEnds};
pub use help::{Subcommand, Topic, topic_of};
pub use pace::{Milliseconds, Pace, Running};
pub use plain_text::printable;
pub use usage::action_of;
