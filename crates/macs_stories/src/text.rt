//! The text of stories: their blocks and rows, their acts and the words of these, the words of an
//! answer, and what is printed of a file. docs/STORIES.md says how a story is written.

mod answer;
mod blocks;
mod captures;
mod frames;
mod report;
mod script;
mod values;
mod words;

pub use answer::Answer;
pub use blocks::{Block, BlockKind, Place, Play};
pub use captures::{Captures, act_with_captures};
pub use frames::{filled, frame_at, octets_of, tell_frame, tell_sent};
pub use report::{Report, Telling};
pub use script::{Line, Script};
pub use words::{Words, whole};
