//! The lines of a report as JSON, one object per line.

mod cutting;
mod fitting;
mod kinds;
mod lines;
mod objects;
mod parts;

pub use lines::{json_lines, json_of_line};
