//! The lines of the control socket of a relay: requests, and the end of an answer.

mod clients;
mod commands_of_lines;
mod cutting;
mod ends;
mod fields;
mod inbox;
pub mod laws;
mod lines;
mod metrics;
mod request;

pub use clients::{Client, Clients, Heard};
pub use ends::{end_of_line, line_of_end};
pub use inbox::{Inbox, Line, MAX_LINE};
pub use metrics::{Metrics, NoMetrics};
pub use request::{Request, request_of_line, write_request};
