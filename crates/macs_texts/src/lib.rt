//! What an endpoint and its wires report, as text.
#![tactic(auto)]

mod build;
mod counting;
mod key_names;
mod keys;
mod lines;
mod measuring;
mod owned_lines;
mod program;
mod refusals;
mod reserved;
mod reserved_metrics;
mod samples;
mod showing;
mod traffic;
mod wire_report;
mod words;

pub use build::Build;
pub use counting::counter_lines;
pub use key_names::key_digest;
pub use keys::keys_lines;
pub use lines::REPORT_ROOM;
pub use measuring::metric_lines;
pub use owned_lines::{ended, joined, word_line};
pub use program::{Program, about_lines};
pub use refusals::refusal_name;
pub use showing::show_lines;
pub use traffic::traffic_lines;
pub use wire_report::{WireReport, reported};
pub use words::verdict_words;
