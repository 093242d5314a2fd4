//! A MACsec endpoint (IEEE Std 802.1AE-2018): its channels and its store in one object. After a
//! power loss at any moment, packet numbers resume above all that were used.
#![tactic(auto)]

mod channels;
mod counters;
mod endpoint;
mod event;
mod fault;
mod formatting;
mod halves;
pub mod laws;
mod opening;
mod other_disk;
mod ports;
mod progress;
mod queue;
mod refilling;
pub mod reserved;
mod resting;
mod serving;
mod stepping;
mod turn;
mod under_way;

pub use counters::Counters;
pub use endpoint::Endpoint;
pub use event::{Answer, Event, ServeEnd};
pub use fault::{
    CommandFault, ProtectFault, RefillFault, RestFault, StepFault, Stopped, SubmitFault,
};
pub use formatting::format;
pub use opening::OpenRefused;
pub use ports::{AnswerSink, EventSource};
pub use progress::Step;
pub use queue::{QUEUE, Ticket, Waiting};
