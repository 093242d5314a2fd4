//! The receive channels of a MAC Security Entity: the verdict on every frame, and the replay
//! window.
#![tactic(auto)]

mod association;
mod channel;
mod counters;
pub mod laws;
mod need;
mod policy;
mod receive;
mod table;
mod unverified;
mod verdict;

pub use association::RxNumbers;
pub use counters::{ChannelCounters, RxCounters};
pub use need::RxNeed;
pub use receive::Rx;
pub use verdict::{CHANNEL_VERDICTS, Kind, Reason, VERDICTS, Verdict};
