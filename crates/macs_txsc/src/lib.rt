//! The transmit channel of a MAC Security Entity: which frames are sent, and with which packet
//! number.
#![tactic(auto)]

mod association;
mod channel;
mod counters;
mod fault;

pub use channel::Tx;
pub use counters::TxCounters;
pub use fault::TxFault;
