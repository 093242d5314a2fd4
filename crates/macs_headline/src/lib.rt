//! The headline, over every history of an endpoint: for all commands and frames, and wherever power
//! fails.
#![tactic(auto)]

mod example;
pub mod laws;
mod power_loss;

pub use power_loss::PowerLoss;
