//! The theorem: what is promised of an endpoint about all that is ever seen of it.
#![tactic(auto)]

mod asking;
mod calls;
mod cut_command;
mod held;
mod in_memory;
pub mod laws;
mod power;
mod powered;
mod program;
mod running;
mod two_nights;

pub use asking::{Ask, Heard, Power, Request};
pub use cut_command::CutCommand;
pub use held::Held;
pub use in_memory::run_in_memory;
pub use power::PowerSupply;
pub use powered::run_powered;
pub use program::Program;
pub use running::run;
pub use two_nights::TwoNights;
