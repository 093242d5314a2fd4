//! A link described in one file: the command files of each end, stage by stage.

pub mod laws;
mod link;
mod plan_fault;
mod planning;
mod reading;
mod soundness;

pub use link::{End, KeyPair, Link};
pub use plan_fault::{Place, PlanFault, ValueName};
pub use planning::{Stage, plan, planned};
pub use reading::link_of;
