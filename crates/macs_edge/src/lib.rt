//! The edge of a MACsec endpoint: captures through an endpoint, wires and a relay. Command files
//! are read by `macs_commands`.
#![tactic(auto)]

mod attending;
mod capture_runs;
mod counts;
mod datagrams;
mod fault_wire;
pub mod laws;
mod mem_wire;
mod relaying;
mod settling;
mod spared_sockets;
mod telling;
mod udp_wire;
mod unattended;
mod wire;

pub use attending::{CommandEnd, Desk, DeskEvent, Order, attend};
pub use capture_runs::{RunFault, Summary, run_protect, run_validate, run_validate_each};
pub use counts::{Counted, WireCounts};
pub use datagrams::{Arrived, Datagrams};
pub use fault_wire::FaultWire;
pub use macs_commands::{ConfigFault, KeyName, commands_of};
pub use mem_wire::MemWire;
pub use relaying::RelaySummary;
pub use settling::Side;
pub use spared_sockets::SparedSocket;
pub use telling::Verdicts;
pub use udp_wire::{BindFault, UdpWire};
pub use unattended::{Idle, Unattended, relay};
pub use wire::{Got, Wire, WireFault};
