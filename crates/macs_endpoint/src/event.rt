//! The events that an endpoint serves, and its answers.

use crate::fault::{CommandFault, ProtectFault, RefillFault, StepFault, Stopped, SubmitFault};
use crate::progress::Step;
use crate::queue::Ticket;
use macs_config::Command;
use macs_frame::{FrameBuf, Pn};
use macs_rxsc::Verdict;

/// An event for an endpoint.
#[derive(Drop)]
pub enum Event {
    /// The operator submits a command, which waits for its turn.
    Operator(Command),
    /// A plain frame comes from the controlled side.
    Controlled(FrameBuf),
    /// A frame comes from the common side.
    Common(FrameBuf),
    /// There is time for one device call: of a reservation of packet numbers, or of a pending
    /// command.
    Work,
}

/// An answer of an endpoint. The answer to a frame has what is sent or delivered for it, which is
/// empty if nothing is.
#[derive(Drop)]
pub enum Answer {
    /// To `Event::Operator`.
    Submitted(Result<Ticket, SubmitFault>),
    /// To `Event::Controlled`.
    Protected(Result<Pn, ProtectFault>, FrameBuf),
    /// To `Event::Common`.
    Received(Result<Verdict, Stopped>, FrameBuf),
    /// To `Event::Work`.
    Stepped(Result<Step, StepFault>),
    /// To a command that does not wait.
    Ran(Result<(), CommandFault>),
    /// To a refill.
    Refilled(Result<(), RefillFault>),
}

/// Why serving ended.
#[derive(Clone, Copy, Debug, PartialEq, Eq)]
pub enum ServeEnd {
    /// The source has no further event.
    Ended,
    /// The requested number of events was served.
    TurnsSpent,
    /// A device call failed, now or before: the last answer reports it, and the disk must be opened
    /// again.
    Halted,
}
