//! The result of a step of an endpoint's work on its disk.

use crate::fault::CommandFault;
use crate::queue::Ticket;

/// The result of a step.
#[derive(Clone, Copy, Debug, PartialEq, Eq)]
pub enum Step {
    /// No work is under way, no command is pending, and no ceiling must be raised. No device call
    /// was made.
    Idle,
    /// A device call was made, and the work is still under way.
    Worked,
    /// The last device call of a reservation was made: one ceiling is raised.
    Reserved,
    /// The first pending command is completed, with its result: never `Stopped`, `Busy` or `Disk`.
    /// A refused one made no device call.
    Done(Ticket, Result<(), CommandFault>),
}
