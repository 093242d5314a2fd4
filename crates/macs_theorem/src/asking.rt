//! The requests of a program, and what it hears.

use macs_config::{Command, Identity};
use macs_endpoint::{
    CommandFault, ProtectFault, RefillFault, RestFault, Step, StepFault, Stopped, SubmitFault,
    Ticket,
};
use macs_frame::{FrameBuf, Pn};
use macs_journal::JournalFault;
use macs_rxsc::Verdict;

/// A call of `format`, of `Endpoint::open`, or of an endpoint.
#[derive(Drop)]
pub enum Request {
    Format(Identity),
    Open,
    Command(Command),
    Refill,
    Rest,
    Submit(Command),
    Step,
    Protect(FrameBuf),
    Receive(FrameBuf),
    /// `into_disk`.
    Close,
}

/// What happens to the power.
#[derive(Drop)]
pub enum Power {
    /// It is lost inside this call, at the first device call that fails, or at the end.
    LostIn(Request),
    /// It is lost between two calls.
    Lost,
    /// It lasts for this many device calls, from now on, while the program holds a disk.
    LastsFor(u64),
}

/// A request of a program. One that cannot be met is skipped, for example a `format` while the
/// program holds an endpoint.
#[derive(Drop)]
pub enum Ask {
    /// A call, whose answer it hears.
    Call(Request),
    /// To see what the readers of its endpoint show.
    Show,
    Power(Power),
}

/// The call that was made, and its answer.
#[derive(Drop)]
pub enum Heard {
    Formatted(Identity, Result<(), JournalFault>),
    Opened(Result<(), JournalFault>),
    Ran(Command, Result<(), CommandFault>),
    Refilled(Result<(), RefillFault>),
    Rested(Result<(), RestFault>),
    Submitted(Command, Result<Ticket, SubmitFault>),
    Stepped(Result<Step, StepFault>),
    Protected {
        plain: FrameBuf,
        result: Result<Pn, ProtectFault>,
        out: FrameBuf,
    },
    Received {
        frame: FrameBuf,
        result: Result<Verdict, Stopped>,
        out: FrameBuf,
    },
    Closed,
}
