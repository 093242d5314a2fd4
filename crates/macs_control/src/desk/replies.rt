//! Answers to clients.

ghost use Rattle.std.specs.Prelude.{◌≡◌, ◌≤◌, ◌++◌, codes, length};
ghost use Rattle.macs_control.specs.Replies.{done_text, ended_text, failed_text, not_noted_text};
ghost use Rattle.macs_control.specs.Replies.{not_taken_text};
ghost use Rattle.macs_control.specs.Replies.{refused_line, submit_fault_name};

use crate::desk::key_notes::NoteFault;
use arrayvec::ArrayVec;
use macs_config::Refusal;
use macs_edge::CommandEnd;
use macs_endpoint::{CommandFault, SubmitFault};
use macs_texts::refusal_name;

/// The last line of the answer to a request that is done.
pub const DONE: &str = "end 0\n";

/// The last line of the answer to a line that is not a request.
pub const NO_REQUEST: &str = "end 2\n";

/// The answer to a request whose report has more octets than there is room for.
pub const TOO_LONG: &str = "end 5\n";

/// An answer that is not allocated: a command that is kept is always reported.
pub type Reply = ArrayVec<u8, 48>;

/// The answer with this text.
fn reply_of(text: &str) -> Reply
    requires { length text.now ≤ 48 }
    ensures { result.items ≡ text.now }
{
    let mut reply = Reply::new();
    reply.try_extend_from_slice(text.as_bytes()).unwrap();
    reply
}

/// The answer that a command is refused, with this name followed by `end`.
fn refused(name: &str, end: &str) -> Reply
    requires name { length name.now ≤ 13 }
    requires end { length end.now ≤ 8 }
    ensures { result.items ≡ refused_line name.now ++ end.now }
{
    let mut reply = Reply::new();
    reply.try_extend_from_slice(b"refused ").unwrap();
    reply.try_extend_from_slice(name.as_bytes()).unwrap();
    reply.push(b'\n');
    reply.try_extend_from_slice(end.as_bytes()).unwrap();
    reply
}

/// The answer if the key of a command may not be installed.
pub fn not_noted(fault: NoteFault) -> Reply
    ensures { result.items ≡ not_noted_text fault }
{
    match fault {
        NoteFault::Spent => refused(refusal_name(Refusal::KeySpent), "end 3\n"),
        NoteFault::Failed => reply_of("end 4\n"),
    }
}

/// The answer if a command is not kept.
fn failed(fault: CommandFault) -> Reply
    ensures { result.items ≡ failed_text fault }
{
    match fault {
        CommandFault::Refused(refusal) => refused(refusal_name(refusal), "end 3\n"),
        CommandFault::Stopped
        | CommandFault::Busy
        | CommandFault::GenerationsSpent
        | CommandFault::Disk => reply_of("end 4\n"),
    }
}

/// The answer to a command that is done.
fn done(answer: Result<(), CommandFault>) -> Reply
    ensures { result.items ≡ done_text answer }
{
    match answer {
        Ok(()) => reply_of("ok\nend 0\n"),
        Err(fault) => failed(fault),
    }
}

/// The answer to a command that was taken.
pub fn ended(end: CommandEnd) -> Reply
    ensures { result.items ≡ ended_text end }
{
    match end {
        CommandEnd::Done(answer) => done(answer),
        CommandEnd::Failed => reply_of("end 4\n"),
    }
}

/// The name of the reason why a command is not taken.
fn submit_fault_name(fault: SubmitFault) -> &'static str
    ensures name { result.now ≡ submit_fault_name fault }
    ensures short { length result.now ≤ 13 }
{
    match fault {
        SubmitFault::Stopped => "Stopped",
        SubmitFault::QueueFull => "QueueFull",
        SubmitFault::TicketsSpent => "TicketsSpent",
    }
}

/// The answer to a command that was not taken.
pub fn not_taken(fault: SubmitFault) -> Reply
    ensures { result.items ≡ not_taken_text fault }
{
    refused(submit_fault_name(fault), "end 4\n")
}
