//! What the calls of an endpoint return to a C program.

ghost use Rattle.std.specs.Prelude.{◌≡◌, ◌≤◌, Err};
ghost use Rattle.macs_c.specs.Answers.{command_answer, kind_number, number_of, open_answer};
ghost use Rattle.macs_c.specs.Answers.{protect_answer, reason_number, refusal_number, step_answer};
ghost use Rattle.macs_c.specs.Answers.{submit_answer, tx_fault_number, verdict_number};

use macs_config::Refusal;
use macs_endpoint::{CommandFault, ProtectFault, Step, StepFault, SubmitFault};
use macs_journal::JournalFault;
use macs_rxsc::{Kind, Reason, Verdict};
use macs_txsc::TxFault;

/// What a call of an endpoint returns.
#[derive(Clone, Copy)]
pub(crate) enum Answer {
    /// It did what was asked.
    Success,
    /// There is no such association.
    Absent,
    /// No endpoint is open there.
    Closed,
    /// An endpoint is already open there.
    Open,
    /// No device call is pending.
    NoCall,
    /// The disk has fewer than 1,028 sectors.
    TooSmall,
    /// No head gate is open: there is no journal.
    NotFormatted,
    /// A head gate is open, but the disk does not hold a valid journal.
    BadJournal,
    /// The journal is of format one, and must be migrated first.
    FormatOne,
    /// A head gate is open: there may be a journal already.
    Formatted,
    /// A block is not 1 to 65,536.
    Block,
    /// A device call is to be made.
    Call,
    /// No work is under way, no command is pending, and no ceiling must be raised.
    Idle,
    /// The work is still under way.
    Worked,
    /// A ceiling is raised.
    Reserved,
    /// The first pending command is completed.
    Done,
    /// A device call failed before: the disk must be opened again.
    Stopped,
    /// No compaction is possible: the generation is 2^64 - 1.
    GenerationsSpent,
    /// The device call failed.
    Disk,
    /// A submitted command is pending.
    Busy,
    /// 16 commands are pending.
    QueueFull,
    /// 2^64 - 1 tickets were given.
    TicketsSpent,
    /// A field is out of its range.
    Field,
    /// The buffer has fewer than 9,216 octets.
    Room,
    /// The frame is not sent.
    Unsent(TxFault),
    /// The verdict on a received frame.
    Received(Verdict),
    /// The command does not fit the configuration.
    Refused(Refusal),
}

/// The number of a refusal of a command, 0 to 11.
fn refusal_number(refusal: Refusal) -> u32
    ensures number { result ≡ refusal_number refusal }
    ensures few { result ≤ 11 }
{
    match refusal {
        Refusal::StartRange => 0,
        Refusal::OffsetChoice => 1,
        Refusal::OwnSci => 2,
        Refusal::EndStationSci => 3,
        Refusal::NoChannel => 4,
        Refusal::ChannelTaken => 5,
        Refusal::ChannelsFull => 6,
        Refusal::SlotTaken => 7,
        Refusal::SlotEmpty => 8,
        Refusal::InUse => 9,
        Refusal::KeySpent => 10,
        Refusal::SpentFull => 11,
    }
}

/// The number of a fault of the transmit channel, 0 to 5.
fn tx_fault_number(fault: TxFault) -> u32
    ensures number { result ≡ tx_fault_number fault }
    ensures few { result ≤ 5 }
{
    match fault {
        TxFault::Runt => 0,
        TxFault::TooLong => 1,
        TxFault::ForeignSource => 2,
        TxFault::NoEncodingSa => 3,
        TxFault::Exhausted => 4,
        TxFault::NoNumber => 5,
    }
}

/// The number of a kind of delivery, 0 to 5.
fn kind_number(kind: Kind) -> u32
    ensures number { result ≡ kind_number kind }
    ensures few { result ≤ 5 }
{
    match kind {
        Kind::Ok => 0,
        Kind::Delayed => 1,
        Kind::Invalid => 2,
        Kind::Untagged => 3,
        Kind::UnknownSci => 4,
        Kind::UnusedSa => 5,
    }
}

/// The number of a reason to discard a frame, 0 to 8.
fn reason_number(reason: Reason) -> u32
    ensures number { result ≡ reason_number reason }
    ensures few { result ≤ 8 }
{
    match reason {
        Reason::Runt => 0,
        Reason::Oversize => 1,
        Reason::NoTag => 2,
        Reason::BadTag => 3,
        Reason::ForKay => 4,
        Reason::NoSci => 5,
        Reason::NotUsingSa => 6,
        Reason::Late => 7,
        Reason::NotValid => 8,
    }
}

/// The return code of a verdict, 80 to 95.
fn verdict_number(verdict: Verdict) -> u32
    ensures { result ≡ verdict_number verdict }
{
    match verdict {
        Verdict::Delivered(kind) => 80 + kind_number(kind),
        Verdict::Discarded(reason) => 86 + reason_number(reason),
        Verdict::HeldBack => 95,
    }
}

/// The return code.
pub(crate) fn number_of(answer: Answer) -> u32
    ensures { result ≡ number_of answer }
{
    match answer {
        Answer::Success => 0,
        Answer::Absent => 31,
        Answer::Closed => 32,
        Answer::Open => 33,
        Answer::NoCall => 34,
        Answer::TooSmall => 40,
        Answer::NotFormatted => 41,
        Answer::BadJournal => 42,
        Answer::FormatOne => 43,
        Answer::Formatted => 44,
        Answer::Block => 45,
        Answer::Call => 50,
        Answer::Idle => 51,
        Answer::Worked => 52,
        Answer::Reserved => 53,
        Answer::Done => 54,
        Answer::Stopped => 55,
        Answer::GenerationsSpent => 56,
        Answer::Disk => 57,
        Answer::Busy => 58,
        Answer::QueueFull => 60,
        Answer::TicketsSpent => 61,
        Answer::Field => 2,
        Answer::Room => 5,
        Answer::Unsent(fault) => 70 + tx_fault_number(fault),
        Answer::Received(verdict) => verdict_number(verdict),
        Answer::Refused(refusal) => 100 + refusal_number(refusal),
    }
}

/// The answer for a disk that is not opened. Since it is only read, a device call of an opening
/// fails only to migrate a journal of format one, and only such a journal is in its last
/// generation.
pub(crate) fn open_answer(fault: JournalFault) -> Answer
    ensures { result ≡ open_answer fault }
{
    match fault {
        JournalFault::TooSmall => Answer::TooSmall,
        JournalFault::NotFormatted => Answer::NotFormatted,
        JournalFault::BadJournal => Answer::BadJournal,
        _ => Answer::FormatOne,
    }
}

/// The answer for the result of a command.
pub(crate) fn command_answer(ended: Result<(), CommandFault>) -> Answer
    ensures { result ≡ command_answer ended }
{
    match ended {
        Ok(()) => Answer::Success,
        Err(CommandFault::Stopped) => Answer::Stopped,
        Err(CommandFault::Busy) => Answer::Busy,
        Err(CommandFault::Refused(refusal)) => Answer::Refused(refusal),
        Err(CommandFault::GenerationsSpent) => Answer::GenerationsSpent,
        Err(CommandFault::Disk) => Answer::Disk,
    }
}

/// The answer for the result of a step.
pub(crate) fn step_answer(stepped: &Result<Step, StepFault>) -> Answer
    ensures { result ≡ step_answer stepped.now }
{
    match stepped {
        Ok(Step::Idle) => Answer::Idle,
        Ok(Step::Worked) => Answer::Worked,
        Ok(Step::Reserved) => Answer::Reserved,
        Ok(Step::Done(_, _)) => Answer::Done,
        Err(StepFault::Stopped) => Answer::Stopped,
        Err(StepFault::GenerationsSpent) => Answer::GenerationsSpent,
        Err(StepFault::Disk) => Answer::Disk,
    }
}

/// The answer for a command that is not queued.
pub(crate) fn submit_answer(fault: SubmitFault) -> Answer
    ensures { result ≡ submit_answer (Err fault) }
{
    match fault {
        SubmitFault::Stopped => Answer::Stopped,
        SubmitFault::QueueFull => Answer::QueueFull,
        SubmitFault::TicketsSpent => Answer::TicketsSpent,
    }
}

/// The answer for a frame that is not sent.
pub(crate) fn protect_answer(fault: ProtectFault) -> Answer
    ensures { result ≡ protect_answer (Err fault) }
{
    match fault {
        ProtectFault::Stopped => Answer::Stopped,
        ProtectFault::Tx(fault) => Answer::Unsent(fault),
    }
}
