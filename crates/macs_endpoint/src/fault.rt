//! Why a call of an endpoint fails.

use macs_config::Refusal;
use macs_journal::JournalFault;
use macs_store::CommitFault;
use macs_txsc::TxFault;

/// Why a command is not kept, in the order in which the faults are checked.
#[derive(Clone, Copy, Debug, PartialEq, Eq)]
pub enum CommandFault {
    /// A device call failed before: the disk must be opened again.
    Stopped,
    /// A submitted command is pending: nothing changes.
    Busy,
    /// The command does not fit the configuration.
    Refused(Refusal),
    /// All 256 slots of the journal's current area are used, and its generation is 2^64 - 1: no
    /// compaction is possible.
    GenerationsSpent,
    /// A device call failed: the next opening may or may not find the command.
    Disk,
}

impl From<CommitFault> for CommandFault {
    ghost use Rattle.std.specs.Prelude.{◌≡◌};
    ghost use Rattle.macs_endpoint.specs.Faults.{command_fault_of};

    ghost from_gives = { λ fault e. e ≡ command_fault_of fault };

    fn from(fault: CommitFault) -> CommandFault {
        match fault {
            CommitFault::Stopped => CommandFault::Stopped,
            CommitFault::Refused(refusal) => CommandFault::Refused(refusal),
            CommitFault::GenerationsSpent => CommandFault::GenerationsSpent,
            CommitFault::Disk => CommandFault::Disk,
        }
    }
}

/// Why a command is not queued, in the order in which the faults are checked.
#[derive(Clone, Copy, Debug, PartialEq, Eq)]
pub enum SubmitFault {
    /// A device call failed before: the disk must be opened again.
    Stopped,
    /// 16 commands are pending, including the one under way.
    QueueFull,
    /// 2^64 - 1 tickets were given since the disk was opened.
    TicketsSpent,
}

/// Why a step is not made, in the order in which the faults are checked.
#[derive(Clone, Copy, Debug, PartialEq, Eq)]
pub enum StepFault {
    /// A device call failed before: the disk must be opened again.
    Stopped,
    /// A ceiling must be raised, all 256 slots of the journal's current area are used, and its
    /// generation is 2^64 - 1: no compaction is possible. The next step takes the first pending
    /// command, if any.
    GenerationsSpent,
    /// The device call failed.
    Disk,
}

/// Why a reservation of packet numbers is not kept, in the order in which the faults are checked.
/// Earlier reservations stay.
#[derive(Clone, Copy, Debug, PartialEq, Eq)]
pub enum RefillFault {
    /// A device call failed before: the disk must be opened again.
    Stopped,
    /// A submitted command is pending: nothing changes.
    Busy,
    /// All 256 slots of the journal's current area are used, and its generation is 2^64 - 1: no
    /// compaction is possible. No further ceiling is raised.
    GenerationsSpent,
    /// A device call failed.
    Disk,
}

impl From<JournalFault> for RefillFault {
    ghost use Rattle.std.specs.Prelude.{◌≡◌};
    ghost use Rattle.macs_endpoint.specs.Faults.{refill_fault_of};

    ghost from_gives = { λ fault e. e ≡ refill_fault_of fault };

    fn from(fault: JournalFault) -> RefillFault {
        match fault {
            JournalFault::Stopped => RefillFault::Stopped,
            JournalFault::GenerationsSpent => RefillFault::GenerationsSpent,
            _ => RefillFault::Disk,
        }
    }
}

impl From<StepFault> for RefillFault {
    ghost use Rattle.std.specs.Prelude.{◌≡◌};
    ghost use Rattle.macs_endpoint.specs.Faults.{refill_fault_named};

    ghost from_gives = { λ fault e. e ≡ refill_fault_named fault };

    /// The fault of the same name.
    fn from(fault: StepFault) -> RefillFault {
        match fault {
            StepFault::Stopped => RefillFault::Stopped,
            StepFault::GenerationsSpent => RefillFault::GenerationsSpent,
            StepFault::Disk => RefillFault::Disk,
        }
    }
}

/// Why an endpoint does not rest, in the order in which the faults are checked.
#[derive(Clone, Copy, Debug, PartialEq, Eq)]
pub enum RestFault {
    /// A device call failed before: the disk must be opened again.
    Stopped,
    /// A submitted command is pending: nothing changes.
    Busy,
    /// The generation of the journal's current area is 2^64 - 1: it cannot be compacted, even if
    /// slots are free.
    GenerationsSpent,
    /// A device call failed.
    Disk,
}

impl From<JournalFault> for RestFault {
    ghost use Rattle.std.specs.Prelude.{◌≡◌};
    ghost use Rattle.macs_endpoint.specs.Faults.{rest_fault_of};

    ghost from_gives = { λ fault e. e ≡ rest_fault_of fault };

    fn from(fault: JournalFault) -> RestFault {
        match fault {
            JournalFault::Stopped => RestFault::Stopped,
            JournalFault::GenerationsSpent => RestFault::GenerationsSpent,
            _ => RestFault::Disk,
        }
    }
}

/// Why a plain frame is not sent.
#[derive(Clone, Copy, Debug, PartialEq, Eq)]
pub enum ProtectFault {
    /// A device call failed before: the disk must be opened again.
    Stopped,
    /// The transmit channel refuses the frame.
    Tx(TxFault),
}

/// A device call failed before: the disk must be opened again.
#[derive(Clone, Copy, Debug, PartialEq, Eq)]
pub struct Stopped;
