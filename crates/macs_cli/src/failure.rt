//! What ends a run before its answer.

ghost use Rattle.std.specs.Prelude.{◌≡◌};
ghost use Rattle.macs_cli.specs.Failing.{IsNotBusy, IsNotBusyRun, failure_of_refill};
ghost use Rattle.macs_cli.specs.Failing.{failure_of_run};

use crate::UsageFault;
use crate::addresses::AddressFault;
use crate::open_input::InputFault;
use crate::status::Status;
use crate::values::ValueFault;
use macs_control::{AskFault, ControlFault};
use macs_disk::FileFault;
use macs_edge::{BindFault, RunFault};
use macs_endpoint::RefillFault;
use macs_journal::JournalFault;
use macs_pcap::PcapFault;
use std::alloc::AllocError;

/// What is wrong with a disk file.
#[derive(Clone, Copy)]
pub enum DiskFault {
    /// It cannot be opened or created, another program has claimed it, or there is no space for it;
    /// or its name cannot be made durable; or a new endpoint would overwrite something else.
    File,
    /// Its length is not a multiple of 512 octets.
    Length,
    /// An operation on it failed, or it does not hold a journal.
    Journal(JournalFault),
}

/// Why a link is refused although its file is complete.
#[derive(Clone, Copy)]
pub enum LinkRefusal {
    /// Both ends have the same SCI.
    SameSci,
    /// A key occurs twice.
    SameKey,
    /// A pair of keys has the association number of the one before it.
    AnInUse,
}

/// What ends a run before its answer.
#[derive(Drop)]
pub enum Failure {
    /// The words name no action, for this cause.
    Usage(String),
    /// A value among the words is not accepted.
    Value(ValueFault),
    /// A word should be an address and is not.
    Address(AddressFault),
    /// The disk file cannot be used.
    Disk(DiskFault),
    /// A capture cannot be opened, read or written by a run over frames.
    Capture,
    /// A command file to apply cannot be read, has no valid commands, or is for another endpoint.
    Commands,
    /// A wire cannot be bound.
    Wire,
    /// A control socket or that of a keeper cannot be bound; or no relay is listening on it, or the
    /// reply is not a valid answer; or what comes to a keeper is not a request.
    Control,
    /// The system's random source fails.
    Random,
    /// A file or a socket among the words cannot be used, or a command file or a link file has a
    /// fault: this is the message.
    Said(String),
    /// The disk file cannot be read; this is the message.
    DiskFile(String),
    /// A command file to be tried on a disk is for another end.
    OtherEnd,
    /// The link in a file is refused.
    Link(LinkRefusal),
    /// Out of memory.
    Memory,
    /// The input cannot be read, or is not a request.
    Input(InputFault),
    /// The answer cannot be written.
    Output,
}

impl DiskFault {
    ghost use Rattle.std.specs.Prelude.{◌≡◌};
    ghost use Rattle.macs_cli.specs.Failing.{disk_fault_text};

    /// The program's message.
    pub fn text(self) -> &'static str
        ensures { result.now ≡ disk_fault_text self }
    {
        match self {
            DiskFault::File => "disk file",
            DiskFault::Length => "disk length",
            DiskFault::Journal(JournalFault::Stopped) => "stopped",
            DiskFault::Journal(JournalFault::TooSmall) => "too small",
            DiskFault::Journal(JournalFault::Disk) => "disk",
            DiskFault::Journal(JournalFault::AlreadyFormatted) => "already formatted",
            DiskFault::Journal(JournalFault::NotFormatted) => "not formatted",
            DiskFault::Journal(JournalFault::BadJournal) => "bad journal",
            DiskFault::Journal(JournalFault::GenerationsSpent) => "generations spent",
        }
    }
}

impl LinkRefusal {
    ghost use Rattle.std.specs.Prelude.{◌≡◌};
    ghost use Rattle.macs_cli.specs.Failing.{link_refusal_text};

    /// The program's message.
    pub fn text(self) -> &'static str
        ensures { result.now ≡ link_refusal_text self }
    {
        match self {
            LinkRefusal::SameSci => "same sci",
            LinkRefusal::SameKey => "same key",
            LinkRefusal::AnInUse => "an in use",
        }
    }
}

impl Failure {
    ghost use Rattle.std.specs.Prelude.{◌≡◌};
    ghost use Rattle.macs_cli.specs.Failing.{failure_status, failure_text};

    /// The program's message, one line.
    pub fn text(&self) -> &str
        ensures { result.now ≡ failure_text self.now }
    {
        match self {
            Failure::Usage(cause) => cause.as_str(),
            Failure::Value(fault) => fault.text(),
            Failure::Address(fault) => fault.text(),
            Failure::Disk(fault) => fault.text(),
            Failure::Capture => "capture",
            Failure::Commands => "commands",
            Failure::Wire => "wire",
            Failure::Control => "control",
            Failure::Random => "random source",
            Failure::Said(cause) => cause.as_str(),
            Failure::DiskFile(cause) => cause.as_str(),
            Failure::OtherEnd => "command file sci: not that of DISK",
            Failure::Link(refusal) => refusal.text(),
            Failure::Memory => "memory",
            Failure::Input(fault) => fault.text(),
            Failure::Output => "output",
        }
    }

    /// The status of the run.
    pub fn status(&self) -> Status
        ensures { result ≡ failure_status self.now }
    {
        match self {
            Failure::Usage(_) | Failure::Value(_) | Failure::Address(_) => Status::Usage,
            Failure::Disk(_) | Failure::DiskFile(_) => Status::Disk,
            Failure::Link(_) => Status::Refused,
            Failure::Capture
            | Failure::Commands
            | Failure::Wire
            | Failure::Control
            | Failure::Random
            | Failure::Said(_)
            | Failure::OtherEnd
            | Failure::Memory
            | Failure::Input(_)
            | Failure::Output => Status::Fault,
        }
    }
}

impl From<AllocError> for Failure {
    ghost use Rattle.std.specs.Prelude.{◌≡◌};
    ghost use Rattle.macs_cli.specs.declared.failure.Failure.TheVariants.{Memory};

    ghost from_gives = { λ _ failure. failure ≡ Memory };

    fn from(_error: AllocError) -> Failure {
        Failure::Memory
    }
}

impl From<UsageFault> for Failure {
    ghost use Rattle.std.specs.Prelude.{◌≡◌};
    ghost use Rattle.macs_cli.specs.Failing.{failure_of_words};

    ghost from_gives = { λ fault failure. failure ≡ failure_of_words fault };

    fn from(fault: UsageFault) -> Failure {
        match fault {
            UsageFault::Usage(cause) => Failure::Usage(cause),
            UsageFault::Memory => Failure::Memory,
        }
    }
}

impl From<ValueFault> for Failure {
    ghost use Rattle.std.specs.Prelude.{◌≡◌};
    ghost use Rattle.macs_cli.specs.declared.failure.Failure.TheVariants.{Value};

    ghost from_gives = { λ fault failure. failure ≡ Value fault };

    fn from(fault: ValueFault) -> Failure {
        Failure::Value(fault)
    }
}

impl From<AddressFault> for Failure {
    ghost use Rattle.std.specs.Prelude.{◌≡◌};
    ghost use Rattle.macs_cli.specs.declared.failure.Failure.TheVariants.{Address};

    ghost from_gives = { λ fault failure. failure ≡ Address fault };

    fn from(fault: AddressFault) -> Failure {
        Failure::Address(fault)
    }
}

impl From<InputFault> for Failure {
    ghost use Rattle.std.specs.Prelude.{◌≡◌};
    ghost use Rattle.macs_cli.specs.declared.failure.Failure.TheVariants.{Input};

    ghost from_gives = { λ fault failure. failure ≡ Input fault };

    fn from(fault: InputFault) -> Failure {
        Failure::Input(fault)
    }
}

impl From<DiskFault> for Failure {
    ghost use Rattle.std.specs.Prelude.{◌≡◌};
    ghost use Rattle.macs_cli.specs.declared.failure.Failure.TheVariants.{Disk};

    ghost from_gives = { λ fault failure. failure ≡ Disk fault };

    fn from(fault: DiskFault) -> Failure {
        Failure::Disk(fault)
    }
}

impl From<FileFault> for Failure {
    ghost use Rattle.std.specs.Prelude.{◌≡◌};
    ghost use Rattle.macs_cli.specs.Failing.{failure_of_file};

    ghost from_gives = { λ fault failure. failure ≡ failure_of_file fault };

    fn from(fault: FileFault) -> Failure {
        match fault {
            FileFault::Open => Failure::Disk(DiskFault::File),
            FileFault::Length => Failure::Disk(DiskFault::Length),
            FileFault::Device => JournalFault::Disk.into(),
            FileFault::Memory => Failure::Memory,
        }
    }
}

impl From<JournalFault> for Failure {
    ghost use Rattle.std.specs.Prelude.{◌≡◌};
    ghost use Rattle.macs_cli.specs.Failing.{failure_of_journal};

    ghost from_gives = { λ fault failure. failure ≡ failure_of_journal fault };

    fn from(fault: JournalFault) -> Failure {
        Failure::Disk(DiskFault::Journal(fault))
    }
}

impl From<BindFault> for Failure {
    ghost use Rattle.std.specs.Prelude.{◌≡◌};
    ghost use Rattle.macs_cli.specs.Failing.{failure_of_bind};

    ghost from_gives = { λ fault failure. failure ≡ failure_of_bind fault };

    fn from(fault: BindFault) -> Failure {
        match fault {
            BindFault::Memory => Failure::Memory,
            BindFault::Bind => Failure::Wire,
        }
    }
}

impl From<ControlFault> for Failure {
    ghost use Rattle.std.specs.Prelude.{◌≡◌};
    ghost use Rattle.macs_cli.specs.Failing.{failure_of_control};

    ghost from_gives = { λ fault failure. failure ≡ failure_of_control fault };

    fn from(fault: ControlFault) -> Failure {
        match fault {
            ControlFault::Memory => Failure::Memory,
            ControlFault::Bind => Failure::Control,
        }
    }
}

impl From<AskFault> for Failure {
    ghost use Rattle.std.specs.Prelude.{◌≡◌};
    ghost use Rattle.macs_cli.specs.Failing.{failure_of_asking};

    ghost from_gives = { λ fault failure. failure ≡ failure_of_asking fault };

    fn from(fault: AskFault) -> Failure {
        match fault {
            AskFault::Memory => Failure::Memory,
            AskFault::Gone => Failure::Control,
        }
    }
}

impl From<PcapFault> for Failure {
    ghost use Rattle.std.specs.Prelude.{◌≡◌};
    ghost use Rattle.macs_cli.specs.Failing.{failure_of_capture};

    ghost from_gives = { λ fault failure. failure ≡ failure_of_capture fault };

    fn from(fault: PcapFault) -> Failure {
        match fault {
            PcapFault::Memory => Failure::Memory,
            _ => Failure::Capture,
        }
    }
}

/// The failure if packet numbers are not reserved. The fault is not `Busy`: either no command is
/// pending, or a step is made instead of a refill.
pub fn failure_of_refill(fault: RefillFault) -> Failure
    requires { IsNotBusy fault }
    ensures { result ≡ failure_of_refill fault }
{
    match fault {
        RefillFault::Stopped => JournalFault::Stopped.into(),
        RefillFault::GenerationsSpent => JournalFault::GenerationsSpent.into(),
        RefillFault::Disk => JournalFault::Disk.into(),
        RefillFault::Busy => unreachable!(),
    }
}

/// The failure of a run over a capture. The fault is not `Busy`: no command is pending.
pub fn failure_of_run(fault: RunFault) -> Failure
    requires { IsNotBusyRun fault }
    ensures { result ≡ failure_of_run fault }
{
    match fault {
        RunFault::Pcap(PcapFault::Memory) => Failure::Memory,
        RunFault::Pcap(_) => Failure::Capture,
        RunFault::Device(device) => failure_of_refill(device),
    }
}
