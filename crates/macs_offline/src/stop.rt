//! What ends the inspection of a capture, and why.

ghost use Rattle.std.specs.Prelude.{◌≡◌};
ghost use Rattle.macs_offline.specs.CaptureReasons.{header_text, record_text};

use macs_cli::PrintFailed;
use macs_pcap::PcapFault;
use std::alloc::AllocError;

/// What ends the inspection of a capture before its end.
#[derive(Clone, Copy, Debug, PartialEq, Eq)]
pub enum Stop {
    /// Its header has this fault, or a read of it failed.
    Header(PcapFault),
    /// A record has this fault, or a read of it failed.
    Record(PcapFault),
    /// Out of memory.
    Memory,
    /// A line cannot be written.
    Output,
}

/// Why a capture is not inspected whole, for a fault of its header: the program's message. The file
/// is pcapng, which other programs can convert to a capture, or is not.
pub fn header_text(is_pcapng: bool, fault: PcapFault) -> &'static str
    ensures { result.now ≡ header_text is_pcapng fault }
{
    match fault {
        PcapFault::BadMagic => {
            if is_pcapng {
                "a pcapng file (editcap -F pcap IN OUT)"
            } else {
                "not a capture"
            }
        }
        PcapFault::BadVersion => "not of version 2.4",
        PcapFault::NotEthernet => "not of Ethernet frames",
        PcapFault::CutFile => "ends inside its header",
        _ => "cannot be read",
    }
}

/// The same for a fault of a record.
pub fn record_text(fault: PcapFault) -> &'static str
    ensures { result.now ≡ record_text fault }
{
    match fault {
        PcapFault::CutFile => "ends inside a record",
        PcapFault::CutRecord => "a record of a part of a frame",
        PcapFault::RecordTooLong => "a record of more than 262144 octets",
        PcapFault::TooManyRecords => "more than 4294967295 records",
        _ => "cannot be read",
    }
}

impl From<PcapFault> for Stop {
    ghost use Rattle.std.specs.Prelude.{◌≡◌};
    ghost use Rattle.macs_offline.specs.declared.stop.Stop.TheVariants.{Record};

    ghost from_gives = { λ fault stop. stop ≡ Record fault };

    fn from(fault: PcapFault) -> Stop {
        Stop::Record(fault)
    }
}

impl From<AllocError> for Stop {
    ghost use Rattle.std.specs.Prelude.{◌≡◌};
    ghost use Rattle.macs_offline.specs.declared.stop.Stop.TheVariants.{Memory};

    ghost from_gives = { λ _ stop. stop ≡ Memory };

    fn from(_error: AllocError) -> Stop {
        Stop::Memory
    }
}

impl From<PrintFailed> for Stop {
    ghost use Rattle.std.specs.Prelude.{◌≡◌};
    ghost use Rattle.macs_offline.specs.declared.stop.Stop.TheVariants.{Output};

    ghost from_gives = { λ _ stop. stop ≡ Output };

    fn from(_failed: PrintFailed) -> Stop {
        Stop::Output
    }
}
