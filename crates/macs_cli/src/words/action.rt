//! The action that the program's words request.

use crate::words::pace::Running;
use macs_commands::links::{End, Stage};
use std::alloc::AllocError;

/// What the program should do, with the values from the words.
#[derive(Clone, Copy)]
pub enum Action<'a> {
    /// Opens one protected frame: `open`, or no words.
    Open,
    /// Works on a disk file, and gives no frames to an endpoint.
    OnDisk(DiskAction<'a>),
    /// Gives frames to an endpoint.
    OnFrames(FrameAction<'a>),
    /// Reads no standard input, and opens no disk file for writing.
    Tool(ToolAction<'a>),
}

/// An action on a disk file, without frames.
#[derive(Clone, Copy)]
pub enum DiskAction<'a> {
    /// Makes a disk file for an endpoint: `format DISK SCI TX RX`, optionally with `--block` and
    /// `--over`. The blocks of packet numbers are 0 to 2^32 - 1 here.
    Format {
        disk: &'a str,
        sci: &'a str,
        tx_block: u32,
        rx_block: u32,
        /// The block size of the device, in octets, if given.
        block: Option<&'a str>,
        /// Whether anything else in the file may be overwritten.
        is_over: bool,
    },
    /// Applies the commands of a file: `apply DISK FILE`.
    Apply {
        disk: &'a str,
        file: &'a str,
    },
    /// Prints the configuration and the packet numbers: `show DISK`.
    Show {
        disk: &'a str,
    },
    /// Keeps a disk for a relay, which is the one client of a socket: `keep DISK SOCKET`.
    Keep {
        disk: &'a str,
        /// The name of the socket.
        socket: &'a str,
    },
}

/// An action that gives frames to an endpoint.
#[derive(Clone, Copy)]
pub enum FrameAction<'a> {
    /// Protects the frames of a capture: `protect DISK INPUT OUTPUT`, optionally with `--all`.
    Protect {
        disk: &'a str,
        input: &'a str,
        output: &'a str,
        /// Whether the status reports that a frame was dropped.
        is_all: bool,
    },
    /// Validates the frames of a capture: `validate DISK INPUT OUTPUT`, optionally with `--all` and
    /// `--each`.
    Validate {
        disk: &'a str,
        input: &'a str,
        output: &'a str,
        /// Whether the status reports that a frame was discarded.
        is_all: bool,
        /// Whether the verdict on each frame is printed.
        is_each: bool,
    },
    /// Relays frames between two wires: `relay DISK OWN1 PEER1 OWN2 PEER2` with `--turns n`,
    /// `--wait MS` or both, and optionally with `--control PATH`, `--metrics FILE`,
    /// `--buffer OCTETS` and `--keeper SOCKET`.
    Relay {
        /// The disk file. With a keeper it is not opened: the list of keys is beside it.
        disk: &'a str,
        controlled: WireEnds<'a>,
        common: WireEnds<'a>,
        running: Running<'a>,
    },
}

/// An action that changes no disk: a question to a running relay, keys, and reports on files.
#[derive(Clone, Copy)]
pub enum ToolAction<'a> {
    /// Asks a running relay over its control socket: `ask PATH show`, for example, optionally with
    /// `--json`.
    Ask {
        /// The file of the socket.
        path: &'a str,
        question: Question<'a>,
        /// Whether a report is printed as JSON.
        is_json: bool,
    },
    /// Prints a fresh key: `key`, optionally with `--long`.
    Key {
        /// Whether the key has 256 bits.
        is_long: bool,
    },
    /// Prints the contents of the SecTAG of each frame of a capture: `inspect INPUT`.
    Inspect {
        input: &'a str,
    },
    /// Checks the commands of a file, `check FILE`, or how the endpoint on a disk would answer
    /// them, `check FILE DISK`.
    Check {
        file: &'a str,
        /// The disk file, if given.
        disk: Option<&'a str>,
    },
    /// Prints the command file for one end of a link and one stage of its keys:
    /// `plan FILE left first`, for example.
    Plan {
        /// The link file.
        file: &'a str,
        end: End,
        stage: Stage,
    },
    /// Prints a report on the journal of a disk, which is only read: `examine DISK`, optionally
    /// with `--json`.
    Examine {
        disk: &'a str,
        /// Whether the report is printed as JSON.
        is_json: bool,
    },
    /// Prints the version and build of the program: `about`.
    About,
}

/// A question to a running relay.
#[derive(Clone, Copy)]
pub enum Question<'a> {
    /// The configuration and the packet numbers: `show`.
    Show,
    /// All counters: `counters`.
    Counters,
    /// Which keys are installed, by their identifiers: `keys`.
    Keys,
    /// What frames carried, and when the last one arrived that verified: `traffic`.
    Traffic,
    /// Which program runs it, and since when: `about`.
    About,
    /// A request to end: `stop`.
    Stop,
    /// A request to apply the commands of a file: `apply FILE`.
    Apply(&'a str),
}

/// The addresses of a wire as they are spelled: `127.0.0.1:4000`, `[::1]:4000`.
#[derive(Clone, Copy)]
pub struct WireEnds<'a> {
    /// The address it is bound to.
    pub own: &'a str,
    /// The destination of its datagrams, and the source of those that it takes.
    pub peer: &'a str,
}

/// Why the words name no action.
#[derive(Drop)]
pub enum UsageFault {
    /// The program does not understand them, for this cause.
    Usage(String),
    /// Out of memory.
    Memory,
}

impl From<AllocError> for UsageFault {
    ghost use Rattle.std.specs.Prelude.{◌≡◌};
    ghost use Rattle.macs_cli.specs.declared.words.action.UsageFault.TheVariants.{Memory};

    ghost from_gives = { λ _ fault. fault ≡ Memory };

    fn from(_error: AllocError) -> UsageFault {
        UsageFault::Memory
    }
}
