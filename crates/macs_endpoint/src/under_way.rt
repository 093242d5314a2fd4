//! What an endpoint has under way.

use crate::refilling::Raise;
use macs_config::Command;

/// What began on the disk and did not end.
#[derive(Clone, Copy)]
pub enum UnderWay {
    /// Nothing.
    Nothing,
    /// A ceiling is being raised.
    Raise(Raise),
    /// The first pending command is being kept. It stays after a device fault.
    First,
    /// A command that did not wait was cut short by a device fault.
    Cut(Command),
}
