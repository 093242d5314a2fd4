//! The transmit channel against frames from outside, and its numbers and faults.

mod commanded;
mod faults;
mod fixture;
mod frames;
mod long_keys;
mod numbers;
mod story;

use super::known_frames::STATION_KEY;
use macs_aes::Key;
use macs_frame::Offset;

/// What an association is installed with, besides its numbers.
#[derive(Clone, Copy)]
struct Security {
    key: Key,
    confidential: bool,
    offset: Offset,
}

/// Confidentiality under the end station's key.
const HIDDEN: Security = Security {
    key: STATION_KEY,
    confidential: true,
    offset: Offset::Zero,
};
