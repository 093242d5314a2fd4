//! How received frames are judged.

use macs_config::{Replay, Validate};

/// How received frames are judged (IEEE Std 802.1AE-2018, 10.7.8): what is done with those that are
/// not verified, and whether packet numbers are checked for replay, with the window.
#[derive(Clone, Copy)]
pub(crate) struct Policy {
    pub(crate) validate: Validate,
    pub(crate) replay: Replay,
}
