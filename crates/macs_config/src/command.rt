//! The operator's commands.

use macs_aes::Key;
use macs_fields::{An, Sci};

/// What is done with received frames that are not verified: those without a SecTAG, a channel or an
/// association, and those that do not verify (IEEE Std 802.1AE-2018, 10.6 and 10.7.8).
#[derive(Clone, Copy, Debug, PartialEq, Eq)]
pub enum Validate {
    /// They are discarded.
    Strict,
    /// They are delivered if their User Data were not changed: C is clear.
    Check,
}

/// Whether received packet numbers are checked for replay, and how far below the next expected one
/// they may be (10.7.8): `window` is 0 to 2^32 - 1 numbers.
#[derive(Clone, Copy, Debug, PartialEq, Eq)]
pub struct Replay {
    pub on: bool,
    pub window: u32,
}

/// How the SecTAG of transmitted frames names the channel (9.5, 9.9).
#[derive(Clone, Copy, Debug, PartialEq, Eq)]
pub enum SciMode {
    /// It has an explicit SCI.
    Explicit,
    /// It names an end station: the source address with port 00-01.
    EndStation,
    /// It leaves the identification of the channel to the receiver.
    Implicit,
}

/// The side of an association, or of a spent key.
#[derive(Clone, Copy, Debug, PartialEq, Eq)]
pub enum Role {
    Transmit,
    Receive,
}

/// A command of the operator. `start` is the first packet number of a new association, `offset` its
/// confidentiality offset in octets, and the length of its key determines its cipher suite: any
/// number and any key is accepted here, and an invalid one is refused when the command is applied.
#[derive(Clone, Copy, PartialEq, Eq)]
pub enum Command {
    /// Sets what is done with frames that do not verify. Never refused.
    SetValidate(Validate),
    /// Sets replay protection and its window. Never refused.
    SetReplay {
        on: bool,
        window: u32,
    },
    /// Sets how transmitted frames name the channel.
    SetSciMode(SciMode),
    /// Installs a transmit association; its key is spent from then on.
    TxInstall {
        an: An,
        key: Key,
        start: u32,
        confidential: bool,
        offset: u8,
    },
    /// Sends frames under this association from then on.
    TxUse {
        an: An,
    },
    /// Removes a transmit association.
    TxRemove {
        an: An,
    },
    /// Adds a receive channel.
    RxAdd {
        sci: Sci,
    },
    /// Drops a receive channel, with its associations.
    RxDrop {
        sci: Sci,
    },
    /// Installs a receive association of a channel; its key is spent there from then on.
    RxInstall {
        sci: Sci,
        an: An,
        key: Key,
        start: u32,
        offset: u8,
    },
    /// Removes a receive association.
    RxRemove {
        sci: Sci,
        an: An,
    },
}
