//! The script: what an endpoint is asked for, from a blank disk on.

use super::frames::PEER;
use macs_aes::Key;
use macs_config::{Command, Refusal};
use macs_frame::An;
use std::process::Abort;

/// The keys of the two transmit associations that the script installs. The second has 256 bits; an
/// older program takes the third in its place.
pub(super) const KEYS: [Key; 3] = [Key::Short([1; 16]), Key::Long([2; 32]), Key::Short([2; 16])];

/// The key of the peer's association.
pub(super) const PEER_KEY: Key = Key::Short([3; 16]);

/// The number of the peer's association.
pub(super) const PEER_NUMBER: u8 = 2;

/// A part of the script.
#[derive(Clone, Copy)]
pub(super) enum Part {
    /// A command is submitted, and kept.
    Keeps(Asked),
    /// A command is submitted, and refused since its key is spent.
    Spends(Asked),
    /// So many frames come from each side, one step after each of them.
    Passes(u32),
    /// `SetReplay` is submitted and kept so often, with windows from 1 on.
    Windows(u32),
    /// Steps are made until there is nothing to do.
    Settles,
    /// The end is planned: the next packet numbers become the ceilings.
    Rests,
}

/// A command, by what a constant can hold.
#[derive(Clone, Copy)]
pub(super) enum Asked {
    AddsPeer,
    InstallsPeer,
    /// The association of this number, with the key at this place of `KEYS`.
    Installs(u8, usize),
    Uses(u8),
    Removes(u8),
    /// `SetReplay` with a window of so many packet numbers.
    Replays(u32),
}

/// The parts, in their order. All 256 slots of the first area are used after the 239th `SetReplay`,
/// so that the 240th starts the journal over.
pub(super) const SCRIPT: [Part; 13] = [
    Part::Keeps(Asked::AddsPeer),
    Part::Keeps(Asked::InstallsPeer),
    Part::Keeps(Asked::Installs(0, 0)),
    Part::Keeps(Asked::Uses(0)),
    Part::Passes(12),
    Part::Keeps(Asked::Installs(1, 1)),
    Part::Keeps(Asked::Uses(1)),
    Part::Keeps(Asked::Removes(0)),
    Part::Spends(Asked::Installs(0, 0)),
    Part::Windows(240),
    Part::Passes(6),
    Part::Settles,
    Part::Rests,
];

/// What a command of the script is refused as, where it is.
pub(super) const REFUSED: Refusal = Refusal::KeySpent;

fn number_of(rt: &impl Abort, association: u8) -> An {
    An::new(association).expect(rt, "association number")
}

fn key_at(rt: &impl Abort, place: usize) -> Key {
    assert!(rt; place < KEYS.len());
    KEYS[place]
}

/// The command that is asked for.
pub(super) fn command_of(rt: &impl Abort, asked: Asked) -> Command {
    match asked {
        Asked::AddsPeer => Command::RxAdd { sci: PEER },
        Asked::InstallsPeer => Command::RxInstall {
            sci: PEER,
            an: number_of(rt, PEER_NUMBER),
            key: PEER_KEY,
            start: 1,
            offset: 0,
        },
        Asked::Installs(association, place) => Command::TxInstall {
            an: number_of(rt, association),
            key: key_at(rt, place),
            start: 1,
            confidential: true,
            offset: 0,
        },
        Asked::Uses(association) => Command::TxUse {
            an: number_of(rt, association),
        },
        Asked::Removes(association) => Command::TxRemove {
            an: number_of(rt, association),
        },
        Asked::Replays(window) => window_of(window),
    }
}

/// `SetReplay` with a window of so many packet numbers.
pub(super) fn window_of(window: u32) -> Command {
    Command::SetReplay { on: true, window }
}
