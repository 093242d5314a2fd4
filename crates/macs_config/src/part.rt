//! The parts of a snapshot of a configuration.

ghost use Rattle.std.specs.Prelude.{◌≡◌, ◌≤◌, ◌<◌, ◌++◌, ◌↔◌, [], ◌∷◌, length, List, ℕ, IsTrue};
ghost use Rattle.std.specs.Prelude.{IsSome, IfSome, true, false};

use crate::association::{RxSa, TxSa};
use crate::command::{Replay, Role, SciMode, Validate};
use crate::fingerprint::Fingerprint;
use arrayvec::ArrayVec;
use macs_fields::{An, Sci};
use std::marker::Model;

/// The maximum number of fingerprints in one part.
pub const MAX_FINGERPRINTS: usize = 15;

/// 1 to 15 fingerprints of spent keys, in the order of installation.
#[derive(Drop)]
pub struct Fingerprints {
    items: ArrayVec<Fingerprint, MAX_FINGERPRINTS>,
}

impl Model for Fingerprints {
    ghost Value = { List (List ℕ) };

    ghost view = { λ f. f.items.items };

    ghost invariant = { λ f. 1 ≤ length f.items.items };
}

impl Fingerprints {
    /// One fingerprint.
    pub fn new(first: Fingerprint) -> Fingerprints
        ensures { result ≡ first ∷ [] }
    {
        let mut items = ArrayVec::new();
        items.push(first);
        Fingerprints { items }
    }

    /// These fingerprints. `None` for none, and for more than 15.
    pub fn from_slice(fingerprints: &[Fingerprint]) -> Option<Fingerprints>
        ensures within { IsSome result
            ↔ ((1 ≤ length fingerprints.now) × (length fingerprints.now ≤ 15)) }
        ensures same { IfSome result (λ f. f ≡ fingerprints.now) }
    {
        if fingerprints.is_empty() {
            return None;
        }
        let mut items = ArrayVec::new();
        items.try_extend_from_slice(fingerprints).ok()?;
        Some(Fingerprints { items })
    }

    /// Adds a fingerprint, and returns whether there was room: 15 is the maximum.
    pub fn push(&mut self, fingerprint: Fingerprint) -> bool
        ensures room { IsTrue result ↔ (length self.old < 15) }
        ensures pushed { result ≡ true → self.new ≡ self.old ++ fingerprint ∷ [] }
        ensures same { result ≡ false → self.new ≡ self.old }
    {
        self.items.try_push(fingerprint).is_ok()
    }

    /// A copy of the fingerprints.
    pub fn copied(&self) -> Fingerprints
        ensures { result ≡ self.now }
    {
        Fingerprints::from_slice(self.as_slice()).unwrap()
    }

    /// The fingerprints.
    pub fn as_slice(&self) -> &[Fingerprint]
        ensures items { result.now ≡ self.now }
        ensures some { 1 ≤ length self.now }
        ensures few { length self.now ≤ 15 }
    {
        self.items.as_slice()
    }
}

/// A part of a snapshot. A snapshot has, in this order, its settings, the transmit associations,
/// the receive channels, the receive associations, the spent keys of the transmit side and those of
/// the receive side.
#[derive(Drop)]
pub enum Part {
    Settings {
        validate: Validate,
        replay: Replay,
        sci_mode: SciMode,
        encoding: Option<An>,
    },
    TxSa {
        an: An,
        sa: TxSa,
    },
    Channel {
        sci: Sci,
    },
    RxSa {
        sci: Sci,
        an: An,
        sa: RxSa,
    },
    Spent {
        role: Role,
        fingerprints: Fingerprints,
    },
}

impl Part {
    /// A copy of the part.
    pub(crate) fn copied(&self) -> Part
        ensures { result ≡ self.now }
    {
        match self {
            Part::Settings {
                validate,
                replay,
                sci_mode,
                encoding,
            } => Part::Settings {
                validate: *validate,
                replay: *replay,
                sci_mode: *sci_mode,
                encoding: *encoding,
            },
            Part::TxSa { an, sa } => Part::TxSa { an: *an, sa: *sa },
            Part::Channel { sci } => Part::Channel { sci: *sci },
            Part::RxSa { sci, an, sa } => Part::RxSa {
                sci: *sci,
                an: *an,
                sa: *sa,
            },
            Part::Spent { role, fingerprints } => Part::Spent {
                role: *role,
                fingerprints: fingerprints.copied(),
            },
        }
    }
}

impl Default for Part {
    ghost use Rattle.std.specs.Prelude.{◌≡◌};
    ghost use Rattle.macs_config.specs.Snapshot.{default_part};

    /// The settings of a new configuration.
    fn default() -> Part
        ensures { result ≡ default_part }
    {
        Part::Settings {
            validate: Validate::Strict,
            replay: Replay {
                on: true,
                window: 0,
            },
            sci_mode: SciMode::Explicit,
            encoding: None,
        }
    }
}
