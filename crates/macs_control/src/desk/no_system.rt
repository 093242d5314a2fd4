//! A system about which nothing is known.

use crate::desk::key_notes::{KeyNotes, NoteFault};
use crate::desk::last_good::Time;
use crate::desk::overruns::{Dropped, Overruns};
use macs_config::Command;

/// A system about which nothing is known: neither how many datagrams of the wires it dropped nor
/// what time it is; and each key may be installed.
#[derive(Drop)]
pub struct NoSystem;

impl Overruns for NoSystem {
    ghost use Rattle.std.specs.Prelude.{Some, None};

    ghost known = { λ _. Some (record { controlled = None; common = None }) };

    fn dropped(&self) -> Dropped {
        Dropped {
            controlled: None,
            common: None,
        }
    }
}

impl KeyNotes for NoSystem {
    ghost use Rattle.std.specs.Prelude.{Some, Ok};

    ghost answers = { λ _ _. Some (Ok tt) };

    fn note(&self, _command: &Command) -> Result<(), NoteFault> {
        Ok(())
    }
}

impl Time for NoSystem {
    ghost use Rattle.std.specs.Prelude.{Some, None};

    ghost time = { λ _. Some None };

    fn seconds(&self) -> Option<u64> {
        None
    }
}
