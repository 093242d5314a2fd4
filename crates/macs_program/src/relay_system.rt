//! What the desk of a relay needs from the system.

use crate::build::seconds_now;
use crate::overruns::dropped_at;
use macs_config::Command;
use macs_control::Sockets;
use macs_control::desk::{Dropped, KeyNotes, NoteFault, Overruns, Time};
use macs_offline::{KeyFault, KeyList};
use std::alloc::Global;
use std::rt::{Clock, Files};
use std::slice;

/// Linux, for the sockets of both wires and for time, and the list of keys beside the disk file.
#[derive(Drop)]
pub struct RelaySystem<'a, T> {
    pub rt: &'a T,
    pub alloc: Global,
    pub wires: Sockets,
    pub keys: KeyList<'a, T>,
}

impl<T: Files> Overruns for RelaySystem<'_, T> {
    fn dropped(&self) -> Dropped {
        Dropped {
            controlled: dropped_at(self.rt, self.alloc, self.wires.controlled),
            common: dropped_at(self.rt, self.alloc, self.wires.common),
        }
    }
}

impl<T: Files> KeyNotes for RelaySystem<'_, T> {
    fn note(&self, command: &Command) -> Result<(), NoteFault> {
        match self.keys.note(slice::from_ref(command)) {
            Ok(()) => Ok(()),
            Err(KeyFault::Spent) => Err(NoteFault::Spent),
            Err(KeyFault::File | KeyFault::Memory) => Err(NoteFault::Failed),
        }
    }
}

impl<T: Clock> Time for RelaySystem<'_, T> {
    fn seconds(&self) -> Option<u64> {
        seconds_now(self.rt)
    }

    fn pause(&self) {
        self.wires.pause();
    }
}
