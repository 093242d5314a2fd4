//! The keys that endpoints on a disk file of this name have been given.

use macs_config::Command;

/// Why the key of a command may not be installed.
#[derive(Clone, Copy, Debug, PartialEq, Eq)]
pub enum NoteFault {
    /// It was given to an earlier endpoint on a disk of this name.
    Spent,
    /// It cannot be noted: the note cannot be read, written or synced.
    Failed,
}

/// Notes keys before they are installed. An endpoint on a new disk does not know which keys its
/// predecessor had: if the old disk was lost, these notes are all that is left of them.
pub trait KeyNotes {
    ghost use Rattle.std.specs.Prelude.{Option, None, Result};
    ghost use Rattle.macs_config.specs.declared.command.Command.{Command};
    ghost use Rattle.macs_control.specs.Listening.{IsKnown};
    ghost use Rattle.macs_control.specs.declared.desk.key_notes.NoteFault.{NoteFault};

    /// The answer for a command, if known.
    ghost answers: { Self → Command → Option (Result (Unit {0}) NoteFault) } = { λ _ _. None };

    /// Notes the key that a command installs, if it installs one. After an Ok the note is durable.
    /// It waits for that only if the command installs a key.
    fn note(&self, command: &Command) -> Result<(), NoteFault>
        ensures { IsKnown (answers self.now command.now) result };
}
