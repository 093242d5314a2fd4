//! The commands that clients submitted and that are not answered yet.

ghost use Rattle.std.specs.Prelude.{◌≡◌, ◌≤◌, [], length};
ghost use Rattle.macs_control.specs.Unanswered.{client_of, entries_of, is_full, joined, without};

use arrayvec::ArrayVec;
use macs_commands::requests::Client;
use macs_endpoint::QUEUE;

/// A submitted command that is not answered yet: its ticket, from 1 on, and the client that gave
/// it.
#[derive(Clone, Copy, Debug, Default, PartialEq, Eq)]
pub struct Submitted {
    pub ticket: u64,
    pub client: Client,
}

/// The unanswered commands, earliest first.
#[derive(Drop)]
pub struct Unanswered {
    entries: ArrayVec<Submitted, QUEUE>,
}

impl Unanswered {
    /// No command.
    pub fn new() -> Unanswered
        ensures { entries_of result ≡ [] }
    {
        Unanswered {
            entries: ArrayVec::new(),
        }
    }

    /// Whether there are 16 of them.
    pub fn is_full(&self) -> bool
        ensures full { result ≡ is_full (entries_of self.now) }
        ensures most { length (entries_of self.now) ≤ 16 }
    {
        self.entries.is_full()
    }

    /// Adds a command. If there are 16 it is left out, and nobody gets its result.
    pub fn join(&mut self, entry: Submitted)
        ensures { entries_of self.new ≡ joined (entries_of self.old) entry }
    {
        if !self.is_full() {
            self.entries.push(entry);
        }
    }

    /// Removes the earliest command, if that has this ticket, and returns the client that gave it.
    pub fn leave(&mut self, ticket: u64) -> Option<Client>
        ensures client { result ≡ client_of (entries_of self.old) ticket }
        ensures entries { entries_of self.new ≡ without (entries_of self.old) ticket }
    {
        let first = *self.entries.first()?;
        if first.ticket != ticket {
            return None;
        }
        self.entries.remove(0);
        Some(first.client)
    }
}
