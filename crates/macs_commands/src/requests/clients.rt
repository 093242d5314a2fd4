//! The clients of a desk.

use crate::requests::inbox::Line;
use crate::secrets::wipe;

/// A client: the number of its connection, from 1 on. No number is reused, so that an answer to a
/// client that went away goes to nobody.
#[derive(Clone, Copy, Debug, Default, PartialEq, Eq)]
pub struct Client(pub u64);

/// A line, and the client that sent it. The line is overwritten when it is dropped.
pub struct Heard {
    pub client: Client,
    /// Without its line feed.
    pub line: Line,
}

impl Drop for Heard {
    fn drop(self) {
        let Heard {
            client: _,
            mut line,
        } = self;
        wipe(line.as_mut_slice());
    }
}

/// The clients of a desk. No call except `sleep` waits, no matter what a client does.
pub trait Clients {
    ghost use Rattle.std.specs.Prelude.{⊤};
    ghost use Rattle.macs_commands.specs.Talks.{Heard as WasHeard, Looked, Said, Slept, Talk};

    /// What each exchange with a desk makes of them.
    ghost does: { Self → Talk → Self → Type 0 } = { λ _ _ _. ⊤ };

    /// Takes the next whole line of a client, if there is one. Lines of one client come in the
    /// order in which it sent them.
    fn hear(&mut self) -> Option<Heard>
        ensures { does self.old (WasHeard result) self.new };

    /// Sends a text to a client. Each line that was heard is answered once: by texts, the last of
    /// which ends in the line `end STATUS`. Nothing is sent to a client that went away; one that
    /// does not take all of a text at once is dropped, and nothing more is sent to it. One that
    /// sends no more is dropped after its last answer.
    fn say(&mut self, client: Client, text: &[u8])
        ensures { does self.old (Said client text.now) self.new };

    /// Sleeps until a datagram arrives or a client sends something, for a bounded time. It is
    /// called only after a quiet turn.
    fn sleep(&mut self)
        ensures { does self.old Slept self.new };

    /// Whether the process was asked to end from outside, for example by a pending SIGTERM. It may
    /// be called before each turn, and checks at most about once a second.
    fn is_ended(&mut self) -> bool
        ensures { does self.old (Looked result) self.new };
}
