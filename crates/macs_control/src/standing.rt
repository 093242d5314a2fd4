//! The state of a client of a relay: how many answers are due, and whether it keeps its place.

ghost use Rattle.std.specs.Prelude.{◌≡◌};
ghost use Rattle.macs_control.specs.Standings.{new_standing};

use crate::seat::Hearing;

/// A client that sends nothing may lose its place to a newcomer after this many seconds have ended:
/// after more than one second of silence.
const QUIET_SECONDS: u64 = 2;

/// The state of a client of a relay.
#[derive(Clone, Copy)]
pub struct Standing {
    /// How many of its lines were heard but are not answered yet.
    due: u64,
    /// It sends no more.
    has_ended: bool,
    /// The second in which it connected, or in which its last line was heard or answered.
    since: u64,
}

impl Standing {
    ghost use Rattle.std.specs.Prelude.{◌≡◌};
    ghost use Rattle.macs_control.specs.Standings.{after_answer, after_hearing, has_ended, is_idle};
    ghost use Rattle.macs_control.specs.Standings.{is_let_go, is_over, new_standing};

    /// The state of a client that connects in this second.
    pub fn new(now: u64) -> Standing
        ensures { result ≡ new_standing now }
    {
        Standing {
            due: 0,
            has_ended: false,
            since: now,
        }
    }

    /// The state after this was heard from the client. A line makes one more answer due.
    pub fn after_hearing(self, hearing: &Hearing, now: u64) -> Standing
        ensures { result ≡ after_hearing now hearing.now self }
    {
        match hearing {
            Hearing::Line(_) => Standing {
                due: self.due.saturating_add(1),
                has_ended: self.has_ended,
                since: now,
            },
            Hearing::Ended => Standing {
                due: self.due,
                has_ended: true,
                since: self.since,
            },
            Hearing::Silence | Hearing::Gone => self,
        }
    }

    /// The state after a line was answered.
    pub fn after_answer(self, now: u64) -> Standing
        ensures { result ≡ after_answer now self }
    {
        Standing {
            due: self.due.saturating_sub(1),
            has_ended: self.has_ended,
            since: now,
        }
    }

    /// Whether the client sends no more.
    pub fn has_ended(self) -> bool
        ensures { result ≡ has_ended self }
    {
        self.has_ended
    }

    /// Whether the client sends no more, and every line of it is answered.
    pub fn is_over(self) -> bool
        ensures { result ≡ is_over self }
    {
        self.has_ended && self.due == 0
    }

    /// Whether the client loses its place after this was heard from it: if it is gone, or if it
    /// sends no more and every line of it is answered.
    pub fn is_let_go(self, hearing: &Hearing) -> bool
        ensures { result ≡ is_let_go hearing.now self }
    {
        match hearing {
            Hearing::Line(_) => false,
            Hearing::Silence | Hearing::Ended => self.is_over(),
            Hearing::Gone => true,
        }
    }

    /// Whether the client may lose its place to a newcomer: every line of it is answered, and two
    /// seconds have ended since it connected, or since its last line was heard or answered.
    pub fn is_idle(self, now: u64) -> bool
        ensures { result ≡ is_idle now self }
    {
        self.due == 0 && now.saturating_sub(self.since) >= QUIET_SECONDS
    }
}
