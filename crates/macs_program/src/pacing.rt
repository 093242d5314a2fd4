//! What the pace of a relay comes to: its turns, its sleeps, and the receives that its wires skip.

ghost use Rattle.std.specs.Prelude.{◌≡◌};
ghost use Rattle.macs_program.specs.Attendants.{sleep_of};
ghost use Rattle.macs_program.specs.Relaying.{is_planned, left_out, limit_of, turns_of};

use macs_cli::{Milliseconds, Pace};
use macs_control::Sockets;
use macs_edge::Idle;

/// How many turns a relay takes: if it waits and no number is given, more than it can take in a
/// lifetime.
pub fn turns_of(pace: Pace) -> u64
    ensures { result ≡ turns_of pace }
{
    match pace {
        Pace::Sleepless { turns } => turns,
        Pace::Waiting {
            turns: Some(turns),
            ..
        } => turns,
        Pace::Waiting { turns: None, .. } => u64::MAX,
    }
}

/// Whether the end of a relay with this pace is planned: it was given no number of turns, so it ends
/// on request.
pub fn is_planned(pace: Pace) -> bool
    ensures { result ≡ is_planned pace }
{
    match pace {
        Pace::Waiting { turns: None, .. } => true,
        Pace::Waiting { turns: Some(_), .. } | Pace::Sleepless { .. } => false,
    }
}

/// How many receives in a row a wire of a sleeping relay skips at most, while it yields no frames
/// and the other wire does.
const LEFT_OUT: u8 = 7;

/// How many a wire of a relay with this pace skips: none if the relay does not sleep.
pub fn left_out(pace: Pace) -> u8
    ensures { result ≡ left_out pace }
{
    match pace {
        Pace::Sleepless { .. } => 0,
        Pace::Waiting { .. } => LEFT_OUT,
    }
}

/// The longest sleep of a relay, if it sleeps.
pub fn limit_of(pace: Pace) -> Option<Milliseconds>
    ensures { result ≡ limit_of pace }
{
    match pace {
        Pace::Sleepless { .. } => None,
        Pace::Waiting { limit, .. } => Some(limit),
    }
}

/// The longest sleep of a desk, in milliseconds: 0 if the relay does not sleep.
pub fn sleep_of(pace: Pace) -> u16
    ensures { result ≡ sleep_of pace }
{
    match pace {
        Pace::Sleepless { turns: _ } => 0,
        Pace::Waiting { limit, .. } => limit.0,
    }
}

/// The rest of a relay that nobody attends: it sleeps until a datagram arrives on either wire, for
/// at most the given time, or it does not sleep.
#[derive(Drop)]
pub struct Rest {
    pub sockets: Sockets,
    pub limit: Option<Milliseconds>,
}

impl Idle for Rest {
    fn idle(&mut self) {
        match self.limit {
            Some(limit) => self.sockets.sleep(limit.0),
            None => {}
        }
    }

    fn pause(&mut self) {
        self.sockets.pause();
    }
}
