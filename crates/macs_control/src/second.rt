//! What is done once a second.

ghost use Rattle.std.specs.Prelude.{◌≡◌};
ghost use Rattle.macs_control.specs.Seconds.{is_over};

use std::rt::Clock;
use std::time::Duration;

/// Seconds that end: by a monotonic clock, starting with the first look.
#[derive(Clone, Copy)]
pub(crate) struct EachSecond {
    last: Option<Duration>,
}

/// Whether a second or more has passed between two times, or there was no earlier one.
fn is_over(last: Option<Duration>, now: Duration) -> bool
    ensures { result ≡ is_over last now }
{
    match last {
        Some(then) => now.as_nanos() >= then.as_nanos().saturating_add(1_000_000_000),
        None => true,
    }
}

impl EachSecond {
    ghost use Rattle.std.specs.Prelude.{◌≡◌, None, Some, if◌then◌else◌};
    ghost use Rattle.macs_control.specs.Seconds.{LooksAtClock, is_over};

    /// Before the first look, which finds that a second has ended.
    pub(crate) fn new() -> EachSecond
        ensures { result.last ≡ None }
    {
        EachSecond { last: None }
    }

    /// Compares a time with the last one, and returns whether a second has ended; the next one
    /// begins then.
    fn look(&mut self, now: Duration) -> bool
        ensures over { result ≡ is_over self.old.last now }
        ensures last { self.new.last ≡ (if result then Some now else self.old.last) }
    {
        if is_over(self.last, now) {
            self.last = Some(now);
            return true;
        }
        false
    }

    /// Looks at the clock: no second has ended if that fails.
    pub(crate) fn is_over<C: Clock>(&mut self, clock: &C) -> bool
        ensures { LooksAtClock self.old.last result self.new.last }
    {
        match clock.monotonic() {
            Ok(now) => self.look(now),
            Err(_) => false,
        }
    }
}
