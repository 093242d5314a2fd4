//! When the last frame arrived that verified.

ghost use Rattle.std.specs.Prelude.{◌≡◌};
ghost use Rattle.macs_control.specs.LastGood.{NotesGood, good_frames};
ghost use Rattle.macs_rxsc.specs.Value as rxsc;

use macs_disk::SectorDisk;
use macs_endpoint::Endpoint;
use macs_rxsc::{Kind, Verdict};
use macs_texts::Program;

/// A source of the current time, and a pause.
pub trait Time {
    ghost use Rattle.std.specs.Prelude.{ℕ, Option, None};
    ghost use Rattle.macs_control.specs.Listening.{IsKnown};

    /// What it returns, if known.
    ghost time: { Self → Option (Option ℕ) } = { λ _. None };

    /// Seconds since the beginning of 1970 (UTC), if the clock can be read.
    fn seconds(&self) -> Option<u64>
        ensures { IsKnown (time self.now) result };

    /// Sleeps until the disk may have answered, for at most a millisecond.
    fn pause(&self) {}
}

/// How many frames verified since the disk was opened, up to 2^64 - 1.
pub fn good_frames<D: SectorDisk>(endpoint: &Endpoint<D>) -> u64
    ensures { result ≡ good_frames (rxsc.counters_of endpoint.now.rx) }
{
    let counters = endpoint.counters();
    let ok = counters.verdict(Verdict::Delivered(Kind::Ok));
    let delayed = counters.verdict(Verdict::Delivered(Kind::Delayed));
    ok.saturating_add(delayed)
}

/// Notes the current time if more than `before` frames verified.
pub fn note_good<T: Time>(program: &mut Program, before: u64, frames: u64, system: &T)
    ensures good { NotesGood (T.time system.now) before frames
        program.old.last_good program.new.last_good }
    ensures same { program.new ≡ record program.old { last_good = program.new.last_good } }
{
    if frames != before {
        program.last_good = system.seconds();
    }
}
