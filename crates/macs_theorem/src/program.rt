//! Programs.

ghost use Rattle.std.specs.Prelude.{◌++◌, List, [], ◌∷◌};
ghost use Rattle.macs_theorem.specs.Events.{Answer, Answers, Ends, EndsIn, Event, Shows};
ghost use Rattle.macs_theorem.specs.Programs.{answer_of};
ghost use Rattle.macs_theorem.specs.Shown.{Shown, shown_by};

use crate::asking::{Ask, Heard};
use macs_disk::SectorDisk;
use macs_endpoint::Endpoint;

/// A program: it makes one request after another, and hears the answers.
pub trait Program {
    /// What it remembers of the events so far. It may remember as much or as little as it likes,
    /// but nothing untrue.
    ghost keeps: { Self → List (Event Shown) → Type 0 };

    /// Its next request, `None` if it is done.
    fn ask(&mut self) -> Option<Ask>
        ensures { (events : List (Event Shown)) → keeps self.old events → keeps self.new events };

    /// It hears an answer.
    fn hear(&mut self, heard: &Heard)
        ensures { (events : List (Event Shown)) → keeps self.old events
            → keeps self.new (events ++ Answers (answer_of heard.now) ∷ []) };

    /// It sees its endpoint.
    fn see<D: SectorDisk>(&mut self, endpoint: &Endpoint<D>)
        ensures { (events : List (Event Shown)) → keeps self.old events
            → keeps self.new (events ++ Answers (Shows (shown_by endpoint.now)) ∷ []) };

    /// The power was lost inside the call that it requested, regardless of what that would have
    /// returned.
    fn cut(&mut self)
        ensures { (events : List (Event Shown)) (answer : Answer Shown) → keeps self.old events
            → keeps self.new (events ++ EndsIn answer ∷ []) };

    /// The power was lost between two calls, or lasts for some device calls from now on.
    fn end(&mut self)
        ensures { (events : List (Event Shown)) → keeps self.old events
            → keeps self.new (events ++ Ends ∷ []) };
}
