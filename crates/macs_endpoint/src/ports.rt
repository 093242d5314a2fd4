//! Sources of events, and sinks of answers.

ghost use Rattle.std.specs.Prelude.{◌≡◌, Bool, List, [], ◌∷◌, ◌++◌, true};
ghost use Rattle.macs_endpoint.specs.Serving.{Takes};
ghost use Rattle.macs_endpoint.specs.declared.event.Answer.{Answer};
ghost use Rattle.macs_endpoint.specs.declared.event.Event.{Event};

use crate::event::{Answer, Event};

/// A source of events.
pub trait EventSource {
    /// Whether it reports which events it has left.
    ghost tells: { Self → Bool };

    /// The events that it has left, if it reports them.
    ghost left: { Self → List Event };

    /// The next event, `None` if there are no more.
    fn next_event(&mut self) -> Option<Event>
        ensures taken { tells self.old ≡ true → Takes (left self.old) result (left self.new) }
        ensures telling { tells self.new ≡ tells self.old };
}

/// A sink of answers.
pub trait AnswerSink {
    /// Whether it reports which answers it took.
    ghost tells: { Self → Bool };

    /// The answers that it took, if it reports them.
    ghost took: { Self → List Answer };

    /// Takes an answer.
    fn put(&mut self, answer: Answer)
        ensures given { tells self.old ≡ true → took self.new ≡ took self.old ++ answer ∷ [] }
        ensures telling { tells self.new ≡ tells self.old };
}
