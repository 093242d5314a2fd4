//! The verdicts of a run over a capture, reported one by one.

ghost use Rattle.macs_edge.specs.Telling.{TellsAll, listed, telling_of};

use macs_rxsc::Verdict;

/// The recipient of the verdict on each frame of a run, with a value that it passes it on to.
pub trait Verdicts<T> {
    ghost use Rattle.macs_edge.specs.Telling.{Tells};

    /// The effect of a verdict on itself and on the value that it passes it on to.
    ghost tells: { Tells Self T };

    /// Receives the verdict on the next frame.
    fn tell(&mut self, to: &mut T, verdict: Verdict)
        ensures { tells self.old to.old verdict self.new to.new };
}

/// A recipient that ignores verdicts.
#[derive(Drop)]
pub(crate) struct Nobody;

impl Verdicts<Nobody> for Nobody {
    ghost use Rattle.std.specs.Prelude.{⊤};

    ghost tells = { λ _ _ _ _ _. ⊤ };

    fn tell(&mut self, _to: &mut Nobody, _verdict: Verdict) {}
}

/// Reports a verdict, if there is one.
pub(crate) fn tell<T, V: Verdicts<T>>(told: &mut V, to: &mut T, verdict: Option<Verdict>)
    ensures { TellsAll V.tells (telling_of told.old to.old) (listed verdict)
        (telling_of told.new to.new) }
{
    match verdict {
        Some(verdict) => told.tell(to, verdict),
        None => {}
    }
}
