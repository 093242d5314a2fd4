//! Laws of the definitions, for the layers above.

ghost use Rattle.std.specs.Prelude.{◌≡◌, ◌⊎◌, ◌≤◌, ◌+◌, ◌^◌, ℕ, List, Option, Some};
ghost use Rattle.macs_fields.specs.First.{IsFirst};
ghost use Rattle.macs_rxsc.specs.Receive.{AreNumbered, AreOrdered, Arrival, Arrives, Numbers};
ghost use Rattle.macs_rxsc.specs.Receive.{RxStepHolds, Outcome, IsOutcome, RxSide, RxStep};
ghost use Rattle.macs_rxsc.specs.Receive.{rx_steps};

/// A frame is settled by one of the first nine steps, or it has exactly one arrival.
pub fn settled_or_arrives()
    ensures either { (side : RxSide) (frame : List ℕ) → AreNumbered side
        → ((step : RxStep) × IsFirst (RxStepHolds side frame) rx_steps step)
        ⊎ ((a : Arrival) × Arrives side frame a) }
    ensures once { (side : RxSide) (frame : List ℕ) (a b : Arrival)
        → Arrives side frame a → Arrives side frame b → a ≡ b }
{}

/// A frame has one outcome.
pub fn receives_once()
    ensures { (side : RxSide) (ceilings : List ℕ → ℕ → Option ℕ) (frame : List ℕ) (a b : Outcome)
        → IsOutcome side ceilings frame a → IsOutcome side ceilings frame b → a ≡ b }
{}

/// If the numbers of all associations are in order, each association that exists has its numbers,
/// so that `settled_or_arrives` applies.
pub fn ordered_are_numbered()
    ensures { (side : RxSide) (ceilings : List ℕ → ℕ → Option ℕ)
        → ((sci : List ℕ) (an : ℕ) → AreOrdered side ceilings sci an) → AreNumbered side }
{}

/// Which numbers are in order: the lowest is at least 1, at most the next, and at most a window
/// below it; and the next is at most the ceiling, which is at most 2^32.
pub fn numbers_in_order()
    ensures { (side : RxSide) (ceilings : List ℕ → ℕ → Option ℕ) (sci : List ℕ) (an ceiling : ℕ)
        (numbers : Numbers)
        → AreOrdered side ceilings sci an → side.numbers sci an ≡ Some numbers
        → ceilings sci an ≡ Some ceiling
        → (1 ≤ numbers.lowest) × (numbers.next ≤ numbers.lowest + side.replay.window)
        × (numbers.lowest ≤ numbers.next)
        × (numbers.next ≤ ceiling) × (ceiling ≤ 2 ^ 32) }
{}
