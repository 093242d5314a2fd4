//! Laws of the definitions, for the layers above. If a law is about a value behind a reference, its
//! body reads it: that is how a proof learns its range.

ghost use Rattle.std.specs.Prelude.{◌≡◌, ◌<◌, ◌^◌, Bool, List, All, IsTrue};
ghost use Rattle.std.specs.Bool.{IsFalse};
ghost use Rattle.std.specs.List.{list_any};
ghost use Rattle.macs_fields.specs.Fields.{IsAn, IsSci};
ghost use Rattle.macs_fields.specs.First.{IsFirst, NoneHolds};

use crate::{An, Sci};

/// Of refusals in order, each with its test, one is the first that applies if any does, otherwise
/// none is.
pub fn one_first_refusal<R>()
    ensures once { (holds : R → Bool) (refusals : List R) (a b : R)
        → IsFirst (λ r. IsTrue (holds r)) refusals a
        → IsFirst (λ r. IsTrue (holds r)) refusals b → a ≡ b }
    ensures some { (holds : R → Bool) (refusals : List R) → IsTrue (list_any holds refusals)
        → (first : R) × IsFirst (λ r. IsTrue (holds r)) refusals first }
    ensures none { (holds : R → Bool) (refusals : List R) → IsFalse (list_any holds refusals)
        → NoneHolds (λ r. IsTrue (holds r)) refusals
        × ((r : R) → ¬ IsFirst (λ r. IsTrue (holds r)) refusals r) }
{}

/// Octets are below 2^8: a proof that calls this learns it about octets behind a reference.
pub fn octets_in_range(octets: &[u8])
    ensures { All (λ octet. octet < 2 ^ 8) octets.now }
{}

/// An SCI has 8 octets (9.9).
pub fn sci_in_range(sci: Sci)
    ensures { IsSci sci }
{
    let _octets = sci.get();
}

/// An association number is 0 to 3 (9.6).
pub fn an_in_range(an: An)
    ensures { IsAn an }
{
    let _number = an.get();
}
