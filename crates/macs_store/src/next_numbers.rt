//! Next packet numbers, to which ceilings may be lowered.

ghost use Rattle.std.specs.Prelude.{◌≡◌};
ghost use Rattle.macs_store.specs.Standing.{Ceilings};

use macs_fields::{An, Sci};
use macs_record::Ceiling;

/// The next packet number of each association that exists, 1 to 2^32: the lowest ceiling that it
/// may have, since no number from it on was used.
pub trait NextNumbers {
    /// The next packet numbers, as the ceilings that they are to be.
    ghost numbers: { Self → Ceilings };

    /// The next packet number of a transmit association, `None` if there is none.
    fn tx(&self, an: An) -> Option<Ceiling>
        ensures { result ≡ (numbers self.now).tx an };

    /// The next packet number of a receive association, `None` if there is none.
    fn rx(&self, sci: Sci, an: An) -> Option<Ceiling>
        ensures { result ≡ (numbers self.now).rx sci an };
}
