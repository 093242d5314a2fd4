//! The call of `include/macsec.h` that makes a new endpoint.

ghost use Rattle.std.specs.Prelude.{◌≡◌};
ghost use Rattle.macs_c.specs.Answers.{number_of};
ghost use Rattle.macs_c.specs.Formatted.{FormatAnswer};
ghost use Rattle.macs_c.specs.declared.answers.Answer.{Answer};

use crate::answers::number_of;
use crate::formatting::{MacsIdentity, format};

/// Makes the journal of a new endpoint in the sectors of a disk. Returns 0, or the code of the
/// first refusal that applies: a block is out of its range, there are fewer than 1,028 sectors, or
/// a head gate is open. Then nothing changes.
#[unsafe(no_mangle)]
pub extern "C" fn macs_format(sectors: &mut [[u8; 512]], identity: &MacsIdentity) -> u32
    ensures { (answer : Answer) × (result ≡ number_of answer)
        × FormatAnswer sectors.old identity.now answer sectors.new }
{
    number_of(format(sectors, identity))
}
