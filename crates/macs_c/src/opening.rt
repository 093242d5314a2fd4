//! Opening a frame into a caller's buffer.

ghost use Rattle.std.specs.Prelude.{◌≡◌, ℕ, List, IfErr, IfOk, OnErr, OnOk, true, length};
ghost use Rattle.macs_aes.specs.Keys.{octets_of_key};
ghost use Rattle.macs_fields.specs.Fields.{octets_of};
ghost use Rattle.macs_c.specs.Fields.{is_offset};
ghost use Rattle.macs_c.specs.Keys.{is_key, key_octets};
ghost use Rattle.macs_c.specs.Refusals.{FrameRefusal, IsFault, IsFaultless, IsOpened, OpenRefusal};
ghost use Rattle.macs_frame.specs.declared.opening.OpenFault.{OpenFault};

use crate::fields::{MacsOpened, MacsSci, offset_of};
use crate::keys::{MacsKey, key_of};
use crate::refusals::Refusal;
use crate::sealing::put;
use macs_aes::Key;
use macs_fields::{Offset, Sci};
use macs_frame::{FrameBuf, OpenFault, TagFault, open_frame};
use macs_gcm::GcmKey;

/// The refusal for a fault of a frame.
fn refusal_of(fault: OpenFault) -> Refusal
    ensures { (frame key sci : List ℕ) (offset room : ℕ) → IsFault frame key sci offset fault
        → FrameRefusal frame key sci offset room result }
{
    match fault {
        OpenFault::Tag(TagFault::Runt) => Refusal::Runt,
        OpenFault::Tag(TagFault::Oversize) => Refusal::Oversize,
        OpenFault::Tag(TagFault::NoTag) => Refusal::NoTag,
        OpenFault::Tag(TagFault::BadTag) => Refusal::BadTag,
        OpenFault::Tag(TagFault::ForKay) => Refusal::ForKay,
        OpenFault::OtherSci => Refusal::OtherSci,
        OpenFault::NotValid => Refusal::NotValid,
    }
}

/// Opens a frame into a buffer.
fn open_under(
    key: &Key,
    sci: Sci,
    offset: Offset,
    frame: &[u8],
    out: &mut [u8],
) -> Result<MacsOpened, Refusal>
    ensures refused { IfErr result
        (FrameRefusal frame.now (octets_of_key key.now) sci (octets_of offset) (length out.old)) }
    ensures faultless { OnOk result
        (IsFaultless frame.now (octets_of_key key.now) sci (octets_of offset)) }
    ensures opened { IfOk result
        (IsOpened frame.now (octets_of_key key.now) sci (octets_of offset) out.old out.new) }
    ensures same { OnErr result (out.new ≡ out.old) }
{
    let mut plain = FrameBuf::new();
    match open_frame(&GcmKey::new(key), sci, offset, frame, &mut plain) {
        Ok((an, pn)) => match put(plain.as_slice(), out) {
            Ok(octets) => Ok(MacsOpened {
                octets,
                pn: pn.get(),
                an: an.get(),
            }),
            Err(refusal) => Err(refusal),
        },
        Err(fault) => Err(refusal_of(fault)),
    }
}

/// Opens a frame into a buffer, and returns the contents of its SecTAG and the length of the plain
/// frame in octets.
pub(crate) fn open_into(
    key: &MacsKey,
    sci: &MacsSci,
    offset: u8,
    frame: &[u8],
    out: &mut [u8],
) -> Result<MacsOpened, Refusal>
    ensures refused { IfErr result
        (OpenRefusal key.now sci.now.octets frame.now offset (length out.old)) }
    ensures key { OnOk result (is_key key.now ≡ true) }
    ensures offset { OnOk result (is_offset offset ≡ true) }
    ensures faultless { OnOk result
        (IsFaultless frame.now (key_octets key.now) sci.now.octets offset) }
    ensures opened { IfOk result
        (IsOpened frame.now (key_octets key.now) sci.now.octets offset out.old out.new) }
    ensures same { OnErr result (out.new ≡ out.old) }
{
    let Some(octets) = key_of(key) else {
        return Err(Refusal::Key);
    };
    let Some(clear) = offset_of(offset) else {
        return Err(Refusal::Field);
    };
    open_under(&octets, Sci(sci.octets), clear, frame, out)
}
