//! Frames that do not verify.

ghost use Rattle.std.specs.Prelude.{◌≡◌, ◌||◌, [], if◌then◌else◌, List, ℕ};
ghost use Rattle.macs_fields.specs.First.{IsFirst};
ghost use Rattle.macs_frame.specs.Opening.{bare_frame};
ghost use Rattle.macs_frame.specs.Tag.{Tag, TagFaultHolds, changed, control, tag_faults};
ghost use Rattle.macs_rxsc.specs.Receive.{RxSide, Tag as TagStep, given_at, is_strict, verdict_at};
ghost use Rattle.macs_rxsc.specs.declared.verdict.Verdict.TheVariants.{Delivered, Discarded};

use crate::verdict::{Kind, Reason, Verdict};
use macs_config::Validate;
use macs_frame::{ADDRESS_OCTETS, FrameBuf, Parts, TagFault, append};

/// Discards a frame, or delivers its addresses and Secure Data. It is delivered if validation is
/// not strict and C is clear. The parts are a reading of it, and `out` is empty before.
pub(crate) fn discard_or_deliver(
    validate: Validate,
    reason: Reason,
    kind: Kind,
    frame: &[u8],
    parts: &Parts,
    out: &mut FrameBuf,
) -> Verdict
    requires read { Tag frame.now parts.now }
    requires empty { out.old.items ≡ [] }
    ensures verdict { result ≡ (if is_strict validate || changed (control frame.now)
        then Discarded reason else Delivered kind) }
    ensures given { out.new.items
        ≡ (if is_strict validate || changed (control frame.now) then [] else bare_frame frame.now) }
{
    if validate == Validate::Strict || parts.tag.changed {
        return Verdict::Discarded(reason);
    }
    append(out, &frame[..ADDRESS_OCTETS]);
    append(out, &frame[parts.start..parts.end]);
    Verdict::Delivered(kind)
}

/// The verdict on a frame with a fault of its tag, the first of them. It is discarded; a frame
/// without a tag is delivered whole if validation is not strict. `out` is empty before.
pub(crate) fn refuse(
    validate: Validate,
    fault: TagFault,
    frame: &[u8],
    out: &mut FrameBuf,
) -> Verdict
    requires fault { IsFirst (TagFaultHolds frame.now) tag_faults fault }
    requires empty { out.old.items ≡ [] }
    ensures verdict { (side : RxSide) → side.validate ≡ validate
        → result ≡ verdict_at side frame.now (TagStep fault) }
    ensures given { out.new.items ≡ given_at frame.now result }
{
    let reason = match fault {
        TagFault::Runt => Reason::Runt,
        TagFault::Oversize => Reason::Oversize,
        TagFault::NoTag if validate == Validate::Check => {
            append(out, frame);
            return Verdict::Delivered(Kind::Untagged);
        }
        TagFault::NoTag => Reason::NoTag,
        TagFault::BadTag => Reason::BadTag,
        TagFault::ForKay => Reason::ForKay,
    };
    Verdict::Discarded(reason)
}
