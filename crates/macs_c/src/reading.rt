//! Reading the SecTAG of a frame, so that its key can be looked up.

ghost use Rattle.std.specs.Prelude.{◌≡◌, ◌≤◌, ℕ, IfErr, IfOk, length, unwrap_or};
ghost use Rattle.macs_frame.specs.Opening.{named_sci};
ghost use Rattle.macs_c.specs.Reading.{IsReadable, IsUnreadable, TagRefusal, name_code, no_sci};
ghost use Rattle.macs_c.specs.Reading.{tag_for_c};

use crate::fields::{MacsSci, MacsTag};
use crate::refusals::Refusal;
use macs_fields::Sci;
use macs_frame::{ScName, TagFault, end_station_sci, read_tag};

/// The SCI that the SecTAG of a frame of 12 octets or more names; zeros if it leaves the channel to
/// the receiver (9.5, 9.9).
fn sci_named(frame: &[u8], name: ScName) -> MacsSci
    requires { 12 ≤ length frame.now }
    ensures { result.octets ≡ unwrap_or (named_sci frame.now name) no_sci }
{
    let Sci(octets) = match name {
        ScName::Explicit(sci) => sci,
        ScName::EndStation => end_station_sci(frame),
        ScName::Implicit => Sci([0; 8]),
    };
    MacsSci { octets }
}

/// The code of a way to name a channel.
fn code_of_name(name: ScName) -> u8
    ensures { result ≡ name_code name }
{
    match name {
        ScName::Implicit => 0,
        ScName::Explicit(_) => 1,
        ScName::EndStation => 2,
    }
}

/// The refusal for a fault of a SecTAG.
fn refusal_of_tag(fault: TagFault) -> Refusal
    ensures { TagRefusal fault result }
{
    match fault {
        TagFault::Runt => Refusal::Runt,
        TagFault::Oversize => Refusal::Oversize,
        TagFault::NoTag => Refusal::NoTag,
        TagFault::BadTag => Refusal::BadTag,
        TagFault::ForKay => Refusal::ForKay,
    }
}

/// What the SecTAG of a frame says, or the refusal for its first fault.
pub(crate) fn read_for_c(frame: &[u8]) -> Result<MacsTag, Refusal>
    ensures read { IfOk result (λ tag. IsReadable frame.now × (tag ≡ tag_for_c frame.now)) }
    ensures refused { IfErr result (IsUnreadable frame.now) }
{
    match read_tag(frame) {
        Ok(parts) => {
            let tag = parts.tag;
            Ok(MacsTag {
                sci: sci_named(frame, tag.name),
                pn: tag.pn.get(),
                an: tag.an.get(),
                name: code_of_name(tag.name),
                encrypted: u8::from(tag.encrypted),
                offset: 0,
            })
        }
        Err(fault) => Err(refusal_of_tag(fault)),
    }
}
