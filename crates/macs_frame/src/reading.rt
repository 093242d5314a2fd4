//! Reading a SecTAG (IEEE Std 802.1AE-2018, clause 9).

ghost use Rattle.std.specs.Prelude.{◌≡◌, ◌<◌, ◌≤◌, ◌+◌, ◌↔◌, length, IsTrue, MatchOption};
ghost use Rattle.macs_fields.specs.First.{IsFirst};
ghost use Rattle.macs_frame.specs.Tag.{Agrees, IsForKay, IsGoodControl, IsGoodTag, IsReading, Tag};
ghost use Rattle.macs_frame.specs.Tag.{TagFaultHolds, end_at, has_bit, name_of, pn_of, sci_of};
ghost use Rattle.macs_frame.specs.Tag.{start_of, tag_faults};

use crate::tag::{ICV_OCTETS, MAX_FRAME, MIN_FRAME, Parts, ScName, SecTag, TagFault};
use macs_fields::{An, Pn, Sci};

// Octet 3 of the SecTAG: V, ES, SC, SCB, E and C (9.5).

const VERSION: u8 = 0x80;

pub(crate) const END_STATION: u8 = 0x40;

pub(crate) const SCI_PRESENT: u8 = 0x20;

const SINGLE_COPY_BROADCAST: u8 = 0x10;

pub(crate) const ENCRYPTED: u8 = 0x08;

pub(crate) const CHANGED: u8 = 0x04;

/// The shortest Secure Data whose length SL may leave out, in octets (9.7).
pub(crate) const MIN_LONG_DATA: usize = 48;

/// The length of a padded frame, in octets.
const PADDED_FRAME: usize = 60;

/// Whether the bit with this value is set.
fn is_set(octet: u8, mask: u8) -> bool
    ensures { result ≡ has_bit octet mask }
{
    octet & mask != 0
}

/// The PN as a number.
fn number_of(frame: &[u8]) -> u32
    requires { 20 ≤ length frame.now }
    ensures { result ≡ pn_of frame.now }
{
    let mut number = [0; 4];
    number.copy_from_slice(&frame[16..20]);
    u32::from_be_bytes(number)
}

/// The explicit SCI.
fn sci_of(frame: &[u8]) -> Sci
    requires { 28 ≤ length frame.now }
    ensures { result ≡ sci_of frame.now }
{
    let mut octets = [0; 8];
    octets.copy_from_slice(&frame[20..28]);
    Sci(octets)
}

/// Where Secure Data that start at `start` end in a frame of `len` octets, given SL: `None` if SL
/// does not agree with the frame's length (9.7).
fn data_end(len: usize, start: usize, short_length: u8) -> Option<usize>
    requires start { start ≤ 28 }
    requires short { short_length < 64 }
    ensures { MatchOption result (¬ Agrees len start short_length)
        (λ end. Agrees len start short_length × (end ≡ end_at len start short_length)) }
{
    if short_length == 0 {
        return if start + MIN_LONG_DATA + ICV_OCTETS <= len {
            Some(len - ICV_OCTETS)
        } else {
            None
        };
    }
    let end = start + short_length as usize;
    if len == end + ICV_OCTETS || (len == PADDED_FRAME && end + ICV_OCTETS < PADDED_FRAME) {
        Some(end)
    } else {
        None
    }
}

/// Whether octet 3 breaks no rule: V and SCB are clear, and SC and ES are not both set (9.12).
fn is_good_control(control: u8) -> bool
    ensures { IsTrue result ↔ IsGoodControl control }
{
    let is_named_twice = is_set(control, SCI_PRESENT) && is_set(control, END_STATION);
    !is_set(control, VERSION) && !is_set(control, SINGLE_COPY_BROADCAST) && !is_named_twice
}

/// How a whole SecTAG names its channel (9.5).
fn name_of(frame: &[u8]) -> ScName
    requires control { 15 ≤ length frame.now }
    requires whole { start_of frame.now ≤ length frame.now }
    ensures { result ≡ name_of frame.now }
{
    if is_set(frame[14], SCI_PRESENT) {
        ScName::Explicit(sci_of(frame))
    } else if is_set(frame[14], END_STATION) {
        ScName::EndStation
    } else {
        ScName::Implicit
    }
}

/// The parts of a tagged frame, `None` if its tag is bad.
fn parts_of(frame: &[u8]) -> Option<Parts>
    requires { 14 ≤ length frame.now }
    ensures { MatchOption result (¬ IsGoodTag frame.now) (IsReading frame.now) }
{
    if frame.len() < 20 {
        return None;
    }
    let control = frame[14];
    let start = if is_set(control, SCI_PRESENT) { 28 } else { 20 };
    if frame.len() < start || !is_good_control(control) || frame[15] >= 64 {
        return None;
    }
    let pn = Pn::new(number_of(frame))?;
    let end = data_end(frame.len(), start, frame[15])?;
    let tag = SecTag {
        an: An::new(control % 4)?,
        pn,
        name: name_of(frame),
        encrypted: is_set(control, ENCRYPTED),
        changed: is_set(control, CHANGED),
    };
    Some(Parts { tag, start, end })
}

/// The parts of a protected frame of any length, or the first fault in the order of `TagFault`.
pub fn read_tag(frame: &[u8]) -> Result<Parts, TagFault>
    ensures parts { (parts : Parts)
        → (result ≡ Ok parts) ↔ (Tag frame.now parts × (¬ IsForKay frame.now)) }
    ensures fault { (fault : TagFault)
        → (result ≡ Err fault) ↔ IsFirst (TagFaultHolds frame.now) tag_faults fault }
{
    if frame.len() < MIN_FRAME {
        return Err(TagFault::Runt);
    }
    if frame.len() > MAX_FRAME {
        return Err(TagFault::Oversize);
    }
    if frame[12] != 0x88 || frame[13] != 0xE5 {
        return Err(TagFault::NoTag);
    }
    let Some(parts) = parts_of(frame) else {
        return Err(TagFault::BadTag);
    };
    if parts.tag.encrypted && !parts.tag.changed {
        return Err(TagFault::ForKay);
    }
    Ok(parts)
}
