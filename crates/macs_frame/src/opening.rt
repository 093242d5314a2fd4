//! Opening a protected frame (IEEE Std 802.1AE-2018, 10.6, 14.5 and 14.6).

ghost use Rattle.std.specs.Prelude.{◌≡◌, ◌≢◌, ◌<◌, ◌≤◌, ◌+◌, ◌^◌, ◌++◌, ◌↔◌, List, ℕ, [], ◌∷◌};
ghost use Rattle.std.specs.Prelude.{length, take, drop, slice_range, IsTrue, IfOk, IsSomeAnd, OnOk};
ghost use Rattle.std.specs.Prelude.{OnErr};
ghost use Rattle.std.specs.Bool.{OnFalse, OnTrue};
ghost use Rattle.macs_gcm.specs.Gcm.{Opens, seal};
ghost use Rattle.macs_fields.specs.Fields.{octets_of};
ghost use Rattle.macs_fields.specs.First.{IsFirst};
ghost use Rattle.macs_frame.specs.Opening.{OpenFaultHolds, OpensTo, Verified, named_sci};
ghost use Rattle.macs_frame.specs.Opening.{open_faults};
ghost use Rattle.macs_frame.specs.Tag.{Tag, tag_of};

use crate::reading::read_tag;
use crate::shared::{append, clear_end, iv_of};
use crate::tag::{ADDRESS_OCTETS, FrameBuf, ICV_OCTETS, Parts, ScName, TagFault};
use macs_fields::{An, Offset, Pn, Sci};
use macs_gcm::{GcmKey, open};

/// Why a frame is not opened, in the order in which the faults are checked.
#[derive(Debug, Clone, Copy, PartialEq, Eq)]
pub enum OpenFault {
    /// The SecTAG has a fault.
    Tag(TagFault),
    /// The SecTAG names another SCI: an explicit one, or the source address with port 00-01.
    OtherSci,
    /// The ICV is not that of the frame under this key, SCI and offset.
    NotValid,
}

impl From<TagFault> for OpenFault {
    ghost use Rattle.macs_frame.specs.declared.opening.OpenFault.TheVariants.{Tag as TagRefused};

    ghost from_gives = { λ fault e. e ≡ TagRefused fault };

    fn from(fault: TagFault) -> OpenFault {
        OpenFault::Tag(fault)
    }
}

/// The ICV, whose 16 octets begin at `end`.
fn icv_at(frame: &[u8], end: usize) -> [u8; ICV_OCTETS]
    requires { end + 16 ≤ length frame.now }
    ensures { result ≡ slice_range frame.now end (end + 16) }
{
    let mut icv = [0; ICV_OCTETS];
    icv.copy_from_slice(&frame[end..end + ICV_OCTETS]);
    icv
}

/// Opens the octets from `start` on in place, and leaves those before it unchanged.
fn open_from(
    key: &GcmKey,
    iv: &[u8; 12],
    aad: &[u8],
    octets: &mut [u8],
    start: usize,
    icv: &[u8; ICV_OCTETS],
) -> bool
    requires start { start ≤ length octets.old }
    requires aad { length aad.now < 2 ^ 32 }
    requires octets { length octets.old < 2 ^ 32 }
    ensures exactly { IsTrue result ↔ Opens key.now iv.now aad.now (drop start octets.old) icv.now }
    ensures opened { OnTrue result
        (seal key.now iv.now aad.now (drop start octets.new) ≡ (drop start octets.old, icv.now)) }
    ensures front { take start octets.new ≡ take start octets.old }
{
    open(key, iv, aad, &mut octets[start..], icv)
}

/// Opens the Secure Data and the ICV of a frame, and writes its plain frame to `out`. The parts are
/// a reading of this frame, as `read_tag` returns. Returns whether they open under this key, SCI
/// and offset; if not, `out` is empty.
pub fn open_parts(
    key: &GcmKey,
    sci: Sci,
    offset: Offset,
    frame: &[u8],
    parts: &Parts,
    out: &mut FrameBuf,
) -> bool
    requires { Tag frame.now parts.now }
    ensures exactly { IsTrue result
        ↔ ((plain : List ℕ) × OpensTo frame.now key.now sci (octets_of offset) parts.now plain) }
    ensures opened { OnTrue result
        (OpensTo frame.now key.now sci (octets_of offset) parts.now out.new.items) }
    ensures empty { OnFalse result (out.new.items ≡ []) }
{
    let clear = clear_end(&parts.tag, offset, parts.start, parts.end);
    out.clear();
    append(out, &frame[..ADDRESS_OCTETS]);
    append(out, &frame[parts.start..clear]);
    let start = out.len();
    append(out, &frame[clear..parts.end]);
    let iv = iv_of(sci, parts.tag.pn);
    let icv = icv_at(frame, parts.end);
    let is_valid = open_from(key, &iv, &frame[..clear], out.as_mut_slice(), start, &icv);
    if !is_valid {
        out.clear();
    }
    is_valid
}

/// The SCI that a SecTAG names, `None` if it leaves the channel to the receiver (9.5, 9.9).
fn named_sci(frame: &[u8], name: ScName) -> Option<Sci>
    requires { 12 ≤ length frame.now }
    ensures { result ≡ named_sci frame.now name }
{
    match name {
        ScName::Explicit(sci) => Some(sci),
        ScName::EndStation => Some(end_station_sci(frame)),
        ScName::Implicit => None,
    }
}

/// The SCI of the end station that a frame of 12 octets or more comes from: its source address,
/// with port 00-01 (9.5).
pub fn end_station_sci(frame: &[u8]) -> Sci
    requires { 12 ≤ length frame.now }
    ensures { result ≡ slice_range frame.now 6 12 ++ 0 ∷ 1 ∷ [] }
{
    let mut address = [0; 6];
    address.copy_from_slice(&frame[6..12]);
    let [a, b, c, d, e, f] = address;
    Sci([a, b, c, d, e, f, 0, 1])
}

/// Whether a SecTAG names an SCI other than this one.
fn names_other(frame: &[u8], name: ScName, sci: Sci) -> bool
    requires { 12 ≤ length frame.now }
    ensures { IsTrue result ↔ IsSomeAnd (named_sci frame.now name) (λ named. named ≢ sci) }
{
    named_sci(frame, name).is_some_and(|named| named != sci)
}

/// Opens a protected frame, writes its plain frame to `out`, and returns the association and the
/// packet number in its SecTAG. After a fault `out` is empty.
pub fn open_frame(
    key: &GcmKey,
    sci: Sci,
    offset: Offset,
    frame: &[u8],
    out: &mut FrameBuf,
) -> Result<(An, Pn), OpenFault>
    ensures opened { OnOk result (Verified frame.now key.now sci (octets_of offset) out.new.items) }
    ensures numbers { IfOk result
        (λ found. (found.0 ≡ (tag_of frame.now).an) × (found.1 ≡ (tag_of frame.now).pn)) }
    ensures fault { (fault : OpenFault) → (result ≡ Err fault)
        ↔ IsFirst (OpenFaultHolds frame.now key.now sci (octets_of offset)) open_faults fault }
    ensures empty { OnErr result (out.new.items ≡ []) }
{
    out.clear();
    let parts = read_tag(frame)?;
    let tag = parts.tag;
    if names_other(frame, tag.name, sci) {
        return Err(OpenFault::OtherSci);
    }
    if !open_parts(key, sci, offset, frame, &parts, out) {
        return Err(OpenFault::NotValid);
    }
    Ok((tag.an, tag.pn))
}
