//! Protecting a plain frame (IEEE Std 802.1AE-2018, 10.5, 14.5 and 14.6).

ghost use Rattle.std.specs.Prelude.{◌≡◌, ◌<◌, ◌≤◌, ◌+◌, ◌^◌, ◌++◌, length, take, drop};
ghost use Rattle.arrayvec.specs.ArrayVec.{array_vec_len};
ghost use Rattle.macs_gcm.specs.Gcm.{seal};
ghost use Rattle.macs_fields.specs.Fields.{octets_of};
ghost use Rattle.macs_frame.specs.Protection.{control_octet, overhead, protected_frame, short_of};
ghost use Rattle.macs_frame.specs.Protection.{header_of, tag_octets, user_data, written_tag};
ghost use Rattle.macs_frame.specs.Opening.{clear_of, hidden_of};

use crate::reading::{CHANGED, ENCRYPTED, END_STATION, MIN_LONG_DATA, SCI_PRESENT};
use crate::shared::{append, clear_end, iv_of};
use crate::tag::{ADDRESS_OCTETS, FrameBuf, ICV_OCTETS, ScName, SecTag};
use macs_fields::{Offset, Sci};
use macs_gcm::{GcmKey, SealingKey, seal};

/// Octet 3 of a SecTAG (9.5, 9.6).
fn control_octet(tag: &SecTag) -> u8
    ensures { result ≡ control_octet tag.now }
{
    let name = match tag.name {
        ScName::Explicit(_) => SCI_PRESENT,
        ScName::EndStation => END_STATION,
        ScName::Implicit => 0,
    };
    let encrypted = if tag.encrypted { ENCRYPTED } else { 0 };
    let changed = if tag.changed { CHANGED } else { 0 };
    name + encrypted + changed + tag.an.get()
}

/// SL for `secure_len` octets of Secure Data (9.7).
fn short_of(secure_len: usize) -> u8
    ensures { result ≡ short_of secure_len }
{
    if secure_len < MIN_LONG_DATA {
        secure_len as u8
    } else {
        0
    }
}

/// Appends a SecTAG, 16 octets with an explicit SCI and 8 otherwise, for `secure_len` octets of
/// Secure Data (9.3): SL is their number if it is below 48, else 0 (9.7). There is room for 16
/// octets.
pub fn write_tag(tag: &SecTag, secure_len: usize, out: &mut FrameBuf)
    requires { array_vec_len out.old + 16 ≤ 9216 }
    ensures written { out.new.items ≡ out.old.items ++ written_tag tag.now secure_len }
    ensures length { array_vec_len out.new ≡ array_vec_len out.old + tag_octets tag.now.name }
{
    let octets = [0x88, 0xE5, control_octet(tag), short_of(secure_len)];
    append(out, &octets);
    append(out, &tag.pn.get().to_be_bytes());
    if let ScName::Explicit(sci) = tag.name {
        append(out, &sci.get());
    }
}

/// Seals the octets from `start` on in place, with those before it as additional data, and returns
/// the ICV.
fn seal_from(key: &GcmKey, iv: &[u8; 12], octets: &mut [u8], start: usize) -> [u8; ICV_OCTETS]
    requires start { start ≤ length octets.old }
    requires octets { length octets.old < 2 ^ 32 }
    ensures sealed { (drop start octets.new, result)
        ≡ seal key.now iv.now (take start octets.old) (drop start octets.old) }
    ensures front { take start octets.new ≡ take start octets.old }
{
    let (aad, text) = octets.split_at_mut(start);
    seal(key, iv, aad, text)
}

/// The same with a key that generates key stream in advance.
fn seal_next_from(
    key: &mut SealingKey,
    iv: &[u8; 12],
    octets: &mut [u8],
    start: usize,
) -> [u8; ICV_OCTETS]
    requires start { start ≤ length octets.old }
    requires octets { length octets.old < 2 ^ 32 }
    ensures sealed { (drop start octets.new, result)
        ≡ seal key.old iv.now (take start octets.old) (drop start octets.old) }
    ensures front { take start octets.new ≡ take start octets.old }
    ensures key { key.new ≡ key.old }
{
    let (aad, text) = octets.split_at_mut(start);
    key.seal(iv, aad, text)
}

/// Writes addresses, SecTAG and User Data of a plain frame to `out`, replacing its contents, and
/// returns where the octets to encrypt begin.
fn lay_out(tag: &SecTag, offset: Offset, plain: &[u8], out: &mut FrameBuf) -> usize
    requires long_enough { 14 ≤ length plain.now }
    requires fits { length plain.now + overhead tag.now.name ≤ 9216 }
    ensures octets { out.new.items ≡ header_of tag.now plain.now
        ++ clear_of tag.now.encrypted (octets_of offset) (user_data plain.now)
        ++ hidden_of tag.now.encrypted (octets_of offset) (user_data plain.now) }
    ensures start { length (header_of tag.now plain.now
        ++ clear_of tag.now.encrypted (octets_of offset) (user_data plain.now)) ≡ result }
    ensures room { array_vec_len out.new + 16 ≤ 9216 }
{
    let clear = clear_end(tag, offset, ADDRESS_OCTETS, plain.len());
    out.clear();
    append(out, &plain[..ADDRESS_OCTETS]);
    write_tag(tag, plain.len() - ADDRESS_OCTETS, out);
    append(out, &plain[ADDRESS_OCTETS..clear]);
    let start = out.len();
    append(out, &plain[clear..]);
    start
}

/// Protects a plain frame of 14 octets or more under a key, with GCM-AES-128 for a key of 128 bits
/// and GCM-AES-256 for one of 256 (14.5 and 14.6), and writes the protected frame to `out`,
/// replacing its contents. The tag names the association, the packet number and the channel, and
/// its `encrypted` equals its `changed`: if both are set User Data are encrypted from `offset` on,
/// otherwise all of them are in the clear. `sci` is the transmit channel's, which is part of the
/// initialisation vector. The protected frame has at most 9,216 octets: it is 32 octets longer than
/// the plain one if the tag has an explicit SCI, else 24.
pub fn seal_frame(
    key: &GcmKey,
    sci: Sci,
    tag: &SecTag,
    offset: Offset,
    plain: &[u8],
    out: &mut FrameBuf,
)
    requires long_enough { 14 ≤ length plain.now }
    requires fits { length plain.now + overhead tag.now.name ≤ 9216 }
    requires alike { tag.now.encrypted ≡ tag.now.changed }
    ensures { out.new.items ≡ protected_frame key.now sci tag.now (octets_of offset) plain.now }
{
    let start = lay_out(tag, offset, plain, out);
    let iv = iv_of(sci, tag.pn);
    let icv = seal_from(key, &iv, out.as_mut_slice(), start);
    append(out, &icv);
}

/// Protects a plain frame as `seal_frame` does, with a key that generates key stream in advance,
/// which is faster when packet numbers are consecutive.
pub fn seal_next_frame(
    key: &mut SealingKey,
    sci: Sci,
    tag: &SecTag,
    offset: Offset,
    plain: &[u8],
    out: &mut FrameBuf,
)
    requires long_enough { 14 ≤ length plain.now }
    requires fits { length plain.now + overhead tag.now.name ≤ 9216 }
    requires alike { tag.now.encrypted ≡ tag.now.changed }
    ensures frame { out.new.items
        ≡ protected_frame key.old sci tag.now (octets_of offset) plain.now }
    ensures key { key.new ≡ key.old }
{
    let start = lay_out(tag, offset, plain, out);
    let iv = iv_of(sci, tag.pn);
    let icv = seal_next_from(key, &iv, out.as_mut_slice(), start);
    append(out, &icv);
}
