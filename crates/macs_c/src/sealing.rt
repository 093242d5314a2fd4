//! Sealing a frame into a caller's buffer.

ghost use Rattle.std.specs.Prelude.{◌≡◌, ◌+◌, ◌++◌, ◌≤◌, ◌<◌, ◌↔◌, Err, IfErr, IfOk, OnErr, OnOk};
ghost use Rattle.std.specs.Prelude.{Some, None, drop, length};
ghost use Rattle.macs_aes.specs.Keys.{octets_of_key};
ghost use Rattle.macs_fields.specs.Fields.{octets_of};
ghost use Rattle.macs_frame.specs.Protection.{overhead, protected_frame};
ghost use Rattle.macs_c.specs.Refusals.{seal_refusal, sealed_frame};
ghost use Rattle.macs_c.specs.declared.refusals.Refusal.TheVariants.{Room};

use crate::fields::{MacsTag, tag_from_c};
use crate::keys::{MacsKey, key_of};
use crate::refusals::Refusal;
use macs_aes::Key;
use macs_fields::{Offset, Sci};
use macs_frame::{FrameBuf, MAX_FRAME, MIN_FRAME, SecTag, seal_frame};
use macs_gcm::GcmKey;

/// Puts octets at the front of a buffer, if it is large enough. Returns how many there are.
pub(crate) fn put(octets: &[u8], out: &mut [u8]) -> Result<usize, Refusal>
    ensures refused { IfErr result (λ r. r ≡ Room) }
    ensures room { OnErr result (length out.old < length octets.now) }
    ensures enough { OnOk result (length octets.now ≤ length out.old) }
    ensures count { IfOk result (λ n. n ≡ length octets.now) }
    ensures put { OnOk result (out.new ≡ octets.now ++ drop (length octets.now) out.old) }
    ensures same { OnErr result (out.new ≡ out.old) }
{
    let count = octets.len();
    if out.len() < count {
        return Err(Refusal::Room);
    }
    out[..count].copy_from_slice(octets);
    Ok(count)
}

/// Puts the protected frame of a plain one at the front of a buffer.
fn seal_under(
    key: &Key,
    sci: Sci,
    tag: &SecTag,
    offset: Offset,
    plain: &[u8],
    out: &mut [u8],
) -> Result<usize, Refusal>
    requires long_enough { 14 ≤ length plain.now }
    requires fits { length plain.now + overhead tag.now.name ≤ 9216 }
    requires alike { tag.now.encrypted ≡ tag.now.changed }
    ensures refused { IfErr result (λ r. r ≡ Room) }
    ensures room { OnErr result (length out.old < length
        (protected_frame (octets_of_key key.now) sci tag.now (octets_of offset) plain.now)) }
    ensures enough { OnOk result (length (protected_frame (octets_of_key key.now) sci tag.now
        (octets_of offset) plain.now) ≤ length out.old) }
    ensures count { IfOk result (λ n. n ≡ length
        (protected_frame (octets_of_key key.now) sci tag.now (octets_of offset) plain.now)) }
    ensures put { OnOk result (out.new
        ≡ protected_frame (octets_of_key key.now) sci tag.now (octets_of offset) plain.now
        ++ drop (length (protected_frame (octets_of_key key.now) sci tag.now (octets_of offset)
        plain.now)) out.old) }
    ensures same { OnErr result (out.new ≡ out.old) }
{
    let mut frame = FrameBuf::new();
    seal_frame(&GcmKey::new(key), sci, tag, offset, plain, &mut frame);
    put(frame.as_slice(), out)
}

/// Seals a plain frame into a buffer, and returns the length of the protected frame in octets.
pub(crate) fn seal_into(
    key: &MacsKey,
    tag: &MacsTag,
    plain: &[u8],
    out: &mut [u8],
) -> Result<usize, Refusal>
    ensures refused { IfErr result
        (λ r. seal_refusal key.now tag.now plain.now (length out.old) ≡ Some r) }
    ensures allowed { OnOk result (seal_refusal key.now tag.now plain.now (length out.old) ≡ None) }
    ensures count { IfOk result (λ n. n ≡ length (sealed_frame key.now tag.now plain.now)) }
    ensures sealed { OnOk result (out.new
        ≡ sealed_frame key.now tag.now plain.now
        ++ drop (length (sealed_frame key.now tag.now plain.now)) out.old) }
    ensures same { OnErr result (out.new ≡ out.old) }
{
    let Some(octets) = key_of(key) else {
        return Err(Refusal::Key);
    };
    let Some((written, offset)) = tag_from_c(tag) else {
        return Err(Refusal::Field);
    };
    if plain.len() < MIN_FRAME {
        return Err(Refusal::Runt);
    }
    if MAX_FRAME - written.name.overhead() < plain.len() {
        return Err(Refusal::Oversize);
    }
    seal_under(&octets, Sci(tag.sci.octets), &written, offset, plain, out)
}
