//! What protecting and opening a frame share (IEEE Std 802.1AE-2018, 14.5).

ghost use Rattle.std.specs.Prelude.{◌≡◌, ◌≤◌, ◌+◌, ◌++◌, List, ℕ, length, slice_range};
ghost use Rattle.arrayvec.specs.ArrayVec.{array_vec_len};
ghost use Rattle.macs_fields.specs.Fields.{octets_of};
ghost use Rattle.macs_frame.specs.Opening.{clear_of, hidden_of, iv_of};

use crate::tag::{FrameBuf, SecTag};
use macs_fields::{Offset, Pn, Sci};

/// The initialisation vector of a frame (14.5 and 14.6).
pub(crate) fn iv_of(sci: Sci, number: Pn) -> [u8; 12]
    ensures { result ≡ iv_of sci number }
{
    let [a, b, c, d, e, f, g, h] = sci.get();
    let [i, j, k, l] = number.get().to_be_bytes();
    [a, b, c, d, e, f, g, h, i, j, k, l]
}

/// Of the octets from `start` to before `end` after a SecTAG, where those in the clear end; the
/// others are encrypted (14.5 and 14.6).
pub(crate) fn clear_end(tag: &SecTag, offset: Offset, start: usize, end: usize) -> usize
    requires { start ≤ end }
    ensures low { start ≤ result }
    ensures high { result ≤ end }
    ensures clear { (octets : List ℕ) → slice_range octets start result
        ≡ clear_of tag.now.encrypted (octets_of offset) (slice_range octets start end) }
    ensures hidden { (octets : List ℕ) → slice_range octets result end
        ≡ hidden_of tag.now.encrypted (octets_of offset) (slice_range octets start end) }
{
    if tag.encrypted {
        start + (end - start).min(offset.get() as usize)
    } else {
        end
    }
}

/// Appends octets to a frame that has room for them: at most 9,216 octets.
pub fn append(out: &mut FrameBuf, octets: &[u8])
    requires { array_vec_len out.old + length octets.now ≤ 9216 }
    ensures { out.new.items ≡ out.old.items ++ octets.now }
{
    out.try_extend_from_slice(octets).unwrap();
}
