//! The calls of `include/macsec.h`.

ghost use Rattle.std.specs.Prelude.{◌≡◌, ◌≢◌, ◌++◌, Option, Some, None, drop, length, true, false};
ghost use Rattle.macs_c.specs.Keys.{IsKeyLength, is_key, key_octets};
ghost use Rattle.macs_c.specs.Reading.{ReadAnswer};
ghost use Rattle.macs_c.specs.Refusals.{OpenAnswer, code_of, seal_refusal, sealed_frame};
ghost use Rattle.macs_c.specs.declared.refusals.Refusal.{Refusal};

use crate::fields::{MacsOpened, MacsSci, MacsTag};
use crate::keys::{MacsKey, keep};
use crate::opening::open_into;
use crate::reading::read_for_c;
use crate::refusals::{Refusal, code_of};
use crate::sealing::seal_into;

/// Stores a key of 16 or 32 octets, and leaves the other octets of `key` as they were. Returns 0,
/// or 1 for any other length: then `key` is unchanged.
#[unsafe(no_mangle)]
pub extern "C" fn macs_key_new(octets: &[u8], key: &mut MacsKey) -> u32
    ensures kept { result ≡ 0 → IsKeyLength (length octets.now) × (is_key key.new ≡ true)
        × (key_octets key.new ≡ octets.now) }
    ensures rest { drop (length octets.now) key.new.octets
        ≡ drop (length octets.now) key.old.octets }
    ensures refused { result ≢ 0
        → (result ≡ 1) × (¬ IsKeyLength (length octets.now)) × (key.new ≡ key.old) }
{
    if keep(octets, key) { 0 } else { 1 }
}

/// Reads the SecTAG of a protected frame (9.3 to 9.9), so that its key can be looked up. Stores in
/// `tag` its AN, its PN, whether User Data are encrypted, how it names its channel, and the SCI
/// that it names: zeros if it names none. `offset` is 0, since a SecTAG does not carry it. Returns
/// 0, or the code of the first fault of the frame, 3, 4 or 6 to 8: then `tag` is unchanged.
#[unsafe(no_mangle)]
pub extern "C" fn macs_read_tag(frame: &[u8], tag: &mut MacsTag) -> u32
    ensures { (answer : Option Refusal) × (result ≡ code_of answer)
        × ReadAnswer frame.now tag.old tag.new answer }
{
    match read_for_c(frame) {
        Ok(found) => {
            *tag = found;
            code_of(None)
        }
        Err(refusal) => code_of(Some(refusal)),
    }
}

/// Protects a plain frame (10.5) into `out`, and stores its length in octets in `written`. Returns
/// 0, or the code of the first refusal that applies, 1 to 5: then `out` and `written` are
/// unchanged.
#[unsafe(no_mangle)]
pub extern "C" fn macs_seal_frame(
    key: &MacsKey,
    tag: &MacsTag,
    plain: &[u8],
    out: &mut [u8],
    written: &mut usize,
) -> u32
    ensures code { result ≡ code_of (seal_refusal key.now tag.now plain.now (length out.old)) }
    ensures sealed { seal_refusal key.now tag.now plain.now (length out.old) ≡ None
        → (out.new ≡ sealed_frame key.now tag.now plain.now
        ++ drop (length (sealed_frame key.now tag.now plain.now)) out.old)
        × (written.new ≡ length (sealed_frame key.now tag.now plain.now)) }
    ensures same { (refusal : Refusal)
        → seal_refusal key.now tag.now plain.now (length out.old) ≡ Some refusal
        → (out.new ≡ out.old) × (written.new ≡ written.old) }
{
    match seal_into(key, tag, plain, out) {
        Ok(octets) => {
            *written = octets;
            code_of(None)
        }
        Err(refusal) => code_of(Some(refusal)),
    }
}

/// Opens a protected frame (10.6) into `out`, and stores in `opened` the contents of its SecTAG and
/// the length of the plain frame in octets. Returns 0, or the code of the first refusal that
/// applies, 1 to 4 or 6 to 10, or else 5, if `out` is too small: then `out` and `opened` are
/// unchanged.
#[unsafe(no_mangle)]
pub extern "C" fn macs_open_frame(
    key: &MacsKey,
    sci: &MacsSci,
    offset: u8,
    frame: &[u8],
    out: &mut [u8],
    opened: &mut MacsOpened,
) -> u32
    ensures { (answer : Option Refusal) × (result ≡ code_of answer)
        × OpenAnswer key.now sci.now.octets frame.now offset out.old out.new opened.old
        opened.new answer }
{
    match open_into(key, sci, offset, frame, out) {
        Ok(found) => {
            *opened = found;
            code_of(None)
        }
        Err(refusal) => code_of(Some(refusal)),
    }
}
