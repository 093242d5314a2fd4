//! The input of `open`, four lines of text.

ghost use Rattle.std.specs.Prelude.{◌≡◌, ◌≤◌, ◌↔◌, List, ℕ, length, IfOk, MatchOption};
ghost use Rattle.macs_aes.specs.Keys.{octets_of_key};
ghost use Rattle.macs_fields.specs.First.{IsFirst};
ghost use Rattle.macs_cli.specs.OpenInput.{InputFaultHolds, Spells, input_faults};
ghost use Rattle.macs_cli.specs.OpenInput.{SpellsKey, SpellsOctets, SpellsOffset, SpellsSci};

use crate::four_lines::four_lines;
use arrayvec::ArrayVec;
use macs_aes::Key;
use macs_commands::secrets;
use macs_frame::{Offset, Sci};

/// The longest input, in octets.
pub const MAX_INPUT: usize = 20_000;

/// The most octets that an input can spell.
const MAX_SPELLED: usize = 10_000;

/// The octets of a frame as they were spelled, of any length that an input can have.
pub type SpelledFrame = ArrayVec<u8, MAX_SPELLED>;

/// A protected frame, and what it is to be opened with. It holds a key, so it is not `Debug`.
#[derive(Drop)]
pub struct OpenInput {
    /// The key that the frame should be sealed with, of 128 or 256 bits.
    pub key: Key,
    /// The SCI of the channel that the frame should belong to.
    pub sci: Sci,
    /// How much of the User Data is in the clear if the frame is encrypted.
    pub offset: Offset,
    /// The frame, from its addresses to its ICV.
    pub frame: SpelledFrame,
}

/// Why an input is not a request, in the order in which the faults are checked.
#[derive(Clone, Copy)]
pub enum InputFault {
    /// It has more than 20,000 octets, or is not four lines.
    Input,
    /// The first line is neither 32 hex digits nor 64.
    Key,
    /// The second line is not 16 hex digits.
    Sci,
    /// The third line is not `0`, `30` or `50`.
    Offset,
    /// The fourth line is not an even number of hex digits.
    Frame,
}

impl InputFault {
    ghost use Rattle.std.specs.Prelude.{◌≡◌};
    ghost use Rattle.macs_cli.specs.Failing.{input_fault_text};

    /// The program's message.
    pub fn text(self) -> &'static str
        ensures { result.now ≡ input_fault_text self }
    {
        match self {
            InputFault::Input => "input",
            InputFault::Key => "key",
            InputFault::Sci => "sci",
            InputFault::Offset => "offset",
            InputFault::Frame => "frame",
        }
    }
}

/// The key that a line spells.
fn key_of(line: &[u8]) -> Option<Key>
    ensures { MatchOption result ((key : List ℕ) → ¬ SpellsKey line.now key)
        (λ key. SpellsKey line.now (octets_of_key key)) }
{
    secrets::key_of(line)
}

/// The SCI that a line spells.
pub fn sci_of(line: &[u8]) -> Option<Sci>
    ensures { MatchOption result ((sci : List ℕ) → ¬ SpellsSci line.now sci) (SpellsSci line.now) }
{
    secrets::sci_of(line)
}

/// The confidentiality offset that a line spells.
fn offset_of(line: &[u8]) -> Option<Offset>
    ensures { MatchOption result ((offset : Offset) → ¬ SpellsOffset line.now offset)
        (SpellsOffset line.now) }
{
    match line {
        b"0" => Some(Offset::Zero),
        b"30" => Some(Offset::Thirty),
        b"50" => Some(Offset::Fifty),
        _ => None,
    }
}

/// The frame that a line spells.
fn frame_of(line: &[u8]) -> Option<SpelledFrame>
    requires { length line.now ≤ MAX_INPUT }
    ensures { MatchOption result ((frame : List ℕ) → ¬ SpellsOctets line.now frame)
        (λ frame. SpellsOctets line.now frame.items) }
{
    let mut room = [0; MAX_SPELLED];
    let octets = &mut room[..line.len() / 2];
    hex::decode_to_slice(line, octets).ok()?;
    let mut frame = ArrayVec::new();
    frame.try_extend_from_slice(octets).unwrap();
    Some(frame)
}

/// The request in an input, or the first fault. Hex digits are of either case.
pub fn request_of(input: &[u8]) -> Result<OpenInput, InputFault>
    ensures spelled { IfOk result (Spells input.now) }
    ensures fault { (fault : InputFault)
        → (result ≡ Err fault) ↔ IsFirst (InputFaultHolds input.now) input_faults fault }
{
    if input.len() > MAX_INPUT {
        return Err(InputFault::Input);
    }
    let Some(lines) = four_lines(input) else {
        return Err(InputFault::Input);
    };
    let Some(key) = key_of(lines.first) else {
        return Err(InputFault::Key);
    };
    let Some(sci) = sci_of(lines.second) else {
        return Err(InputFault::Sci);
    };
    let Some(offset) = offset_of(lines.third) else {
        return Err(InputFault::Offset);
    };
    let Some(frame) = frame_of(lines.fourth) else {
        return Err(InputFault::Frame);
    };
    Ok(OpenInput {
        key,
        sci,
        offset,
        frame,
    })
}
