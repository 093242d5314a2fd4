//! Where an answer ends.

ghost use Rattle.std.specs.Prelude.{◌≡◌};
ghost use Rattle.macs_control.specs.Standings.{ends_answer};

/// How many octets the line that ends an answer has, with its line feed: its status has one digit.
const END_LENGTH: usize = 6;

/// Whether a text ends an answer: its last line is `end STATUS`.
pub(crate) fn ends_answer(text: &[u8]) -> bool
    ensures { result ≡ ends_answer text.now }
{
    let at = text.len().saturating_sub(END_LENGTH);
    text[at..].starts_with(b"end ")
}
