//! Text that may be sent to a terminal: without control characters.

ghost use Rattle.std.specs.Prelude.{◌≡◌, map, IfOk, string_bytes};
ghost use Rattle.std.specs.Str.{chars};
ghost use Rattle.macs_cli.specs.Controls.{IsPrintable, printable_char};

use std::alloc::{AllocError, Global};

/// The character, or `?` for a control character: one below U+0020, or from U+007F to U+009F.
fn printable_char(character: char) -> char
    ensures { result ≡ printable_char character }
{
    if character.is_control() {
        '?'
    } else {
        character
    }
}

/// The text with `?` for each control character. Fails only if memory runs out.
pub fn printable(alloc: Global, text: &str) -> Result<String, AllocError>
    // Each character is kept or replaced.
    ensures each { IfOk result
        (λ shown. chars (string_bytes shown) ≡ map printable_char (chars text.now)) }
    // No control character is left.
    ensures printable { IfOk result (λ shown. IsPrintable (string_bytes shown)) }
{
    text.chars()
        .map(|character| printable_char(character))
        .collect(alloc)
}
