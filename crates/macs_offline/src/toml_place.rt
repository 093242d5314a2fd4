//! Where a text stops being TOML.

ghost use Rattle.std.specs.Prelude.{◌≡◌, ◌⊎◌, ◌↔◌, ◌<◌, ◌^◌, ◌+◌, length, IfOk, IfSome};
ghost use Rattle.std.specs.Prelude.{IsNone, string_bytes};
ghost use Rattle.toml.specs.Errors.{IsMemory, IsWithin};
ghost use Rattle.macs_cli.specs.Reasons.{Complains};
ghost use Rattle.macs_offline.specs.TomlPlaces.{not_toml_text, place_after, place_in, place_step};

use macs_cli::{Failure, failure_saying};
use std::alloc::{AllocError, Global};

/// A place in a text. Both numbers count from 1, columns in characters.
#[derive(Clone, Copy, Debug, PartialEq, Eq)]
pub struct TextPlace {
    pub line: usize,
    pub column: usize,
}

/// The place after one more octet of UTF-8 text: only the first octet of a character counts.
fn step(place: TextPlace, octet: u8) -> TextPlace
    requires { (place.line + 1 < 2 ^ 64) × (place.column + 1 < 2 ^ 64) }
    ensures { result ≡ place_step place octet }
{
    if octet == b'\n' {
        TextPlace {
            line: place.line + 1,
            column: 1,
        }
    } else if octet / 64 == 2 {
        place
    } else {
        TextPlace {
            line: place.line,
            column: place.column + 1,
        }
    }
}

/// The place after these octets of a text.
fn place_after(front: &[u8]) -> TextPlace
    requires { length front.now < 2 ^ 63 }
    ensures { result ≡ place_after front.now }
{
    let mut place = TextPlace { line: 1, column: 1 };
    for i in 0..front.len() {
        place = step(place, front[i]);
    }
    place
}

/// The place where an error in a text starts, or `None` if memory ran out.
pub fn place_of(text: &str, error: &toml::de::Error) -> Option<TextPlace>
    requires { IsWithin text.now error.now }
    ensures memory { IsNone result ↔ IsMemory error.now }
    ensures place { IfSome result (λ place. place ≡ place_in text.now error.now) }
{
    match error.span() {
        Some(span) => Some(place_after(&text.as_bytes()[..span.start])),
        None => None,
    }
}

/// The message about a file that stops being TOML at this place.
pub fn not_toml_text(alloc: Global, file: &str, place: TextPlace) -> Result<String, AllocError>
    ensures { IfOk result (λ text. string_bytes text ≡ not_toml_text file.now place) }
{
    let line = place.line;
    let column = place.column;
    format!(in alloc; "{file}: line {line} column {column}: not TOML")
}

/// The failure for an error in the text of a file: a message with the place where it starts, or
/// `Memory`.
pub fn failure_of_toml(alloc: Global, file: &str, text: &str, error: &toml::de::Error) -> Failure
    requires { IsWithin text.now error.now }
    ensures { (result ≡ Failure.Memory)
        ⊎ ((¬ IsMemory error.now) × Complains
        (λ said. said ≡ not_toml_text file.now (place_in text.now error.now)) result) }
{
    match place_of(text, error) {
        Some(place) => failure_saying(not_toml_text(alloc, file, place)),
        None => Failure::Memory,
    }
}
