//! Lines as texts of their own.

ghost use Rattle.std.specs.Prelude.{◌≡◌, ◌++◌, ℕ, List, IfOk, string_bytes};
ghost use Rattle.macs_texts.specs.Lines.{line};
ghost use Rattle.macs_texts.specs.Programs.{word_line};

use std::alloc::{AllocError, Global};

/// A text with its line feed.
pub fn ended(mut text: String) -> Result<String, AllocError>
    ensures { IfOk result (λ ended. string_bytes ended ≡ line (string_bytes text)) }
{
    text.push('\n')?;
    Ok(text)
}

/// The concatenation of two texts, unless one of them failed.
pub fn joined(
    text: Result<String, AllocError>,
    more: Result<String, AllocError>,
) -> Result<String, AllocError>
    ensures { (front back : List ℕ) → IfOk text (λ first. string_bytes first ≡ front)
        → IfOk more (λ second. string_bytes second ≡ back)
        → IfOk result (λ whole. string_bytes whole ≡ front ++ back) }
{
    let mut text = text?;
    text.push_str(more?.as_str())?;
    Ok(text)
}

/// The line of a word: its name and value.
pub fn word_line(alloc: Global, name: &str, word: &str) -> Result<String, AllocError>
    ensures { IfOk result (λ text. string_bytes text ≡ word_line name.now word.now) }
{
    ended(format!(in alloc; "{name} {word}")?)
}
