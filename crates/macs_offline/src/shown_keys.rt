//! A key of a file, as it is displayed.

ghost use Rattle.std.specs.Prelude.{◌≡◌, IfOk, length, string_bytes, take};
ghost use Rattle.std.specs.Str.{chars, encode_utf8_all};
ghost use Rattle.macs_offline.specs.ShownKeys.{more_mark, shown_key};

use macs_cli::printable;
use std::alloc::{AllocError, Global};

/// How many characters of a key are displayed.
const MOST: usize = 64;

/// The first 64 characters of a key, or all.
fn front_of(alloc: Global, key: &str) -> Result<String, AllocError>
    ensures { IfOk result
        (λ front. string_bytes front ≡ encode_utf8_all (take 64 (chars key.now))) }
{
    key.chars().take(MOST).collect(alloc)
}

/// How many characters a key has.
fn characters(key: &str) -> usize
    ensures { result ≡ length (chars key.now) }
{
    key.chars().count()
}

/// What comes after the first 64 characters of a key.
fn more_mark(key: &str) -> &'static str
    ensures { result.now ≡ more_mark key.now }
{
    if characters(key) > MOST { ".." } else { "" }
}

/// A key as it is displayed: its first 64 characters, with `?` for each control character, then
/// `..` if it has more.
pub fn shown_key(alloc: Global, key: &str) -> Result<String, AllocError>
    ensures { IfOk result (λ shown. string_bytes shown ≡ shown_key key.now) }
{
    let front = front_of(alloc, key)?;
    let shown = printable(alloc, front.as_str())?;
    let more = more_mark(key);
    format!(in alloc; "{shown}{more}")
}
