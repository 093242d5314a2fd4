//! The end of an answer.

ghost use Rattle.std.specs.Prelude.{◌≡◌, ◌<◌, ◌^◌, ℕ, Some, IfOk, IfSome, string_bytes};
ghost use Rattle.macs_commands.specs.Requests.{end_line};

use crate::requests::cutting::split_word;
use crate::requests::fields::octet;
use std::alloc::{AllocError, Global};

/// The last line of an answer, without its line feed: `end` and the exit status for the program
/// that asked. Fails only if memory runs out.
pub fn line_of_end(alloc: Global, status: u8) -> Result<String, AllocError>
    ensures { IfOk result (λ text. string_bytes text ≡ end_line status) }
{
    let text = format!(in alloc; "end {status}")?;
    Ok(text)
}

/// The exit status in a line that ends an answer, `None` if it does not. It reads what
/// `line_of_end` writes. Fails only if memory runs out.
pub fn end_of_line(alloc: Global, line: &str) -> Result<Option<u8>, AllocError>
    ensures read { (status : ℕ) → status < 2 ^ 8 → line.now ≡ end_line status
        → IfOk result (λ found. found ≡ Some status) }
    ensures only { IfOk result (λ found. IfSome found (λ status. line.now ≡ end_line status)) }
{
    let parts = split_word(line);
    let status = octet(parts.rest);
    let text = line_of_end(alloc, status)?;
    if text.as_str() == line {
        return Ok(Some(status));
    }
    Ok(None)
}
