//! A pending signal that is blocked.

ghost use Rattle.std.specs.Prelude.{◌≡◌, ◌↔◌, IsTrue, IfSome, List, None, ℕ};
ghost use Rattle.macs_control.specs.Signals.{HasDigits, IsTermPending, IsTermSet};

use std::alloc::Global;
use std::fs;
use std::rt::Files;

/// What Linux reports about this process (proc(5)).
const STATUS: &str = "/proc/self/status";

/// The text before the signals pending for the process as a whole, in 16 hex digits.
const MARK: &str = "ShdPnd:\t";

/// The bit of SIGTERM (15) in that set.
const TERM: u64 = 16_384;

/// The digits after the first mark, up to the end of the line.
fn digits_in(status: &str) -> Option<&str>
    ensures digits { IfSome result (λ digits. HasDigits status.now digits.now) }
    ensures none { result ≡ None → (digits : List ℕ) → ¬ HasDigits status.now digits }
{
    let Some((_, behind)) = status.split_once(MARK) else {
        return None;
    };
    let Some((digits, _)) = behind.split_once('\n') else {
        return None;
    };
    Some(digits)
}

/// Whether SIGTERM is in the set of signals given by hex digits. False if they give no 64-bit set.
fn is_term_in(digits: &str) -> bool
    ensures { IsTrue result ↔ IsTermSet digits.now }
{
    match u64::from_str_radix(digits, 16) {
        Ok(signals) => signals / TERM % 2 == 1,
        Err(_) => false,
    }
}

/// Whether a text like that of `/proc/self/status` says that SIGTERM is pending: it was sent to the
/// process, which was started with that signal blocked.
pub fn is_term_pending(status: &str) -> bool
    ensures { IsTrue result ↔ IsTermPending status.now }
{
    match digits_in(status) {
        Some(digits) => is_term_in(digits),
        None => false,
    }
}

/// Whether SIGTERM was sent to this process and is blocked. False if that cannot be read.
pub(crate) fn is_told_to_end<T: Files>(rt: &T, alloc: Global) -> bool {
    match fs::read_to_string(&(rt, alloc), STATUS) {
        Ok(status) => is_term_pending(status.as_str()),
        Err(_) => false,
    }
}
