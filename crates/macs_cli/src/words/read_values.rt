//! The values among the words.

ghost use Rattle.std.specs.Prelude.{◌≡◌, ◌↔◌, ◌<◌, ◌^◌, ℕ, Option, IfSome, IsSome, IsTrue, codes};
ghost use Rattle.std.specs.Prelude.{option_map};
ghost use Rattle.clap.specs.Words.{first_of, found_of, rows_of};
ghost use Rattle.macs_cli.specs.Waits.{IsRoom, IsWaitLimit};
ghost use Rattle.macs_cli.specs.Words.{HasNumber, HasText, MayHaveNumber, MayHaveRoom};

use crate::words::pace::Milliseconds;
use clap::ArgMatches;

/// The text of a value.
pub fn text_in<'a>(values: &ArgMatches<'a>, name: &str) -> Option<&'a str>
    ensures { option_map (λ text. text.now) result
        ≡ first_of name.now (rows_of (found_of values.now)) }
{
    values.get_str(name)
}

/// The number in a value, in decimal digits.
pub fn number_in(values: &ArgMatches, name: &str) -> Option<u32>
    ensures read { IfSome result (HasNumber (rows_of (found_of values.now)) name.now) }
    ensures found { (number : ℕ) → HasNumber (rows_of (found_of values.now)) name.now number
        → number < 2 ^ 32 → IsSome result }
{
    text_in(values, name)?.parse().ok()
}

/// The 64-bit number in a value, in decimal digits.
pub fn count_in(values: &ArgMatches, name: &str) -> Option<u64>
    ensures read { IfSome result (HasNumber (rows_of (found_of values.now)) name.now) }
    ensures found { (number : ℕ) → HasNumber (rows_of (found_of values.now)) name.now number
        → number < 2 ^ 64 → IsSome result }
{
    text_in(values, name)?.parse().ok()
}

/// The 64-bit number in a value, in decimal digits, if it is given.
pub fn optional_count_in(values: &ArgMatches, name: &str) -> Option<Option<u64>>
    ensures read { IfSome result (MayHaveNumber (rows_of (found_of values.now)) name.now) }
    ensures found { (number : Option ℕ)
        → MayHaveNumber (rows_of (found_of values.now)) name.now number
        → IfSome number (λ n. n < 2 ^ 64) → IsSome result }
{
    match text_in(values, name) {
        None => Some(None),
        Some(_) => {
            let number = count_in(values, name)?;
            Some(Some(number))
        }
    }
}

/// The milliseconds in a value, 1 to 60,000, in decimal digits.
pub fn wait_in(values: &ArgMatches, name: &str) -> Option<Milliseconds>
    ensures read { IfSome result (λ limit.
        HasNumber (rows_of (found_of values.now)) name.now limit.0 × IsWaitLimit limit.0) }
    ensures found { (number : ℕ) → HasNumber (rows_of (found_of values.now)) name.now number
        → IsWaitLimit number → IsSome result }
{
    let milliseconds = text_in(values, name)?.parse().ok()?;
    if milliseconds == 0 || milliseconds > 60_000 {
        return None;
    }
    Some(Milliseconds(milliseconds))
}

/// The buffer size in a value, 1 to 1,073,741,823 octets, in decimal digits.
fn room_in(values: &ArgMatches, name: &str) -> Option<u32>
    ensures read { IfSome result
        (λ octets. HasNumber (rows_of (found_of values.now)) name.now octets × IsRoom octets) }
    ensures found { (number : ℕ) → HasNumber (rows_of (found_of values.now)) name.now number
        → IsRoom number → IsSome result }
{
    let octets = text_in(values, name)?.parse().ok()?;
    if octets == 0 || octets > 1_073_741_823 {
        return None;
    }
    Some(octets)
}

/// The same, if it is given.
pub fn optional_room_in(values: &ArgMatches, name: &str) -> Option<Option<u32>>
    ensures read { IfSome result (MayHaveRoom (rows_of (found_of values.now)) name.now) }
    ensures found { (room : Option ℕ) → MayHaveRoom (rows_of (found_of values.now)) name.now room
        → IsSome result }
{
    match text_in(values, name) {
        None => Some(None),
        Some(_) => {
            let octets = room_in(values, name)?;
            Some(Some(octets))
        }
    }
}

/// Whether an option without a value is among the words.
pub fn is_flagged(values: &ArgMatches, name: &str) -> bool
    ensures { IsTrue result ↔ HasText (rows_of (found_of values.now)) name.now (codes "true") }
{
    text_in(values, name) == Some("true")
}
