//! The fields of a command, each read from its text. An invalid text is read as some value: whoever
//! reads a line compares it with the text written for that value.

ghost use Rattle.std.specs.Prelude.{◌≡◌, ◌<◌, ◌^◌, ℕ, List};
ghost use Rattle.std.specs.Fmt.{decimal};
ghost use Rattle.hex.specs.Hex.{encode_lower};
ghost use Rattle.macs_aes.specs.Keys.{HasItsLength, octets_of_key};
ghost use Rattle.macs_aes.specs.declared.keys.Key.{Key as AnyKey};
ghost use Rattle.macs_config.specs.Apply.{IsKey};
ghost use Rattle.macs_fields.specs.Fields.{IsAn, IsSci};
ghost use Rattle.macs_commands.specs.CommandLines.{key_digits};

use crate::secrets::{key_of, sci_of};
use macs_aes::Key;
use macs_fields::{An, Sci};

/// The 32-bit number in a text.
pub(crate) fn number(text: &str) -> u32
    ensures { (n : ℕ) → n < 2 ^ 32 → text.now ≡ decimal n → result ≡ n }
{
    text.parse::<u32>().unwrap_or(0)
}

/// The 8-bit number in a text.
pub(crate) fn octet(text: &str) -> u8
    ensures { (n : ℕ) → n < 2 ^ 8 → text.now ≡ decimal n → result ≡ n }
{
    text.parse::<u8>().unwrap_or(0)
}

/// The association number in a text.
pub(crate) fn an(text: &str) -> An
    ensures { (n : ℕ) → IsAn n → text.now ≡ decimal n → result ≡ n }
{
    let all = An::all();
    match An::new(octet(text)) {
        Some(an) => an,
        None => all[0],
    }
}

/// The SCI in a text.
pub(crate) fn sci(text: &str) -> Sci
    ensures { (sci : List ℕ) → IsSci sci → text.now ≡ encode_lower sci → result ≡ sci }
{
    match sci_of(text.as_bytes()) {
        Some(sci) => sci,
        None => Sci([0; 8]),
    }
}

/// The key in a text.
pub(crate) fn key(text: &str) -> Key
    ensures { (key : AnyKey) → IsKey (octets_of_key key) → HasItsLength key
        → text.now ≡ key_digits key → result ≡ key }
{
    match key_of(text.as_bytes()) {
        Some(key) => key,
        None => Key::Short([0; 16]),
    }
}
