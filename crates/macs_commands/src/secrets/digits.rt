//! Hexadecimal digits of either case. No branch and no address depends on a digit's value: a text
//! is checked once, as a whole, for anything that is not a digit.

ghost use Rattle.std.specs.Prelude.{◌≡◌, ◌≤◌, ◌<◌, ◌*◌, ◌==◌, ◌&&◌, ℕ, IfOk, Ok, Some};
ghost use Rattle.std.specs.Prelude.{if◌then◌else◌, length, nat_le, slice_index, string_bytes, true};
ghost use Rattle.std.specs.List.{list_all};
ghost use Rattle.hex.specs.Hex.{encode_lower, hex_digit_value, is_hex_digit, lower_digits};
ghost use Rattle.hex.specs.Hex.{pair_value};
ghost use Rattle.macs_commands.specs.Digits.{key_of, octets_of};

use macs_aes::Key;
use macs_fields::Sci;
use std::alloc::{AllocError, Global};

/// 1 if an octet is at least `least`, else 0.
fn at_least(octet: u8, least: u8) -> u8
    ensures { result ≡ (if nat_le least octet then 1 else 0) }
{
    ((256 + u16::from(octet) - u16::from(least)) >> 8) as u8
}

/// 1 if an octet is from `first` to `last`, else 0.
fn within(octet: u8, first: u8, last: u8) -> u8
    requires { first ≤ last }
    ensures { result ≡ (if nat_le first octet && nat_le octet last then 1 else 0) }
{
    at_least(octet, first) & at_least(last, octet)
}

/// 1 if an octet is a digit, else 0.
fn is_digit(octet: u8) -> u8
    ensures { result ≡ (if is_hex_digit octet then 1 else 0) }
{
    within(octet, b'0', b'9') + within(octet, b'A', b'F') + within(octet, b'a', b'f')
}

/// How many octets of a text are digits.
fn digits_in(text: &[u8]) -> usize
    ensures most { result ≤ length text.now }
    ensures all { (result == length text.now) ≡ list_all is_hex_digit text.now }
{
    let mut digits = 0;
    for i in 0..text.len() {
        digits += usize::from(is_digit(text[i]));
    }
    digits
}

/// The value of a digit.
fn value_of(digit: u8) -> u8
    requires { is_hex_digit digit ≡ true }
    ensures value { hex_digit_value digit ≡ Some result }
    ensures small { result < 16 }
{
    (digit & 0x0f) + 9 * (digit >> 6)
}

/// The octet of two digits.
fn octet_of(high: u8, low: u8) -> u8
    requires high { is_hex_digit high ≡ true }
    requires low { is_hex_digit low ≡ true }
    ensures { (i : ℕ) → pair_value high low i ≡ Ok result }
{
    value_of(high) * 16 + value_of(low)
}

/// The octets in a text of twice as many digits, `None` if it is no such text.
pub fn octets<const N: usize>(text: &[u8]) -> Option<[u8; N]>
    ensures { result ≡ octets_of N text.now }
{
    if text.len() % 2 != 0 {
        return None;
    }
    if text.len() / 2 != N {
        return None;
    }
    if digits_in(text) != text.len() {
        return None;
    }
    let mut octets = [0; N];
    for i in 0..N {
        octets[i] = octet_of(text[2 * i], text[2 * i + 1]);
    }
    Some(octets)
}

/// The key in a text of 32 or 64 digits, `None` if it is no such text.
pub fn key_of(text: &[u8]) -> Option<Key>
    ensures { result ≡ key_of text.now }
{
    match octets(text) {
        Some(short) => Some(Key::Short(short)),
        None => match octets(text) {
            Some(long) => Some(Key::Long(long)),
            None => None,
        },
    }
}

/// The SCI in a text of 16 digits, `None` if it is no such text.
pub fn sci_of(text: &[u8]) -> Option<Sci>
    ensures { result ≡ octets_of 8 text.now }
{
    Some(Sci(octets(text)?))
}

/// The lower-case digit of a value.
fn digit_of(value: u8) -> u8
    requires { value < 16 }
    ensures { result ≡ slice_index lower_digits value }
{
    b'0' + value + 39 * at_least(value, 10)
}

/// Writes the lower-case digits of octets.
pub fn write_digits(octets: &[u8], digits: &mut [u8])
    requires { length digits.old ≡ 2 * length octets.now }
    ensures { digits.new ≡ encode_lower octets.now }
{
    for i in 0..octets.len() {
        let octet = octets[i];
        digits[2 * i] = digit_of(octet >> 4);
        digits[2 * i + 1] = digit_of(octet & 0x0f);
    }
}

/// The lower-case digits of octets. Fails if memory is refused.
pub fn digits_of(alloc: Global, octets: &[u8]) -> Result<String, AllocError>
    ensures { IfOk result (λ text. string_bytes text ≡ encode_lower octets.now) }
{
    let mut digits = vec![in alloc; 0; 2 * octets.len()]?;
    write_digits(octets, digits.as_mut_slice());
    Ok(unsafe { String::from_utf8_unchecked(digits) })
}
