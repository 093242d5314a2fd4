//! The words of a line.

use crate::text::values::{Values, first_word};

/// The words of a line that are left.
#[derive(Clone, Copy)]
pub struct Words<'a> {
    rest: &'a str,
    /// What is left of the value of a name, in which there are commas between words.
    value: &'a str,
    values: Values<'a>,
}

impl<'a> Words<'a> {
    /// All words of a line.
    pub fn new(line: &'a str, values: Values<'a>) -> Words<'a> {
        Words {
            rest: line,
            value: "",
            values,
        }
    }

    /// The next word as it is; an empty one after the last. A name that stands for several
    /// words gives these.
    fn raw(&mut self) -> &'a str {
        if self.value.is_empty() {
            let (word, rest) = first_word(self.rest);
            self.rest = rest;
            let value = self.values.text_of(word);
            if !word.starts_with('$') || !value.contains(',') {
                return word;
            }
            self.value = value;
        }
        let (word, behind) = self.value.split_once(',').unwrap_or((self.value, ""));
        self.value = behind;
        word
    }

    /// The next word, with a name's value for the name; an empty one after the last.
    pub fn take(&mut self) -> &'a str {
        let word = self.raw();
        self.values.text_of(word)
    }

    /// All that is left.
    pub fn rest(&self) -> &'a str {
        self.rest.trim()
    }

    /// Whether no word is left.
    pub fn is_empty(&self) -> bool {
        self.value.is_empty() && self.rest().is_empty()
    }

    /// All that is left, which then is nothing.
    pub fn take_rest(&mut self) -> &'a str {
        let rest = self.rest();
        self.rest = "";
        rest
    }

    /// Another text, in which names stand for the same.
    pub fn over(&self, text: &'a str) -> Words<'a> {
        Words::new(text, self.values)
    }

    /// The next word as a number.
    pub fn number(&mut self) -> Option<u64> {
        let word = self.raw();
        self.values.number_of(word)
    }

    /// The next word as a number of 32 bits.
    pub fn short(&mut self) -> Option<u32> {
        u32::try_from(self.number()?).ok()
    }

    /// The next word as an octet.
    pub fn octet(&mut self) -> Option<u8> {
        u8::try_from(self.number()?).ok()
    }

    /// A length of at most 9,217 octets.
    pub fn length(&mut self) -> Option<usize> {
        let length = usize::try_from(self.number()?).ok()?;
        (length <= 9_217).then_some(length)
    }

    /// A number of 128 bits: hex digits, with zeros in front where they are fewer than 32; or the
    /// number of a turn.
    pub fn hex_or_turn(&mut self) -> Option<u128> {
        let word = self.raw();
        match hex_number(self.values.text_of(word)) {
            Some(number) => Some(number),
            None => Some(u128::from(self.values.number_of(word)?)),
        }
    }

    /// An octet of two hex digits.
    pub fn hex_octet(&mut self) -> Option<u8> {
        u8::try_from(hex_number(self.take())?).ok()
    }

    /// A number of 64 bits: hex digits, with zeros in front where they are fewer than 16.
    pub fn hex_number(&mut self) -> Option<u64> {
        u64::try_from(hex_number(self.take())?).ok()
    }
}

/// The value of a hex digit.
fn digit_of(digit: u8) -> Option<u8> {
    match digit {
        b'0'..=b'9' => Some(digit - b'0'),
        b'a'..=b'f' => Some(digit - b'a' + 10),
        _ => None,
    }
}

/// A number of 1 to 32 hex digits.
fn hex_number(word: &str) -> Option<u128> {
    let digits = word.as_bytes();
    if digits.is_empty() || digits.len() > 32 {
        return None;
    }
    let mut number = 0_u128;
    for digit in digits {
        number = number.wrapping_mul(16) | u128::from(digit_of(*digit)?);
    }
    Some(number)
}

/// Whether an answer has the expected words, where `*` stands for all that is left.
pub fn is_wanted(answer: &str, wanted: &str, values: Values<'_>) -> bool {
    let mut answer = Words::new(answer, values);
    let mut wanted = Words::new(wanted, values);
    for _ in 0..u64::MAX {
        let word = wanted.raw();
        if word == "*" {
            return true;
        }
        if word.is_empty() {
            return answer.is_empty();
        }
        if !is_next(&mut answer, word, values) {
            return false;
        }
    }
    false
}

/// Whether the next word of an answer is what is expected: this word, a sum, or what a name stands
/// for.
fn is_next(answer: &mut Words<'_>, wanted: &str, values: Values<'_>) -> bool {
    let given = answer.raw();
    if !wanted.contains('$') && !wanted.contains('+') {
        return given == wanted;
    }
    match values.number_of(wanted) {
        Some(number) => given.parse::<u64>().ok() == Some(number),
        None => given == values.text_of(wanted),
    }
}

/// What was read, where no word is left.
pub fn whole<T: Copy>(found: Option<T>, words: &Words<'_>) -> Option<T> {
    if words.is_empty() { found } else { None }
}
