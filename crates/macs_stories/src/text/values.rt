//! What the names of a story stand for.

/// A line `with` or `and` of a story: words `NAME=VALUE`. A value `FIRST..LAST` is each of these
/// numbers in turn.
#[derive(Clone, Copy)]
pub struct Row<'a> {
    pub text: &'a str,
    /// How far its range has come.
    pub place: u64,
}

/// What the names of a story, and the word `$`, stand for.
#[derive(Clone, Copy)]
pub struct Values<'a> {
    pub with: Row<'a>,
    pub and: Row<'a>,
    /// What `$` stands for: the number of a line's turn.
    pub turn: u64,
}

/// The first word of a text, and what follows it.
pub fn first_word(text: &str) -> (&str, &str) {
    let text = text.trim_start();
    match text.split_once(' ') {
        Some((word, rest)) => (word, rest),
        None => (text, ""),
    }
}

/// The value of a name in a row.
fn value_in<'a>(row: &'a str, name: &str) -> Option<&'a str> {
    let mut rest = row;
    for _ in 0..u64::MAX {
        let (word, behind) = first_word(rest);
        if word.is_empty() {
            return None;
        }
        if let Some((key, value)) = word.split_once('=') {
            if key == name {
                return Some(value);
            }
        }
        rest = behind;
    }
    None
}

/// The first and the last number of a range.
fn range_of(value: &str) -> Option<(u64, u64)> {
    let (first, last) = value.split_once("..")?;
    Some((decimal(first)?, decimal(last)?))
}

fn decimal(text: &str) -> Option<u64> {
    text.parse::<u64>().ok()
}

impl<'a> Row<'a> {
    /// A row at the first number of its range.
    pub fn new(text: &'a str) -> Row<'a> {
        Row { text, place: 0 }
    }

    /// How often a story is played with this row: once, or once for each number of its first range.
    fn plays(self) -> u64 {
        let mut rest = self.text;
        for _ in 0..u64::MAX {
            let (word, behind) = first_word(rest);
            if word.is_empty() {
                return 1;
            }
            if let Some((_, value)) = word.split_once('=') {
                if let Some((first, last)) = range_of(value) {
                    return last.saturating_sub(first).saturating_add(1);
                }
            }
            rest = behind;
        }
        1
    }

    /// The row at the next place of its range.
    pub fn next(self) -> Option<Row<'a>> {
        let place = self.place.saturating_add(1);
        if place < self.plays() {
            Some(Row {
                text: self.text,
                place,
            })
        } else {
            None
        }
    }

    /// The number that a name stands for.
    fn number_of(self, name: &str) -> Option<u64> {
        let value = value_in(self.text, name)?;
        match range_of(value) {
            Some((first, _)) => first.checked_add(self.place),
            None => decimal(value),
        }
    }
}

impl<'a> Values<'a> {
    /// The number that a word says: `260`, `$`, `$calls`, `260+$calls`, `4*$`, `257+1+2*$calls`.
    pub fn number_of(self, word: &str) -> Option<u64> {
        let mut sum = 0_u64;
        let mut rest = word;
        for _ in 0..u64::MAX {
            let Some((first, behind)) = rest.split_once('+') else {
                return sum.checked_add(self.product(rest)?);
            };
            sum = sum.checked_add(self.product(first)?)?;
            rest = behind;
        }
        None
    }

    fn product(self, word: &str) -> Option<u64> {
        match word.split_once('*') {
            Some((first, second)) => self.factor(first)?.checked_mul(self.factor(second)?),
            None => self.factor(word),
        }
    }

    fn factor(self, word: &str) -> Option<u64> {
        if word == "$" {
            return Some(self.turn);
        }
        match word.strip_prefix('$') {
            Some(name) => self.named(name),
            None => decimal(word),
        }
    }

    fn named(self, name: &str) -> Option<u64> {
        match self.with.number_of(name) {
            Some(number) => Some(number),
            None => self.and.number_of(name),
        }
    }

    /// The text that a word stands for: that of its name, else itself.
    pub fn text_of(self, word: &'a str) -> &'a str {
        let Some(name) = word.strip_prefix('$') else {
            return word;
        };
        match value_in(self.with.text, name) {
            Some(value) => value,
            None => value_in(self.and.text, name).unwrap_or(word),
        }
    }
}
