//! The places of a kind of line, and the words that fit there.

ghost use Rattle.std.specs.Prelude.{◌≡◌, ◌↔◌, option_map};
ghost use Rattle.json.specs.Tree.{HasNumbers};
ghost use Rattle.json.specs.Value.{value_view};
ghost use Rattle.macs_cli.specs.Parts.{fits, name_of, part, typed, value_of, view_of};

use json::{Value, is_number};

/// The content of a place of a kind of line.
#[derive(Clone, Copy)]
pub enum Part<'a> {
    /// This exact word.
    Word(&'a str),
    /// Any word, with this name.
    Text(&'a str),
    /// A number, with this name.
    Number(&'a str),
    /// `on` or `off`, with this name.
    Switch(&'a str),
}

/// A name with a type; with no type it is a literal word.
fn typed<'a>(own: &'a str, name: &'a str, kind: &str) -> Part<'a>
    ensures { view_of result ≡ typed own.entry.now name.entry.now kind.now }
{
    match kind {
        "text" => Part::Text(name),
        "number" => Part::Number(name),
        "switch" => Part::Switch(name),
        _ => Part::Word(own),
    }
}

/// The place described by a word of a kind.
pub fn part_of(own: &str) -> Part<'_>
    ensures { view_of result ≡ part own.now }
{
    match own.split_once(':') {
        Some((name, kind)) => typed(own, name, kind),
        None => Part::Word(own),
    }
}

impl<'a> Part<'a> {
    /// The name of the member for a word there, if it is one.
    pub fn name(self) -> Option<&'a str>
        ensures { option_map (λ name. name.now) result ≡ name_of (view_of self.entry) }
    {
        match self {
            Part::Word(_) => None,
            Part::Text(name) | Part::Number(name) | Part::Switch(name) => Some(name),
        }
    }

    /// Whether a word fits.
    pub fn takes(self, word: &str) -> bool
        ensures { result ≡ fits (view_of self.entry) word.now }
    {
        match self {
            Part::Word(own) => word == own,
            Part::Text(_) => true,
            Part::Number(_) => word == "none" || is_number(word),
            Part::Switch(_) => word == "none" || word == "on" || word == "off",
        }
    }

    /// The value of a word in this place.
    pub fn value<'w>(self, word: &'w str) -> Value<'w>
        ensures value { value_view result ≡ value_of (view_of self.entry) word.entry.now }
        ensures writable { HasNumbers (value_view result) }
    {
        if word == "none" {
            return Value::Null;
        }
        match self {
            Part::Number(_) if is_number(word) => Value::Number(word),
            Part::Switch(_) => Value::Bool(word == "on"),
            _ => Value::String(word),
        }
    }
}
