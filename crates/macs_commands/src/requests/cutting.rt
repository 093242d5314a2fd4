//! The words of a text, one after another.

ghost use Rattle.std.specs.Prelude.{◌≡◌};
ghost use Rattle.macs_commands.specs.CommandLines.{after_word, first_word};

/// A text, cut at its first blank.
#[derive(Clone, Copy)]
pub(crate) struct Parts<'a> {
    /// The text up to the blank, or all of it.
    pub word: &'a str,
    /// What follows the blank, or nothing.
    pub rest: &'a str,
}

/// Cuts a text at its first blank.
pub(crate) fn split_word(text: &str) -> Parts<'_>
    ensures { (result.word.now ≡ first_word text.now) × (result.rest.now ≡ after_word text.now) }
{
    match text.split_once(' ') {
        Some(halves) => Parts {
            word: halves.0,
            rest: halves.1,
        },
        None => Parts {
            word: text,
            rest: "",
        },
    }
}
