//! What is answered to an act.

use std::alloc::Global;
use std::fmt::Debug;

/// The words of an answer.
#[derive(Drop)]
pub struct Answer {
    text: String,
    /// There was no memory for a word.
    is_cut: bool,
}

impl Answer {
    /// No word yet.
    pub fn new(alloc: Global) -> Answer {
        Answer {
            text: String::new(alloc),
            is_cut: false,
        }
    }

    /// Takes all words away.
    pub fn clear(&mut self) {
        self.text.clear();
    }

    /// The words, with a space between each two.
    pub fn text(&self) -> &str {
        self.text.as_str()
    }

    /// Whether there is no word.
    pub fn is_empty(&self) -> bool {
        self.text.is_empty()
    }

    /// Whether there was no memory for a word.
    pub fn is_cut(&self) -> bool {
        self.is_cut
    }

    fn push(&mut self, text: &str) {
        if self.text.push_str(text).is_err() {
            self.is_cut = true;
        }
    }

    /// A space, unless this is the first word.
    fn begin(&mut self) {
        if !self.text.is_empty() {
            self.push(" ");
        }
    }

    /// A word, or several.
    pub fn word(&mut self, word: &str) {
        self.begin();
        self.push(word);
    }

    /// A number, decimal.
    pub fn number(&mut self, number: u64) {
        self.begin();
        if write!(self.text, "{number}").is_err() {
            self.is_cut = true;
        }
    }

    /// A value as its type prints it.
    pub fn name<T: Debug>(&mut self, value: &T) {
        self.begin();
        if write!(self.text, "{value:?}").is_err() {
            self.is_cut = true;
        }
    }

    fn octet(&mut self, octet: u8) {
        if write!(self.text, "{octet:02x}").is_err() {
            self.is_cut = true;
        }
    }

    /// Octets in hex; `-` where there is none.
    pub fn octets(&mut self, octets: &[u8]) {
        self.begin();
        if octets.is_empty() {
            self.push("-");
        }
        for octet in octets {
            self.octet(*octet);
        }
    }

    /// `ok`, or the fault.
    pub fn done<T: Debug + Drop>(&mut self, told: Result<(), T>) {
        match told {
            Ok(()) => self.word("ok"),
            Err(fault) => self.name(&fault),
        }
    }

    /// `yes` or `no`.
    pub fn is(&mut self, is: bool) {
        self.word(if is { "yes" } else { "no" });
    }

    /// `ok` where something could be done, else `no`.
    pub fn could(&mut self, could: bool) {
        self.word(if could { "ok" } else { "no" });
    }
}
