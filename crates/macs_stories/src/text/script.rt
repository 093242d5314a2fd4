//! The acts of a story, one after the other.

use crate::text::blocks::{Place, Play, is_no_act, setup_of};
use crate::text::values::{Values, first_word};
use crate::text::words::Words;
use arrayvec::ArrayVec;

/// How deep setups may use setups.
const DEPTH: usize = 4;

/// An act, with the expected answer.
#[derive(Clone, Copy)]
pub struct Line<'a> {
    pub number: u64,
    pub act: &'a str,
    pub wanted: &'a str,
    /// The answer is to be another one.
    pub is_not: bool,
    pub values: Values<'a>,
    /// Where its text is, if it has one.
    pub behind: Place<'a>,
}

impl<'a> Line<'a> {
    /// The words of the act.
    pub fn words(self) -> Words<'a> {
        Words::new(self.act, self.values)
    }
}

/// How far a block is read.
#[derive(Clone, Copy, Default)]
struct Reading<'a> {
    place: Place<'a>,
    /// The line that is played: its number, its acts, and those that are left in this turn of it.
    number: u64,
    line: &'a str,
    acts: &'a str,
    turn: u64,
    last: u64,
    /// What `$` stands for outside of this line.
    outer: u64,
}

/// The acts of a story that are left.
#[derive(Drop)]
pub struct Script<'a> {
    text: &'a str,
    values: Values<'a>,
    reading: Reading<'a>,
    /// The blocks that use the one that is read.
    users: ArrayVec<Reading<'a>, DEPTH>,
}

/// A block of which nothing is read yet.
fn begun(place: Place<'_>, outer: u64) -> Reading<'_> {
    Reading {
        place,
        number: 0,
        line: "",
        acts: "",
        turn: 0,
        last: 0,
        outer,
    }
}

impl<'a> Script<'a> {
    /// A play of a story that is in this text.
    pub fn new(text: &'a str, body: Place<'a>, play: Play<'a>) -> Script<'a> {
        Script {
            text,
            values: play.values(),
            reading: begun(body, 0),
            users: ArrayVec::new(),
        }
    }

    /// The next act; `None` after the last. A setup that does not exist, or is used too deep, is
    /// an act.
    pub fn take(&mut self) -> Option<Line<'a>> {
        for _ in 0..u64::MAX {
            let line = self.take_line()?;
            let (word, name) = first_word(line.act);
            if word != "use" || !self.enter(name, line.values) {
                return Some(line);
            }
        }
        None
    }

    /// The next act, which may be the use of a setup.
    fn take_line(&mut self) -> Option<Line<'a>> {
        for _ in 0..u64::MAX {
            if !self.reading.acts.is_empty() {
                return Some(self.cut());
            }
            if !self.go_on() {
                return None;
            }
        }
        None
    }

    /// The next turn of a line, the next line, or the block that used this one. Whether there is
    /// one.
    fn go_on(&mut self) -> bool {
        if self.reading.turn < self.reading.last {
            self.reading.turn += 1;
            self.reading.acts = self.reading.line;
            return true;
        }
        if let Some((line, behind)) = self.reading.place.line_of_block() {
            self.read(line, behind);
            return true;
        }
        match self.users.pop() {
            Some(user) => {
                self.reading = user;
                true
            }
            None => false,
        }
    }

    /// Reads on in a setup. Whether this can be done.
    fn enter(&mut self, name: &str, values: Values<'a>) -> bool {
        let Some(place) = setup_of(self.text, name, values) else {
            return false;
        };
        if self.users.try_push(self.reading).is_err() {
            return false;
        }
        self.reading = begun(place, values.turn);
        true
    }

    fn values_at(&self, turn: u64) -> Values<'a> {
        Values {
            with: self.values.with,
            and: self.values.and,
            turn,
        }
    }

    /// The next act of the line.
    fn cut(&mut self) -> Line<'a> {
        let turn = self.reading.turn;
        let values = self.values_at(turn);
        let (act, rest) = parts(self.reading.acts, ';');
        self.reading.acts = rest;
        let (act, wanted) = parts(act, '=');
        let other = act.strip_prefix("not ");
        Line {
            number: self.reading.number,
            act: other.unwrap_or(act),
            is_not: other.is_some(),
            wanted: if wanted.is_empty() { "ok" } else { wanted },
            values,
            behind: self.reading.place,
        }
    }

    /// Reads a line.
    fn read(&mut self, line: &'a str, behind: Place<'a>) {
        self.reading.number = self.reading.place.number;
        self.reading.place = behind;
        let line = if is_no_act(line) { "" } else { line };
        self.reading.line = line;
        self.reading.acts = line;
        self.reading.turn = self.reading.outer;
        self.reading.last = self.reading.outer;
        self.repeat();
    }

    /// `each FIRST LAST` in front of a line has it done so often.
    fn repeat(&mut self) {
        let outer = self.reading.outer;
        let values = self.values_at(outer);
        let mut words = Words::new(self.reading.line, values);
        if words.take() != "each" {
            return;
        }
        if let (Some(first), Some(last)) = (words.number(), words.number()) {
            self.reading.line = words.rest();
            self.reading.turn = first;
            self.reading.last = last;
            self.reading.acts = if first > last { "" } else { self.reading.line };
        }
    }
}

/// What is before a mark, and after it.
fn parts(text: &str, mark: char) -> (&str, &str) {
    match text.split_once(mark) {
        Some((before, behind)) => (before.trim(), behind.trim_start()),
        None => (text.trim(), ""),
    }
}
