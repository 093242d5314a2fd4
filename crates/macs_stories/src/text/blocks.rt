//! The stories and setups of a file, and the rows of a story.

use crate::text::values::{Row, Values, first_word};
use crate::text::words::is_wanted;
use std::alloc::Global;

/// Where a file is read: what is left of it, and the number of its next line, from 1 on.
#[derive(Clone, Copy, Default)]
pub struct Place<'a> {
    rest: &'a str,
    pub number: u64,
}

/// What a block of lines is.
#[derive(Clone, Copy, PartialEq, Eq)]
pub enum BlockKind {
    Story,
    /// Lines that stories use.
    Setup,
}

/// A story or a setup: its lines are below its head, up to the next head.
#[derive(Clone, Copy)]
pub struct Block<'a> {
    pub kind: BlockKind,
    pub name: &'a str,
    pub body: Place<'a>,
}

impl<'a> Place<'a> {
    /// The beginning of a text.
    pub fn new(text: &'a str) -> Place<'a> {
        Place {
            rest: text,
            number: 1,
        }
    }

    /// The next line without its comment, and the place after it.
    pub fn line(self) -> Option<(&'a str, Place<'a>)> {
        if self.rest.is_empty() {
            return None;
        }
        let (line, rest) = parts(self.rest, '\n');
        let (line, _) = parts(line, '#');
        let number = self.number.saturating_add(1);
        Some((line.trim(), Place { rest, number }))
    }

    /// The next line, where it begins with `|`: what is after that.
    fn text_line(self) -> Option<(&'a str, Place<'a>)> {
        let (line, rest) = parts(self.rest, '\n');
        let text = line.strip_prefix('|')?;
        let number = self.number.saturating_add(1);
        Some((
            text.strip_prefix(' ').unwrap_or(text),
            Place { rest, number },
        ))
    }

    /// The text of the lines from here on that begin with `|`; `None` where there is no memory.
    pub fn text(self, alloc: Global) -> Option<String> {
        let mut place = self;
        let mut text = String::new(alloc);
        for _ in 0..u64::MAX {
            let Some((line, behind)) = place.text_line() else {
                return Some(text);
            };
            text.push_str(line).ok()?;
            text.push('\n').ok()?;
            place = behind;
        }
        None
    }

    /// The next line of a block; `None` where it ends.
    pub fn line_of_block(self) -> Option<(&'a str, Place<'a>)> {
        let (line, behind) = self.line()?;
        match head_of(line) {
            Some(_) => None,
            None => Some((line, behind)),
        }
    }

    /// The next block.
    pub fn block(self) -> Option<Block<'a>> {
        let mut place = self;
        for _ in 0..u64::MAX {
            let (line, body) = place.line()?;
            if let Some((kind, name)) = head_of(line) {
                return Some(Block { kind, name, body });
            }
            place = body;
        }
        None
    }

    /// The first line in front of a block that is not empty, and its number.
    pub fn stray(self) -> Option<(&'a str, u64)> {
        let mut place = self;
        for _ in 0..u64::MAX {
            let (line, behind) = place.line_of_block()?;
            if !line.is_empty() {
                return Some((line, place.number));
            }
            place = behind;
        }
        None
    }
}

/// What is before a mark, and after it.
fn parts(text: &str, mark: char) -> (&str, &str) {
    match text.split_once(mark) {
        Some((before, behind)) => (before, behind),
        None => (text, ""),
    }
}

/// What a line begins, and its name.
fn head_of(line: &str) -> Option<(BlockKind, &str)> {
    let (word, name) = first_word(line);
    match word {
        "story" => Some((BlockKind::Story, name.trim())),
        "setup" => Some((BlockKind::Setup, name.trim())),
        _ => None,
    }
}

/// The setup of this name, in which names stand for what they do in its story.
pub fn setup_of<'a>(text: &'a str, name: &str, values: Values<'_>) -> Option<Place<'a>> {
    let mut place = Place::new(text);
    for _ in 0..u64::MAX {
        let block = place.block()?;
        if block.kind == BlockKind::Setup && is_wanted(block.name, name, values) {
            return Some(block.body);
        }
        place = block.body;
    }
    None
}

/// The row of this word, `with` or `and`, after so many others; one that is empty where there is
/// none at all.
fn row_at<'a>(body: Place<'a>, word: &str, behind: u64) -> Option<&'a str> {
    let mut place = body;
    let mut left = behind;
    for _ in 0..u64::MAX {
        let Some((line, next)) = place.line_of_block() else {
            return if behind == 0 { Some("") } else { None };
        };
        let (first, row) = first_word(line);
        if first == word {
            if left == 0 {
                return Some(row);
            }
            left -= 1;
        }
        place = next;
    }
    None
}

/// Whether a line has no acts: a row, or text.
pub fn is_no_act(line: &str) -> bool {
    let (word, _) = first_word(line);
    word == "with" || word == "and" || line.starts_with('|')
}

/// One play of a story: the rows that it is played with.
#[derive(Clone, Copy)]
pub struct Play<'a> {
    body: Place<'a>,
    with: Row<'a>,
    with_number: u64,
    and: Row<'a>,
    and_number: u64,
}

impl<'a> Play<'a> {
    /// The first play of a story.
    pub fn first(body: Place<'a>) -> Play<'a> {
        Play {
            body,
            with: Row::new(row_at(body, "with", 0).unwrap_or("")),
            with_number: 0,
            and: Row::new(row_at(body, "and", 0).unwrap_or("")),
            and_number: 0,
        }
    }

    /// What its names stand for.
    pub fn values(self) -> Values<'a> {
        Values {
            with: self.with,
            and: self.and,
            turn: 0,
        }
    }

    /// The next play: with each row `and` for each row `with`.
    pub fn next(self) -> Option<Play<'a>> {
        let next = self.next_and();
        if next.is_some() {
            return next;
        }
        self.next_with()
    }

    fn next_and(self) -> Option<Play<'a>> {
        let mut play = self;
        if let Some(row) = self.and.next() {
            play.and = row;
            return Some(play);
        }
        let number = self.and_number.saturating_add(1);
        play.and = Row::new(row_at(self.body, "and", number)?);
        play.and_number = number;
        Some(play)
    }

    fn next_with(self) -> Option<Play<'a>> {
        let mut play = self;
        play.and = Row::new(row_at(self.body, "and", 0).unwrap_or(""));
        play.and_number = 0;
        if let Some(row) = self.with.next() {
            play.with = row;
            return Some(play);
        }
        let number = self.with_number.saturating_add(1);
        play.with = Row::new(row_at(self.body, "with", number)?);
        play.with_number = number;
        Some(play)
    }
}
