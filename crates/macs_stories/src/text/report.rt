//! What is printed of a file.

use crate::text::answer::Answer;
use crate::text::script::Line;
use crate::text::values::{Row, Values};
use crate::text::words::is_wanted;

/// What is reported of the acts.
#[derive(Clone, Copy, PartialEq, Eq)]
pub enum Telling {
    /// Those that did not come to what was wanted.
    Wrong,
    /// Each one, with its answer.
    Each,
}

/// The counts of a file.
#[derive(Clone, Copy)]
pub struct Counts {
    pub stories: u64,
    pub acts: u64,
    pub wrong: u64,
}

/// What is printed of a file, and how.
#[derive(Drop)]
pub struct Report<'a> {
    file: &'a str,
    telling: Telling,
    counts: Counts,
    /// The story that is played.
    story: &'a str,
    /// Something could not be printed.
    is_silent: bool,
}

impl<'a> Report<'a> {
    /// Nothing is played yet.
    pub fn new(file: &'a str, telling: Telling) -> Report<'a> {
        Report {
            file,
            telling,
            counts: Counts {
                stories: 0,
                acts: 0,
                wrong: 0,
            },
            story: "",
            is_silent: false,
        }
    }

    /// Counts a story, and reports its name where each act is reported.
    pub fn begin_story(&mut self, rt: &impl Print, name: &'a str) {
        self.counts.stories = self.counts.stories.saturating_add(1);
        self.story = name;
        if self.telling == Telling::Each {
            let is_told = println!(rt; "story {name}").is_ok();
            self.note(is_told);
        }
    }

    /// Compares an answer with what was wanted.
    pub fn judge(&mut self, rt: &impl Print, line: Line<'_>, answer: &Answer) {
        self.counts.acts = self.counts.acts.saturating_add(1);
        let is_as = is_wanted(answer.text(), line.wanted, line.values);
        let is_right = !answer.is_cut() && is_as != line.is_not;
        if !is_right {
            self.counts.wrong = self.counts.wrong.saturating_add(1);
        }
        let is_told = match self.telling {
            Telling::Each => tell_act(rt, line, answer.text(), is_right),
            Telling::Wrong if is_right => true,
            Telling::Wrong => tell_wrong(rt, self.file, self.story, line, answer.text()),
        };
        self.note(is_told);
    }

    /// A line that is in front of the first story.
    pub fn stray(&mut self, rt: &impl Print, line: &str, number: u64) {
        self.counts.wrong = self.counts.wrong.saturating_add(1);
        let file = self.file;
        let is_told = println!(rt; "{file}:{number}: {line}: stands in no story").is_ok();
        self.note(is_told);
    }

    /// The file of the disk gave other octets than the disk in memory.
    pub fn differ(&mut self, rt: &impl Print) {
        self.counts.wrong = self.counts.wrong.saturating_add(1);
        let (file, story) = (self.file, self.story);
        let is_told = println!(rt; "{file}: {story}: the file of its disk differs").is_ok();
        self.note(is_told);
    }

    fn note(&mut self, is_told: bool) {
        if !is_told {
            self.is_silent = true;
        }
    }

    /// Reports the counts. Whether nothing was wrong, and all that was to be reported could be
    /// printed.
    pub fn close(&self, rt: &impl Print) -> bool {
        tell_counts(rt, self.file, self.counts) && !self.is_silent && self.counts.wrong == 0
    }
}

/// An act with its answer, as it is in a story.
fn tell_act(rt: &impl Print, line: Line<'_>, answer: &str, is_right: bool) -> bool {
    let act = line.act;
    let wrong = if is_right { "" } else { "    # wrong" };
    println!(rt; "{act} = {answer}{wrong}").is_ok()
}

fn tell_wrong(rt: &impl Print, file: &str, story: &str, line: Line<'_>, answer: &str) -> bool {
    let Line {
        number,
        act,
        wanted,
        is_not,
        values,
        ..
    } = line;
    let not = if is_not { "not " } else { "" };
    let is_told = println!(rt;
        "{file}:{number}: {act}: wanted {not}{wanted}, got {answer}"
    ).is_ok();
    is_told && println!(rt; "    in: {story}").is_ok() && tell_values(rt, values)
}

/// What the names of the story stand for, where it has any.
fn tell_values(rt: &impl Print, values: Values<'_>) -> bool {
    let turn = values.turn;
    let is_told = tell_row(rt, values.with) && tell_row(rt, values.and);
    is_told && (turn == 0 || println!(rt; "    $ is {turn}").is_ok())
}

fn tell_row(rt: &impl Print, row: Row<'_>) -> bool {
    let Row { text, place } = row;
    if text.is_empty() {
        return true;
    }
    if place == 0 {
        return println!(rt; "    with {text}").is_ok();
    }
    println!(rt; "    with {text}, at the number {place} behind the first").is_ok()
}

fn tell_counts(rt: &impl Print, file: &str, counts: Counts) -> bool {
    let Counts {
        stories,
        acts,
        wrong,
    } = counts;
    println!(rt; "{file}: {stories} stories, {acts} acts, {wrong} wrong").is_ok()
}
