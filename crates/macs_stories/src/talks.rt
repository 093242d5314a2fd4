//! The clients of a story: what they do each time that a desk listens, and what was said to them.

use crate::text::{Answer, Line, Words, whole};
use macs_commands::requests::{Client, Clients, Heard, Line as Octets};
use std::alloc::{AllocError, Global};
use std::collections::VecDeque;

/// A text that was said to a client.
#[derive(Drop)]
struct Told {
    client: u64,
    text: String,
}

/// What clients do, a line for each time that the desk listens, and what was said to them. It
/// claims nothing.
#[derive(Drop)]
pub struct Talks {
    alloc: Global,
    doings: VecDeque<String>,
    told: Vec<Told>,
    gone: Vec<u64>,
    listened: u64,
    slept: u64,
    /// There was no memory for what was said.
    is_cut: bool,
}

/// A line of so many octets at most, from this client.
fn heard(client: &str, text: &str) -> Option<Heard> {
    let client = client.parse::<u64>().ok()?;
    let mut line = Octets::new();
    line.try_extend_from_slice(text.as_bytes()).ok()?;
    Some(Heard {
        client: Client(client),
        line,
    })
}

impl Talks {
    /// Nobody.
    pub fn new(alloc: Global) -> Talks {
        Talks {
            alloc,
            doings: VecDeque::new(alloc),
            told: Vec::new(alloc),
            gone: Vec::new(alloc),
            listened: 0,
            slept: 0,
            is_cut: false,
        }
    }

    /// There was no memory for a relay.
    pub fn cut(&mut self) {
        self.is_cut = true;
    }

    fn is_gone(&self, client: u64) -> bool {
        self.gone.iter().any(|gone| *gone == client)
    }

    fn note(&mut self, client: u64, text: &[u8]) -> Result<(), AllocError> {
        let text = String::from_str(self.alloc, str::from_utf8(text).unwrap_or("no text"))?;
        self.told.push(Told { client, text })?;
        Ok(())
    }

    /// `CLIENT LINE`: this client sends this line; `gone CLIENT`: it goes away; others do nothing.
    fn does(&mut self, doing: &str) -> Option<Heard> {
        let (first, rest) = doing.split_once(' ')?;
        if first == "gone" {
            let client = rest.parse::<u64>().ok()?;
            if self.gone.push(client).is_err() {
                self.is_cut = true;
            }
            return None;
        }
        heard(first, rest)
    }
}

impl Clients for Talks {
    fn hear(&mut self) -> Option<Heard> {
        self.listened = self.listened.saturating_add(1);
        let doing = self.doings.pop_front()?;
        self.does(doing.as_str())
    }

    fn say(&mut self, client: Client, text: &[u8]) {
        if !self.is_gone(client.0) && self.note(client.0, text).is_err() {
            self.is_cut = true;
        }
    }

    fn sleep(&mut self) {
        self.slept = self.slept.saturating_add(1);
    }

    /// Where the next of what they do is `ended`.
    fn is_ended(&mut self) -> bool {
        self.doings
            .front()
            .is_some_and(|doing| doing.as_str() == "ended")
    }
}

/// What clients do by the lines of a text.
fn talks_of(text: &str, alloc: Global) -> Option<Talks> {
    let mut talks = Talks::new(alloc);
    let mut rest = text;
    for _ in 0..u64::MAX {
        let Some((one, behind)) = rest.split_once('\n') else {
            return Some(talks);
        };
        let doing = String::from_str(alloc, one).ok()?;
        talks.doings.push_back(doing).ok()?;
        rest = behind;
    }
    None
}

/// `clients`, and lines of text after it: what clients of the next relay do.
fn begin(line: Line<'_>, talks: &mut Talks, alloc: Global, answer: &mut Answer) -> Option<()> {
    let text = line.behind.text(alloc)?;
    *talks = talks_of(text.as_str(), alloc)?;
    answer.word("ok");
    Some(())
}

/// `said PLACE`: what was said to clients, by its place from 1 on: to whom, and each line.
fn tell(words: &mut Words<'_>, talks: &Talks, answer: &mut Answer) -> Option<()> {
    let place = whole(words.number(), words)?;
    let place = usize::try_from(place.saturating_sub(1)).unwrap_or(usize::MAX);
    match talks.told.get(place) {
        Some(told) => {
            answer.number(told.client);
            for line in told.text.as_str().lines() {
                answer.word(line);
            }
        }
        None => answer.word("none"),
    }
    Some(())
}

/// How often the desk listened and slept, and how much it said.
fn tell_counts(talks: &Talks, answer: &mut Answer) {
    answer.word("listened");
    answer.number(talks.listened);
    answer.word("slept");
    answer.number(talks.slept);
    answer.word("said");
    answer.number(talks.told.len() as u64);
    if talks.is_cut {
        answer.word("no memory");
    }
}

/// Does an act with the clients, and answers it; `None` where there is no such act.
pub fn act(line: Line<'_>, talks: &mut Talks, alloc: Global, answer: &mut Answer) -> Option<()> {
    let mut words = line.words();
    match words.rest() {
        "clients" => return begin(line, talks, alloc, answer),
        "clients-counts" => {
            tell_counts(talks, answer);
            return Some(());
        }
        _ => {}
    }
    if words.take() == "said" {
        return tell(&mut words, talks, answer);
    }
    None
}
