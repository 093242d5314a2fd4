//! Relays with a control socket, and what is said to their clients and to their parent.

use super::super::beside::Beside;
use super::super::expect_over;
use super::super::stand_in::{Broken, StandIn};
use crate::Outcome;
use std::alloc::Global;
use std::fs::File;
use std::io;
use std::net::Net;
use std::process::Abort;
use std::random::RandomSource;
use std::rt::{Clock, Env, Files};

/// An answer to a client.
#[derive(Clone, Copy)]
pub enum Told {
    Text(&'static str),
    /// The counters, of which the first line alone is looked at.
    Counters,
    /// The counters, with the buffers of both wires.
    Buffers,
}

/// A client: what it sends at first, what it sends once all clients have an answer to each of their
/// first lines, and its answers.
pub struct Client {
    pub lines: &'static str,
    pub later: &'static str,
    pub told: &'static [Told],
}

/// A relay between wires to which nothing comes, who is there, and what it comes to.
pub struct Attended {
    pub disk: &'static str,
    /// What fails of the disk file.
    pub broken: Broken,
    /// The two words that say how long it relays, and whether it sleeps.
    pub pace: [&'static str; 2],
    pub control: &'static str,
    pub clients: &'static [Client],
    /// The name of the parent's socket, and what the parent sees: empty where there is none.
    pub parent: &'static str,
    pub seen: &'static str,
    pub outcome: Outcome,
}

/// Runs the relay, and looks at what was said, and that the disk file was closed before a client's
/// connection ended.
pub fn attend(
    rt: &(impl Abort + Files<File = File> + Net + Clock + Env + RandomSource),
    alloc: Global,
    attended: &Attended,
) -> io::Result<()> {
    let beside = beside(rt, alloc, attended)?;
    run(rt, alloc, &beside, &*attended);
    expect_beside(rt, alloc, &beside, attended)
}

/// Looks at what those beside the relay have seen and heard.
fn expect_beside(
    rt: &(impl Abort + Files),
    alloc: Global,
    beside: &Beside,
    attended: &Attended,
) -> io::Result<()> {
    beside.look(rt, "end");
    assert!(rt; beside.has_seen(attended.seen));
    assert!(rt; beside.is_closed_first());
    expect_told(rt, alloc, beside, attended.clients)
}

/// Clients were told what they are to be told.
pub fn expect_told(
    rt: &impl Abort,
    alloc: Global,
    beside: &Beside,
    clients: &[Client],
) -> io::Result<()> {
    for i in 0..clients.len() {
        let text = beside.told(alloc, i)?;
        let told = clients[i].told;
        assert!(rt; is_told(text.as_str(), told), "client {i}: {text}");
    }
    Ok(())
}

/// Who is there beside the relay.
fn beside(
    files: &impl Files<File = File>,
    alloc: Global,
    attended: &Attended,
) -> io::Result<Beside> {
    let mut beside = Beside::new(alloc, attended.control);
    for client in attended.clients {
        beside.invite(alloc, client.lines, client.later)?;
    }
    if !attended.parent.is_empty() {
        beside.notify(files, alloc, attended.parent)?;
    }
    Ok(beside)
}

/// Runs the relay with these beside it.
fn run<'a>(
    rt: &'a (impl Abort + Files<File = File> + Net + Clock + Env + RandomSource),
    alloc: Global,
    beside: &'a Beside,
    attended: &'a Attended,
) {
    let system = StandIn {
        system: rt,
        path: attended.disk,
        broken: attended.broken,
        peers: None,
        beside: Some(beside),
    };
    let words = [
        "relay",
        attended.disk,
        "127.0.0.1:0",
        "127.0.0.1:9",
        "127.0.0.1:0",
        "127.0.0.1:9",
        attended.pace[0],
        attended.pace[1],
        "--control",
        attended.control,
    ];
    expect_over(rt, &system, alloc, &words, attended.outcome);
}

/// What is left of a text after counters, if it begins with those of an endpoint that protected no
/// frame.
fn after_counters(text: &str) -> Option<(&str, &str)> {
    let counts = text.strip_prefix("tx protected 0\n")?;
    counts.split_once("\nend 0\n")
}

/// What is left of a text after an answer, if it begins with that.
fn behind(text: &str, answer: Told) -> Option<&str> {
    match answer {
        Told::Text(wanted) => text.strip_prefix(wanted),
        Told::Counters => {
            let (_, rest) = after_counters(text)?;
            Some(rest)
        }
        Told::Buffers => {
            let (counts, rest) = after_counters(text)?;
            let (_, after) = counts.split_once("\nwire 1 buffer ")?;
            after.split_once("\nwire 2 buffer ")?;
            Some(rest)
        }
    }
}

/// Whether a text is these answers, and nothing else.
fn is_told(text: &str, answers: &[Told]) -> bool {
    let mut rest = text;
    for answer in answers {
        match behind(rest, *answer) {
            Some(left) => rest = left,
            None => return false,
        }
    }
    rest.is_empty()
}
