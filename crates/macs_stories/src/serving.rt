//! Events that an endpoint serves: those that come after an act, and what was answered to each.

ghost use Rattle.std.specs.Prelude.{false, []};

use crate::disk::command_of;
use crate::endpoint::{Played, tell_step, tell_submitted};
use crate::frames::sevens;
use crate::passing::{tell_protected, tell_received};
use crate::text::{Answer, Line, Words, whole};
use macs_endpoint::{Answer as Reply, AnswerSink, Event, EventSource, ServeEnd};
use macs_frame::FrameBuf;
use std::alloc::Global;
use std::collections::VecDeque;

/// Events in their order, and how often one was asked for. It claims nothing.
#[derive(Drop)]
struct Events {
    events: VecDeque<Event>,
    asked: u64,
}

impl Events {
    /// None.
    fn new(alloc: Global) -> Events {
        Events {
            events: VecDeque::new(alloc),
            asked: 0,
        }
    }
}

impl EventSource for Events {
    ghost tells = { λ _. false };

    ghost left = { λ _. [] };

    fn next_event(&mut self) -> Option<Event> {
        self.asked = self.asked.saturating_add(1);
        self.events.pop_front()
    }
}

/// What was answered to events, unless there was no memory for it. It claims nothing.
#[derive(Drop)]
struct Replies {
    replies: Vec<Reply>,
    is_cut: bool,
}

impl Replies {
    /// None.
    fn new(alloc: Global) -> Replies {
        Replies {
            replies: Vec::new(alloc),
            is_cut: false,
        }
    }
}

impl AnswerSink for Replies {
    ghost tells = { λ _. false };

    ghost took = { λ _. [] };

    fn put(&mut self, answer: Reply) {
        if self.replies.push(answer).is_err() {
            self.is_cut = true;
        }
    }
}

/// The events that wait to be served, and what was answered to those before.
#[derive(Drop)]
pub struct Service {
    events: Events,
    replies: Replies,
}

impl Service {
    /// No event, and no answer.
    pub fn new(alloc: Global) -> Service {
        Service {
            events: Events::new(alloc),
            replies: Replies::new(alloc),
        }
    }
}

/// A frame of so many sevens.
fn frame_of(words: &mut Words<'_>) -> Option<FrameBuf> {
    let mut frame = FrameBuf::new();
    let octets = sevens(whole(words.length(), words)?);
    frame.try_extend_from_slice(octets).ok()?;
    Some(frame)
}

/// `submit COMMAND`, `controlled LENGTH`, `common LENGTH`, `work`.
fn event_of(words: &mut Words<'_>) -> Option<Event> {
    match words.take() {
        "submit" => {
            let name = words.take();
            Some(Event::Operator(whole(command_of(name, words), words)?))
        }
        "controlled" => Some(Event::Controlled(frame_of(words)?)),
        "common" => Some(Event::Common(frame_of(words)?)),
        "work" if words.is_empty() => Some(Event::Work),
        _ => None,
    }
}

/// The events that the lines of a text say.
fn events_of(text: &str, line: Line<'_>, alloc: Global) -> Option<Events> {
    let mut events = Events::new(alloc);
    let mut rest = text;
    for _ in 0..u64::MAX {
        let Some((one, behind)) = rest.split_once('\n') else {
            return Some(events);
        };
        let mut words = Words::new(one, line.values);
        events.events.push_back(event_of(&mut words)?).ok()?;
        rest = behind;
    }
    None
}

/// `events`, and lines of text after it: these events wait, and nothing is answered yet.
fn wait(line: Line<'_>, service: &mut Service, alloc: Global, answer: &mut Answer) -> Option<()> {
    let text = line.behind.text(alloc)?;
    service.events = events_of(text.as_str(), line, alloc)?;
    service.replies = Replies::new(alloc);
    answer.word("ok");
    Some(())
}

/// Reports a reply; that to a frame with how many octets came for it.
fn tell_reply(reply: &Reply, answer: &mut Answer) {
    match reply {
        Reply::Submitted(told) => tell_submitted(*told, answer),
        Reply::Stepped(told) => tell_step(*told, answer),
        Reply::Protected(told, out) => {
            tell_protected(*told, answer);
            answer.number(out.len() as u64);
        }
        Reply::Received(told, out) => {
            tell_received(*told, answer);
            answer.number(out.len() as u64);
        }
        _ => answer.word("?"),
    }
}

/// `answered PLACE`: what was answered to an event, by its place from 1 on.
fn tell(words: &mut Words<'_>, replies: &Replies, answer: &mut Answer) -> Option<()> {
    let place = whole(words.number(), words)?;
    let place = usize::try_from(place.saturating_sub(1)).unwrap_or(usize::MAX);
    match replies.replies.get(place) {
        Some(reply) => tell_reply(reply, answer),
        None => answer.word("none"),
    }
    Some(())
}

/// Does an act with events, and answers it; `None` where there is no such act.
pub fn act(
    line: Line<'_>,
    service: &mut Service,
    alloc: Global,
    answer: &mut Answer,
) -> Option<()> {
    let mut words = line.words();
    if words.rest() == "events" {
        return wait(line, service, alloc, answer);
    }
    if words.take() == "answered" {
        return tell(&mut words, &service.replies, answer);
    }
    None
}

fn served(endpoint: &mut Played, service: &mut Service, turns: u64) -> ServeEnd {
    endpoint.serve(&mut service.events, &mut service.replies, turns)
}

/// Reports how serving ended, how often an event was asked for, and how many answers there are.
fn tell_served(end: ServeEnd, service: &Service, answer: &mut Answer) {
    answer.name(&end);
    answer.number(service.events.asked);
    answer.number(service.replies.replies.len() as u64);
    if service.replies.is_cut {
        answer.word("no memory");
    }
}

/// `serve TURNS`: the events that wait are served; `None` where the words say no such act.
pub fn serve(
    endpoint: &mut Played,
    words: Words<'_>,
    service: &mut Service,
    answer: &mut Answer,
) -> Option<()> {
    let mut words = words;
    if words.take() != "serve" {
        return None;
    }
    let turns = whole(words.number(), &words)?;
    let end = served(endpoint, service, turns);
    tell_served(end, service, answer);
    Some(())
}
