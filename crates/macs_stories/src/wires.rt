//! The two wires of a story, in memory: what waits on them and what they sent, and relays between
//! them.

use crate::desks::Orders;
use crate::endpoint::Played;
use crate::talks::Talks;
use crate::text::{Answer, Words, filled, frame_at, octets_of, tell_frame, tell_sent, whole};
use macs_commands::requests::NoMetrics;
use macs_control::desk::{ControlDesk, NoSystem, report_paper};
use macs_edge::{
    FaultWire, Got, Idle, MemWire, RelaySummary, Unattended, Wire, WireFault, attend, relay,
};
use macs_endpoint::RefillFault;
use macs_frame::FrameBuf;
use macs_texts::Program;
use std::alloc::Global;
use std::mem::replace;

/// A wire in memory behind two that fail calls.
type Front = FaultWire<FaultWire<MemWire<Global>>>;

/// The numbers of the receive and the send that fail, of the wire before the one in memory, and of
/// the one before that; 0 for none.
#[derive(Clone, Copy)]
struct Fails {
    inner_receive: u64,
    inner_send: u64,
    outer_receive: u64,
    outer_send: u64,
}

const NEVER: Fails = Fails {
    inner_receive: 0,
    inner_send: 0,
    outer_receive: 0,
    outer_send: 0,
};

/// A wire of a story.
#[derive(Drop)]
struct StoryWire {
    front: Front,
    fails: Fails,
}

fn front_of(memory: MemWire<Global>, fails: Fails) -> Front {
    let inner = FaultWire::new(memory, fails.inner_receive, fails.inner_send);
    FaultWire::new(inner, fails.outer_receive, fails.outer_send)
}

impl StoryWire {
    fn new(alloc: Global, fails: Fails) -> StoryWire {
        StoryWire {
            front: front_of(MemWire::new(alloc), fails),
            fails,
        }
    }

    /// A frame waits on the wire. The calls that fail are counted from the start again.
    fn push(&mut self, alloc: Global, frame: &[u8]) -> Result<(), WireFault> {
        let front = replace(&mut self.front, front_of(MemWire::new(alloc), NEVER));
        let mut memory = front.into_inner().into_inner();
        let told = memory.push(frame);
        self.front = front_of(memory, self.fails);
        told
    }

    /// No call of the wire fails from now on.
    fn mend(&mut self, alloc: Global) {
        let front = replace(&mut self.front, front_of(MemWire::new(alloc), NEVER));
        self.front = front_of(front.into_inner().into_inner(), NEVER);
        self.fails = NEVER;
    }

    fn sent(&self) -> &[Vec<u8>] {
        self.front.inner().inner().sent()
    }
}

/// The wires of a story, and frames that it kept.
#[derive(Drop)]
pub struct Wires {
    controlled: StoryWire,
    common: StoryWire,
    kept: Vec<Vec<u8>>,
}

/// The name of a wire.
#[derive(Clone, Copy)]
enum Name {
    Controlled,
    Common,
}

fn name_of(word: &str) -> Option<Name> {
    match word {
        "controlled" => Some(Name::Controlled),
        "common" => Some(Name::Common),
        _ => None,
    }
}

impl Wires {
    /// Two wires on which nothing waits and no call fails.
    pub fn new(alloc: Global) -> Wires {
        Wires {
            controlled: StoryWire::new(alloc, NEVER),
            common: StoryWire::new(alloc, NEVER),
            kept: Vec::new(alloc),
        }
    }

    fn wire(&mut self, name: Name) -> &mut StoryWire {
        match name {
            Name::Controlled => &mut self.controlled,
            Name::Common => &mut self.common,
        }
    }

    fn read(&self, name: Name) -> &StoryWire {
        match name {
            Name::Controlled => &self.controlled,
            Name::Common => &self.common,
        }
    }

    fn place(&mut self, name: Name, wire: StoryWire) {
        match name {
            Name::Controlled => self.controlled = wire,
            Name::Common => self.common = wire,
        }
    }
}

/// The numbers of calls that fail, a receive and a send, and those of a wire before it.
fn fails_of(words: &mut Words<'_>) -> Option<Fails> {
    let mut fails = NEVER;
    if words.is_empty() {
        return Some(fails);
    }
    fails.inner_receive = words.number()?;
    fails.inner_send = words.number()?;
    if words.is_empty() {
        return Some(fails);
    }
    fails.outer_receive = words.number()?;
    fails.outer_send = whole(words.number(), words)?;
    Some(fails)
}

/// `LENGTH OCTET`: a frame of so many octets, each of which is this one; 7 where none is said. `hex
/// HEX`; `kept PLACE`.
fn frame_of(kept: &[Vec<u8>], words: &mut Words<'_>, alloc: Global) -> Option<Vec<u8>> {
    let mut front = *words;
    match front.take() {
        "hex" => octets_of(&mut front, alloc),
        "kept" => kept_frame(kept, &mut front, alloc),
        _ => filled(words, alloc),
    }
}

/// A frame that was kept, by its place from 0 on.
fn kept_frame(kept: &[Vec<u8>], words: &mut Words<'_>, alloc: Global) -> Option<Vec<u8>> {
    let place = whole(words.number(), words)?;
    Vec::from_slice(alloc, frame_at(kept, place)?).ok()
}

fn taken(wire: &mut StoryWire, into: &mut FrameBuf) -> Result<Got, WireFault> {
    wire.front.receive(into)
}

fn sent_on(wire: &mut StoryWire, frame: &[u8]) -> Result<(), WireFault> {
    wire.front.send(frame)
}

/// Receives from a wire into a buffer with an octet that has to go.
fn take(wire: &mut StoryWire, answer: &mut Answer) {
    let mut into = FrameBuf::new();
    into.push(9);
    let told = taken(wire, &mut into);
    tell_taken(told, into.as_slice(), answer);
}

/// Reports what was received; octets that are left where none are to be.
fn tell_taken(told: Result<Got, WireFault>, into: &[u8], answer: &mut Answer) {
    match told {
        Ok(Got::Frame) => {
            answer.word("frame");
            tell_frame(into, answer);
            return;
        }
        Ok(Got::Nothing) => answer.word("nothing"),
        Ok(Got::TooLong) => answer.word("too long"),
        Err(fault) => answer.name(&fault),
    }
    if !into.is_empty() {
        answer.octets(into);
    }
}

/// Keeps frames after those that are kept. Whether there was memory.
fn keep(kept: &mut Vec<Vec<u8>>, frames: &[Vec<u8>], alloc: Global) -> bool {
    for frame in frames {
        if !keep_one(kept, frame.as_slice(), alloc) {
            return false;
        }
    }
    true
}

fn keep_one(kept: &mut Vec<Vec<u8>>, frame: &[u8], alloc: Global) -> bool {
    match Vec::from_slice(alloc, frame) {
        Ok(frame) => kept.push(frame).is_ok(),
        Err(_) => false,
    }
}

fn keep_sent(wires: &mut Wires, name: Name, alloc: Global) -> bool {
    match name {
        Name::Controlled => keep(&mut wires.kept, wires.controlled.sent(), alloc),
        Name::Common => keep(&mut wires.kept, wires.common.sent(), alloc),
    }
}

/// A new wire, of which these calls fail.
fn begin(
    wires: &mut Wires,
    name: Name,
    words: &mut Words<'_>,
    alloc: Global,
    answer: &mut Answer,
) -> Option<()> {
    wires.place(name, StoryWire::new(alloc, fails_of(words)?));
    answer.word("ok");
    Some(())
}

fn push(
    wires: &mut Wires,
    name: Name,
    words: &mut Words<'_>,
    alloc: Global,
    answer: &mut Answer,
) -> Option<()> {
    let frame = frame_of(wires.kept.as_slice(), words, alloc)?;
    answer.done(wires.wire(name).push(alloc, frame.as_slice()));
    Some(())
}

fn send(
    wires: &mut Wires,
    name: Name,
    words: &mut Words<'_>,
    alloc: Global,
    answer: &mut Answer,
) -> Option<()> {
    let frame = frame_of(wires.kept.as_slice(), words, alloc)?;
    answer.done(sent_on(wires.wire(name), frame.as_slice()));
    Some(())
}

/// Does an act that says no more than its wire; `None` where there is no such act.
fn handle(
    wires: &mut Wires,
    act: &str,
    name: Name,
    alloc: Global,
    answer: &mut Answer,
) -> Option<()> {
    match act {
        "keep" => answer.could(keep_sent(wires, name, alloc)),
        "take" => take(wires.wire(name), answer),
        "mend" => {
            wires.wire(name).mend(alloc);
            answer.word("ok");
        }
        _ => return None,
    }
    Some(())
}

/// Does an act with a wire, and answers it; `None` where there is no such act.
pub fn act(wires: &mut Wires, words: Words<'_>, alloc: Global, answer: &mut Answer) -> Option<()> {
    let mut words = words;
    let act = words.take();
    let name = name_of(words.take())?;
    match act {
        "wire" => begin(wires, name, &mut words, alloc, answer),
        "push" => push(wires, name, &mut words, alloc, answer),
        "send" => send(wires, name, &mut words, alloc, answer),
        "keep" | "take" | "mend" => handle(wires, act, name, alloc, answer),
        _ => tell_sent(act, words, wires.read(name).sent(), answer),
    }
}

fn relayed(
    endpoint: &mut Played,
    wires: &mut Wires,
    turns: u64,
) -> Result<RelaySummary, RefillFault> {
    relay(
        endpoint,
        &mut wires.controlled.front,
        &mut wires.common.front,
        turns,
    )
}

fn tell_relayed(told: Result<RelaySummary, RefillFault>, answer: &mut Answer) {
    let summary = match told {
        Ok(summary) => summary,
        Err(fault) => {
            answer.name(&fault);
            return;
        }
    };
    answer.word("sent");
    answer.number(summary.sent);
    answer.word("delivered");
    answer.number(summary.delivered);
    answer.word("dropped");
    answer.number(summary.dropped);
    answer.word("faults");
    answer.number(summary.faults);
}

/// What counts its sleeps.
#[derive(Drop)]
struct Sleeper {
    slept: u64,
}

impl Idle for Sleeper {
    fn idle(&mut self) {
        self.slept = self.slept.saturating_add(1);
    }
}

fn attended(
    endpoint: &mut Played,
    wires: &mut Wires,
    turns: u64,
    orders: &mut Orders,
) -> Result<RelaySummary, RefillFault> {
    attend(
        endpoint,
        &mut wires.controlled.front,
        &mut wires.common.front,
        orders,
        turns,
    )
}

/// The same with a desk that serves these clients.
fn served(
    endpoint: &mut Played,
    wires: &mut Wires,
    turns: u64,
    talks: &mut Talks,
    alloc: Global,
) -> Result<RelaySummary, RefillFault> {
    let Ok(paper) = report_paper(alloc) else {
        talks.cut();
        return Err(RefillFault::Stopped);
    };
    let clients = replace(talks, Talks::new(alloc));
    let mut desk = ControlDesk::new(paper, Program::none(alloc), clients, NoMetrics, NoSystem);
    let told = attend(
        endpoint,
        &mut wires.controlled.front,
        &mut wires.common.front,
        &mut desk,
        turns,
    );
    let (clients, _metrics) = desk.into_parts();
    *talks = clients;
    told
}

/// Frames pass between the wires through an endpoint, and the sleeps between are reported.
fn rest_and_tell(endpoint: &mut Played, wires: &mut Wires, turns: u64, answer: &mut Answer) {
    let mut nobody = Unattended {
        idle: Sleeper { slept: 0 },
    };
    let told = attend(
        endpoint,
        &mut wires.controlled.front,
        &mut wires.common.front,
        &mut nobody,
        turns,
    );
    tell_relayed(told, answer);
    answer.word("slept");
    answer.number(nobody.idle.slept);
}

/// `relay TURNS`, `relay-resting TURNS`, `attend TURNS`, `serve-clients TURNS`: frames pass between
/// the wires through an endpoint; `None` where the words say no such act.
pub fn pass_frames(
    endpoint: &mut Played,
    words: Words<'_>,
    wires: &mut Wires,
    orders: &mut Orders,
    talks: &mut Talks,
    alloc: Global,
    answer: &mut Answer,
) -> Option<()> {
    let mut words = words;
    let act = words.take();
    let turns = whole(words.number(), &words)?;
    match act {
        "relay" => tell_relayed(relayed(endpoint, wires, turns), answer),
        "relay-resting" => rest_and_tell(endpoint, wires, turns, answer),
        "attend" => tell_relayed(attended(endpoint, wires, turns, orders), answer),
        "serve-clients" => tell_relayed(served(endpoint, wires, turns, talks, alloc), answer),
        _ => return None,
    }
    Some(())
}
