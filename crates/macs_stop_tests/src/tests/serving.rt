//! Events that are served, by a source and a sink that report what they have: their clauses are
//! met. What is answered to events is in stories, too, whose source and sink report nothing.

ghost use Rattle.std.specs.Prelude.{true};

use macs_aes::Key;
use macs_config::{Command, Identity};
use macs_disk::{MemDisk, SectorDisk};
use macs_endpoint::{
    Answer, AnswerSink, CommandFault, Endpoint, Event, EventSource, ProtectFault, RefillFault,
    ServeEnd, Step, StepFault, Stopped, SubmitFault, Ticket, format,
};
use macs_frame::{An, FrameBuf, Pn, Sci};
use macs_rxsc::{Reason, Verdict};
use std::alloc::Global;
use std::collections::VecDeque;
use std::process::Abort;

/// Events in their order, and how often one was asked for.
#[derive(Drop)]
struct Script {
    events: VecDeque<Event>,
    asked: u64,
}

impl EventSource for Script {
    ghost tells = { λ script. true };

    ghost left = { λ script. script.events.items };

    fn next_event(&mut self) -> Option<Event> {
        self.asked = self.asked.saturating_add(1);
        self.events.pop_front()
    }
}

/// The answers that were given.
#[derive(Drop)]
struct Answers<'a, R: Abort> {
    rt: &'a R,
    given: Vec<Answer>,
}

impl<R: Abort> AnswerSink for Answers<'_, R> {
    ghost tells = { λ sink. true };

    ghost took = { λ sink. sink.given.items };

    fn put(&mut self, answer: Answer) {
        self.given.push(answer).expect(self.rt, "memory");
    }
}

/// What a step came to, with a ticket's number.
#[derive(Clone, Copy, PartialEq)]
enum Came {
    Idle,
    Worked,
    Reserved,
    Done(u64, Result<(), CommandFault>),
}

fn told_of(step: Step) -> Came {
    match step {
        Step::Idle => Came::Idle,
        Step::Worked => Came::Worked,
        Step::Reserved => Came::Reserved,
        Step::Done(ticket, answer) => Came::Done(ticket.get(), answer),
    }
}

/// An answer, with a ticket's number, or the number of octets for a frame's.
#[derive(Clone, Copy, PartialEq)]
enum Told {
    Submitted(Result<u64, SubmitFault>),
    Stepped(Result<Came, StepFault>),
    Protected(Result<u32, ProtectFault>, usize),
    Received(Result<Verdict, Stopped>, usize),
    Ran(Result<(), CommandFault>),
    Refilled(Result<(), RefillFault>),
}

fn told_by(answer: &Answer) -> Told {
    match answer {
        Answer::Submitted(result) => Told::Submitted(result.map(Ticket::get)),
        Answer::Stepped(result) => Told::Stepped(result.map(told_of)),
        Answer::Protected(result, out) => Told::Protected(result.map(Pn::get), out.len()),
        Answer::Received(result, out) => Told::Received(*result, out.len()),
        Answer::Ran(result) => Told::Ran(*result),
        Answer::Refilled(result) => Told::Refilled(*result),
    }
}

fn add(rt: &impl Abort, events: &mut VecDeque<Event>, event: Event) {
    events.push_back(event).expect(rt, "memory");
}

/// A plain frame of 62 octets.
fn plain(rt: &impl Abort) -> FrameBuf {
    let mut frame = FrameBuf::new();
    frame.try_extend_from_slice(&[7; 62]).expect(rt, "room");
    frame
}

fn install(an: An) -> Command {
    Command::TxInstall {
        an,
        key: Key::Short([1; 16]),
        start: 1,
        confidential: true,
        offset: 0,
    }
}

/// An install and its use, which are kept; a frame that goes out, one that comes and has no SecTAG,
/// and work.
fn some_events(rt: &impl Abort, alloc: Global) -> Script {
    let an = An::new(0).expect(rt, "association number");
    let mut events = VecDeque::new(alloc);
    add(rt, &mut events, Event::Operator(install(an)));
    add(rt, &mut events, Event::Operator(Command::TxUse { an }));
    for _ in 0..8 {
        add(rt, &mut events, Event::Work);
    }
    add(rt, &mut events, Event::Controlled(plain(rt)));
    add(rt, &mut events, Event::Common(plain(rt)));
    add(rt, &mut events, Event::Work);
    Script { events, asked: 0 }
}

/// A device call is made, and the work goes on.
const WORKED: Told = Told::Stepped(Ok(Came::Worked));

/// What is answered to them: a frame is longer by a SecTAG of 16 octets and an ICV of 16.
const EXPECTED: [Told; 13] = [
    Told::Submitted(Ok(1)),
    Told::Submitted(Ok(2)),
    WORKED,
    WORKED,
    WORKED,
    Told::Stepped(Ok(Came::Done(1, Ok(())))),
    WORKED,
    WORKED,
    WORKED,
    Told::Stepped(Ok(Came::Done(2, Ok(())))),
    Told::Protected(Ok(1), 94),
    Told::Received(Ok(Verdict::Discarded(Reason::NoTag)), 0),
    Told::Stepped(Ok(Came::Idle)),
];

/// A new endpoint on a disk in memory.
fn made(rt: &impl Abort, alloc: Global) -> Endpoint<MemDisk> {
    let identity = Identity::new(Sci([2, 0, 0, 0, 0, 1, 0, 1]), 4, 4).expect(rt, "identity");
    let mut disk = match MemDisk::new(alloc, 1_028) {
        Ok(disk) => disk,
        Err(_) => panic!(rt; "no disk"),
    };
    assert!(rt; format(&mut disk, &identity).is_ok());
    match Endpoint::open(disk) {
        Ok(endpoint) => endpoint,
        Err(_) => panic!(rt; "not opened"),
    }
}

/// Serves events in so many turns.
fn serve<D: SectorDisk, R: Abort>(
    endpoint: &mut Endpoint<D>,
    source: &mut Script,
    sink: &mut Answers<'_, R>,
    turns: u64,
) -> ServeEnd {
    endpoint.serve(source, sink, turns)
}

fn expect_told<R: Abort>(sink: &Answers<'_, R>) {
    assert!(sink.rt; sink.given.len() == EXPECTED.len());
    for (answer, told) in sink.given.iter().zip(&EXPECTED) {
        assert!(sink.rt; told_by(answer) == *told);
    }
}

#[test]
fn a_source_ends(rt: HostRuntime) {
    let mut endpoint = made(&rt, rt.alloc());
    let mut source = some_events(&rt, rt.alloc());
    let mut sink = Answers {
        rt: &rt,
        given: Vec::new(rt.alloc()),
    };
    assert!(rt; serve(&mut endpoint, &mut source, &mut sink, 20) == ServeEnd::Ended);
    assert!(rt; source.asked == 14);
    expect_told(&sink);
}
