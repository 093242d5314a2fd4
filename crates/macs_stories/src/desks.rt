//! The desk of a story: what it wants before each turn of a relay, and what was reported to it.

use crate::disk::command_of;
use crate::endpoint::tell_ran;
use crate::text::{Answer, Line, Words, whole};
use macs_config::Command;
use macs_disk::SectorDisk;
use macs_edge::{CommandEnd, Desk, Order, Wire};
use macs_endpoint::{Endpoint, SubmitFault, Ticket};
use std::alloc::Global;
use std::collections::VecDeque;

/// What it wants; the command of a submission is the next one of a list beside it.
#[derive(Clone, Copy)]
enum Wish {
    Go,
    Submit,
    End,
}

/// What was reported to it: of a submission its ticket or why it was not taken, and what became of
/// the one with this ticket.
#[derive(Clone, Copy)]
enum Told {
    Ticket(u64),
    NotTaken(SubmitFault),
    Ended(u64, CommandEnd),
}

/// What it wants, in order, and what was reported to it. It claims nothing.
#[derive(Drop)]
pub struct Orders {
    wishes: VecDeque<Wish>,
    commands: VecDeque<Command>,
    told: Vec<Told>,
    /// How often it was asked, and how often after a quiet turn.
    asked: u64,
    quiet: u64,
    /// There was no memory for what was reported to it.
    is_cut: bool,
}

impl Orders {
    /// None.
    pub fn new(alloc: Global) -> Orders {
        Orders {
            wishes: VecDeque::new(alloc),
            commands: VecDeque::new(alloc),
            told: Vec::new(alloc),
            asked: 0,
            quiet: 0,
            is_cut: false,
        }
    }

    /// The next submission.
    fn submit(&mut self) -> Order {
        match self.commands.pop_front() {
            Some(command) => Order::Submit(command),
            None => Order::Go,
        }
    }

    fn note(&mut self, told: Told) {
        if self.told.push(told).is_err() {
            self.is_cut = true;
        }
    }
}

impl<D: SectorDisk, P: Wire, C: Wire> Desk<D, P, C> for Orders {
    fn next(
        &mut self,
        _endpoint: &Endpoint<D>,
        _controlled: &P,
        _common: &C,
        was_quiet: bool,
    ) -> Order {
        self.asked = self.asked.saturating_add(1);
        if was_quiet {
            self.quiet = self.quiet.saturating_add(1);
        }
        match self.wishes.pop_front() {
            Some(Wish::Submit) => self.submit(),
            Some(Wish::End) => Order::End,
            Some(Wish::Go) | None => Order::Go,
        }
    }

    fn took(&mut self, answer: Result<Ticket, SubmitFault>) {
        let told = match answer {
            Ok(ticket) => Told::Ticket(ticket.get()),
            Err(fault) => Told::NotTaken(fault),
        };
        self.note(told);
    }

    fn answered(&mut self, ticket: Ticket, end: CommandEnd) {
        self.note(Told::Ended(ticket.get(), end));
    }

    fn rest(&mut self) {}
}

/// A command that is to be submitted.
fn submission(words: &mut Words<'_>) -> Option<Command> {
    let name = words.take();
    whole(command_of(name, words), words)
}

/// `submit COMMAND`, `go`, `end`: it wants this next; `None` where there was no memory, or the
/// words say no such thing.
fn add(orders: &mut Orders, words: &mut Words<'_>) -> Option<()> {
    let wish = match words.take() {
        "submit" => {
            orders.commands.push_back(submission(words)?).ok()?;
            Wish::Submit
        }
        "go" if words.is_empty() => Wish::Go,
        "end" if words.is_empty() => Wish::End,
        _ => return None,
    };
    orders.wishes.push_back(wish).ok()
}

/// A desk that wants what the lines of a text say.
fn orders_of(text: &str, line: Line<'_>, alloc: Global) -> Option<Orders> {
    let mut orders = Orders::new(alloc);
    let mut rest = text;
    for _ in 0..u64::MAX {
        let Some((one, behind)) = rest.split_once('\n') else {
            return Some(orders);
        };
        let mut words = Words::new(one, line.values);
        add(&mut orders, &mut words)?;
        rest = behind;
    }
    None
}

/// `desk`, and lines of text after it: a desk that wants this before the first turns of the next
/// relay, and after that no more than that it goes on.
fn begin(line: Line<'_>, orders: &mut Orders, alloc: Global, answer: &mut Answer) -> Option<()> {
    let text = line.behind.text(alloc)?;
    *orders = orders_of(text.as_str(), line, alloc)?;
    answer.word("ok");
    Some(())
}

fn tell_end(ticket: u64, end: CommandEnd, answer: &mut Answer) {
    answer.number(ticket);
    match end {
        CommandEnd::Done(told) => tell_ran(told, answer),
        CommandEnd::Failed => answer.word("failed"),
    }
}

fn tell_one(told: Told, answer: &mut Answer) {
    match told {
        Told::Ticket(number) => {
            answer.word("ticket");
            answer.number(number);
        }
        Told::NotTaken(fault) => {
            answer.word("ticket");
            answer.name(&fault);
        }
        Told::Ended(ticket, end) => tell_end(ticket, end, answer),
    }
}

/// `told PLACE`: what was reported to the desk, by its place from 1 on.
fn tell(words: &mut Words<'_>, orders: &Orders, answer: &mut Answer) -> Option<()> {
    let place = whole(words.number(), words)?;
    let place = usize::try_from(place.saturating_sub(1)).unwrap_or(usize::MAX);
    match orders.told.get(place) {
        Some(told) => tell_one(*told, answer),
        None => answer.word("none"),
    }
    Some(())
}

/// How often the desk was asked, how often after a quiet turn, and how much was reported to it.
fn tell_counts(orders: &Orders, answer: &mut Answer) {
    answer.word("asked");
    answer.number(orders.asked);
    answer.word("quiet");
    answer.number(orders.quiet);
    answer.word("told");
    answer.number(orders.told.len() as u64);
    if orders.is_cut {
        answer.word("no memory");
    }
}

/// Does an act with the desk, and answers it; `None` where there is no such act.
pub fn act(line: Line<'_>, orders: &mut Orders, alloc: Global, answer: &mut Answer) -> Option<()> {
    let mut words = line.words();
    match words.rest() {
        "desk" => return begin(line, orders, alloc, answer),
        "desk-counts" => {
            tell_counts(orders, answer);
            return Some(());
        }
        _ => {}
    }
    if words.take() == "told" {
        return tell(&mut words, orders, answer);
    }
    None
}
