//! What is done with an endpoint, and what is asked of it.

use crate::counting::ask_counters;
use crate::disk::{StoryDisk, an_of, ask_config, command_of, sci_of, tell_identity};
use crate::passing::pass;
use crate::text::{Answer, Words, whole};
use macs_config::Command;
use macs_endpoint::{
    CommandFault, Endpoint, RefillFault, RestFault, Step, StepFault, SubmitFault, Ticket,
};
use macs_rxsc::RxNumbers;
use std::alloc::Global;

/// An endpoint over the disk of a story.
pub type Played = Endpoint<StoryDisk>;

/// More steps than any work takes.
const MOST_STEPS: u64 = 1_000;

/// Gives a command, which is kept or refused at once.
pub fn give(endpoint: &mut Played, command: Command) -> Result<(), CommandFault> {
    endpoint.command(command)
}

fn submitted(endpoint: &mut Played, command: Command) -> Result<Ticket, SubmitFault> {
    endpoint.submit(command)
}

fn refilled(endpoint: &mut Played) -> Result<(), RefillFault> {
    endpoint.refill()
}

fn rested(endpoint: &mut Played) -> Result<(), RestFault> {
    endpoint.rest()
}

fn advanced(endpoint: &mut Played) -> Result<Step, StepFault> {
    endpoint.step()
}

/// Reports what became of a command.
pub fn tell_ran(told: Result<(), CommandFault>, answer: &mut Answer) {
    match told {
        Err(CommandFault::Refused(refusal)) => {
            answer.word("refused");
            answer.name(&refusal);
        }
        _ => answer.done(told),
    }
}

/// Reports the ticket of a command that waits, or why it may not.
pub fn tell_submitted(told: Result<Ticket, SubmitFault>, answer: &mut Answer) {
    match told {
        Ok(ticket) => answer.number(ticket.get()),
        Err(fault) => answer.name(&fault),
    }
}

fn tell_progress(step: Step, answer: &mut Answer) {
    match step {
        Step::Idle => answer.word("idle"),
        Step::Worked => answer.word("worked"),
        Step::Reserved => answer.word("reserved"),
        Step::Done(ticket, told) => {
            answer.word("done");
            answer.number(ticket.get());
            tell_ran(told, answer);
        }
    }
}

/// Reports what a step came to.
pub fn tell_step(told: Result<Step, StepFault>, answer: &mut Answer) {
    match told {
        Ok(step) => tell_progress(step, answer),
        Err(fault) => answer.name(&fault),
    }
}

fn is_idle(told: &Result<Step, StepFault>) -> bool {
    matches!(told, Ok(Step::Idle))
}

fn is_done(told: &Result<Step, StepFault>) -> bool {
    matches!(told, Ok(Step::Done(_, _)))
}

/// Steps until one is the last by this test, or fails, and reports how many came before, and the
/// last.
fn steps(endpoint: &mut Played, to_a_command: bool, answer: &mut Answer) {
    for made in 0..MOST_STEPS {
        let told = advanced(endpoint);
        let is_last = if to_a_command {
            is_done(&told)
        } else {
            is_idle(&told)
        };
        if is_last || told.is_err() {
            answer.number(made);
            tell_step(told, answer);
            return;
        }
    }
    answer.word("endless");
}

/// Does an act of work; `None` where there is none.
fn work(endpoint: &mut Played, words: Words<'_>, answer: &mut Answer) -> Option<()> {
    match words.rest() {
        "refill" => answer.done(refilled(endpoint)),
        "plan-end" => answer.done(rested(endpoint)),
        "step" => tell_step(advanced(endpoint), answer),
        "rest" => steps(endpoint, false, answer),
        "finish" => steps(endpoint, true, answer),
        _ => return None,
    }
    Some(())
}

/// Gives a command, submits it, or reports whether it is under way; `None` where there is none.
fn command(endpoint: &mut Played, words: Words<'_>, answer: &mut Answer) -> Option<()> {
    let mut words = words;
    let name = words.take();
    let is_alone = name != "submit" && name != "has-under-way";
    let first = if is_alone { name } else { words.take() };
    let command = whole(command_of(first, &mut words), &words)?;
    match name {
        "submit" => tell_submitted(submitted(endpoint, command), answer),
        "has-under-way" => answer.is(endpoint.under_way() == Some(command)),
        _ => tell_ran(give(endpoint, command), answer),
    }
    Some(())
}

fn tell_number(number: Option<u64>, answer: &mut Answer) {
    match number {
        Some(number) => answer.number(number),
        None => answer.word("none"),
    }
}

fn tell_numbers(numbers: Option<RxNumbers>, answer: &mut Answer) {
    match numbers {
        Some(numbers) => {
            answer.number(numbers.next);
            answer.number(numbers.lowest);
        }
        None => answer.word("none"),
    }
}

fn ask_next(endpoint: &Played, words: &mut Words<'_>, answer: &mut Answer) -> Option<()> {
    tell_number(endpoint.next_number(an_of(words)?), answer);
    Some(())
}

/// Reports the next and the lowest acceptable number of a receive association.
fn ask_numbers(endpoint: &Played, words: &mut Words<'_>, answer: &mut Answer) -> Option<()> {
    let sci = sci_of(words)?;
    tell_numbers(endpoint.numbers(sci, an_of(words)?), answer);
    Some(())
}

/// Reports how many packet numbers of a transmit association are reserved and not used.
fn ask_reserved(endpoint: &Played, words: &mut Words<'_>, answer: &mut Answer) -> Option<()> {
    tell_number(endpoint.reserved_tx(an_of(words)?), answer);
    Some(())
}

/// The same of a receive association.
fn ask_reserved_of(endpoint: &Played, words: &mut Words<'_>, answer: &mut Answer) -> Option<()> {
    let sci = sci_of(words)?;
    tell_number(endpoint.reserved_rx(sci, an_of(words)?), answer);
    Some(())
}

/// Answers a question; `None` where there is none.
fn ask(endpoint: &Played, words: Words<'_>, answer: &mut Answer) -> Option<()> {
    let mut words = words;
    let told = match words.take() {
        "next" => ask_next(endpoint, &mut words, answer),
        "numbers" => ask_numbers(endpoint, &mut words, answer),
        "reserved" => ask_reserved(endpoint, &mut words, answer),
        "reserved-of" => ask_reserved_of(endpoint, &mut words, answer),
        question => ask_all(endpoint, question, answer),
    };
    whole(told, &words)
}

/// Answers a question of one word; `None` where there is none.
fn ask_all(endpoint: &Played, question: &str, answer: &mut Answer) -> Option<()> {
    match question {
        "identity" => tell_identity(endpoint.identity(), answer),
        "stopped" => answer.is(endpoint.is_stopped()),
        "under-way" => answer.is(endpoint.under_way().is_some()),
        _ => return None,
    }
    Some(())
}

/// Answers a question about the configuration, or about the counters.
fn ask_more(endpoint: &Played, words: Words<'_>, answer: &mut Answer) -> bool {
    ask_config(endpoint.config(), words, answer).is_some()
        || ask_counters(endpoint.counters(), words, answer).is_some()
}

/// Does the act with an endpoint that the words say. Whether there is such an act.
pub fn act_with_endpoint(
    endpoint: &mut Played,
    words: Words<'_>,
    alloc: Global,
    answer: &mut Answer,
) -> bool {
    work(endpoint, words, answer).is_some()
        || command(endpoint, words, answer).is_some()
        || pass(endpoint, words, alloc, answer).is_some()
        || ask(endpoint, words, answer).is_some()
        || ask_more(endpoint, words, answer)
}
