//! What is done with a store, and what is asked of it.

use crate::disk::commands::command_of;
use crate::disk::device::StoryDisk;
use crate::disk::names::{an_of, pn_of, sci_of};
use crate::disk::questions::{ask_config, tell_identity};
use crate::text::{Answer, Words, whole};
use macs_config::Command;
use macs_fields::{An, Pn, Sci};
use macs_journal::JournalFault;
use macs_record::Ceiling;
use macs_store::{CommitFault, JournalStep, Store};

type Played = Store<StoryDisk>;

/// The end of the packet numbers.
const END: u64 = 4_294_967_296;

/// What is answered where a call asks for a store with nothing under way, or for a ceiling that can
/// rise.
const NOT_NOW: &str = "not now";

fn tell_commit(told: Result<(), CommitFault>, answer: &mut Answer) {
    match told {
        Err(CommitFault::Refused(refusal)) => {
            answer.word("refused");
            answer.name(&refusal);
        }
        _ => answer.done(told),
    }
}

/// Reports how far a step came.
pub fn tell_step(told: Result<JournalStep, JournalFault>, answer: &mut Answer) {
    match told {
        Ok(JournalStep::Idle) => answer.word("idle"),
        Ok(JournalStep::Going) => answer.word("going"),
        Ok(JournalStep::Finished) => answer.word("finished"),
        Err(fault) => answer.name(&fault),
    }
}

fn commit(store: &mut Played, command: &Command, answer: &mut Answer) {
    if store.is_idle() {
        tell_commit(store.commit(command), answer);
    } else {
        answer.word(NOT_NOW);
    }
}

fn start_commit(store: &mut Played, command: &Command, answer: &mut Answer) {
    if store.is_idle() {
        tell_commit(store.start_commit(command), answer);
    } else {
        answer.word(NOT_NOW);
    }
}

/// Gives a command to be kept, or starts it; `None` where the words say none.
fn command(store: &mut Played, words: Words<'_>, answer: &mut Answer) -> Option<()> {
    let mut words = words;
    let name = words.take();
    let is_start = name == "start";
    let first = if is_start { words.take() } else { name };
    let command = whole(command_of(first, &mut words), &words)?;
    if is_start {
        start_commit(store, &command, answer);
    } else {
        commit(store, &command, answer);
    }
    Some(())
}

fn reserve_tx(store: &mut Played, an: An, answer: &mut Answer) {
    if let Some(ceiling) = store.tx_ceiling(an) {
        if ceiling.get() < END && store.is_idle() {
            answer.done(store.reserve_tx(an));
            return;
        }
    }
    answer.word(NOT_NOW);
}

fn start_tx(store: &mut Played, an: An, answer: &mut Answer) {
    if let Some(ceiling) = store.tx_ceiling(an) {
        if ceiling.get() < END && store.is_idle() {
            answer.done(store.start_tx(an));
            return;
        }
    }
    answer.word(NOT_NOW);
}

fn reserve_rx(store: &mut Played, beyond: Beyond, answer: &mut Answer) {
    let Beyond { sci, an, pn } = beyond;
    let block = u64::from(store.identity().rx_block());
    if let Some(ceiling) = store.rx_ceiling(sci, an) {
        let most = u64::from(pn.get()) + block;
        if ceiling.get() < END && ceiling.get() < most && store.is_idle() {
            answer.done(store.reserve_rx(sci, an, pn));
            return;
        }
    }
    answer.word(NOT_NOW);
}

fn start_rx(store: &mut Played, beyond: Beyond, answer: &mut Answer) {
    let Beyond { sci, an, pn } = beyond;
    let block = u64::from(store.identity().rx_block());
    if let Some(ceiling) = store.rx_ceiling(sci, an) {
        let most = u64::from(pn.get()) + block;
        if ceiling.get() < END && ceiling.get() < most && store.is_idle() {
            answer.done(store.start_rx(sci, an, pn));
            return;
        }
    }
    answer.word(NOT_NOW);
}

/// What a receive reservation says: its association, and the packet number that it is to go beyond.
#[derive(Clone, Copy)]
struct Beyond {
    sci: Sci,
    an: An,
    pn: Pn,
}

fn beyond_of(words: &mut Words<'_>) -> Option<Beyond> {
    let sci = sci_of(words)?;
    let an = an_of(words)?;
    let pn = whole(pn_of(words), words)?;
    Some(Beyond { sci, an, pn })
}

/// Makes a reservation, or starts it; `None` where the words say none.
fn reserve(store: &mut Played, words: Words<'_>, answer: &mut Answer) -> Option<()> {
    let mut words = words;
    match words.take() {
        "reserve-tx" => reserve_on_tx(store, &mut words, false, answer),
        "start-tx" => reserve_on_tx(store, &mut words, true, answer),
        "reserve-rx" => reserve_on_rx(store, &mut words, false, answer),
        "start-rx" => reserve_on_rx(store, &mut words, true, answer),
        _ => None,
    }
}

fn reserve_on_tx(
    store: &mut Played,
    words: &mut Words<'_>,
    is_start: bool,
    answer: &mut Answer,
) -> Option<()> {
    let an = whole(an_of(words), words)?;
    if is_start {
        start_tx(store, an, answer);
    } else {
        reserve_tx(store, an, answer);
    }
    Some(())
}

fn reserve_on_rx(
    store: &mut Played,
    words: &mut Words<'_>,
    is_start: bool,
    answer: &mut Answer,
) -> Option<()> {
    let beyond = beyond_of(words)?;
    if is_start {
        start_rx(store, beyond, answer);
    } else {
        reserve_rx(store, beyond, answer);
    }
    Some(())
}

fn tell_ceiling(ceiling: Option<Ceiling>, answer: &mut Answer) {
    match ceiling {
        Some(ceiling) => answer.number(ceiling.get()),
        None => answer.word("none"),
    }
}

fn ask_rx_ceiling(store: &Played, words: &mut Words<'_>, answer: &mut Answer) -> Option<()> {
    let sci = sci_of(words)?;
    tell_ceiling(store.rx_ceiling(sci, an_of(words)?), answer);
    Some(())
}

fn ask_tx_ceiling(store: &Played, words: &mut Words<'_>, answer: &mut Answer) -> Option<()> {
    tell_ceiling(store.tx_ceiling(an_of(words)?), answer);
    Some(())
}

fn step(store: &mut Played, answer: &mut Answer) {
    tell_step(store.step(), answer);
}

fn finish(store: &mut Played, answer: &mut Answer) {
    answer.done(store.finish());
}

fn work(store: &mut Played, words: Words<'_>, answer: &mut Answer) -> Option<()> {
    match words.rest() {
        "step" => step(store, answer),
        "finish" => finish(store, answer),
        _ => return None,
    }
    Some(())
}

/// Answers a question; `None` where there is none.
fn ask(store: &Played, words: Words<'_>, answer: &mut Answer) -> Option<()> {
    let mut words = words;
    let told = match words.take() {
        "tx-ceiling" => ask_tx_ceiling(store, &mut words, answer),
        "rx-ceiling" => ask_rx_ceiling(store, &mut words, answer),
        question => ask_all(store, question, answer),
    };
    whole(told, &words)
}

/// Answers a question of one word; `None` where there is none.
fn ask_all(store: &Played, question: &str, answer: &mut Answer) -> Option<()> {
    match question {
        "idle" => answer.is(store.is_idle()),
        "stopped" => answer.is(store.is_stopped()),
        "identity" => tell_identity(store.identity(), answer),
        _ => return None,
    }
    Some(())
}

/// Does the act with a store that the words say. Whether there is such an act.
pub fn act_with_store(store: &mut Played, words: Words<'_>, answer: &mut Answer) -> bool {
    command(store, words, answer).is_some()
        || reserve(store, words, answer).is_some()
        || work(store, words, answer).is_some()
        || ask(store, words, answer).is_some()
        || ask_config(store.config(), words, answer).is_some()
}
