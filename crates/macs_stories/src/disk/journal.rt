//! What is done with a journal, and what is asked of it.

ghost use Rattle.std.specs.Prelude.{IsTrue};
ghost use Rattle.macs_journal.specs.Stepping.{FitsWork};

use crate::disk::device::StoryDisk;
use crate::disk::questions::tell_identity;
use crate::disk::records::{record_of, records_of, tell_record, tell_records};
use crate::disk::store::tell_step;
use crate::text::{Answer, Words};
use macs_config::Identity;
use macs_journal::{Journal, Records, Recovered, Work};
use macs_record::{Format, Record};

type Played = Journal<StoryDisk>;

/// What is answered where a call asks for a journal with nothing under way, or with a free slot.
const NOT_NOW: &str = "not now";

/// A journal, with what an opening found.
#[derive(Drop)]
pub struct JournalLife {
    journal: Played,
    /// The format of its area when it was opened.
    format: Format,
    identity: Identity,
    /// How many of the records are the snapshot's.
    count: u32,
    records: Records,
    /// The work that was started last: its records are lent to the steps.
    work: Work,
}

impl JournalLife {
    /// The journal that was found, with nothing lent.
    pub fn new(found: Recovered<StoryDisk>) -> JournalLife {
        let Recovered {
            journal,
            format,
            identity,
            count,
            records,
        } = found;
        JournalLife {
            journal,
            format,
            identity,
            count,
            records,
            work: Work::Compact(Records::new()),
        }
    }

    /// Does the act that the words say. Whether there is such an act.
    pub fn act(&mut self, words: Words<'_>, answer: &mut Answer) -> bool {
        work(self, words, answer).is_some()
            || make_step(self, words, answer).is_some()
            || ask(self, words, answer).is_some()
            || ask_record(self, words, answer).is_some()
    }

    /// The disk, as it is.
    pub fn into_disk(self) -> StoryDisk {
        let JournalLife { journal, .. } = self;
        journal.into_disk()
    }
}

fn append(journal: &mut Played, record: &Record, answer: &mut Answer) {
    if journal.is_idle() && !journal.is_full() {
        answer.done(journal.append(record));
    } else {
        answer.word(NOT_NOW);
    }
}

fn compact(journal: &mut Played, records: &Records, answer: &mut Answer) {
    if journal.is_idle() && !records.is_empty() {
        answer.done(journal.compact(&records.as_slice()));
    } else {
        answer.word(NOT_NOW);
    }
}

/// Whether a journal has room for this work.
fn fits(journal: &Played, work: &Work) -> bool
    ensures { IsTrue result → FitsWork journal.now.place work.now }
{
    match work {
        Work::Append(_) => !journal.is_full(),
        Work::Compact(records) => !records.is_empty(),
    }
}

/// Starts work.
fn start(journal: &mut Played, work: &Work, answer: &mut Answer) {
    if journal.is_idle() && fits(journal, work) {
        answer.done(journal.start(work));
    } else {
        answer.word(NOT_NOW);
    }
}

/// Makes a step, to which these records are lent.
fn step(journal: &mut Played, lent: &[Record], answer: &mut Answer) {
    if journal.may_lend(&lent) {
        tell_step(journal.step(&lent), answer);
    } else {
        answer.word(NOT_NOW);
    }
}

/// Does an act of work; `None` where there is none.
fn work(life: &mut JournalLife, words: Words<'_>, answer: &mut Answer) -> Option<()> {
    let mut words = words;
    match words.take() {
        "append" => append_one(&mut life.journal, &mut words, answer),
        "compact" => compact_to(&mut life.journal, &mut words, answer),
        "start-append" => start_append(life, &mut words, answer),
        "start-compact" => start_compact(life, &mut words, answer),
        _ => None,
    }
}

fn append_one(journal: &mut Played, words: &mut Words<'_>, answer: &mut Answer) -> Option<()> {
    let record = record_of(words)?;
    append(journal, &record, answer);
    Some(())
}

fn compact_to(journal: &mut Played, words: &mut Words<'_>, answer: &mut Answer) -> Option<()> {
    let records = records_of(words)?;
    compact(journal, &records, answer);
    Some(())
}

fn start_append(life: &mut JournalLife, words: &mut Words<'_>, answer: &mut Answer) -> Option<()> {
    life.work = Work::Append(record_of(words)?);
    start(&mut life.journal, &life.work, answer);
    Some(())
}

fn start_compact(life: &mut JournalLife, words: &mut Words<'_>, answer: &mut Answer) -> Option<()> {
    life.work = Work::Compact(records_of(words)?);
    start(&mut life.journal, &life.work, answer);
    Some(())
}

fn make_step(life: &mut JournalLife, words: Words<'_>, answer: &mut Answer) -> Option<()> {
    if words.rest() != "step" {
        return None;
    }
    match &life.work {
        Work::Append(_) => step(&mut life.journal, &[], answer),
        Work::Compact(records) => step(&mut life.journal, records.as_slice(), answer),
    }
    Some(())
}

/// `record PLACE`: a record that was found, by its place.
fn ask_record(life: &JournalLife, words: Words<'_>, answer: &mut Answer) -> Option<()> {
    let mut words = words;
    if words.take() != "record" {
        return None;
    }
    let place = usize::try_from(words.number()?).ok()?;
    match life.records.get(place) {
        Some(record) => tell_record(record, answer),
        None => answer.word("none"),
    }
    Some(())
}

/// The version that a head of this format has.
fn version(format: Format) -> u64 {
    match format {
        Format::One => 1,
        Format::Two => 2,
    }
}

/// Answers a question; `None` where there is none.
fn ask(life: &JournalLife, words: Words<'_>, answer: &mut Answer) -> Option<()> {
    match words.rest() {
        "idle" => answer.is(life.journal.is_idle()),
        "stopped" => answer.is(life.journal.is_stopped()),
        "full" => answer.is(life.journal.is_full()),
        "identity" => tell_identity(life.identity, answer),
        "version" => answer.number(version(life.format)),
        "snapshot" => answer.number(u64::from(life.count)),
        "count" => answer.number(life.records.len() as u64),
        "records" => tell_records(life.records.as_slice(), answer),
        _ => return None,
    }
    Some(())
}
