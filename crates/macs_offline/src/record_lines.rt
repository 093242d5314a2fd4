//! The records of a journal by kind, and how many there are of each.

ghost use Rattle.std.specs.Prelude.{◌≡◌, IfOk, length, map, string_bytes};
ghost use Rattle.macs_offline.specs.RecordLines.{record_line, record_word, record_words};
ghost use Rattle.macs_offline.specs.RecordLines.{records_text, records_with};

use macs_record::Record;
use macs_texts::ended;
use std::alloc::{AllocError, Global};

/// The word for a record: the part of a snapshot, the command as spelled in a command file, or a
/// ceiling. It is the same for either key length.
fn record_word(kept: &Record) -> &'static str
    ensures { result.now ≡ record_word kept.now }
{
    match kept {
        Record::Settings { .. } => "settings",
        Record::TxSa { .. } => "tx-sa",
        Record::Channel { .. } => "channel",
        Record::RxSa { .. } => "rx-sa",
        Record::Spent { .. } => "spent",
        Record::SetValidate(_) => "set-validate",
        Record::SetReplay(_) => "set-replay",
        Record::SetSciMode(_) => "set-sci-mode",
        Record::TxInstall { .. } => "tx-install",
        Record::TxUse { .. } => "tx-use",
        Record::TxRemove { .. } => "tx-remove",
        Record::RxAdd { .. } => "rx-add",
        Record::RxDrop { .. } => "rx-drop",
        Record::RxInstall { .. } => "rx-install",
        Record::RxRemove { .. } => "rx-remove",
        Record::TxCeiling { .. } => "tx-ceiling",
        Record::RxCeiling { .. } => "rx-ceiling",
    }
}

/// Each word once, in the order of the record kinds.
fn record_words() -> [&'static str; 17]
    ensures { map (λ word. word.now) result ≡ record_words }
{
    [
        "settings",
        "tx-sa",
        "channel",
        "rx-sa",
        "spent",
        "set-validate",
        "set-replay",
        "set-sci-mode",
        "tx-install",
        "tx-use",
        "tx-remove",
        "rx-add",
        "rx-drop",
        "rx-install",
        "rx-remove",
        "tx-ceiling",
        "rx-ceiling",
    ]
}

/// How many of the records have this word.
fn count_with(records: &[Record], word: &str) -> usize
    ensures { result ≡ length (records_with word.now records.now) }
{
    records
        .iter()
        .filter(|kept| record_word(kept) == word)
        .count()
}

/// The line of a word and how many of the records have it; empty if none has.
fn record_line(alloc: Global, records: &[Record], word: &str) -> Result<String, AllocError>
    ensures { IfOk result (λ text. string_bytes text ≡ record_line records.now word.now) }
{
    let count = count_with(records, word);
    if count == 0 {
        return Ok(String::new(alloc));
    }
    ended(format!(in alloc; "records {word} {count}")?)
}

/// A line for each word that some record has, with the count.
pub fn records_text(alloc: Global, records: &[Record]) -> Result<String, AllocError>
    ensures { IfOk result (λ text. string_bytes text ≡ records_text records.now) }
{
    let mut text = String::new(alloc);
    for word in record_words() {
        text.push_str(record_line(alloc, records, word)?.as_str())?;
    }
    Ok(text)
}
