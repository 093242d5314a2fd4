//! Records of a journal, in words.

use crate::disk::commands::{command_of, is_on, sci_mode_of, validate_of};
use crate::disk::names::{an_of, fingerprint_of, key_of, sci_of};
use crate::text::{Answer, Words};
use macs_aes::KeyOctets;
use macs_config::{Fingerprints, Protection, Replay, Role, RxSa, TxSa};
use macs_fields::Offset;
use macs_journal::Records;
use macs_record::{Ceiling, Record, encode};

/// The record that all words say: a command, or what else a journal keeps.
pub fn record_of(words: &mut Words<'_>) -> Option<Record> {
    let name = words.take();
    let record = match name {
        "settings" => settings_of(words),
        "tx-association" => tx_association_of(words),
        "channel" => channel_of(words),
        "rx-association" => rx_association_of(words),
        "spent" => spent_of(words),
        "tx-ceiling" => tx_ceiling_of(words),
        "rx-ceiling" => rx_ceiling_of(words),
        _ => command_record_of(name, words),
    };
    if words.is_empty() { record } else { None }
}

/// `channel SCI`.
fn channel_of(words: &mut Words<'_>) -> Option<Record> {
    Some(Record::Channel {
        sci: sci_of(words)?,
    })
}

fn command_record_of(name: &str, words: &mut Words<'_>) -> Option<Record> {
    let command = command_of(name, words)?;
    Record::command(&command)
}

/// `settings`, which are those of a new journal, or `settings VALIDATE on WINDOW MODE AN`; no AN
/// for none.
fn settings_of(words: &mut Words<'_>) -> Option<Record> {
    if words.is_empty() {
        return Some(Record::default());
    }
    let validate = validate_of(words.take())?;
    let on = is_on(words.take())?;
    let window = words.short()?;
    let sci_mode = sci_mode_of(words.take())?;
    let encoding = if words.is_empty() {
        None
    } else {
        Some(an_of(words)?)
    };
    Some(Record::Settings {
        validate,
        replay: Replay { on, window },
        sci_mode,
        encoding,
    })
}

fn ceiling_of(words: &mut Words<'_>) -> Option<Ceiling> {
    Ceiling::new(words.number()?)
}

/// A confidentiality offset, by its number of octets.
pub fn offset_of(word: &str) -> Option<Offset> {
    match word {
        "0" => Some(Offset::Zero),
        "30" => Some(Offset::Thirty),
        "50" => Some(Offset::Fifty),
        _ => None,
    }
}

/// `clear`, or the offset from which on User Data are encrypted.
fn protection_of(word: &str) -> Option<Protection> {
    if word == "clear" {
        return Some(Protection::Integrity);
    }
    Some(Protection::Confidentiality(offset_of(word)?))
}

/// `tx-association AN KEY clear CEILING`, with an offset in place of `clear`.
fn tx_association_of(words: &mut Words<'_>) -> Option<Record> {
    let an = an_of(words)?;
    let key = KeyOctets::of(key_of(words)?);
    let protection = protection_of(words.take())?;
    let ceiling = ceiling_of(words)?;
    Some(Record::TxSa {
        an,
        sa: TxSa { key, protection },
        ceiling,
    })
}

/// `rx-association SCI AN KEY OFFSET CEILING`.
fn rx_association_of(words: &mut Words<'_>) -> Option<Record> {
    let sci = sci_of(words)?;
    let an = an_of(words)?;
    let key = KeyOctets::of(key_of(words)?);
    let offset = offset_of(words.take())?;
    let ceiling = ceiling_of(words)?;
    Some(Record::RxSa {
        sci,
        an,
        sa: RxSa { key, offset },
        ceiling,
    })
}

fn tx_ceiling_of(words: &mut Words<'_>) -> Option<Record> {
    let an = an_of(words)?;
    let ceiling = ceiling_of(words)?;
    Some(Record::TxCeiling { an, ceiling })
}

fn rx_ceiling_of(words: &mut Words<'_>) -> Option<Record> {
    let sci = sci_of(words)?;
    let an = an_of(words)?;
    let ceiling = ceiling_of(words)?;
    Some(Record::RxCeiling { sci, an, ceiling })
}

fn role_of(word: &str) -> Option<Role> {
    match word {
        "tx" => Some(Role::Transmit),
        "rx" => Some(Role::Receive),
        _ => None,
    }
}

/// `spent tx FINGERPRINT..` or `spent rx FINGERPRINT..`, each of 64 hex digits.
fn spent_of(words: &mut Words<'_>) -> Option<Record> {
    let role = role_of(words.take())?;
    let mut fingerprints = Fingerprints::new(fingerprint_of(words)?);
    for _ in 0..u64::MAX {
        if words.is_empty() {
            return Some(Record::Spent { role, fingerprints });
        }
        if !fingerprints.push(fingerprint_of(words)?) {
            return None;
        }
    }
    None
}

/// The records that all words say, with commas between them, or `COUNT times RECORD`.
pub fn records_of(words: &mut Words<'_>) -> Option<Records> {
    let mut front = *words;
    if let Some(count) = front.number() {
        if front.take() == "times" {
            return repeated(front, count);
        }
    }
    listed(words.over(words.rest()))
}

fn repeated(words: Words<'_>, count: u64) -> Option<Records> {
    let mut records = Records::new();
    for _ in 0..count {
        let mut one = words;
        records.try_push(record_of(&mut one)?).ok()?;
    }
    Some(records)
}

fn listed(words: Words<'_>) -> Option<Records> {
    let mut records = Records::new();
    let mut rest = words.rest();
    for _ in 0..u64::MAX {
        let Some((one, behind)) = rest.split_once(',') else {
            records.try_push(record_of(&mut words.over(rest))?).ok()?;
            return Some(records);
        };
        records.try_push(record_of(&mut words.over(one))?).ok()?;
        rest = behind;
    }
    None
}

/// Reports a record in one word: `settings` for those of a new journal, a window by its number,
/// others by their kind.
pub fn tell_record(record: &Record, answer: &mut Answer) {
    match record {
        Record::SetReplay(Replay { on: true, window }) => {
            answer.number(u64::from(*window));
        }
        Record::Settings { .. } if encode(record) == encode(&Record::default()) => {
            answer.word("settings");
        }
        _ => tell_kind(record, answer),
    }
}

fn tell_kind(record: &Record, answer: &mut Answer) {
    answer.word("kind");
    answer.number(u64::from(record.kind().number()));
}

/// Reports records, each in a word.
pub fn tell_records(records: &[Record], answer: &mut Answer) {
    for record in records {
        tell_record(record, answer);
    }
}
