//! What is asked of a configuration.

use crate::disk::names::{an_of, key_of, sci_of};
use crate::text::{Answer, Words, whole};
use macs_config::{Config, Identity, Protection, RxSa, TxSa};
use macs_fields::{An, Offset};

/// Reports an SCI, and the blocks of either side.
pub fn tell_identity(identity: Identity, answer: &mut Answer) {
    answer.octets(&identity.sci().get());
    answer.number(u64::from(identity.tx_block()));
    answer.number(u64::from(identity.rx_block()));
}

fn tell_encoding(encoding: Option<An>, answer: &mut Answer) {
    match encoding {
        Some(an) => answer.number(u64::from(an.get())),
        None => answer.word("none"),
    }
}

/// Validation, replay protection and its window, the SCI mode, the encoding association, and how
/// many channels exist.
fn tell_settings(config: &Config, answer: &mut Answer) {
    answer.name(&config.validate());
    answer.word(if config.replay().on { "on" } else { "off" });
    answer.number(u64::from(config.replay().window));
    answer.name(&config.sci_mode());
    tell_encoding(config.encoding(), answer);
    answer.number(config.channels().len() as u64);
}

/// The SCIs of the channels, in their order.
fn tell_channels(config: &Config, answer: &mut Answer) {
    for sci in config.channels() {
        answer.octets(&sci.get());
    }
    if answer.is_empty() {
        answer.word("none");
    }
}

fn tell_offset(offset: Offset, answer: &mut Answer) {
    match offset {
        Offset::Zero => answer.number(0),
        Offset::Thirty => answer.number(30),
        Offset::Fifty => answer.number(50),
    }
}

/// The key of a transmit association, and `clear` or the offset from which on User Data are
/// encrypted.
fn tell_tx(sa: Option<TxSa>, answer: &mut Answer) {
    let Some(sa) = sa else {
        answer.word("none");
        return;
    };
    answer.octets(sa.key.as_slice());
    match sa.protection {
        Protection::Integrity => answer.word("clear"),
        Protection::Confidentiality(offset) => tell_offset(offset, answer),
    }
}

/// The key of a receive association, and its offset.
fn tell_rx(sa: Option<RxSa>, answer: &mut Answer) {
    match sa {
        Some(sa) => {
            answer.octets(sa.key.as_slice());
            tell_offset(sa.offset, answer);
        }
        None => answer.word("none"),
    }
}

fn ask_rx(config: &Config, words: &mut Words<'_>, answer: &mut Answer) -> Option<()> {
    let sci = sci_of(words)?;
    tell_rx(config.rx(sci, an_of(words)?), answer);
    Some(())
}

fn ask_spent_rx(config: &Config, words: &mut Words<'_>, answer: &mut Answer) -> Option<()> {
    let sci = sci_of(words)?;
    answer.is(config.is_spent_rx(sci, &key_of(words)?));
    Some(())
}

fn ask_channel(config: &Config, words: &mut Words<'_>, answer: &mut Answer) -> Option<()> {
    answer.is(config.has_channel(sci_of(words)?));
    Some(())
}

fn ask_tx(config: &Config, words: &mut Words<'_>, answer: &mut Answer) -> Option<()> {
    tell_tx(config.tx(an_of(words)?), answer);
    Some(())
}

fn ask_spent_tx(config: &Config, words: &mut Words<'_>, answer: &mut Answer) -> Option<()> {
    answer.is(config.is_spent_tx(&key_of(words)?));
    Some(())
}

/// Answers a question of one word; `None` where there is none.
fn ask_all(config: &Config, question: &str, answer: &mut Answer) -> Option<()> {
    match question {
        "settings" => tell_settings(config, answer),
        "window" => answer.number(u64::from(config.replay().window)),
        "encoding" => tell_encoding(config.encoding(), answer),
        "channels" => tell_channels(config, answer),
        _ => return None,
    }
    Some(())
}

/// Answers a question about a configuration; `None` where there is none.
pub fn ask_config(config: &Config, words: Words<'_>, answer: &mut Answer) -> Option<()> {
    let mut words = words;
    let told = match words.take() {
        "channel" => ask_channel(config, &mut words, answer),
        "tx-association" => ask_tx(config, &mut words, answer),
        "rx-association" => ask_rx(config, &mut words, answer),
        "spent-tx" => ask_spent_tx(config, &mut words, answer),
        "spent-rx" => ask_spent_rx(config, &mut words, answer),
        question => ask_all(config, question, answer),
    };
    whole(told, &words)
}
