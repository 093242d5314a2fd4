//! The operator's commands, in the words of command files; their keys are in the order of
//! OPERATIONS.md, without names.

use crate::disk::names::{an_of, key_of, sci_of};
use crate::text::{Answer, Words};
use macs_aes::Key;
use macs_config::{Command, SciMode, Validate};
use macs_fields::{An, Sci};

/// The command of this word with the words that follow; `None` where there is none.
pub fn command_of(name: &str, words: &mut Words<'_>) -> Option<Command> {
    match name {
        "set-validate" => set_validate_of(words),
        "set-replay" => set_replay_of(words),
        "set-sci-mode" => set_sci_mode_of(words),
        "tx-install" => tx_install_of(words),
        "tx-use" => tx_use_of(words),
        "tx-remove" => tx_remove_of(words),
        _ => rx_command_of(name, words),
    }
}

fn rx_command_of(name: &str, words: &mut Words<'_>) -> Option<Command> {
    match name {
        "rx-add" => rx_add_of(words),
        "rx-drop" => rx_drop_of(words),
        "rx-install" => rx_install_of(words),
        "rx-remove" => rx_remove_of(words),
        _ => None,
    }
}

/// What is done with frames that do not verify, by its word.
pub fn validate_of(word: &str) -> Option<Validate> {
    match word {
        "strict" => Some(Validate::Strict),
        "check" => Some(Validate::Check),
        _ => None,
    }
}

/// How frames name the channel, by its word.
pub fn sci_mode_of(word: &str) -> Option<SciMode> {
    match word {
        "explicit" => Some(SciMode::Explicit),
        "end-station" => Some(SciMode::EndStation),
        "implicit" => Some(SciMode::Implicit),
        _ => None,
    }
}

/// `on` or `off`.
pub fn is_on(word: &str) -> Option<bool> {
    match word {
        "on" => Some(true),
        "off" => Some(false),
        _ => None,
    }
}

fn set_validate_of(words: &mut Words<'_>) -> Option<Command> {
    Some(Command::SetValidate(validate_of(words.take())?))
}

fn set_sci_mode_of(words: &mut Words<'_>) -> Option<Command> {
    Some(Command::SetSciMode(sci_mode_of(words.take())?))
}

fn tx_use_of(words: &mut Words<'_>) -> Option<Command> {
    Some(Command::TxUse { an: an_of(words)? })
}

fn tx_remove_of(words: &mut Words<'_>) -> Option<Command> {
    Some(Command::TxRemove { an: an_of(words)? })
}

fn rx_add_of(words: &mut Words<'_>) -> Option<Command> {
    Some(Command::RxAdd {
        sci: sci_of(words)?,
    })
}

fn rx_drop_of(words: &mut Words<'_>) -> Option<Command> {
    Some(Command::RxDrop {
        sci: sci_of(words)?,
    })
}

/// `set-replay on WINDOW` or `set-replay off WINDOW`.
fn set_replay_of(words: &mut Words<'_>) -> Option<Command> {
    let on = is_on(words.take())?;
    let window = words.short()?;
    Some(Command::SetReplay { on, window })
}

/// `tx-install AN KEY START`, and `clear` or an offset.
fn tx_install_of(words: &mut Words<'_>) -> Option<Command> {
    let an = an_of(words)?;
    let key = key_of(words)?;
    let start = words.short()?;
    let (confidential, offset) = hiding_of(words)?;
    Some(Command::TxInstall {
        an,
        key,
        start,
        confidential,
        offset,
    })
}

/// Whether User Data are encrypted, and after how many octets: all of them where nothing is said.
fn hiding_of(words: &mut Words<'_>) -> Option<(bool, u8)> {
    if words.is_empty() {
        return Some((true, 0));
    }
    if words.rest() == "clear" {
        words.take_rest();
        return Some((false, 0));
    }
    Some((true, words.octet()?))
}

/// `rx-install SCI AN KEY START`, and an offset where it is not 0.
fn rx_install_of(words: &mut Words<'_>) -> Option<Command> {
    let sci = sci_of(words)?;
    let an = an_of(words)?;
    let key = key_of(words)?;
    let start = words.short()?;
    let offset = if words.is_empty() { 0 } else { words.octet()? };
    Some(Command::RxInstall {
        sci,
        an,
        key,
        start,
        offset,
    })
}

fn rx_remove_of(words: &mut Words<'_>) -> Option<Command> {
    let sci = sci_of(words)?;
    Some(Command::RxRemove {
        sci,
        an: an_of(words)?,
    })
}

/// Reports a command in the words that say it; the offset always, after `clear` where nothing is
/// encrypted.
pub fn tell_command(command: Command, answer: &mut Answer) {
    match command {
        Command::SetValidate(validate) => tell_validate(validate, answer),
        Command::SetReplay { on, window } => tell_replay(on, window, answer),
        Command::SetSciMode(mode) => tell_sci_mode(mode, answer),
        Command::TxInstall {
            an,
            key,
            start,
            confidential,
            offset,
        } => {
            tell_number("tx-install", an, answer);
            tell_key(&key, start, answer);
            if !confidential {
                answer.word("clear");
            }
            answer.number(u64::from(offset));
        }
        Command::TxUse { an } => tell_number("tx-use", an, answer),
        Command::TxRemove { an } => tell_number("tx-remove", an, answer),
        _ => tell_rx_command(command, answer),
    }
}

fn tell_rx_command(command: Command, answer: &mut Answer) {
    match command {
        Command::RxAdd { sci } => tell_sci("rx-add", sci, answer),
        Command::RxDrop { sci } => tell_sci("rx-drop", sci, answer),
        Command::RxInstall {
            sci,
            an,
            key,
            start,
            offset,
        } => {
            tell_sci("rx-install", sci, answer);
            answer.number(u64::from(an.get()));
            tell_key(&key, start, answer);
            answer.number(u64::from(offset));
        }
        Command::RxRemove { sci, an } => {
            tell_sci("rx-remove", sci, answer);
            answer.number(u64::from(an.get()));
        }
        _ => answer.word("?"),
    }
}

fn tell_validate(validate: Validate, answer: &mut Answer) {
    answer.word("set-validate");
    match validate {
        Validate::Strict => answer.word("strict"),
        Validate::Check => answer.word("check"),
    }
}

fn tell_replay(on: bool, window: u32, answer: &mut Answer) {
    answer.word("set-replay");
    answer.word(if on { "on" } else { "off" });
    answer.number(u64::from(window));
}

fn tell_sci_mode(mode: SciMode, answer: &mut Answer) {
    answer.word("set-sci-mode");
    match mode {
        SciMode::Explicit => answer.word("explicit"),
        SciMode::EndStation => answer.word("end-station"),
        SciMode::Implicit => answer.word("implicit"),
    }
}

fn tell_key(key: &Key, start: u32, answer: &mut Answer) {
    answer.octets(key.as_slice());
    answer.number(u64::from(start));
}

fn tell_number(word: &str, an: An, answer: &mut Answer) {
    answer.word(word);
    answer.number(u64::from(an.get()));
}

fn tell_sci(word: &str, sci: Sci, answer: &mut Answer) {
    answer.word(word);
    answer.octets(&sci.get());
}
