//! The only command whose line a text can be.

ghost use Rattle.std.specs.Prelude.{◌≡◌, ℕ, Bool, List};
ghost use Rattle.macs_aes.specs.declared.keys.Key.{Key as AnyKey};
ghost use Rattle.macs_config.specs.declared.command.Command.{Command};
ghost use Rattle.macs_config.specs.declared.command.Command.TheVariants as told;
ghost use Rattle.macs_commands.specs.CommandLines.{IsTold, command_line, fields_of};
ghost use Rattle.macs_commands.specs.Words.{word_of};

use crate::command_word::CommandWord;
use crate::modes::{protection_word, replay_word, sci_mode_of, validate_of};
use crate::requests::cutting::split_word;
use crate::requests::fields::{an, key, number, octet, sci};
use macs_config::{Command, SciMode, Validate};

fn set_replay(text: &str) -> Command
    ensures { (on : Bool) (window : ℕ) → IsTold (told.SetReplay on window)
        → text.now ≡ fields_of (told.SetReplay on window) → result ≡ told.SetReplay on window }
{
    let first = split_word(text);
    Command::SetReplay {
        on: first.word == replay_word(true),
        window: number(first.rest),
    }
}

fn tx_install(text: &str) -> Command
    ensures { (an : ℕ) (key : AnyKey) (start : ℕ) (confidential : Bool) (offset : ℕ)
        → IsTold (told.TxInstall an key start confidential offset)
        → text.now ≡ fields_of (told.TxInstall an key start confidential offset)
        → result ≡ told.TxInstall an key start confidential offset }
{
    let first = split_word(text);
    let second = split_word(first.rest);
    let third = split_word(second.rest);
    let fourth = split_word(third.rest);
    Command::TxInstall {
        an: an(first.word),
        key: key(second.word),
        start: number(third.word),
        confidential: fourth.word == protection_word(true),
        offset: octet(fourth.rest),
    }
}

fn rx_install(text: &str) -> Command
    ensures { (sci : List ℕ) (an : ℕ) (key : AnyKey) (start offset : ℕ)
        → IsTold (told.RxInstall sci an key start offset)
        → text.now ≡ fields_of (told.RxInstall sci an key start offset)
        → result ≡ told.RxInstall sci an key start offset }
{
    let first = split_word(text);
    let second = split_word(first.rest);
    let third = split_word(second.rest);
    let fourth = split_word(third.rest);
    Command::RxInstall {
        sci: sci(first.word),
        an: an(second.word),
        key: key(third.word),
        start: number(fourth.word),
        offset: octet(fourth.rest),
    }
}

fn rx_remove(text: &str) -> Command
    ensures { (sci : List ℕ) (an : ℕ) → IsTold (told.RxRemove sci an)
        → text.now ≡ fields_of (told.RxRemove sci an) → result ≡ told.RxRemove sci an }
{
    let first = split_word(text);
    Command::RxRemove {
        sci: sci(first.word),
        an: an(first.rest),
    }
}

/// The command with this word, from its fields.
fn fields_taken(word: CommandWord, text: &str) -> Command
    ensures { (command : Command) → IsTold command → word ≡ word_of command
        → text.now ≡ fields_of command → result ≡ command }
{
    match word {
        CommandWord::SetValidate => Command::SetValidate(validate_of(text).unwrap_or(
            Validate::Strict,
        )),
        CommandWord::SetReplay => set_replay(text),
        CommandWord::SetSciMode => Command::SetSciMode(sci_mode_of(text).unwrap_or(
            SciMode::Explicit,
        )),
        CommandWord::TxInstall => tx_install(text),
        CommandWord::TxUse => Command::TxUse { an: an(text) },
        CommandWord::TxRemove => Command::TxRemove { an: an(text) },
        CommandWord::RxAdd => Command::RxAdd { sci: sci(text) },
        CommandWord::RxDrop => Command::RxDrop { sci: sci(text) },
        CommandWord::RxInstall => rx_install(text),
        CommandWord::RxRemove => rx_remove(text),
    }
}

/// The command whose line this is, if it is the line of a command; otherwise some command.
pub(crate) fn taken_for(line: &str) -> Command
    ensures { (command : Command) → IsTold command → line.now ≡ command_line command
        → result ≡ command }
{
    let first = split_word(line);
    match CommandWord::spelled(first.word) {
        Some(word) => fields_taken(word, first.rest),
        None => Command::SetValidate(Validate::Strict),
    }
}
