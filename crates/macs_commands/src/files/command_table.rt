//! The table of a command: its word at `do`, and its values, key by key in the order of its line.

ghost use Rattle.std.specs.Prelude.{◌≡◌, map};
ghost use Rattle.toml.specs.View.{table_view};
ghost use Rattle.macs_commands.specs.Lines.{command_of, has_key, keys_of, word_in};
ghost use Rattle.macs_commands.specs.declared.command_word.CommandWord.TheVariants as word;

use crate::command_word::CommandWord;
use crate::files::config_fault::KeyName;
use crate::tables::{an, flag, key, number, offset, sci, sci_mode, text, validate};
use macs_config::Command;
use toml::Table;

/// The word of a table.
pub(crate) fn word(table: &Table) -> Option<CommandWord>
    ensures { result ≡ word_in (table_view table.now) }
{
    CommandWord::spelled(text(table, "do")?)
}

/// Whether a key is one of these.
fn is_one_of(key: &str, keys: &[&str]) -> bool
    ensures { result ≡ has_key (map (λ one. one.now) keys.now) key.now }
{
    keys.iter().any(|one| key == *one)
}

/// Whether the table of the command with this word has this key.
pub(crate) fn has_key(word: CommandWord, key: &str) -> bool
    ensures { result ≡ has_key (keys_of word) key.now }
{
    match word {
        CommandWord::SetValidate | CommandWord::SetSciMode => is_one_of(key, &["do", "mode"]),
        CommandWord::SetReplay => is_one_of(key, &["do", "on", "window"]),
        CommandWord::TxInstall => {
            is_one_of(key, &["do", "an", "key", "start", "confidential", "offset"])
        }
        CommandWord::TxUse | CommandWord::TxRemove => is_one_of(key, &["do", "an"]),
        CommandWord::RxAdd | CommandWord::RxDrop => is_one_of(key, &["do", "sci"]),
        CommandWord::RxInstall => is_one_of(key, &["do", "sci", "an", "key", "start", "offset"]),
        CommandWord::RxRemove => is_one_of(key, &["do", "sci", "an"]),
    }
}

/// The command of a table with this word, or the first key that is wrong.
pub(crate) fn command_of(word: CommandWord, table: &Table) -> Result<Command, KeyName>
    ensures { result ≡ command_of word (table_view table.now) }
{
    match word {
        CommandWord::SetValidate => {
            let mode = validate(table).ok_or(KeyName::Mode)?;
            Ok(Command::SetValidate(mode))
        }
        CommandWord::SetReplay => set_replay(table),
        CommandWord::SetSciMode => {
            let mode = sci_mode(table).ok_or(KeyName::Mode)?;
            Ok(Command::SetSciMode(mode))
        }
        CommandWord::TxInstall => tx_install(table),
        CommandWord::TxUse => {
            let an = an(table).ok_or(KeyName::An)?;
            Ok(Command::TxUse { an })
        }
        CommandWord::TxRemove => {
            let an = an(table).ok_or(KeyName::An)?;
            Ok(Command::TxRemove { an })
        }
        CommandWord::RxAdd => {
            let sci = sci(table).ok_or(KeyName::Sci)?;
            Ok(Command::RxAdd { sci })
        }
        CommandWord::RxDrop => {
            let sci = sci(table).ok_or(KeyName::Sci)?;
            Ok(Command::RxDrop { sci })
        }
        CommandWord::RxInstall => rx_install(table),
        CommandWord::RxRemove => rx_remove(table),
    }
}

fn set_replay(table: &Table) -> Result<Command, KeyName>
    ensures { result ≡ command_of word.SetReplay (table_view table.now) }
{
    let on = flag(table, "on").ok_or(KeyName::On)?;
    let window = number(table, "window", u32::MAX).ok_or(KeyName::Window)?;
    Ok(Command::SetReplay { on, window })
}

fn tx_install(table: &Table) -> Result<Command, KeyName>
    ensures { result ≡ command_of word.TxInstall (table_view table.now) }
{
    let an = an(table).ok_or(KeyName::An)?;
    let key = key(table, "key").ok_or(KeyName::Key)?;
    let start = number(table, "start", u32::MAX).ok_or(KeyName::Start)?;
    let confidential = flag(table, "confidential").ok_or(KeyName::Confidential)?;
    let offset = offset(table).ok_or(KeyName::Offset)?;
    Ok(Command::TxInstall {
        an,
        key,
        start,
        confidential,
        offset,
    })
}

fn rx_install(table: &Table) -> Result<Command, KeyName>
    ensures { result ≡ command_of word.RxInstall (table_view table.now) }
{
    let sci = sci(table).ok_or(KeyName::Sci)?;
    let an = an(table).ok_or(KeyName::An)?;
    let key = key(table, "key").ok_or(KeyName::Key)?;
    let start = number(table, "start", u32::MAX).ok_or(KeyName::Start)?;
    let offset = offset(table).ok_or(KeyName::Offset)?;
    Ok(Command::RxInstall {
        sci,
        an,
        key,
        start,
        offset,
    })
}

fn rx_remove(table: &Table) -> Result<Command, KeyName>
    ensures { result ≡ command_of word.RxRemove (table_view table.now) }
{
    let sci = sci(table).ok_or(KeyName::Sci)?;
    let an = an(table).ok_or(KeyName::An)?;
    Ok(Command::RxRemove { sci, an })
}
