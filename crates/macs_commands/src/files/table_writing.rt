//! The tables of commands, as they are written to a command file.

ghost use Rattle.std.specs.Prelude.{◌≡◌, IfOk, codes, Ok, ℕ};
ghost use Rattle.toml.specs.Data.{Data, Members, no_members, string, boolean, member};
ghost use Rattle.toml.specs.View.{table_view, view};
ghost use Rattle.macs_aes.specs.Keys.{HasItsLength, octets_of_key};
ghost use Rattle.macs_commands.specs.CommandFiles.{table_command};
ghost use Rattle.macs_commands.specs.CommandLines.{HasItsKey};
ghost use Rattle.macs_commands.specs.Words.{word_text};
ghost use Rattle.macs_commands.specs.Writing.{digits, number, put_member, table_of};

use crate::command_word::CommandWord;
use crate::modes::{sci_mode_word, validate_word};
use crate::secrets::digits_of;
use macs_aes::Key;
use macs_config::Command;
use macs_config::laws::command_in_range;
use macs_fields::{An, Sci};
use std::alloc::{AllocError, Global};
use toml::{Table, Value};

/// A table with one more value, at a key. Fails if the table or the value could not be made, or
/// memory runs out.
pub(crate) fn with(
    alloc: Global,
    table: Result<Table, AllocError>,
    key: &str,
    value: Result<Value, AllocError>,
) -> Result<Table, AllocError>
    ensures { (members : Members) (seen : Data) → IfOk table (λ t. table_view t ≡ members)
        → IfOk value (λ v. view v ≡ seen)
        → IfOk result (λ t. table_view t ≡ put_member key.now seen members) }
{
    let Ok(mut table) = table else {
        return Err(AllocError);
    };
    let Ok(value) = value else {
        return Err(AllocError);
    };
    let Ok(key) = String::from_str(alloc, key) else {
        return Err(AllocError);
    };
    match table.insert(key, value) {
        Ok(_) => Ok(table),
        Err(_) => Err(AllocError),
    }
}

/// A table of a command that holds only its word.
fn with_word(alloc: Global, word: CommandWord) -> Result<Table, AllocError>
    ensures { IfOk result
        (λ t. table_view t ≡ member (codes "do") (string (word_text word)) no_members) }
{
    let text = Value::string(alloc, word.text());
    with(alloc, Ok(Table::new(alloc)), "do", text)
}

/// A number.
fn number(n: u32) -> Result<Value, AllocError>
    ensures { IfOk result (λ v. view v ≡ number n) }
{
    Ok(Value::from(n))
}

/// An association number.
fn an_value(an: An) -> Result<Value, AllocError>
    ensures { IfOk result (λ v. view v ≡ number an) }
{
    number(u32::from(an.get()))
}

/// A flag.
fn flag(on: bool) -> Result<Value, AllocError>
    ensures { IfOk result (λ v. view v ≡ boolean on) }
{
    Ok(Value::from(on))
}

/// Octets, as hex digits.
fn digits(alloc: Global, octets: &[u8]) -> Result<Value, AllocError>
    ensures { IfOk result (λ v. view v ≡ digits octets.now) }
{
    match digits_of(alloc, octets) {
        Ok(text) => Ok(Value::from(text)),
        Err(_) => Err(AllocError),
    }
}

/// A key, as hex digits.
fn key_value(alloc: Global, key: &Key) -> Result<Value, AllocError>
    ensures { IfOk result (λ v. view v ≡ digits (octets_of_key key.now)) }
{
    digits(alloc, key.as_slice())
}

/// An SCI, as hex digits.
pub(crate) fn sci_value(alloc: Global, sci: Sci) -> Result<Value, AllocError>
    ensures { IfOk result (λ v. view v ≡ digits sci) }
{
    digits(alloc, &sci.get())
}

/// A key has a valid length.
fn key_has_its_length(key: &Key)
    ensures { HasItsLength key.now }
{
    let _octets = key.as_slice();
}

/// The key of an install has a valid length.
fn has_its_key(command: &Command)
    ensures { HasItsKey command.now }
{
    match *command {
        Command::TxInstall { key, .. } | Command::RxInstall { key, .. } => key_has_its_length(&key),
        _ => {}
    }
}

/// The table of a command is read as that command.
pub(crate) fn is_read(command: &Command)
    ensures { (at : ℕ) → table_command at (table_of command.now) ≡ Ok command.now }
{
    command_in_range(command);
    has_its_key(command);
}

/// The table of a command.
pub(crate) fn command_table(alloc: Global, command: &Command) -> Result<Table, AllocError>
    ensures { IfOk result (λ t. table_view t ≡ table_of command.now) }
{
    let table = with_word(alloc, CommandWord::of(command));
    match *command {
        Command::SetValidate(mode) => {
            let mode = Value::string(alloc, validate_word(mode));
            with(alloc, table, "mode", mode)
        }
        Command::SetReplay { on, window } => {
            let table = with(alloc, table, "on", flag(on));
            with(alloc, table, "window", number(window))
        }
        Command::SetSciMode(mode) => {
            let mode = Value::string(alloc, sci_mode_word(mode));
            with(alloc, table, "mode", mode)
        }
        Command::TxInstall {
            an,
            key,
            start,
            confidential,
            offset,
        } => {
            let table = with(alloc, table, "an", an_value(an));
            let table = with(alloc, table, "key", key_value(alloc, &key));
            let table = with(alloc, table, "start", number(start));
            let table = with(alloc, table, "confidential", flag(confidential));
            with(alloc, table, "offset", number(u32::from(offset)))
        }
        Command::TxUse { an } => with(alloc, table, "an", an_value(an)),
        Command::TxRemove { an } => with(alloc, table, "an", an_value(an)),
        Command::RxAdd { sci } => with(alloc, table, "sci", sci_value(alloc, sci)),
        Command::RxDrop { sci } => with(alloc, table, "sci", sci_value(alloc, sci)),
        Command::RxInstall {
            sci,
            an,
            key,
            start,
            offset,
        } => {
            let table = with(alloc, table, "sci", sci_value(alloc, sci));
            let table = with(alloc, table, "an", an_value(an));
            let table = with(alloc, table, "key", key_value(alloc, &key));
            let table = with(alloc, table, "start", number(start));
            with(alloc, table, "offset", number(u32::from(offset)))
        }
        Command::RxRemove { sci, an } => {
            let table = with(alloc, table, "sci", sci_value(alloc, sci));
            with(alloc, table, "an", an_value(an))
        }
    }
}
