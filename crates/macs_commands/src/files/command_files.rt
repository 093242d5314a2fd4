//! Command files, in TOML.

ghost use Rattle.std.specs.Prelude.{◌≡◌, ◌≢◌, ◌<◌, ◌^◌, length, option_map, IfOk, IfErr, Ok};
ghost use Rattle.std.specs.Prelude.{Err};
ghost use Rattle.toml.specs.View.{items_view, table_view};
ghost use Rattle.macs_commands.specs.CommandFiles.{commands_among};
ghost use Rattle.macs_commands.specs.Tables.{are_tables, count};
ghost use Rattle.macs_commands.specs.CommandFiles.{file_commands, table_command, table_commands};
ghost use Rattle.macs_commands.specs.Lines.{extra_key, key_beside, keys_of};
ghost use Rattle.macs_commands.specs.declared.files.config_fault.ConfigFault.TheVariants.{Memory};

use crate::command_word::CommandWord;
use crate::files::command_table::{command_of, has_key, word};
use crate::files::config_fault::ConfigFault;
use crate::tables::{are_tables, keys, value};
use macs_config::Command;
use std::alloc::Allocator;
use toml::{Table, Value};

/// The commands of a command file, in order. Its only key is `command`, an array of tables; without
/// it there are no commands. Each table has the key `do` and exactly the keys of its line:
///
/// | `do` | keys |
/// |---|---|
/// | `set-validate` | `mode`: "strict" or "check" |
/// | `set-replay` | `on`: boolean; `window`: 0 to 2^32 - 1 |
/// | `set-sci-mode` | `mode`: "explicit", "end-station" or "implicit" |
/// | `tx-install` | `an`, `key`, `start`, `confidential`: boolean, `offset` |
/// | `tx-use`, `tx-remove` | `an` |
/// | `rx-add`, `rx-drop` | `sci` |
/// | `rx-install` | `sci`, `an`, `key`, `start`, `offset` |
/// | `rx-remove` | `sci`, `an` |
///
/// `an` is 0 to 3, `start` 0 to 2^32 - 1, `offset` 0 to 255 octets, `key` a text of 32 or 64 hex
/// digits, `sci` one of 16, of either case. A start of 0 and an invalid offset are accepted here,
/// and refused when the command is applied. Fails with the file's first fault, or with `Memory`;
/// that this happens only when memory runs out is tested, not proved.
pub fn commands_of<A: Allocator>(alloc: A, file: &Table) -> Result<Vec<Command, A>, ConfigFault>
    ensures commands { IfOk result
        (λ commands. file_commands (table_view file.now) ≡ Ok commands.items) }
    ensures fault { IfErr result (λ fault. fault ≢ Memory
        → file_commands (table_view file.now) ≡ Err fault) }
{
    commands_among(alloc, keys(file), file)
}

/// The commands of a file with this many keys for them.
pub(crate) fn commands_among<A: Allocator>(
    alloc: A,
    keys: usize,
    file: &Table,
) -> Result<Vec<Command, A>, ConfigFault>
    ensures commands { IfOk result
        (λ commands. commands_among keys (table_view file.now) ≡ Ok commands.items) }
    ensures fault { IfErr result (λ fault. fault ≢ Memory
        → commands_among keys (table_view file.now) ≡ Err fault) }
{
    let Some(value) = value(file, "command") else {
        if keys == 0 {
            return Ok(Vec::new(alloc));
        }
        return Err(ConfigFault::Shape);
    };
    if keys != 1 {
        return Err(ConfigFault::Shape);
    }
    let Some(tables) = value.as_array() else {
        return Err(ConfigFault::Shape);
    };
    if !are_tables(tables) {
        return Err(ConfigFault::Shape);
    }
    table_commands(alloc, tables)
}

/// The commands of these tables, counting from 1.
fn table_commands<A: Allocator>(alloc: A, tables: &[Value]) -> Result<Vec<Command, A>, ConfigFault>
    requires { length tables.now < 2 ^ 63 }
    ensures commands { IfOk result
        (λ commands. table_commands 1 (items_view tables.now) ≡ Ok commands.items) }
    ensures fault { IfErr result (λ fault. fault ≢ Memory
        → table_commands 1 (items_view tables.now) ≡ Err fault) }
{
    let mut commands = Vec::new(alloc);
    for i in 0..tables.len() {
        let Some(table) = tables[i].as_table() else {
            return Err(ConfigFault::Shape);
        };
        let command = table_command(i + 1, table)?;
        if commands.push(command).is_err() {
            return Err(ConfigFault::Memory);
        }
    }
    Ok(commands)
}

/// The command of table `at`, counting from 1.
fn table_command(at: usize, table: &Table) -> Result<Command, ConfigFault>
    ensures { result ≡ table_command at (table_view table.now) }
{
    let Some(word) = word(table) else {
        return Err(ConfigFault::Word { at });
    };
    match command_of(word, table) {
        Ok(command) => match key_beside(word, table) {
            Some(_) => Err(ConfigFault::Extra { at }),
            None => Ok(command),
        },
        Err(name) => Err(ConfigFault::Key { at, name }),
    }
}

/// The first key of a table, in key order, that a command with this word does not have.
fn key_beside(word: CommandWord, table: &Table) -> Option<&str>
    ensures { option_map (λ key. key.now) result
        ≡ key_beside (keys_of word) (table_view table.now) }
{
    for key in table.keys() {
        if !has_key(word, key.as_str()) {
            return Some(key.as_str());
        }
    }
    None
}

/// The first key of a table that its command does not have. The keys of a table are in octet order.
pub fn extra_key(table: &Table) -> Option<&str>
    ensures { option_map (λ key. key.now) result ≡ extra_key (table_view table.now) }
{
    key_beside(word(table)?, table)
}
