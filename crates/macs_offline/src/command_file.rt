//! The contents of a command file, or its first fault.

ghost use Rattle.std.specs.Prelude.{◌≡◌, ◌≢◌, ◌⊎◌, ℕ, List, option_map, string_bytes};
ghost use Rattle.std.specs.Prelude.{IfErr, IfOk, IfSome, Ok, Some};
ghost use Rattle.toml.specs.Data.{Members};
ghost use Rattle.toml.specs.View.{table_view};
ghost use Rattle.toml.specs.Parse.{parse_document};
ghost use Rattle.macs_commands.specs.Ends.{end_commands, end_in};
ghost use Rattle.macs_commands.specs.declared.files.config_fault.ConfigFault.TheVariants as config;
ghost use Rattle.macs_commands.specs.declared.files.ends.CommandFileFault.TheVariants as told;
ghost use Rattle.macs_offline.specs.Applying.{SaidByFile, SaysCommands};
ghost use Rattle.macs_offline.specs.Checking.{ComplainsOfFile, HasFault, IsSaidOfFile};
ghost use Rattle.macs_offline.specs.Checking.{IsSaidOfText, command_at, extra_key_at, fault_text};
ghost use Rattle.macs_offline.specs.Checking.{file_fault_text, key_fault, key_reason, key_word};
ghost use Rattle.macs_offline.specs.Checking.{lacks};
ghost use Rattle.macs_cli.specs.Reasons.{Complains, IsUnread};

use crate::shown_keys::shown_key;
use crate::toml_place::failure_of_toml;
use macs_cli::{Failure, failure_at, failure_saying, mode_of};
use macs_commands::secrets::{SecretOctets, SecretTable};
use macs_commands::{
    CommandFile, CommandFileFault, ConfigFault, KeyName, command_file, extra_key, value,
};
use std::alloc::{AllocError, Global};
use std::fs;
use std::io::Read;
use std::rt::Files;
use toml::Table;

/// The longest command file, in octets.
pub const MAX_FILE: usize = 1_048_576;

/// How many octets of a file are read: one more than the limit, so that a longer file is detected.
pub const MAX_READ: usize = MAX_FILE + 1;

/// A key of a command, as it is spelled.
fn key_word(name: KeyName) -> &'static str
    ensures { result.now ≡ key_word name }
{
    match name {
        KeyName::Mode => "mode",
        KeyName::On => "on",
        KeyName::Window => "window",
        KeyName::An => "an",
        KeyName::Key => "key",
        KeyName::Start => "start",
        KeyName::Confidential => "confidential",
        KeyName::Offset => "offset",
        KeyName::Sci => "sci",
    }
}

/// What the value of a key should be and is not.
fn key_reason(name: KeyName) -> &'static str
    ensures { result.now ≡ key_reason name }
{
    match name {
        KeyName::Mode => "not a mode of this command",
        KeyName::On => "not true or false",
        KeyName::Window => "not 0 to 4294967295",
        KeyName::An => "not 0 to 3",
        KeyName::Key => "not 32 or 64 hex digits",
        KeyName::Start => "not 0 to 4294967295",
        KeyName::Confidential => "not true or false",
        KeyName::Offset => "not 0 to 255",
        KeyName::Sci => "not 16 hex digits",
    }
}

/// The table of command `at` of a file.
fn command_at(file: &Table, at: usize) -> Option<&Table>
    ensures { option_map (λ t. table_view t.now) result ≡ command_at (table_view file.now) at }
{
    match value(file, "command") {
        Some(commands) => match commands.get(at.saturating_sub(1)) {
            Some(command) => command.as_table(),
            None => None,
        },
        None => None,
    }
}

/// Whether command `at` of a file lacks this key.
fn lacks(file: &Table, at: usize, name: KeyName) -> bool
    ensures { result ≡ lacks (table_view file.now) at name }
{
    match command_at(file, at) {
        Some(command) => value(command, key_word(name)).is_none(),
        None => false,
    }
}

/// What is wrong with a key of command `at` of a file.
fn key_fault(file: &Table, at: usize, name: KeyName) -> &'static str
    ensures { result.now ≡ key_fault (table_view file.now) at name }
{
    if lacks(file, at, name) {
        "missing"
    } else {
        key_reason(name)
    }
}

/// The first unknown key of command `at` of a file, empty if there is none.
fn extra_key_at(file: &Table, at: usize) -> &str
    ensures { result.now ≡ extra_key_at (table_view file.now) at }
{
    match command_at(file, at) {
        Some(command) => match extra_key(command) {
            Some(key) => key,
            None => "",
        },
        None => "",
    }
}

/// The message about an unknown key of command `at` of a file.
fn extra_text(alloc: Global, file: &Table, at: usize) -> Result<String, AllocError>
    ensures { IfOk result
        (λ text. string_bytes text ≡ fault_text (table_view file.now) (config.Extra at)) }
{
    let key = shown_key(alloc, extra_key_at(file, at))?;
    format!(in alloc; "command {at} {key}: not a key of this command")
}

/// The message about the first fault of the commands of a file: its place, key and reason.
fn fault_text(alloc: Global, file: &Table, fault: ConfigFault) -> Result<String, AllocError>
    ensures { IfOk result (λ text. string_bytes text ≡ fault_text (table_view file.now) fault) }
{
    match fault {
        ConfigFault::Shape => {
            String::from_str(alloc, "command file: not sci and tables [[command]] alone")
        }
        ConfigFault::Word { at } => format!(in alloc; "command {at} do: not a command"),
        ConfigFault::Key { at, name } => {
            let key = key_word(name);
            let reason = key_fault(file, at, name);
            format!(in alloc; "command {at} {key}: {reason}")
        }
        ConfigFault::Extra { at } => extra_text(alloc, file, at),
        ConfigFault::Memory => String::from_str(alloc, "memory"),
    }
}

/// The failure for the first fault of the commands of a file: its message, or `Memory`.
fn failure_of_cause(alloc: Global, file: &Table, cause: ConfigFault) -> Failure
    ensures { Complains (λ t. (cause ≢ config.Memory)
        × (t ≡ fault_text (table_view file.now) cause)) result }
{
    match cause {
        ConfigFault::Memory => Failure::Memory,
        _ => failure_saying(fault_text(alloc, file, cause)),
    }
}

/// The failure for the first fault of a command file: its message, or `Memory`.
fn failure_of_fault(alloc: Global, file: &Table, fault: CommandFileFault) -> Failure
    ensures { Complains (λ t. (fault ≢ told.Commands config.Memory)
        × (t ≡ file_fault_text (table_view file.now) fault)) result }
{
    match fault {
        CommandFileFault::Commands(cause) => failure_of_cause(alloc, file, cause),
        CommandFileFault::Sci => {
            let text = String::from_str(alloc, "command file sci: not 16 hex digits");
            failure_saying(text)
        }
    }
}

/// The contents of a TOML table.
fn commands_in_table(alloc: Global, table: &Table) -> Result<CommandFile<Global>, Failure>
    ensures named { IfOk result (λ told. end_in (table_view table.now) ≡ Ok told.end) }
    ensures said { IfOk result
        (λ told. end_commands (table_view table.now) ≡ Ok told.commands.items) }
    ensures fault { (text : List ℕ) → parse_document text ≡ Some (table_view table.now)
        → IfErr result (Complains (HasFault text)) }
{
    match command_file(alloc, table) {
        Ok(told) => Ok(told),
        Err(fault) => Err(failure_of_fault(alloc, table, fault)),
    }
}

/// The contents of a text.
fn commands_in_text(alloc: Global, text: &str) -> Result<CommandFile<Global>, Failure>
    ensures said { IfOk result (λ told. (members : Members)
        × (parse_document text.now ≡ Some members) × (end_in members ≡ Ok told.end)
        × (end_commands members ≡ Ok told.commands.items)) }
    ensures fault { IfErr result (Complains (IsSaidOfText text.now)) }
{
    match toml::table_from_str(alloc, text) {
        Ok(table) => commands_in_table(alloc, &SecretTable(table).0),
        Err(error) => Err(failure_of_toml(alloc, "command file", text, &error)),
    }
}

/// The contents of a command file.
fn commands_said(alloc: Global, octets: &[u8]) -> Result<CommandFile<Global>, Failure>
    ensures said { IfOk result (λ told. SaysCommands octets.now told.end told.commands.items) }
    ensures fault { IfErr result (Complains (IsSaidOfFile octets.now)) }
{
    if octets.len() > MAX_FILE {
        let text = String::from_str(alloc, "command file: more than 1048576 octets");
        return Err(failure_saying(text));
    }
    let Ok(text) = str::from_utf8(octets) else {
        let text = String::from_str(alloc, "command file: not UTF-8");
        return Err(failure_saying(text));
    };
    commands_in_text(alloc, text)
}

/// The contents of an open command file with this name, of which no more is read than the limit
/// needs. Fails with `Said`, with the reason if a read fails, else with the first fault; or with
/// `Memory`.
fn commands_read<R: Read>(
    alloc: Global,
    name: &str,
    file: &mut R,
) -> Result<CommandFile<Global>, Failure>
    ensures said { IfOk result (λ told. IfSome (R.remaining file.old)
        (λ octets. SaysCommands octets told.end told.commands.items)) }
    ensures spelled { IfOk result
        (λ told. (octets : List ℕ) × SaysCommands octets told.end told.commands.items) }
    ensures fault { IfErr result (λ failure. IsUnread name.now failure
        ⊎ IfSome (R.remaining file.old) (λ octets. Complains (IsSaidOfFile octets) failure)) }
    ensures ended { IfErr result (λ failure. IsUnread name.now failure
        ⊎ ((octets : List ℕ) × Complains (IsSaidOfFile octets) failure)) }
{
    let mut octets = SecretOctets(Vec::with_capacity(alloc, MAX_READ)?);
    match file.take(MAX_READ as u64).read_to_end(&mut octets.0) {
        Ok(_) => commands_said(alloc, octets.0.as_slice()),
        Err(error) => Err(failure_at(alloc, "commands", name, error)),
    }
}

/// The contents of a command file, whose mode is stored in `mode`. Fails with `Said`, with the
/// reason if the file cannot be opened or read, else with its first fault; or with `Memory`.
pub fn checked_commands<T: Files>(
    rt: &T,
    alloc: Global,
    path: &str,
    mode: &mut Option<u32>,
) -> Result<CommandFile<Global>, Failure>
    // A file was opened, and these are its contents.
    ensures said { IfOk result
        (λ told. SaidByFile T.File.remaining told.end told.commands.items) }
    ensures spelled { IfOk result
        (λ told. (octets : List ℕ) × SaysCommands octets told.end told.commands.items) }
    ensures ended { IfErr result (λ failure. IsUnread path.now failure
        ⊎ ((octets : List ℕ) × Complains (IsSaidOfFile octets) failure
        × ((failure ≡ Failure.Memory) ⊎ ComplainsOfFile IsSaidOfFile T.File.remaining failure))) }
{
    match fs::open(rt, path) {
        Ok(mut file) => {
            *mode = mode_of(&file);
            commands_read(alloc, path, &mut file)
        }
        Err(error) => Err(failure_at(alloc, "commands", path, error)),
    }
}

/// The contents of a command file. Fails as `checked_commands` does.
pub fn commands_told<T: Files>(
    rt: &T,
    alloc: Global,
    path: &str,
) -> Result<CommandFile<Global>, Failure>
    ensures said { IfOk result
        (λ told. SaidByFile T.File.remaining told.end told.commands.items) }
    ensures ended { IfErr result (λ failure. IsUnread path.now failure
        ⊎ ((octets : List ℕ) × Complains (IsSaidOfFile octets) failure)) }
{
    let mut mode = None;
    checked_commands(rt, alloc, path, &mut mode)
}

/// The contents of a command file that is applied. Fails with `Memory` if the system or the program
/// runs out of memory, and with `Commands` if the file cannot be opened or read, or has a fault.
pub fn commands_of_file<T: Files>(
    rt: &T,
    alloc: Global,
    path: &str,
) -> Result<CommandFile<Global>, Failure>
    // A file was opened, and these are its contents.
    ensures said { IfOk result
        (λ told. SaidByFile T.File.remaining told.end told.commands.items) }
    ensures spelled { IfOk result
        (λ told. (octets : List ℕ) × SaysCommands octets told.end told.commands.items) }
    ensures failed { IfErr result
        (λ failure. (failure ≡ Failure.Memory) ⊎ (failure ≡ Failure.Commands)) }
{
    let mut mode = None;
    match checked_commands(rt, alloc, path, &mut mode) {
        Ok(told) => Ok(told),
        Err(Failure::Memory) => Err(Failure::Memory),
        Err(_) => Err(Failure::Commands), // `check` says why.
    }
}
