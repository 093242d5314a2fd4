//! Command files that may name the end of a link for which they are meant.

ghost use Rattle.std.specs.Prelude.{◌≡◌, ◌≢◌, IfOk, IfErr, Ok};
ghost use Rattle.toml.specs.View.{table_view};
ghost use Rattle.macs_commands.specs.Ends.{HasFileFault, end_commands, end_in, keys_beside};
ghost use Rattle.macs_commands.specs.declared.files.config_fault.ConfigFault.TheVariants as fault;

use crate::files::command_files::commands_among;
use crate::files::config_fault::ConfigFault;
use crate::tables::{keys, sci, value};
use macs_config::Command;
use macs_fields::Sci;
use std::alloc::Allocator;
use toml::Table;

/// The contents of a command file.
#[derive(Drop)]
pub struct CommandFile<A: Allocator> {
    /// The SCI of the end that it is for, if it names one.
    pub end: Option<Sci>,
    /// Its commands, in order.
    pub commands: Vec<Command, A>,
}

/// The first fault of a command file that may name its end. `Sci` comes before all others.
#[derive(Clone, Copy, Debug, PartialEq, Eq)]
pub enum CommandFileFault {
    /// The value at the key `sci` is not a text of 16 hex digits.
    Sci,
    /// This is the first fault of its commands.
    Commands(ConfigFault),
}

/// The SCI of the end that a file is for, if it names one.
fn end_in(file: &Table) -> Result<Option<Sci>, CommandFileFault>
    ensures { result ≡ end_in (table_view file.now) }
{
    match value(file, "sci") {
        Some(_) => match sci(file) {
            Some(sci) => Ok(Some(sci)),
            None => Err(CommandFileFault::Sci),
        },
        None => Ok(None),
    }
}

/// How many keys a file has besides `sci`.
fn keys_beside(file: &Table) -> usize
    ensures { result ≡ keys_beside (table_view file.now) }
{
    match value(file, "sci") {
        Some(_) => keys(file).saturating_sub(1),
        None => keys(file),
    }
}

/// The contents of a command file that may name the end that it is for: at the key `sci`, a text of
/// 16 hex digits of either case. Without it the file is for any end. Everything else is read as by
/// `commands_of`. Fails with the file's first fault, or with `Memory`.
pub fn command_file<A: Allocator>(
    alloc: A,
    file: &Table,
) -> Result<CommandFile<A>, CommandFileFault>
    ensures end { IfOk result (λ told. end_in (table_view file.now) ≡ Ok told.end) }
    ensures commands { IfOk result
        (λ told. end_commands (table_view file.now) ≡ Ok told.commands.items) }
    ensures fault { IfErr result (λ cause. cause ≢ CommandFileFault.Commands fault.Memory
        → HasFileFault (table_view file.now) cause) }
{
    let end = end_in(file)?;
    match commands_among(alloc, keys_beside(file), file) {
        Ok(commands) => Ok(CommandFile { end, commands }),
        Err(cause) => Err(CommandFileFault::Commands(cause)),
    }
}
