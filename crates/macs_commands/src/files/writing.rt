//! A command file, as text.

ghost use Rattle.std.specs.Prelude.{◌≡◌, ◌≤◌, IfOk, codes, string_bytes};
ghost use Rattle.toml.specs.Data.{Members, member, members_depth, no_members};
ghost use Rattle.toml.specs.View.{table_view, view};
ghost use Rattle.macs_commands.specs.Writing.{IsTextOf, SaysCommands, digits};

use crate::files::table_writing::{command_table, is_read, sci_value, with};
use crate::secrets::SecretTable;
use macs_config::Command;
use macs_fields::Sci;
use macs_fields::laws::sci_in_range;
use std::alloc::{AllocError, Global};
use toml::{Table, Value};

/// The command file of these commands for the end with this SCI, as text: it is read back as
/// exactly these, and as for this end. Fails if memory runs out.
pub fn command_file_text(
    alloc: Global,
    sci: Sci,
    commands: &[Command],
) -> Result<String, AllocError>
    ensures { IfOk result (λ text. SaysCommands sci commands.now (string_bytes text)) }
{
    sci_in_range(sci);
    let mut tables = Vec::new(alloc);
    for i in 0..commands.len() {
        let command = commands[i];
        is_read(&command);
        let Ok(table) = command_table(alloc, &command) else {
            return Err(AllocError);
        };
        let Ok(()) = tables.push(Value::from(table)) else {
            return Err(AllocError);
        };
    }
    written(alloc, file_table(alloc, sci, Value::from(tables)))
}

/// The table of a file for the end with this SCI, with this value at `command`.
fn file_table(alloc: Global, sci: Sci, commands: Value) -> Result<Table, AllocError>
    ensures { IfOk result (λ t. table_view t
        ≡ member (codes "command") (view commands) (member (codes "sci") (digits sci) no_members)) }
{
    let file = with(alloc, Ok(Table::new(alloc)), "sci", sci_value(alloc, sci));
    with(alloc, file, "command", Ok(commands))
}

/// The text of a table, if it could be made.
fn written(alloc: Global, file: Result<Table, AllocError>) -> Result<String, AllocError>
    ensures { (members : Members) → IfOk file (λ t. table_view t ≡ members)
        → members_depth members ≤ 80
        → IfOk result (λ text. IsTextOf members (string_bytes text)) }
{
    let Ok(file) = file else {
        return Err(AllocError);
    };
    let file = SecretTable(file);
    match toml::table_to_string(alloc, &file.0) {
        Ok(text) => Ok(text),
        Err(_) => Err(AllocError),
    }
}
