//! Command files: the text that is after an act, and the commands that it says.

use crate::disk::tell_command;
use crate::endpoint::{Played, give, tell_ran};
use crate::text::{Answer, Line, Words, whole};
use macs_config::Command;
use macs_edge::{ConfigFault, commands_of};
use std::alloc::Global;
use toml::Table;

fn read(alloc: Global, table: &Table) -> Result<Vec<Command>, ConfigFault> {
    commands_of(alloc, table)
}

/// Reads a text as a command file, and answers how many commands it has, or its fault.
fn read_text(text: &str, commands: &mut Vec<Command>, alloc: Global, answer: &mut Answer) {
    let Ok(table) = toml::table_from_str(alloc, text) else {
        answer.word("no TOML");
        return;
    };
    match read(alloc, &table) {
        Ok(found) => {
            answer.number(found.len() as u64);
            *commands = found;
        }
        Err(fault) => answer.name(&fault),
    }
}

/// `command-file`, and lines of text after it.
fn read_file(
    line: Line<'_>,
    commands: &mut Vec<Command>,
    alloc: Global,
    answer: &mut Answer,
) -> Option<()> {
    let text = line.behind.text(alloc)?;
    read_text(text.as_str(), commands, alloc, answer);
    Some(())
}

/// `file-command PLACE`: a command of the file that was read last, by its place from 1 on.
fn tell(words: &mut Words<'_>, commands: &[Command], answer: &mut Answer) -> Option<()> {
    let place = whole(words.number(), words)?;
    let place = usize::try_from(place.saturating_sub(1)).unwrap_or(usize::MAX);
    match commands.get(place) {
        Some(command) => tell_command(*command, answer),
        None => answer.word("none"),
    }
    Some(())
}

/// Does an act with a command file, and answers it; `None` where there is no such act.
pub fn act(
    line: Line<'_>,
    commands: &mut Vec<Command>,
    alloc: Global,
    answer: &mut Answer,
) -> Option<()> {
    let mut words = line.words();
    if words.rest() == "command-file" {
        return read_file(line, commands, alloc, answer);
    }
    if words.take() == "file-command" {
        return tell(&mut words, commands.as_slice(), answer);
    }
    None
}

/// `apply`: gives the commands of the file that was read last, up to the first that is not kept.
/// How many are kept, and `ok` or why the next one is not.
pub fn apply(
    endpoint: &mut Played,
    words: Words<'_>,
    commands: &[Command],
    answer: &mut Answer,
) -> Option<()> {
    if words.rest() != "apply" {
        return None;
    }
    give_each(endpoint, commands, answer);
    Some(())
}

fn give_each(endpoint: &mut Played, commands: &[Command], answer: &mut Answer) {
    let mut kept = 0_u64;
    for command in commands {
        let told = give(endpoint, *command);
        if told.is_err() {
            answer.number(kept);
            tell_ran(told, answer);
            return;
        }
        kept = kept.saturating_add(1);
    }
    answer.number(kept);
    answer.word("ok");
}
