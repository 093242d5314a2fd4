//! The words that the program accepts.

ghost use Rattle.std.specs.Prelude.{◌≡◌, IfOk};
ghost use Rattle.clap.specs.Words.{app_of, new_app};
ghost use Rattle.macs_cli.specs.Words.{IsClapCommand, bare_app, macsecd, with_arguments};
ghost use Rattle.macs_cli.specs.Words.{with_subcommands};

use crate::words::arguments::{Kind, argument};
use clap::Command;
use std::alloc::{AllocError, Global};

/// The subcommands, each with its arguments, in order.
const SUBCOMMANDS: &[(&str, &[(&str, Kind)])] = &[
    ("open", &[]),
    (
        "format",
        &[
            ("DISK", Kind::Value),
            ("SCI", Kind::Value),
            ("TX", Kind::Number),
            ("RX", Kind::Number),
            ("block", Kind::Named),
            ("over", Kind::Flag),
        ],
    ),
    ("apply", &[("DISK", Kind::Value), ("FILE", Kind::Value)]),
    ("show", &[("DISK", Kind::Value)]),
    (
        "protect",
        &[
            ("DISK", Kind::Value),
            ("INPUT", Kind::Value),
            ("OUTPUT", Kind::Value),
            ("all", Kind::Flag),
        ],
    ),
    (
        "validate",
        &[
            ("DISK", Kind::Value),
            ("INPUT", Kind::Value),
            ("OUTPUT", Kind::Value),
            ("all", Kind::Flag),
            ("each", Kind::Flag),
        ],
    ),
    (
        "relay",
        &[
            ("DISK", Kind::Value),
            ("OWN1", Kind::Value),
            ("PEER1", Kind::Value),
            ("OWN2", Kind::Value),
            ("PEER2", Kind::Value),
            ("turns", Kind::Count),
            ("wait", Kind::Wait),
            ("buffer", Kind::Room),
            ("control", Kind::Named),
            ("metrics", Kind::Named),
            ("keeper", Kind::Named),
        ],
    ),
    ("keep", &[("DISK", Kind::Value), ("SOCKET", Kind::Value)]),
    (
        "ask",
        &[
            ("PATH", Kind::Value),
            ("WORD", Kind::Value),
            ("FILE", Kind::Last),
            ("json", Kind::Flag),
        ],
    ),
    ("key", &[("long", Kind::Flag)]),
    ("inspect", &[("INPUT", Kind::Value)]),
    ("check", &[("FILE", Kind::Value), ("DISK", Kind::Last)]),
    (
        "plan",
        &[
            ("FILE", Kind::Value),
            ("END", Kind::Value),
            ("STAGE", Kind::Value),
        ],
    ),
    ("examine", &[("DISK", Kind::Value), ("json", Kind::Flag)]),
    ("about", &[]),
];

/// The program's words without subcommands. They begin after its name; clap's own help and version
/// flags and its help subcommand are off.
fn bare_words<'a>(alloc: Global) -> Command<'a>
    ensures { app_of result ≡ bare_app }
{
    Command::new(alloc, "macsecd")
        .no_binary_name(true)
        .disable_help_flag(true)
        .disable_help_subcommand(true)
        .disable_version_flag(true)
}

/// The words of a subcommand with these arguments.
fn subcommand<'a>(
    alloc: Global,
    name: &'a str,
    arguments: &'a [(&'a str, Kind)],
) -> Result<Command<'a>, AllocError>
    ensures { IfOk result (λ command.
        IsClapCommand command (with_arguments (new_app name.entry.now) arguments.entry.now)) }
{
    let mut words = Command::new(alloc, name);
    for i in 0..arguments.len() {
        let (name, kind) = arguments[i];
        words = words.arg(argument(alloc, name, kind))?;
    }
    Ok(words)
}

/// These words with more subcommands.
fn with_subcommands<'a>(
    alloc: Global,
    words: Command<'a>,
    subcommands: &'a [(&'a str, &'a [(&'a str, Kind)])],
) -> Result<Command<'a>, AllocError>
    ensures { IfOk result (λ command.
        app_of command ≡ with_subcommands (app_of words.entry) subcommands.entry.now) }
{
    let mut words = words;
    for i in 0..subcommands.len() {
        let (name, arguments) = subcommands[i];
        words = words.subcommand(subcommand(alloc, name, arguments)?)?;
    }
    Ok(words)
}

/// The words that the program accepts.
pub fn known_words<'a>(alloc: Global) -> Result<Command<'a>, AllocError>
    ensures { IfOk result (λ command. app_of command ≡ macsecd) }
{
    with_subcommands(alloc, bare_words(alloc), SUBCOMMANDS)
}
