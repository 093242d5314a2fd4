//! `plan` with its values.

ghost use Rattle.std.specs.Prelude.{◌≡◌, IfSome, IsSome, codes, option_and_then};
ghost use Rattle.clap.specs.Words.{first_of, found_of, rows_of};
ghost use Rattle.macs_cli.specs.Words.{NamesTool, end_named, stage_named};

use crate::words::action::ToolAction;
use crate::words::read_values::text_in;
use clap::ArgMatches;
use macs_commands::links::{End, Stage};

/// The end of a link with this name.
fn end_named(word: &str) -> Option<End>
    ensures { result ≡ end_named word.now }
{
    match word {
        "left" => Some(End::Left),
        "right" => Some(End::Right),
        _ => None,
    }
}

/// The stage of its keys with this name.
fn stage_named(word: &str) -> Option<Stage>
    ensures { result ≡ stage_named word.now }
{
    match word {
        "first" => Some(Stage::First),
        "receive" => Some(Stage::Receive),
        "send" => Some(Stage::Send),
        "remove" => Some(Stage::Remove),
        _ => None,
    }
}

/// The end of `plan`: `None` if its word is invalid.
fn end_in(values: &ArgMatches) -> Option<End>
    ensures { result
        ≡ option_and_then end_named (first_of (codes "END") (rows_of (found_of values.now))) }
{
    end_named(text_in(values, "END")?)
}

/// The stage of `plan`: `None` if its word is invalid.
fn stage_in(values: &ArgMatches) -> Option<Stage>
    ensures { result
        ≡ option_and_then stage_named (first_of (codes "STAGE") (rows_of (found_of values.now))) }
{
    stage_named(text_in(values, "STAGE")?)
}

/// `plan` with its values.
pub fn plan_in<'a>(values: &ArgMatches<'a>) -> Option<ToolAction<'a>>
    ensures read { IfSome result
        (NamesTool (codes "plan", rows_of (found_of values.now))) }
    ensures found { (action : ToolAction)
        → NamesTool (codes "plan", rows_of (found_of values.now)) action
        → IsSome result }
{
    let file = text_in(values, "FILE")?;
    let end = end_in(values)?;
    let stage = stage_in(values)?;
    Some(ToolAction::Plan { file, end, stage })
}
