//! The action of the subcommand that was used.

ghost use Rattle.std.specs.Prelude.{IfSome, IsSome};
ghost use Rattle.clap.specs.Words.{found_of, rows_of, subcommand_rows_of};
ghost use Rattle.macs_cli.specs.Words.{FitsNumbers, FitsOnDisk, FitsOnFrames, Names};
ghost use Rattle.macs_cli.specs.Words.{NamesOnDisk, NamesOnFrames, NamesTool};

use crate::words::action::{Action, DiskAction, FrameAction, ToolAction};
use crate::words::read_ask::ask_in;
use crate::words::read_plan::plan_in;
use crate::words::read_relay::relay_in;
use crate::words::read_subcommands::{
    apply_in, check_in, examine_in, format_in, inspect_in, keep_in, key_in, protect_in, show_in,
    validate_in,
};
use clap::ArgMatches;

/// The action of a subcommand that works on a disk file without frames, with its values.
fn disk_action_in<'a>(name: &str, values: &ArgMatches<'a>) -> Option<DiskAction<'a>>
    ensures read { IfSome result (NamesOnDisk (name.now, rows_of (found_of values.now))) }
    ensures found { (action : DiskAction)
        → NamesOnDisk (name.now, rows_of (found_of values.now)) action
        → FitsOnDisk action → IsSome result }
{
    match name {
        "format" => format_in(values),
        "apply" => apply_in(values),
        "show" => show_in(values),
        "keep" => keep_in(values),
        _ => None,
    }
}

/// The action of a subcommand that gives frames to an endpoint, with its values.
fn frame_action_in<'a>(name: &str, values: &ArgMatches<'a>) -> Option<FrameAction<'a>>
    ensures read { IfSome result (NamesOnFrames (name.now, rows_of (found_of values.now))) }
    ensures found { (action : FrameAction)
        → NamesOnFrames (name.now, rows_of (found_of values.now)) action
        → FitsOnFrames action → IsSome result }
{
    match name {
        "protect" => protect_in(values),
        "validate" => validate_in(values),
        "relay" => relay_in(values),
        _ => None,
    }
}

/// The action of a subcommand that changes no disk, with its values.
fn tool_action_in<'a>(name: &str, values: &ArgMatches<'a>) -> Option<ToolAction<'a>>
    ensures read { IfSome result (NamesTool (name.now, rows_of (found_of values.now))) }
    ensures found { (action : ToolAction)
        → NamesTool (name.now, rows_of (found_of values.now)) action → IsSome result }
{
    match name {
        "ask" => ask_in(values),
        "key" => key_in(values),
        "inspect" => inspect_in(values),
        "check" => check_in(values),
        "plan" => plan_in(values),
        "examine" => examine_in(values),
        "about" => Some(ToolAction::About),
        _ => None,
    }
}

/// The action of the subcommand that was used with its values, `open` if there was none.
pub fn action_in<'a>(matches: &ArgMatches<'a>) -> Option<Action<'a>>
    ensures read { IfSome result (Names (subcommand_rows_of matches.now)) }
    ensures found { (action : Action) → Names (subcommand_rows_of matches.now) action
        → FitsNumbers action → IsSome result }
{
    let Some((name, values)) = matches.subcommand() else {
        return Some(Action::Open);
    };
    if name == "open" {
        return Some(Action::Open);
    }
    if let Some(action) = disk_action_in(name, values) {
        return Some(Action::OnDisk(action));
    }
    if let Some(action) = frame_action_in(name, values) {
        return Some(Action::OnFrames(action));
    }
    Some(Action::Tool(tool_action_in(name, values)?))
}
