//! Subcommands with their values, except `relay`, `ask` and `plan`.

ghost use Rattle.std.specs.Prelude.{IfSome, IsSome, codes};
ghost use Rattle.clap.specs.Words.{found_of, rows_of};
ghost use Rattle.macs_cli.specs.Words.{FitsOnDisk, NamesOnDisk, NamesOnFrames, NamesTool};

use crate::words::action::{DiskAction, FrameAction, ToolAction};
use crate::words::read_values::{is_flagged, number_in, text_in};
use clap::ArgMatches;

/// `format` with its values.
pub fn format_in<'a>(values: &ArgMatches<'a>) -> Option<DiskAction<'a>>
    ensures read { IfSome result
        (NamesOnDisk (codes "format", rows_of (found_of values.now))) }
    ensures found { (action : DiskAction)
        → NamesOnDisk (codes "format", rows_of (found_of values.now)) action
        → FitsOnDisk action → IsSome result }
{
    let disk = text_in(values, "DISK")?;
    let sci = text_in(values, "SCI")?;
    let tx_block = number_in(values, "TX")?;
    let rx_block = number_in(values, "RX")?;
    Some(DiskAction::Format {
        disk,
        sci,
        tx_block,
        rx_block,
        block: text_in(values, "block"),
        is_over: is_flagged(values, "over"),
    })
}

/// `apply` with its values.
pub fn apply_in<'a>(values: &ArgMatches<'a>) -> Option<DiskAction<'a>>
    ensures read { IfSome result
        (NamesOnDisk (codes "apply", rows_of (found_of values.now))) }
    ensures found { (action : DiskAction)
        → NamesOnDisk (codes "apply", rows_of (found_of values.now)) action
        → IsSome result }
{
    let disk = text_in(values, "DISK")?;
    let file = text_in(values, "FILE")?;
    Some(DiskAction::Apply { disk, file })
}

/// `show` with its value.
pub fn show_in<'a>(values: &ArgMatches<'a>) -> Option<DiskAction<'a>>
    ensures read { IfSome result
        (NamesOnDisk (codes "show", rows_of (found_of values.now))) }
    ensures found { (action : DiskAction)
        → NamesOnDisk (codes "show", rows_of (found_of values.now)) action
        → IsSome result }
{
    let disk = text_in(values, "DISK")?;
    Some(DiskAction::Show { disk })
}

/// `keep` with its values.
pub fn keep_in<'a>(values: &ArgMatches<'a>) -> Option<DiskAction<'a>>
    ensures read { IfSome result
        (NamesOnDisk (codes "keep", rows_of (found_of values.now))) }
    ensures found { (action : DiskAction)
        → NamesOnDisk (codes "keep", rows_of (found_of values.now)) action
        → IsSome result }
{
    let disk = text_in(values, "DISK")?;
    let socket = text_in(values, "SOCKET")?;
    Some(DiskAction::Keep { disk, socket })
}

/// `protect` with its values.
pub fn protect_in<'a>(values: &ArgMatches<'a>) -> Option<FrameAction<'a>>
    ensures read { IfSome result
        (NamesOnFrames (codes "protect", rows_of (found_of values.now))) }
    ensures found { (action : FrameAction)
        → NamesOnFrames (codes "protect", rows_of (found_of values.now)) action
        → IsSome result }
{
    let disk = text_in(values, "DISK")?;
    let input = text_in(values, "INPUT")?;
    let output = text_in(values, "OUTPUT")?;
    Some(FrameAction::Protect {
        disk,
        input,
        output,
        is_all: is_flagged(values, "all"),
    })
}

/// `validate` with its values.
pub fn validate_in<'a>(values: &ArgMatches<'a>) -> Option<FrameAction<'a>>
    ensures read { IfSome result
        (NamesOnFrames (codes "validate", rows_of (found_of values.now))) }
    ensures found { (action : FrameAction)
        → NamesOnFrames (codes "validate", rows_of (found_of values.now)) action
        → IsSome result }
{
    let disk = text_in(values, "DISK")?;
    let input = text_in(values, "INPUT")?;
    let output = text_in(values, "OUTPUT")?;
    Some(FrameAction::Validate {
        disk,
        input,
        output,
        is_all: is_flagged(values, "all"),
        is_each: is_flagged(values, "each"),
    })
}

/// `key`, with `--long` or without it.
pub fn key_in<'a>(values: &ArgMatches<'a>) -> Option<ToolAction<'a>>
    ensures read { IfSome result
        (NamesTool (codes "key", rows_of (found_of values.now))) }
    ensures found { IsSome result }
{
    Some(ToolAction::Key {
        is_long: is_flagged(values, "long"),
    })
}

/// `inspect` with its value.
pub fn inspect_in<'a>(values: &ArgMatches<'a>) -> Option<ToolAction<'a>>
    ensures read { IfSome result
        (NamesTool (codes "inspect", rows_of (found_of values.now))) }
    ensures found { (action : ToolAction)
        → NamesTool (codes "inspect", rows_of (found_of values.now)) action
        → IsSome result }
{
    let input = text_in(values, "INPUT")?;
    Some(ToolAction::Inspect { input })
}

/// `check` with its values.
pub fn check_in<'a>(values: &ArgMatches<'a>) -> Option<ToolAction<'a>>
    ensures read { IfSome result
        (NamesTool (codes "check", rows_of (found_of values.now))) }
    ensures found { (action : ToolAction)
        → NamesTool (codes "check", rows_of (found_of values.now)) action
        → IsSome result }
{
    let file = text_in(values, "FILE")?;
    Some(ToolAction::Check {
        file,
        disk: text_in(values, "DISK"),
    })
}

/// `examine` with its values.
pub fn examine_in<'a>(values: &ArgMatches<'a>) -> Option<ToolAction<'a>>
    ensures read { IfSome result
        (NamesTool (codes "examine", rows_of (found_of values.now))) }
    ensures found { (action : ToolAction)
        → NamesTool (codes "examine", rows_of (found_of values.now)) action
        → IsSome result }
{
    let disk = text_in(values, "DISK")?;
    Some(ToolAction::Examine {
        disk,
        is_json: is_flagged(values, "json"),
    })
}
