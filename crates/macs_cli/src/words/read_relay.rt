//! `relay` with its values.

ghost use Rattle.std.specs.Prelude.{ℕ, Option, IfSome, IsSome, codes};
ghost use Rattle.clap.specs.Words.{Text, found_of, rows_of};
ghost use Rattle.macs_cli.specs.Words.{FitsOnFrames, FitsPace, HasPace, HasText};
ghost use Rattle.macs_cli.specs.Words.{MayHaveRoom, MayHaveText, NamesOnFrames};
ghost use Rattle.macs_cli.specs.declared.words.pace.Pace.{Pace};

use crate::words::action::{FrameAction, WireEnds};
use crate::words::pace::{Pace, Running};
use crate::words::read_values::{count_in, optional_count_in, optional_room_in, text_in, wait_in};
use clap::ArgMatches;

/// The two addresses of a wire.
fn ends_in<'a>(values: &ArgMatches<'a>, own: &str, peer: &str) -> Option<WireEnds<'a>>
    ensures read { IfSome result
        (λ ends. HasText (rows_of (found_of values.now)) own.now ends.own.now
        × HasText (rows_of (found_of values.now)) peer.now ends.peer.now) }
    ensures found { (at there : Text) → HasText (rows_of (found_of values.now)) own.now at
        → HasText (rows_of (found_of values.now)) peer.now there → IsSome result }
{
    let own = text_in(values, own)?;
    let peer = text_in(values, peer)?;
    Some(WireEnds { own, peer })
}

/// How `relay` takes its turns: `None` if neither `turns` nor `wait` is given.
fn pace_in(values: &ArgMatches) -> Option<Pace>
    ensures read { IfSome result (HasPace (rows_of (found_of values.now))) }
    ensures found { (pace : Pace) → HasPace (rows_of (found_of values.now)) pace → FitsPace pace
        → IsSome result }
{
    match text_in(values, "wait") {
        None => {
            let turns = count_in(values, "turns")?;
            Some(Pace::Sleepless { turns })
        }
        Some(_) => {
            let limit = wait_in(values, "wait")?;
            let turns = optional_count_in(values, "turns")?;
            Some(Pace::Waiting { limit, turns })
        }
    }
}

/// How `relay` runs, with its options.
fn running_in<'a>(values: &ArgMatches<'a>) -> Option<Running<'a>>
    ensures read { IfSome result (λ running. HasPace (rows_of (found_of values.now)) running.pace
        × MayHaveRoom (rows_of (found_of values.now)) (codes "buffer") running.buffer
        × MayHaveText (rows_of (found_of values.now)) (codes "control") running.control
        × MayHaveText (rows_of (found_of values.now)) (codes "metrics") running.metrics
        × MayHaveText (rows_of (found_of values.now)) (codes "keeper") running.keeper) }
    ensures found { (pace : Pace) (room : Option ℕ) → HasPace (rows_of (found_of values.now)) pace
        → FitsPace pace → MayHaveRoom (rows_of (found_of values.now)) (codes "buffer") room
        → IsSome result }
{
    let pace = pace_in(values)?;
    let buffer = optional_room_in(values, "buffer")?;
    Some(Running {
        pace,
        buffer,
        control: text_in(values, "control"),
        metrics: text_in(values, "metrics"),
        keeper: text_in(values, "keeper"),
    })
}

/// `relay` with its values.
pub fn relay_in<'a>(values: &ArgMatches<'a>) -> Option<FrameAction<'a>>
    ensures read { IfSome result
        (NamesOnFrames (codes "relay", rows_of (found_of values.now))) }
    ensures found { (action : FrameAction)
        → NamesOnFrames (codes "relay", rows_of (found_of values.now)) action
        → FitsOnFrames action → IsSome result }
{
    let disk = text_in(values, "DISK")?;
    let controlled = ends_in(values, "OWN1", "PEER1")?;
    let common = ends_in(values, "OWN2", "PEER2")?;
    let running = running_in(values)?;
    Some(FrameAction::Relay {
        disk,
        controlled,
        common,
        running,
    })
}
