//! The commands for a stage at one end, and their file.

ghost use Rattle.std.specs.Prelude.{◌≡◌, ◌≢◌, IfOk, IfErr, Ok, Err, Some, List, string_bytes};
ghost use Rattle.toml.specs.View.{table_view};
ghost use Rattle.macs_config.specs.declared.command.Command.{Command};
ghost use Rattle.macs_commands.specs.Planning.{file_planned, other_end, own_key, pair_before};
ghost use Rattle.macs_commands.specs.Planning.{planned, receives, sci_of, sends};
ghost use Rattle.macs_commands.specs.Writing.{PlansLinkText, PlansText};
ghost use Rattle.macs_commands.specs.declared.links.plan_fault.PlanFault.TheVariants.{Memory};

use crate::files::command_file_text;
use crate::links::link::{End, KeyPair, Link};
use crate::links::plan_fault::PlanFault;
use crate::links::reading::link_of;
use macs_aes::Key;
use macs_config::Command;
use macs_fields::Sci;
use std::alloc::Global;
use toml::Table;

/// What is done at an end, stage by stage: the first keys; then, for each new pair, both ends first
/// also receive under it, then send under it, and then the previous pair is removed.
#[derive(Clone, Copy, Debug, PartialEq, Eq)]
pub enum Stage {
    /// The first keys are installed on both sides.
    First,
    /// The newest keys are installed on the receive side.
    Receive,
    /// The newest keys are installed on the transmit side, and used.
    Send,
    /// The keys before the newest are removed on both sides.
    Remove,
}

/// The other end.
fn other_end(end: End) -> End
    ensures { result ≡ other_end end }
{
    match end {
        End::Left => End::Right,
        End::Right => End::Left,
    }
}

/// The SCI of an end.
fn sci_of(link: &Link, end: End) -> Sci
    ensures { result ≡ sci_of link.now end }
{
    match end {
        End::Left => link.left,
        End::Right => link.right,
    }
}

/// The key of the frames from an end.
fn own_key(pair: &KeyPair, end: End) -> Key
    ensures { result ≡ own_key pair.now end }
{
    match end {
        End::Left => pair.left,
        End::Right => pair.right,
    }
}

/// The command that lets an end send under a pair.
fn sends(pair: &KeyPair, end: End) -> Command
    ensures { result ≡ sends pair.now end }
{
    Command::TxInstall {
        an: pair.an,
        key: own_key(pair, end),
        start: 1,
        confidential: true,
        offset: 0,
    }
}

/// The command that lets an end receive under a pair what the other end sends.
fn receives(link: &Link, pair: &KeyPair, end: End) -> Command
    ensures { result ≡ receives link.now pair.now end }
{
    let other = other_end(end);
    Command::RxInstall {
        sci: sci_of(link, other),
        an: pair.an,
        key: own_key(pair, other),
        start: 1,
        offset: 0,
    }
}

/// These commands, or `Memory` if there is no memory for them.
fn listed<const N: usize>(alloc: Global, commands: [Command; N]) -> Result<Vec<Command>, PlanFault>
    ensures commands { IfOk result (λ listed. listed.items ≡ commands.entry) }
    ensures fault { IfErr result (λ fault. fault ≡ Memory) }
{
    match Vec::from_array(alloc, commands) {
        Ok(listed) => Ok(listed),
        Err(_) => Err(PlanFault::Memory),
    }
}

/// The previous pair.
fn pair_before(link: &Link) -> Result<KeyPair, PlanFault>
    ensures { result ≡ pair_before link.now }
{
    match link.before {
        Some(earlier) => Ok(earlier),
        None => Err(PlanFault::OneKey),
    }
}

/// The commands for a stage at an end, in order. Fails with `OneKey` if keys should be replaced and
/// the link has only one pair, or with `Memory`.
pub fn planned(
    alloc: Global,
    link: &Link,
    end: End,
    stage: Stage,
) -> Result<Vec<Command>, PlanFault>
    ensures commands { IfOk result (λ commands. planned link.now end stage ≡ Ok commands.items) }
    ensures fault { IfErr result (λ fault. fault ≢ Memory
        → planned link.now end stage ≡ Err fault) }
{
    let newest = link.newest;
    let sci = sci_of(link, other_end(end));
    match stage {
        Stage::First => {
            let commands = [
                sends(&newest, end),
                Command::TxUse { an: newest.an },
                Command::RxAdd { sci },
                receives(link, &newest, end),
            ];
            let commands = listed(alloc, commands)?;
            Ok(commands)
        }
        Stage::Receive => {
            let _earlier = pair_before(link)?;
            let commands = listed(alloc, [receives(link, &newest, end)])?;
            Ok(commands)
        }
        Stage::Send => {
            let _earlier = pair_before(link)?;
            let commands = [sends(&newest, end), Command::TxUse { an: newest.an }];
            let commands = listed(alloc, commands)?;
            Ok(commands)
        }
        Stage::Remove => {
            let earlier = pair_before(link)?;
            let an = earlier.an;
            let commands = [Command::TxRemove { an }, Command::RxRemove { sci, an }];
            let commands = listed(alloc, commands)?;
            Ok(commands)
        }
    }
}

/// The command file for a stage at an end, as text.
fn link_plan(alloc: Global, link: &Link, end: End, stage: Stage) -> Result<String, PlanFault>
    ensures text { IfOk result (λ text. PlansLinkText link.now end stage (string_bytes text)) }
    ensures fault { IfErr result (λ fault. fault ≢ Memory
        → planned link.now end stage ≡ Err fault) }
{
    let commands = planned(alloc, link, end, stage)?;
    match command_file_text(alloc, sci_of(link, end), commands.as_slice()) {
        Ok(text) => Ok(text),
        Err(_) => Err(PlanFault::Memory),
    }
}

/// The command file for a stage at an end of the link in a file, as text: it names the SCI of that
/// end. Fails with the file's first fault, with `OneKey`, or with `Memory`.
pub fn plan(alloc: Global, file: &Table, end: End, stage: Stage) -> Result<String, PlanFault>
    ensures text { IfOk result
        (λ text. PlansText (table_view file.now) end stage (string_bytes text)) }
    ensures fault { IfErr result (λ fault. fault ≢ Memory
        → file_planned (table_view file.now) end stage ≡ Err fault) }
{
    let link = link_of(alloc, file)?;
    let _before = link.before; // It is named for the proof alone.
    let text = link_plan(alloc, &link, end, stage)?;
    Ok(text)
}
