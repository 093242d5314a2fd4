//! `plan`: the commands for one end of a link and one stage of its keys, as a command file.

ghost use Rattle.std.specs.Prelude.{◌≡◌, ◌≢◌, ◌⊎◌, ℕ, List, None, Some, true, IfErr, IfOk};
ghost use Rattle.std.specs.Prelude.{IfSome};
ghost use Rattle.std.specs.Prelude.{string_bytes};
ghost use Rattle.toml.specs.Data.{Members};
ghost use Rattle.toml.specs.View.{table_view};
ghost use Rattle.toml.specs.Parse.{parse_document};
ghost use Rattle.macs_commands.specs.Writing.{PlansText};
ghost use Rattle.macs_offline.specs.Plans.{IsPlanOfFile, PlanFails, PlansFile, PrintsPlan};
ghost use Rattle.macs_offline.specs.Plans.{RefusesSo, SaysWhy, SaysWhyOfFile, SaysWhyOfText};
ghost use Rattle.macs_offline.specs.Plans.{extra_text, link_refusal, name_reason, name_word};
ghost use Rattle.macs_offline.specs.Plans.{plan_fault_text, value_text};
ghost use Rattle.macs_cli.specs.Reasons.{Complains, IsLinkUnread};

use crate::command_file::{MAX_FILE, MAX_READ};
use crate::toml_place::failure_of_toml;
use macs_cli::{Failure, LinkRefusal, Status, Stream, failure_at, failure_saying, print};
use macs_commands::links::{End, Place, PlanFault, Stage, ValueName};
use macs_commands::secrets::{SecretOctets, SecretTable, SecretText};
use std::alloc::{AllocError, Global};
use std::fs;
use std::io::Read;
use std::rt::Files;
use toml::Table;

/// A key of a table, as it is spelled.
fn name_word(name: ValueName) -> &'static str
    ensures { result.now ≡ name_word name }
{
    match name {
        ValueName::Sci => "sci",
        ValueName::An => "an",
        ValueName::Left => "left",
        ValueName::Right => "right",
    }
}

/// What its value should be and is not.
fn name_reason(name: ValueName) -> &'static str
    ensures { result.now ≡ name_reason name }
{
    match name {
        ValueName::Sci => "not 16 hex digits",
        ValueName::An => "not 0 to 3",
        ValueName::Left => "not 32 or 64 hex digits",
        ValueName::Right => "not 32 or 64 hex digits",
    }
}

/// The message about a value: its place, key and reason.
fn value_text(alloc: Global, place: Place, name: ValueName) -> Result<String, AllocError>
    ensures { IfOk result (λ text. string_bytes text ≡ value_text place name) }
{
    let key = name_word(name);
    let reason = name_reason(name);
    match place {
        Place::Left => format!(in alloc; "left {key}: {reason}"),
        Place::Right => format!(in alloc; "right {key}: {reason}"),
        Place::Key { at } => format!(in alloc; "key {at} {key}: {reason}"),
    }
}

/// The message about an unknown key: its place.
fn extra_text(alloc: Global, place: Place) -> Result<String, AllocError>
    ensures { IfOk result (λ text. string_bytes text ≡ extra_text place) }
{
    match place {
        Place::Left => String::from_str(alloc, "left: a key that it does not have"),
        Place::Right => String::from_str(alloc, "right: a key that it does not have"),
        Place::Key { at } => format!(in alloc; "key {at}: a key that it does not have"),
    }
}

/// The message about the first fault of a link file.
fn fault_text(alloc: Global, fault: PlanFault) -> Result<String, AllocError>
    ensures { IfOk result (λ text. string_bytes text ≡ plan_fault_text fault) }
{
    match fault {
        PlanFault::Shape => {
            String::from_str(
                alloc,
                "link file: not [left], [right] and tables [[key]] alone",
            )
        }
        PlanFault::Value { place, name } => value_text(alloc, place, name),
        PlanFault::Extra { place } => extra_text(alloc, place),
        PlanFault::SameSci => String::from_str(alloc, "same sci"),
        PlanFault::SameKey => String::from_str(alloc, "same key"),
        PlanFault::AnInUse => String::from_str(alloc, "an in use"),
        PlanFault::OneKey => String::from_str(alloc, "one key"),
        PlanFault::Memory => String::from_str(alloc, "memory"),
    }
}

/// The refusal of the link for this fault, if it is one.
fn link_refusal(fault: PlanFault) -> Option<LinkRefusal>
    ensures { result ≡ link_refusal fault }
{
    match fault {
        PlanFault::SameSci => Some(LinkRefusal::SameSci),
        PlanFault::SameKey => Some(LinkRefusal::SameKey),
        PlanFault::AnInUse => Some(LinkRefusal::AnInUse),
        _ => None,
    }
}

/// The failure for a fault: a refusal of the link, or a message, or `Memory` if there is no memory
/// for it.
fn failure_of_fault(alloc: Global, fault: PlanFault) -> Failure
    ensures { (Complains (λ said. (link_refusal fault ≡ None) × (said ≡ plan_fault_text fault))
        result) ⊎ RefusesSo (λ refusal. link_refusal fault ≡ Some refusal) result }
{
    match link_refusal(fault) {
        Some(refusal) => Failure::Link(refusal),
        None => failure_saying(fault_text(alloc, fault)),
    }
}

/// The command file planned from a TOML table.
fn planned_in_table(alloc: Global, table: &Table, end: End, stage: Stage) -> Result<String, Failure>
    ensures planned { IfOk result
        (λ text. PlansText (table_view table.now) end stage (string_bytes text)) }
    ensures fault { (text : List ℕ) → parse_document text ≡ Some (table_view table.now)
        → IfErr result (SaysWhyOfText end stage text) }
{
    match macs_commands::links::plan(alloc, table, end, stage) {
        Ok(text) => Ok(text),
        Err(fault) => match fault {
            PlanFault::Memory => Err(Failure::Memory),
            _ => Err(failure_of_fault(alloc, fault)),
        },
    }
}

/// The command file planned from a text.
fn planned_in_text(alloc: Global, text: &str, end: End, stage: Stage) -> Result<String, Failure>
    ensures planned { IfOk result (λ file. (members : Members)
        × (parse_document text.now ≡ Some members)
        × PlansText members end stage (string_bytes file)) }
    ensures fault { IfErr result (SaysWhyOfText end stage text.now) }
{
    match toml::table_from_str(alloc, text) {
        Ok(table) => planned_in_table(alloc, &SecretTable(table).0, end, stage),
        Err(error) => Err(failure_of_toml(alloc, "link file", text, &error)),
    }
}

/// The command file planned from the octets of a file.
fn planned_said(alloc: Global, octets: &[u8], end: End, stage: Stage) -> Result<String, Failure>
    ensures planned { IfOk result
        (λ file. PlansFile end stage octets.now (string_bytes file)) }
    ensures fault { IfErr result (SaysWhy end stage octets.now) }
{
    if octets.len() > MAX_FILE {
        let text = String::from_str(alloc, "link file: more than 1048576 octets");
        return Err(failure_saying(text));
    }
    let Ok(text) = str::from_utf8(octets) else {
        let text = String::from_str(alloc, "link file: not UTF-8");
        return Err(failure_saying(text));
    };
    planned_in_text(alloc, text, end, stage)
}

/// The command file planned from an open file with this name, of which no more is read than the
/// limit needs. Fails with `Said` and the reason if a read fails, else with the first fault or the
/// refusal of the link.
fn planned_read<R: Read>(
    alloc: Global,
    name: &str,
    file: &mut R,
    end: End,
    stage: Stage,
) -> Result<String, Failure>
    ensures planned { IfOk result (λ text. IfSome (R.remaining file.old)
        (λ octets. PlansFile end stage octets (string_bytes text))) }
    ensures spelled { IfOk result
        (λ text. (octets : List ℕ) × PlansFile end stage octets (string_bytes text)) }
    ensures fault { IfErr result (λ failure. IsLinkUnread name.now failure
        ⊎ IfSome (R.remaining file.old) (λ octets. SaysWhy end stage octets failure)) }
    ensures ended { IfErr result (λ failure. IsLinkUnread name.now failure
        ⊎ ((octets : List ℕ) × SaysWhy end stage octets failure)) }
{
    let mut octets = SecretOctets(Vec::with_capacity(alloc, MAX_READ)?);
    match file.take(MAX_READ as u64).read_to_end(&mut octets.0) {
        Ok(_) => planned_said(alloc, octets.0.as_slice(), end, stage),
        Err(error) => Err(failure_at(alloc, "link file", name, error)),
    }
}

/// The command file planned from a file. Fails with `Said` and the reason if the file cannot be
/// opened or read, else with the first fault or the refusal of the link.
fn planned_file<T: Files>(
    rt: &T,
    alloc: Global,
    path: &str,
    end: End,
    stage: Stage,
) -> Result<String, Failure>
    // A file was opened, and this is planned from its contents.
    ensures planned { IfOk result
        (λ text. IsPlanOfFile T.File.remaining end stage (string_bytes text)) }
    ensures spelled { IfOk result
        (λ text. (octets : List ℕ) × PlansFile end stage octets (string_bytes text)) }
    ensures ended { IfErr result (λ failure. IsLinkUnread path.now failure
        ⊎ ((octets : List ℕ) × SaysWhy end stage octets failure
        × ((failure ≡ Failure.Memory) ⊎ SaysWhyOfFile T.File.remaining end stage failure))) }
{
    match fs::open(rt, path) {
        Ok(mut file) => planned_read(alloc, path, &mut file, end, stage),
        Err(error) => Err(failure_at(alloc, "link file", path, error)),
    }
}

/// `plan`: prints the command file for one end of the link in a file and one stage of its keys. The
/// file is not changed. Fails with `Said`, with the reason if the file cannot be opened or read,
/// else with its first fault; with `Link` if the link is refused; with `Memory`; and with `Output`
/// if the text cannot be printed.
pub fn plan<T: Files, W: Stream>(
    rt: &T,
    alloc: Global,
    path: &str,
    end: End,
    stage: Stage,
    out: &mut W,
) -> Result<Status, Failure>
    ensures printed { IfOk result (λ status.
        PrintsPlan T.File.remaining end stage (W.contents out.old) (W.contents out.new)
        × (status ≡ Status.Done)) }
    ensures ended { IfErr result (PlanFails T.File.remaining path.now end stage) }
    ensures silent { IfErr result (λ failure. failure ≢ Failure.Output → out.new ≡ out.old) }
    ensures broken { IfErr result (λ failure. failure ≡ Failure.Output → W.failed out.new ≡ true) }
{
    let text = SecretText(planned_file(rt, alloc, path, end, stage)?);
    print(out, text.0.as_str())?;
    Ok(Status::Done)
}
