//! The action that the words name, or why they name none.

ghost use Rattle.std.specs.Prelude.{◌≡◌, ◌⊎◌, IfOk, IfErr, OnOk, true, [], string_bytes};
ghost use Rattle.clap.specs.Words.{fault_of, subcommand_of, subcommand_rows_of, takes};
ghost use Rattle.macs_cli.specs.Controls.{IsPrintable};
ghost use Rattle.macs_cli.specs.Words.{HasPrintableCause, IsFaultOf, Names, NamesNoAction};
ghost use Rattle.macs_cli.specs.Words.{NamesNothing, macsecd, texts};

use crate::words::action::{Action, UsageFault};
use crate::words::known::known_words;
use crate::words::plain_text::printable;
use crate::words::read_values::is_flagged;
use crate::words::reading::action_in;
use clap::ArgMatches;
use clap::error::ErrorKind;
use std::alloc::{AllocError, Global};

/// The part of an error before the usage: the reason, and its tips. Usage comes last, and a word
/// that the reason repeats may contain similar lines.
fn said_of(text: &str) -> &str {
    match text.rsplit_once("\n\nUsage:") {
        Some((said, _)) => said,
        None => text.strip_suffix("\n").unwrap_or(text),
    }
}

/// The same without the tip to pass a word as a value, since most often no further value is
/// accepted. If that tip is present, it is the only one.
fn useful_in(said: &str) -> &str {
    match said.rsplit_once("\n\n  tip: to pass '") {
        Some((reason, _)) => reason,
        None => said,
    }
}

/// The reason and the tips of an error, in one line: in the error, what is missing and each tip
/// have lines of their own, and an empty line precedes the first tip.
fn line_of(alloc: Global, text: &str) -> Result<String, AllocError> {
    let tipped = useful_in(said_of(text)).replace(alloc, "\n\n ", "")?;
    tipped.as_str().replace(alloc, "\n ", "")
}

/// The reason and the tips of an error, in one line. They repeat the words, so control characters
/// are replaced.
fn cause_of(alloc: Global, error: &clap::Error) -> Result<String, AllocError>
    ensures { IfOk result (λ cause. IsPrintable (string_bytes cause)) }
{
    let text = error.to_string(alloc)?;
    let line = line_of(alloc, text.as_str())?;
    printable(alloc, line.strip_prefix("error: ").unwrap_or(line.as_str()))
}

/// The fault for an error of the library.
fn usage_fault_of(alloc: Global, error: &clap::Error) -> Result<UsageFault, AllocError>
    ensures kind { IfOk result (IsFaultOf error.now) }
    ensures printable { IfOk result HasPrintableCause }
{
    match error.kind() {
        ErrorKind::OutOfMemory => Ok(UsageFault::Memory),
        _ => Ok(UsageFault::Usage(cause_of(alloc, error)?)),
    }
}

/// The message if the words of a subcommand name no action: for `ask` the possible questions, or
/// the answers available as JSON if that is requested, for `plan` its ends and stages, and for a
/// relay with neither `--turns` nor `--wait` that one is missing, worded as by clap.
fn missing_cause(alloc: Global, matches: &ArgMatches) -> Result<String, AllocError>
    ensures { IfOk result (λ cause. IsPrintable (string_bytes cause)) }
{
    match matches.subcommand() {
        Some(("ask", values)) if is_flagged(values, "json") => {
            printable(
                alloc,
                "ask PATH show, counters, keys, traffic or about, with --json",
            )
        }
        Some(("ask", _)) => printable(
            alloc,
            "ask PATH show, counters, keys, traffic, about, stop, or apply FILE",
        ),
        Some(("plan", _)) => printable(
            alloc,
            "plan FILE left or right, then first, receive, send or remove",
        ),
        _ => printable(
            alloc,
            "the following required arguments were not provided: --turns n or --wait MS",
        ),
    }
}

/// The action that was read. Fails with `Usage` if the words name none, then with `Memory` if
/// memory runs out.
fn action_read<'a>(alloc: Global, matches: &ArgMatches<'a>) -> Result<Action<'a>, UsageFault>
    ensures read { IfOk result (Names (subcommand_rows_of matches.now)) }
    ensures refused { IfErr result (λ fault. NamesNoAction (subcommand_rows_of matches.now)) }
    ensures printable { IfErr result HasPrintableCause }
{
    match action_in(matches) {
        Some(action) => Ok(action),
        None => Err(UsageFault::Usage(missing_cause(alloc, matches)?)),
    }
}

/// The action that the words name, which do not include the program's own name. Fails with `Usage`
/// if clap refuses the words, or if they name a relay with neither `--turns` nor `--wait`, ask a
/// relay an unknown question, request JSON for an answer that is not a report, or plan for no valid
/// end or stage; else with `Memory` if memory runs out.
pub fn action_of<'a>(alloc: Global, words: &'a [&'a str]) -> Result<Action<'a>, UsageFault>
    // The action is what clap reads.
    ensures read { IfOk result (Names (subcommand_of macsecd (texts words.now))) }
    // Words that clap accepts are refused only if memory runs out, except for a relay with neither
    // turns nor a wait, an `ask` with an unknown question or with JSON for an answer that is not a
    // report, and an invalid end or stage.
    ensures taken { takes macsecd (texts words.now) ≡ true → IfErr result (λ fault.
        (fault ≡ UsageFault.Memory) ⊎ NamesNothing (subcommand_of macsecd (texts words.now))) }
    // No words that clap refuses give an action.
    ensures refused { OnOk result (fault_of macsecd (texts words.now) ≡ []) }
    // The cause of a refusal has no control character.
    ensures printable { IfErr result HasPrintableCause }
{
    match known_words(alloc)?.try_get_matches_from(words) {
        Ok(matches) => action_read(alloc, &matches),
        Err(error) => Err(usage_fault_of(alloc, &error)?),
    }
}
