//! A report to standard output, as text or as JSON.

ghost use Rattle.std.specs.Prelude.{◌≡◌, ◌≢◌, ◌⊎◌, true, IfErr, OnOk};
ghost use Rattle.std.specs.Io.KnownBytes.{Appends};
ghost use Rattle.macs_cli.specs.Objects.{in_form, json_text};

use crate::failure::Failure;
use crate::output::{print, print_octets};
use crate::report_json::json_lines;
use crate::stream::Stream;
use std::alloc::Global;

/// Prints a report as JSON, one object per line. Fails with `Memory`, and with `Output` if it
/// cannot be printed.
pub fn print_json<W: Stream>(alloc: Global, report: &str, out: &mut W) -> Result<(), Failure>
    ensures printed { OnOk result
        (Appends (W.contents out.old) (W.contents out.new) (json_text report.now)) }
    ensures ended { IfErr result
        (λ failure. (failure ≡ Failure.Memory) ⊎ (failure ≡ Failure.Output)) }
    ensures silent { IfErr result (λ failure. failure ≢ Failure.Output → out.new ≡ out.old) }
    ensures broken { IfErr result (λ failure. failure ≡ Failure.Output → W.failed out.new ≡ true) }
{
    let json = json_lines(alloc, report)?;
    print_octets(out, json.as_slice())
}

/// Prints a report, as JSON if requested. Fails as `print_json` does; a text needs no memory.
pub fn print_report<W: Stream>(
    alloc: Global,
    report: &str,
    is_json: bool,
    out: &mut W,
) -> Result<(), Failure>
    ensures printed { OnOk result
        (Appends (W.contents out.old) (W.contents out.new) (in_form is_json report.now)) }
    ensures ended { IfErr result
        (λ failure. (failure ≡ Failure.Memory) ⊎ (failure ≡ Failure.Output)) }
    ensures memory { IfErr result (λ failure. failure ≡ Failure.Memory → is_json ≡ true) }
    ensures silent { IfErr result (λ failure. failure ≢ Failure.Output → out.new ≡ out.old) }
    ensures broken { IfErr result (λ failure. failure ≡ Failure.Output → W.failed out.new ≡ true) }
{
    if is_json {
        return print_json(alloc, report, out);
    }
    print(out, report)
}
