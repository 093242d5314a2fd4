//! A report as JSON.

ghost use Rattle.std.specs.Prelude.{◌≡◌, Some, IfOk};
ghost use Rattle.json.specs.Json.{document};
ghost use Rattle.macs_cli.specs.Cutting.{lines};
ghost use Rattle.macs_cli.specs.Objects.{ReadsBack, json_text, object_of, object_text};

use crate::report_json::cutting::cut;
use crate::report_json::objects::object_of;
use json::to_vec;
use std::alloc::{AllocError, Global};

/// A line of a report, without its line feed, as JSON: one object. Fails only if memory runs out.
pub fn json_of_line(alloc: Global, line: &str) -> Result<Vec<u8>, AllocError>
    ensures text { IfOk result (λ json. json.items ≡ object_text line.now) }
    // The JSON parses to the object.
    ensures reads_back { IfOk result (λ json. document json.items ≡ Some (object_of line.now)) }
{
    let object = object_of(alloc, line)?;
    to_vec(alloc, &object)
}

/// A report of whole lines as JSON: an object for each line, in the same order, each followed by a
/// line feed. Fails only if memory runs out.
pub fn json_lines(alloc: Global, report: &str) -> Result<Vec<u8>, AllocError>
    ensures text { IfOk result (λ json. json.items ≡ json_text report.now) }
    // The JSON parses, line by line, to the objects.
    ensures reads_back { IfOk result (λ json. ReadsBack (lines report.now) json.items) }
{
    let mut json = Vec::new(alloc);
    let mut rest = report;
    while let Some((line, more)) = cut(rest, '\n') {
        json.extend_from_slice(json_of_line(alloc, line)?.as_slice())?;
        json.push(b'\n')?;
        rest = more;
    }
    Ok(json)
}
