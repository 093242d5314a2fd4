//! The JSON object for a line.

ghost use Rattle.std.specs.Prelude.{◌≡◌, ◌++◌, Some, None, IfOk};
ghost use Rattle.json.specs.Tree.{HasNumbers, MembersHaveNumbers};
ghost use Rattle.json.specs.Value.{members_view, value_view};
ghost use Rattle.macs_cli.specs.Cutting.{words};
ghost use Rattle.macs_cli.specs.Objects.{first_of, kind_of, members_of, object_of};

use crate::report_json::cutting::cut;
use crate::report_json::fitting::kind_of;
use crate::report_json::parts::part_of;
use json::Value;
use std::alloc::{AllocError, Global};

/// The first word of a line.
fn first_word(line: &str) -> &str
    ensures { result.now ≡ first_of (words line.now) }
{
    match cut(line, ' ') {
        Some((word, _)) => word,
        None => "",
    }
}

/// The members for a line of a kind.
fn known_members<'a>(
    alloc: Global,
    kind: &'a str,
    line: &'a str,
) -> Result<Vec<(&'a str, Value<'a>)>, AllocError>
    ensures members { IfOk result
        (λ found. members_view found.items ≡ members_of (Some kind.now) line.now) }
    ensures writable { IfOk result (λ found. MembersHaveNumbers (members_view found.items)) }
{
    let mut found = Vec::new(alloc);
    found.push(("line", Value::String(first_word(line))))?;
    let mut places = kind;
    let mut rest = line;
    while let Some((own, more)) = cut(places, ' ') {
        let Some((word, others)) = cut(rest, ' ') else {
            return Ok(found);
        };
        let part = part_of(own);
        if let Some(name) = part.name() {
            found.push((name, part.value(word)))?;
        }
        places = more;
        rest = others;
    }
    Ok(found)
}

/// The members for a line of no kind.
fn unknown_members<'a>(
    alloc: Global,
    line: &'a str,
) -> Result<Vec<(&'a str, Value<'a>)>, AllocError>
    ensures members { IfOk result
        (λ found. members_view found.items ≡ members_of None line.now) }
    ensures writable { IfOk result (λ found. MembersHaveNumbers (members_view found.items)) }
{
    let mut found = Vec::new(alloc);
    found.push(("line", Value::String(line)))?;
    found.push(("known", Value::Bool(false)))?;
    Ok(found)
}

/// The members for a line.
fn members_of<'a>(alloc: Global, line: &'a str) -> Result<Vec<(&'a str, Value<'a>)>, AllocError>
    ensures members { IfOk result
        (λ found. members_view found.items ≡ members_of (kind_of (words line.now)) line.now) }
    ensures writable { IfOk result (λ found. MembersHaveNumbers (members_view found.items)) }
{
    let Some(kind) = kind_of(line) else {
        return unknown_members(alloc, line);
    };
    known_members(alloc, kind, line)
}

/// The object for a line.
pub fn object_of<'a>(alloc: Global, line: &'a str) -> Result<Value<'a>, AllocError>
    ensures value { IfOk result (λ object. value_view object ≡ object_of line.now) }
    ensures writable { IfOk result (λ object. HasNumbers (value_view object)) }
{
    let members = members_of(alloc, line)?;
    Ok(Value::Object(members))
}
