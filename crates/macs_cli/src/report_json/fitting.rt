//! The kind that a line belongs to.

ghost use Rattle.std.specs.Prelude.{◌≡◌, map, option_map};
ghost use Rattle.macs_cli.specs.Cutting.{words};
ghost use Rattle.macs_cli.specs.Objects.{fit, kind_among, kind_of, parts};

use crate::report_json::cutting::cut;
use crate::report_json::kinds::KINDS;
use crate::report_json::parts::part_of;

/// Whether a line belongs to a kind: its words fit there, one after another.
fn fit(kind: &str, line: &str) -> bool
    ensures { result ≡ fit (parts kind.now) (words line.now) }
{
    let mut places = kind;
    let mut rest = line;
    while let Some((own, more)) = cut(places, ' ') {
        let Some((word, others)) = cut(rest, ' ') else {
            return false;
        };
        if !part_of(own).takes(word) {
            return false;
        }
        places = more;
        rest = others;
    }
    cut(rest, ' ').is_none()
}

/// The first of these kinds that a line belongs to, if any.
fn kind_among<'a>(kinds: &'a [&'a str], line: &str) -> Option<&'a str>
    ensures { option_map (λ kind. kind.now) result
        ≡ kind_among (map (λ kind. kind.now) kinds.now) (words line.now) }
{
    for i in 0..kinds.len() {
        if fit(kinds[i], line) {
            return Some(kinds[i]);
        }
    }
    None
}

/// The kind of a line, if any.
pub fn kind_of<'a>(line: &'a str) -> Option<&'a str>
    ensures { option_map (λ kind. kind.now) result ≡ kind_of (words line.now) }
{
    kind_among(KINDS, line)
}
