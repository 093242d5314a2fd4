//! The four lines of a text.

ghost use Rattle.std.specs.Prelude.{◌≡◌, ◌==◌, ◌↔◌, [], ◌∷◌, length, map, position, IsSome, IfSome};
ghost use Rattle.std.specs.Prelude.{MatchOption};
ghost use Rattle.macs_cli.specs.Lines.{line_at, lines, trimmed_line};

/// The four lines of a text, each without its end, in octets.
#[derive(Clone, Copy)]
pub struct FourLines<'a> {
    pub first: &'a [u8],
    pub second: &'a [u8],
    pub third: &'a [u8],
    pub fourth: &'a [u8],
}

/// The place of the first line feed.
fn line_feed_in(text: &[u8]) -> Option<usize>
    ensures { result ≡ position (λ octet. octet == 10) text.now }
{
    text.iter().position(|octet| *octet == b'\n')
}

/// The first line without its line feed, and the text after it; `None` if the text is empty.
fn cut_line(text: &[u8]) -> Option<(&[u8], &[u8])>
    ensures { MatchOption result (lines text.now ≡ [])
        (λ cut. lines text.now ≡ cut.0.now ∷ lines cut.1.now) }
{
    if text.is_empty() {
        return None;
    }
    match line_feed_in(text) {
        Some(end) => Some((&text[..end], &text[end + 1..])),
        None => Some((text, &[])),
    }
}

/// A line without a trailing carriage return.
fn without_return(line: &[u8]) -> &[u8]
    ensures { result.now ≡ trimmed_line line.now }
{
    match line {
        [front @ .., b'\r'] => front,
        _ => line,
    }
}

/// The lines of a text of exactly four, each without its line feed and without one trailing
/// carriage return. The last line feed may be missing.
pub fn four_lines(text: &[u8]) -> Option<FourLines<'_>>
    ensures four { IsSome result ↔ (length (lines text.now) ≡ 4) }
    ensures first { IfSome result (λ found. found.first.now ≡ line_at text.now 0) }
    ensures second { IfSome result (λ found. found.second.now ≡ line_at text.now 1) }
    ensures third { IfSome result (λ found. found.third.now ≡ line_at text.now 2) }
    ensures fourth { IfSome result (λ found. found.fourth.now ≡ line_at text.now 3) }
{
    let (first, rest) = cut_line(text)?;
    let (second, rest) = cut_line(rest)?;
    let (third, rest) = cut_line(rest)?;
    let (fourth, rest) = cut_line(rest)?;
    if !rest.is_empty() {
        return None;
    }
    Some(FourLines {
        first: without_return(first),
        second: without_return(second),
        third: without_return(third),
        fourth: without_return(fourth),
    })
}
