//! Texts, cut at an octet.

ghost use Rattle.std.specs.Prelude.{◌≡◌, ◌<◌, [], ◌∷◌, length, MatchOption};
ghost use Rattle.macs_cli.specs.Cutting.{pieces};

/// The first piece of a text, up to an end or whole, and the text after it; `None` if the text is
/// empty.
pub fn cut(text: &str, end: char) -> Option<(&str, &str)>
    requires { end < 128 }
    ensures pieces { MatchOption result (pieces end text.now ≡ [])
        (λ cut. pieces end text.now ≡ cut.0.now ∷ pieces end cut.1.now) }
    ensures shorter { MatchOption result (text.now ≡ [])
        (λ cut. length cut.1.now < length text.now) }
{
    if text.is_empty() {
        return None;
    }
    match text.split_once(end) {
        Some(halves) => Some(halves),
        None => Some((text, "")),
    }
}
