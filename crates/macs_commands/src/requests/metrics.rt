//! Where the counters are written while a relay runs.

/// A text that is rewritten from time to time, whole or not at all. No call waits.
pub trait Metrics {
    ghost use Rattle.std.specs.Prelude.{⊤};
    ghost use Rattle.macs_commands.specs.Talks.{Asked, Note, Put};

    /// What each question and each text makes of it.
    ghost does: { Self → Note → Self → Type 0 } = { λ _ _ _. ⊤ };

    /// Whether the text should be written now: at most once a second.
    fn is_due(&mut self) -> bool
        ensures { does self.old (Asked result) self.new };

    /// Writes the text in place of the previous one. If that fails, the previous one stays.
    fn put(&mut self, text: &[u8])
        ensures { does self.old (Put text.now) self.new };
}

/// No file of counters: no text is ever due.
#[derive(Drop)]
pub struct NoMetrics;

impl Metrics for NoMetrics {
    fn is_due(&mut self) -> bool {
        false
    }

    fn put(&mut self, _text: &[u8]) {}
}
