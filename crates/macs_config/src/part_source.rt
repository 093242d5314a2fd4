//! Sources of the parts of a snapshot.

ghost use Rattle.std.specs.Prelude.{◌≡◌, List, Option, None, Some, get_or, length, map};
ghost use Rattle.macs_config.specs.declared.part.Part.{Part};

use crate::part::Part;

/// A source of the parts of a snapshot, which has one at each of its positions, or has none at
/// some.
pub trait PartSource {
    /// The part at each position, `None` if there is none.
    ghost listed: { Self → List (Option Part) };

    /// How many positions there are.
    fn count(&self) -> usize
        ensures { result ≡ length (listed self.now) };

    /// The part at a position, counting from 0; `None` if there is none, and after the last
    /// position.
    fn part(&self, at: usize) -> Option<Part>
        ensures { result ≡ get_or (listed self.now) at None };
}

impl PartSource for &[Part] {
    ghost listed = { λ parts. map (λ part. Some part) parts.now };

    fn count(&self) -> usize {
        self.len()
    }

    fn part(&self, at: usize) -> Option<Part> {
        let part = self.get(at)?;
        Some(part.copied())
    }
}
