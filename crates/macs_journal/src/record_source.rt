//! The source of the records of a compaction.

ghost use Rattle.std.specs.Prelude.{◌≡◌, List, length};
ghost use Rattle.std.specs.List.{slice_get};
ghost use Rattle.macs_record.specs.declared.record.Record.{Record};

use macs_record::Record;

/// A source of the records of a compaction: it has them by position, and makes one at a time.
pub trait RecordSource {
    /// The records, in the order of the slots that they go to.
    ghost listed: { Self → List Record };

    /// How many records there are.
    fn count(&self) -> usize
        ensures { result ≡ length (listed self.now) };

    /// The record at a position, counting from 0; `None` after the last one.
    fn at(&self, place: usize) -> Option<Record>
        ensures { result ≡ slice_get (listed self.now) place };
}

impl RecordSource for &[Record] {
    ghost listed = { λ records. records.now };

    fn count(&self) -> usize {
        self.len()
    }

    fn at(&self, place: usize) -> Option<Record> {
        let value = self.get(place)?;
        Some(value.copied())
    }
}
