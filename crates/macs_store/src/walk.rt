//! A walk over records, one by one.

ghost use Rattle.std.specs.Prelude.{◌≡◌, ◌<◌, ◌+◌, ◌==◌, false};
ghost use Rattle.macs_store.specs.Snapshot.{most_records};
ghost use Rattle.macs_store.specs.Snapshot.{new_walk, walk_past};

use macs_record::Record;

/// A walk over records, one by one, which keeps the one at a position and only counts the others.
#[derive(Drop)]
pub(crate) struct Walk {
    /// The position of the wanted record, counting from 0.
    pub place: usize,
    /// How many records have passed so far.
    pub passed: usize,
    /// The record at that position, once it has passed.
    pub found: Option<Record>,
}

impl Walk {
    /// Before the first record.
    pub(crate) fn new(place: usize) -> Walk
        ensures first { result ≡ new_walk place }
        ensures none { result.passed ≡ 0 }
    {
        Walk {
            place,
            passed: 0,
            found: None,
        }
    }

    /// Whether the next record is the wanted one.
    pub(crate) fn is_here(&self) -> bool
        ensures { result ≡ (self.now.passed == self.now.place) }
    {
        self.passed == self.place
    }

    /// Passes a record, and keeps it if it is the wanted one.
    pub(crate) fn pass(&mut self, value: Record)
        requires { self.old.passed < most_records }
        ensures walked { self.new ≡ walk_past self.old value }
        ensures one { self.new.passed ≡ self.old.passed + 1 }
    {
        let is_here = self.is_here();
        self.passed += 1;
        if is_here {
            self.found = Some(value);
        }
    }

    /// Passes a record that is not the wanted one, and need not be made.
    pub(crate) fn pass_over(&mut self)
        requires room { self.old.passed < most_records }
        requires other { (self.old.passed == self.old.place) ≡ false }
        ensures walked { (value : _) → self.new ≡ walk_past self.old value }
        ensures one { self.new.passed ≡ self.old.passed + 1 }
    {
        self.passed += 1; // It is counted alone.
    }
}
