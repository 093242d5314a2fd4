//! The list of calls that an in-memory disk keeps.

ghost use Rattle.std.specs.Prelude.{◌≡◌, ◌<◌, ◌≤◌, ◌+◌, ◌-◌, ◌^◌, [], ◌∷◌, ◌++◌, OnErr, OnOk};
ghost use Rattle.std.specs.List.{All};
ghost use Rattle.macs_disk.specs.declared.call_list.Entry.{Entry};

use crate::disk::DeviceFault;
use std::alloc::Allocator;

/// A call that changed the disk.
#[derive(Clone, Copy)]
pub(crate) enum Call {
    /// These octets were written to the sector with this number.
    Write(u64, [u8; 512]),
    /// Every sector was made durable.
    Sync,
}

/// A call, and the moment that it led to.
#[derive(Clone, Copy)]
pub(crate) struct Entry {
    pub(crate) clock: u64,
    pub(crate) call: Call,
}

/// The clock of a disk, its failures, and the calls that changed it.
#[derive(Drop)]
pub(crate) struct CallList<A: Allocator> {
    pub(crate) clock: u64,
    pub(crate) failures: u64,
    pub(crate) entries: Vec<Entry, A>,
    ghost few: { failures ≤ clock },
    ghost stamped: { All (λ entry. entry.clock ≤ clock) entries.items },
}

impl<A: Allocator> CallList<A> {
    pub(crate) fn new(alloc: A) -> Self
        ensures { (result.clock ≡ 0) × (result.failures ≡ 0) × (result.entries.items ≡ []) }
    {
        CallList {
            clock: 0,
            failures: 0,
            entries: Vec::new(alloc),
        }
    }

    /// Advances the clock, unless the disk is worn.
    pub(crate) fn pass(&mut self) -> Result<(), DeviceFault>
        ensures ok { OnOk result
            ((self.old.clock < 2 ^ 64 - 1) × (self.new.clock ≡ self.old.clock + 1)) }
        ensures err { OnErr result
            ((self.old.clock ≡ 2 ^ 64 - 1) × (self.new.clock ≡ self.old.clock)) }
        ensures later { self.old.clock ≤ self.new.clock }
        ensures failures { self.new.failures ≡ self.old.failures }
        ensures entries { self.new.entries.items ≡ self.old.entries.items }
    {
        if self.clock == u64::MAX {
            return Err(DeviceFault);
        }
        self.clock += 1;
        Ok(())
    }

    /// Advances the clock and keeps the call. If there is no memory for it, counts a failure.
    pub(crate) fn keep(&mut self, call: Call) -> Result<(), DeviceFault>
        ensures ok { OnOk result
            ((self.old.clock < 2 ^ 64 - 1) × (self.new.clock ≡ self.old.clock + 1)) }
        ensures kept { OnOk result (self.new.entries.items ≡ self.old.entries.items
            ++ record { clock = self.old.clock + 1; call = call } ∷ []) }
        ensures steady { OnOk result (self.new.failures ≡ self.old.failures) }
        ensures later { self.old.clock ≤ self.new.clock }
        ensures fits { OnErr result (self.old.clock < 2 ^ 64) }
        ensures dropped { OnErr result (self.new.entries.items ≡ self.old.entries.items) }
        ensures worn { OnErr result (self.old.clock ≡ 2 ^ 64 - 1
            → (self.new.clock ≡ self.old.clock) × (self.new.failures ≡ self.old.failures)) }
        ensures refused { OnErr result (self.old.clock < 2 ^ 64 - 1
            → (self.new.clock ≡ self.old.clock + 1) × (self.new.failures ≡ self.old.failures + 1)) }
    {
        self.pass()?;
        let entry = Entry {
            clock: self.clock,
            call,
        };
        if self.entries.push(entry).is_err() {
            self.failures += 1;
            return Err(DeviceFault);
        }
        Ok(())
    }

    /// Forgets the calls.
    pub(crate) fn clear(&mut self)
        ensures clock { self.new.clock ≡ self.old.clock }
        ensures failures { self.new.failures ≡ self.old.failures }
        ensures entries { self.new.entries.items ≡ [] }
    {
        self.entries.clear();
    }
}
