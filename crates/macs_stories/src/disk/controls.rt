//! What a story sets of its disk, and asks it, while something else has the disk.

use std::cell::Cell;

/// Which device calls fail.
#[derive(Clone, Copy)]
pub enum Fuse {
    /// None.
    Whole,
    /// The one after so many; it does not reach the disk.
    Once(u64),
    /// The same, but that a write leaves octets ff.
    Filled(u64),
    /// Each one after so many.
    Each(u64),
}

/// What a story sets and asks while the endpoint has its disk.
#[derive(Drop)]
pub struct Controls {
    calls: Cell<u64>,
    fuse: Cell<Fuse>,
    /// The file gave other octets than the disk in memory.
    differs: Cell<bool>,
}

impl Controls {
    /// No call was made, and none fails.
    pub fn new() -> Controls {
        Controls {
            calls: Cell::new(0),
            fuse: Cell::new(Fuse::Whole),
            differs: Cell::new(false),
        }
    }

    /// How many device calls were made since this was asked.
    pub fn calls(&self) -> u64 {
        self.calls.replace(0)
    }

    /// Whether the file gave other octets than the disk in memory at some read.
    pub fn differs(&self) -> bool {
        self.differs.get()
    }

    /// Notes that the file gave other octets than the disk in memory.
    pub fn note_difference(&self) {
        self.differs.set(true);
    }

    /// Which device calls fail from now on.
    pub fn set(&self, fuse: Fuse) {
        self.fuse.set(fuse);
    }

    /// Counts a call: the fuse that it meets.
    pub fn take(&self) -> Fuse {
        self.calls.set(self.calls.get().saturating_add(1));
        let fuse = self.fuse.get();
        self.fuse.set(after(fuse));
        fuse
    }
}

/// The fuse after one more call.
fn after(fuse: Fuse) -> Fuse {
    match fuse {
        Fuse::Whole => Fuse::Whole,
        Fuse::Once(0) | Fuse::Filled(0) => Fuse::Whole,
        Fuse::Each(0) => Fuse::Each(0),
        Fuse::Once(left) => Fuse::Once(left - 1),
        Fuse::Filled(left) => Fuse::Filled(left - 1),
        Fuse::Each(left) => Fuse::Each(left - 1),
    }
}
