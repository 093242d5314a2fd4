//! Disks on which a power loss can be staged.

ghost use Rattle.macs_headline.specs.Endings.{LosesPower};

use macs_disk::{Fuse, MemDisk, SectorDisk};
use std::alloc::Allocator;

/// A disk on which a power loss can be staged.
pub trait PowerLoss: SectorDisk {
    /// The power is lost: the disk holds one of the images that it could leave, and nothing is
    /// pending.
    fn lose_power(self) -> Self
        ensures { LosesPower (Self.disk self) (Self.disk self).clock (Self.disk result) };
}

impl<A: Allocator> PowerLoss for MemDisk<A> {
    fn lose_power(mut self) -> Self {
        self.crash();
        self
    }
}

/// A fuse does not survive the power loss: the inner disk is left, with a new fuse that passes on
/// all calls.
impl<D: PowerLoss> PowerLoss for Fuse<D> {
    fn lose_power(self) -> Self {
        Fuse::new(self.into_inner().lose_power(), u64::MAX)
    }
}
