//! Disks whose power lasts for a number of device calls.

ghost use Rattle.macs_headline.specs.Deeds.{IsPassedOn};

use macs_disk::Fuse;
use macs_headline::PowerLoss;

/// A disk on which power can be lost inside a call.
pub trait PowerSupply: PowerLoss {
    /// From now on the power lasts for this many device calls: each later one fails and changes
    /// nothing, until the power is lost for good. What is on the disk stays.
    fn power_for(self, calls: u64) -> Self
        ensures { IsPassedOn (Self.disk self) (Self.disk self).clock (Self.disk result) };
}

/// A new fuse takes the place of the fuse.
impl<D: PowerLoss> PowerSupply for Fuse<D> {
    fn power_for(self, calls: u64) -> Self {
        Fuse::new(self.into_inner(), calls)
    }
}
