//! A device call as a value, and how it is made.

ghost use Rattle.std.specs.Prelude.{◌↔◌, IsTrue};
ghost use Rattle.macs_disk.specs.DeviceCalls.{IsMade, IsWithin};

use crate::disk::{DeviceFault, SectorDisk};

/// A call of a disk.
#[derive(Clone, Copy, PartialEq, Eq)]
pub enum DeviceCall {
    /// Reads the sector with this number.
    Read(u64),
    /// Writes these octets to the sector with this number.
    Write(u64, [u8; 512]),
    /// Makes every sector durable.
    Sync,
}

impl DeviceCall {
    /// Whether its sector is on a disk of this many sectors.
    pub fn is_within(&self, sectors: u64) -> bool
        ensures { IsTrue result ↔ IsWithin sectors self.now }
    {
        match self {
            DeviceCall::Read(at) | DeviceCall::Write(at, _) => *at < sectors,
            DeviceCall::Sync => true,
        }
    }

    /// Makes the call on a disk that has its sector. A read puts the sector into `read`; no other
    /// call changes that.
    pub fn make<D: SectorDisk>(&self, disk: &mut D, read: &mut [u8; 512]) -> Result<(), DeviceFault>
        requires within { IsWithin (D.disk disk.old).sectors self.now }
        ensures { IsMade (D.disk disk.old) (D.disk disk.new) self.now read.new result }
    {
        match self {
            DeviceCall::Read(at) => disk.read(*at, read),
            DeviceCall::Write(at, octets) => disk.write(*at, octets),
            DeviceCall::Sync => disk.sync(),
        }
    }
}
