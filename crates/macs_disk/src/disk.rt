//! A disk of sectors, as its callers see it.

ghost use Rattle.std.specs.Prelude.{◌≡◌, ◌<◌, ◌≤◌, ◌-◌, ◌^◌, true, false, None, IfSome};
ghost use Rattle.macs_disk.specs.States.{IsSound};
ghost use Rattle.macs_disk.specs.DeviceCalls.{IsMade, IsWithin};
ghost use Rattle.macs_disk.specs.Disk.{Disk, IsDeviceCall, IsHonest, Reads, Syncs, Writes, now};

use crate::device_call::DeviceCall;

/// A call of the device failed.
#[derive(Clone, Copy, Debug, PartialEq, Eq)]
pub struct DeviceFault;

/// A disk of sectors of 512 octets, numbered from 0.
///
/// A sector that was written since the last sync that succeeded is pending. A power loss may leave
/// any 512 octets in each pending sector, independently, and changes no other. It may come at any
/// moment, between two calls or inside one: each call of `read`, `write` and `sync` advances the
/// clock by one, and the disk's meaning keeps its state at each moment up to the clock.
///
/// Each call of `read`, `write` and `sync` counts a failure if and only if it returns
/// `DeviceFault`. A disk whose counts are full is worn: each call of it fails, and nothing on it
/// changes. Everything else said here applies to an honest disk; whether a disk is honest never
/// changes.
pub trait SectorDisk {
    /// The disk over time.
    ghost disk: { Self → Disk };

    /// How many sectors the disk has. This never changes.
    fn sectors(&self) -> u64
        ensures { result ≡ (disk self.now).sectors };

    /// Reads sector `at`, returning the octets that were last written there. Whether it fails or
    /// not, it changes nothing on the disk.
    fn read(&mut self, at: u64, into: &mut [u8; 512]) -> Result<(), DeviceFault>
        requires { at < (disk self.old).sectors }
        ensures call { IsDeviceCall (disk self.old) (disk self.new) result }
        ensures effect { IsHonest (disk self.new)
            → Reads (now (disk self.old)) (now (disk self.new)) at into.new result };

    /// Writes sector `at`, which is pending from then on. A write that fails leaves the disk
    /// unchanged, or its sector pending with some 512 octets that later reads give.
    fn write(&mut self, at: u64, from: &[u8; 512]) -> Result<(), DeviceFault>
        requires { at < (disk self.old).sectors }
        ensures call { IsDeviceCall (disk self.old) (disk self.new) result }
        ensures effect { IsHonest (disk self.new)
            → Writes (now (disk self.old)) (now (disk self.new)) at from.now result };

    /// Makes every sector durable with the octets that reads give: nothing is pending then. A sync
    /// that fails changes nothing, and all that was pending still is.
    fn sync(&mut self) -> Result<(), DeviceFault>
        ensures call { IsDeviceCall (disk self.old) (disk self.new) result }
        ensures effect { IsHonest (disk self.new)
            → Syncs (now (disk self.old)) (now (disk self.new)) result };

    /// Makes a call, or begins it and does not wait: `None` as long as its answer is not there.
    /// Then ask again with the same call, and make no other before. Until the answer is there the
    /// disk is as before the call. A read puts the sector into `read`; no other call changes that.
    /// A prompt disk never returns `None`; by default a disk is prompt.
    fn try_make(
        &mut self,
        call: &DeviceCall,
        read: &mut [u8; 512],
    ) -> Option<Result<(), DeviceFault>>
        requires { IsWithin (disk self.old).sectors call.now }
        ensures waits { result ≡ None → (self.new ≡ self.old) × ((disk self.old).prompt ≡ false) }
        ensures made { IfSome result
            (λ answer. IsMade (disk self.old) (disk self.new) call.now read.new answer) }
    {
        Some(match call {
            DeviceCall::Read(at) => self.read(*at, read),
            DeviceCall::Write(at, octets) => self.write(*at, octets),
            DeviceCall::Sync => self.sync(),
        })
    }

    /// Sectors have 512 octets, and what reads give is what a power loss may leave.
    ghost sound: { (it : Self) → IsHonest (disk it) → IsSound (now (disk it)) };

    /// A disk is not worn before its clock is 2^64 - 1.
    ghost wear: { (it : Self) → (disk it).worn ≡ true → 2 ^ 64 - 1 ≤ (disk it).clock };
}
