//! A disk that a keeper keeps.

ghost use Rattle.std.specs.Prelude.{◌≡◌, ◌≤◌, true, false, IfSome, IfNone, IsErr};
ghost use Rattle.macs_disk.specs.Disk.{IsDeviceCall};
ghost use Rattle.macs_control.specs.KeptDisks.{EndsSo, GreetsNot, IsOpened, KeptDiskValue};
ghost use Rattle.macs_control.specs.KeptDisks.{is_stopped, kept_disk};

use crate::keeping::courier::Courier;
use crate::keeping::taking::take_whole;
use crate::keeping::waiting::Waits;
use macs_disk::messages::{GREETING, Greeting};
use macs_disk::{DeviceCall, DeviceFault, SectorDisk};
use std::marker::Model;

/// A disk that a keeper keeps, over a connection to that keeper.
///
/// Of what the keeper does nothing is claimed. Once a call has failed each later call fails, and
/// nothing more is sent: the next opening is over a new connection. A call that `try_make` has
/// begun is continued by the same call alone; another one fails.
#[derive(Drop)]
pub struct KeptDisk<C: Waits> {
    courier: Courier<C>,
    sectors: u64,
    clock: u64,
    failures: u64,
    /// A call has failed.
    is_failed: bool,
}

impl<C: Waits> Model for KeptDisk<C> {
    ghost Value = { KeptDiskValue };

    ghost view = { λ it. record {
      sectors = it.sectors;
      clock = it.clock;
      failures = it.failures;
      is_failed = it.is_failed;
    } };

    ghost invariant = { λ it. it.failures ≤ it.clock };
}

impl<C: Waits> KeptDisk<C> {
    /// The disk of a keeper, which greets. `None` if the connection ends or fails, or if what
    /// arrives is not a greeting.
    pub fn open(keeper: C) -> Option<KeptDisk<C>>
        ensures some { IfSome result (IsOpened (C.link keeper)) }
        ensures none { IfNone result (GreetsNot (C.link keeper) (C.steady keeper)) }
    {
        let mut keeper = keeper;
        let Ok(octets) = take_whole::<C, GREETING>(&mut keeper) else {
            return None;
        };
        let greeting = Greeting::given(octets.as_slice())?;
        Some(KeptDisk {
            courier: Courier::to(keeper),
            sectors: greeting.sectors,
            clock: 0,
            failures: 0,
            is_failed: false,
        })
    }

    /// Whether each call fails from now on.
    pub fn is_stopped(&self) -> bool
        ensures { result ≡ is_stopped self.now }
    {
        self.is_failed || self.clock == u64::MAX
    }

    /// Makes a call, and waits for its answer.
    fn exchange(&mut self, call: &DeviceCall, read: &mut [u8; 512]) -> Result<(), DeviceFault>
        ensures call { IsDeviceCall (kept_disk self.old) (kept_disk self.new) result }
        ensures ends { EndsSo self.old result self.new }
    {
        if self.is_stopped() {
            return self.fail();
        }
        let end = self.courier.exchange(call, read);
        self.count(end)
    }

    /// Counts a call that fails because the disk has stopped.
    fn fail(&mut self) -> Result<(), DeviceFault>
        ensures call { IsDeviceCall (kept_disk self.old) (kept_disk self.new) result }
        ensures ends { EndsSo self.old result self.new }
    {
        self.count(Err(DeviceFault))
    }

    /// Counts a call that has ended: a failure stops the disk. On a worn disk each call fails, and
    /// nothing is counted.
    fn count(&mut self, end: Result<(), DeviceFault>) -> Result<(), DeviceFault>
        requires { is_stopped self.old ≡ true → IsErr end }
        ensures call { IsDeviceCall (kept_disk self.old) (kept_disk self.new) result }
        ensures ends { EndsSo self.old result self.new }
        ensures fresh { is_stopped self.old ≡ false → result ≡ end }
    {
        if self.clock == u64::MAX {
            return Err(DeviceFault);
        }
        self.clock += 1;
        if end.is_err() {
            self.failures += 1;
            self.is_failed = true;
        }
        end
    }
}

impl<C: Waits> SectorDisk for KeptDisk<C> {
    ghost use Rattle.std.specs.Prelude.{◌≡◌, ◌<◌, None, true, false, IfSome};
    ghost use Rattle.macs_disk.specs.DeviceCalls.{IsMade, IsWithin};
    ghost use Rattle.macs_disk.specs.Disk.{IsDeviceCall, IsHonest, Reads, Syncs, Writes, now};
    ghost use Rattle.macs_disk.specs.Evidence.{full-clock, no-claim};
    ghost use Rattle.macs_control.specs.KeptDisks.{EndsSo, is_stopped, kept_disk};

    ghost disk = { kept_disk };

    ghost sound = { λ _ honest. no-claim honest };

    ghost wear = { λ it. full-clock it.clock };

    fn sectors(&self) -> u64 {
        self.sectors
    }

    /// Each call waits for its answer.
    fn read(&mut self, at: u64, into: &mut [u8; 512]) -> Result<(), DeviceFault>
        requires { at < (kept_disk self.old).sectors }
        ensures call { IsDeviceCall (kept_disk self.old) (kept_disk self.new) result }
        ensures effect { IsHonest (kept_disk self.new)
            → Reads (now (kept_disk self.old)) (now (kept_disk self.new)) at into.new result }
        ensures ends { EndsSo self.old result self.new }
    {
        self.exchange(&DeviceCall::Read(at), into)
    }

    fn write(&mut self, at: u64, from: &[u8; 512]) -> Result<(), DeviceFault>
        requires { at < (kept_disk self.old).sectors }
        ensures call { IsDeviceCall (kept_disk self.old) (kept_disk self.new) result }
        ensures effect { IsHonest (kept_disk self.new)
            → Writes (now (kept_disk self.old)) (now (kept_disk self.new)) at from.now result }
        ensures ends { EndsSo self.old result self.new }
    {
        self.exchange(&DeviceCall::Write(at, *from), &mut [0; 512])
    }

    fn sync(&mut self) -> Result<(), DeviceFault>
        ensures call { IsDeviceCall (kept_disk self.old) (kept_disk self.new) result }
        ensures effect { IsHonest (kept_disk self.new)
            → Syncs (now (kept_disk self.old)) (now (kept_disk self.new)) result }
        ensures ends { EndsSo self.old result self.new }
    {
        self.exchange(&DeviceCall::Sync, &mut [0; 512])
    }

    /// The request is sent once. Each call looks once for the answer, and does not wait.
    fn try_make(
        &mut self,
        call: &DeviceCall,
        read: &mut [u8; 512],
    ) -> Option<Result<(), DeviceFault>>
        requires { IsWithin (kept_disk self.old).sectors call.now }
        ensures waits { result ≡ None
            → (self.new ≡ self.old) × ((kept_disk self.old).prompt ≡ false) }
        ensures made { IfSome result (λ answer. IsMade (kept_disk self.old) (kept_disk self.new)
            call.now read.new answer) }
        ensures runs { result ≡ None → is_stopped self.old ≡ false }
        ensures ends { IfSome result (λ answer. EndsSo self.old answer self.new) }
    {
        if self.is_stopped() {
            return Some(self.fail());
        }
        let end = self.courier.try_exchange(call, read)?;
        Some(self.count(end))
    }
}
