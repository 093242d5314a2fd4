//! The trait asks no more of a disk than the counts.

ghost use Rattle.std.specs.Prelude.{◌≡◌, ◌<◌, ◌+◌, ◌-◌, ◌^◌, OnErr, OnOk};

use super::Call::{Fill, Read, Sync};
use super::stopped;
use macs_disk::{DeviceFault, SectorDisk};

/// A disk that forgets what it is told and claims no honesty.
#[derive(Drop)]
struct Forgetful {
    clock: u64,
}

impl Forgetful {
    fn pass(&mut self) -> Result<(), DeviceFault>
        ensures ok { OnOk result
            ((self.old.clock < 2 ^ 64 - 1) × (self.new.clock ≡ self.old.clock + 1)) }
        ensures err { OnErr result
            ((self.old.clock ≡ 2 ^ 64 - 1) × (self.new.clock ≡ self.old.clock)) }
    {
        if self.clock == u64::MAX {
            return Err(DeviceFault);
        }
        self.clock += 1;
        Ok(())
    }
}

impl SectorDisk for Forgetful {
    ghost use Rattle.std.specs.Prelude.{◌==◌, true, false};
    ghost use Rattle.std.proofs.Common.{rules};
    ghost use Rattle.macs_disk.specs.States.{settled_state, zero_sector};
    ghost use Rattle.macs_disk.specs.Evidence.{full-clock};

    ghost disk = { λ it. record {
      sectors = 3;
      past = λ _. settled_state (λ _. zero_sector);
      clock = it.clock;
      failures = 0;
      honest = false;
      worn = it.clock == 2 ^ 64 - 1;
      prompt = true;
    } };

    ghost sound = { Prim.search rules };

    ghost wear = { λ it. full-clock it.clock };

    fn sectors(&self) -> u64 {
        3
    }

    fn read(&mut self, _at: u64, into: &mut [u8; 512]) -> Result<(), DeviceFault> {
        self.pass()?;
        *into = [0; 512];
        Ok(())
    }

    fn write(&mut self, _at: u64, _from: &[u8; 512]) -> Result<(), DeviceFault> {
        self.pass()
    }

    fn sync(&mut self) -> Result<(), DeviceFault> {
        self.pass()
    }
}

#[test]
fn a_disk_may_claim_nothing(rt: HostRuntime) {
    let _disk = stopped(
        &rt,
        Forgetful { clock: 0 },
        &[Fill(2, 1), Read(2, 0), Sync],
        2,
    );
}
