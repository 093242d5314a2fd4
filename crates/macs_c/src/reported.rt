//! A disk whose calls a C program makes.

ghost use Rattle.std.specs.Prelude.{◌≡◌, ℕ, Bool, List};
ghost use Rattle.macs_disk.specs.Disk.{IsDeviceCall, now};
ghost use Rattle.macs_disk.specs.Evidence.{no-claim};
ghost use Rattle.macs_c.specs.Evidence.{reported-sound};
ghost use Rattle.macs_c.specs.ReportedDisks.{Moment, ReportedValue, failures_in, missed};
ghost use Rattle.macs_c.specs.ReportedDisks.{reported_disk, reported_from, reported_next};

use crate::report::Report;
use macs_disk::{DeviceFault, SectorDisk};
use std::marker::Model;

/// A disk whose calls a C program makes and reports by `after`. It keeps how many sectors there
/// are; all else is only in contracts. A call of this one does not reach the disk: it fails.
#[derive(Drop)]
pub(crate) struct ReportedDisk {
    sectors: u64,
    report: Report,
}

impl Model for ReportedDisk {
    ghost Value = { ReportedValue };

    ghost view = { λ it. record {
      sectors = it.sectors;
      clock = it.report.clock;
      failures = it.report.failures;
      moments = it.report.moments;
      honest = it.report.honest;
    } };
}

impl ReportedDisk {
    /// A disk with these sectors, all durable. Whether it is honest only contracts say.
    pub(crate) fn of(sectors: &[[u8; 512]]) -> ReportedDisk
        ghost honest: { Bool }
        ensures { result ≡ reported_from sectors.now honest }
    {
        ReportedDisk::begun(sectors)
    }

    /// The same, with its sectors as a value of contracts.
    fn begun(sectors: &[[u8; 512]]) -> ReportedDisk
        ghost given: { List (List ℕ) × Bool }
        requires { given.0 ≡ sectors.now }
        ensures { result ≡ reported_from given.0 given.1 }
    {
        ReportedDisk {
            sectors: sectors.len() as u64,
            report: Report::new(),
        }
    }

    /// The disk after a call that was made, and that had this answer.
    pub(crate) fn after(&self, _answer: Result<(), DeviceFault>) -> ReportedDisk
        ghost given: { Moment × ℕ }
        requires { given.1 ≡ failures_in _answer }
        ensures { result ≡ reported_next self.now given.0 _answer }
    {
        let ReportedDisk { sectors, report } = self;
        ReportedDisk {
            sectors: *sectors,
            report: report.with(),
        }
    }

    /// Counts a call that fails, and does not reach the disk.
    fn miss(&mut self)
        ensures call { IsDeviceCall (reported_disk self.old) (reported_disk self.new) missed }
        ensures same { now (reported_disk self.new) ≡ now (reported_disk self.old) }
    {
        *self = self.after(Err(DeviceFault));
    }
}

impl SectorDisk for ReportedDisk {
    ghost disk = { reported_disk };

    ghost sound = { λ it _. reported-sound it };

    ghost wear = { λ _ worn. no-claim worn };

    fn sectors(&self) -> u64 {
        let ReportedDisk { sectors, .. } = self;
        *sectors
    }

    /// Fails.
    fn read(&mut self, _at: u64, _into: &mut [u8; 512]) -> Result<(), DeviceFault> {
        self.miss();
        Err(DeviceFault)
    }

    /// Fails.
    fn write(&mut self, _at: u64, _from: &[u8; 512]) -> Result<(), DeviceFault> {
        self.miss();
        Err(DeviceFault)
    }

    /// Fails.
    fn sync(&mut self) -> Result<(), DeviceFault> {
        self.miss();
        Err(DeviceFault)
    }
}
