//! A write that fails may have torn its sector all the same.

ghost use Rattle.std.specs.Prelude.{◌≡◌, ◌<◌, ◌+◌, true, if◌then◌else◌};
ghost use Rattle.macs_disk.specs.Disk.{IsHonest, now};

use super::Call::{Fill, Read};
use super::Step::{Crash, Find, Tear};
use super::{Step, blank, make_all, play};
use macs_disk::{DeviceFault, SectorDisk};
use std::process::Abort;

/// A disk in front of another. The first write that the other does answers DeviceFault all the
/// same, and has filled its sector. Over an honest disk it is an honest disk.
#[derive(Drop)]
struct Tearing<D> {
    disk: D,
    has_torn: bool,
}

impl<D: SectorDisk> SectorDisk for Tearing<D> {
    ghost disk = { λ it. record {
      sectors = (D.disk it.disk).sectors;
      past = (D.disk it.disk).past;
      clock = (D.disk it.disk).clock;
      failures = (D.disk it.disk).failures + (if it.has_torn then 1 else 0);
      honest = (D.disk it.disk).honest;
      worn = (D.disk it.disk).worn;
      prompt = true;
    } };

    ghost sound = { λ it honest. D.sound it.disk honest };

    ghost wear = { λ it. D.wear it.disk };

    fn sectors(&self) -> u64 {
        self.disk.sectors()
    }

    fn read(&mut self, at: u64, into: &mut [u8; 512]) -> Result<(), DeviceFault> {
        self.disk.read(at, into)
    }

    fn write(&mut self, at: u64, from: &[u8; 512]) -> Result<(), DeviceFault> {
        if self.has_torn {
            return self.disk.write(at, from);
        }
        self.disk.write(at, from)?;
        self.has_torn = true;
        Err(DeviceFault)
    }

    fn sync(&mut self) -> Result<(), DeviceFault> {
        self.disk.sync()
    }
}

/// What is found of the sectors of a disk whose first write tore sector 1.
const TORN: &[Step] = &[
    Find(0, (0, 0, false)),
    Find(1, (1, 0, true)),
    Find(2, (2, 0, true)),
    Tear(1, 3, true),
    Crash,
    Find(1, (3, 3, false)),
    Find(2, (2, 2, false)),
];

/// Tears sector 1 of a disk and then fills sector 2.
fn torn<D: SectorDisk>(rt: &impl Abort, disk: D) -> D {
    let mut tearing = Tearing {
        disk,
        has_torn: false,
    };
    make_all(rt, &mut tearing, &[Fill(1, 1)], 0..1);
    make_all(rt, &mut tearing, &[Read(1, 1), Fill(2, 2)], 0..0);
    let Tearing { disk, .. } = tearing;
    disk
}

/// Its sector is pending: reads give what was written, and a power loss may leave anything else.
#[test]
fn a_failed_write_may_tear_its_sector(rt: HostRuntime) {
    let mut disk = torn(&rt, blank(&rt, rt.alloc(), 3));
    play(&rt, &mut disk, TORN);
}
