//! The disk of a story: a disk in memory whose calls are counted, and fail where the story says so;
//! and, where the command line names one, a file that is written and read along with it.

ghost use Rattle.std.specs.Prelude.{◌≡◌, ◌<◌, ◌≤◌, ◌+◌, ◌-◌, ◌^◌, ◌↔◌};
ghost use Rattle.std.specs.Prelude.{IsErr, OnErr, OnOk};

use crate::disk::controls::{Controls, Fuse};
use macs_disk::{DeviceFault, FileDisk, MemDisk, SectorDisk};
use std::alloc::Global;
use std::rc::Rc;

/// What a write leaves that fails and fills.
const FILL: [u8; 512] = [0xff; 512];

/// A disk in memory behind the controls of a story. It claims no honesty.
#[derive(Drop)]
pub struct StoryDisk {
    pub(crate) disk: MemDisk,
    file: Option<FileDisk>,
    controls: Rc<Controls>,
    sectors: u64,
    clock: u64,
    failures: u64,
    ghost few: { failures ≤ clock },
}

/// Reads a sector of the file, and notes where it is not this one.
fn compare(
    file: &mut FileDisk,
    controls: &Controls,
    at: u64,
    sector: &[u8; 512],
) -> Result<(), DeviceFault> {
    let mut found = [0; 512];
    if at < file.sectors() {
        file.read(at, &mut found)?;
        if found != *sector {
            controls.note_difference();
        }
    }
    Ok(())
}

fn write_file(file: &mut FileDisk, at: u64, from: &[u8; 512]) -> Result<(), DeviceFault> {
    if at >= file.sectors() {
        return Ok(());
    }
    file.write(at, from)
}

/// Writes a sector of the disk in memory, and of the file.
fn write_both(
    disk: &mut MemDisk,
    file: &mut Option<FileDisk>,
    at: u64,
    from: &[u8; 512],
) -> Result<(), DeviceFault> {
    if at >= disk.sectors() {
        return Err(DeviceFault);
    }
    disk.write(at, from)?;
    match file {
        Some(file) => write_file(file, at, from),
        None => Ok(()),
    }
}

fn copy_sector(disk: &mut MemDisk, file: &mut FileDisk, at: u64) {
    let mut sector = [0; 512];
    if at < disk.sectors() && disk.read(at, &mut sector).is_ok() {
        let _written = write_file(file, at, &sector);
    }
}

/// Makes the file what the disk in memory is.
fn copy_to(disk: &mut MemDisk, file: &mut FileDisk) {
    for at in 0..disk.sectors() {
        copy_sector(disk, file, at);
    }
    let _synced = file.sync();
}

fn read_sector(
    disk: &mut MemDisk,
    file: &mut Option<FileDisk>,
    controls: &Controls,
    at: u64,
    into: &mut [u8; 512],
) -> Result<(), DeviceFault> {
    match controls.take() {
        Fuse::Once(0) | Fuse::Filled(0) | Fuse::Each(0) => return Err(DeviceFault),
        _ => {}
    }
    if at >= disk.sectors() {
        return Err(DeviceFault);
    }
    disk.read(at, into)?;
    match file {
        Some(file) => compare(file, controls, at, into),
        None => Ok(()),
    }
}

fn write_sector(
    disk: &mut MemDisk,
    file: &mut Option<FileDisk>,
    controls: &Controls,
    at: u64,
    from: &[u8; 512],
) -> Result<(), DeviceFault> {
    match controls.take() {
        Fuse::Once(0) | Fuse::Each(0) => Err(DeviceFault),
        Fuse::Filled(0) => {
            let _filled = write_both(disk, file, at, &FILL);
            Err(DeviceFault)
        }
        _ => write_both(disk, file, at, from),
    }
}

fn sync_both(disk: &mut MemDisk, file: &mut Option<FileDisk>) -> Result<(), DeviceFault> {
    disk.sync()?;
    match file {
        Some(file) => file.sync(),
        None => Ok(()),
    }
}

fn sync_sectors(
    disk: &mut MemDisk,
    file: &mut Option<FileDisk>,
    controls: &Controls,
) -> Result<(), DeviceFault> {
    match controls.take() {
        Fuse::Once(0) | Fuse::Filled(0) | Fuse::Each(0) => Err(DeviceFault),
        _ => sync_both(disk, file),
    }
}

impl StoryDisk {
    /// A disk of zeros.
    pub fn new(
        alloc: Global,
        controls: Rc<Controls>,
        file: Option<FileDisk>,
        sectors: u64,
    ) -> Option<StoryDisk> {
        match MemDisk::new(alloc, sectors) {
            Ok(disk) => Some(StoryDisk {
                disk,
                file,
                controls,
                sectors,
                clock: 0,
                failures: 0,
            }),
            Err(_) => None,
        }
    }

    /// Makes the file what the disk in memory is.
    pub fn restore(&mut self) {
        if let Some(file) = &mut self.file {
            copy_to(&mut self.disk, file);
        }
    }

    /// Another disk in memory in the place of this one.
    pub fn replace(&mut self, disk: MemDisk, sectors: u64) {
        self.disk = disk;
        self.sectors = sectors;
        self.restore();
    }

    // Lets a moment pass, unless the disk is worn.
    fn pass(&mut self) -> Result<(), DeviceFault>
        ensures before { OnOk result (self.old.clock < 2 ^ 64 - 1) }
        ensures ok { OnOk result (self.new.clock ≡ self.old.clock + 1) }
        ensures room { OnOk result (self.new.failures < self.new.clock) }
        ensures worn { OnErr result (self.old.clock ≡ 2 ^ 64 - 1) }
        ensures err { OnErr result (self.new.clock ≡ self.old.clock) }
        ensures failures { self.new.failures ≡ self.old.failures }
        ensures sectors { self.new.sectors ≡ self.old.sectors }
    {
        if self.clock == u64::MAX {
            return Err(DeviceFault);
        }
        self.clock += 1;
        Ok(())
    }

    // What the disk behind answered: an error is a failure and counted.
    fn count(&mut self, answer: Result<(), DeviceFault>) -> Result<(), DeviceFault>
        requires { self.old.failures < self.old.clock }
        ensures alike { IsErr result ↔ IsErr answer }
        ensures ok { OnOk result (self.new.failures ≡ self.old.failures) }
        ensures err { OnErr result (self.new.failures ≡ self.old.failures + 1) }
        ensures clock { self.new.clock ≡ self.old.clock }
        ensures sectors { self.new.sectors ≡ self.old.sectors }
    {
        match answer {
            Ok(()) => Ok(()),
            Err(_) => {
                self.failures += 1;
                Err(DeviceFault)
            }
        }
    }
}

impl SectorDisk for StoryDisk {
    ghost use Rattle.macs_disk.specs.Evidence.{full-clock, no-claim};
    ghost use Rattle.macs_stories.specs.Disks.{story_disk};

    ghost disk = { story_disk };

    ghost sound = { λ _ honest. no-claim honest };

    ghost wear = { λ it. full-clock it.clock };

    fn sectors(&self) -> u64 {
        self.sectors
    }

    fn read(&mut self, at: u64, into: &mut [u8; 512]) -> Result<(), DeviceFault> {
        self.pass()?;
        let answer = read_sector(&mut self.disk, &mut self.file, &self.controls, at, into);
        self.count(answer)
    }

    fn write(&mut self, at: u64, from: &[u8; 512]) -> Result<(), DeviceFault> {
        self.pass()?;
        let answer = write_sector(&mut self.disk, &mut self.file, &self.controls, at, from);
        self.count(answer)
    }

    fn sync(&mut self) -> Result<(), DeviceFault> {
        self.pass()?;
        let answer = sync_sectors(&mut self.disk, &mut self.file, &self.controls);
        self.count(answer)
    }
}
