//! A disk in a file.

ghost use Rattle.std.specs.Prelude.{◌≡◌, ◌<◌, ◌≤◌, ◌+◌, ◌-◌, ◌^◌, ◌↔◌, true, false, [], ◌∷◌, ◌++◌};
ghost use Rattle.std.specs.Prelude.{length, IsErr, OnErr, OnOk};
ghost use Rattle.macs_disk.specs.Layouts.{place};

use crate::disk::{DeviceFault, SectorDisk};
use crate::disk_file::DiskFile;
use crate::file_calls::{read_sector, write_all};
use crate::layout::Layout;
use crate::log::Log;
use std::fs::File;
use std::io;
use std::snapshot::Snapshot;

/// A disk in a file of whole sectors, placed according to its layout.
///
/// It is an honest disk if its file behaves, has no other user, and lies on a device whose blocks
/// suit the layout. That is not claimed of a file of the operating system: whether reads give what
/// was written, and what a power loss leaves, is up to the system and the device. Only one disk at
/// a time may use a file, since what another program does to the file goes unnoticed.
///
/// A read or a write that moves fewer octets is continued to the sector's end, and an interrupted
/// one is retried. Every other error of the file is a `DeviceFault`; so is a read of a sector that
/// the file no longer has. What a failed read leaves in `into` is not a sector.
///
/// After a failed sync a file may show octets that the device does not have, and later syncs may
/// skip them. So once a call of a disk has failed, each later call fails, and the next opening
/// makes the file anew.
#[derive(Drop)]
pub struct FileDisk<F = File> {
    file: F,
    /// The file whose octets the disk started with, as it was claimed. It takes no memory: only
    /// proofs read it.
    given: Snapshot<F>,
    /// The file of the disk as it was made. Only proofs read it.
    made: Snapshot<F>,
    /// The file as the disk shows it at this moment: its current state, until a sync has failed.
    /// Only proofs read it.
    shown: Snapshot<F>,
    /// The same at each moment before this one. Only proofs read it.
    past: Log<Snapshot<F>>,
    layout: Layout,
    sectors: u64,
    clock: u64,
    failures: u64,
    /// All octets of the file are durable: opening synced it, and no call was made since.
    is_settled: bool,
    /// A call has failed.
    is_failed: bool,
    ghost fits: { place layout sectors < 2 ^ 64 },
    ghost few: { failures ≤ clock },
    ghost kept: { length past.items ≡ clock },
    ghost settled: { is_settled ≡ true → clock ≡ 0 },
    ghost current: { is_failed ≡ false → shown.value ≡ file },
}

impl<F: DiskFile> FileDisk<F> {
    ghost use Rattle.macs_disk.specs.FileDisks.{IsFresh, IsRefused, disk_in_file};
    ghost use Rattle.macs_disk.specs.Files.{Behaves, SyncsFile};

    /// A disk in a file that is durable and has the disk's sectors, with the original file and its
    /// own initial state.
    pub(crate) fn new(
        file: F,
        given: Snapshot<F>,
        made: Snapshot<F>,
        layout: Layout,
        sectors: u64,
    ) -> Self
        requires { place layout sectors < 2 ^ 64 }
        ensures sectors { result.sectors ≡ sectors }
        ensures layout { result.layout ≡ layout }
        ensures file { result.file ≡ file }
        ensures shown { result.shown.value ≡ file }
        ensures given { result.given.value ≡ given.value }
        ensures made { result.made.value ≡ made.value }
        ensures past { result.past.items ≡ [] }
        ensures clock { result.clock ≡ 0 }
        ensures failures { result.failures ≡ 0 }
        ensures fresh { IsFresh (disk_in_file F.file result) }
    {
        let shown = Snapshot::of(&file);
        FileDisk {
            file,
            given,
            made,
            shown,
            past: Log::new(),
            layout,
            sectors,
            clock: 0,
            failures: 0,
            is_settled: true,
            is_failed: false,
        }
    }

    /// Advances the clock, and lets a call reach the file. It does not if the disk is worn; if an
    /// earlier call failed it is a failure, and counted.
    fn begin(&mut self) -> Result<(), DeviceFault>
        ensures ok { OnOk result
            ((self.old.clock < 2 ^ 64 - 1) × (self.new.clock ≡ self.old.clock + 1)) }
        ensures live { OnOk result ((self.old.is_failed ≡ false) × (self.new.is_failed ≡ false)) }
        ensures room { OnOk result (self.new.failures < self.new.clock) }
        ensures steady { OnOk result (self.new.failures ≡ self.old.failures) }
        ensures past { OnOk result
            (self.new.past.items ≡ self.old.past.items ++ self.old.shown ∷ []) }
        ensures refused { OnErr result (IsRefused F.file self.old self.new) }
        ensures same { self.new.is_failed ≡ self.old.is_failed }
        ensures shown { self.new.shown ≡ self.old.shown }
        ensures file { self.new.file ≡ self.old.file }
        ensures layout { self.new.layout ≡ self.old.layout }
        ensures sectors { self.new.sectors ≡ self.old.sectors }
    {
        if self.clock == u64::MAX {
            return Err(DeviceFault);
        }
        self.past = self.past.and(&self.shown);
        self.clock += 1;
        self.is_settled = false;
        if self.is_failed {
            self.failures += 1;
            return Err(DeviceFault);
        }
        Ok(())
    }

    /// The disk's answer for the file's answer: an error is counted as a failure, and no later call
    /// reaches the file.
    fn count(&mut self, answer: io::Result<()>) -> Result<(), DeviceFault>
        requires { self.old.failures < self.old.clock }
        ensures alike { IsErr result ↔ IsErr answer }
        ensures ok { OnOk result (self.new.failures ≡ self.old.failures) }
        ensures err { OnErr result (self.new.failures ≡ self.old.failures + 1) }
        ensures stopped { OnErr result (self.new.is_failed ≡ true) }
        ensures clock { self.new.clock ≡ self.old.clock }
        ensures sectors { self.new.sectors ≡ self.old.sectors }
        ensures layout { self.new.layout ≡ self.old.layout }
        ensures shown { self.new.shown ≡ self.old.shown }
        ensures file { self.new.file ≡ self.old.file }
        ensures past { self.new.past.items ≡ self.old.past.items }
    {
        match answer {
            Ok(()) => Ok(()),
            Err(_) => {
                self.failures += 1;
                self.is_failed = true;
                Err(DeviceFault)
            }
        }
    }

    // Syncs the file, and shows its new state. An error is counted as a failure, and no later call
    // reaches the file.
    fn sync_file(&mut self) -> Result<(), DeviceFault>
        requires { self.old.failures < self.old.clock }
        ensures steady { (F.file self.new.file).behaves ≡ (F.file self.old.file).behaves }
        ensures effect { Behaves (F.file self.old.file)
            → SyncsFile (F.file self.old.file) (F.file self.new.file) result }
        ensures shown { OnOk result (self.new.shown.value ≡ self.new.file) }
        ensures still { OnErr result (self.new.shown ≡ self.old.shown) }
        ensures ok { OnOk result (self.new.failures ≡ self.old.failures) }
        ensures err { OnErr result (self.new.failures ≡ self.old.failures + 1) }
        ensures stopped { OnErr result (self.new.is_failed ≡ true) }
        ensures clock { self.new.clock ≡ self.old.clock }
        ensures sectors { self.new.sectors ≡ self.old.sectors }
        ensures layout { self.new.layout ≡ self.old.layout }
        ensures past { self.new.past.items ≡ self.old.past.items }
    {
        let Ok(()) = self.file.sync() else {
            // The disk still shows the file as it was: a failed sync changes nothing.
            self.failures += 1;
            self.is_failed = true;
            return Err(DeviceFault);
        };
        self.shown = Snapshot::of(&self.file);
        Ok(())
    }
}

impl<F: DiskFile> SectorDisk for FileDisk<F> {
    ghost use Rattle.std.specs.Prelude.{◌≡◌, ◌≢◌, ◌<◌, ◌⊎◌, IsErr, OnErr, true};
    ghost use Rattle.macs_disk.specs.Disk.{IsDeviceCall, IsHonest, Reads, Syncs, Writes, now};
    ghost use Rattle.macs_disk.specs.Evidence.{full-clock};
    ghost use Rattle.macs_disk.specs.FileDisks.{IsFoundAgain, IsLeftAsShown, disk_in_file};
    ghost use Rattle.macs_disk.specs.FileDisks.{file_left, is_stopped};
    ghost use Rattle.macs_disk.specs.FileDisks.{layout_of};
    ghost use Rattle.macs_disk.specs.FileEvidence.{file-sound};
    ghost use Rattle.macs_disk.specs.Files.{Behaves, WritesAll, file_in_doubt};
    ghost use Rattle.macs_disk.specs.Layouts.{mark_place, place};

    ghost disk = { disk_in_file F.file };

    ghost sound = { λ it honest. file-sound F.file F.sound it.layout it.shown it.past.items it.clock
        it.sectors it.kept honest };

    ghost wear = { λ it. full-clock it.clock };

    fn sectors(&self) -> u64 {
        self.sectors
    }

    fn read(&mut self, at: u64, into: &mut [u8; 512]) -> Result<(), DeviceFault>
        requires { at < (disk_in_file F.file self.old).sectors }
        ensures call { IsDeviceCall (disk_in_file F.file self.old)
            (disk_in_file F.file self.new) result }
        ensures effect { IsHonest (disk_in_file F.file self.new)
            → Reads (now (disk_in_file F.file self.old)) (now (disk_in_file F.file self.new))
            at into.new result }
        ensures file { Behaves (F.file (file_left self.old))
            → F.file (file_left self.new) ≡ F.file (file_left self.old) }
        ensures stops { is_stopped self.old ≡ true → IsErr result }
        ensures stopped { OnErr result
            ((is_stopped self.new ≡ true) ⊎ ((disk_in_file F.file self.new).worn ≡ true)) }
        ensures left { IsLeftAsShown F.file self.old → IsLeftAsShown F.file self.new }
        ensures again { IsFoundAgain F.file self.old → IsFoundAgain F.file self.new }
    {
        self.begin()?;
        let answer = read_sector(&mut self.file, self.layout, at, into);
        self.shown = Snapshot::of(&self.file);
        self.count(answer)
    }

    fn write(&mut self, at: u64, from: &[u8; 512]) -> Result<(), DeviceFault>
        requires { at < (disk_in_file F.file self.old).sectors }
        ensures call { IsDeviceCall (disk_in_file F.file self.old)
            (disk_in_file F.file self.new) result }
        ensures effect { IsHonest (disk_in_file F.file self.new)
            → Writes (now (disk_in_file F.file self.old)) (now (disk_in_file F.file self.new))
            at from.now result }
        ensures file { Behaves (F.file (file_left self.old))
            → WritesAll (F.file (file_left self.old))
            (F.file (file_left self.new)) (place (layout_of self.old) at) from.now result }
        ensures stops { is_stopped self.old ≡ true → IsErr result }
        ensures stopped { OnErr result
            ((is_stopped self.new ≡ true) ⊎ ((disk_in_file F.file self.new).worn ≡ true)) }
        ensures left { IsLeftAsShown F.file self.old → IsLeftAsShown F.file self.new }
        // A write of sector 8,224 of a packed disk overwrites the place of the mark, and may cause
        // the file to be found with the other layout. Neither a journal nor a spaced disk has such
        // a sector.
        ensures again { place (layout_of self.old) at ≢ mark_place
            → IsFoundAgain F.file self.old → IsFoundAgain F.file self.new }
    {
        self.begin()?;
        let answer = write_all(&mut self.file, self.layout.place(at), from);
        self.shown = Snapshot::of(&self.file);
        self.count(answer)
    }

    /// A settled file is not synced again. If a sync fails, the file is in doubt, and is neither
    /// synced nor written any more.
    fn sync(&mut self) -> Result<(), DeviceFault>
        ensures call { IsDeviceCall (disk_in_file F.file self.old)
            (disk_in_file F.file self.new) result }
        ensures effect { IsHonest (disk_in_file F.file self.new)
            → Syncs (now (disk_in_file F.file self.old))
            (now (disk_in_file F.file self.new)) result }
        ensures file { Behaves (F.file (file_left self.old)) → OnErr result
            ((F.file (file_left self.new) ≡ F.file (file_left self.old))
            ⊎ (F.file (file_left self.new) ≡ file_in_doubt (F.file (file_left self.old)))) }
        ensures stops { is_stopped self.old ≡ true → IsErr result }
        ensures stopped { OnErr result
            ((is_stopped self.new ≡ true) ⊎ ((disk_in_file F.file self.new).worn ≡ true)) }
        ensures left { IsLeftAsShown F.file self.old → IsLeftAsShown F.file self.new }
        ensures again { IsFoundAgain F.file self.old → IsFoundAgain F.file self.new }
    {
        let is_settled = self.is_settled;
        self.begin()?;
        if is_settled {
            return Ok(());
        }
        self.sync_file()
    }
}
