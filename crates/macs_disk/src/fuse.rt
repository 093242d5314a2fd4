//! A disk that stops after some calls, or fails one of them.

ghost use Rattle.std.specs.Prelude.{◌≡◌, ◌≢◌, ◌≤◌, ◌<◌, ◌+◌, ◌^◌, ℕ, List, Option, Some, IsErr};
ghost use Rattle.std.specs.Prelude.{OnOk, OnErr, IfSome};
ghost use Rattle.macs_disk.specs.States.{IsSector};
ghost use Rattle.macs_disk.specs.Disk.{IsDeviceCall, IsHonest, Reads, Syncs, Writes, now};
ghost use Rattle.macs_disk.specs.Fuses.{AreCounted, BlowsWrite, FuseValue, IsCounted, IsPassing};
ghost use Rattle.macs_disk.specs.Fuses.{disk_of_fuse};
ghost use Rattle.macs_disk.specs.Fuses.{fuse_after_blown_call, fuse_after_passed_call};
ghost use Rattle.macs_disk.specs.Fuses.{fuse_after_stopped_call};
ghost use Rattle.macs_disk.specs.declared.fuse.Blow.TheVariants.{EachCall, OneCall, NoCall};

use crate::disk::{DeviceFault, SectorDisk};
use std::marker::Model;
use std::snapshot::Snapshot;

/// Which calls a fuse fails once it has passed on those that were left.
#[derive(Clone, Copy)]
pub(crate) enum Blow {
    /// Each call.
    EachCall,
    /// Only the next call. If it is a write, these octets are written in its place.
    OneCall([u8; 512]),
    /// None: it has failed its one call.
    NoCall,
}

/// A disk around another: it passes some calls on, and then fails each, or one. A call that it
/// fails does not reach the inner disk, except for a write that `once` fails. A failed call that
/// did not reach the inner disk is counted as missed and as added; a failed write that the inner
/// disk took is only added.
#[derive(Drop)]
pub struct Fuse<D: SectorDisk> {
    disk: D,
    when: Snapshot<D>,
    left: u64,
    blow: Blow,
    missed: u64,
    added: u64,
}

impl<D: SectorDisk> Model for Fuse<D> {
    ghost Value = { FuseValue D };

    ghost view = { λ fuse. record {
      inner = fuse.disk;
      when = fuse.when.value;
      left = fuse.left;
      blow = fuse.blow;
      missed = fuse.missed;
      added = fuse.added;
    } };

    ghost invariant = { λ fuse.
        AreCounted fuse.blow (D.disk fuse.when.value).clock (D.disk fuse.disk).clock
        fuse.left fuse.missed fuse.added };
}

impl<D: SectorDisk> Fuse<D> {
    /// A fuse that passes `left` calls of `read`, `write` and `sync` on to the disk, and then fails
    /// each call.
    pub fn new(disk: D, left: u64) -> Self
        ensures { result ≡ record {
          inner = disk;
          when = disk;
          left = left;
          blow = EachCall;
          missed = 0;
          added = 0;
        } }
    {
        Fuse::with(disk, left, Blow::EachCall)
    }

    /// A fuse that passes `left` calls of `read`, `write` and `sync` on to the disk, fails the next
    /// one, and passes all later ones on. If the one that it fails is a write, it writes `fill`
    /// into that sector of the disk; a read or a sync that it fails changes nothing there.
    pub fn once(disk: D, left: u64, fill: [u8; 512]) -> Self
        ensures { result ≡ record {
          inner = disk;
          when = disk;
          left = left;
          blow = OneCall fill;
          missed = 0;
          added = 0;
        } }
    {
        Fuse::with(disk, left, Blow::OneCall(fill))
    }

    // A fuse that has failed no call yet.
    fn with(disk: D, left: u64, blow: Blow) -> Self
        ensures { result ≡ record {
          inner = disk;
          when = disk;
          left = left;
          blow = blow;
          missed = 0;
          added = 0;
        } }
    {
        let when = Snapshot::of(&disk);
        Fuse {
            disk,
            when,
            left,
            blow,
            missed: 0,
            added: 0,
        }
    }

    /// The inner disk.
    pub fn into_inner(self) -> D
        ensures { result ≡ self.inner }
    {
        let Fuse { disk, .. } = self;
        disk
    }

    // Accounts for a call that will be passed on, or counts one that the inner disk misses.
    fn pass(&mut self) -> Result<(), DeviceFault>
        ensures counted { IsCounted D.disk self.old }
        ensures ok { OnOk result
            (IsPassing self.old × (self.new ≡ fuse_after_passed_call self.old self.old.inner)) }
        ensures few { OnOk result (self.old.missed ≤ 1) }
        ensures err { OnErr result ((self.old.left ≡ 0) × (self.old.blow ≢ NoCall)) }
        ensures stopped { self.old.left ≡ 0 → self.old.blow ≡ EachCall
            → IsErr result × (self.new ≡ fuse_after_stopped_call self.old) }
        ensures blown { (fill : List ℕ) → self.old.left ≡ 0 → self.old.blow ≡ OneCall fill
            → IsErr result × (self.new ≡ fuse_after_blown_call self.old) }
    {
        if self.left > 0 {
            self.left -= 1;
            return Ok(());
        }
        match self.blow {
            Blow::NoCall => return Ok(()),
            Blow::OneCall(_) => self.blow = Blow::NoCall,
            Blow::EachCall => {}
        }
        self.when = Snapshot::of(&self.disk);
        self.missed = self.missed.saturating_add(1);
        self.added = self.added.saturating_add(1);
        Err(DeviceFault)
    }

    // The octets that the next call will write if it is a write, if it is the one that fails.
    fn fill(&self) -> Option<[u8; 512]>
        ensures some { IfSome result
            (λ fill. (self.now.left ≡ 0) × (self.now.blow ≡ OneCall fill)) }
        ensures found { (fill : List ℕ) → self.now.left ≡ 0 → self.now.blow ≡ OneCall fill
            → result ≡ Some fill }
    {
        match self.blow {
            Blow::OneCall(fill) if self.left == 0 => Some(fill),
            _ => None,
        }
    }

    // Fails the one call, a write: these octets are written in its place.
    fn blow_write(&mut self, at: u64, fill: &[u8; 512]) -> Result<(), DeviceFault>
        requires within { at < (D.disk self.old.inner).sectors }
        requires next { (self.old.left ≡ 0) × (self.old.blow ≡ OneCall fill.now) }
        ensures counted { IsCounted D.disk self.old }
        ensures err { IsErr result }
        ensures sector { IsSector fill.now }
        ensures blown { BlowsWrite D.disk self.old self.new at fill.now }
    {
        self.when = Snapshot::of(&self.disk);
        self.blow = Blow::NoCall;
        if self.disk.write(at, fill).is_ok() {
            self.added += 1;
        }
        Err(DeviceFault)
    }
}

impl<D: SectorDisk> SectorDisk for Fuse<D> {
    ghost use Rattle.macs_disk.specs.Evidence.{fuse-sound, fuse-wear};

    ghost disk = { disk_of_fuse D.disk };

    ghost sound = { λ fuse honest. fuse-sound D.disk fuse (D.sound fuse.inner honest) };

    ghost wear = { λ fuse. fuse-wear D.disk fuse (D.wear fuse.inner) };

    fn sectors(&self) -> u64 {
        self.disk.sectors()
    }

    fn read(&mut self, at: u64, into: &mut [u8; 512]) -> Result<(), DeviceFault>
        requires { at < (disk_of_fuse D.disk self.old).sectors }
        ensures call { IsDeviceCall (disk_of_fuse D.disk self.old)
            (disk_of_fuse D.disk self.new) result }
        ensures effect { IsHonest (disk_of_fuse D.disk self.new)
            → Reads (now (disk_of_fuse D.disk self.old)) (now (disk_of_fuse D.disk self.new))
            at into.new result }
        ensures passed { IsPassing self.old
            → (self.new ≡ fuse_after_passed_call self.old self.new.inner)
            × IsDeviceCall (D.disk self.old.inner) (D.disk self.new.inner) result }
        ensures stopped { self.old.left ≡ 0 → self.old.blow ≡ EachCall
            → IsErr result × (self.new ≡ fuse_after_stopped_call self.old) }
        ensures blown { (fill : List ℕ) → self.old.left ≡ 0 → self.old.blow ≡ OneCall fill
            → IsErr result × (self.new ≡ fuse_after_blown_call self.old) }
        ensures unread { ¬ IsPassing self.old → into.new ≡ into.old }
    {
        // A read that fails reads nothing.
        self.pass()?;
        self.disk.read(at, into)
    }

    fn write(&mut self, at: u64, from: &[u8; 512]) -> Result<(), DeviceFault>
        requires { at < (disk_of_fuse D.disk self.old).sectors }
        ensures call { IsDeviceCall (disk_of_fuse D.disk self.old)
            (disk_of_fuse D.disk self.new) result }
        ensures effect { IsHonest (disk_of_fuse D.disk self.new)
            → Writes (now (disk_of_fuse D.disk self.old)) (now (disk_of_fuse D.disk self.new))
            at from.now result }
        ensures passed { IsPassing self.old
            → (self.new ≡ fuse_after_passed_call self.old self.new.inner)
            × IsDeviceCall (D.disk self.old.inner) (D.disk self.new.inner) result }
        ensures stopped { self.old.left ≡ 0 → self.old.blow ≡ EachCall
            → IsErr result × (self.new ≡ fuse_after_stopped_call self.old) }
        ensures blown { (fill : List ℕ) → self.old.left ≡ 0 → self.old.blow ≡ OneCall fill
            → IsErr result × BlowsWrite D.disk self.old self.new at fill }
    {
        if let Some(fill) = self.fill() {
            return self.blow_write(at, &fill);
        }
        self.pass()?;
        self.disk.write(at, from)
    }

    fn sync(&mut self) -> Result<(), DeviceFault>
        ensures call { IsDeviceCall (disk_of_fuse D.disk self.old)
            (disk_of_fuse D.disk self.new) result }
        ensures effect { IsHonest (disk_of_fuse D.disk self.new)
            → Syncs (now (disk_of_fuse D.disk self.old))
            (now (disk_of_fuse D.disk self.new)) result }
        ensures passed { IsPassing self.old
            → (self.new ≡ fuse_after_passed_call self.old self.new.inner)
            × IsDeviceCall (D.disk self.old.inner) (D.disk self.new.inner) result }
        ensures stopped { self.old.left ≡ 0 → self.old.blow ≡ EachCall
            → IsErr result × (self.new ≡ fuse_after_stopped_call self.old) }
        ensures blown { (fill : List ℕ) → self.old.left ≡ 0 → self.old.blow ≡ OneCall fill
            → IsErr result × (self.new ≡ fuse_after_blown_call self.old) }
    {
        // A sync that fails syncs nothing.
        self.pass()?;
        self.disk.sync()
    }
}
