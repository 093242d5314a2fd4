//! A disk whose sectors lie in memory and are only read.

ghost use Rattle.std.specs.Prelude.{◌≡◌, ◌<◌, ◌+◌, Some, [], get_or, length, OnOk};
ghost use Rattle.macs_disk.specs.Disk.{IsDeviceCall, now};
ghost use Rattle.macs_disk.specs.Evidence.{no-claim};
ghost use Rattle.macs_disk.specs.States.{IsSector, settled_state};
ghost use Rattle.macs_c.specs.Evidence.{image-sound};
ghost use Rattle.macs_c.specs.ImageDisks.{ImageValue, image_disk, image_from, image_of};

use crate::history::History;
use macs_disk::{DeviceFault, SectorDisk};
use std::marker::Model;

/// A disk whose sectors lie in memory and are only read: a write fails, and so does each call after
/// it. A sync has nothing to do.
#[derive(Drop)]
pub(crate) struct ImageDisk<'a> {
    sectors: &'a [[u8; 512]],
    /// The sector to which a write was tried.
    tried: Option<u64>,
    history: History,
}

impl<'a> Model for ImageDisk<'a> {
    ghost Value = { ImageValue };

    ghost view = { λ it. record {
      sectors = it.sectors.now;
      tried = it.tried;
      calls = it.history.calls;
      more = it.history.more;
    } };
}

/// For proofs, does nothing: a sector has 512 octets.
pub(crate) fn sector_in_range(sector: [u8; 512])
    ensures { IsSector sector }
{
    let _first = sector[0];
}

/// The octets of a sector.
pub(crate) fn sector_at(sectors: &[[u8; 512]], at: u64) -> [u8; 512]
    requires { at < length sectors.now }
    ensures octets { result ≡ get_or sectors.now at [] }
    ensures sector { IsSector result }
{
    let sector = sectors[at as usize];
    sector_in_range(sector);
    sector
}

impl<'a> ImageDisk<'a> {
    /// The disk with these sectors.
    pub(crate) fn of(sectors: &'a [[u8; 512]]) -> Self
        ensures { result ≡ image_from sectors.now }
    {
        ImageDisk {
            sectors,
            tried: None,
            history: History::new(),
        }
    }

    /// Counts a call that fails, after a write was tried.
    fn refuse(&mut self)
        ensures { self.new ≡ record self.old { more = self.old.more + 1 } }
    {
        self.history = self.history.with();
    }

    /// Counts a call that succeeds.
    fn count(&mut self)
        ensures { self.new ≡ record self.old { calls = self.old.calls + 1 } }
    {
        self.history = self.history.with();
    }

    /// Counts the first write that is tried, which fails.
    fn stop(&mut self, at: u64)
        ensures { self.new ≡ record self.old { tried = Some at; more = 0 } }
    {
        self.tried = Some(at);
        self.history = self.history.with();
    }

    /// Makes a call that changes nothing, and fails if a write was tried before.
    fn pass(&mut self) -> Result<(), DeviceFault>
        ensures call { IsDeviceCall (image_disk self.old) (image_disk self.new) result }
        ensures same { now (image_disk self.new) ≡ now (image_disk self.old) }
        ensures settled { OnOk result
            (now (image_disk self.old) ≡ settled_state (image_of self.new.sectors)) }
        ensures sectors { self.new.sectors ≡ self.old.sectors }
    {
        if self.tried.is_some() {
            self.refuse();
            return Err(DeviceFault);
        }
        self.count();
        Ok(())
    }
}

impl<'a> SectorDisk for ImageDisk<'a> {
    ghost disk = { image_disk };

    ghost sound = { λ it _. image-sound it };

    ghost wear = { λ _ worn. no-claim worn };

    fn sectors(&self) -> u64 {
        self.sectors.len() as u64
    }

    fn read(&mut self, at: u64, into: &mut [u8; 512]) -> Result<(), DeviceFault> {
        self.pass()?;
        *into = sector_at(self.sectors, at);
        Ok(())
    }

    /// Fails.
    fn write(&mut self, at: u64, _from: &[u8; 512]) -> Result<(), DeviceFault> {
        if self.tried.is_some() {
            self.refuse();
        } else {
            self.stop(at);
        }
        Err(DeviceFault)
    }

    fn sync(&mut self) -> Result<(), DeviceFault> {
        self.pass()
    }
}
