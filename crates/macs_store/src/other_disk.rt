//! A store on another disk.

ghost use Rattle.std.specs.Prelude.{◌≡◌, ◌≤◌};
ghost use Rattle.macs_journal.specs.Areas.{least_sectors};
ghost use Rattle.macs_store.specs.Halves.{with_device};
ghost use Rattle.macs_store.specs.Value.{device_in, disk_in, on_device};

use crate::store::Store;
use macs_disk::SectorDisk;

impl<D: SectorDisk> Store<D> {
    /// The disk, to be looked at. It has at least 1,028 sectors.
    pub fn disk(&self) -> &D
        ensures disk { result.now ≡ device_in self.now }
        ensures size { least_sectors ≤ (disk_in D.disk self.now).sectors }
    {
        self.journal.disk()
    }

    /// Puts another disk in the place of the disk, which it returns, and changes nothing else. The
    /// other one has at least 1,028 sectors. If it holds something else, nothing is promised.
    pub fn replace_disk(&mut self, disk: D) -> D
        requires { least_sectors ≤ (D.disk disk).sectors }
        ensures same { self.new ≡ with_device self.old disk }
        ensures disk { result ≡ device_in self.old }
    {
        self.journal.replace_disk(disk)
    }
}

impl<D: SectorDisk + Drop> Store<D> {
    /// The store on another disk, of any type, which has at least 1,028 sectors.
    pub fn on<E: SectorDisk>(self, disk: E) -> Store<E>
        requires { least_sectors ≤ (E.disk disk).sectors }
        ensures { result ≡ on_device self disk }
    {
        let Store {
            journal,
            standing,
            under_way,
        } = self;
        Store {
            journal: journal.on(disk),
            standing,
            under_way,
        }
    }
}
