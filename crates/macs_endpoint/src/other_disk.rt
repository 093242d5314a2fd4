//! An endpoint on another disk.

ghost use Rattle.std.specs.Prelude.{◌≡◌, ◌≤◌};
ghost use Rattle.macs_journal.specs.Areas.{least_sectors};
ghost use Rattle.macs_endpoint.specs.Halves.{with_device};
ghost use Rattle.macs_endpoint.specs.Value.{device_in, disk_in, on_device};

use crate::endpoint::Endpoint;
use macs_disk::SectorDisk;

impl<D: SectorDisk> Endpoint<D> {
    /// The disk, to be looked at. It has at least 1,028 sectors.
    pub fn disk(&self) -> &D
        ensures disk { result.now ≡ device_in self.now }
        ensures size { least_sectors ≤ (disk_in D.disk self.now).sectors }
    {
        self.store.disk()
    }

    /// Puts another disk in the place of the disk, which it returns, and changes nothing else. The
    /// other one has at least 1,028 sectors. It is to hold what `did_call` continues from: if it
    /// holds something else, nothing is promised.
    pub fn replace_disk(&mut self, disk: D) -> D
        requires { least_sectors ≤ (D.disk disk).sectors }
        ensures same { self.new ≡ with_device self.old disk }
        ensures disk { result ≡ device_in self.old }
    {
        self.store.replace_disk(disk)
    }
}

impl<D: SectorDisk + Drop> Endpoint<D> {
    /// The endpoint on another disk, of any type, which has at least 1,028 sectors. If no work is
    /// under way, and both disks hold the same now, that one holds what is in memory
    /// (`laws::other_disks_back`).
    #[inline(always)] // Else it has a place of its own for the endpoint, beside its caller's.
    pub fn on<E: SectorDisk>(self, disk: E) -> Endpoint<E>
        requires { least_sectors ≤ (E.disk disk).sectors }
        ensures { result ≡ on_device self disk }
    {
        let Endpoint {
            store,
            queue,
            turn,
            channels,
        } = self;
        Endpoint {
            store: store.on(disk),
            queue,
            turn,
            channels,
        }
    }
}
