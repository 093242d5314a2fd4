//! New endpoints, whose disks are in memory.

use macs_aes::Key;
use macs_config::{Command, Identity};
use macs_disk::{MemDisk, SectorDisk};
use macs_endpoint::{Endpoint, format};
use macs_frame::{An, Sci};
use std::alloc::Global;
use std::process::Abort;

/// The SCI of most endpoints here.
pub(super) const OWN: Sci = Sci([2, 0, 0, 0, 0, 1, 0, 1]);

/// The SCI of the other endpoint.
pub(super) const THERE: Sci = Sci([2, 0, 0, 0, 0, 2, 0, 1]);

pub(super) fn number_of(rt: &impl Abort, association: u8) -> An {
    An::new(association).expect(rt, "association number")
}

/// A disk in memory with the journal of a new endpoint, whose blocks have so many packet numbers.
pub(super) fn formatted(rt: &impl Abort, alloc: Global, sci: Sci, block: u32) -> MemDisk {
    let identity = Identity::new(sci, block, block).expect(rt, "identity");
    formatted_as(rt, alloc, &identity)
}

/// A disk in memory with the journal of a new endpoint of this identity.
pub(super) fn formatted_as(rt: &impl Abort, alloc: Global, identity: &Identity) -> MemDisk {
    let mut disk = match MemDisk::new(alloc, 1_028) {
        Ok(disk) => disk,
        Err(_) => panic!(rt; "no disk"),
    };
    assert!(rt; format(&mut disk, identity).is_ok());
    disk
}

pub(super) fn opened<D: SectorDisk + Drop>(rt: &impl Abort, disk: D) -> Endpoint<D> {
    match Endpoint::open(disk) {
        Ok(endpoint) => endpoint,
        Err(_) => panic!(rt; "not opened"),
    }
}

pub(super) fn command<D: SectorDisk>(
    rt: &impl Abort,
    endpoint: &mut Endpoint<D>,
    command: Command,
) {
    assert!(rt; endpoint.command(command).is_ok());
}

/// The endpoint of a disk, sending under association 0 from packet number 1 on.
pub(super) fn sending<D: SectorDisk + Drop>(rt: &impl Abort, disk: D) -> Endpoint<D> {
    let an = number_of(rt, 0);
    let mut endpoint = opened(rt, disk);
    let install = Command::TxInstall {
        an,
        key: Key::Short([7; 16]),
        start: 1,
        confidential: true,
        offset: 0,
    };
    command(rt, &mut endpoint, install);
    command(rt, &mut endpoint, Command::TxUse { an });
    endpoint
}
