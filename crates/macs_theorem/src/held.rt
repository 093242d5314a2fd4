//! A disk, or the endpoint on it.

ghost use Rattle.std.specs.Prelude.{◌≡◌};
ghost use Rattle.macs_theorem.specs.Events.{disk_held};
ghost use Rattle.macs_theorem.specs.Programs.{holds};

use macs_disk::SectorDisk;
use macs_endpoint::Endpoint;

/// What a program holds.
#[derive(Drop)]
pub enum Held<D: SectorDisk> {
    Disk(D),
    Endpoint(Endpoint<D>),
}

/// The disk.
pub(crate) fn into_disk<D: SectorDisk>(held: Held<D>) -> D
    ensures { D.disk result ≡ disk_held D.disk (holds held) }
{
    match held {
        Held::Disk(disk) => disk,
        Held::Endpoint(endpoint) => endpoint.into_disk(),
    }
}
