//! A life that a stop cuts short: what it leaves on its disk, and what was known then.

use super::disks::blank;
use super::known::Known;
use super::life::play;
use super::{BLOCK, OWN};
use macs_config::Identity;
use macs_disk::{Fuse, MemDisk, SectorDisk};
use macs_endpoint::{Endpoint, OpenRefused, format};
use macs_journal::JournalFault;
use std::alloc::Global;
use std::process::Abort;

/// A stop: how many device calls pass before it, and what comes of it.
#[derive(Clone, Copy)]
pub(super) struct Stop {
    pub(super) passed: u64,
    pub(super) kind: Kind,
}

/// What comes of a stop.
#[derive(Clone, Copy)]
pub(super) enum Kind {
    /// This call and all later ones do not reach the disk.
    Dead,
    /// The call alone fails: a write has filled its sector with octets ff.
    Filled,
}

/// What a life leaves.
#[derive(Drop)]
pub(super) struct Cut {
    pub(super) disk: MemDisk,
    pub(super) known: Known,
}

/// A disk behind the fuse of a stop.
pub(super) fn fused(disk: MemDisk, stop: Stop) -> Fuse<MemDisk> {
    match stop.kind {
        Kind::Dead => Fuse::new(disk, stop.passed),
        Kind::Filled => Fuse::once(disk, stop.passed, [0xff; 512]),
    }
}

pub(super) fn identity(rt: &impl Abort) -> Identity {
    Identity::new(OWN, BLOCK, BLOCK).expect(rt, "identity")
}

/// The one call of a long contract.
fn format_fused(disk: &mut Fuse<MemDisk>, identity: &Identity) -> Result<(), JournalFault> {
    format(disk, identity)
}

/// A format of the same endpoint, without a stop.
pub(super) fn format_again(rt: &impl Abort, disk: &mut MemDisk) -> Result<(), JournalFault> {
    format(disk, &identity(rt))
}

/// Opens a disk of which a device call may fail: the endpoint, or the disk where one did.
pub(super) fn opening<D: SectorDisk + Drop>(rt: &impl Abort, disk: D) -> Result<Endpoint<D>, D> {
    match Endpoint::open(disk) {
        Ok(endpoint) => Ok(endpoint),
        Err(refused) => {
            let OpenRefused { disk, fault } = refused;
            assert!(rt; fault == JournalFault::Disk);
            Err(disk)
        }
    }
}

/// Opens a disk that no call of fails.
pub(super) fn opened(rt: &impl Abort, disk: MemDisk) -> Endpoint<MemDisk> {
    match opening(rt, disk) {
        Ok(endpoint) => endpoint,
        Err(_) => panic!(rt; "not opened"),
    }
}

/// Plays the script from a blank disk on, to a stop or to its end: whether there was a stop, and
/// what is left.
pub(super) fn play_to(rt: &impl Abort, alloc: Global, stop: Stop) -> (bool, Cut) {
    let identity = identity(rt);
    let mut disk = fused(blank(rt, alloc), stop);
    let mut known = Known::new(&identity);
    if let Err(fault) = format_fused(&mut disk, &identity) {
        assert!(rt; fault == JournalFault::Disk);
        return (
            true,
            Cut {
                disk: disk.into_inner(),
                known,
            },
        );
    }
    known.is_formatted = true;
    match opening(rt, disk) {
        Ok(endpoint) => live(rt, endpoint, known),
        Err(disk) => (
            true,
            Cut {
                disk: disk.into_inner(),
                known,
            },
        ),
    }
}

/// Plays the script with an opened endpoint.
fn live(rt: &impl Abort, endpoint: Endpoint<Fuse<MemDisk>>, known: Known) -> (bool, Cut) {
    let mut endpoint = endpoint;
    let mut known = known;
    let is_cut = play(rt, &mut endpoint, &mut known).is_err();
    assert!(rt; endpoint.is_stopped() == is_cut);
    known.is_under_way = endpoint.under_way().is_some();
    let disk = endpoint.into_disk().into_inner();
    (is_cut, Cut { disk, known })
}
