//! The two parts of an opening. What either takes of the stack is not there while the other runs.

ghost use Rattle.std.specs.Prelude.{◌≡◌, Bool, None};
ghost use Rattle.macs_store.specs.Value.{IsIdle};
ghost use Rattle.macs_c.specs.Calls.{BeginsThere, StoreFrom};

use crate::handle::MacsEndpoint;
use crate::image::ImageDisk;
use crate::reported::ReportedDisk;
use crate::slot::Slot;
use macs_endpoint::Endpoint;
use macs_journal::JournalFault;
use macs_store::Store;

/// Reads what an endpoint keeps from all sectors of its disk, and moves it to a disk with these
/// sectors, whose calls a C program makes. Fails with `TooSmall`, `NotFormatted` or `BadJournal`;
/// at a journal of format one with `Disk`, since nothing is written, or with `GenerationsSpent` if
/// its generation is 2^64 - 1.
#[inline(never)]
pub(crate) fn store_of(sectors: &[[u8; 512]]) -> Result<Store<ReportedDisk>, JournalFault>
    ghost honest: { Bool }
    ensures { StoreFrom honest sectors.now result }
{
    match Store::open(ImageDisk::of(sectors)) {
        Ok(store) => Ok(store.on(ReportedDisk::of(sectors))),
        Err(refused) => Err(refused.fault),
    }
}

/// Puts the endpoint there that begins with what was read. None may be open there.
#[inline(never)]
pub(crate) fn begin(endpoint: &mut MacsEndpoint, store: Store<ReportedDisk>)
    requires closed { endpoint.old.value ≡ None }
    requires idle { IsIdle store }
    ensures { BeginsThere store endpoint.new.value }
{
    endpoint.put(Slot {
        endpoint: Endpoint::with_store(store),
    });
}
