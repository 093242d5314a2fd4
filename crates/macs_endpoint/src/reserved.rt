//! Packet numbers that are reserved and not used.

ghost use Rattle.std.specs.Prelude.{◌≡◌, false, Ok};
ghost use Rattle.macs_disk.specs.Disk.{MayLeave};
ghost use Rattle.macs_disk.specs.States.{Image};
ghost use Rattle.macs_store.specs.Found.{StandingIs};
ghost use Rattle.macs_store.specs.Standing.{Standing};
ghost use Rattle.macs_store.specs.Value.{IsIdle};
ghost use Rattle.macs_endpoint.specs.Reserved.{Skips, reserved_of};
ghost use Rattle.macs_endpoint.specs.Restart.{opened_state};
ghost use Rattle.macs_endpoint.specs.State.{Logs};
ghost use Rattle.macs_endpoint.specs.Value.{EndpointValue, IsBacked, IsSoundEndpoint, disk_in};
ghost use Rattle.macs_endpoint.specs.Value.{is_stopped, state_of};

use crate::endpoint::Endpoint;
use macs_disk::SectorDisk;
use macs_frame::{An, Sci};

impl<D: SectorDisk> Endpoint<D> {
    /// How many packet numbers of a transmit association are reserved and not used: those from the
    /// next one up to its ceiling, which an opening after a power loss skips. At most a block and a
    /// half; `None` if there is none at that number. A reservation under way counts once it is
    /// made.
    pub fn reserved_tx(&self, an: An) -> Option<u64>
        ensures { result ≡ (reserved_of self.now).tx an }
    {
        let next = self.next_number(an)?;
        let ceiling = self.store.tx_ceiling(an)?;
        Some(ceiling.get().saturating_sub(next))
    }

    /// The same of a receive association: after a power loss frames with these packet numbers are
    /// late. `None` if there is none.
    pub fn reserved_rx(&self, sci: Sci, an: An) -> Option<u64>
        ensures { result ≡ (reserved_of self.now).rx sci an }
    {
        let numbers = self.numbers(sci, an)?;
        let ceiling = self.store.rx_ceiling(sci, an)?;
        Some(ceiling.get().saturating_sub(numbers.next))
    }
}

/// An opening after a power loss skips the reserved numbers, and no other.
///
/// While no work is under way, and no device call failed, each image that a power loss leaves opens
/// at exactly as many numbers after the next ones.
pub fn numbers_are_skipped<D: SectorDisk>()
    ensures { (e : EndpointValue D) (logs : Logs) (image : Image) (found : Standing)
        → IsSoundEndpoint e → IsIdle e.store → is_stopped e ≡ false → IsBacked D.disk e
        → MayLeave (disk_in D.disk e) image
        → StandingIs (state_of e logs).edition (disk_in D.disk e).sectors image (Ok found)
        → Skips (reserved_of e) (state_of e logs) (opened_state found logs) }
{}
