//! Writing the bodies of an area.

ghost use Rattle.std.specs.Prelude.{◌<◌, ◌≤◌, ℕ, List};
ghost use Rattle.macs_disk.specs.Disk.{IsDeviceCall, IsHonest, Writes, now};
ghost use Rattle.macs_record.specs.Decoding.{IsSectorOf};
ghost use Rattle.macs_record.specs.Heads.{IsHeadOf};
ghost use Rattle.macs_journal.specs.Areas.{head_body, least_sectors, slot_body, slots};

use crate::area::Area;
use macs_disk::{DeviceFault, SectorDisk};
use macs_record::laws::{head_in_range, record_in_range};
use macs_record::{Head, Record, encode, encode_head};

/// Writes the body of an area's head, in one device call.
pub(crate) fn write_head<D: SectorDisk>(
    disk: &mut D,
    area: Area,
    head: &Head,
) -> Result<(), DeviceFault>
    requires { least_sectors ≤ (D.disk disk.old).sectors }
    ensures call { IsDeviceCall (D.disk disk.old) (D.disk disk.new) result }
    ensures does { IsHonest (D.disk disk.new) → (octets : List ℕ) × IsHeadOf head.now octets
        × Writes (now (D.disk disk.old)) (now (D.disk disk.new)) (head_body area) octets result }
{
    head_in_range(head);
    disk.write(area.head_body(), &encode_head(head))
}

/// Writes the body of a slot, in one device call.
pub(crate) fn write_record<D: SectorDisk>(
    disk: &mut D,
    area: Area,
    slot: u64,
    value: &Record,
) -> Result<(), DeviceFault>
    requires room { slot < slots }
    requires size { least_sectors ≤ (D.disk disk.old).sectors }
    ensures call { IsDeviceCall (D.disk disk.old) (D.disk disk.new) result }
    ensures does { IsHonest (D.disk disk.new) → (octets : List ℕ) × IsSectorOf value.now octets
        × Writes (now (D.disk disk.old)) (now (D.disk disk.new)) (slot_body area slot)
        octets result }
{
    record_in_range(value);
    disk.write(area.slot_body(slot), &encode(value))
}
