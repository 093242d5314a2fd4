//! The first fault of a bad journal.

ghost use Rattle.std.specs.Prelude.{◌≤◌, ◌<◌, ◌↔◌, IfOk, IsTrue};
ghost use Rattle.macs_disk.specs.Disk.{IsHonest, now};
ghost use Rattle.macs_journal.specs.Areas.{least_sectors, slots};
ghost use Rattle.macs_journal.specs.FirstFault.{AreaFaultIs, FirstFaultIs, GateFaultIs, IsUsed};
ghost use Rattle.macs_journal.specs.Recovery.{OnlyReads};

use crate::area::{Area, SLOTS};
use crate::heads::{Choice, current_area};
use crate::slots::{gate_is_open, read_record};
use macs_disk::{DeviceFault, SectorDisk};

/// Finds the sector of the first fault of the journal that reads give: a head, or the body or the
/// gate of a slot of the current area. `None` if the journal is not bad.
pub fn first_fault<D: SectorDisk>(disk: &mut D) -> Result<Option<u64>, DeviceFault>
    requires { least_sectors ≤ (D.disk disk.old).sectors }
    ensures reads { OnlyReads (D.disk disk.old) (D.disk disk.new) result }
    ensures fault { IfOk result (λ fault. IsHonest (D.disk disk.new)
        → FirstFaultIs (now (D.disk disk.old)).seen fault) }
{
    let choice = current_area(disk)?;
    match choice {
        Choice::Neither => Ok(None),
        Choice::Refused(at) => Ok(Some(at)),
        Choice::Current(area, head) => area_fault(disk, area, u64::from(head.count())),
    }
}

/// The faulty sector of the first slot of an area that has one.
fn area_fault<D: SectorDisk>(
    disk: &mut D,
    area: Area,
    count: u64,
) -> Result<Option<u64>, DeviceFault>
    requires { least_sectors ≤ (D.disk disk.old).sectors }
    ensures reads { OnlyReads (D.disk disk.old) (D.disk disk.new) result }
    ensures fault { IfOk result (λ fault. IsHonest (D.disk disk.new)
        → AreaFaultIs (now (D.disk disk.old)).seen area count fault) }
{
    for slot in 0..SLOTS {
        let used = is_used(disk, area, count, slot)?;
        if !used {
            return gate_fault(disk, area, slot);
        }
        let Some(_record) = read_record(disk, area, slot)? else {
            return Ok(Some(area.slot_body(slot)));
        };
    }
    Ok(None)
}

/// Whether a slot is used: it is part of the snapshot, or its gate is open.
fn is_used<D: SectorDisk>(
    disk: &mut D,
    area: Area,
    count: u64,
    slot: u64,
) -> Result<bool, DeviceFault>
    requires room { slot < slots }
    requires size { least_sectors ≤ (D.disk disk.old).sectors }
    ensures reads { OnlyReads (D.disk disk.old) (D.disk disk.new) result }
    ensures used { IfOk result (λ is. IsHonest (D.disk disk.new)
        → IsTrue is ↔ IsUsed (now (D.disk disk.old)).seen area count slot) }
{
    if slot < count {
        return Ok(true);
    }
    gate_is_open(disk, area, slot)
}

/// The gate of a slot that is not used, if a later gate is open.
fn gate_fault<D: SectorDisk>(
    disk: &mut D,
    area: Area,
    slot: u64,
) -> Result<Option<u64>, DeviceFault>
    requires room { slot < slots }
    requires size { least_sectors ≤ (D.disk disk.old).sectors }
    ensures reads { OnlyReads (D.disk disk.old) (D.disk disk.new) result }
    ensures fault { IfOk result (λ fault. IsHonest (D.disk disk.new)
        → GateFaultIs (now (D.disk disk.old)).seen area slot fault) }
{
    for behind in slot + 1..SLOTS {
        if gate_is_open(disk, area, behind)? {
            return Ok(Some(area.slot_gate(slot)));
        }
    }
    Ok(None)
}
