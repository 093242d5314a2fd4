//! Closing the gates of an area.

ghost use Rattle.std.specs.Prelude.{◌≡◌, ◌≢◌, ◌<◌, ◌≤◌, ℕ, OnOk};
ghost use Rattle.macs_disk.specs.Disk.{IsHonest, IsWork, now};
ghost use Rattle.macs_record.specs.Gates.{closed_gate};
ghost use Rattle.macs_journal.specs.Areas.{gate, gates, least_sectors};
ghost use Rattle.macs_journal.specs.Found.{IsGateOpen};
ghost use Rattle.macs_journal.specs.NewArea.{AreClosed, IsNoOpenGate};
ghost use Rattle.macs_journal.specs.Work.{IsSpared};

use crate::area::{Area, GATES};
use macs_disk::{DeviceFault, SectorDisk};
use macs_record::{CLOSED_GATE, SECTOR, is_open};

/// Closes the gates of an area that read open, from one on: gate 0 is that of the head.
pub(crate) fn close_gates<D: SectorDisk>(
    disk: &mut D,
    area: Area,
    first: u64,
) -> Result<(), DeviceFault>
    requires room { first ≤ gates }
    requires size { least_sectors ≤ (D.disk disk.old).sectors }
    ensures work { IsWork (D.disk disk.old) (D.disk disk.new) result }
    ensures closed { OnOk result (IsHonest (D.disk disk.new)
        → AreClosed (now (D.disk disk.old)).seen (now (D.disk disk.new)).seen area first gates) }
    ensures others { IsHonest (D.disk disk.new) → (i : ℕ)
        → IsNoOpenGate (now (D.disk disk.old)).seen area first gates i
        → IsSpared (D.disk disk.old) (D.disk disk.new) i }
{
    for k in first..GATES {
        close_gate(disk, area, k)?;
    }
    Ok(())
}

/// Closes a gate of an area if it reads open.
fn close_gate<D: SectorDisk>(disk: &mut D, area: Area, k: u64) -> Result<(), DeviceFault>
    requires room { k < gates }
    requires size { least_sectors ≤ (D.disk disk.old).sectors }
    ensures work { IsWork (D.disk disk.old) (D.disk disk.new) result }
    ensures gate { OnOk result (IsHonest (D.disk disk.new)
        → IsGateOpen (now (D.disk disk.old)).seen area k
        → (now (D.disk disk.new)).seen (gate area k) ≡ closed_gate) }
    ensures closed { IsHonest (D.disk disk.new) → ¬ IsGateOpen (now (D.disk disk.old)).seen area k
        → (i : ℕ) → IsSpared (D.disk disk.old) (D.disk disk.new) i }
    ensures others { IsHonest (D.disk disk.new) → (i : ℕ) → i ≢ gate area k
        → IsSpared (D.disk disk.old) (D.disk disk.new) i }
{
    let at = area.gate(k);
    let mut gate = [0; SECTOR];
    disk.read(at, &mut gate)?;
    if is_open(&gate) {
        disk.write(at, &CLOSED_GATE)?;
    }
    Ok(())
}
