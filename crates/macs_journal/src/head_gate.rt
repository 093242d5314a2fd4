//! Opening a head gate.

ghost use Rattle.std.specs.Prelude.{◌≡◌, ◌≢◌, ◌≤◌, ℕ, OnOk};
ghost use Rattle.macs_disk.specs.Disk.{IsHonest, IsWork, now};
ghost use Rattle.macs_disk.specs.Runs.{Leaves};
ghost use Rattle.macs_record.specs.Gates.{open_gate};
ghost use Rattle.macs_journal.specs.Areas.{gate, least_sectors};
ghost use Rattle.macs_journal.specs.NewArea.{IsOldOrOpening, IsSettled};
ghost use Rattle.macs_journal.specs.Work.{IsSpared};

use crate::area::Area;
use macs_disk::{DeviceFault, SectorDisk};
use macs_record::open_gate;

/// Makes the bodies and the closed gates of an area durable, and then opens its head gate.
pub(crate) fn open_head<D: SectorDisk>(disk: &mut D, area: Area) -> Result<(), DeviceFault>
    requires size { least_sectors ≤ (D.disk disk.old).sectors }
    ensures work { IsWork (D.disk disk.old) (D.disk disk.new) result }
    ensures images { IsHonest (D.disk disk.new)
        → Leaves (D.disk disk.old) (D.disk disk.new) (IsOldOrOpening (now (D.disk disk.old)) area) }
    ensures settled { OnOk result (IsHonest (D.disk disk.new) → IsSettled (now (D.disk disk.new))) }
    ensures gate { OnOk result (IsHonest (D.disk disk.new)
        → (now (D.disk disk.new)).seen (gate area 0) ≡ open_gate) }
    ensures others { IsHonest (D.disk disk.new) → (i : ℕ) → i ≢ gate area 0
        → IsSpared (D.disk disk.old) (D.disk disk.new) i }
{
    disk.sync()?; // The bodies and closed gates are durable before the head is opened.
    disk.write(area.head_gate(), &open_gate())?;
    disk.sync()?; // The head is durable before the answer.
    Ok(())
}
