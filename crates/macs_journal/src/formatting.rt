//! Making a journal on a disk.

ghost use Rattle.std.specs.Prelude.{◌≡◌, ◌≢◌, ◌≤◌, ℕ, false, true, IfOk, OnOk};
ghost use Rattle.macs_config.specs.Identity.{Identity};
ghost use Rattle.macs_disk.specs.Disk.{IsHonest, IsWork, now};
ghost use Rattle.macs_disk.specs.Runs.{Leaves, LeavesNothingNew};
ghost use Rattle.macs_disk.specs.States.{state_after_sync};
ghost use Rattle.macs_record.specs.Decoding.{IsSectorOf};
ghost use Rattle.macs_record.specs.Heads.{IsHeadOf};
ghost use Rattle.macs_record.specs.Settings.{default_settings};
ghost use Rattle.macs_journal.specs.Appending.{IsReady};
ghost use Rattle.macs_journal.specs.Areas.{head_body, least_sectors, slot_body};
ghost use Rattle.macs_journal.specs.Found.{IsGateOpen, IsNotFormatted};
ghost use Rattle.macs_journal.specs.Formatting.{FormatWrites, HasOpenHead, IsBlank};
ghost use Rattle.macs_journal.specs.Formatting.{IsJournalFormat, IsNewOrNone, first_content};
ghost use Rattle.macs_journal.specs.Formatting.{first_head};
ghost use Rattle.macs_journal.specs.NewArea.{HasNewGates};
ghost use Rattle.macs_journal.specs.Work.{IsSpared};

use crate::area::{Area, LEAST_SECTORS};
use crate::bodies::{write_head, write_record};
use crate::fault::JournalFault;
use crate::gates::close_gates;
use crate::head_gate::open_head;
use macs_config::Identity;
use macs_disk::{DeviceFault, SectorDisk};
use macs_record::{Format, Head, Record, SECTOR, is_open};

/// Makes a journal of format two on a disk that has none: its one record holds the initial settings
/// of an endpoint. In the first area it writes the bodies of the head and of that record, the head
/// gate, and the gates of slots that read open; no other sector is touched. Fails with `TooSmall`,
/// then with `Disk` at the first call that fails, and with `AlreadyFormatted` if a head gate reads
/// open after a first sync.
pub fn format<D: SectorDisk>(disk: &mut D, identity: &Identity) -> Result<(), JournalFault>
    ensures { IsJournalFormat D.disk disk.old identity.now result disk.new }
{
    if disk.sectors() < LEAST_SECTORS {
        return Err(JournalFault::TooSmall);
    }
    match has_open_head(disk) {
        Ok(true) => Err(JournalFault::AlreadyFormatted),
        Ok(false) => match fill(disk, identity) {
            Ok(()) => Ok(()),
            Err(_) => Err(JournalFault::Disk),
        },
        Err(_) => Err(JournalFault::Disk),
    }
}

/// Whether a head gate is open, after a sync that makes durable what reads give.
fn has_open_head<D: SectorDisk>(disk: &mut D) -> Result<bool, DeviceFault>
    requires size { least_sectors ≤ (D.disk disk.old).sectors }
    ensures work { IsWork (D.disk disk.old) (D.disk disk.new) result }
    ensures nothing { IsHonest (D.disk disk.new)
        → LeavesNothingNew (D.disk disk.old) (D.disk disk.new) }
    ensures settled { OnOk result (IsHonest (D.disk disk.new)
        → now (D.disk disk.new) ≡ state_after_sync (now (D.disk disk.old))) }
    ensures spared { IsHonest (D.disk disk.new) → (i : ℕ)
        → IsSpared (D.disk disk.old) (D.disk disk.new) i }
    ensures clear { IfOk result (λ is. is ≡ false → IsHonest (D.disk disk.new)
        → IsNotFormatted (now (D.disk disk.old)).seen) }
    ensures taken { IfOk result (λ is. is ≡ true → IsHonest (D.disk disk.new)
        → HasOpenHead (now (D.disk disk.old)).seen) }
{
    disk.sync()?; // What reads give is what a power loss leaves.
    let mut first = [0; SECTOR];
    disk.read(Area::first().head_gate(), &mut first)?;
    let mut second = [0; SECTOR];
    disk.read(Area::second().head_gate(), &mut second)?;
    Ok(is_open(&first) || is_open(&second))
}

/// Fills a disk whose head gates are closed.
fn fill<D: SectorDisk>(disk: &mut D, identity: &Identity) -> Result<(), DeviceFault>
    requires size { least_sectors ≤ (D.disk disk.old).sectors }
    ensures work { IsWork (D.disk disk.old) (D.disk disk.new) result }
    ensures images { IsHonest (D.disk disk.new) → IsBlank (now (D.disk disk.old))
        → Leaves (D.disk disk.old) (D.disk disk.new) (IsNewOrNone identity.now) }
    ensures done { OnOk result (IsHonest (D.disk disk.new) → IsBlank (now (D.disk disk.old))
        → IsReady (now (D.disk disk.new)) (first_content identity.now)) }
    ensures gates { OnOk result (IsHonest (D.disk disk.new)
        → HasNewGates (now (D.disk disk.old)).seen (now (D.disk disk.new)).seen 0) }
    ensures others { IsHonest (D.disk disk.new) → (i : ℕ)
        → ¬ FormatWrites (now (D.disk disk.old)).seen i
        → IsSpared (D.disk disk.old) (D.disk disk.new) i }
{
    let head = first_head(identity);
    let area = Area::first();
    write_bodies(disk, area, &head)?;
    close_gates(disk, area, 1)?;
    open_head(disk, area)?;
    Ok(())
}

/// Writes the bodies of an area's head, and of the one record of a new journal.
fn write_bodies<D: SectorDisk>(disk: &mut D, area: Area, head: &Head) -> Result<(), DeviceFault>
    requires { least_sectors ≤ (D.disk disk.old).sectors }
    ensures work { IsWork (D.disk disk.old) (D.disk disk.new) result }
    ensures head { OnOk result (IsHonest (D.disk disk.new)
        → IsHeadOf head.now ((now (D.disk disk.new)).seen (head_body area))) }
    ensures body { OnOk result (IsHonest (D.disk disk.new)
        → IsSectorOf default_settings ((now (D.disk disk.new)).seen (slot_body area 0))) }
    ensures others { IsHonest (D.disk disk.new) → (i : ℕ) → i ≢ head_body area
        → i ≢ slot_body area 0 → IsSpared (D.disk disk.old) (D.disk disk.new) i }
{
    write_head(disk, area, head)?;
    write_record(disk, area, 0, &Record::default())
}

/// The head of a new journal.
fn first_head(identity: &Identity) -> Head
    ensures { result ≡ first_head identity.now }
{
    Head::new(Format::Two, 1, 1, *identity).unwrap()
}
