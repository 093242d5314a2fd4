//! A journal whose work is cut at the device calls.

ghost use Rattle.std.specs.Prelude.{◌≡◌, ◌≢◌, ◌<◌, ◌≤◌, ◌+◌, ◌↔◌, ◌⊎◌, ℕ, true, false, IsTrue};
ghost use Rattle.std.specs.Prelude.{OnOk, OnErr, IsErrOf, is_err};
ghost use Rattle.macs_disk.specs.Disk.{IsHonest, MayLeave, now};
ghost use Rattle.macs_disk.specs.Runs.{Leaves};
ghost use Rattle.macs_disk.specs.States.{Image};
ghost use Rattle.macs_record.specs.Gates.{open_gate};
ghost use Rattle.macs_record.specs.declared.record.Record.{Record};
ghost use Rattle.macs_journal.specs.Areas.{gate, least_sectors, slot_body, slots};
ghost use Rattle.macs_journal.specs.Found.{Content, HasJournal, content_with_record};
ghost use Rattle.macs_journal.specs.Appending.{HasEitherJournal};
ghost use Rattle.macs_journal.specs.Stepping.{AdvancesAppend};
ghost use Rattle.macs_journal.specs.Value.{FitsUnderWay, HoldsContent, IsHolding, IsIdle};
ghost use Rattle.macs_journal.specs.Value.{IsNoCompact};
ghost use Rattle.macs_journal.specs.Value.{JournalValue, append_left, current_area, device_in};
ghost use Rattle.macs_journal.specs.Value.{disk_in, generation, is_stopped, used_slots};
ghost use Rattle.macs_journal.specs.Work.{IsSpared, IsWorkOf};
ghost use Rattle.macs_journal.specs.declared.fault.JournalFault.TheVariants.{Disk, Stopped};
ghost use Rattle.macs_journal.specs.declared.under_way.UnderWay.TheVariants.{Nothing};

use crate::appending::append_call;
use crate::area::SLOTS;
use crate::fault::JournalFault;
use crate::place::Place;
use crate::under_way::UnderWay;
use macs_disk::SectorDisk;
use macs_record::{Record, SECTOR};
use std::marker::Model;

/// A journal on a disk. After a device fault each call fails with `Stopped` until the disk is
/// recovered again.
#[derive(Drop)]
pub struct Journal<D: SectorDisk> {
    pub(crate) disk: D,
    pub(crate) place: Place,
    pub(crate) under_way: UnderWay,
    pub(crate) stopped: bool,
}

impl<D: SectorDisk> Model for Journal<D> {
    ghost Value = { JournalValue D };

    ghost view = { λ j.
        record { disk = j.disk; place = j.place; under_way = j.under_way; stopped = j.stopped } };

    ghost invariant = { λ j. (least_sectors ≤ (D.disk j.disk).sectors) × (j.place.free ≤ slots)
        × FitsUnderWay j.place j.under_way };
}

impl<D: SectorDisk> Journal<D> {
    /// A journal with nothing under way.
    pub(crate) fn new(disk: D, place: Place) -> Journal<D>
        requires size { least_sectors ≤ (D.disk disk).sectors }
        requires few { place.free ≤ slots }
        ensures { result
            ≡ record { disk = disk; place = place; under_way = Nothing; stopped = false } }
    {
        Journal {
            disk,
            place,
            under_way: UnderWay::Nothing,
            stopped: false,
        }
    }

    /// Whether all 256 slots of the current area are used.
    pub fn is_full(&self) -> bool
        ensures full { IsTrue result ↔ (used_slots self.now ≡ slots) }
        ensures room { result ≡ false → used_slots self.now < slots }
    {
        self.place.free == SLOTS
    }

    /// The number of the current area, 0 or 1.
    pub fn area(&self) -> u64
        ensures { result ≡ current_area self.now }
    {
        self.place.area.number()
    }

    /// The generation of the current area: 1 when the disk is formatted, and one more with each
    /// compaction.
    pub fn generation(&self) -> u64
        ensures { result ≡ generation self.now }
    {
        self.place.head.generation()
    }

    /// How many slots of the current area are used, at most 256.
    pub fn used(&self) -> u64
        ensures { result ≡ used_slots self.now }
    {
        let Place { free, .. } = self.place;
        free
    }

    /// Whether a device call failed: the disk must be recovered again.
    pub fn is_stopped(&self) -> bool
        ensures { result ≡ is_stopped self.now }
    {
        let Journal { stopped, .. } = self;
        *stopped
    }

    /// Whether no work is under way.
    pub fn is_idle(&self) -> bool
        ensures { IsTrue result ↔ IsIdle self.now }
    {
        match &self.under_way {
            UnderWay::Nothing => true,
            UnderWay::Append(_) => false,
            UnderWay::Compact(_) => false,
        }
    }

    /// The disk.
    pub fn into_disk(self) -> D
        ensures { result ≡ device_in self }
    {
        let Journal { disk, .. } = self;
        disk
    }

    /// Appends a record in four calls of the disk: it is written into the body of the first free
    /// slot, made durable, the slot's gate opened and made durable. No work is under way, and the
    /// area is not full. Fails with `Stopped`, and with `Disk` at the first call that fails; then a
    /// power loss leaves the journal with the record or without it, and no work is under way.
    pub fn append(&mut self, value: &Record) -> Result<(), JournalFault>
        requires idle { IsIdle self.old }
        requires room { used_slots self.old < slots }
        ensures stopped { IsErrOf result Stopped ↔ (is_stopped self.old ≡ true) }
        ensures same { is_stopped self.old ≡ true → self.new ≡ self.old }
        ensures names { OnErr result (IsErrOf result Stopped ⊎ IsErrOf result Disk) }
        ensures work { IsWorkOf (disk_in D.disk self.old) (disk_in D.disk self.new) result }
        ensures four { (disk_in D.disk self.new).clock ≤ (disk_in D.disk self.old).clock + 4 }
        ensures calls { OnOk result
            ((disk_in D.disk self.new).clock ≡ (disk_in D.disk self.old).clock + 4) }
        ensures after { is_stopped self.new ≡ is_err result }
        ensures idle { is_stopped self.old ≡ false → IsIdle self.new }
        ensures slot { OnOk result (used_slots self.new ≡ used_slots self.old + 1) }
        ensures place { OnOk result
            (self.new.place ≡ record self.old.place { free = self.old.place.free + 1 }) }
        ensures at_fault { OnErr result (self.new.place ≡ self.old.place) }
        ensures any_moment { IsHonest (disk_in D.disk self.new) → (before : Content)
            → HoldsContent D.disk self.old before
            → Leaves (disk_in D.disk self.old) (disk_in D.disk self.new)
            (HasEitherJournal before (content_with_record before value.now)) }
        ensures done { OnOk result (IsHonest (disk_in D.disk self.new) → (before : Content)
            → HoldsContent D.disk self.old before
            → HoldsContent D.disk self.new (content_with_record before value.now)) }
        ensures kept { OnOk result (IsHonest (disk_in D.disk self.new) → (before : Content)
            → HoldsContent D.disk self.old before
            → (image : Image) → MayLeave (disk_in D.disk self.new) image
            → HasJournal image (content_with_record before value.now)) }
        ensures gate { OnOk result (IsHonest (disk_in D.disk self.new) → (before : Content)
            → HoldsContent D.disk self.old before
            → (now (disk_in D.disk self.new)).seen
            (gate self.old.place.area (self.old.place.free + 1)) ≡ open_gate) }
        ensures others { IsHonest (disk_in D.disk self.new) → (i : ℕ)
            → i ≢ slot_body self.old.place.area self.old.place.free
            → i ≢ gate self.old.place.area (self.old.place.free + 1)
            → IsSpared (disk_in D.disk self.old) (disk_in D.disk self.new) i }
    {
        self.start_append(value)?;
        self.finish_append()
    }

    /// Makes the calls of the append under way up to its end.
    fn finish_append(&mut self) -> Result<(), JournalFault>
        requires no_compact { IsNoCompact self.old.under_way }
        requires running { is_stopped self.old ≡ false }
        ensures names { OnErr result (IsErrOf result Disk) }
        ensures work { IsWorkOf (disk_in D.disk self.old) (disk_in D.disk self.new) result }
        ensures few { (disk_in D.disk self.new).clock ≤ (disk_in D.disk self.old).clock
            + append_left self.old.under_way }
        ensures calls { OnOk result ((disk_in D.disk self.new).clock
            ≡ (disk_in D.disk self.old).clock + append_left self.old.under_way) }
        ensures after { is_stopped self.new ≡ is_err result }
        ensures idle { IsIdle self.new }
        ensures moved { OnOk result (1 ≤ append_left self.old.under_way
            → self.new.place ≡ record self.old.place { free = self.old.place.free + 1 }) }
        ensures at_fault { OnErr result (self.new.place ≡ self.old.place) }
        ensures any_moment { IsHonest (disk_in D.disk self.new) → (before after : Content)
            → IsHolding (disk_in D.disk self.old) self.old.place self.old.under_way before after
            → Leaves (disk_in D.disk self.old) (disk_in D.disk self.new)
            (HasEitherJournal before after) }
        ensures done { OnOk result (IsHonest (disk_in D.disk self.new) → (before after : Content)
            → IsHolding (disk_in D.disk self.old) self.old.place self.old.under_way before after
            → IsHolding (disk_in D.disk self.new) self.new.place self.new.under_way after after) }
        ensures gate { OnOk result (1 ≤ append_left self.old.under_way
            → IsHonest (disk_in D.disk self.new) → (before after : Content)
            → IsHolding (disk_in D.disk self.old) self.old.place self.old.under_way before after
            → (now (disk_in D.disk self.new)).seen
            (gate self.old.place.area (self.old.place.free + 1)) ≡ open_gate) }
        ensures others { IsHonest (disk_in D.disk self.new) → (i : ℕ)
            → i ≢ slot_body self.old.place.area self.old.place.free
            → i ≢ gate self.old.place.area (self.old.place.free + 1)
            → IsSpared (disk_in D.disk self.old) (disk_in D.disk self.new) i }
    {
        while self.has_work() {
            self.step_append()?;
        }
        Ok(())
    }

    /// Whether an append is under way.
    fn has_work(&self) -> bool
        requires no_compact { IsNoCompact self.now.under_way }
        ensures busy { IsTrue result ↔ (1 ≤ append_left self.now.under_way) }
        ensures idle { result ≡ false → IsIdle self.now }
    {
        match &self.under_way {
            UnderWay::Append(_) => true,
            _ => false,
        }
    }

    /// One device call of the append under way. After a device fault nothing is under way.
    fn step_append(&mut self) -> Result<(), JournalFault>
        requires busy { 1 ≤ append_left self.old.under_way }
        requires running { is_stopped self.old ≡ false }
        ensures { AdvancesAppend D.disk self.old result self.new }
    {
        let Place { area, free, .. } = self.place;
        let UnderWay::Append(work) = &self.under_way else {
            return Ok(());
        };
        let call = append_call(area, free, &work.sector, work.stage);
        let mut read = [0; SECTOR];
        let answer = call.make(&mut self.disk, &mut read);
        self.did_append(answer)
    }
}
