//! A journal's work, one device call at a time.

ghost use Rattle.std.specs.Prelude.{◌<◌, ◌≤◌, ◌↔◌, length, IsTrue};
ghost use Rattle.macs_journal.specs.Areas.{slots};
ghost use Rattle.macs_journal.specs.Stepping.{Appends, FitsWork, Compaction};
ghost use Rattle.macs_journal.specs.Stepping.{Starts, Steps, task_of};
ghost use Rattle.macs_journal.specs.Value.{AreLent, IsIdle, used_slots};

use crate::appending::AppendStage;
use crate::compact_stage::CompactStage;
use crate::compaction::next_head;
use crate::fault::JournalFault;
use crate::journal::Journal;
use crate::place::Place;
use crate::record_source::RecordSource;
use crate::under_way::{Appending, Compacting, UnderWay};
use crate::work::{JournalStep, Work};
use macs_disk::SectorDisk;
use macs_record::laws::record_in_range;
use macs_record::{Record, SECTOR, encode};

impl<D: SectorDisk> Journal<D> {
    /// Starts work, and makes no call of the disk. None is under way before; for an append the area
    /// is not full, and a compaction has 1 to 256 records. These stay with the caller: only their
    /// number is read. Fails with `Stopped` if a device call failed before, then with
    /// `GenerationsSpent` for a compaction in generation 2^64 - 1; nothing changes then.
    pub fn start(&mut self, work: &Work) -> Result<(), JournalFault>
        requires idle { IsIdle self.old }
        requires fits { FitsWork self.old.place work.now }
        ensures { Starts D.disk self.old (task_of work.now) result self.new }
    {
        match work {
            Work::Append(value) => self.start_append(value),
            Work::Compact(records) => {
                let records = records.as_slice();
                self.start_compact(&records)
            }
        }
    }

    /// Starts to append this record: `start` for a borrowed record. Fails only with `Stopped`.
    pub fn start_append(&mut self, value: &Record) -> Result<(), JournalFault>
        requires idle { IsIdle self.old }
        requires room { used_slots self.old < slots }
        ensures { Starts D.disk self.old (Appends value.now) result self.new }
    {
        if self.stopped {
            return Err(JournalFault::Stopped);
        }
        record_in_range(value);
        self.under_way = UnderWay::Append(Appending {
            sector: encode(value),
            stage: AppendStage::Body,
        });
        Ok(())
    }

    /// Starts a compaction with the records of a source, 1 to 256: `start` for borrowed records,
    /// with the same faults. Only the number of records is read.
    pub fn start_compact<R: RecordSource>(&mut self, records: &R) -> Result<(), JournalFault>
        requires idle { IsIdle self.old }
        requires some { (1 ≤ length (R.listed records.now))
            × (length (R.listed records.now) ≤ slots) }
        ensures { Starts D.disk self.old (Compaction (R.listed records.now)) result self.new }
    {
        if self.stopped {
            return Err(JournalFault::Stopped);
        }
        let Place { head, .. } = self.place;
        let Some(next) = next_head(&head, records.count() as u32) else {
            return Err(JournalFault::GenerationsSpent);
        };
        self.under_way = UnderWay::Compact(Compacting {
            head: next,
            stage: CompactStage::ReadGate(0),
        });
        Ok(())
    }

    /// Whether these records may be passed to the next step: if a compaction is under way there are
    /// as many as it was started with.
    pub fn may_lend<R: RecordSource>(&self, snapshot: &R) -> bool
        ensures { IsTrue result ↔ AreLent self.now.under_way (R.listed snapshot.now) }
    {
        match &self.under_way {
            UnderWay::Compact(work) => snapshot.count() as u64 == u64::from(work.head.count()),
            _ => true,
        }
    }

    /// Makes the next call of the disk of the work under way, and none if no work is under way. If
    /// a compaction is under way, `snapshot` has as many records as it was started with
    /// (`may_lend`). They must be the same records at each step: otherwise nothing is promised
    /// about what is on the disk. One of them is read when its body is written, and none at any
    /// other call. Fails with `Stopped` if a device call failed before, and with `Disk` if this one
    /// fails: then a power loss leaves the journal as before the work or as after it, and no work
    /// is under way.
    pub fn step<R: RecordSource>(&mut self, snapshot: &R) -> Result<JournalStep, JournalFault>
        requires lent { AreLent self.old.under_way (R.listed snapshot.now) }
        ensures { Steps D.disk self.old (R.listed snapshot.now) result self.new }
    {
        if self.stopped {
            return Err(JournalFault::Stopped);
        }
        let Some(call) = self.next_call(snapshot) else {
            return Ok(JournalStep::Idle);
        };
        let mut read = [0; SECTOR];
        let answer = call.make(&mut self.disk, &mut read);
        self.did_call(&read, answer)
    }
}
