//! Compactions of a journal into its other area.

ghost use Rattle.std.specs.Prelude.{◌≡◌, ◌≤◌, ◌↔◌, false, None, IfSome, IsTrue, length};
ghost use Rattle.macs_journal.specs.Areas.{slots};
ghost use Rattle.macs_journal.specs.Compacting.{Compacts, IsBegun, last_generation, next_head};
ghost use Rattle.macs_journal.specs.Compacting.{with_nothing};
ghost use Rattle.macs_journal.specs.Stepping.{AdvancesCompact, IsCompactionUnderWay};
ghost use Rattle.macs_journal.specs.Value.{AreLent, IsIdle, is_stopped};

use crate::compact_calls::compact_call;
use crate::fault::JournalFault;
use crate::journal::Journal;
use crate::place::Place;
use crate::record_source::RecordSource;
use crate::under_way::UnderWay;
use macs_disk::SectorDisk;
use macs_record::{Format, Head, SECTOR};

impl<D: SectorDisk> Journal<D> {
    /// Compacts the journal with the records of a source, 1 to 256, into the area that is not
    /// current: the gates there that read open are closed, including that of the head, and this is
    /// made durable; the bodies of the records and of a head of the next generation, in format two,
    /// are written and made durable; the head gate is opened and made durable. Each record is read
    /// once, when its body is written. Fails with `Stopped`, and with `GenerationsSpent`, without
    /// changing anything; and with `Disk` at the first call that fails: then a power loss leaves
    /// the journal with the earlier records or with these. No work is under way, before or after.
    pub fn compact<R: RecordSource>(&mut self, records: &R) -> Result<(), JournalFault>
        requires idle { IsIdle self.old }
        requires some { (1 ≤ length (R.listed records.now))
            × (length (R.listed records.now) ≤ slots) }
        ensures { Compacts D.disk self.old (R.listed records.now) result self.new }
    {
        self.start_compact(records)?;
        self.finish_compact(records)
    }

    /// Makes the device calls of the compaction under way, of these records, up to its end. The
    /// result is that of a journal with nothing under way that is compacted with them.
    fn finish_compact<R: RecordSource>(&mut self, records: &R) -> Result<(), JournalFault>
        requires { IsBegun self.old (R.listed records.now) }
        ensures { Compacts D.disk (with_nothing self.old) (R.listed records.now) result self.new }
    {
        while self.is_compacting() {
            self.step_compact(records)?;
        }
        Ok(())
    }

    /// One device call of the compaction under way, of these records. After a device fault nothing
    /// is under way.
    fn step_compact<R: RecordSource>(&mut self, records: &R) -> Result<(), JournalFault>
        requires busy { IsCompactionUnderWay self.old.under_way }
        requires running { is_stopped self.old ≡ false }
        requires lent { AreLent self.old.under_way (R.listed records.now) }
        ensures { AdvancesCompact D.disk self.old (R.listed records.now) result self.new }
    {
        let Place { area, .. } = self.place;
        let UnderWay::Compact(work) = &self.under_way else {
            return Ok(());
        };
        let call = compact_call(area.other(), &work.head, records, work.stage);
        let mut read = [0; SECTOR];
        let answer = call.make(&mut self.disk, &mut read);
        self.did_compact(&read, answer)
    }

    /// Whether a compaction is under way.
    fn is_compacting(&self) -> bool
        ensures { IsTrue result ↔ IsCompactionUnderWay self.now.under_way }
    {
        match &self.under_way {
            UnderWay::Compact(_) => true,
            _ => false,
        }
    }
}

/// The head of the next generation, in format two; `None` after the last.
pub(crate) fn next_head(head: &Head, count: u32) -> Option<Head>
    requires { (1 ≤ count) × (count ≤ slots) }
    ensures value { IfSome result (λ next. next ≡ next_head head.now count) }
    ensures spent { result ≡ None ↔ (head.now.generation ≡ last_generation) }
{
    let generation = head.generation().checked_add(1)?;
    Head::new(Format::Two, generation, count, head.identity())
}
