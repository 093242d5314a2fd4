//! A step of a journal in two halves: the device call that comes next, and what it led to. Between
//! them the call is made, by anybody: the journal does not wait for it.

ghost use Rattle.std.specs.Prelude.{◌≡◌, ◌↔◌, ◌⊎◌, true, false, None, IfSome};
ghost use Rattle.macs_disk.specs.DeviceCalls.{IsMade, IsWithin};
ghost use Rattle.macs_journal.specs.Areas.{other_area};
ghost use Rattle.macs_journal.specs.Halves.{Did, DidAdvance, DidAppend, DidCompact, IsNextCall};
ghost use Rattle.macs_journal.specs.Halves.{with_device};
ghost use Rattle.macs_journal.specs.Stepping.{IsAppendUnderWay, IsCompactionUnderWay, step_of};
ghost use Rattle.macs_journal.specs.Value.{AreLent, IsIdle, device_in, disk_in, is_stopped};
ghost use Rattle.macs_journal.specs.declared.under_way.Compacting.{Compacting};
ghost use Rattle.macs_journal.specs.declared.under_way.UnderWay.TheVariants.{Compact};

use crate::appending::append_call;
use crate::compact_calls::compact_call;
use crate::fault::JournalFault;
use crate::journal::Journal;
use crate::place::Place;
use crate::record_source::RecordSource;
use crate::under_way::UnderWay;
use crate::work::JournalStep;
use macs_disk::{DeviceCall, DeviceFault, SectorDisk};
use macs_record::{SECTOR, is_open};

impl<D: SectorDisk> Journal<D> {
    /// The device call that the work under way needs next; `None` if no work is under way, or a
    /// device call failed before. It stays the same until `did_call`. The records of a source are
    /// read as by `step`.
    pub fn next_call<R: RecordSource>(&self, snapshot: &R) -> Option<DeviceCall>
        requires lent { AreLent self.now.under_way (R.listed snapshot.now) }
        ensures none { (result ≡ None) ↔ ((is_stopped self.now ≡ true) ⊎ IsIdle self.now) }
        ensures call { IfSome result
            (IsNextCall self.now.place self.now.under_way (R.listed snapshot.now)) }
        ensures within { IfSome result (IsWithin (disk_in D.disk self.now).sectors) }
    {
        if self.stopped {
            return None;
        }
        let Place { area, free, .. } = self.place;
        match &self.under_way {
            UnderWay::Nothing => None,
            UnderWay::Append(work) => Some(append_call(area, free, &work.sector, work.stage)),
            UnderWay::Compact(work) => {
                Some(compact_call(area.other(), &work.head, snapshot, work.stage))
            }
        }
    }

    /// Continues after the call that `next_call` returned was made: with its answer, and with what
    /// it read. Work is under way, and no device call failed before. The result is that of a `step`
    /// that made this call.
    pub fn did_call(
        &mut self,
        read: &[u8; SECTOR],
        answer: Result<(), DeviceFault>,
    ) -> Result<JournalStep, JournalFault>
        requires busy { ¬ IsIdle self.old }
        requires running { is_stopped self.old ≡ false }
        ensures { Did D.disk self.old read.now answer result self.new }
    {
        self.did_advance(read, answer)?;
        let progress = self.progress();
        Ok(progress)
    }

    /// Makes a device call, and changes nothing else: the journal does not continue before
    /// `did_call`. A read puts the sector into `read`; no other call changes that.
    pub fn make(&mut self, call: &DeviceCall, read: &mut [u8; SECTOR]) -> Result<(), DeviceFault>
        requires { IsWithin (disk_in D.disk self.old).sectors call.now }
        ensures made { IsMade (disk_in D.disk self.old) (disk_in D.disk self.new) call.now read.new
            result }
        ensures same { self.old ≡ with_device self.new (device_in self.old) }
    {
        call.make(&mut self.disk, read)
    }

    /// Makes a device call, or begins it and does not wait, as `SectorDisk::try_make`: until it
    /// returns an answer nothing changes.
    pub fn try_make(
        &mut self,
        call: &DeviceCall,
        read: &mut [u8; SECTOR],
    ) -> Option<Result<(), DeviceFault>>
        requires { IsWithin (disk_in D.disk self.old).sectors call.now }
        ensures waits { result ≡ None
            → (self.new ≡ self.old) × ((disk_in D.disk self.old).prompt ≡ false) }
        ensures made { IfSome result (λ answer. IsMade (disk_in D.disk self.old)
            (disk_in D.disk self.new) call.now read.new answer) }
        ensures same { self.old ≡ with_device self.new (device_in self.old) }
    {
        self.disk.try_make(call, read)
    }

    /// Whether the work under way continues: if none is under way it is finished.
    fn progress(&self) -> JournalStep
        ensures { result ≡ step_of self.now.under_way }
    {
        match &self.under_way {
            UnderWay::Nothing => JournalStep::Finished,
            UnderWay::Append(_) => JournalStep::Going,
            UnderWay::Compact(_) => JournalStep::Going,
        }
    }

    /// What one device call of the work under way led to.
    fn did_advance(
        &mut self,
        read: &[u8; SECTOR],
        answer: Result<(), DeviceFault>,
    ) -> Result<(), JournalFault>
        requires busy { ¬ IsIdle self.old }
        requires running { is_stopped self.old ≡ false }
        ensures { DidAdvance D.disk self.old read.now answer result self.new }
    {
        match &self.under_way {
            UnderWay::Nothing => Ok(()),
            UnderWay::Append(_) => self.did_append(answer),
            UnderWay::Compact(_) => self.did_compact(read, answer),
        }
    }

    /// What one device call of the append under way led to. It reads nothing.
    pub(crate) fn did_append(&mut self, answer: Result<(), DeviceFault>) -> Result<(), JournalFault>
        requires busy { IsAppendUnderWay self.old.under_way }
        requires running { is_stopped self.old ≡ false }
        ensures { DidAppend D.disk self.old answer result self.new }
    {
        let UnderWay::Append(work) = &self.under_way else {
            return Ok(());
        };
        let next = work.stage.next();
        match answer {
            Ok(()) => match next {
                Some(stage) => {
                    self.under_way.go_on(stage);
                    Ok(())
                }
                None => {
                    self.under_way = UnderWay::Nothing;
                    self.place.free += 1;
                    Ok(())
                }
            },
            Err(_) => {
                self.under_way = UnderWay::Nothing; // The next recovery finds the record or not.
                self.stopped = true;
                Err(JournalFault::Disk)
            }
        }
    }

    /// What one device call of the compaction under way led to. No record is read.
    pub(crate) fn did_compact(
        &mut self,
        read: &[u8; SECTOR],
        answer: Result<(), DeviceFault>,
    ) -> Result<(), JournalFault>
        requires busy { IsCompactionUnderWay self.old.under_way }
        requires running { is_stopped self.old ≡ false }
        ensures { DidCompact D.disk self.old read.now answer result self.new }
    {
        let done = self.new_place();
        let UnderWay::Compact(work) = &self.under_way else {
            return Ok(());
        };
        let next = work.stage.next(is_open(read), u64::from(work.head.count()));
        match answer {
            Ok(()) => match next {
                Some(stage) => {
                    self.under_way.compact_on(stage);
                    Ok(())
                }
                None => {
                    self.under_way = UnderWay::Nothing;
                    self.place = done;
                    Ok(())
                }
            },
            Err(_) => {
                // The next recovery finds the earlier records or these.
                self.under_way = UnderWay::Nothing;
                self.stopped = true;
                Err(JournalFault::Disk)
            }
        }
    }

    /// Where the journal continues once it is compacted.
    fn new_place(&self) -> Place
        ensures { (work : Compacting) → self.now.under_way ≡ Compact work
            → result ≡ record {
              area = other_area self.now.place.area;
              head = work.head;
              free =
                  work.head.count;
            } }
    {
        let Place { area, .. } = self.place;
        match &self.under_way {
            UnderWay::Compact(work) => Place {
                area: area.other(),
                head: work.head,
                free: u64::from(work.head.count()),
            },
            _ => self.place,
        }
    }
}
