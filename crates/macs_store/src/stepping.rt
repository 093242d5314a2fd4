//! What a store keeps, one device call at a time.

ghost use Rattle.std.specs.Prelude.{◌≡◌, ◌<◌, ◌≤◌, ◌^◌, IfSome, IsOk, IsSome, true, false};
ghost use Rattle.macs_config.specs.Numbers.{block_beyond};
ghost use Rattle.macs_store.specs.UnderWay.{record_kept};
ghost use Rattle.macs_store.specs.Replay.{standing_after_record};
ghost use Rattle.macs_store.specs.Standing.{accept, standing_with_rx_raised};
ghost use Rattle.macs_store.specs.Standing.{standing_with_tx_raised};
ghost use Rattle.macs_store.specs.Stepping.{Finishes, Starts, StartsCommit, StartsRecord, Steps};
ghost use Rattle.macs_store.specs.Value.{IsIdle, calls_left, is_stopped, standing_in};

use crate::ahead::ahead;
use crate::fault::CommitFault;
use crate::store::Store;
use crate::under_way::{Kept, UnderWay};
use macs_config::{Checked, Command};
use macs_disk::SectorDisk;
use macs_fields::{An, Pn, Sci};
use macs_journal::{JournalFault, JournalStep};
use macs_record::SECTOR;

impl<D: SectorDisk> Store<D> {
    /// Starts a command, and makes no device call. No work is under way before. Fails with
    /// `Stopped` if a device call failed before, then with `Refused` and the first refusal that
    /// applies, then with `GenerationsSpent` if all 256 slots are used and the generation is 2^64 -
    /// 1; never with `Disk`. A failure changes nothing.
    pub fn start_commit(&mut self, command: &Command) -> Result<(), CommitFault>
        requires idle { IsIdle self.old }
        ensures { StartsCommit D.disk self.old command.now result self.new }
    {
        if self.is_stopped() {
            return Err(CommitFault::Stopped);
        }
        match self.standing.check(command) {
            Ok(checked) => self.start_checked(&checked),
            Err(refusal) => Err(CommitFault::Refused(refusal)),
        }
    }

    /// Starts a command that the configuration does not refuse, with the verdict of its check, and
    /// makes no device call. No work is under way before, and no device call failed. Fails with
    /// `GenerationsSpent` if all 256 slots are used and the generation is 2^64 - 1; then nothing
    /// changes.
    pub fn start_checked(&mut self, checked: &Checked) -> Result<(), CommitFault>
        requires idle { IsIdle self.old }
        requires running { is_stopped self.old ≡ false }
        requires fits { IsOk (accept (standing_in self.old) checked.now) }
        ensures { StartsCommit D.disk self.old checked.now result self.new }
    {
        match self.start(Kept::Command(*checked)) {
            Ok(()) => Ok(()),
            Err(_) => Err(CommitFault::GenerationsSpent),
        }
    }

    /// Starts to raise the ceiling of a transmit association by a block, to at most 2^32, and makes
    /// no device call. No work is under way before; the association exists, and its ceiling is less
    /// than 2^32. Fails with `Stopped` if a device call failed before, then with `GenerationsSpent`
    /// if all 256 slots are used and the generation is 2^64 - 1; these change nothing.
    pub fn start_tx(&mut self, an: An) -> Result<(), JournalFault>
        requires idle { IsIdle self.old }
        requires raised { IfSome ((standing_in self.old).ceilings.tx an) (λ old. old < 2 ^ 32) }
        requires stands { IsSome ((standing_in self.old).ceilings.tx an) }
        ensures { Starts D.disk self.old (standing_with_tx_raised (standing_in self.old) an)
            result self.new }
    {
        let old = self.tx_ceiling(an).unwrap();
        let ceiling = ahead(old.get(), self.identity().tx_block());
        self.start(Kept::TxCeiling { an, ceiling })
    }

    /// Starts to raise the ceiling of a receive association to a block beyond a packet number, to
    /// at most 2^32, and makes no device call. No work is under way; the association exists, and
    /// its ceiling is less than the new one. Fails as `start_tx` does.
    pub fn start_rx(&mut self, sci: Sci, an: An, pn: Pn) -> Result<(), JournalFault>
        requires idle { IsIdle self.old }
        requires raised { IfSome ((standing_in self.old).ceilings.rx sci an)
            (λ old. old < block_beyond pn (standing_in self.old).identity.rx_block) }
        requires stands { IsSome ((standing_in self.old).ceilings.rx sci an) }
        ensures { Starts D.disk self.old (standing_with_rx_raised (standing_in self.old) sci an pn)
            result self.new }
    {
        let ceiling = ahead(u64::from(pn.get()), self.identity().rx_block());
        self.start(Kept::RxCeiling { sci, an, ceiling })
    }

    /// Starts work on a record that follows from the standing. If all 256 slots are used the
    /// journal must be compacted first.
    fn start(&mut self, kept: Kept) -> Result<(), JournalFault>
        requires idle { IsIdle self.old }
        requires follows { IsSome (standing_after_record (standing_in self.old)
            (record_kept kept)) }
        ensures { StartsRecord D.disk self.old (record_kept kept) result self.new }
    {
        if self.journal.is_full() {
            self.standing.facts();
            self.journal.start_compact(&self.standing)?;
            self.under_way = UnderWay::Compacting(kept);
        } else {
            self.journal.start_append(&kept.record())?;
            self.under_way = UnderWay::Appending(kept);
        }
        Ok(())
    }

    /// Makes the next device call of the work under way, and none if no work is under way.
    /// Configuration and ceilings change only when it returns `Finished`. The last call of a
    /// compaction starts the record that waits for it. Fails with `Stopped`, and with `Disk` if the
    /// call fails: then no work is under way, the standing is unchanged, and a power loss leaves it
    /// with the work or without.
    pub fn step(&mut self) -> Result<JournalStep, JournalFault>
        ensures { Steps D.disk self.old result self.new }
    {
        if self.is_stopped() {
            return Err(JournalFault::Stopped);
        }
        let Some(call) = self.next_call() else {
            return Ok(JournalStep::Idle);
        };
        let mut read = [0; SECTOR];
        let answer = self.make(&call, &mut read);
        self.did_call(&read, answer)
    }

    /// Makes the device calls of the work under way up to its end, and none if no work is under
    /// way. Fails as `step` does.
    pub fn finish(&mut self) -> Result<(), JournalFault>
        ensures { Finishes D.disk self.old result self.new }
    {
        if self.is_stopped() {
            return Err(JournalFault::Stopped);
        }
        while self.has_work() {
            self.step()?;
        }
        Ok(())
    }

    /// Whether work is under way.
    fn has_work(&self) -> bool
        ensures idle { result ≡ false → IsIdle self.now }
        ensures busy { result ≡ true → ¬ IsIdle self.now }
        ensures some { result ≡ true → 1 ≤ calls_left self.now }
    {
        match &self.under_way {
            UnderWay::Nothing => false,
            UnderWay::Compacting(_) => true,
            UnderWay::Appending(_) => true,
        }
    }
}
