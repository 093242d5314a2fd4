//! A rest before a planned end: ceilings become the next packet numbers.

ghost use Rattle.std.specs.Prelude.{◌≡◌, ◌⊎◌, false};
ghost use Rattle.macs_store.specs.Value.{IsIdle};
ghost use Rattle.macs_endpoint.specs.AtRest.{RestsAll};
ghost use Rattle.macs_endpoint.specs.Calls.{IsCall};
ghost use Rattle.macs_endpoint.specs.Parts.{next_of};
ghost use Rattle.macs_endpoint.specs.State.{Rested, Rests};
ghost use Rattle.macs_endpoint.specs.Value.{IsAtRest, IsReserving, is_stopped};

use crate::channels::Channels;
use crate::endpoint::Endpoint;
use crate::fault::RestFault;
use macs_disk::SectorDisk;
use macs_frame::{An, Sci};
use macs_record::Ceiling;
use macs_store::NextNumbers;

impl NextNumbers for Channels {
    ghost numbers = { λ c. next_of c.tx c.rx };

    fn tx(&self, an: An) -> Option<Ceiling> {
        self.tx.facts();
        let number = self.tx.next_number(an)?;
        Some(Ceiling::new(number).unwrap())
    }

    fn rx(&self, sci: Sci, an: An) -> Option<Ceiling> {
        self.rx.facts();
        let numbers = self.rx.numbers(sci, an)?;
        Some(Ceiling::new(numbers.next).unwrap())
    }
}

impl<D: SectorDisk> Endpoint<D> {
    /// Prepares a planned end: until the next reservation or command an opening skips no packet
    /// number. A reservation under way is finished first; then the journal is compacted, with the
    /// next packet numbers as ceilings, so no number is used until it is reserved again. Fails with
    /// `Stopped`, then with `Busy` if a submitted command is pending; these change nothing. Then
    /// with `GenerationsSpent` if the generation is 2^64 - 1: only a reservation under way is made;
    /// and with `Disk` at the first device call that fails: the next opening finds the ceilings as
    /// they were, with that reservation or without, or at the next numbers.
    pub fn rest(&mut self) -> Result<(), RestFault>
        ensures call { IsCall D.disk self.old Rests (Rested result) self.new }
    {
        if self.is_stopped() {
            return Err(RestFault::Stopped);
        }
        if !self.queue.is_empty() {
            return Err(RestFault::Busy);
        }
        let turn = self.turn_after_refill();
        let result = self.finish_and_rest();
        self.turn = turn;
        result
    }

    /// Finishes a reservation under way, and then makes the next packet numbers the ceilings.
    fn finish_and_rest(&mut self) -> Result<(), RestFault>
        requires running { is_stopped self.old ≡ false }
        requires work { IsAtRest self.old ⊎ IsReserving self.old }
        ensures { RestsAll D.disk self.old result self.new }
    {
        if self.finish_reservation().is_err() {
            return Err(RestFault::Disk);
        }
        self.rest_idle()
    }

    /// Makes the next packet numbers the ceilings, on the disk and then in memory. No work is under
    /// way. Fails with `GenerationsSpent`, which changes nothing, and with `Disk` at the first
    /// device call that fails.
    fn rest_idle(&mut self) -> Result<(), RestFault>
        requires running { is_stopped self.old ≡ false }
        requires idle { IsIdle self.old.store }
        ensures { RestsAll D.disk self.old result self.new }
    {
        self.store.facts();
        self.store.rest_at(&self.channels)?;
        self.channels.tx.lower();
        self.channels.rx.lower();
        Ok(())
    }
}
