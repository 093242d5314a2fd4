//! Reservations of packet numbers.

ghost use Rattle.std.specs.Prelude.{◌≡◌, ◌⊎◌, Some, false};
ghost use Rattle.std.specs.Option.{option_map};
ghost use Rattle.macs_store.specs.Stepping.{Starts};
ghost use Rattle.macs_store.specs.Value.{IsIdle, standing_in};
ghost use Rattle.macs_endpoint.specs.Advancing.{turn_after_refill};
ghost use Rattle.macs_endpoint.specs.Calls.{IsCall};
ghost use Rattle.macs_endpoint.specs.Ceilings.{Rises, standing_with_raise};
ghost use Rattle.macs_endpoint.specs.Needed.{raise_in};
ghost use Rattle.macs_endpoint.specs.Reserving.{Raised, ReservationEnds, ReservesAll, StartsRaise};
ghost use Rattle.macs_endpoint.specs.RefillCosts.{Spends};
ghost use Rattle.macs_endpoint.specs.State.{Refilled, Refills};
ghost use Rattle.macs_endpoint.specs.Parts.{raise_of};
ghost use Rattle.macs_endpoint.specs.Value.{IsAtRest, IsReserving, is_stopped};

use crate::endpoint::Endpoint;
use crate::fault::RefillFault;
use crate::turn::Turn;
use macs_disk::SectorDisk;
use macs_frame::An;
use macs_journal::JournalFault;
use macs_rxsc::RxNeed;
use macs_store::Store;

/// A ceiling to raise: that of a transmit association, or of a receive association.
#[derive(Clone, Copy)]
pub enum Raise {
    Tx(An),
    Rx(RxNeed),
}

impl<D: SectorDisk> Endpoint<D> {
    /// Finishes a reservation under way, and then makes every reservation of packet numbers that is
    /// needed: that of the encoding association, then those of receive associations by ascending
    /// SCI and number. Fails with `Stopped`, then with `Busy` if a submitted command is pending;
    /// these change nothing. Then with `GenerationsSpent` if a ceiling is needed, all 256 slots are
    /// used and the generation is 2^64 - 1; and with `Disk` at the first device call that fails.
    /// Reservations made before a fault stay. A reservation takes one slot of the journal and at
    /// most four device calls, plus a compaction if all slots are used.
    pub fn refill(&mut self) -> Result<(), RefillFault>
        ensures call { IsCall D.disk self.old Refills (Refilled result) self.new }
        ensures spends { Spends D.disk self.old result self.new.store }
    {
        if self.is_stopped() {
            return Err(RefillFault::Stopped);
        }
        if !self.queue.is_empty() {
            return Err(RefillFault::Busy);
        }
        let turn = self.turn_after_refill();
        let result = self.finish_and_reserve();
        self.turn = turn;
        result
    }

    /// Whose turn it is after a refill or a rest: a command's if a reservation is under way,
    /// otherwise unchanged.
    pub(crate) fn turn_after_refill(&self) -> Turn
        ensures { result ≡ turn_after_refill self.now.turn self.now.reserving }
    {
        match self.queue.raise() {
            Some(_) => Turn::Command,
            None => self.turn,
        }
    }

    /// Finishes a reservation under way, and then makes every reservation that is needed.
    fn finish_and_reserve(&mut self) -> Result<(), RefillFault>
        requires running { is_stopped self.old ≡ false }
        requires work { IsAtRest self.old ⊎ IsReserving self.old }
        ensures { ReservesAll D.disk self.old result self.new }
    {
        self.finish_reservation()?;
        self.reserve()
    }

    /// Makes every reservation that is needed. No work is under way.
    fn reserve(&mut self) -> Result<(), RefillFault>
        requires running { is_stopped self.old ≡ false }
        requires idle { IsIdle self.old.store }
        ensures { ReservesAll D.disk self.old result self.new }
    {
        self.facts();
        while let Some(raise) = self.first_raise() {
            self.raise(raise)?;
        }
        Ok(())
    }

    /// The ceiling to raise first, if any.
    pub(crate) fn first_raise(&self) -> Option<Raise>
        ensures { option_map raise_of result ≡ raise_in self.now }
    {
        if let Some(an) = self.channels.tx.needs(self.store.identity().tx_block()) {
            return Some(Raise::Tx(an));
        }
        let need = self.channels.rx.needs(self.store.identity().rx_block())?;
        Some(Raise::Rx(need))
    }

    /// Raises the ceiling that must be raised first.
    fn raise(&mut self, raise: Raise) -> Result<(), RefillFault>
        requires running { is_stopped self.old ≡ false }
        requires idle { IsIdle self.old.store }
        requires first { raise_in self.old ≡ Some (raise_of raise) }
        ensures { Raised D.disk self.old (raise_of raise) result self.new }
    {
        self.start_raise(raise)?;
        self.finish_reservation()
    }

    /// Starts to raise the ceiling that must be raised first, and makes no device call. No work is
    /// under way. Fails with `GenerationsSpent`, which changes nothing.
    pub(crate) fn start_raise(&mut self, raise: Raise) -> Result<(), JournalFault>
        requires running { is_stopped self.old ≡ false }
        requires idle { IsIdle self.old.store }
        requires first { raise_in self.old ≡ Some (raise_of raise) }
        ensures { StartsRaise D.disk self.old (raise_of raise) result self.new }
    {
        start_ceiling(&mut self.store, &raise)?;
        self.queue.begin_raise(raise);
        Ok(())
    }

    /// Finishes a reservation under way. Fails with `Disk` at the first device call that fails; the
    /// next opening finds it or not.
    pub(crate) fn finish_reservation(&mut self) -> Result<(), RefillFault>
        requires running { is_stopped self.old ≡ false }
        requires work { IsAtRest self.old ⊎ IsReserving self.old }
        ensures { ReservationEnds D.disk self.old result self.new }
    {
        let Some(raise) = self.queue.end_raise() else {
            return Ok(());
        };
        self.store.finish()?;
        self.channels.raise(raise, &self.store);
        Ok(())
    }
}

/// Makes a store start to raise a ceiling. No work is under way. Fails as the store does.
fn start_ceiling<D: SectorDisk>(store: &mut Store<D>, raise: &Raise) -> Result<(), JournalFault>
    requires idle { IsIdle store.old }
    requires rises { Rises (standing_in store.old) (raise_of raise.now) }
    ensures { Starts D.disk store.old
        (standing_with_raise (standing_in store.old) (raise_of raise.now)) result store.new }
{
    match raise {
        Raise::Tx(an) => store.start_tx(*an),
        Raise::Rx(need) => store.start_rx(need.sci, need.an, need.pn),
    }
}
