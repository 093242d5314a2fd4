//! What an endpoint keeps, in memory and on its disk.

ghost use Rattle.std.specs.Prelude.{◌≡◌, ◌<◌, ◌^◌, ◌↔◌, false, Err, IfOk, IsOk, IsSome, IsTrue};
ghost use Rattle.std.specs.Prelude.{IfSome, OnOk};
ghost use Rattle.macs_config.specs.Apply.{Named};
ghost use Rattle.macs_config.specs.Value.{config_of};
ghost use Rattle.macs_store.specs.Keeps.{Commits, Keeps};
ghost use Rattle.macs_store.specs.Table.{standing_of};
ghost use Rattle.macs_store.specs.UnderWay.{under_way_of};
ghost use Rattle.macs_store.specs.Value.{FitsUnderWay, IsIdle, StoreValue, device_in};
ghost use Rattle.macs_store.specs.Value.{is_stopped, standing_in};
ghost use Rattle.macs_config.specs.Numbers.{block_beyond};
ghost use Rattle.macs_store.specs.Standing.{IsStanding, accept, standing_with_rx_raised};
ghost use Rattle.macs_store.specs.Standing.{standing_with_tx_raised};

use crate::fault::CommitFault;
use crate::standing::Standing;
use crate::under_way::UnderWay;
use macs_config::{Checked, Command, Config, Identity, Refusal};
use macs_disk::SectorDisk;
use macs_fields::{An, Pn, Sci};
use macs_journal::{Journal, JournalFault};
use macs_record::Ceiling;
use std::marker::Model;

/// The configuration of an endpoint and the ceilings of its packet numbers, as they are on its
/// disk. A change is in memory only after its record is durable. If all 256 slots of the journal's
/// current area are used the journal is compacted in the other area, with a snapshot of both,
/// before it takes the next record. After a device fault each call fails with `Stopped` until the
/// disk is opened again.
#[derive(Drop)]
pub struct Store<D: SectorDisk> {
    pub(crate) journal: Journal<D>,
    pub(crate) standing: Standing,
    pub(crate) under_way: UnderWay,
}

impl<D: SectorDisk> Model for Store<D> {
    ghost Value = { StoreValue D };

    ghost view = { λ s.
        record { journal = s.journal; held = s.standing; under_way = under_way_of s.under_way } };

    ghost invariant = { λ s.
        FitsUnderWay s.journal (standing_of s.standing) (under_way_of s.under_way) };
}

impl<D: SectorDisk> Store<D> {
    /// The verdict on a command that the configuration does not refuse, or the first refusal in the
    /// order of `Refusal`. It holds as long as the configuration is unchanged, which raised
    /// ceilings do not affect.
    pub fn check(&self, command: &Command) -> Result<Checked, Refusal>
        ensures fits { OnOk result (IsOk (accept (standing_in self.now) command.now)) }
        ensures checked { IfOk result (λ checked. checked ≡ command.now) }
        ensures refused { (refusal : Refusal) → (result ≡ Err refusal)
            ↔ (accept (standing_in self.now) command.now ≡ Err (Named refusal)) }
    {
        self.standing.check(command)
    }

    /// Keeps a command and applies it. No work is under way. Fails with `Stopped`, then with
    /// `Refused` and the first refusal that applies, then with `GenerationsSpent`; these change
    /// nothing. Fails with `Disk` at the first device call that fails: the configuration is
    /// unchanged, and after a power loss it is found with the command or without.
    pub fn commit(&mut self, command: &Command) -> Result<(), CommitFault>
        requires idle { IsIdle self.old }
        ensures { Commits D.disk self.old command.now result self.new }
    {
        self.start_commit(command)?;
        match self.finish() {
            Ok(()) => Ok(()),
            Err(_) => Err(CommitFault::Disk),
        }
    }

    /// Keeps a command that the configuration does not refuse, and applies it, with the verdict of
    /// its check. No work is under way, and no device call failed. Fails with `GenerationsSpent`,
    /// which changes nothing, and with `Disk` as `commit` does.
    pub fn commit_checked(&mut self, checked: &Checked) -> Result<(), CommitFault>
        requires idle { IsIdle self.old }
        requires running { is_stopped self.old ≡ false }
        requires fits { IsOk (accept (standing_in self.old) checked.now) }
        ensures { Commits D.disk self.old checked.now result self.new }
    {
        self.start_checked(checked)?;
        match self.finish() {
            Ok(()) => Ok(()),
            Err(_) => Err(CommitFault::Disk),
        }
    }

    /// Raises the ceiling of a transmit association by a block, to at most 2^32. No work is under
    /// way; the association exists, and its ceiling is less than 2^32. Fails with `Stopped`, then
    /// with `GenerationsSpent`; these change nothing. Fails with `Disk` at the first device call
    /// that fails: the ceiling is unchanged, and after a power loss it is found raised or not.
    pub fn reserve_tx(&mut self, an: An) -> Result<(), JournalFault>
        requires idle { IsIdle self.old }
        requires raised { IfSome ((standing_in self.old).ceilings.tx an) (λ old. old < 2 ^ 32) }
        requires stands { IsSome ((standing_in self.old).ceilings.tx an) }
        ensures { Keeps D.disk self.old (standing_with_tx_raised (standing_in self.old) an)
            result self.new }
    {
        self.start_tx(an)?;
        self.finish()
    }

    /// Raises the ceiling of a receive association to a block beyond a packet number, to at most
    /// 2^32. No work is under way; the association exists, and its ceiling is less than the new
    /// one. Fails as `reserve_tx` does.
    pub fn reserve_rx(&mut self, sci: Sci, an: An, pn: Pn) -> Result<(), JournalFault>
        requires idle { IsIdle self.old }
        requires raised { IfSome ((standing_in self.old).ceilings.rx sci an)
            (λ old. old < block_beyond pn (standing_in self.old).identity.rx_block) }
        requires stands { IsSome ((standing_in self.old).ceilings.rx sci an) }
        ensures { Keeps D.disk self.old (standing_with_rx_raised (standing_in self.old) sci an pn)
            result self.new }
    {
        self.start_rx(sci, an, pn)?;
        self.finish()
    }

    /// Whether a device call failed: the disk must be opened again.
    pub fn is_stopped(&self) -> bool
        ensures { result ≡ is_stopped self.now }
    {
        self.journal.is_stopped()
    }

    /// Whether no work is under way.
    pub fn is_idle(&self) -> bool
        ensures { IsTrue result ↔ IsIdle self.now }
    {
        match &self.under_way {
            UnderWay::Nothing => true,
            UnderWay::Compacting(_) => false,
            UnderWay::Appending(_) => false,
        }
    }

    /// The configuration, which includes the identity.
    pub fn config(&self) -> &Config
        ensures config { config_of result.now ≡ (standing_in self.now).config }
        ensures identity { result.now.identity ≡ (standing_in self.now).identity }
    {
        &self.standing.config
    }

    /// The identity that the disk was formatted with.
    pub fn identity(&self) -> Identity
        ensures { result ≡ (standing_in self.now).identity }
    {
        self.standing.config.identity()
    }

    /// The ceiling of a transmit association, `None` if there is none at that number.
    pub fn tx_ceiling(&self, an: An) -> Option<Ceiling>
        ensures { result ≡ (standing_in self.now).ceilings.tx an }
    {
        self.standing.ceilings.tx(an)
    }

    /// The ceiling of a receive association, `None` if there is none at that number of that
    /// channel.
    pub fn rx_ceiling(&self, sci: Sci, an: An) -> Option<Ceiling>
        ensures { result ≡ (standing_in self.now).ceilings.rx sci an }
    {
        self.standing.ceilings.rx(sci, an)
    }

    /// For proofs, does nothing: exactly the associations that exist have a ceiling.
    pub fn facts(&self)
        ensures { IsStanding (standing_in self.now) }
    {
        let _config = &self.standing.config;
    }

    /// The disk.
    pub fn into_disk(self) -> D
        ensures { result ≡ device_in self }
    {
        let Store { journal, .. } = self;
        journal.into_disk()
    }
}
