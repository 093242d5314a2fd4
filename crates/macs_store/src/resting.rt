//! A planned end: a compaction with the next packet numbers as ceilings.

ghost use Rattle.std.specs.Prelude.{◌≡◌, ◌≤◌, ℕ, List, None, false, get_or, length};
ghost use Rattle.macs_config.specs.Config.{is_among};
ghost use Rattle.macs_config.specs.Value.{config_of};
ghost use Rattle.macs_store.specs.Resting.{Rests, standing_with_ceilings};
ghost use Rattle.macs_store.specs.Standing.{IsStanding};
ghost use Rattle.macs_store.specs.Table.{standing_of, table_ceilings, table_scis};
ghost use Rattle.macs_store.specs.Value.{IsIdle, standing_in};

use crate::ceiling_table::{CeilingTable, ChannelCeilings};
use crate::next_numbers::NextNumbers;
use crate::standing::Standing;
use crate::store::Store;
use arrayvec::ArrayVec;
use macs_disk::SectorDisk;
use macs_fields::{ASSOCIATIONS, An, Sci};
use macs_journal::JournalFault;
use macs_record::Ceiling;
use std::mem::replace;

impl<D: SectorDisk> Store<D> {
    /// Compacts the journal, with the next packet numbers as ceilings: no number is used until the
    /// next reservation, and an opening skips none. No work is under way, before or after. Fails
    /// with `Stopped`, then with `GenerationsSpent` if the generation is 2^64 - 1, even if slots
    /// are free; these change nothing. Fails with `Disk` at the first device call that fails:
    /// memory is unchanged, and after a power loss the ceilings are found unchanged, or at these
    /// numbers.
    pub fn rest_at<N: NextNumbers>(&mut self, next: &N) -> Result<(), JournalFault>
        requires idle { IsIdle self.old }
        requires stands { IsStanding (standing_with_ceilings (standing_in self.old)
            (N.numbers next.now)) }
        ensures { Rests D.disk self.old (N.numbers next.now) result self.new }
    {
        if self.is_stopped() {
            return Err(JournalFault::Stopped);
        }
        let before = self.standing.put_ceilings(next);
        match self.compact_held() {
            Ok(()) => Ok(()),
            Err(fault) => {
                self.standing.put_back(before);
                Err(fault)
            }
        }
    }
}

impl Standing {
    /// Makes the next packet numbers the ceilings, and returns those before.
    fn put_ceilings<N: NextNumbers>(&mut self, next: &N) -> CeilingTable
        requires stands { IsStanding (standing_with_ceilings (standing_of self.old)
            (N.numbers next.now)) }
        ensures standing { standing_of self.new
            ≡ standing_with_ceilings (standing_of self.old) (N.numbers next.now) }
        ensures config { self.new.config ≡ self.old.config }
        ensures before { result ≡ self.old.table }
        ensures stood { IsStanding (standing_of self.old) }
        ensures channels { table_scis self.old.table ≡ (config_of self.old.config).channels }
    {
        self.config.facts();
        let ceilings = at_next(next, self.config.channels().as_slice());
        replace(&mut self.ceilings, ceilings)
    }

    /// Restores earlier ceilings.
    fn put_back(&mut self, before: CeilingTable)
        requires stands { IsStanding (standing_of (record {
          config = self.old.config;
          table = before;
        })) }
        requires channels { table_scis before ≡ (config_of self.old.config).channels }
        ensures { self.new ≡ record { config = self.old.config; table = before } }
    {
        self.ceilings = before;
    }
}

/// The next packet numbers as ceilings, given the channels that exist.
fn at_next<N: NextNumbers>(next: &N, scis: &[Sci]) -> CeilingTable
    requires few { length scis.now ≤ 32 }
    requires few_tx { (an : ℕ) → 4 ≤ an → (N.numbers next.now).tx an ≡ None }
    requires few_rx { (sci : List ℕ) (an : ℕ) → 4 ≤ an → (N.numbers next.now).rx sci an ≡ None }
    requires among { (sci : List ℕ) (an : ℕ) → is_among scis.now sci ≡ false
        → (N.numbers next.now).rx sci an ≡ None }
    ensures ceilings { table_ceilings result ≡ N.numbers next.now }
    ensures channels { table_scis result ≡ scis.now }
{
    let mut channels = ArrayVec::new();
    for sci in scis {
        channels.push(ChannelCeilings {
            sci: *sci,
            ceilings: rx_next(next, *sci),
        });
    }
    CeilingTable {
        tx: tx_next(next),
        channels,
    }
}

/// The next packet numbers of transmit associations, by their numbers.
fn tx_next<N: NextNumbers>(next: &N) -> [Option<Ceiling>; ASSOCIATIONS]
    requires { (an : ℕ) → 4 ≤ an → (N.numbers next.now).tx an ≡ None }
    ensures { (an : ℕ) → get_or result an None ≡ (N.numbers next.now).tx an }
{
    let [first, second, third, fourth] = An::all();
    [
        next.tx(first),
        next.tx(second),
        next.tx(third),
        next.tx(fourth),
    ]
}

/// The next packet numbers of a channel's associations, by their numbers.
fn rx_next<N: NextNumbers>(next: &N, sci: Sci) -> [Option<Ceiling>; ASSOCIATIONS]
    requires { (an : ℕ) → 4 ≤ an → (N.numbers next.now).rx sci an ≡ None }
    ensures { (an : ℕ) → get_or result an None ≡ (N.numbers next.now).rx sci an }
{
    let [first, second, third, fourth] = An::all();
    [
        next.rx(sci, first),
        next.rx(sci, second),
        next.rx(sci, third),
        next.rx(sci, fourth),
    ]
}
