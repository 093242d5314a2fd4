//! The channels of a disk that was opened.

ghost use Rattle.std.specs.Prelude.{◌≡◌, ◌≤◌, ◌<◌, ℕ, List, true, None, IsSome};
ghost use Rattle.std.specs.Option.{option_map};
ghost use Rattle.macs_config.specs.Config.{is_among};
ghost use Rattle.macs_config.specs.Tables.{put_at};
ghost use Rattle.macs_txsc.specs.Transmit as transmit;
ghost use Rattle.macs_txsc.specs.Value as txsc;
ghost use Rattle.macs_rxsc.specs.Counting as counting;
ghost use Rattle.macs_rxsc.specs.Receive.{has_channel, first_numbers};
ghost use Rattle.macs_rxsc.specs.Value as rxsc;
ghost use Rattle.macs_store.specs.Value.{standing_in};
ghost use Rattle.macs_endpoint.specs.Counting.{new_channel_counters};
ghost use Rattle.macs_endpoint.specs.Opening.{IsNewRx, IsNewTx};
ghost use Rattle.macs_endpoint.specs.State.{rx_side_with, tx_side_with};

use crate::channels::{Channels, install_rx, install_tx, set_policy};
use macs_disk::SectorDisk;
use macs_frame::{An, Sci};
use macs_rxsc::Rx;
use macs_store::Store;
use macs_txsc::Tx;

/// A disk that is not opened, and why.
pub use macs_store::OpenRefused;

impl Channels {
    /// Restores the channels from a store; they are new. The packet numbers of each association
    /// begin at its ceiling.
    #[inline(never)]
    pub(crate) fn take_up<D: SectorDisk>(&mut self, store: &Store<D>)
        requires new_tx { IsNewTx (standing_in store.now).identity self.old.tx }
        requires new_rx { IsNewRx self.old.rx }
        ensures tx { txsc.tx_side_of self.new.tx
            ≡ tx_side_with (standing_in store.now).identity (standing_in store.now).config
            (standing_in store.now).ceilings.tx }
        ensures rx { rxsc.rx_side_of self.new.rx ≡ rx_side_with (standing_in store.now).config
            (λ sci an. option_map first_numbers ((standing_in store.now).ceilings.rx sci an)) }
        ensures tx_ceilings { txsc.ceilings_of self.new.tx ≡ (standing_in store.now).ceilings.tx }
        ensures rx_ceilings { rxsc.ceilings_of self.new.rx ≡ (standing_in store.now).ceilings.rx }
        ensures tx_counters { txsc.counters_of self.new.tx ≡ transmit.no_counts }
        ensures rx_counters { rxsc.counters_of self.new.rx ≡ counting.no_counts }
        ensures channel_counters { rxsc.channel_counters_of self.new.rx
            ≡ new_channel_counters (standing_in store.now).config.channels }
    {
        take_up_tx(&mut self.tx, store);
        take_up_rx(&mut self.rx, store);
    }
}

/// Restores the transmit channel from a store; it is new.
fn take_up_tx<D: SectorDisk>(tx: &mut Tx, store: &Store<D>)
    requires { IsNewTx (standing_in store.now).identity tx.old }
    ensures side { txsc.tx_side_of tx.new
        ≡ tx_side_with (standing_in store.now).identity (standing_in store.now).config
        (standing_in store.now).ceilings.tx }
    ensures ceilings { txsc.ceilings_of tx.new ≡ (standing_in store.now).ceilings.tx }
    ensures counters { txsc.counters_of tx.new ≡ transmit.no_counts }
{
    let config = store.config();
    config.facts();
    store.facts();
    tx.set_mode(config.sci_mode());
    for an in An::all() {
        if let Some(ceiling) = store.tx_ceiling(an) {
            install_tx(tx, store, an, ceiling.get());
        }
    }
    if let Some(an) = config.encoding() {
        tx.select(an);
    }
}

/// Restores the receive channels from a store; there is none before.
fn take_up_rx<D: SectorDisk>(rx: &mut Rx, store: &Store<D>)
    requires { IsNewRx rx.old }
    ensures side { rxsc.rx_side_of rx.new ≡ rx_side_with (standing_in store.now).config
        (λ sci an. option_map first_numbers ((standing_in store.now).ceilings.rx sci an)) }
    ensures ceilings { rxsc.ceilings_of rx.new ≡ (standing_in store.now).ceilings.rx }
    ensures counters { rxsc.counters_of rx.new ≡ counting.no_counts }
    ensures channel_counters { rxsc.channel_counters_of rx.new
        ≡ new_channel_counters (standing_in store.now).config.channels }
{
    let config = store.config();
    config.facts();
    store.facts();
    set_policy(rx, store);
    for sci in config.channels().iter() {
        rx.add(*sci);
        install_channel(rx, store, *sci);
    }
}

/// Installs the associations of the store on an existing channel that has none.
fn install_channel<D: SectorDisk>(rx: &mut Rx, store: &Store<D>, sci: Sci)
    requires stands { has_channel (rxsc.rx_side_of rx.old) sci ≡ true }
    requires empty { (an : ℕ) → (rxsc.rx_side_of rx.old).rx sci an ≡ None }
    ensures side { rxsc.rx_side_of rx.new ≡ record (rxsc.rx_side_of rx.old) {
      rx = put_at (rxsc.rx_side_of rx.old).rx sci ((standing_in store.now).config.rx sci);
      numbers = put_at (rxsc.rx_side_of rx.old).numbers sci
          (λ an. option_map first_numbers ((standing_in store.now).ceilings.rx sci an));
    } }
    ensures ceilings { rxsc.ceilings_of rx.new
        ≡ put_at (rxsc.ceilings_of rx.old) sci ((standing_in store.now).ceilings.rx sci) }
    ensures counters { rxsc.counters_of rx.new ≡ rxsc.counters_of rx.old }
    ensures channel_counters { rxsc.channel_counters_of rx.new ≡ rxsc.channel_counters_of rx.old }
{
    store.config().facts();
    store.facts();
    rx.facts();
    for an in An::all() {
        if let Some(ceiling) = store.rx_ceiling(sci, an) {
            install_rx(rx, store, sci, an, ceiling.get());
        }
    }
}
