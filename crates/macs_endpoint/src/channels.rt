//! The channels of an endpoint, kept consistent with its store.

ghost use Rattle.std.specs.Prelude.{◌≡◌, ◌≤◌, true, Some, None, Ok, IsSome, IfSome};
ghost use Rattle.std.specs.Option.{option_map};
ghost use Rattle.macs_config.specs.Tables.{put, put_at};
ghost use Rattle.macs_txsc.specs.Value as txsc;
ghost use Rattle.macs_rxsc.specs.Value as rxsc;
ghost use Rattle.macs_rxsc.specs.Receive.{has_channel, put_numbers, first_numbers};
ghost use Rattle.macs_rxsc.specs.Receive.{numbers_under_window};
ghost use Rattle.macs_store.specs.Value.{standing_in};
ghost use Rattle.macs_store.specs.Standing.{Standing, accept};
ghost use Rattle.macs_endpoint.specs.Ceilings.{standing_with_raise};
ghost use Rattle.macs_endpoint.specs.Following.{Follows, is_of_rx};
ghost use Rattle.macs_endpoint.specs.Parts.{raise_of};
ghost use Rattle.macs_endpoint.specs.Value.{AreChannels, IsRaiseWithin};

use crate::refilling::Raise;
use macs_config::Command;
use macs_disk::SectorDisk;
use macs_frame::{An, Sci};
use macs_rxsc::Rx;
use macs_store::Store;
use macs_txsc::Tx;

/// The transmit channel and the receive channels.
#[derive(Drop)]
pub(crate) struct Channels {
    pub tx: Tx,
    pub rx: Rx,
}

impl Channels {
    /// Follows a command that the store keeps.
    pub(crate) fn follow<D: SectorDisk>(&mut self, command: &Command, store: &Store<D>)
        requires { (before : Standing) × AreChannels self.old.tx self.old.rx before
            × (accept before command.now ≡ Ok (standing_in store.now)) }
        ensures { Follows command.now (standing_in store.now) self.old.tx self.old.rx self.new.tx
            self.new.rx }
    {
        match *command {
            Command::SetValidate(_) | Command::SetReplay { .. } => set_policy(&mut self.rx, store),
            Command::SetSciMode(mode) => self.tx.set_mode(mode),
            Command::TxInstall { an, start, .. } => {
                install_tx(&mut self.tx, store, an, u64::from(start));
            }
            Command::TxUse { an } => self.tx.select(an),
            Command::TxRemove { an } => self.tx.remove(an),
            Command::RxAdd { .. }
            | Command::RxDrop { .. }
            | Command::RxInstall { .. }
            | Command::RxRemove { .. } => self.follow_rx(command, store),
        }
    }

    /// Follows a command of a receive channel, or of an association of one, which the store keeps.
    fn follow_rx<D: SectorDisk>(&mut self, command: &Command, store: &Store<D>)
        requires received { is_of_rx command.now ≡ true }
        requires kept { (before : Standing) × AreChannels self.old.tx self.old.rx before
            × (accept before command.now ≡ Ok (standing_in store.now)) }
        ensures { Follows command.now (standing_in store.now) self.old.tx self.old.rx self.new.tx
            self.new.rx }
    {
        match *command {
            Command::RxAdd { sci } => self.rx.add(sci),
            Command::RxDrop { sci } => self.rx.drop_channel(sci),
            Command::RxInstall { sci, an, start, .. } => {
                install_rx(&mut self.rx, store, sci, an, u64::from(start));
            }
            Command::RxRemove { sci, an } => self.rx.remove(sci, an),
            _ => {} // No other command is.
        }
    }

    /// Raises a ceiling to the value that the store has raised it to.
    pub(crate) fn raise<D: SectorDisk>(&mut self, raise: Raise, store: &Store<D>)
        requires { (before : Standing) × AreChannels self.old.tx self.old.rx before
            × IsRaiseWithin self.old.tx self.old.rx before.identity (raise_of raise)
            × (standing_in store.now ≡ standing_with_raise before (raise_of raise)) }
        ensures channels { AreChannels self.new.tx self.new.rx (standing_in store.now) }
        ensures tx_side { txsc.tx_side_of self.new.tx ≡ txsc.tx_side_of self.old.tx }
        ensures rx_side { rxsc.rx_side_of self.new.rx ≡ rxsc.rx_side_of self.old.rx }
        ensures tx_counters { txsc.counters_of self.new.tx ≡ txsc.counters_of self.old.tx }
        ensures rx_counters { rxsc.counters_of self.new.rx ≡ rxsc.counters_of self.old.rx }
        ensures channel_counters { rxsc.channel_counters_of self.new.rx
            ≡ rxsc.channel_counters_of self.old.rx }
    {
        store.facts();
        match raise {
            Raise::Tx(an) => {
                let ceiling = store.tx_ceiling(an).unwrap();
                self.tx.raise(an, ceiling.get());
            }
            Raise::Rx(need) => {
                let ceiling = store.rx_ceiling(need.sci, need.an).unwrap();
                self.rx.raise(need.sci, need.an, ceiling.get());
            }
        }
    }
}

/// Sets how received frames are validated, and the replay window. An unchanged window changes no
/// number.
pub(crate) fn set_policy<D: SectorDisk>(rx: &mut Rx, store: &Store<D>)
    ensures side { rxsc.rx_side_of rx.new ≡ record (rxsc.rx_side_of rx.old) {
      validate = (standing_in store.now).config.validate;
      replay = (standing_in store.now).config.replay;
      numbers = λ sci an. option_map (numbers_under_window
          (standing_in store.now).config.replay.window) ((rxsc.rx_side_of rx.old).numbers sci an);
    } }
    ensures same_window { (rxsc.rx_side_of rx.old).replay.window
        ≡ (standing_in store.now).config.replay.window
        → (rxsc.rx_side_of rx.new).numbers ≡ (rxsc.rx_side_of rx.old).numbers }
    ensures ceilings { rxsc.ceilings_of rx.new ≡ rxsc.ceilings_of rx.old }
    ensures counters { rxsc.counters_of rx.new ≡ rxsc.counters_of rx.old }
    ensures channel_counters { rxsc.channel_counters_of rx.new ≡ rxsc.channel_counters_of rx.old }
{
    rx.facts();
    let replay = store.config().replay();
    rx.set_policy(store.config().validate(), replay.on, replay.window);
}

/// Installs a transmit association from the store, at an unused number. `next` is its next packet
/// number, 1 to the ceiling.
pub(crate) fn install_tx<D: SectorDisk>(tx: &mut Tx, store: &Store<D>, an: An, next: u64)
    requires stands { IsSome ((standing_in store.now).config.tx an) }
    requires empty { (txsc.tx_side_of tx.old).tx an ≡ None }
    requires numbered { 1 ≤ next }
    requires ordered { IfSome ((standing_in store.now).ceilings.tx an) (λ ceiling. next ≤ ceiling) }
    ensures side { txsc.tx_side_of tx.new ≡ record (txsc.tx_side_of tx.old) {
      tx = put (txsc.tx_side_of tx.old).tx an ((standing_in store.now).config.tx an);
      next = put (txsc.tx_side_of tx.old).next an (Some next);
    } }
    ensures ceilings { txsc.ceilings_of tx.new
        ≡ put (txsc.ceilings_of tx.old) an ((standing_in store.now).ceilings.tx an) }
    ensures counters { txsc.counters_of tx.new ≡ txsc.counters_of tx.old }
{
    store.facts();
    let sa = store.config().tx(an).unwrap();
    let ceiling = store.tx_ceiling(an).unwrap();
    let key = sa.key.get();
    tx.install(
        an,
        &key,
        sa.protection.is_confidential(),
        sa.protection.offset(),
        next,
        ceiling.get(),
    );
}

/// Installs a receive association from the store on an existing channel, at an unused number.
/// `next` is its next and lowest acceptable packet number, 1 to the ceiling.
pub(crate) fn install_rx<D: SectorDisk>(rx: &mut Rx, store: &Store<D>, sci: Sci, an: An, next: u64)
    requires stands { IsSome ((standing_in store.now).config.rx sci an) }
    requires channel { has_channel (rxsc.rx_side_of rx.old) sci ≡ true }
    requires empty { (rxsc.rx_side_of rx.old).rx sci an ≡ None }
    requires numbered { 1 ≤ next }
    requires ordered { IfSome ((standing_in store.now).ceilings.rx sci an)
        (λ ceiling. next ≤ ceiling) }
    ensures side { rxsc.rx_side_of rx.new ≡ record (rxsc.rx_side_of rx.old) {
      rx = put_at (rxsc.rx_side_of rx.old).rx sci
          (put ((rxsc.rx_side_of rx.old).rx sci) an ((standing_in store.now).config.rx sci an));
      numbers = put_numbers (rxsc.rx_side_of rx.old).numbers sci an (Some (first_numbers next));
    } }
    ensures ceilings { rxsc.ceilings_of rx.new ≡ put_at (rxsc.ceilings_of rx.old) sci
        (put (rxsc.ceilings_of rx.old sci) an ((standing_in store.now).ceilings.rx sci an)) }
    ensures counters { rxsc.counters_of rx.new ≡ rxsc.counters_of rx.old }
    ensures channel_counters { rxsc.channel_counters_of rx.new ≡ rxsc.channel_counters_of rx.old }
{
    store.facts();
    let sa = store.config().rx(sci, an).unwrap();
    let ceiling = store.rx_ceiling(sci, an).unwrap();
    let key = sa.key.get();
    rx.install(sci, an, &key, sa.offset, next, ceiling.get());
}
