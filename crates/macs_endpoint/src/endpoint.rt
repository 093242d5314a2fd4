//! An endpoint: its channels and its store.

ghost use Rattle.std.specs.Prelude.{◌≡◌, [], IfOk, IsOk, false};
ghost use Rattle.std.specs.Option.{option_map};
ghost use Rattle.macs_config.specs.Apply.{IsCommand};
ghost use Rattle.macs_config.specs.Value.{config_of};
ghost use Rattle.macs_rxsc.specs.Receive.{Numbers};
ghost use Rattle.macs_store.specs.Standing.{accept};
ghost use Rattle.macs_store.specs.Value.{IsIdle, standing_in};
ghost use Rattle.macs_endpoint.specs.Calls.{IsCall};
ghost use Rattle.macs_endpoint.specs.Opening.{Begins, BeginsOpened, IsOpening};
ghost use Rattle.macs_endpoint.specs.KeptCommands.{KeepsCommand};
ghost use Rattle.macs_endpoint.specs.Parts.{endpoint_of};
ghost use Rattle.macs_endpoint.specs.Value.{EndpointValue, IsSoundEndpoint, device_in, is_stopped};
ghost use Rattle.macs_endpoint.specs.Value.{state_of};
ghost use Rattle.macs_endpoint.specs.State.{Protects, Protected, Received, Receives, no_logs};

use crate::channels::Channels;
use crate::counters::Counters;
use crate::fault::{CommandFault, ProtectFault, Stopped};
use crate::queue::{Queue, Waiting};
use crate::turn::Turn;
use macs_config::laws::{command_in_range, identity_in_range};
use macs_config::{Checked, Command, Config, Identity};
use macs_disk::SectorDisk;
use macs_fields::laws::octets_in_range;
use macs_frame::{An, FrameBuf, Pn, Sci};
use macs_rxsc::{Rx, RxNumbers, Verdict};
use macs_store::{CommitFault, OpenRefused, Store};
use macs_txsc::Tx;
use std::marker::Model;

/// A MACsec endpoint on a disk of its own. Only packet numbers below durable ceilings are used, or
/// delivered as verified; a command takes effect once it is durable. After a device fault every
/// call that can return `Stopped` does so until the disk is opened again; readers still work.
#[derive(Drop)]
pub struct Endpoint<D: SectorDisk> {
    pub(crate) channels: Channels, // In front of an enum, so that the compiler moves them directly.
    pub(crate) turn: Turn,
    pub(crate) store: Store<D>,
    pub(crate) queue: Queue,
}

impl<D: SectorDisk> Model for Endpoint<D> {
    ghost Value = { EndpointValue D };

    ghost view = { λ e. endpoint_of e.store e.channels e.queue e.turn };

    ghost invariant = { λ e. IsSoundEndpoint (endpoint_of e.store e.channels e.queue e.turn) };
}

impl<D: SectorDisk> Endpoint<D> {
    /// Opens a disk: one sync makes durable what reads give; after it, only reads are made, unless
    /// its journal is of format one: that is then migrated to format two, and represents the same
    /// configuration and ceilings. The packet numbers of each association begin at its ceiling, and
    /// nothing has been counted. Fails with `TooSmall`, then with `Disk` at the first call that
    /// fails, `NotFormatted` and `BadJournal`, with `GenerationsSpent` if a journal of format one
    /// has generation 2^64 - 1, and with `Disk` at the first call of the migration that fails: the
    /// next opening finds what this one found. The disk is returned.
    #[inline(always)] // Else it has a place of its own for the endpoint, beside its caller's.
    pub fn open(disk: D) -> Result<Endpoint<D>, OpenRefused<D>>
        ensures { IsOpening D.disk disk result }
    {
        Endpoint::begun(Store::open(disk))
    }

    /// The result for an opened store that has nothing under way, or for a refusal: the endpoint
    /// that begins with the contents of the store.
    #[inline(never)] // What it takes of the stack is not there while the disk is read.
    fn begun(opened: Result<Store<D>, OpenRefused<D>>) -> Result<Endpoint<D>, OpenRefused<D>>
        requires { IfOk opened IsIdle }
        ensures { BeginsOpened opened result }
    {
        let store = match opened {
            Ok(store) => store,
            Err(refused) => return Err(refused),
        };
        Ok(Endpoint::with_store(store))
    }

    /// The endpoint that begins with the contents of a store, which has nothing under way: that of
    /// a disk that was opened.
    #[inline(always)] // Else it has a place of its own for the endpoint, beside its caller's.
    pub fn with_store(store: Store<D>) -> Endpoint<D>
        requires { IsIdle store }
        ensures { Begins store result }
    {
        let mut channels = Channels {
            tx: Tx::new(store.identity().sci()),
            rx: Rx::new(),
        };
        channels.take_up(&store);
        identity_in_range(&store.identity());
        channels.tx.facts();
        store.config().facts();
        Endpoint {
            store,
            queue: Queue::new(),
            turn: Turn::Reservation,
            channels,
        }
    }

    /// Keeps a command and follows it. A reservation under way is finished first, and no other
    /// begins. Fails with `Stopped`, then with `Busy` if a submitted command is pending: nothing
    /// changes. Then with `Refused` and the first refusal that applies: nothing changes except
    /// whose turn it is. Then with `GenerationsSpent` if all 256 slots are used and the generation
    /// is 2^64 - 1: nothing changes except whose turn it is, and the ceiling of a reservation that
    /// was under way. `Disk` at the first device call that fails: the endpoint is stopped, and the
    /// next opening finds it with the command or without.
    pub fn command(&mut self, command: Command) -> Result<(), CommandFault>
        ensures { KeepsCommand D.disk self.old command result self.new }
    {
        command_in_range(&command);
        if self.is_stopped() {
            return Err(CommandFault::Stopped);
        }
        if !self.queue.is_empty() {
            return Err(CommandFault::Busy);
        }
        match self.store.check(&command) {
            Ok(checked) => self.keep(&checked),
            Err(refusal) => {
                self.turn = Turn::Reservation;
                Err(CommandFault::Refused(refusal))
            }
        }
    }

    /// Finishes a reservation under way, and then keeps an accepted command, with the verdict of
    /// its check: a reservation changes no configuration. No submitted command is pending.
    fn keep(&mut self, checked: &Checked) -> Result<(), CommandFault>
        requires running { is_stopped self.old ≡ false }
        requires none { self.old.waiting ≡ [] }
        requires in_range { IsCommand checked.now }
        requires accepted { IsOk (accept (standing_in self.old.store) checked.now) }
        ensures { KeepsCommand D.disk self.old checked.now result self.new }
    {
        self.facts();
        if self.finish_reservation().is_err() {
            self.queue.cut(checked.command());
            self.turn = Turn::Reservation;
            return Err(CommandFault::Disk);
        }
        self.commit(checked)
    }

    /// Keeps an accepted command, with the verdict of its check, and follows it. No work is under
    /// way, and no submitted command is pending.
    fn commit(&mut self, checked: &Checked) -> Result<(), CommandFault>
        requires running { is_stopped self.old ≡ false }
        requires idle { IsIdle self.old.store }
        requires none { self.old.waiting ≡ [] }
        requires in_range { IsCommand checked.now }
        requires accepted { IsOk (accept (standing_in self.old.store) checked.now) }
        ensures { KeepsCommand D.disk self.old checked.now result self.new }
    {
        self.turn = Turn::Reservation;
        let command = checked.command();
        match self.store.commit_checked(checked) {
            Ok(()) => {
                self.channels.follow(&command, &self.store);
                Ok(())
            }
            Err(fault) => match fault {
                CommitFault::Disk => {
                    self.queue.cut(command);
                    Err(CommandFault::Disk)
                }
                _ => Err(CommandFault::GenerationsSpent),
            },
        }
    }

    /// Protects a plain frame, writes the frame to send on the common side to `out`, and returns
    /// its packet number, which is then used. Fails with `Stopped`, then with the first fault of
    /// the transmit channel: fewer than 14 octets, or more than 9,216 with SecTAG and ICV, among
    /// others; then `out` is empty, and no number is used. No device call is made. After `NoNumber`
    /// call `refill`, or call `step` until the frame is sent, and submit the frame again.
    pub fn protect(&mut self, plain: &[u8], out: &mut FrameBuf) -> Result<Pn, ProtectFault>
        ensures call { IsCall D.disk self.old (Protects plain.now)
            (Protected result out.new.items) self.new }
        ensures store { self.new.store ≡ self.old.store }
    {
        octets_in_range(plain);
        if self.is_stopped() {
            out.clear();
            return Err(ProtectFault::Stopped);
        }
        match self.channels.tx.protect(plain, out) {
            Ok(pn) => Ok(pn),
            Err(fault) => Err(ProtectFault::Tx(fault)),
        }
    }

    /// The verdict on a frame from the common side, of any length. What is delivered is written to
    /// `out`, which is empty unless the verdict is `Delivered`. Fails with `Stopped` if a device
    /// call failed before; then `out` is empty. No device call is made. After `HeldBack` call
    /// `refill`, or call `step` until the frame is settled, and submit the same frame again.
    pub fn receive(&mut self, frame: &[u8], out: &mut FrameBuf) -> Result<Verdict, Stopped>
        ensures call { IsCall D.disk self.old (Receives frame.now)
            (Received result out.new.items) self.new }
        ensures store { self.new.store ≡ self.old.store }
    {
        octets_in_range(frame);
        if self.is_stopped() {
            out.clear();
            return Err(Stopped);
        }
        Ok(self.channels.rx.receive(frame, out))
    }

    /// Whether a device call failed: the disk must be opened again.
    pub fn is_stopped(&self) -> bool
        ensures { result ≡ (state_of self.now no_logs).stopped }
    {
        self.store.is_stopped()
    }

    /// The command under way: its call, or its work, began and did not end. It stays after a device
    /// fault, and may or may not be found once the disk is opened again.
    pub fn under_way(&self) -> Option<Command>
        ensures { result ≡ (state_of self.now no_logs).under_way }
    {
        self.queue.command()
    }

    /// The pending submitted commands, in order, each with its ticket. If work on the disk for one
    /// of them is under way, it is the first.
    pub fn waiting(&self) -> &[Waiting]
        ensures { result.now ≡ (state_of self.now no_logs).waiting }
    {
        self.queue.as_slice()
    }

    /// The configuration.
    pub fn config(&self) -> &Config
        ensures config { config_of result.now ≡ (state_of self.now no_logs).config }
        ensures identity { result.now.identity ≡ (state_of self.now no_logs).identity }
    {
        self.store.config()
    }

    /// The identity that the disk was formatted with.
    pub fn identity(&self) -> Identity
        ensures { result ≡ (state_of self.now no_logs).identity }
    {
        self.store.identity()
    }

    /// The counters since the disk was opened.
    pub fn counters(&self) -> Counters<'_>
        ensures tx { result.tx.now ≡ self.now.tx }
        ensures rx { result.rx.now ≡ self.now.rx }
    {
        Counters {
            tx: &self.channels.tx,
            rx: &self.channels.rx,
        }
    }

    /// The next packet number of a transmit association, 1 to 2^32, `None` if there is none at that
    /// number.
    pub fn next_number(&self, an: An) -> Option<u64>
        ensures { result ≡ (state_of self.now no_logs).next an }
    {
        self.channels.tx.next_number(an)
    }

    /// The next and the lowest acceptable packet number of a receive association, 1 to 2^32, the
    /// lowest at most the next; `None` if there is none.
    pub fn numbers(&self, sci: Sci, an: An) -> Option<RxNumbers>
        ensures { result ≡ option_map (λ (n : Numbers). record { next = n.next; lowest = n.lowest })
            ((state_of self.now no_logs).numbers sci an) }
    {
        self.channels.rx.numbers(sci, an)
    }

    /// For proofs, does nothing: an endpoint's channels are those in its store, no ceiling is too
    /// far ahead, the queue is not overfull, and the work under way is a reservation or the first
    /// pending command.
    pub fn facts(&self)
        ensures { IsSoundEndpoint self.now }
    {
        let _store = &self.store;
    }

    /// The disk.
    pub fn into_disk(self) -> D
        ensures { result ≡ device_in self }
    {
        let Endpoint { store, .. } = self;
        store.into_disk()
    }
}
