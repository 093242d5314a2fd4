//! Device calls that are carried to a keeper, and what it answers.

ghost use Rattle.std.specs.Prelude.{◌≡◌, [], None, true, IfSome, IsErr, OnErr, OnOk};
ghost use Rattle.macs_disk.specs.Messages.{answer_octets};
ghost use Rattle.macs_control.specs.Asking.{Reads, conversation};
ghost use Rattle.macs_control.specs.Couriers.{Awaits, Begins, BeginsFrom, CourierValue, EndsCall};
ghost use Rattle.macs_control.specs.Couriers.{Exchanges, Hears, IsNoAnswer, IsUnheard, done_answer};
ghost use Rattle.macs_control.specs.Couriers.{errand_after, errand_with};
ghost use Rattle.macs_control.specs.declared.keeping.courier.Errand.TheVariants.{Failed, Free};

use crate::connection::Taken;
use crate::keeping::taking::{is_whole, take_part};
use crate::keeping::waiting::Waits;
use arrayvec::ArrayVec;
use macs_commands::secrets::wipe;
use macs_disk::messages::{ANSWER, CallAnswer};
use macs_disk::{DeviceCall, DeviceFault};
use std::marker::Model;

/// What a courier is doing.
#[derive(Clone, Copy)]
pub(crate) enum Errand {
    /// Nothing: no call waits for its answer.
    Free,
    /// This call was sent, and waits for its answer.
    Asked(DeviceCall),
    /// Nothing any more: a call has failed.
    Failed,
}

/// Carries device calls to a keeper over a connection, one after another, and returns its answers.
///
/// Of what the keeper does nothing is claimed. Every answer but the one that the call is done is a
/// `DeviceFault`, and so is a connection that ends or fails. Once a call has failed each later call
/// fails, and nothing more is sent.
#[derive(Drop)]
pub(crate) struct Courier<C: Waits> {
    keeper: C,
    /// What arrived of the answer.
    held: ArrayVec<u8, ANSWER>,
    errand: Errand,
}

impl<C: Waits> Model for Courier<C> {
    ghost Value = { CourierValue };

    ghost view = { λ it. record {
      errand = it.errand;
      talk = conversation it.held.items (C.link it.keeper);
    } };
}

/// What octets say of a call, whose sector is put into `read` if they have one. Whatever does not
/// say that it is done is a fault.
fn end_of(octets: &[u8], call: &DeviceCall, read: &mut [u8; 512]) -> Result<(), DeviceFault>
    ensures done { OnOk result
        (octets.now ≡ answer_octets (done_answer call.now read.new)) }
    ensures fault { OnErr result (IsNoAnswer call.now octets.now) }
{
    let Some(answer) = CallAnswer::given(octets) else {
        return Err(DeviceFault);
    };
    match answer {
        CallAnswer::Sector(sector) => match call {
            DeviceCall::Read(_) => {
                *read = sector;
                Ok(())
            }
            DeviceCall::Write(_, _) => Err(DeviceFault),
            DeviceCall::Sync => Err(DeviceFault),
        },
        CallAnswer::Done => match call {
            DeviceCall::Read(_) => Err(DeviceFault),
            DeviceCall::Write(_, _) => Ok(()),
            DeviceCall::Sync => Ok(()),
        },
        CallAnswer::Failed => Err(DeviceFault),
    }
}

/// What a courier does next after a call that ended so.
fn after(end: Result<(), DeviceFault>) -> Errand
    ensures { result ≡ errand_after end }
{
    match end {
        Ok(()) => Errand::Free,
        Err(_) => Errand::Failed,
    }
}

impl<C: Waits> Courier<C> {
    /// A courier to a keeper that has greeted.
    pub(crate) fn to(keeper: C) -> Courier<C>
        ensures { result ≡ record { errand = Free; talk = conversation [] (C.link keeper) } }
    {
        Courier {
            keeper,
            held: ArrayVec::new(),
            errand: Errand::Free,
        }
    }

    /// Makes a call, and waits for its answer. A call that is under way already is not sent again.
    /// If another one is under way, this one fails.
    pub(crate) fn exchange(
        &mut self,
        call: &DeviceCall,
        read: &mut [u8; 512],
    ) -> Result<(), DeviceFault>
        ensures { Exchanges self.old call.now read.new result self.new }
    {
        if self.begin(call) {
            self.await_answer(call, read)
        } else {
            Err(DeviceFault)
        }
    }

    /// Makes a call as `exchange` does, but looks only once for its answer, and does not wait:
    /// `None` as long as that is not there.
    pub(crate) fn try_exchange(
        &mut self,
        call: &DeviceCall,
        read: &mut [u8; 512],
    ) -> Option<Result<(), DeviceFault>>
        ensures waits { result ≡ None → Awaits self.old call.now self.new }
        ensures end { IfSome result (λ end. Exchanges self.old call.now read.new end self.new) }
    {
        if self.begin(call) {
            self.answer(call, read)
        } else {
            Some(Err(DeviceFault))
        }
    }

    /// Sees to it that a call is under way, and sends its request if none is. Returns false if the
    /// connection does not take all of that, if another call is under way, or if one has failed.
    fn begin(&mut self, call: &DeviceCall) -> bool
        ensures { Begins self.old call.now result self.new }
    {
        match &self.errand {
            Errand::Free => self.send(call),
            Errand::Asked(asked) if asked == call => true,
            Errand::Asked(_) => {
                self.settle(Errand::Failed);
                false
            }
            Errand::Failed => false,
        }
    }

    /// Sends the request of a call. Returns whether the connection took all of it.
    fn send(&mut self, call: &DeviceCall) -> bool
        ensures errand { self.new.errand ≡ errand_with call.now result }
        ensures said { BeginsFrom Free self.old.talk call.now result self.new.talk }
    {
        let mut request = call.request();
        let is_sent = self.keeper.try_send(&request);
        wipe(&mut request);
        self.errand = if is_sent {
            Errand::Asked(*call)
        } else {
            Errand::Failed
        };
        is_sent
    }

    /// The answer to the call under way, if it is there.
    fn answer(&mut self, call: &DeviceCall, read: &mut [u8; 512]) -> Option<Result<(), DeviceFault>>
        ensures still { result ≡ None → IsUnheard self.old self.new }
        ensures end { IfSome result (λ end. EndsCall self.old call.now read.new end self.new) }
    {
        let end = self.look(call, read)?;
        self.settle(after(end));
        Some(end)
    }

    /// Looks once for the answer to the call under way.
    fn look(&mut self, call: &DeviceCall, read: &mut [u8; 512]) -> Option<Result<(), DeviceFault>>
        ensures rest { self.new ≡ record self.old { talk = self.new.talk } }
        ensures none { result ≡ None → Reads self.old.talk [] self.new.talk }
        ensures some { IfSome result
            (λ end. Hears self.old.talk call.now read.new end self.new.talk) }
    {
        match take_part(&mut self.keeper, &mut self.held) {
            Taken::Octets(_) => self.take_answer(call, read),
            Taken::Nothing => None,
            Taken::Ended => Some(Err(DeviceFault)),
            Taken::Gone => Some(Err(DeviceFault)),
        }
    }

    /// What the answer says, if all of it has arrived.
    fn take_answer(
        &mut self,
        call: &DeviceCall,
        read: &mut [u8; 512],
    ) -> Option<Result<(), DeviceFault>>
        ensures rest { self.new ≡ record self.old { talk = self.new.talk } }
        ensures none { result ≡ None → self.new ≡ self.old }
        ensures some { IfSome result
            (λ end. Hears self.old.talk call.now read.new end self.new.talk) }
    {
        if !is_whole(&self.held) {
            return None;
        }
        let end = end_of(self.held.as_slice(), call, read);
        wipe(self.held.as_mut_slice());
        self.held.clear();
        Some(end)
    }

    /// Waits for the answer to the call under way.
    fn await_answer(&mut self, call: &DeviceCall, read: &mut [u8; 512]) -> Result<(), DeviceFault>
        ensures { EndsCall self.old call.now read.new result self.new }
    {
        for _look in 0..u64::MAX {
            match self.answer(call, read) {
                Some(end) => return end,
                None => {}
            }
            if !self.wait() {
                return self.give_up();
            }
        }
        self.give_up()
    }

    /// Waits until the keeper has sent something, or has ended. Returns false if neither came.
    fn wait(&mut self) -> bool
        ensures { self.new ≡ self.old }
    {
        self.keeper.wait()
    }

    /// Ends a call without an answer.
    fn give_up(&mut self) -> Result<(), DeviceFault>
        ensures err { IsErr result }
        ensures failed { self.new ≡ record self.old { errand = Failed } }
    {
        self.settle(Errand::Failed);
        Err(DeviceFault)
    }

    /// Ends what the courier is doing, and overwrites the sector that it kept for that.
    fn settle(&mut self, next: Errand)
        ensures { self.new ≡ record self.old { errand = next } }
    {
        if let Errand::Asked(DeviceCall::Write(_, octets)) = &mut self.errand {
            wipe(octets);
        }
        self.errand = next;
    }
}
