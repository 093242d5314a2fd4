//! `relay`: frames between two wires through an endpoint.

ghost use Rattle.std.specs.Prelude.{◌≡◌, ◌⊎◌, [], None};
ghost use Rattle.macs_control.specs.Serving.{ServesClients};
ghost use Rattle.macs_control.specs.Unanswered.{entries_of};
ghost use Rattle.macs_edge.specs.Relaying.{empty_lane, relay_of};
ghost use Rattle.macs_edge.specs.Wires.{WireState};
ghost use Rattle.macs_offline.specs.Trying.{LookFails, TriesIn};
ghost use Rattle.macs_program.specs.KeptRelays.{ComesToBy, RelayFailsBy};
ghost use Rattle.macs_program.specs.Relaying.{ComesTo, IsUnbound, RelayFailsIn, RelayedAs};
ghost use Rattle.macs_program.specs.Relaying.{RelaysAttended, course_of, is_attended, new_wire};
ghost use Rattle.macs_program.specs.Tasks.{DoesRelay};

use crate::attendants::{SystemDesk, desk_for, leave};
use crate::kept_relay::relay_kept;
use crate::pacing::{Rest, limit_of};
use crate::task::{Task, with_file};
use crate::wires::{Wires, bind_wires};
use macs_cli::{CaptureFile, Failure, Pace, Running, Status, Stream, WireEnds, addresses_of};
use macs_commands::requests::{Clients, Metrics};
use macs_control::desk::laws::clients_are_served;
use macs_control::desk::{ControlDesk, KeyNotes, Overruns, Time};
use macs_control::{NO_SOCKET, Notifier};
use macs_disk::SectorDisk;
use macs_edge::{UdpWire, Unattended, Wire};
use macs_endpoint::Endpoint;
use macs_offline::look_at;
use std::alloc::Global;
use std::net::{Net, UdpSocket};
use std::os::fd::RawFd;
use std::rt::{Clock, Env, Files};

/// Whether a desk attends a relay.
fn is_attended(running: &Running) -> bool
    ensures { result ≡ is_attended running.now }
{
    running.control.is_some() || running.metrics.is_some()
}

/// Relays frames between two wires, of which no call has been made yet, attended by a desk that
/// serves clients: each command that one of them gave is answered to it once, in the order of
/// tickets, `ok` only after the step that kept it.
fn serve<D: SectorDisk, C: Clients, M: Metrics, S: Overruns + KeyNotes + Time, W: Stream>(
    wires: Wires,
    endpoint: &mut Endpoint<D>,
    desk: &mut ControlDesk<C, M, S>,
    pace: Pace,
    out: &mut W,
) -> Result<Status, Failure>
    requires none_waits { endpoint.old.waiting ≡ [] }
    requires none { entries_of desk.old.unanswered ≡ [] }
    requires controlled { ⟦<UdpWire<Global, UdpSocket> as Wire>⟧.state wires.controlled ≡ new_wire }
    requires common { ⟦<UdpWire<Global, UdpSocket> as Wire>⟧.state wires.common ≡ new_wire }
    ensures { (controlled common : WireState) × RelaysAttended D.disk
        (λ events. ServesClients C.does desk.old events desk.new) W.contents W.failed pace
        (relay_of endpoint.old new_wire new_wire empty_lane empty_lane) out.old result endpoint.new
        controlled common out.new }
{
    clients_are_served::<D, C, M, S>();
    wires.relay(endpoint, desk, pace, out)
}

/// Relays frames through an endpoint between two wires, of which no call has been made yet.
#[derive(Drop)]
pub struct RelayWires<'a, 'd, T> {
    pub rt: &'a T,
    pub alloc: Global,
    pub disk: &'a str,
    pub wires: Wires,
    /// The connection to the keeper of the disk, or `NO_SOCKET`.
    pub keeper: RawFd,
    pub running: Running<'a>,
    /// Where the desk is left at the end. It is dropped after the disk is closed, so a client that
    /// sees its connection end finds the disk file free.
    pub left: &'d mut Option<SystemDesk<'a, T>>,
    ghost new_controlled: { ⟦<UdpWire<Global, UdpSocket> as Wire>⟧.state wires.controlled
        ≡ new_wire },
    ghost new_common: { ⟦<UdpWire<Global, UdpSocket> as Wire>⟧.state wires.common ≡ new_wire },
}

impl<T: Files + Net + Clock + Env> RelayWires<'_, '_, T> {
    ghost use Rattle.std.specs.Prelude.{◌≡◌, [], true, false};
    ghost use Rattle.macs_program.specs.Relaying.{course_with};
    ghost use Rattle.macs_program.specs.Tasks.{DoesRelay};

    /// A desk attends the relay. The program's parent is notified once everything is bound, and
    /// when the relay ends.
    fn attend<D: SectorDisk, W: Stream>(
        self,
        endpoint: &mut Endpoint<D>,
        out: &mut W,
    ) -> Result<Status, Failure>
        requires { endpoint.old.waiting ≡ [] }
        ensures { DoesRelay D.disk W.contents W.failed
            (course_with T true self.entry.disk.now self.entry.running) endpoint.old out.old result
            endpoint.new out.new }
    {
        let RelayWires {
            rt,
            alloc,
            disk,
            wires,
            keeper,
            running,
            left,
        } = self;
        let mut desk = desk_for(rt, alloc, disk, &running, wires.sockets(keeper))?;
        let notifier = Notifier::of_environment(rt, alloc);
        notifier.ready();
        let result = serve(wires, endpoint, &mut desk, running.pace, out);
        notifier.stopping();
        leave(rt, &running);
        *left = Some(desk);
        result
    }

    /// Nobody attends the relay.
    fn leave_alone<D: SectorDisk, W: Stream>(
        self,
        endpoint: &mut Endpoint<D>,
        out: &mut W,
    ) -> Result<Status, Failure>
        ensures { DoesRelay D.disk W.contents W.failed
            (course_with T false self.entry.disk.now self.entry.running) endpoint.old out.old result
            endpoint.new out.new }
    {
        let RelayWires {
            wires,
            keeper,
            running,
            ..
        } = self;
        let idle = Rest {
            sockets: wires.sockets(keeper),
            limit: limit_of(running.pace),
        };
        wires.relay(endpoint, &mut Unattended { idle }, running.pace, out)
    }
}

impl<T: Files + Net + Clock + Env, D: SectorDisk, W: Stream> Task<D, W> for RelayWires<'_, '_, T> {
    ghost does = { λ task. DoesRelay D.disk W.contents W.failed
        (course_of T task.disk.now task.running) };

    #[inline(never)]
    fn run(self, endpoint: &mut Endpoint<D>, out: &mut W) -> Result<Status, Failure> {
        let running = self.running;
        if is_attended(&running) {
            self.attend(endpoint, out)
        } else {
            self.leave_alone(endpoint, out)
        }
    }
}

/// The failure of a relay whose wires cannot be bound: that of its disk, which comes first, if
/// there is one. The file is examined in place and not rewritten, so that a relay that is restarted
/// over and over writes nothing.
fn unbound<T: Files>(rt: &T, alloc: Global, disk: &str, failure: Failure) -> Failure
where
    T::File: CaptureFile,
    requires { (failure ≡ Failure.Memory) ⊎ (failure ≡ Failure.Wire) }
    ensures kept { ((result ≡ failure) × TriesIn T.File.file None [] [])
        ⊎ LookFails T.File.file result }
    ensures unbound { IsUnbound T.File.file result }
{
    match look_at(rt, alloc, disk) {
        Ok(()) => failure,
        Err(fault) => fault,
    }
}

/// Relays frames between two wires, through an endpoint on a disk in a file.
fn relay_in_file<'a, T: Files + Net + Clock + Env, W: Stream>(
    rt: &'a T,
    alloc: Global,
    disk: &'a str,
    controlled: WireEnds,
    common: WireEnds,
    running: Running<'a>,
    out: &mut W,
) -> Result<Status, Failure>
where
    T::File: CaptureFile,
    ensures { RelayedAs (ComesTo T.File.file (course_of T disk.now running.entry))
        (RelayFailsIn T.File.file (course_of T disk.now running.entry)) W.contents W.failed
        controlled.entry common.entry out.old result out.new }
{
    let addresses = addresses_of(controlled, common)?;
    match bind_wires(rt, alloc, addresses, running.buffer) {
        Ok(wires) => {
            let mut desk = None;
            let task = RelayWires {
                rt,
                alloc,
                disk,
                wires,
                keeper: NO_SOCKET,
                running,
                left: &mut desk,
            };
            with_file(rt, alloc, disk, task, out)
        }
        Err(failure) => Err(unbound(rt, alloc, disk, failure)),
    }
}

/// `relay`: relays frames between two wires, the first of which is the controlled side. The disk is
/// in the file named `disk`, or a keeper has that file, if one is named.
pub fn relay<'a, T: Files + Net + Clock + Env, W: Stream>(
    rt: &'a T,
    alloc: Global,
    disk: &'a str,
    controlled: WireEnds,
    common: WireEnds,
    running: Running<'a>,
    out: &mut W,
) -> Result<Status, Failure>
where
    T::File: CaptureFile,
    ensures { RelayedAs
        (ComesToBy T.File.file running.entry.keeper (course_of T disk.now running.entry))
        (RelayFailsBy T.File.file running.entry.keeper (course_of T disk.now running.entry))
        W.contents W.failed controlled.entry common.entry out.old result out.new }
{
    match running.keeper {
        None => relay_in_file(rt, alloc, disk, controlled, common, running, out),
        Some(keeper) => relay_kept(rt, alloc, disk, keeper, controlled, common, running, out),
    }
}
