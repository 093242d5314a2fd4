//! The desk that attends a relay, and what it consists of.

ghost use Rattle.std.specs.Prelude.{◌≡◌, ◌⊎◌, true, IfErr, IfOk, is_some};
ghost use Rattle.macs_control.specs.ControlSockets.{IsUnused};
ghost use Rattle.macs_control.specs.MetricsFiles.{IsPlaceAt};
ghost use Rattle.macs_program.specs.Attendants.{IsNewDesk, sleep_of};
ghost use Rattle.macs_program.specs.Relaying.{is_attended};

use crate::build::this_program;
use crate::counters_name::refuse_other_file;
use crate::pacing::sleep_of;
use crate::relay_system::RelaySystem;
use macs_cli::{Failure, Running};
use macs_control::desk::{ControlDesk, report_paper};
use macs_control::{ControlSocket, MetricsPlace, Sockets, remove_name};
use macs_offline::KeyList;
use std::alloc::Global;
use std::net::Net;
use std::rt::{Clock, Files};

/// The desk of a relay of the program.
pub type SystemDesk<'a, T> = ControlDesk<
    ControlSocket<'a, T>,
    MetricsPlace<'a, T>,
    RelaySystem<'a, T>,
>;

/// The control socket, if the words name one, watched with the sockets of both wires. Fails with
/// `Memory`, or with `Control` if it cannot be bound.
fn clients_for<'a, T: Files + Net + Clock>(
    rt: &'a T,
    alloc: Global,
    running: &Running<'a>,
    wires: Sockets,
) -> Result<ControlSocket<'a, T>, Failure>
    ensures unused { IfOk result
        (IsUnused (is_some running.now.control) wires (sleep_of running.now.pace)) }
    ensures failed { IfErr result (λ failure. (failure ≡ Failure.Memory)
        ⊎ ((failure ≡ Failure.Control) × (is_some running.now.control ≡ true))) }
{
    let limit = sleep_of(running.pace);
    let clients = ControlSocket::bind(rt, alloc, running.control, wires, limit)?;
    Ok(clients)
}

/// A desk for the sockets of both wires, the file of counters at this place, the control socket, if
/// the words name one, and the list of keys beside a disk file. Fails with `Memory`, or with
/// `Control` if the control socket cannot be bound.
fn desk_over<'a, T: Files + Net + Clock>(
    rt: &'a T,
    alloc: Global,
    disk: &'a str,
    running: &Running<'a>,
    wires: Sockets,
    metrics: MetricsPlace<'a, T>,
) -> Result<SystemDesk<'a, T>, Failure>
    requires { IsPlaceAt running.now.metrics metrics }
    ensures new { IfOk result (IsNewDesk disk.now running.now wires) }
    ensures failed { IfErr result (λ failure. (failure ≡ Failure.Memory)
        ⊎ ((failure ≡ Failure.Control) × (is_some running.now.control ≡ true))) }
{
    let program = this_program(rt, alloc)?;
    let paper = report_paper(alloc)?;
    // The last thing that can fail: a name that is bound is removed at the end of the relay.
    let clients = clients_for(rt, alloc, running, wires)?;
    let keys = KeyList { rt, alloc, disk };
    let system = RelaySystem {
        rt,
        alloc,
        wires,
        keys,
    };
    Ok(ControlDesk::new(paper, program, clients, metrics, system))
}

/// Where the counters are written, if they are. Fails with `Memory`, or with `Control` if another
/// file has the name.
fn place_for<'a, T: Files + Clock>(
    rt: &'a T,
    alloc: Global,
    path: Option<&'a str>,
) -> Result<MetricsPlace<'a, T>, Failure>
    ensures place { IfOk result (IsPlaceAt path.entry) }
    ensures failed { IfErr result (λ failure. (failure ≡ Failure.Memory)
        ⊎ ((failure ≡ Failure.Control) × (is_some path.entry ≡ true))) }
{
    if let Some(name) = path {
        refuse_other_file(rt, alloc, name)?;
    }
    let place = MetricsPlace::new(rt, alloc, path)?;
    Ok(place)
}

/// The desk of a relay: for the sockets of both wires, the control socket and the file of counters,
/// if the words name them, and the list of keys beside a disk file. Fails with `Memory`; or with
/// `Control` if the control socket cannot be bound, or if another file has the name of the file of
/// counters.
pub fn desk_for<'a, T: Files + Net + Clock>(
    rt: &'a T,
    alloc: Global,
    disk: &'a str,
    running: &Running<'a>,
    wires: Sockets,
) -> Result<SystemDesk<'a, T>, Failure>
    ensures new { IfOk result (IsNewDesk disk.now running.now wires) }
    ensures failed { IfErr result (λ failure. (failure ≡ Failure.Memory)
        ⊎ ((failure ≡ Failure.Control) × (is_attended running.now ≡ true))) }
{
    let metrics = place_for(rt, alloc, running.metrics)?;
    desk_over(rt, alloc, disk, running, wires, metrics)
}

/// Removes the name of the control socket.
pub fn leave<T: Files>(rt: &T, running: &Running) {
    if let Some(path) = running.control {
        remove_name(rt, path);
    }
}
