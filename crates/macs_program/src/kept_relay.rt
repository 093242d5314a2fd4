//! `relay --keeper`: frames between two wires, through an endpoint whose disk a keeper keeps.

ghost use Rattle.std.specs.Prelude.{◌≡◌, IfErr, IfOk};
ghost use Rattle.macs_journal.specs.declared.fault.JournalFault.TheVariants as journal;
ghost use Rattle.macs_cli.specs.Failing.{failure_of_journal};
ghost use Rattle.macs_program.specs.KeptRelays.{ComesToKept, IsKeptAt, IsNotKept};
ghost use Rattle.macs_program.specs.KeptRelays.{RelayFailsKept};
ghost use Rattle.macs_program.specs.Relaying.{RelayedAs, course_of};

use crate::relay::RelayWires;
use crate::task::with_disk;
use crate::wires::bind_wires;
use macs_cli::{Failure, Running, Status, Stream, WireEnds, addresses_of};
use macs_control::Watched;
use macs_control::keeping::{Keepers, KeptDisk, SystemKeepers};
use macs_journal::JournalFault;
use std::alloc::Global;
use std::net::Net;
use std::os::fd::RawFd;
use std::rt::{Clock, Env, Files};

/// The disk of the keeper that listens on this name, once it has greeted, and the descriptor of the
/// connection. Fails with `Disk` if no keeper listens there, or if it does not greet.
fn kept_disk_at<K: Keepers>(
    keepers: &mut K,
    path: &str,
) -> Result<(KeptDisk<K::Connection>, RawFd), Failure>
    ensures kept { IfOk result (λ kept. IsKeptAt K.Connection.link K.Connection.steady
        K.Connection.number path.now (K.asked keepers.old) kept.0 kept.1 (K.asked keepers.new)) }
    ensures failed { IfErr result (λ failure. (failure ≡ failure_of_journal journal.Disk)
        × IsNotKept path.now (K.asked keepers.old) (K.asked keepers.new)) }
{
    let Some(connection) = keepers.connect(path) else {
        return Err(JournalFault::Disk.into());
    };
    let socket = connection.descriptor();
    match KeptDisk::open(connection) {
        Some(disk) => Ok((disk, socket)),
        None => Err(JournalFault::Disk.into()),
    }
}

/// `relay --keeper`: relays frames as `relay` does, over the disk of the keeper that listens on
/// this name: frames pass while the keeper's disk is written and synced. `disk` names the disk
/// file, which is not opened: the list of keys is beside it. Fails as `relay` does, first because
/// of an address, then if a wire cannot be bound, then with `Disk` if no keeper greets, and if the
/// keeper's disk is refused.
pub fn relay_kept<'a, T: Files + Net + Clock + Env, W: Stream>(
    rt: &'a T,
    alloc: Global,
    disk: &'a str,
    keeper: &str,
    controlled: WireEnds,
    common: WireEnds,
    running: Running<'a>,
    out: &mut W,
) -> Result<Status, Failure>
    ensures { RelayedAs (ComesToKept (course_of T disk.now running.entry))
        (RelayFailsKept (course_of T disk.now running.entry)) W.contents W.failed controlled.entry
        common.entry out.old result out.new }
{
    let addresses = addresses_of(controlled, common)?;
    let wires = bind_wires(rt, alloc, addresses, running.buffer)?;
    let (kept, socket) = kept_disk_at(&mut SystemKeepers { net: rt }, keeper)?;
    let mut desk = None;
    let task = RelayWires {
        rt,
        alloc,
        disk,
        wires,
        keeper: socket,
        running,
        left: &mut desk,
    };
    with_disk(kept, task, out)
}
