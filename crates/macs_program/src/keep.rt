//! `keep`: a disk file, kept for one client that asks for device calls.

ghost use Rattle.std.specs.Prelude.{◌≡◌, ◌≢◌, ◌⊎◌, IfErr, IfNone, IfOk, IfSome};
ghost use Rattle.macs_control.specs.Calls.{with_calls};
ghost use Rattle.macs_control.specs.Links.{line_of};
ghost use Rattle.macs_program.specs.Keeping.{FailsToKeep, KeepsFor, KeepsIn, LetsNobodyIn};
ghost use Rattle.macs_program.specs.Keeping.{one_let_in, outcome_of};

use crate::entrance::{Entrance, SystemEntrance};
use macs_cli::{Failure, Status};
use macs_control::keeping::{KeepEnd, keep_for};
use macs_disk::{DiskFile, SectorDisk};
use macs_offline::open_disk;
use std::alloc::Global;
use std::net::Net;
use std::rt::{Env, Files};

/// What comes of the end of the work for a client. One that is gone has ended it, whenever that
/// was: a relay may end at any moment.
fn outcome(end: KeepEnd) -> Result<Status, Failure>
    ensures { result ≡ outcome_of end }
{
    match end {
        KeepEnd::Ungreeted | KeepEnd::Ended | KeepEnd::Unanswered => Ok(Status::Done),
        KeepEnd::Gone | KeepEnd::Malformed | KeepEnd::Outside => Err(Failure::Control),
    }
}

/// Lets one client in at a socket with this name, and nobody after it. `None` if the name cannot be
/// bound, or nobody can be waited for.
fn let_one_in<E: Entrance>(entrance: &mut E, path: &str) -> Option<E::Client>
    ensures came { IfSome result (λ client. E.asked entrance.new
        ≡ with_calls (E.asked entrance.old) (one_let_in path.now
        (line_of E.Client.link E.Client.steady client))) }
    ensures nobody { IfNone result
        (LetsNobodyIn path.now (E.asked entrance.old) (E.asked entrance.new)) }
{
    if !entrance.bind(path) {
        return None;
    }
    entrance.notify();
    let client = entrance.let_in();
    entrance.close(path);
    client
}

/// Keeps a disk for one client, which comes in at a socket with this name. Fails with `Control` if
/// nobody can be let in, with no call of the disk made; and if the client sends what is not a
/// request, or one for a sector that the disk does not have, or its connection fails. A call of the
/// disk that fails is no failure here: it is answered, and the client decides.
pub fn keep_for_one<D: SectorDisk, E: Entrance>(
    disk: &mut D,
    entrance: &mut E,
    path: &str,
) -> Result<Status, Failure>
    ensures { KeepsFor path.now (E.asked entrance.old) (D.disk disk.old) result
        (E.asked entrance.new) (D.disk disk.new) }
{
    let Some(mut client) = let_one_in(entrance, path) else {
        return Err(Failure::Control);
    };
    outcome(keep_for(disk, &mut client))
}

/// `keep`: opens the disk in a file, and keeps it for one client, which comes in at a socket with
/// this name. Nothing is printed. Fails as `open_disk` does, and then as `keep_for_one` does.
pub fn keep<T: Files + Net + Env>(
    rt: &T,
    alloc: Global,
    disk: &str,
    socket: &str,
) -> Result<Status, Failure>
where
    T::File: DiskFile,
    ensures kept { IfOk result (KeepsIn T.File.file) }
    ensures ended { IfErr result (FailsToKeep T.File.file) }
{
    let mut disk = open_disk(rt, alloc, disk)?;
    let mut entrance = SystemEntrance::new(rt, alloc);
    keep_for_one(&mut disk, &mut entrance, socket)
}
