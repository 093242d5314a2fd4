//! What a subcommand does with the endpoint on its disk.
//!
//! An endpoint is large. A subcommand is a `Task` that three functions run, one calling the next.
//! The first opens the disk file and passes the disk on; the second does nothing but open the
//! endpoint and pass it on, by value; the third lends it to the task. So the stack holds only one
//! endpoint while the disk is read. None of these functions is inlined, nor is the body of a task:
//! otherwise the compiler would reserve a second place for the endpoint on the stack.

ghost use Rattle.std.specs.Prelude.{◌≡◌, []};
ghost use Rattle.macs_endpoint.specs.Opening.{IsOpening};
ghost use Rattle.macs_program.specs.Tasks.{Doing, IsRunIn, IsRunOn};

use macs_cli::{Failure, Status, Stream};
use macs_disk::{DiskFile, FileDisk, SectorDisk};
use macs_endpoint::{Endpoint, OpenRefused};
use macs_offline::open_disk;
use std::alloc::Global;
use std::rt::Files;

/// What a subcommand does with the endpoint on its disk.
pub trait Task<D: SectorDisk, W: Stream>: Drop {
    /// What it returns, and what it leaves of the endpoint and of the stream.
    ghost does: { Self → Doing D W };

    /// Runs it. The endpoint has no pending command.
    fn run(self, endpoint: &mut Endpoint<D>, out: &mut W) -> Result<Status, Failure>
        requires { endpoint.old.waiting ≡ [] }
        ensures { does self endpoint.old out.old result endpoint.new out.new };
}

/// Runs a task with the endpoint on the disk in a file.
#[inline(never)]
pub fn with_file<T: Files, K: Task<FileDisk<T::File>, W>, W: Stream>(
    rt: &T,
    alloc: Global,
    path: &str,
    task: K,
    out: &mut W,
) -> Result<Status, Failure>
where
    T::File: DiskFile,
    ensures { IsRunIn T.File.file (K.does task) out.old result out.new }
{
    let disk = open_disk(rt, alloc, path)?;
    with_disk(disk, task, out)
}

/// Runs a task with the endpoint on a disk.
#[inline(never)]
pub fn with_disk<D: SectorDisk + Drop, K: Task<D, W>, W: Stream>(
    disk: D,
    task: K,
    out: &mut W,
) -> Result<Status, Failure>
    ensures { IsRunOn D.disk (K.does task) disk out.old result out.new }
{
    with_opened(Endpoint::open(disk), task, out)
}

/// Runs a task with an endpoint, if it was opened.
#[inline(never)]
fn with_opened<D: SectorDisk + Drop, K: Task<D, W>, W: Stream>(
    mut opened: Result<Endpoint<D>, OpenRefused<D>>,
    task: K,
    out: &mut W,
) -> Result<Status, Failure>
    requires { (disk : _) × IsOpening D.disk disk opened }
    ensures { (disk : _) → IsOpening D.disk disk opened
        → IsRunOn D.disk (K.does task) disk out.old result out.new }
{
    match &mut opened {
        Ok(endpoint) => task.run(endpoint, out),
        Err(refused) => Err(Failure::from(refused.fault)), // Nothing is done.
    }
}
