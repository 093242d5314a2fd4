//! Programs over an in-memory disk.

ghost use Rattle.std.specs.Prelude.{[], IfSome};
ghost use Rattle.macs_disk.specs.Fuses.{FuseValue, disk_of_fuse};
ghost use Rattle.macs_disk.specs.MemDisks.{disk_of};
ghost use Rattle.macs_theorem.specs.Programs.{HearsExpected, holds};

use crate::held::Held;
use crate::program::Program;
use crate::running::run;
use macs_disk::{Fuse, MemDisk};
use std::alloc::Global;

/// Runs a program on a new in-memory disk, of 1,028 sectors, with a fuse. `None` if there is no
/// memory for it.
pub fn run_in_memory<P: Program>(
    alloc: Global,
    program: &mut P,
    turns: u64,
) -> Option<Held<Fuse<MemDisk>>>
    requires fresh { P.keeps program.old [] }
    ensures { IfSome result (λ held. (disk : FuseValue _)
        × HearsExpected (disk_of_fuse disk_of) disk (P.keeps program.new) (holds held)) }
{
    let Ok(disk) = MemDisk::new(alloc, 1_028) else {
        return None;
    };
    Some(run(Fuse::new(disk, u64::MAX), program, turns))
}
