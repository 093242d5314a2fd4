//! Promises of calls that follow one another, put together by the laws, over a disk that stops at
//! each call in turn.

ghost use Rattle.std.specs.Prelude.{◌≡◌, ◌<◌, ℕ, true, IsErr};
ghost use Rattle.macs_disk.specs.States.{settled_state, zero_sector};
ghost use Rattle.macs_disk.specs.Disk.{IsHonest, IsWork, now};
ghost use Rattle.macs_disk.specs.Runs.{Leaves};
ghost use Rattle.macs_disk.specs.Fuses.{disk_of_fuse};
ghost use Rattle.macs_disk.specs.MemDisks.{disk_of};

use super::Step::{Crash, Find, Tear};
use super::{Step, blank, full, play};
use macs_disk::laws::{
    Property, a_read_call_leaves_nothing_new, a_sync_call_leaves_nothing_new, a_write_call_leaves,
    calls_are_counted, fuses_are_honest, leaves_call, leaves_join, leaves_more, leaves_none,
    leaves_now, leaves_weaker, memory_is_honest, work_goes_on,
};
use macs_disk::{DeviceFault, Fuse, MemDisk, SectorDisk};
use std::alloc::Allocator;
use std::process::Abort;

/// Every sector holds zeros.
struct AllAreBlank;

impl Property for AllAreBlank {
    ghost holds = { λ image. (i : ℕ) → image i ≡ zero_sector };
}

/// Sector 0 holds zeros.
struct FirstIsBlank;

impl Property for FirstIsBlank {
    ghost holds = { λ image. image 0 ≡ zero_sector };
}

/// Reads sector 0 of a blank disk and replaces sector 1 durably. A power loss meanwhile leaves
/// sector 0 blank.
fn replace_second<D: SectorDisk>(disk: &mut D, octets: &[u8; 512]) -> Result<(), DeviceFault>
    requires { 1 < (D.disk disk.old).sectors }
    ensures work { IsWork (D.disk disk.old) (D.disk disk.new) result }
    ensures worn { (D.disk disk.old).worn ≡ true → IsErr result }
    ensures leaves { IsHonest (D.disk disk.new)
        → now (D.disk disk.old) ≡ settled_state (λ _. zero_sector)
        → Leaves (D.disk disk.old) (D.disk disk.new) (λ image. image 0 ≡ zero_sector) }
{
    calls_are_counted::<(), DeviceFault>();
    work_goes_on::<(), DeviceFault>();
    leaves_none::<AllAreBlank>();
    leaves_call::<AllAreBlank, (), DeviceFault>();
    leaves_weaker::<AllAreBlank, FirstIsBlank>();
    leaves_join::<AllAreBlank, FirstIsBlank, FirstIsBlank>();
    leaves_more::<FirstIsBlank>();
    leaves_now::<FirstIsBlank>();
    a_read_call_leaves_nothing_new::<(), DeviceFault>();
    a_write_call_leaves::<FirstIsBlank, (), DeviceFault>();
    a_sync_call_leaves_nothing_new::<(), DeviceFault>();
    let mut first = [0; 512];
    disk.read(0, &mut first)?;
    disk.write(1, octets)?;
    disk.sync()
}

/// The same over a disk in memory that stops, which is honest.
fn replace_in_memory<A: Allocator>(
    disk: &mut Fuse<MemDisk<A>>,
    octets: &[u8; 512],
) -> Result<(), DeviceFault>
    requires { 1 < (disk_of_fuse disk_of disk.old).sectors }
    ensures { now (disk_of_fuse disk_of disk.old) ≡ settled_state (λ _. zero_sector)
        → Leaves (disk_of_fuse disk_of disk.old) (disk_of_fuse disk_of disk.new)
        (λ image. image 0 ≡ zero_sector) }
{
    memory_is_honest::<A>();
    fuses_are_honest::<MemDisk<A>>();
    replace_second(disk, octets)
}

/// The replacement over a disk that stops after so many calls, and that disk.
fn replaced(rt: &impl Abort, disk: MemDisk, calls: u64) -> (bool, MemDisk) {
    let mut fuse = Fuse::new(disk, calls);
    assert!(rt; 1 < fuse.sectors());
    let is_done = replace_in_memory(&mut fuse, &full(1)).is_ok();
    (is_done, fuse.into_inner())
}

/// What is found after so many calls, where 9 is chosen for sector 1.
const AFTER: &[&[Step]] = &[
    &[
        Tear(1, 9, false),
        Crash,
        Find(0, (0, 0, false)),
        Find(1, (0, 0, false)),
    ],
    &[
        Tear(1, 9, false),
        Crash,
        Find(0, (0, 0, false)),
        Find(1, (0, 0, false)),
    ],
    &[
        Tear(1, 9, true),
        Crash,
        Find(0, (0, 0, false)),
        Find(1, (9, 9, false)),
    ],
    &[
        Tear(1, 9, false),
        Crash,
        Find(0, (0, 0, false)),
        Find(1, (1, 1, false)),
    ],
];

#[test]
fn a_replacement_leaves_the_other_sector(rt: HostRuntime) {
    for (calls, after) in AFTER.iter().enumerate() {
        let (is_done, mut disk) = replaced(&rt, blank(&rt, rt.alloc(), 2), calls as u64);
        assert!(rt; is_done == (calls == 3), "{calls} calls");
        play(&rt, &mut disk, after);
    }
}
