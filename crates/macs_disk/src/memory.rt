//! An in-memory disk, on which a power loss can be staged.

ghost use Rattle.std.specs.Prelude.{◌≡◌, ◌<◌, ℕ, false, length, IfOk, replicate, slice_index_or};
ghost use Rattle.std.specs.Prelude.{unwrap_or, None};
ghost use Rattle.macs_disk.specs.States.{zero_sector};
ghost use Rattle.macs_disk.specs.CallLists.{AreChosen, IsSoundMemory, choice_at, flag_at};
ghost use Rattle.macs_disk.specs.CallLists.{sectors_in};
ghost use Rattle.macs_disk.specs.declared.memory.MemFault.TheVariants.{Memory as OutOfMemory};

use crate::call_list::{Call, CallList};
use crate::disk::{DeviceFault, SectorDisk};
use std::alloc::{AllocError, Allocator, Global};

/// The maximum number of sectors of an in-memory disk.
const MOST_SECTORS: u64 = 65_536;

/// Why an in-memory disk cannot be made, in the order in which the causes are checked.
#[derive(Clone, Copy, Debug, PartialEq, Eq)]
pub enum MemFault {
    /// The number of sectors is not 1 to 65,536.
    Size,
    /// There is no memory for this many.
    Memory,
}

impl From<AllocError> for MemFault {
    ghost from_gives = { λ _ fault. fault ≡ OutOfMemory };

    fn from(_: AllocError) -> Self {
        MemFault::Memory
    }
}

/// An in-memory disk. It keeps a list of its writes and syncs since it was made or since its last
/// power loss, so that its state at each moment is known. A device call fails if the list cannot
/// grow, which reads do not need, and if the disk is worn.
#[derive(Drop)]
pub struct MemDisk<A: Allocator = Global> {
    calls: CallList<A>,
    first: Vec<[u8; 512], A>,
    seen: Vec<[u8; 512], A>,
    durable: Vec<[u8; 512], A>,
    pending: Vec<bool, A>,
    choices: Vec<Option<[u8; 512]>, A>,
    ghost kept: { IsSoundMemory first.items seen.items durable.items pending.items
        calls.entries.items calls.clock },
    ghost chosen: { AreChosen seen.items pending.items choices.items },
}

/// Makes every sector durable with the octets that reads give: nothing is pending, and no choice is
/// left. Only the pending sectors are copied, since all others are already durable with these
/// octets.
fn make_durable<A: Allocator>(
    seen: &[[u8; 512]],
    durable: &mut Vec<[u8; 512], A>,
    pending: &mut Vec<bool, A>,
    choices: &mut Vec<Option<[u8; 512]>, A>,
)
    requires durable { length durable.old.items ≡ length seen.now }
    requires flags { length pending.old.items ≡ length seen.now }
    requires choices { length choices.old.items ≡ length seen.now }
    requires clean { (i : ℕ) → flag_at pending.old.items i ≡ false
        → sectors_in seen.now i ≡ sectors_in durable.old.items i }
    requires unchosen { (i : ℕ) → flag_at pending.old.items i ≡ false
        → choice_at choices.old.items i ≡ None }
    ensures durable { durable.new.items ≡ seen.now }
    ensures flags { length pending.new.items ≡ length pending.old.items }
    ensures clear { (i : ℕ) → flag_at pending.new.items i ≡ false }
    ensures choices { length choices.new.items ≡ length choices.old.items }
    ensures none { (i : ℕ) → choice_at choices.new.items i ≡ None }
{
    for i in 0..seen.len() {
        if pending[i] {
            durable[i] = seen[i];
            pending[i] = false;
            choices[i] = None;
        }
    }
}

/// Replaces each sector that has a choice by it.
fn choose<A: Allocator>(sectors: &mut Vec<[u8; 512], A>, choices: &[Option<[u8; 512]>])
    requires { length choices.now ≡ length sectors.old.items }
    ensures length { length sectors.new.items ≡ length sectors.old.items }
    ensures chosen { (i : ℕ) → i < length sectors.old.items
        → sectors_in sectors.new.items i
        ≡ unwrap_or (choice_at choices.now i) (sectors_in sectors.old.items i) }
{
    for (i, choice) in choices.iter().enumerate() {
        if let Some(sector) = choice {
            sectors[i] = *sector;
        }
    }
}

/// `count` sectors of zeros.
fn zeros<A: Allocator>(alloc: A, count: usize) -> Result<Vec<[u8; 512], A>, AllocError>
    ensures { IfOk result (λ sectors. sectors.items ≡ replicate count zero_sector) }
{
    let mut sectors = Vec::new(alloc);
    for _i in 0..count {
        sectors.push([0; 512])?;
    }
    Ok(sectors)
}

/// No choice, for `count` sectors.
fn nones<A: Allocator>(alloc: A, count: usize) -> Result<Vec<Option<[u8; 512]>, A>, AllocError>
    ensures { IfOk result (λ choices. choices.items ≡ replicate count None) }
{
    let mut choices = Vec::new(alloc);
    for _i in 0..count {
        choices.push(None)?;
    }
    Ok(choices)
}

impl<A: Allocator> SectorDisk for MemDisk<A> {
    ghost use Rattle.std.specs.Prelude.{◌≡◌, ◌<◌, ◌↔◌, IsErr, OnErr, OnOk, true};
    ghost use Rattle.macs_disk.specs.Disk.{IsDeviceCall, IsHonest, Reads, Syncs, Writes, now};
    ghost use Rattle.macs_disk.specs.Evidence.{full-clock, kept-sound};
    ghost use Rattle.macs_disk.specs.MemDisks.{disk_of, memory_of};

    ghost disk = { disk_of };

    ghost sound = { λ m honest. kept-sound _ _ _ _ _ _ m.kept };

    ghost wear = { λ m. full-clock m.calls.clock };

    fn sectors(&self) -> u64 {
        self.seen.len() as u64
    }

    fn read(&mut self, at: u64, into: &mut [u8; 512]) -> Result<(), DeviceFault>
        requires { at < (disk_of self.old).sectors }
        ensures call { IsDeviceCall (disk_of self.old) (disk_of self.new) result }
        ensures effect { IsHonest (disk_of self.new)
            → Reads (now (disk_of self.old)) (now (disk_of self.new)) at into.new result }
        ensures chosen { (memory_of self.new).chosen ≡ (memory_of self.old).chosen }
        ensures err { IsErr result ↔ ((disk_of self.old).worn ≡ true) }
    {
        self.calls.pass()?;
        *into = self.seen[at as usize];
        Ok(())
    }

    #[tactic(auto, using(crate::proofs::ListedCalls::failed_call))]
    fn write(&mut self, at: u64, from: &[u8; 512]) -> Result<(), DeviceFault>
        requires { at < (disk_of self.old).sectors }
        ensures call { IsDeviceCall (disk_of self.old) (disk_of self.new) result }
        ensures effect { IsHonest (disk_of self.new)
            → Writes (now (disk_of self.old)) (now (disk_of self.new)) at from.now result }
        ensures chosen { (memory_of self.new).chosen ≡ (memory_of self.old).chosen }
        ensures err { OnErr result (now (disk_of self.new) ≡ now (disk_of self.old)) }
    {
        self.calls.keep(Call::Write(at, *from))?;
        self.seen[at as usize] = *from;
        self.pending[at as usize] = true;
        Ok(())
    }

    #[tactic(auto, using(crate::proofs::ListedCalls::failed_call))]
    fn sync(&mut self) -> Result<(), DeviceFault>
        ensures call { IsDeviceCall (disk_of self.old) (disk_of self.new) result }
        ensures effect { IsHonest (disk_of self.new)
            → Syncs (now (disk_of self.old)) (now (disk_of self.new)) result }
        ensures chosen { OnOk result ((i : ℕ) → (memory_of self.new).chosen i ≡ None) }
        ensures err { OnErr result ((memory_of self.new).chosen ≡ (memory_of self.old).chosen) }
    {
        self.calls.keep(Call::Sync)?;
        make_durable(
            &self.seen,
            &mut self.durable,
            &mut self.pending,
            &mut self.choices,
        );
        Ok(())
    }
}

impl<A: Allocator + Copy> MemDisk<A> {
    ghost use Rattle.std.specs.Prelude.{◌≡◌, ◌<◌, ◌⊎◌, ◌↔◌, IfOk, IsErrOf};
    ghost use Rattle.macs_disk.specs.Memory.{blank_memory};
    ghost use Rattle.macs_disk.specs.MemDisks.{memory_of};

    /// A disk of `sectors` sectors of 512 zeros, all of them durable.
    pub fn new(alloc: A, sectors: u64) -> Result<MemDisk<A>, MemFault>
        ensures size { IsErrOf result MemFault.Size ↔ ((sectors ≡ 0) ⊎ (65536 < sectors)) }
        ensures ok { IfOk result (λ it. memory_of it ≡ blank_memory sectors) }
    {
        if sectors == 0 || sectors > MOST_SECTORS {
            return Err(MemFault::Size);
        }
        let count = sectors as usize;
        Ok(MemDisk {
            calls: CallList::new(alloc),
            first: zeros(alloc, count)?,
            seen: zeros(alloc, count)?,
            durable: zeros(alloc, count)?,
            pending: vec![in alloc; false; count]?,
            choices: nones(alloc, count)?,
        })
    }
}

impl<A: Allocator> MemDisk<A> {
    ghost use Rattle.std.specs.Prelude.{◌≡◌, ◌<◌, true, false};
    ghost use Rattle.macs_disk.specs.Disk.{MayLeave, now};
    ghost use Rattle.macs_disk.specs.Memory.{memory_after_loss, memory_with_choice};
    ghost use Rattle.macs_disk.specs.MemDisks.{disk_of, memory_of};

    /// Whether sector `at` is pending: written, with neither a successful sync nor a power loss
    /// since. This is not a device call.
    pub fn is_pending(&self, at: u64) -> bool
        requires { at < (disk_of self.now).sectors }
        ensures { result ≡ (now (disk_of self.now)).pending at }
    {
        self.pending[at as usize]
    }

    /// Reads the durable octets of sector `at`. This is not a device call.
    pub fn durable(&self, at: u64, into: &mut [u8; 512])
        requires { at < (disk_of self.now).sectors }
        ensures { into.new ≡ (now (disk_of self.now)).durable at }
    {
        *into = self.durable[at as usize];
    }

    /// Chooses what a power loss leaves in sector `at`. Returns false, and changes nothing, unless
    /// that sector is pending. The choice holds, over later writes to the sector too, until a sync
    /// succeeds or a power loss comes.
    pub fn tear(&mut self, at: u64, octets: &[u8; 512]) -> bool
        requires { at < (disk_of self.old).sectors }
        ensures result { result ≡ (now (disk_of self.old)).pending at }
        ensures chosen { result ≡ true
            → memory_of self.new ≡ memory_with_choice (memory_of self.old) at octets.now }
        ensures same { result ≡ false → memory_of self.new ≡ memory_of self.old }
    {
        if !self.pending[at as usize] {
            return false;
        }
        self.choices[at as usize] = Some(*octets);
        true
    }

    /// Stages a power loss: in each pending sector the chosen octets, or the last write if none
    /// were chosen, become durable, and reads give them from then on. Nothing is pending then. This
    /// is not a device call: clock and failures are unchanged. The list is emptied, so that the
    /// disk's state at each moment up to the clock is now this one.
    pub fn crash(&mut self)
        ensures crashed { memory_of self.new ≡ memory_after_loss (memory_of self.old) }
        ensures image { MayLeave (disk_of self.old) (now (disk_of self.new)).seen }
    {
        choose(&mut self.seen, &self.choices);
        make_durable(
            &self.seen,
            &mut self.durable,
            &mut self.pending,
            &mut self.choices,
        );
        self.first.copy_from_slice(&self.seen);
        self.calls.clear();
    }
}
