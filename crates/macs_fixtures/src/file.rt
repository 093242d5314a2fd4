//! A file in memory that behaves.

ghost use Rattle.std.specs.Prelude.{◌≡◌, ◌<◌, ◌≤◌, ◌*◌, ℕ, false, true, length, IfOk};
ghost use Rattle.macs_fixtures.specs.Blocks.{EndsAt, IsKept};

use crate::blocks::{
    DeviceBlock, Left, PAGE, clear, copy_blocks, cut, dirty_from, dirty_to, fetch, keep_first,
    mark, spoil, store,
};
use crate::plan::{FileCall, Plan};
use macs_disk::DiskFile;
use std::alloc::{AllocError, Allocator, Global};
use std::io;
use std::io::ErrorKind;

/// An open file in memory that behaves as one of a kernel's does, of no more octets than it has
/// room for.
///
/// The kernel keeps the file's pages of 4,096 octets in a cache, which reads and writes go to. A
/// sync writes the pages that are dirty to the device, and has the device make them durable. Where
/// it fails the kernel takes the pages to be clean all the same: reads go on giving them, and no
/// later sync writes them. The failure is reported once. Pages that are clean may be dropped at any
/// moment, and are read from the device when they are next asked for. After a sync that failed no
/// block that was to be written is taken to be durable any more.
///
/// A test chooses the call that fails, when memory is short and clean pages are dropped (`press`),
/// when the program ends (`close`), when another file is made in its place (`renew`), and what a
/// power loss leaves (`crash`).
#[derive(Drop)]
pub struct MemFile<A: Allocator = Global> {
    /// What reads give.
    cache: Vec<u8, A>,
    /// What the device gives, which it may hold in a cache of its own.
    device: Vec<u8, A>,
    /// What the device has durably.
    durable: Vec<u8, A>,
    /// By block of the device: the next sync writes it. While the file is sure, all else in a page
    /// is what the device has.
    dirty: Vec<bool, A>,
    /// By block of the device: it was written since the last sync that succeeded before any failed.
    pending: Vec<bool, A>,
    block: usize,
    size: u64,
    durable_size: u64,
    /// Nothing is pending.
    is_clean: bool,
    /// No sync has failed.
    is_sure: bool,
    /// It was claimed since it was opened.
    is_claimed: bool,
    /// How many octets a call moves at most.
    most: usize,
    plan: Plan,
    /// How many blocks a sync that fails has written.
    reached: usize,
    ghost kept: { IsKept block cache.items device.items durable.items dirty.items pending.items
        is_clean is_sure },
    ghost fits: { size ≤ length cache.items },
    ghost grown: { durable_size ≤ size },
    ghost ends: { EndsAt size cache.items },
    ghost device_ends: { EndsAt size device.items },
    ghost durable_ends: { EndsAt durable_size durable.items },
}

impl<A: Allocator + Copy> MemFile<A> {
    ghost use Rattle.macs_disk.specs.Files.{Behaves, IsSure};
    ghost use Rattle.macs_fixtures.specs.MemFiles.{file_of, octets_in};

    /// An empty file with room for so many pages, on a device of such blocks. A call moves at most
    /// so many octets.
    pub fn new(
        alloc: A,
        pages: u16,
        block: DeviceBlock,
        most: usize,
    ) -> Result<MemFile<A>, AllocError>
        ensures behaves { IfOk result (λ it. Behaves (file_of it)) }
        ensures block { IfOk result (λ it. (file_of it).block ≡ octets_in block) }
        ensures size { IfOk result (λ it. (file_of it).size ≡ 0) }
        ensures sure { IfOk result (λ it. IsSure (file_of it)) }
    {
        let room = pages as usize * PAGE;
        let block = block.octets();
        let blocks = room / block;
        Ok(MemFile {
            cache: vec![in alloc; 0; room]?,
            device: vec![in alloc; 0; room]?,
            durable: vec![in alloc; 0; room]?,
            dirty: vec![in alloc; false; blocks]?,
            pending: vec![in alloc; false; blocks]?,
            block,
            size: 0,
            durable_size: 0,
            is_clean: true,
            is_sure: true,
            is_claimed: false,
            most,
            plan: Plan::none(),
            reached: 0,
        })
    }
}

impl<A: Allocator> MemFile<A> {
    ghost use Rattle.std.specs.Prelude.{◌≡◌, ◌<◌, ◌≤◌, ◌+◌, false, true, length, nat_lt, take};
    ghost use Rattle.macs_disk.specs.Files.{HasNothingNew, IsFileImage, IsSure, file_after_write};
    ghost use Rattle.macs_disk.specs.Files.{file_in_doubt, file_synced};
    ghost use Rattle.macs_fixtures.specs.Blocks.{EndsAt, octet_at, octet_left, size_left};
    ghost use Rattle.macs_fixtures.specs.MemFiles.{file_after_loss, file_closed, file_just_made};
    ghost use Rattle.macs_fixtures.specs.MemFiles.{file_of};
    ghost use Rattle.macs_fixtures.specs.MemFiles.{file_pressed, written_in};
    ghost use Rattle.macs_fixtures.specs.MemFiles.{blocks_reached_by, durable_size_of};
    ghost use Rattle.macs_fixtures.specs.MemFiles.{failing_call_of, failing_number_of};

    /// Has the so manieth call of this kind fail, from now on, once. With 0 none does.
    pub fn fail(&mut self, call: FileCall, nth: u64)
        ensures same { file_of self.new ≡ file_of self.old }
        ensures call { failing_call_of self.new ≡ call }
        ensures number { failing_number_of self.new ≡ nth }
    {
        self.plan = Plan { call, nth };
    }

    /// Has so many of the blocks that a failed sync was to write reach the device.
    pub fn reach(&mut self, blocks: usize)
        ensures same { file_of self.new ≡ file_of self.old }
        ensures reached { blocks_reached_by self.new ≡ blocks }
    {
        self.reached = blocks;
    }

    /// Whether the call that was to fail has not come yet.
    pub fn is_due(&self) -> bool
        ensures { result ≡ nat_lt 0 (failing_number_of self.now) }
    {
        self.plan.nth > 0
    }

    // Puts octets from the front of these into the cache. They are dirty, and so is the rest of
    // their pages where that may not be what the device has.
    fn put(&mut self, at: usize, from: &[u8], count: usize)
        requires some { 0 < count }
        requires given { count ≤ length from.now }
        requires within { at + count ≤ length self.old.cache.items }
        ensures sure { IsSure (file_of self.old)
            → file_of self.new ≡ file_after_write (file_of self.old) at (take count from.now) }
        ensures doubt { self.new.is_sure ≡ self.old.is_sure }
    {
        let end = at + count;
        store(&mut self.cache, at, from, count);
        let front = dirty_from(at, self.is_sure);
        let behind = dirty_to(end, self.cache.len(), self.is_sure);
        mark(&mut self.dirty, self.block, front, behind);
        mark(&mut self.pending, self.block, front, behind);
        self.size = self.size.max(end as u64);
        self.is_clean = false;
    }

    // Writes what is dirty to the device, which makes it durable. Of a file in doubt what was
    // pending stays so.
    fn flush(&mut self)
        ensures sure { IsSure (file_of self.old)
            → file_of self.new ≡ file_synced (file_of self.old) (octet_at self.new.durable.items) }
        ensures shown { IsSure (file_of self.old) → (p : ℕ)
            → octet_at self.new.durable.items p ≡ octet_at self.old.cache.items p }
        ensures doubt { self.new.is_sure ≡ self.old.is_sure }
    {
        copy_blocks(&mut self.device, &self.cache, &self.dirty, true, self.block);
        copy_blocks(
            &mut self.durable,
            &self.device,
            &self.pending,
            true,
            self.block,
        );
        clear(&mut self.dirty);
        self.durable_size = self.size;
        if self.is_sure {
            clear(&mut self.pending);
            self.is_clean = true;
        }
    }

    // Takes what is dirty to be written, though no more than some of it reached the device.
    fn forget(&mut self)
        ensures { file_of self.new ≡ file_in_doubt (file_of self.old) }
    {
        keep_first(&mut self.dirty, self.reached);
        copy_blocks(&mut self.device, &self.cache, &self.dirty, true, self.block);
        clear(&mut self.dirty);
        self.is_sure = false;
    }

    /// Memory is short: the kernel drops all clean pages.
    pub fn press(&mut self)
        ensures same { file_of self.new ≡ file_pressed (file_of self.old) (file_of self.new).seen }
        ensures dropped { (p : ℕ) → (file_of self.new).seen p ≡ written_in self.old p }
        ensures sure { IsSure (file_of self.old) → file_of self.new ≡ file_of self.old }
    {
        copy_blocks(
            &mut self.cache,
            &self.device,
            &self.dirty,
            false,
            self.block,
        );
    }

    /// The program ends, and the file is opened again: the kernel keeps the pages as they are.
    pub fn close(&mut self)
        ensures { file_of self.new ≡ file_closed (file_of self.old) }
    {
        self.is_sure = false;
        self.is_claimed = false;
    }

    /// The power is lost, and after the next boot the file is opened again. Each block that was
    /// written since the last sync that succeeded has what is said here, and so has the file's
    /// length: where the octets that made it longer are lost, that is lost too.
    pub fn crash(&mut self, left: Left)
        ensures lost { file_of self.new
            ≡ file_after_loss (file_of self.old) (file_of self.new).size
            (file_of self.new).durable }
        ensures image { IsFileImage (file_of self.old) (file_of self.new).durable }
        ensures nothing_new { HasNothingNew (file_of self.old) (file_of self.new) }
        ensures size { (file_of self.old).is_size_durable ≡ true
            → (file_of self.new).size ≡ (file_of self.old).size }
        ensures left { (p : ℕ) → p < (file_of self.new).size → (file_of self.new).durable p
            ≡ octet_left left (file_of self.old) (written_in self.old) p }
        ensures sure { IsSure (file_of self.old)
            → (p : ℕ) → p < (file_of self.new).size → (file_of self.new).durable p
            ≡ octet_left left (file_of self.old) (file_of self.old).seen p }
        ensures length { (file_of self.new).size
            ≡ size_left left (file_of self.old).size (durable_size_of self.old) }
    {
        let size = left.choose(self.size, self.durable_size);
        copy_blocks(&mut self.device, &self.cache, &self.dirty, true, self.block);
        spoil(
            &mut self.durable,
            &self.device,
            &self.pending,
            self.block,
            left,
        );
        cut(&mut self.durable, size);
        self.durable_size = size;
        self.boot(size);
    }

    /// The file is gone, and another one is made in its place: empty, durably so, and not claimed.
    /// The call that is to fail, and what a failed sync reaches, stay as they were chosen.
    pub fn renew(&mut self)
        ensures { file_of self.new ≡ file_just_made (file_of self.old).block }
    {
        cut(&mut self.cache, 0);
        cut(&mut self.device, 0);
        cut(&mut self.durable, 0);
        clear(&mut self.dirty);
        clear(&mut self.pending);
        self.size = 0;
        self.durable_size = 0;
        self.is_clean = true;
        self.is_sure = true;
        self.is_claimed = false;
    }

    // Shows what is durable, and nothing else.
    fn boot(&mut self, size: u64)
        requires fits { size ≤ length self.old.cache.items }
        requires ends { EndsAt size self.old.durable.items }
        ensures { file_of self.new
            ≡ file_after_loss (file_of self.old) size (file_of self.old).durable }
    {
        self.cache.copy_from_slice(&self.durable);
        self.device.copy_from_slice(&self.durable);
        clear(&mut self.dirty);
        clear(&mut self.pending);
        self.size = size;
        self.durable_size = size;
        self.is_clean = true;
        self.is_sure = true;
        self.is_claimed = false;
    }
}

impl<A: Allocator> DiskFile for MemFile<A> {
    ghost use Rattle.std.specs.IoError.{error_kind};
    ghost use Rattle.std.specs.Prelude.{◌≡◌, ◌≤◌, ◌+◌, ◌⊎◌, None, length, IfOk};
    ghost use Rattle.macs_disk.specs.FileFailures.{Reads, NotesFailure};
    ghost use Rattle.macs_disk.specs.Files.{Behaves, ReadsFile};
    ghost use Rattle.macs_fixtures.specs.Evidence.{memory-sound};
    ghost use Rattle.macs_fixtures.specs.MemFiles.{file_of};

    ghost file = { file_of };

    ghost sound = { λ it _. memory-sound it.block it.size it.durable_size it.cache.items
        it.device.items it.durable.items it.dirty.items it.pending.items it.is_clean it.is_sure
        it.is_claimed it.kept it.ends };

    fn claim(&mut self) -> io::Result<()> {
        self.plan.pass(FileCall::Claim)?;
        self.is_claimed = true;
        Ok(())
    }

    fn size(&mut self) -> io::Result<u64> {
        self.plan.pass(FileCall::Size)?;
        Ok(self.size)
    }

    // It reads nothing after the file's end.
    fn read_at(&mut self, at: u64, into: &mut [u8]) -> io::Result<usize>
        ensures bound { IfOk result (λ count. count ≤ length into.new) }
        ensures steady { (file_of self.new).behaves ≡ (file_of self.old).behaves }
        ensures effect { Behaves (file_of self.old)
            → ReadsFile (file_of self.old) (file_of self.new) at into.new result }
        ensures failure { NotesFailure None None Reads error_kind result }
        ensures within { IfOk result
            (λ count. (count ≡ 0) ⊎ (at + count ≤ (file_of self.old).size)) }
    {
        self.plan.pass(FileCall::Read)?;
        if at >= self.size {
            return Ok(0);
        }
        let left = (self.size - at) as usize;
        let count = into.len().min(self.most).min(left);
        fetch(&self.cache, at as usize, into, count);
        Ok(count)
    }

    fn write_at(&mut self, at: u64, from: &[u8]) -> io::Result<usize> {
        self.plan.pass(FileCall::Write)?;
        let count = from.len().min(self.most);
        let room = self.cache.len() as u64;
        if at > room || count as u64 > room - at {
            return Err(io::Error::from(ErrorKind::StorageFull));
        }
        if count > 0 {
            self.put(at as usize, from, count);
        }
        Ok(count)
    }

    fn sync(&mut self) -> io::Result<()> {
        let answer = self.plan.pass(FileCall::Sync);
        match answer {
            Ok(()) => self.flush(),
            Err(_) => self.forget(),
        }
        answer
    }
}
