//! Octets in memory, and flags of their blocks.

ghost use Rattle.std.specs.Prelude.{◌≡◌, ◌<◌, ◌≤◌, ◌+◌, ◌*◌, ◌/◌, ◌^◌, ◌||◌, ℕ, nat_lt, not, false};
ghost use Rattle.std.specs.Prelude.{true, length, take};
ghost use Rattle.macs_disk.specs.Files.{has_some, put_from, values_from};
ghost use Rattle.macs_fixtures.specs.Blocks.{EndsAt, are_octets, flag_in, is_in_first_half, left_of};
ghost use Rattle.macs_fixtures.specs.Blocks.{octet_at, size_left};
ghost use Rattle.macs_disk.specs.CallLists.{flag_at};

use std::alloc::Allocator;

/// How many octets the kernel keeps, drops and writes together.
pub(crate) const PAGE: usize = 4_096;

/// How many octets a device writes at a time: a power loss in a write may spoil a whole block.
#[derive(Clone, Copy, Debug, PartialEq, Eq)]
pub enum DeviceBlock {
    Octets512,
    Octets4096,
}

impl DeviceBlock {
    ghost use Rattle.macs_fixtures.specs.MemFiles.{octets_in};

    pub(crate) fn octets(self) -> usize
        ensures { result ≡ octets_in self }
    {
        match self {
            DeviceBlock::Octets512 => 512,
            DeviceBlock::Octets4096 => 4_096,
        }
    }
}

/// What a power loss leaves in each block that was written since the last sync that succeeded.
#[derive(Clone, Copy, Debug, PartialEq, Eq)]
pub enum Left {
    /// What was durable before.
    Durable,
    /// What was written.
    Written,
    /// What was written in its first half, and what was durable in its second.
    Half,
    /// Zeros.
    Zeros,
}

impl Left {
    /// The size that was written, or that which is durable.
    pub(crate) fn choose(self, written: u64, durable: u64) -> u64
        ensures { result ≡ size_left self written durable }
    {
        match self {
            Left::Durable | Left::Zeros => durable,
            Left::Written | Left::Half => written,
        }
    }
}

/// From where on octets are dirty that were written from `at` on: where the file is not sure, whole
/// pages are.
pub(crate) fn dirty_from(at: usize, is_sure: bool) -> usize
    ensures before { result ≤ at }
    ensures sure { is_sure ≡ true → result ≡ at }
{
    if is_sure {
        return at;
    }
    at - at % PAGE
}

/// Up to where octets are dirty that were written up to before `end`, in a file with room for so
/// many.
pub(crate) fn dirty_to(end: usize, room: usize, is_sure: bool) -> usize
    requires { end ≤ room }
    ensures within { result ≤ room }
    ensures behind { end ≤ result }
    ensures sure { is_sure ≡ true → result ≡ end }
{
    if is_sure {
        return end;
    }
    room - (room - end) / PAGE * PAGE
}

/// Puts octets in the place of others, from octet `at` on.
pub(crate) fn store<A: Allocator>(to: &mut Vec<u8, A>, at: usize, from: &[u8], count: usize)
    requires given { count ≤ length from.now }
    requires within { at + count ≤ length to.old.items }
    ensures length { length to.new.items ≡ length to.old.items }
    ensures stored { (p : ℕ)
        → octet_at to.new.items p ≡ put_from (octet_at to.old.items) at (take count from.now) p }
    ensures octets { are_octets to.old.items → are_octets to.new.items }
{
    for i in 0..count {
        to[at + i] = from[i];
    }
}

/// Reads octets from octet `at` on.
pub(crate) fn fetch(from: &[u8], at: usize, into: &mut [u8], count: usize)
    requires room { count ≤ length into.old }
    requires within { at + count ≤ length from.now }
    ensures length { length into.new ≡ length into.old }
    ensures fetched { take count into.new ≡ values_from (octet_at from.now) at count }
{
    for i in 0..count {
        into[i] = from[at + i];
    }
}

/// Copies the octets from `at` up to before `end`.
fn copy_part<A: Allocator>(to: &mut Vec<u8, A>, from: &[u8], at: usize, end: usize)
    requires ordered { at ≤ end }
    requires within { end ≤ length to.old.items }
    requires given { end ≤ length from.now }
    ensures length { length to.new.items ≡ length to.old.items }
    ensures copied { (p : ℕ) → at ≤ p → p < end → octet_at to.new.items p ≡ octet_at from.now p }
    ensures before { (p : ℕ) → p < at → octet_at to.new.items p ≡ octet_at to.old.items p }
    ensures behind { (p : ℕ) → end ≤ p → octet_at to.new.items p ≡ octet_at to.old.items p }
{
    for p in at..end {
        to[p] = from[p];
    }
}

/// Puts zeros from `at` up to before `end`.
fn clear_part<A: Allocator>(to: &mut Vec<u8, A>, at: usize, end: usize)
    requires ordered { at ≤ end }
    requires within { end ≤ length to.old.items }
    ensures length { length to.new.items ≡ length to.old.items }
    ensures cleared { (p : ℕ) → at ≤ p → p < end → octet_at to.new.items p ≡ 0 }
    ensures before { (p : ℕ) → p < at → octet_at to.new.items p ≡ octet_at to.old.items p }
    ensures behind { (p : ℕ) → end ≤ p → octet_at to.new.items p ≡ octet_at to.old.items p }
{
    for p in at..end {
        to[p] = 0;
    }
}

/// Puts zeros from octet `at` on.
pub(crate) fn cut<A: Allocator>(to: &mut Vec<u8, A>, at: u64)
    ensures length { length to.new.items ≡ length to.old.items }
    ensures cut { EndsAt at to.new.items }
    ensures before { (p : ℕ) → p < at → octet_at to.new.items p ≡ octet_at to.old.items p }
    ensures octets { are_octets to.old.items → are_octets to.new.items }
{
    let end = to.len();
    if at < end as u64 {
        clear_part(to, at as usize, end);
    }
}

/// Copies the blocks whose flag is `which`.
pub(crate) fn copy_blocks<A: Allocator>(
    to: &mut Vec<u8, A>,
    from: &[u8],
    flags: &[bool],
    which: bool,
    block: usize,
)
    requires some { 0 < block }
    requires blocks { block * length flags.now ≡ length to.old.items }
    requires alike { length from.now ≡ length to.old.items }
    ensures length { length to.new.items ≡ length to.old.items }
    ensures copied { (p : ℕ) → flag_in block flags.now p ≡ which
        → octet_at to.new.items p ≡ octet_at from.now p }
    ensures others { (p : ℕ) → flag_in block flags.now p ≡ not which
        → octet_at to.new.items p ≡ octet_at to.old.items p }
{
    for n in 0..flags.len() {
        if flags[n] == which {
            copy_part(to, from, n * block, n * block + block);
        }
    }
}

/// Leaves in one block what a power loss does.
fn spoil_block<A: Allocator>(
    durable: &mut Vec<u8, A>,
    written: &[u8],
    at: usize,
    block: usize,
    left: Left,
)
    requires within { at + block ≤ length durable.old.items }
    requires alike { length written.now ≡ length durable.old.items }
    ensures length { length durable.new.items ≡ length durable.old.items }
    ensures spoiled { (p : ℕ) → at ≤ p → p < at + block → octet_at durable.new.items p
        ≡ left_of left (nat_lt p (at + block / 2)) (octet_at durable.old.items p)
        (octet_at written.now p) }
    ensures before { (p : ℕ) → p < at
        → octet_at durable.new.items p ≡ octet_at durable.old.items p }
    ensures behind { (p : ℕ) → at + block ≤ p
        → octet_at durable.new.items p ≡ octet_at durable.old.items p }
    ensures octets { are_octets durable.old.items → are_octets written.now
        → are_octets durable.new.items }
{
    match left {
        Left::Durable => {}
        Left::Written => copy_part(durable, written, at, at + block),
        Left::Half => copy_part(durable, written, at, at + block / 2),
        Left::Zeros => clear_part(durable, at, at + block),
    }
}

/// Leaves in each block whose flag is up what a power loss does.
pub(crate) fn spoil<A: Allocator>(
    durable: &mut Vec<u8, A>,
    written: &[u8],
    pending: &[bool],
    block: usize,
    left: Left,
)
    requires some { 0 < block }
    requires blocks { block * length pending.now ≡ length durable.old.items }
    requires alike { length written.now ≡ length durable.old.items }
    ensures length { length durable.new.items ≡ length durable.old.items }
    ensures spoiled { (p : ℕ) → flag_in block pending.now p ≡ true → octet_at durable.new.items p
        ≡ left_of left (is_in_first_half block p) (octet_at durable.old.items p)
        (octet_at written.now p) }
    ensures kept { (p : ℕ) → flag_in block pending.now p ≡ false
        → octet_at durable.new.items p ≡ octet_at durable.old.items p }
    ensures octets { are_octets durable.old.items → are_octets written.now
        → are_octets durable.new.items }
{
    for n in 0..pending.len() {
        if pending[n] {
            spoil_block(durable, written, n * block, block, left);
        }
    }
}

/// Takes up the flags of the blocks that have one of the octets from `from` up to before `to`.
pub(crate) fn mark<A: Allocator>(flags: &mut Vec<bool, A>, block: usize, from: usize, to: usize)
    requires fits { block * length flags.old.items < 2 ^ 63 }
    requires within { to ≤ block * length flags.old.items }
    ensures length { length flags.new.items ≡ length flags.old.items }
    ensures marked { (n : ℕ)
        → flag_at flags.new.items n ≡ (has_some block from to n || flag_at flags.old.items n) }
{
    for n in 0..flags.len() {
        if n * block < to && from < n * block + block {
            flags[n] = true;
        }
    }
}

/// Takes down all flags after the first so many that are up.
pub(crate) fn keep_first<A: Allocator>(flags: &mut Vec<bool, A>, count: usize)
    ensures length { length flags.new.items ≡ length flags.old.items }
    ensures fewer { (n : ℕ) → flag_at flags.old.items n ≡ false
        → flag_at flags.new.items n ≡ false }
{
    let mut left = count;
    for n in 0..flags.len() {
        if flags[n] {
            if left == 0 {
                flags[n] = false;
            } else {
                left -= 1;
            }
        }
    }
}

/// Takes down all flags.
pub(crate) fn clear<A: Allocator>(flags: &mut Vec<bool, A>)
    ensures length { length flags.new.items ≡ length flags.old.items }
    ensures clear { (n : ℕ) → flag_at flags.new.items n ≡ false }
{
    for n in 0..flags.len() {
        flags[n] = false;
    }
}
