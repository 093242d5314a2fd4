//! The cipher (FIPS 197, 5.1) on groups of blocks.

ghost use Rattle.std.specs.Prelude.{◌≡◌, ◌<◌, ◌≤◌, ◌%◌, ℕ, List, length, map, slice_index};
ghost use Rattle.std.specs.List.{range_with_len};
ghost use Rattle.macs_aes.specs.Cipher.{encrypt, mix_columns, sub_bytes};
ghost use Rattle.macs_planes.specs.Across.{AreKeyPlanes, IsKeyPlanes, turned};
ghost use Rattle.macs_planes.specs.Counters.{numbered};
ghost use Rattle.macs_aes.specs.Blocks.{ArePlanes};
ghost use Rattle.macs_aes.specs.RoundKeys.{keyed};

use crate::across::Across;
use crate::key_planes::{KeyPlanes, ROUND_KEYS, fill, key_room};
use crate::places::LANES;
use macs_aes::{Block, Schedule};
use std::marker::Model;

/// Round number `round` of the cipher (FIPS 197, 5.1) on each block, with its key: the last is
/// without MixColumns. The rows are turned only after the last round, so that ShiftRows moves
/// nothing: the places of MixColumns and of the round key follow the rows. It is one function for
/// all kinds of round, so that SubBytes is in the code once and the compiler keeps the planes in
/// registers.
#[inline(always)]
fn take_round(blocks: &mut Across, key: &KeyPlanes, round: usize, rounds: usize)
    requires { ArePlanes LANES key.now }
    ensures inner { (k : List ℕ) → IsKeyPlanes LANES k key.now → round < rounds
        → map (turned (round % 4)) blocks.new
        ≡ keyed (turned (round % 4) k)
        (map mix_columns (map (turned (round % 4)) (map sub_bytes blocks.old))) }
    ensures last { (k : List ℕ) → IsKeyPlanes LANES k key.now → rounds ≤ round
        → blocks.new ≡ keyed k (map sub_bytes blocks.old) }
{
    blocks.sub_bytes();
    if round < rounds {
        blocks.mix_columns(round % 4);
    }
    blocks.add_round_key(key);
}

/// Each block across planes encrypted under the schedule's key, whose round keys are given. It is
/// in the code once, and takes the planes by value, so that the compiler keeps them in registers.
#[inline(never)]
fn encrypt_across(schedule: &Schedule, keys: &[KeyPlanes; ROUND_KEYS], start: Across) -> Across
    requires { AreKeyPlanes LANES schedule.now keys.now }
    ensures { result ≡ map (encrypt schedule.now) start }
{
    let rounds = schedule.rounds();
    let mut planes = start;
    planes.add_round_key(&keys[0]);
    for round in 1..rounds + 1 {
        take_round(&mut planes, &keys[round], round, rounds);
    }
    planes.shift_rows_twice();
    planes
}

/// Each block of a group encrypted under the schedule's key, whose round keys are given.
fn encrypt_group(schedule: &Schedule, keys: &[KeyPlanes; ROUND_KEYS], blocks: &mut [Block; LANES])
    requires { AreKeyPlanes LANES schedule.now keys.now }
    ensures { blocks.new ≡ map (encrypt schedule.now) blocks.old }
{
    encrypt_across(schedule, keys, Across::load(blocks)).store(blocks);
}

/// The blocks that equal the first, except for the number of each in the last octet, encrypted
/// under the schedule's key, whose round keys are given.
fn encrypt_numbered(
    schedule: &Schedule,
    keys: &[KeyPlanes; ROUND_KEYS],
    first: &Block,
    blocks: &mut [Block; LANES],
)
    requires keys { AreKeyPlanes LANES schedule.now keys.now }
    requires first { slice_index first.now 15 % LANES ≡ 0 }
    ensures { blocks.new
        ≡ map (encrypt schedule.now) (map (numbered first.now) (range_with_len 0 LANES)) }
{
    encrypt_across(schedule, keys, Across::numbered(first)).store(blocks);
}

/// Each block of whole groups encrypted under the schedule's key, whose round keys are given.
fn encrypt_groups(schedule: &Schedule, keys: &[KeyPlanes; ROUND_KEYS], blocks: &mut [Block])
    requires keys { AreKeyPlanes LANES schedule.now keys.now }
    requires whole { length blocks.old % LANES ≡ 0 }
    ensures { blocks.new ≡ map (encrypt schedule.now) blocks.old }
{
    if let Some((group, rest)) = blocks.split_first_chunk_mut::<LANES>() {
        encrypt_group(schedule, keys, group);
        encrypt_groups(schedule, keys, rest);
    }
}

/// The round keys of a schedule as planes take them, for several groups of blocks. In clauses they
/// are its key.
#[derive(Drop)]
pub struct GroupKeys<'a> {
    schedule: &'a Schedule,
    keys: &'a [KeyPlanes; ROUND_KEYS],
}

impl<'a> Model for GroupKeys<'a> {
    ghost use Rattle.std.specs.Prelude.{List, ℕ};
    ghost use Rattle.macs_planes.specs.Across.{AreKeyPlanes};
    ghost use Rattle.macs_planes.specs.declared.places.TheConstants.{LANES};

    ghost Value = { List ℕ };

    ghost view = { λ k. k.schedule.now };

    ghost invariant = { λ k. AreKeyPlanes LANES k.schedule.now k.keys.now };
}

impl<'a> GroupKeys<'a> {
    /// The round keys of a schedule, made in the caller's buffer.
    #[inline(always)]
    pub fn new(schedule: &'a Schedule, room: &'a mut [KeyPlanes; ROUND_KEYS]) -> Self
        ensures { result ≡ schedule.now }
    {
        fill(room, schedule);
        GroupKeys {
            schedule,
            keys: room,
        }
    }

    /// A group of blocks, each encrypted by AES under the key (FIPS 197, 5.1).
    #[inline(always)]
    pub fn encrypt_group(&self, blocks: &mut [Block; LANES])
        ensures { blocks.new ≡ map (encrypt self.now) blocks.old }
    {
        encrypt_group(self.schedule, self.keys, blocks);
    }

    /// The counter blocks of a group, encrypted by AES under the key (FIPS 197, 5.1): block n is
    /// the first with n added to its last octet. That octet is a multiple of the group's size, so
    /// nothing is carried.
    #[inline(always)]
    pub fn encrypt_numbered(&self, first: &Block, blocks: &mut [Block; LANES])
        requires { slice_index first.now 15 % LANES ≡ 0 }
        ensures { blocks.new
            ≡ map (encrypt self.now) (map (numbered first.now) (range_with_len 0 LANES)) }
    {
        encrypt_numbered(self.schedule, self.keys, first, blocks);
    }

    /// Sixteen blocks, each encrypted by AES under the key (FIPS 197, 5.1).
    pub fn encrypt16(&self, blocks: &mut [Block; 16])
        ensures { blocks.new ≡ map (encrypt self.now) blocks.old }
    {
        encrypt_groups(self.schedule, self.keys, blocks);
    }
}

/// Sixteen blocks, each encrypted by AES under the schedule's key (FIPS 197, 5.1).
pub fn encrypt16(schedule: &Schedule, blocks: &mut [Block; 16])
    ensures { blocks.new ≡ map (encrypt schedule.now) blocks.old }
{
    let mut room = key_room();
    GroupKeys::new(schedule, &mut room).encrypt16(blocks);
}
