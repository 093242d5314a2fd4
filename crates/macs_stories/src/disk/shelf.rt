//! What is done with a disk that nothing has.

use crate::disk::device::StoryDisk;
use crate::disk::sectors::{
    are_zeros, contents_of, is_pending, lose_power, pending, tear, tell_sector, write,
};
use crate::text::{Answer, Words, whole};
use macs_disk::{MemDisk, MemFault, SectorDisk};
use std::alloc::Global;

/// A new disk in the place of another.
fn replace(disk: &mut StoryDisk, alloc: Global, sectors: u64) -> Result<(), MemFault> {
    let memory = MemDisk::new(alloc, sectors)?;
    disk.replace(memory, sectors);
    Ok(())
}

fn replace_disk(
    disk: &mut StoryDisk,
    words: &mut Words<'_>,
    alloc: Global,
    answer: &mut Answer,
) -> Option<()> {
    let sectors = words.number()?;
    answer.done(replace(disk, alloc, sectors));
    Some(())
}

/// A power loss, as its words say.
pub fn power_loss(disk: &mut StoryDisk, words: Words<'_>, alloc: Global, answer: &mut Answer) {
    if lose_power(&mut disk.disk, words, alloc) {
        answer.word("ok");
    } else {
        answer.word("no such contents");
    }
    disk.restore();
}

/// Writes contents to a sector, and makes them durable where they are put. `None` for no such
/// contents.
fn fill(
    disk: &mut StoryDisk,
    words: &mut Words<'_>,
    alloc: Global,
    durable: bool,
    answer: &mut Answer,
) -> Option<()> {
    let at = words.number()?;
    let sector = contents_of(&mut disk.disk, at, words, alloc)?;
    let mut told = write(&mut disk.disk, at, &sector);
    if durable && told.is_ok() {
        told = disk.disk.sync();
    }
    disk.restore();
    answer.done(told);
    Some(())
}

/// Chooses what a power loss leaves in a pending sector.
fn choose(
    disk: &mut StoryDisk,
    words: &mut Words<'_>,
    alloc: Global,
    answer: &mut Answer,
) -> Option<()> {
    let at = words.number()?;
    let sector = contents_of(&mut disk.disk, at, words, alloc)?;
    answer.could(tear(&mut disk.disk, at, &sector));
    Some(())
}

/// How many sectors are pending, or whether one is.
fn tell_pending(disk: &MemDisk, words: &mut Words<'_>, answer: &mut Answer) -> Option<()> {
    if words.is_empty() {
        answer.number(pending(disk));
    } else {
        answer.is(is_pending(disk, words.number()?));
    }
    Some(())
}

fn tell_zeros(disk: &mut MemDisk, words: &mut Words<'_>, answer: &mut Answer) -> Option<()> {
    let first = words.number()?;
    answer.is(are_zeros(disk, first, words.number()?));
    Some(())
}

fn tell_contents(disk: &mut MemDisk, words: &mut Words<'_>, answer: &mut Answer) -> Option<()> {
    tell_sector(disk, words.number()?, answer);
    Some(())
}

/// Reports what is on the disk.
fn look(disk: &mut MemDisk, words: Words<'_>, answer: &mut Answer) -> Option<()> {
    let mut words = words;
    let told = match words.take() {
        "sector" => tell_contents(disk, &mut words, answer),
        "pending" => tell_pending(disk, &mut words, answer),
        "zeros" => tell_zeros(disk, &mut words, answer),
        _ => None,
    };
    whole(told, &words)
}

fn sync(disk: &mut StoryDisk, answer: &mut Answer) -> Option<()> {
    answer.done(disk.disk.sync());
    Some(())
}

/// Writes sectors, or chooses what a power loss leaves in them.
fn touch(disk: &mut StoryDisk, words: Words<'_>, alloc: Global, answer: &mut Answer) -> Option<()> {
    let mut rest = words;
    match rest.take() {
        "put" => fill(disk, &mut rest, alloc, true, answer),
        "write" => fill(disk, &mut rest, alloc, false, answer),
        "tear" => choose(disk, &mut rest, alloc, answer),
        "sync" => sync(disk, answer),
        _ => look(&mut disk.disk, words, answer),
    }
}

/// Does the act with a disk that the words say, and answers it; `None` where there is no such act.
pub fn act_with_disk(
    disk: &mut StoryDisk,
    words: Words<'_>,
    alloc: Global,
    answer: &mut Answer,
) -> Option<()> {
    let mut rest = words;
    match rest.take() {
        "disk" => replace_disk(disk, &mut rest, alloc, answer),
        "power-loss" => {
            power_loss(disk, rest, alloc, answer);
            Some(())
        }
        _ => touch(disk, words, alloc, answer),
    }
}
