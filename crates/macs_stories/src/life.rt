//! What has the disk from an opening to a power loss or an orderly end: an endpoint, a store or a
//! journal.

use crate::disk::{JournalLife, StoryDisk, act_with_store, power_loss};
use crate::stage::Stage;
use crate::text::{Answer, Line, Words};
use crate::tools::{self, Tools};
use macs_endpoint::Endpoint;
use macs_store::Store;
use std::alloc::Global;

/// What has the disk.
pub trait Life: Drop {
    /// Does the act that the words say. Whether there is such an act.
    fn act(&mut self, words: Words<'_>, tools: &mut Tools, answer: &mut Answer) -> bool;

    /// The disk, as it is.
    fn into_disk(self) -> StoryDisk;
}

impl Life for Endpoint<StoryDisk> {
    fn act(&mut self, words: Words<'_>, tools: &mut Tools, answer: &mut Answer) -> bool {
        tools::act(self, words, tools, answer)
    }

    fn into_disk(self) -> StoryDisk {
        Endpoint::into_disk(self)
    }
}

impl Life for Store<StoryDisk> {
    fn act(&mut self, words: Words<'_>, _tools: &mut Tools, answer: &mut Answer) -> bool {
        act_with_store(self, words, answer)
    }

    fn into_disk(self) -> StoryDisk {
        Store::into_disk(self)
    }
}

impl Life for JournalLife {
    fn act(&mut self, words: Words<'_>, _tools: &mut Tools, answer: &mut Answer) -> bool {
        JournalLife::act(self, words, answer)
    }

    fn into_disk(self) -> StoryDisk {
        JournalLife::into_disk(self)
    }
}

/// Whether an act ends a life: `close`, or `power-loss` with what it leaves.
fn is_end(line: Line<'_>) -> bool {
    let mut words = line.words();
    words.rest() == "close" || words.take() == "power-loss"
}

/// The acts of a life up to the one that ends it; `None` where the story ends.
fn play<'a, L: Life>(rt: &impl Print, life: &mut L, stage: &mut Stage<'a>) -> Option<Line<'a>> {
    for _ in 0..u64::MAX {
        let line = stage.take(rt)?;
        if is_end(line) {
            return Some(line);
        }
        if !life.act(line.words(), &mut stage.tools, &mut stage.answer) {
            stage.answer.clear();
            stage.answer.word("no such act");
        }
        stage.judge(rt, line);
    }
    None
}

/// What the end of a life leaves on the disk.
fn end_life(disk: &mut StoryDisk, line: Line<'_>, alloc: Global, answer: &mut Answer) {
    let mut words = line.words();
    if words.take() == "power-loss" {
        power_loss(disk, words, alloc, answer);
    } else {
        answer.word("ok");
    }
}

/// Plays a life that has begun, up to its end. The disk as it is left.
pub fn live<L: Life>(rt: &impl Print, life: L, stage: &mut Stage<'_>) -> StoryDisk {
    let mut life = life;
    let last = play(rt, &mut life, stage);
    let mut disk = life.into_disk();
    if let Some(line) = last {
        end_life(&mut disk, line, stage.tools.alloc, &mut stage.answer);
        stage.judge(rt, line);
    }
    disk
}
