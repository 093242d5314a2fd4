//! What is done with a disk that nothing has.

use crate::disk::{StoryDisk, act_with_disk, identity_of};
use crate::text::{Answer, Line};
use macs_config::Identity;
use macs_endpoint::format;
use std::alloc::Global;

fn format_disk(disk: &mut StoryDisk, identity: &Identity, answer: &mut Answer) {
    answer.done(format(disk, identity));
}

/// Does an act, and answers it; `None` where there is no such act.
fn act(disk: &mut StoryDisk, line: Line<'_>, alloc: Global, answer: &mut Answer) -> Option<()> {
    let mut words = line.words();
    if words.take() != "format" {
        return act_with_disk(disk, line.words(), alloc, answer);
    }
    format_disk(disk, &identity_of(&mut words)?, answer);
    Some(())
}

/// Does an act with a disk that nothing has, and answers it.
pub fn play(disk: &mut StoryDisk, line: Line<'_>, alloc: Global, answer: &mut Answer) {
    if act(disk, line, alloc, answer).is_none() {
        answer.clear();
        answer.word("no such act");
    }
}
