//! A keeper, whose client is played.

use super::{Message, Played, greeted, octets, took};
use macs_control::Taken;
use macs_control::keeping::{KeepEnd, keep_for};
use macs_disk::{Fuse, MemDisk};
use std::alloc::Global;
use std::cell::RefCell;
use std::process::Abort;

/// A client's requests, how many octets it sends after them, what follows, how many messages it
/// takes, how many calls of its four sectors are done; and what ends that, and the answers.
#[derive(Clone, Copy)]
struct Kept {
    asked: &'static [Message],
    rest: usize,
    last: Taken,
    room: usize,
    done: u64,
    end: KeepEnd,
    answers: &'static [Message],
}

/// All is well.
const WELL: Kept = Kept {
    asked: &[
        (2, Some(1), 7),
        (3, Some(0), 0),
        (1, Some(1), 0),
        (1, Some(3), 0),
    ],
    rest: 0,
    last: Taken::Ended,
    room: 9,
    done: 9,
    end: KeepEnd::Ended,
    answers: &[(2, None, 0), (2, None, 0), (1, None, 7), (1, None, 0)],
};

/// The first two of these.
const TWO: &[Message] = &[(2, None, 0), (2, None, 0)];

const KEPT: &[Kept] = &[
    WELL,
    Kept { rest: 520, ..WELL },
    Kept {
        last: Taken::Gone,
        end: KeepEnd::Gone,
        ..WELL
    },
    Kept {
        last: Taken::Nothing,
        end: KeepEnd::Gone,
        ..WELL
    },
    Kept {
        rest: 521,
        end: KeepEnd::Malformed,
        ..WELL
    },
    Kept {
        asked: &[(2, Some(1), 7), (3, Some(0), 0), (1, Some(4), 0)],
        end: KeepEnd::Outside,
        answers: TWO,
        ..WELL
    },
    Kept {
        room: 3,
        end: KeepEnd::Unanswered,
        answers: TWO,
        ..WELL
    },
    Kept {
        asked: &[(3, Some(1), 0)],
        end: KeepEnd::Malformed,
        answers: &[],
        ..WELL
    },
    Kept {
        done: 2,
        answers: &[(2, None, 0), (2, None, 0), (3, None, 0), (3, None, 0)],
        ..WELL
    },
    Kept {
        room: 0,
        end: KeepEnd::Ungreeted,
        ..WELL
    },
];

/// What a client sends.
fn coming(rt: &impl Abort, alloc: Global, kept: &Kept) -> Vec<u8> {
    let mut coming = octets(rt, alloc, kept.asked);
    for _ in 0..kept.rest {
        coming.push(0).expect(rt, "memory");
    }
    coming
}

/// What a client gets: nothing if it takes no greeting.
fn wanted(rt: &impl Abort, alloc: Global, kept: &Kept) -> Vec<u8> {
    if kept.room == 0 {
        Vec::new(alloc)
    } else {
        greeted(rt, alloc, kept.answers)
    }
}

/// A disk of four sectors, of which so many calls are done.
fn disk(rt: &impl Abort, alloc: Global, done: u64) -> Fuse<MemDisk> {
    Fuse::new(MemDisk::new(alloc, 4).ok().expect(rt, "a disk"), done)
}

/// What ends the work for a client.
fn end(rt: &impl Abort, alloc: Global, done: u64, client: &mut Played) -> KeepEnd {
    let mut disk = disk(rt, alloc, done);
    keep_for(&mut disk, client)
}

/// Keeps a disk for a client that sends at most `most` octets at a time.
fn keep(rt: &impl Abort, alloc: Global, kept: &Kept, most: usize) {
    let coming = coming(rt, alloc, kept);
    let taken = RefCell::new(Vec::new(alloc));
    let mut client = Played {
        coming: coming.as_slice(),
        most,
        last: kept.last,
        room: kept.room,
        taken: &taken,
    };
    assert!(rt; end(rt, alloc, kept.done, &mut client) == kept.end);
    assert!(rt; took(&taken, wanted(rt, alloc, kept).as_slice()));
}

#[test]
fn a_keeper_makes_each_call_and_answers_it(rt: HostRuntime) {
    for kept in KEPT {
        keep(&rt, rt.alloc(), kept, 1_000);
        keep(&rt, rt.alloc(), kept, 100);
    }
}
