//! A disk whose keeper is played.

use super::{Message, Played, greeted, octets, took};
use macs_control::Taken;
use macs_control::keeping::KeptDisk;
use macs_disk::{DeviceCall, DeviceFault, SectorDisk};
use std::alloc::Global;
use std::cell::RefCell;
use std::process::Abort;

/// Which call a client makes: it writes 7 to sector 1, syncs, or reads sector 2 or 3.
#[derive(Clone, Copy)]
enum Call {
    Write,
    Sync,
    Read,
    Other,
}

/// How it makes a call.
#[derive(Clone, Copy)]
enum Way {
    /// It waits for the answer.
    Waits,
    /// It looks once for the answer.
    Tries,
}

/// What it finds. The last octet of the sector that it may read into is 9 before.
#[derive(Clone, Copy, PartialEq, Eq)]
enum Found {
    Nothing,
    Done(u8),
    Failed,
}

/// What a keeper answers, what follows, and how many messages it takes; what its client does and
/// finds, turn after turn; and what it has asked for in the end.
#[derive(Clone, Copy)]
struct Told {
    answers: &'static [Message],
    last: Taken,
    room: usize,
    turns: &'static [(Call, Way, Found)],
    asked: &'static [Message],
}

const DONE: Message = (2, None, 0);

const SECTOR: Message = (1, None, 5);

const WRITE: Message = (2, Some(1), 7);

const SYNC: Message = (3, Some(0), 0);

const READ: Message = (1, Some(2), 0);

/// All calls are done, and it waits for each.
const WELL: Told = Told {
    answers: &[DONE, DONE, SECTOR],
    last: Taken::Gone,
    room: 9,
    turns: &[
        (Call::Write, Way::Waits, Found::Done(9)),
        (Call::Sync, Way::Waits, Found::Done(9)),
        (Call::Read, Way::Waits, Found::Done(5)),
    ],
    asked: &[WRITE, SYNC, READ],
};

/// An answer comes in two parts: the first look finds nothing.
const DONE_CALLS: &[Told] = &[
    WELL,
    Told {
        turns: &[
            (Call::Write, Way::Tries, Found::Nothing),
            (Call::Write, Way::Tries, Found::Done(9)),
            (Call::Sync, Way::Tries, Found::Nothing),
            (Call::Sync, Way::Tries, Found::Done(9)),
            (Call::Read, Way::Tries, Found::Nothing),
            (Call::Read, Way::Tries, Found::Done(5)),
        ],
        ..WELL
    },
    Told {
        turns: &[
            (Call::Write, Way::Tries, Found::Nothing),
            (Call::Write, Way::Waits, Found::Done(9)),
            (Call::Sync, Way::Tries, Found::Nothing),
            (Call::Sync, Way::Waits, Found::Done(9)),
            (Call::Read, Way::Tries, Found::Nothing),
            (Call::Read, Way::Waits, Found::Done(5)),
        ],
        ..WELL
    },
];

/// Another call comes while one waits for its answer.
const OTHER_CALLS: &[Told] = &[
    Told {
        turns: &[
            (Call::Sync, Way::Tries, Found::Nothing),
            (Call::Write, Way::Tries, Found::Failed),
            (Call::Sync, Way::Tries, Found::Failed),
        ],
        asked: &[SYNC],
        ..WELL
    },
    Told {
        turns: &[
            (Call::Sync, Way::Tries, Found::Nothing),
            (Call::Write, Way::Waits, Found::Failed),
            (Call::Sync, Way::Waits, Found::Failed),
        ],
        asked: &[SYNC],
        ..WELL
    },
    Told {
        answers: &[SECTOR, SECTOR],
        turns: &[
            (Call::Read, Way::Tries, Found::Nothing),
            (Call::Other, Way::Tries, Found::Failed),
            (Call::Read, Way::Waits, Found::Failed),
        ],
        asked: &[READ],
        ..WELL
    },
];

/// The second call fails, and it waits for each.
const FAILED: Told = Told {
    answers: &[DONE, (3, None, 0), SECTOR],
    turns: &[
        (Call::Write, Way::Waits, Found::Done(9)),
        (Call::Sync, Way::Waits, Found::Failed),
        (Call::Read, Way::Waits, Found::Failed),
        (Call::Sync, Way::Tries, Found::Failed),
    ],
    asked: &[WRITE, SYNC],
    ..WELL
};

const FAILED_CALLS: &[Told] = &[
    FAILED,
    Told {
        answers: &[DONE, (4, None, 0), SECTOR],
        ..FAILED
    },
    Told {
        answers: &[DONE, (2, None, 1), SECTOR],
        ..FAILED
    },
    Told {
        answers: &[DONE, SECTOR, SECTOR],
        ..FAILED
    },
    Told {
        answers: &[DONE],
        ..FAILED
    },
    Told {
        answers: &[DONE],
        last: Taken::Ended,
        ..FAILED
    },
    Told {
        answers: &[DONE],
        last: Taken::Nothing,
        ..FAILED
    },
    Told {
        room: 1,
        asked: &[WRITE],
        ..FAILED
    },
];

/// The same where it looks once at a time.
const FAILED_TRIES: &[Told] = &[
    Told {
        answers: &[(3, None, 0), DONE],
        turns: &[
            (Call::Sync, Way::Tries, Found::Nothing),
            (Call::Sync, Way::Tries, Found::Failed),
            (Call::Sync, Way::Tries, Found::Failed),
        ],
        asked: &[SYNC],
        ..WELL
    },
    Told {
        answers: &[DONE],
        turns: &[
            (Call::Read, Way::Tries, Found::Nothing),
            (Call::Read, Way::Tries, Found::Failed),
            (Call::Write, Way::Tries, Found::Failed),
        ],
        asked: &[READ],
        ..WELL
    },
    Told {
        answers: &[],
        last: Taken::Ended,
        turns: &[
            (Call::Write, Way::Tries, Found::Failed),
            (Call::Sync, Way::Tries, Found::Failed),
        ],
        asked: &[WRITE],
        ..WELL
    },
    Told {
        answers: &[],
        last: Taken::Nothing,
        turns: &[
            (Call::Sync, Way::Tries, Found::Nothing),
            (Call::Sync, Way::Tries, Found::Nothing),
            (Call::Sync, Way::Tries, Found::Nothing),
            (Call::Sync, Way::Waits, Found::Failed),
        ],
        asked: &[SYNC],
        ..WELL
    },
    Told {
        room: 0,
        turns: &[
            (Call::Sync, Way::Tries, Found::Failed),
            (Call::Sync, Way::Tries, Found::Failed),
            (Call::Write, Way::Waits, Found::Failed),
        ],
        asked: &[],
        ..WELL
    },
];

fn device_call(call: Call) -> DeviceCall {
    match call {
        Call::Write => DeviceCall::Write(1, [7; 512]),
        Call::Sync => DeviceCall::Sync,
        Call::Read => DeviceCall::Read(2),
        Call::Other => DeviceCall::Read(3),
    }
}

fn outcome(answer: Option<Result<(), DeviceFault>>, octet: u8) -> Found {
    match answer {
        None => Found::Nothing,
        Some(Ok(())) => Found::Done(octet),
        Some(Err(_)) => Found::Failed,
    }
}

/// Makes one call.
fn make(rt: &impl Abort, disk: &mut KeptDisk<Played>, call: Call, way: Way) -> Found {
    let call = device_call(call);
    assert!(rt; call.is_within(disk.sectors()));
    let mut read = [9; 512];
    let answer = match way {
        Way::Waits => Some(call.make(disk, &mut read)),
        Way::Tries => disk.try_make(&call, &mut read),
    };
    outcome(answer, read[511])
}

/// Takes the turns, and compares what is found.
fn take_turns(rt: &impl Abort, disk: &mut KeptDisk<Played>, turns: &[(Call, Way, Found)]) {
    for i in 0..turns.len() {
        let (call, way, wanted) = turns[i];
        let found = make(rt, disk, call, way);
        let has_failed = disk.is_stopped();
        assert!(rt;
            found == wanted && has_failed == (wanted == Found::Failed),
            "turn {i}"
        );
    }
}

/// Opens the disk, takes the turns, and compares what was asked for.
fn play(rt: &impl Abort, alloc: Global, told: &Told) {
    let coming = greeted(rt, alloc, told.answers);
    let taken = RefCell::new(Vec::new(alloc));
    let keeper = Played {
        coming: coming.as_slice(),
        most: 300,
        last: told.last,
        room: told.room,
        taken: &taken,
    };
    let mut disk = KeptDisk::open(keeper).expect(rt, "a greeting");
    take_turns(rt, &mut disk, told.turns);
    assert!(rt; took(&taken, octets(rt, alloc, told.asked).as_slice()));
}

/// Plays each of them.
fn play_all(rt: &impl Abort, alloc: Global, all: &[Told]) {
    for told in all {
        play(rt, alloc, told);
    }
}

#[test]
fn a_client_asks_once_and_looks_until_the_answer_is_there(rt: HostRuntime) {
    play_all(&rt, rt.alloc(), DONE_CALLS);
}

#[test]
fn another_call_than_the_one_under_way_fails(rt: HostRuntime) {
    play_all(&rt, rt.alloc(), OTHER_CALLS);
}

#[test]
fn a_client_stops_where_a_call_fails(rt: HostRuntime) {
    play_all(&rt, rt.alloc(), FAILED_CALLS);
    play_all(&rt, rt.alloc(), FAILED_TRIES);
}

/// Opens the disk of a keeper whose greeting is these octets.
fn opens(alloc: Global, coming: &[u8]) -> bool {
    let taken = RefCell::new(Vec::new(alloc));
    let keeper = Played {
        coming,
        most: 1_000,
        last: Taken::Ended,
        room: 9,
        taken: &taken,
    };
    KeptDisk::open(keeper).is_some()
}

#[test]
fn a_keeper_greets_first(rt: HostRuntime) {
    assert!(rt; opens(rt.alloc(), b"MSECKEEP\0\0\0\0\0\0\0\x04"));
    assert!(rt; !opens(rt.alloc(), b"MSECKEEP\0\0\0\0\0\0\0"));
    assert!(rt; !opens(rt.alloc(), b"MSECKEPT\0\0\0\0\0\0\0\x04"));
    assert!(rt; !opens(rt.alloc(), b""));
}
