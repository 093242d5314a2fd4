//! Keepers of a disk file: to most come two clients at once, of which it serves the first.

use super::stand_in::Broken;
use super::stories::Step::{Claimed, HasOctets, Keep, Run, Text, Zeros};
use super::stories::{Kept, Step, play};
use crate::Outcome::{Disk, Done, Fault};
use std::test::Fail;
use std::time::{Duration, Instant};

/// The moments of a run: the disk file is opened, and the socket has its name, before the parent is
/// notified. Once a client has come the name is removed, then the other client is refused, and then
/// the first call of the disk is made.
const SEEN: &str = "\
call
bound named
removal READY=1 named
call refused
end refused
";

/// The same where no call reaches the file.
const IDLE: &str = "\
call
bound named
removal READY=1 named
end refused
";

/// A keeper of a disk of two sectors, which one call is asked of: the second sector is read.
const READ: Kept = Kept {
    disk: "story-keeps/disk",
    broken: Broken::Nothing,
    socket: "story-keeps/keeper",
    clients: 2,
    sectors: 2,
    requests: &[(1, 1, 0)],
    answers: &[(1, 0)],
    parent: "story-keeps/notify",
    seen: SEEN,
    outcome: Done(""),
};

/// What the next keeper reads is what was written.
const KEPT: &[Step] = &[
    Zeros("story-keeps/disk", 1_024),
    Keep(&READ),
    Keep(&Kept {
        requests: &[(1, 0, 0), (2, 1, 97), (1, 1, 0), (3, 0, 0)],
        answers: &[(1, 0), (2, 0), (1, 97), (2, 0)],
        parent: "story-keeps/second",
        ..READ
    }),
    Keep(&Kept {
        answers: &[(1, 97)],
        parent: "story-keeps/third",
        ..READ
    }),
    // Nothing is asked.
    Keep(&Kept {
        requests: &[],
        answers: &[],
        parent: "story-keeps/fourth",
        seen: IDLE,
        ..READ
    }),
];

#[test]
fn one_client_is_served(rt: HostRuntime) {
    play(&rt, rt.alloc(), "story-keeps", KEPT);
}

/// What is no request, and one for a sector that is not there, end the keeper: no later call is
/// made.
const STRANGE: &[Step] = &[
    Zeros("story-strange/disk", 1_024),
    Keep(&Kept {
        disk: "story-strange/disk",
        socket: "story-strange/keeper",
        requests: &[(1, 0, 0), (1, 0, 1), (2, 1, 97)],
        answers: &[(1, 0)],
        parent: "story-strange/notify",
        outcome: Fault("macsecd: control\n"),
        ..READ
    }),
    Keep(&Kept {
        disk: "story-strange/disk",
        socket: "story-strange/keeper",
        requests: &[(3, 0, 0), (1, 2, 0), (2, 1, 97)],
        answers: &[(2, 0)],
        parent: "story-strange/second",
        seen: IDLE,
        outcome: Fault("macsecd: control\n"),
        ..READ
    }),
    Keep(&Kept {
        disk: "story-strange/disk",
        socket: "story-strange/keeper",
        parent: "story-strange/third",
        ..READ
    }),
];

#[test]
fn other_requests_end_a_keeper(rt: HostRuntime) {
    play(&rt, rt.alloc(), "story-strange", STRANGE);
}

/// A call that fails is answered, and so is each later one: the client decides. An opening syncs
/// once.
const FAILING: &[Step] = &[
    Zeros("story-faults/disk", 1_024),
    Keep(&Kept {
        disk: "story-faults/disk",
        broken: Broken::Sync(2),
        socket: "story-faults/keeper",
        requests: &[(2, 1, 97), (3, 0, 0), (1, 1, 0), (3, 0, 0)],
        answers: &[(2, 0), (3, 0), (3, 0), (3, 0)],
        parent: "story-faults/notify",
        ..READ
    }),
];

#[test]
fn a_call_that_fails_ends_no_keeper(rt: HostRuntime) {
    play(&rt, rt.alloc(), "story-faults", FAILING);
}

/// A keeper to which nobody comes: its listener waits for 0.3 s.
const NOBODY: &[Step] = &[
    Zeros("story-nobody/disk", 1_024),
    Keep(&Kept {
        disk: "story-nobody/disk",
        socket: "story-nobody/keeper",
        clients: 0,
        parent: "story-nobody/notify",
        seen: "bound named\nremoval READY=1 named\nend\n",
        outcome: Fault("macsecd: control\n"),
        ..READ
    }),
];

#[test]
fn a_keeper_waits_for_a_client(rt: HostRuntime) -> Result<(), Fail> {
    let begun = Instant::now(&rt)?;
    play(&rt, rt.alloc(), "story-nobody", NOBODY);
    assert!(rt; begun.elapsed(&rt)? >= Duration::from_millis(300));
    Ok(())
}

const WORDS: &[&str] = &["keep", "story-names/disk", "story-names/keeper"];

/// The disk file is looked at first, then the name of the socket.
const REFUSED: &[Step] = &[
    Run(WORDS, Disk("macsecd: disk file\n")),
    Zeros("story-names/disk", 1_000),
    Run(WORDS, Disk("macsecd: disk length\n")),
    Zeros("story-names/disk", 1_024),
    Text("story-names/keeper", "no socket"),
    Claimed("story-names/disk", WORDS, Disk("macsecd: disk file\n")),
    Run(WORDS, Fault("macsecd: control\n")),
    HasOctets("story-names/keeper", 9),
    Run(
        &["keep", "story-names/disk", "story-names/none/keeper"],
        Fault("macsecd: control\n"),
    ),
];

#[test]
fn names_are_refused(rt: HostRuntime) {
    play(&rt, rt.alloc(), "story-names", REFUSED);
}
