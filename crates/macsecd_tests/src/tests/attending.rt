//! Relays with a control socket: what is said to clients that ask side by side, to one whose
//! command meets a disk that fails, and to the parent of the program. No frame comes to these.

use super::stand_in::Broken;
use super::stand_in::Broken::{Nothing, Sync, Write};
use super::stories::Step::{Attend, IsMissing, Run, Zeros};
use super::stories::Told::{Counters, Text};
use super::stories::{Attended, Client, Step, Told, play};
use crate::Outcome;
use crate::Outcome::{Disk, Done};

/// The line of a relay to which no frame came.
const NOTHING: Outcome = Done("sent 0 delivered 0 dropped 0 faults 0\n");

const OK: Told = Text("ok\nend 0\n");

/// What two clients send, of whose lines the relay takes one of the first and one of the second by
/// turns. Each waits for its answers; then a command of the first is under way when the second says
/// `stop`.
const FIRST: &str = "\
show
counters
set-replay on 1
set-replay on 2
set-replay on 3
set-replay on 4
tx-use 0
set-replay on 5
set-replay on 6
set-replay on 7
set-replay on 8
set-replay on 9
";

const SECOND: &str = "\
counters
show
rx-add 0200000000020001
rx-drop 0200000000020001
rx-add 0200000000020001
rx-drop 0200000000020001
rx-add 0200000000020001
rx-drop 0200000000020001
rx-add 0200000000020001
rx-drop 0200000000020001
rx-add 0200000000020001
rx-drop 0200000000020001
";

/// The report of a new endpoint, as the answer to a client.
const NEW: Told = Text(
    "\
sci 12153524c0895e81
blocks tx 4 rx 4
validate strict
replay on window 0
sci-mode explicit
encoding none
spent tx 0 rx 0
end 0
",
);

const FIRST_TOLD: &[Told] = &[
    NEW,
    Counters,
    OK,
    OK,
    OK,
    OK,
    Text("refused SlotEmpty\nend 3\n"),
    OK,
    OK,
    OK,
    OK,
    OK,
    Text("end 4\n"),
];

const SECOND_TOLD: &[Told] = &[
    Counters,
    NEW,
    OK,
    OK,
    OK,
    OK,
    OK,
    OK,
    OK,
    OK,
    OK,
    OK,
    Text("end 0\n"),
];

/// What the next program finds: the last window that was acknowledged, and no channel.
const FOUND: &str = "\
sci 12153524c0895e81
blocks tx 4 rx 4
validate strict
replay on window 9
sci-mode explicit
encoding none
spent tx 0 rx 0
";

const TWO: &[Step] = &[
    Run(
        &["format", "story-two/disk", "12153524c0895e81", "4", "4"],
        Done("formatted\n"),
    ),
    Attend(&Attended {
        disk: "story-two/disk",
        broken: Nothing,
        pace: ["--turns", "2000"],
        control: "story-two/control",
        clients: &[
            Client {
                lines: FIRST,
                later: "set-validate strict\n",
                told: FIRST_TOLD,
            },
            Client {
                lines: SECOND,
                later: "stop\n",
                told: SECOND_TOLD,
            },
        ],
        parent: "",
        seen: "",
        outcome: NOTHING,
    }),
    Run(&["show", "story-two/disk"], Done(FOUND)),
];

#[test]
fn two_clients_are_answered_side_by_side(rt: HostRuntime) {
    play(&rt, rt.alloc(), "story-two", TWO);
}

/// Empties the disk file, which a format needs.
const EMPTY: Step = Zeros("story-waits/disk", 0);

const FORMAT: Step = Run(
    &["format", "story-waits/disk", "12153524c0895e81", "4", "4"],
    Done("formatted\n"),
);

/// A client that waits for its command, beside a relay whose disk fails.
const WAITED: Attended = Attended {
    disk: "story-waits/disk",
    broken: Nothing,
    pace: ["--turns", "200"],
    control: "story-waits/control",
    clients: &[Client {
        lines: "set-replay on 9\n",
        later: "",
        told: &[Text("end 4\n")],
    }],
    parent: "",
    seen: "",
    outcome: Disk("macsecd: disk\n"),
};

const SHOW: &[&str] = &["show", "story-waits/disk"];

/// What is shown where the command is not found.
const NOT_FOUND: &str = "\
sci 12153524c0895e81
blocks tx 4 rx 4
validate strict
replay on window 0
sci-mode explicit
encoding none
spent tx 0 rx 0
";

/// An opening writes 33 times and syncs once. The command writes its body and syncs it, then opens
/// its gate and syncs that: a body counts once its gate is open.
const FAILS: &[Step] = &[
    EMPTY,
    FORMAT,
    Attend(&Attended {
        broken: Write(34),
        ..WAITED
    }),
    Run(SHOW, Done(NOT_FOUND)),
    EMPTY,
    FORMAT,
    Attend(&Attended {
        broken: Sync(2),
        ..WAITED
    }),
    Run(SHOW, Done(NOT_FOUND)),
    EMPTY,
    FORMAT,
    Attend(&Attended {
        broken: Write(35),
        ..WAITED
    }),
    Run(SHOW, Done(NOT_FOUND)),
    EMPTY,
    FORMAT,
    Attend(&Attended {
        broken: Sync(3),
        ..WAITED
    }),
    Run(SHOW, Done(FOUND)),
    EMPTY,
    FORMAT,
    Attend(&Attended {
        broken: Write(36),
        clients: &[Client {
            lines: "set-replay on 9\n",
            later: "",
            told: &[OK],
        }],
        outcome: NOTHING,
        ..WAITED
    }),
    Run(SHOW, Done(FOUND)),
];

#[test]
fn no_client_is_told_of_a_command_that_is_lost(rt: HostRuntime) {
    play(&rt, rt.alloc(), "story-waits", FAILS);
}

/// The moments of a run: both wires are bound before the socket has its name; the parent is told
/// once everything is bound, and before the first turn; and again after the last one, before the
/// name is removed.
const SEEN: &str = "\
wire
bound named
turn READY=1 named
turn named
removal STOPPING=1 named
end
";

const FAILED: &str = "\
wire
bound named
turn READY=1 named
removal STOPPING=1 named
end
";

const PARENT: &[Step] = &[
    Run(
        &["format", "story-parent/disk", "12153524c0895e81", "4", "4"],
        Done("formatted\n"),
    ),
    Attend(&Attended {
        disk: "story-parent/disk",
        broken: Nothing,
        pace: ["--turns", "5"],
        control: "story-parent/control",
        clients: &[],
        parent: "story-parent/notify",
        seen: SEEN,
        outcome: NOTHING,
    }),
    IsMissing("story-parent/control"),
    // The same of a relay whose disk fails: its first turn is quiet, in the second it takes a
    // command.
    Attend(&Attended {
        disk: "story-parent/disk",
        broken: Write(34),
        pace: ["--turns", "200"],
        control: "story-parent/control",
        clients: &[Client {
            lines: "set-replay on 9\n",
            later: "",
            told: &[Text("end 4\n")],
        }],
        parent: "story-parent/other",
        seen: FAILED,
        outcome: Disk("macsecd: disk\n"),
    }),
    IsMissing("story-parent/control"),
];

#[test]
fn a_parent_is_told_when_a_relay_begins_and_ends(rt: HostRuntime) {
    play(&rt, rt.alloc(), "story-parent", PARENT);
}

/// The commands of an endpoint that sends, whose first frame would have the number 5: with blocks of
/// 4 packet numbers 1 to 4 are reserved.
const SENDER: &str = "\
[[command]]
do = \"tx-install\"
an = 0
key = \"5a1c7e93d04b26f8a97d31e4026fb85c\"
start = 1
confidential = true
offset = 0

[[command]]
do = \"tx-use\"
an = 0
";

/// A relay that is stopped once it has reserved the next block, and has kept a command.
const STOPPED: Attended = Attended {
    disk: "story-rests/disk",
    broken: Nothing,
    pace: ["--wait", "10"],
    control: "story-rests/control",
    clients: &[Client {
        lines: "set-replay on 9\n",
        later: "stop\n",
        told: &[OK, Text("end 0\n")],
    }],
    parent: "",
    seen: "",
    outcome: NOTHING,
};

/// As after the commands.
const NOT_SKIPPED: &str = "\
sci 12153524c0895e81
blocks tx 4 rx 4
validate strict
replay on window 9
sci-mode explicit
encoding 0
tx 0 confidential offset 0 next 5
spent tx 1 rx 0
";

/// The block that the relay reserved is skipped.
const SKIPPED: &str = "\
sci 12153524c0895e81
blocks tx 4 rx 4
validate strict
replay on window 9
sci-mode explicit
encoding 0
tx 0 confidential offset 0 next 9
spent tx 1 rx 0
";

/// A planned end skips nothing, one after a number of turns does. An opening writes 33 times, the
/// reservation and the command twice each: the 38th write is the first of the rest.
const RESTS: &[Step] = &[
    Run(
        &["format", "story-rests/disk", "12153524c0895e81", "4", "4"],
        Done("formatted\n"),
    ),
    Step::Text("story-rests/sender.toml", SENDER),
    Run(
        &["apply", "story-rests/disk", "story-rests/sender.toml"],
        Done("1 ok\n2 ok\n"),
    ),
    Attend(&STOPPED),
    Run(&["show", "story-rests/disk"], Done(NOT_SKIPPED)),
    Attend(&Attended {
        broken: Write(38),
        outcome: Disk("macsecd: disk\n"),
        ..STOPPED
    }),
    Run(&["show", "story-rests/disk"], Done(SKIPPED)),
    Attend(&STOPPED),
    Run(&["show", "story-rests/disk"], Done(SKIPPED)),
];

#[test]
fn a_planned_end_skips_no_packet_number(rt: HostRuntime) {
    play(&rt, rt.alloc(), "story-rests", RESTS);
}
