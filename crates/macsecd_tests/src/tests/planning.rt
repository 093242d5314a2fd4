//! What is planned of a link in one file. What is printed was worked out by hand, and Python's
//! `tomllib` reads it as the commands meant.

use super::stories::Step::{Closing, Filled, Hex, Keeping, Run, Text};
use super::stories::{Step, play};
use crate::{ONE_PAIR, Outcome};

/// The link of one pair of keys with a newer pair, of a long key and a short one.
const TWO_PAIRS: &str = "[left]\nsci = '0200000000010001'\n[right]\nsci = '0200000000020001'\n\
    [[key]]\nan = 0\nleft = '5a1c7e93d04b26f8a97d31e4026fb85c'\n\
    right = 'E07B49D6158C32AF6E90B7C4FD2A8113'\n\
    [[key]]\nan = 1\n\
    left = '000102030405060708090a0b0c0d0e0f101112131415161718191a1b1c1d1e1f'\n\
    right = 'ffeeddccbbaa99887766554433221100'\n";

/// The first keys of the left end: it sends under its own key, and receives under the other one.
const LEFT_FIRST: &str = "sci = \"0200000000010001\"\n\n\
    [[command]]\nan = 0\nconfidential = true\ndo = \"tx-install\"\n\
    key = \"5a1c7e93d04b26f8a97d31e4026fb85c\"\noffset = 0\nstart = 1\n\n\
    [[command]]\nan = 0\ndo = \"tx-use\"\n\n\
    [[command]]\ndo = \"rx-add\"\nsci = \"0200000000020001\"\n\n\
    [[command]]\nan = 0\ndo = \"rx-install\"\nkey = \"e07b49d6158c32af6e90b7c4fd2a8113\"\n\
    offset = 0\nsci = \"0200000000020001\"\nstart = 1\n";

/// Those of the right end.
const RIGHT_FIRST: &str = "sci = \"0200000000020001\"\n\n\
    [[command]]\nan = 0\nconfidential = true\ndo = \"tx-install\"\n\
    key = \"e07b49d6158c32af6e90b7c4fd2a8113\"\noffset = 0\nstart = 1\n\n\
    [[command]]\nan = 0\ndo = \"tx-use\"\n\n\
    [[command]]\ndo = \"rx-add\"\nsci = \"0200000000010001\"\n\n\
    [[command]]\nan = 0\ndo = \"rx-install\"\nkey = \"5a1c7e93d04b26f8a97d31e4026fb85c\"\n\
    offset = 0\nsci = \"0200000000010001\"\nstart = 1\n";

/// The stages of the newer pair at the left end.
const LEFT_RECEIVE: &str = "sci = \"0200000000010001\"\n\n\
    [[command]]\nan = 1\ndo = \"rx-install\"\n\
    key = \"ffeeddccbbaa99887766554433221100\"\n\
    offset = 0\nsci = \"0200000000020001\"\nstart = 1\n";

const LEFT_SEND: &str = "sci = \"0200000000010001\"\n\n\
    [[command]]\nan = 1\nconfidential = true\ndo = \"tx-install\"\n\
    key = \"000102030405060708090a0b0c0d0e0f101112131415161718191a1b1c1d1e1f\"\n\
    offset = 0\nstart = 1\n\n\
    [[command]]\nan = 1\ndo = \"tx-use\"\n";

const LEFT_REMOVE: &str = "sci = \"0200000000010001\"\n\n\
    [[command]]\nan = 0\ndo = \"tx-remove\"\n\n\
    [[command]]\nan = 0\ndo = \"rx-remove\"\nsci = \"0200000000020001\"\n";

/// And at the right end.
const RIGHT_RECEIVE: &str = "sci = \"0200000000020001\"\n\n\
    [[command]]\nan = 1\ndo = \"rx-install\"\n\
    key = \"000102030405060708090a0b0c0d0e0f101112131415161718191a1b1c1d1e1f\"\n\
    offset = 0\nsci = \"0200000000010001\"\nstart = 1\n";

const RIGHT_SEND: &str = "sci = \"0200000000020001\"\n\n\
    [[command]]\nan = 1\nconfidential = true\ndo = \"tx-install\"\n\
    key = \"ffeeddccbbaa99887766554433221100\"\noffset = 0\nstart = 1\n\n\
    [[command]]\nan = 1\ndo = \"tx-use\"\n";

const RIGHT_REMOVE: &str = "sci = \"0200000000020001\"\n\n\
    [[command]]\nan = 0\ndo = \"tx-remove\"\n\n\
    [[command]]\nan = 0\ndo = \"rx-remove\"\nsci = \"0200000000010001\"\n";

const PLANNED: &[Step] = &[
    Text("story-plan/one", ONE_PAIR),
    Keeping(
        &["story-plan/one"],
        &["plan", "story-plan/one", "left", "first"],
        Outcome::Done(LEFT_FIRST),
    ),
    Run(
        &["plan", "story-plan/one", "right", "first"],
        Outcome::Done(RIGHT_FIRST),
    ),
    Text("story-plan/two", TWO_PAIRS),
    Run(
        &["plan", "story-plan/two", "left", "receive"],
        Outcome::Done(LEFT_RECEIVE),
    ),
    Run(
        &["plan", "story-plan/two", "left", "send"],
        Outcome::Done(LEFT_SEND),
    ),
    Run(
        &["plan", "story-plan/two", "left", "remove"],
        Outcome::Done(LEFT_REMOVE),
    ),
    Run(
        &["plan", "story-plan/two", "right", "receive"],
        Outcome::Done(RIGHT_RECEIVE),
    ),
    Run(
        &["plan", "story-plan/two", "right", "send"],
        Outcome::Done(RIGHT_SEND),
    ),
    Run(
        &["plan", "story-plan/two", "right", "remove"],
        Outcome::Done(RIGHT_REMOVE),
    ),
    Closing(0, 0, &["plan", "story-plan/two", "left", "send"]),
];

#[test]
fn each_stage_is_planned_at_both_ends(rt: HostRuntime) {
    play(&rt, rt.alloc(), "story-plan", PLANNED);
}

/// An endpoint takes what is planned for it, stage by stage.
const TAKEN: &[Step] = &[
    Run(
        &[
            "format",
            "story-plan-taken/disk",
            "0200000000010001",
            "16",
            "16",
        ],
        Outcome::Done("formatted\n"),
    ),
    Text("story-plan-taken/first", LEFT_FIRST),
    Run(
        &["apply", "story-plan-taken/disk", "story-plan-taken/first"],
        Outcome::Done("1 ok\n2 ok\n3 ok\n4 ok\n"),
    ),
    Text("story-plan-taken/receive", LEFT_RECEIVE),
    Run(
        &["apply", "story-plan-taken/disk", "story-plan-taken/receive"],
        Outcome::Done("1 ok\n"),
    ),
    Text("story-plan-taken/send", LEFT_SEND),
    Run(
        &["apply", "story-plan-taken/disk", "story-plan-taken/send"],
        Outcome::Done("1 ok\n2 ok\n"),
    ),
    Text("story-plan-taken/remove", LEFT_REMOVE),
    Run(
        &["apply", "story-plan-taken/disk", "story-plan-taken/remove"],
        Outcome::Done("1 ok\n2 ok\n"),
    ),
];

#[test]
fn what_is_planned_is_taken(rt: HostRuntime) {
    play(&rt, rt.alloc(), "story-plan-taken", TAKEN);
}

/// Files of which nothing is read that could be planned.
const UNREAD: &[Step] = &[
    Run(
        &["plan", "story-plan-unread/missing", "left", "first"],
        Outcome::Fault("macsecd: link file: story-plan-unread/missing: no such file\n"),
    ),
    Run(
        &["plan", "story-plan-unread", "left", "first"],
        Outcome::Fault("macsecd: link file: story-plan-unread: a folder\n"),
    ),
    Hex("story-plan-unread/octets", "ff"),
    Run(
        &["plan", "story-plan-unread/octets", "left", "first"],
        Outcome::Fault("macsecd: link file: not UTF-8\n"),
    ),
    Filled("story-plan-unread/long", b' ', 1_048_576),
    Run(
        &["plan", "story-plan-unread/long", "left", "first"],
        Outcome::Fault("macsecd: link file: not [left], [right] and tables [[key]] alone\n"),
    ),
    Filled("story-plan-unread/long", b' ', 1_048_577),
    Run(
        &["plan", "story-plan-unread/long", "left", "first"],
        Outcome::Fault("macsecd: link file: more than 1048576 octets\n"),
    ),
];

#[test]
fn a_file_is_read_as_command_files_are(rt: HostRuntime) {
    play(&rt, rt.alloc(), "story-plan-unread", UNREAD);
}
