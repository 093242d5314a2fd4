//! The verdict on each frame of a capture, as a line. The protected frames are those of the
//! captures' story.

use super::captures::{CAPTURE_FAULT, RECEIVER};
use super::stories::Step::{Closing, Hex, Holds, Run, Text};
use super::stories::{Step, play};
use crate::Outcome;

/// A good frame, one without a SecTAG, the first once more, one of which the last octet was
/// altered, and one of 13 octets.
const MIXED: &str =
    "d4c3b2a1020004000000000000000000000004000100000000f15365000000003600000036000000d609b1f056637a0d46df998d88e52c0a0000000512153524c0895e8137f1a95160312fcf3e0ed2dce4357b7a4fdaf25f25642f5d36bb00f15365000000001600000016000000d609b1f056637a0d46df998d0800101112131415161700f15365000000003600000036000000d609b1f056637a0d46df998d88e52c0a0000000512153524c0895e8137f1a95160312fcf3e0ed2dce4357b7a4fdaf25f25642f5d36bb01f15365e80300005c0000005c000000d609b1f056637a0d46df998d88e52c000000000612153524c0895e81389f1c545914028d06fd03ad61b860bdc7febe61d2a1a2bb95ef1e5bb359c2b2618b3b682648a7475a4610d997f243b4e46d1348ef1269db33fd333626bf098100f15365000000000d0000000d000000d609b1f056637a0d46df998d88";

/// What is delivered of them.
const DELIVERED: &str =
    "d4c3b2a1020004000000000000000000000004000100000000f15365000000001600000016000000d609b1f056637a0d46df998d08001011121314151617";

/// The good frame, and a part of another record.
const CUT: &str =
    "d4c3b2a1020004000000000000000000000004000100000000f15365000000003600000036000000d609b1f056637a0d46df998d88e52c0a0000000512153524c0895e8137f1a95160312fcf3e0ed2dce4357b7a4fdaf25f25642f5d36bb00f15365000000001600000016000000d609b1f0";

const DISK: &str = "story-each/disk";

const OUT: &str = "story-each/out";

const EACH: &[&str] = &["validate", DISK, "story-each/mixed", OUT, "--each"];

const JUDGED: &[Step] = &[
    Run(
        &["format", DISK, "ffffffffffff0001", "4", "4"],
        Outcome::Done("formatted\n"),
    ),
    Text("story-each/file.toml", RECEIVER),
    Run(
        &["apply", DISK, "story-each/file.toml"],
        Outcome::Done("1 ok\n2 ok\n"),
    ),
    Hex("story-each/mixed", MIXED),
    Run(
        EACH,
        Outcome::Done("1 ok\n2 no-tag\n3 late\n4 not-valid\n5 runt\ndelivered 1 discarded 4\n"),
    ),
    Holds(OUT, DELIVERED),
    // The next opening begins after the numbers that were reserved.
    Run(
        &["validate", "--all", "--each", DISK, "story-each/mixed", OUT],
        Outcome::Refused("1 late\n2 no-tag\n3 late\n4 late\n5 runt\ndelivered 0 discarded 5\n"),
    ),
    Hex("story-each/cut", CUT),
    Run(
        &["validate", "--each", DISK, "story-each/cut", OUT],
        Outcome::FaultBehind("1 late\n", "macsecd: capture\n"),
    ),
    Hex("story-each/none", "00"),
    Run(
        &["validate", "--each", DISK, "story-each/none", OUT],
        CAPTURE_FAULT,
    ),
    Run(
        &["validate", "--each", DISK, "story-each/missing", OUT],
        CAPTURE_FAULT,
    ),
    Closing(0, 0, EACH),
    Closing(5, 4, EACH),
    Closing(5, 5, EACH),
];

#[test]
fn each_frame_is_judged(rt: HostRuntime) {
    play(&rt, rt.alloc(), "story-each", JUDGED);
}
