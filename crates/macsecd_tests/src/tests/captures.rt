//! Captures through an endpoint. The protected frames come from outside: they were made by Python's
//! `cryptography` (AESGCM), under packet numbers 5, 6 and 7.

use super::stories::Step::{Hex, Holds, IsMissing, Run, Text};
use super::stories::{Step, play};
use crate::Outcome;

/// Three plain frames, of 22, 60 and 74 octets.
pub const PLAIN: &str =
    "d4c3b2a1020004000000000000000000ffff00000100000000f15365000000001600000016000000d609b1f056637a0d46df998d0800101112131415161701f15365e80300003c0000003c000000d609b1f056637a0d46df998d0800101112131415161718191a1b1c1d1e1f202122232425262728292a2b2c2d2e2f303132333435363738393a3b3c3d02f15365d00700004a0000004a000000d609b1f056637a0d46df998d0800101112131415161718191a1b1c1d1e1f202122232425262728292a2b2c2d2e2f303132333435363738393a3b3c3d3e3f404142434445464748494a4b";

/// The three frames as they go out.
pub const PROTECTED: &str =
    "d4c3b2a1020004000000000000000000000004000100000000f15365000000003600000036000000d609b1f056637a0d46df998d88e52c0a0000000512153524c0895e8137f1a95160312fcf3e0ed2dce4357b7a4fdaf25f25642f5d36bb01f15365e80300005c0000005c000000d609b1f056637a0d46df998d88e52c000000000612153524c0895e81389f1c545914028d06fd03ad61b860bdc7febe61d2a1a2bb95ef1e5bb359c2b2618b3b682648a7475a4610d997f243b4e46d1348ef1269db33fd333626bf098002f15365d00700006a0000006a000000d609b1f056637a0d46df998d88e52c000000000712153524c0895e810668e960841994d149f4e33952d06e852fd5a31c0bd8666c7c6b7d76e3b907292f55e820e21a8f3086ef7e6a8dee0a77ae08a1b633bdf3f157262d8b717cce08b38c95f0aa1ff320202bce62a4ed";

/// The three frames as they are delivered: as they were, in a capture with the header that is
/// written.
const DELIVERED: &str =
    "d4c3b2a1020004000000000000000000000004000100000000f15365000000001600000016000000d609b1f056637a0d46df998d0800101112131415161701f15365e80300003c0000003c000000d609b1f056637a0d46df998d0800101112131415161718191a1b1c1d1e1f202122232425262728292a2b2c2d2e2f303132333435363738393a3b3c3d02f15365d00700004a0000004a000000d609b1f056637a0d46df998d0800101112131415161718191a1b1c1d1e1f202122232425262728292a2b2c2d2e2f303132333435363738393a3b3c3d3e3f404142434445464748494a4b";

/// The side that sends.
pub const SENDER: &str = "[[command]]
do = 'tx-install'
an = 0
key = 'ad7a2bd03eac835a6f620fdcb506b345'
start = 1
confidential = true
offset = 0

[[command]]
do = 'tx-use'
an = 0
";

/// The side that receives.
pub const RECEIVER: &str = "[[command]]
do = 'rx-add'
sci = '12153524c0895e81'

[[command]]
do = 'rx-install'
sci = '12153524c0895e81'
an = 0
key = 'ad7a2bd03eac835a6f620fdcb506b345'
start = 1
offset = 0
";

/// The blocks are of 4 numbers: the first frame had 5 to 8 reserved, and the next opening begins
/// after them.
const SENDER_SHOWN: Outcome = Outcome::Done(
    "sci 12153524c0895e81
blocks tx 4 rx 4
validate strict
replay on window 0
sci-mode explicit
encoding 0
tx 0 confidential offset 0 next 9
spent tx 1 rx 0
",
);

/// The first frame, of number 5, raised the ceiling to 9.
const RECEIVER_SHOWN: Outcome = Outcome::Done(
    "sci ffffffffffff0001
blocks tx 4 rx 4
validate strict
replay on window 0
sci-mode explicit
encoding none
channel 12153524c0895e81
rx 12153524c0895e81 0 offset 0 next 9 lowest 9
spent tx 0 rx 1
",
);

const PASSED: &[Step] = &[
    Run(
        &["format", "story-pass/a", "12153524c0895e81", "4", "4"],
        Outcome::Done("formatted\n"),
    ),
    Run(
        &["format", "story-pass/b", "ffffffffffff0001", "4", "4"],
        Outcome::Done("formatted\n"),
    ),
    Text("story-pass/a.toml", SENDER),
    Text("story-pass/b.toml", RECEIVER),
    Run(
        &["apply", "story-pass/a", "story-pass/a.toml"],
        Outcome::Done("1 ok\n2 ok\n"),
    ),
    Run(
        &["apply", "story-pass/b", "story-pass/b.toml"],
        Outcome::Done("1 ok\n2 ok\n"),
    ),
    Hex("story-pass/plain", PLAIN),
    Run(
        &[
            "protect",
            "story-pass/a",
            "story-pass/plain",
            "story-pass/protected",
        ],
        Outcome::Done("protected 3 dropped 0\n"),
    ),
    Holds("story-pass/protected", PROTECTED),
    Run(&["show", "story-pass/a"], SENDER_SHOWN),
    Run(&["show", "story-pass/a"], SENDER_SHOWN),
    Run(
        &[
            "validate",
            "story-pass/b",
            "story-pass/protected",
            "story-pass/delivered",
        ],
        Outcome::Done("delivered 3 discarded 0\n"),
    ),
    Holds("story-pass/delivered", DELIVERED),
    Run(&["show", "story-pass/b"], RECEIVER_SHOWN),
    Run(&["show", "story-pass/b"], RECEIVER_SHOWN),
    // The same frames once more are replayed.
    Run(
        &[
            "validate",
            "story-pass/b",
            "story-pass/protected",
            "story-pass/delivered",
        ],
        Outcome::Done("delivered 0 discarded 3\n"),
    ),
    // Where all frames are to pass, the status says whether they did.
    Run(
        &[
            "validate",
            "story-pass/b",
            "story-pass/protected",
            "story-pass/delivered",
            "--all",
        ],
        Outcome::Refused("delivered 0 discarded 3\n"),
    ),
    Run(
        &[
            "protect",
            "--all",
            "story-pass/a",
            "story-pass/plain",
            "story-pass/again",
        ],
        Outcome::Done("protected 3 dropped 0\n"),
    ),
    Run(
        &[
            "validate",
            "--all",
            "story-pass/b",
            "story-pass/again",
            "story-pass/delivered",
        ],
        Outcome::Done("delivered 3 discarded 0\n"),
    ),
    Holds("story-pass/delivered", DELIVERED),
    // The receiver has no association in use to send.
    Run(
        &[
            "protect",
            "--all",
            "story-pass/b",
            "story-pass/plain",
            "story-pass/again",
        ],
        Outcome::Refused("protected 0 dropped 3\n"),
    ),
];

#[test]
fn three_frames_pass(rt: HostRuntime) {
    play(&rt, rt.alloc(), "story-pass", PASSED);
}

pub const CAPTURE_FAULT: Outcome = Outcome::Fault("macsecd: capture\n");

/// Inputs that are not read, and what becomes of the output.
const WRONG: &[Step] = &[
    Run(
        &["format", "story-wrong/disk", "12153524c0895e81", "4", "4"],
        Outcome::Done("formatted\n"),
    ),
    // Without an input the output is left alone.
    Run(
        &[
            "protect",
            "story-wrong/disk",
            "story-wrong/no",
            "story-wrong/out",
        ],
        CAPTURE_FAULT,
    ),
    IsMissing("story-wrong/out"),
    Hex("story-wrong/out", "00"),
    Run(
        &[
            "validate",
            "story-wrong/disk",
            "story-wrong/no",
            "story-wrong/out",
        ],
        CAPTURE_FAULT,
    ),
    Holds("story-wrong/out", "00"),
    // An input with a wrong header empties it.
    Hex(
        "story-wrong/in",
        "00000000000000000000000000000000000000000000000000",
    ),
    Run(
        &[
            "protect",
            "story-wrong/disk",
            "story-wrong/in",
            "story-wrong/out",
        ],
        CAPTURE_FAULT,
    ),
    Holds("story-wrong/out", ""),
    // An output that cannot be made.
    Run(
        &[
            "protect",
            "story-wrong/disk",
            "story-wrong/in",
            "story-wrong/no/out",
        ],
        CAPTURE_FAULT,
    ),
];

#[test]
fn a_wrong_capture_is_capture(rt: HostRuntime) {
    play(&rt, rt.alloc(), "story-wrong", WRONG);
}
