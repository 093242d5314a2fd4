//! What is reported of a new endpoint, by hand.

use super::clients::{Asker, expect_told};
use super::{attended, program};
use macs_commands::requests::NoMetrics;
use macs_control::desk::{ControlDesk, NoSystem, report_paper};
use std::alloc::Global;
use std::process::Abort;

/// A line, and what is said to its client.
const CASES: &[(&str, &str)] = &[
    (
        "show",
        "5 sci 0200000000010001\nblocks tx 4 rx 4\nvalidate strict\nreplay on window 0\n\
sci-mode explicit\nencoding none\nspent tx 0 rx 0\n5 end 0\n",
    ),
    ("keys", "5 5 end 0\n"),
    ("traffic", "5 5 end 0\n"),
    (
        "about",
        "5 macsecd 7.8.9\ncommit abc\nproved no\nstarted 1234567890\n5 end 0\n",
    ),
    ("stop", "5 end 0\n"),
    ("", "5 end 2\n"),
    ("stop ", "5 end 2\n"),
    ("set-replay on 4294967296", "5 end 2\n"),
    ("set-replay on 4294967295", "5 ok\nend 0\n"),
    ("tx-use 0", "5 refused SlotEmpty\nend 3\n"),
];

fn answers(rt: &impl Abort, alloc: Global, line: &'static str, told: &str) {
    let mut desk = ControlDesk::new(
        report_paper(alloc).expect(rt, "memory"),
        program(rt, alloc),
        Asker::new(rt, alloc, line),
        NoMetrics,
        NoSystem,
    );
    attended(rt, alloc, &mut desk, 8);
    expect_told(rt, desk, told);
}

#[test]
fn each_line_is_answered(rt: HostRuntime) {
    for &(line, told) in CASES {
        answers(&rt, rt.alloc(), line, told);
    }
}
