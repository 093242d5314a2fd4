//! Texts that are the line of no request.

use macs_commands::Paper;
use macs_commands::requests::{MAX_LINE, Request, request_of_line};
use std::alloc::Global;
use std::process::Abort;

const OTHERS: [&str; 24] = [
    "",
    " ",
    "Show",
    "show ",
    " show",
    "show\r",
    "counters stop",
    "set-validate",
    "set-validate Strict",
    "set-validate strict ",
    "set-replay on",
    "set-replay on 01",
    "set-replay on +1",
    "set-replay on 4294967296",
    "set-replay yes 1",
    "set-sci-mode station",
    "tx-use 4",
    "tx-use  1",
    "tx-use 1 1",
    "rx-add 12153524C0895E81",
    "rx-add 12153524c0895e8",
    "tx-install 0 00090a0f1090a0f0ff0123456789ab 1 confidential 30",
    "tx-install 0 00090a0f1090a0f0ff0123456789abcd 1 confidential 256",
    "tx-install 0 00090a0f1090a0f0ff0123456789abcd 1 confidential",
];

/// The text is the line of no request.
fn is_none(rt: &impl Abort, alloc: Global, line: &str) {
    let mut paper = Paper::new(alloc, MAX_LINE).expect(rt, "memory");
    assert!(rt; line.len() <= MAX_LINE);
    let request: Option<Request> = request_of_line(&mut paper, line);
    assert!(rt; request.is_none());
}

#[test]
fn are_none(rt: HostRuntime) {
    for line in OTHERS {
        is_none(&rt, rt.alloc(), line);
    }
}
