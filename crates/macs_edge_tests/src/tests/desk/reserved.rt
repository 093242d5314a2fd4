//! What is reported of an endpoint whose packet numbers are reserved in blocks of 16.

use super::clients::{Asker, expect_told};
use super::traffic::{PLAIN, receive_under, send_under};
use super::{program, relay_between};
use crate::tests::endpoints::{OWN, THERE, command, formatted, opened};
use macs_commands::requests::NoMetrics;
use macs_config::Command;
use macs_control::desk::{ControlDesk, NoSystem, report_paper};
use macs_disk::MemDisk;
use macs_endpoint::Endpoint;
use macs_frame::FrameBuf;
use macs_rxsc::{Kind, Verdict};
use std::alloc::Global;
use std::process::Abort;

/// Protects so many frames, which go nowhere.
fn send(rt: &impl Abort, endpoint: &mut Endpoint<MemDisk>, frames: u8) {
    let mut frame = FrameBuf::new();
    for _ in 0..frames {
        assert!(rt; endpoint.protect(&PLAIN, &mut frame).is_ok());
    }
}

/// One endpoint delivers so many frames of another, of which the first may wait for a reservation.
fn pass(rt: &impl Abort, there: &mut Endpoint<MemDisk>, here: &mut Endpoint<MemDisk>, frames: u8) {
    let mut frame = FrameBuf::new();
    let mut plain = FrameBuf::new();
    for _ in 0..frames {
        assert!(rt; there.protect(&PLAIN, &mut frame).is_ok());
        let mut verdict = here.receive(frame.as_slice(), &mut plain);
        if verdict == Ok(Verdict::HeldBack) {
            assert!(rt; here.refill().is_ok());
            verdict = here.receive(frame.as_slice(), &mut plain);
        }
        assert!(rt; verdict == Ok(Verdict::Delivered(Kind::Ok)));
    }
}

/// An endpoint that sent three frames under association 2, and delivered one of the other endpoint
/// under association 1, and two under 3.
pub(super) fn carrying(rt: &impl Abort, alloc: Global) -> Endpoint<MemDisk> {
    let mut there = opened(rt, formatted(rt, alloc, THERE, 16));
    let mut here = opened(rt, formatted(rt, alloc, OWN, 16));
    command(rt, &mut here, Command::RxAdd { sci: THERE });
    receive_under(rt, &mut here, 1, 7);
    receive_under(rt, &mut here, 3, 8);
    send_under(rt, &mut here, 2, 9, true);
    send(rt, &mut here, 3);
    send_under(rt, &mut there, 1, 7, true);
    pass(rt, &mut there, &mut here, 1);
    send_under(rt, &mut there, 3, 8, true);
    pass(rt, &mut there, &mut here, 2);
    here
}

/// By hand. To send, the numbers below 1 + 16 are reserved, and 4 is the next. Of those to receive,
/// the ones below 1 + 16, a block above the first that came: 2 is the next of association 1, and 3
/// of 3. More than half a block is left of each, so that no more is reserved.
const TOLD: &str = "\
5 tx protected 3
tx runt 0
tx too-long 0
tx foreign-source 0
tx no-encoding 0
tx exhausted 0
tx no-number 0
rx ok 3
rx delayed 0
rx invalid 0
rx untagged 0
rx unknown-sci 0
rx unused-sa 0
rx runt 0
rx oversize 0
rx no-tag 0
rx bad-tag 0
rx for-kay 0
rx no-sci 0
rx not-using-sa 0
rx late 0
rx not-valid 0
channel 0200000000020001 ok 3
channel 0200000000020001 delayed 0
channel 0200000000020001 invalid 0
channel 0200000000020001 unused-sa 0
channel 0200000000020001 not-using-sa 0
channel 0200000000020001 late 0
channel 0200000000020001 not-valid 0
wire 1 taken 0
wire 1 too-long 0
wire 1 sent 0
wire 1 strangers 0
wire 1 failed-receives 0
wire 1 failed-sends 0
wire 2 taken 0
wire 2 too-long 0
wire 2 sent 0
wire 2 strangers 0
wire 2 failed-receives 0
wire 2 failed-sends 0
left tx 2 4294967292
left keys tx 511
left keys rx 510
reserved tx 2 13
reserved rx 0200000000020001 1 15
reserved rx 0200000000020001 3 14
5 end 0
";

#[test]
fn counters_are_told(rt: HostRuntime) {
    let mut desk = ControlDesk::new(
        report_paper(rt.alloc()).expect(&rt, "memory"),
        program(&rt, rt.alloc()),
        Asker::new(&rt, rt.alloc(), "counters"),
        NoMetrics,
        NoSystem,
    );
    relay_between(&rt, rt.alloc(), carrying(&rt, rt.alloc()), &mut desk, 8);
    expect_told(&rt, desk, TOLD);
}
