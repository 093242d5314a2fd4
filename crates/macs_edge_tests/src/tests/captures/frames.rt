//! Frames that pass, and frames that are left out.

use super::{
    PEER, PEER_KEY, WRITTEN, Way, next_number, plain, plain_capture, protect, push_frame,
    run_whole, sender, summary,
};
use crate::tests::endpoints::{OWN, command, formatted, number_of, opened, sending};
use macs_config::Command;
use macs_disk::MemDisk;
use macs_endpoint::Endpoint;
use macs_frame::FrameBuf;
use std::alloc::Global;
use std::process::Abort;
use std::test::Fail;

/// The sizes of frames, up to the first 0; how many pass, and how many are left out.
const RUNS: [([usize; 10], u64, u64); 6] = [
    ([0; 10], 0, 0),
    ([60, 60, 60, 0, 0, 0, 0, 0, 0, 0], 3, 0),
    ([60; 10], 10, 0),
    ([13, 0, 0, 0, 0, 0, 0, 0, 0, 0], 0, 1),
    ([13, 60, 13, 14, 9_185, 9_184, 60, 60, 60, 13], 6, 4),
    ([60, 60, 60, 60, 13, 60, 0, 0, 0, 0], 5, 1),
];

/// Appends a frame as an endpoint protects it, if it does.
fn push_protected(
    alloc: Global,
    endpoint: &mut Endpoint<MemDisk>,
    octets: &mut Vec<u8>,
    place: u32,
    size: usize,
) -> Result<(), Fail> {
    let mut out = FrameBuf::new();
    let frame = plain(alloc, place, size)?;
    if !protect(endpoint, frame.as_slice(), &mut out) {
        return Ok(());
    }
    push_frame(octets, place, out.as_slice())
}

/// The capture of these frames as an endpoint protects them that never waits for a number, each
/// with its record's stamp.
pub(super) fn protected_capture(
    rt: &impl Abort,
    alloc: Global,
    sizes: [usize; 10],
) -> Result<Vec<u8>, Fail> {
    let mut endpoint = sending(rt, formatted(rt, alloc, OWN, 1_000));
    let mut octets = Vec::from_slice(alloc, &WRITTEN)?;
    let mut place = 0_u32;
    for size in sizes {
        if size == 0 {
            break;
        }
        push_protected(alloc, &mut endpoint, &mut octets, place, size)?;
        place = place.wrapping_add(1);
    }
    Ok(octets)
}

/// A capture goes through a new endpoint: so many frames pass, as these octets, and so many are
/// left out.
fn expect_protected(
    rt: &impl Abort,
    alloc: Global,
    octets: &[u8],
    wanted: &[u8],
    passed: u64,
    dropped: u64,
) {
    let mut endpoint = sender(rt, alloc);
    let (answer, written) = run_whole(alloc, &mut endpoint, Way::Protect, octets);
    assert!(rt; answer == summary(passed, dropped));
    assert!(rt; written.as_slice() == wanted);
    assert!(rt; next_number(rt, &endpoint) == Some(passed.saturating_add(1)));
}

/// Frames that wait for a number go out all the same, and those with a fault of their own do not.
#[test]
fn frames_are_protected(rt: HostRuntime) -> Result<(), Fail> {
    for (sizes, passed, dropped) in RUNS {
        let octets = plain_capture(rt.alloc(), sizes)?;
        let wanted = protected_capture(&rt, rt.alloc(), sizes)?;
        expect_protected(&rt, rt.alloc(), &octets, &wanted, passed, dropped);
    }
    Ok(())
}

/// A new endpoint whose next frame is the published one.
pub(super) fn published_sender(rt: &impl Abort, alloc: Global) -> Endpoint<MemDisk> {
    let an = number_of(rt, 2);
    let mut endpoint = opened(rt, formatted(rt, alloc, PEER, 4));
    let install = Command::TxInstall {
        an,
        key: PEER_KEY,
        start: 0xb2c2_8465,
        confidential: false,
        offset: 0,
    };
    command(rt, &mut endpoint, install);
    command(rt, &mut endpoint, Command::TxUse { an });
    endpoint
}
