//! A desk over clients and metrics that keep what they are given, against texts written by hand.

mod clients;
mod metrics;
mod refusals;
mod reports;
mod reserved;
mod traffic;

use super::endpoints::{OWN, formatted, opened};
use macs_disk::MemDisk;
use macs_edge::{Desk, MemWire, attend};
use macs_endpoint::Endpoint;
use macs_texts::{Build, Program};
use std::alloc::Global;
use std::process::Abort;

/// A run of no program.
fn program(rt: &impl Abort, alloc: Global) -> Program {
    Program {
        build: Build::new(alloc, "7.8.9", "abc", "no").expect(rt, "memory"),
        started: Some(1_234_567_890),
        last_good: None,
    }
}

/// A relay of a new endpoint of so many turns, between two wires on which nothing waits, with this
/// desk.
fn attended<K: Desk<MemDisk, MemWire<Global>, MemWire<Global>>>(
    rt: &impl Abort,
    alloc: Global,
    desk: &mut K,
    turns: u64,
) {
    let endpoint = opened(rt, formatted(rt, alloc, OWN, 4));
    relay_between(rt, alloc, endpoint, desk, turns);
}

fn relay_between<K: Desk<MemDisk, MemWire<Global>, MemWire<Global>>>(
    rt: &impl Abort,
    alloc: Global,
    mut endpoint: Endpoint<MemDisk>,
    desk: &mut K,
    turns: u64,
) {
    let mut controlled = MemWire::new(alloc);
    let mut common = MemWire::new(alloc);
    let told = attend(&mut endpoint, &mut controlled, &mut common, desk, turns);
    assert!(rt; told.is_ok());
}
