//! Relays of a frame each way between two peers.

use super::super::expect_over;
use super::super::peers::{OWN1, OWN2, Peers};
use super::super::stand_in::{Broken, StandIn};
use super::files::octets_of;
use crate::Outcome;
use std::alloc::Global;
use std::fs::File;
use std::io;
use std::net::Net;
use std::process::Abort;
use std::random::RandomSource;
use std::rt::{Clock, Env, Files};

/// The frames of a relay, spelled in hex.
#[derive(Clone, Copy)]
pub struct Frames {
    /// What the peer of the first wire sends, and what comes to that of the second for it: nothing
    /// where they have no digits.
    pub plain: &'static str,
    pub protected: &'static str,
    /// What the peer of the second wire sends, and what comes to that of the first for it.
    pub arrived: &'static str,
    pub delivered: &'static str,
}

/// A relay, what is sent to it, and what it comes to.
pub struct Relayed {
    pub disk: &'static str,
    /// The two words that say which turns it takes.
    pub pace: &'static str,
    pub turns: &'static str,
    pub frames: Frames,
    /// How many datagrams of a stranger there are in front of each frame, and after it.
    pub strangers: u32,
    pub outcome: Outcome,
}

/// Relays a frame each way, and looks at what comes to the peers.
pub fn relay(
    rt: &(impl Abort + Files<File = File> + Net + Clock + Env + RandomSource),
    alloc: Global,
    relayed: &Relayed,
) -> io::Result<()> {
    let peers = peers_of(rt, alloc, relayed.frames, relayed.strangers)?;
    run(rt, alloc, &peers, relayed)?;
    expect_frames(rt, alloc, &peers, relayed.frames);
    Ok(())
}

/// The peers that send these frames.
pub fn peers_of(
    rt: &(impl Abort + Net),
    alloc: Global,
    frames: Frames,
    strangers: u32,
) -> io::Result<Peers> {
    let plain = octets_of(rt, alloc, frames.plain);
    let arrived = octets_of(rt, alloc, frames.arrived);
    Peers::new(rt, plain, arrived, strangers)
}

/// Runs the relay between the wires of two peers.
fn run(
    rt: &(impl Abort + Files<File = File> + Net + Clock + Env + RandomSource),
    alloc: Global,
    peers: &Peers,
    relayed: &Relayed,
) -> io::Result<()> {
    let (peer1, peer2) = peers.addresses(alloc)?;
    let (peer1, peer2) = (peer1.as_str(), peer2.as_str());
    let words = [
        "relay",
        relayed.disk,
        OWN1,
        peer1,
        OWN2,
        peer2,
        relayed.pace,
        relayed.turns,
    ];
    expect_relay(rt, alloc, peers, &words, relayed.outcome);
    Ok(())
}

/// Runs the words of a relay over a system between the wires of two peers.
fn expect_relay<'a>(
    rt: &'a (impl Abort + Files<File = File> + Net + Clock + Env + RandomSource),
    alloc: Global,
    peers: &'a Peers,
    words: &'a [&'a str],
    outcome: Outcome,
) {
    let system = StandIn {
        system: rt,
        path: "",
        broken: Broken::Nothing,
        peers: Some(peers),
        beside: None,
    };
    expect_over(rt, &system, alloc, words, outcome);
}

/// The frames that are to come to the peers have come.
pub fn expect_frames(rt: &impl Abort, alloc: Global, peers: &Peers, frames: Frames) {
    let delivered = octets_of(rt, alloc, frames.delivered);
    let protected = octets_of(rt, alloc, frames.protected);
    assert!(rt; peers.have(&delivered, &protected));
}
