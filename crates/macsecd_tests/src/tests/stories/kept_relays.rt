//! Relays over the disk of a keeper.

use super::super::beside::Beside;
use super::super::expect_over;
use super::super::keepers::Keeper;
use super::super::peers::{OWN1, OWN2, Peers};
use super::super::stand_in::{Broken, StandIn};
use super::attended::{Client, expect_told};
use super::relays::{Frames, expect_frames, peers_of};
use crate::Outcome;
use std::alloc::{AllocError, Global};
use std::fs::File;
use std::io;
use std::net::Net;
use std::process::Abort;
use std::random::RandomSource;
use std::rt::{Clock, Env, Files};
use std::time::{Duration, Instant};

/// How many seconds a relay may take.
const MOST: u64 = 15;

/// A relay over the disk of a keeper, what is sent to it, and what it comes to.
pub struct KeptRelay {
    pub disk: &'static str,
    pub keeper: &'static str,
    /// How many writes and syncs are answered, and whether the keeper ends then.
    pub answered: u32,
    pub is_over: bool,
    /// The words that say which turns it takes, and others.
    pub words: &'static [&'static str],
    pub frames: Frames,
    /// How many datagrams of a stranger there are in front of each frame, and after it.
    pub strangers: u32,
    /// The name of the control socket, and its clients: empty where there is none.
    pub control: &'static str,
    pub clients: &'static [Client],
    /// The name of the parent's socket, and what the parent sees: empty where there is none.
    pub parent: &'static str,
    pub seen: &'static str,
    /// How many milliseconds it takes at least.
    pub least: u64,
    pub outcome: Outcome,
}

/// Runs the relay, and looks at what comes to its peers and to its clients.
pub fn relay_kept(
    rt: &(impl Abort + Files<File = File> + Net + Clock + Env + RandomSource),
    alloc: Global,
    relayed: &KeptRelay,
) -> io::Result<()> {
    let peers = peers_of(rt, alloc, relayed.frames, relayed.strangers)?;
    let beside = beside(rt, alloc, relayed)?;
    run_in_time(rt, alloc, &peers, &beside, relayed)?;
    beside.look(rt, "end");
    assert!(rt; beside.has_seen(relayed.seen));
    expect_frames(rt, alloc, &peers, relayed.frames);
    expect_told(rt, alloc, &beside, relayed.clients)
}

/// Who is there beside the relay.
fn beside(
    rt: &(impl Abort + Files<File = File> + Net),
    alloc: Global,
    relayed: &KeptRelay,
) -> io::Result<Beside> {
    let mut beside = Beside::new(alloc, relayed.control);
    for client in relayed.clients {
        beside.invite(alloc, client.lines, client.later)?;
    }
    if !relayed.parent.is_empty() {
        beside.notify(rt, alloc, relayed.parent)?;
    }
    beside.keep(Keeper::new(
        rt,
        alloc,
        relayed.disk,
        relayed.keeper,
        relayed.answered,
        relayed.is_over,
    )?);
    Ok(beside)
}

/// Runs the relay with these beside it, and looks at how long that takes.
fn run_in_time(
    rt: &(impl Abort + Files<File = File> + Net + Clock + Env + RandomSource),
    alloc: Global,
    peers: &Peers,
    beside: &Beside,
    relayed: &KeptRelay,
) -> io::Result<()> {
    let begun = Instant::now(rt)?;
    run(rt, alloc, peers, beside, relayed)?;
    let taken = begun.elapsed(rt)?;
    assert!(rt; taken >= Duration::from_millis(relayed.least));
    assert!(rt; taken < Duration::from_secs(MOST));
    Ok(())
}

/// Runs the relay with these beside it.
fn run(
    rt: &(impl Abort + Files<File = File> + Net + Clock + Env + RandomSource),
    alloc: Global,
    peers: &Peers,
    beside: &Beside,
    relayed: &KeptRelay,
) -> io::Result<()> {
    let (peer1, peer2) = peers.addresses(alloc)?;
    let words = words_of(alloc, peer1.as_str(), peer2.as_str(), relayed)?;
    expect_relay(rt, alloc, peers, beside, words.as_slice(), relayed.outcome);
    Ok(())
}

/// The words of the relay between peers with these addresses.
fn words_of<'a>(
    alloc: Global,
    peer1: &'a str,
    peer2: &'a str,
    relayed: &KeptRelay,
) -> Result<Vec<&'a str>, AllocError> {
    let mut words = Vec::new(alloc);
    words.push("relay")?;
    words.push(relayed.disk)?;
    words.push(OWN1)?;
    words.push(peer1)?;
    words.push(OWN2)?;
    words.push(peer2)?;
    words.push("--keeper")?;
    words.push(relayed.keeper)?;
    for word in relayed.words {
        words.push(*word)?;
    }
    if !relayed.control.is_empty() {
        words.push("--control")?;
        words.push(relayed.control)?;
    }
    Ok(words)
}

/// Runs the words of a relay over a system with these peers, and with these beside it.
fn expect_relay<'a>(
    rt: &'a (impl Abort + Files<File = File> + Net + Clock + Env + RandomSource),
    alloc: Global,
    peers: &'a Peers,
    beside: &'a Beside,
    words: &'a [&'a str],
    outcome: Outcome,
) {
    let system = StandIn {
        system: rt,
        path: "",
        broken: Broken::Nothing,
        peers: Some(peers),
        beside: Some(beside),
    };
    expect_over(rt, &system, alloc, words, outcome);
}
