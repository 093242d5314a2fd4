//! Keepers of a disk file, and their clients.

use super::super::beside::Beside;
use super::super::expect_over;
use super::super::stand_in::{Broken, StandIn};
use super::super::visitors::Visitor;
use crate::Outcome;
use std::alloc::{AllocError, Global};
use std::fs::File;
use std::io;
use std::net::Net;
use std::process::Abort;
use std::random::RandomSource;
use std::rt::{Clock, Env, Files};

/// A request: its first octet, the number of the sector, and what its sector is full of.
pub type Request = (u8, u64, u8);

/// An answer: its first octet, and what its sector is full of.
pub type Answer = (u8, u8);

/// A keeper, to which clients come at once, and what it comes to.
pub struct Kept {
    pub disk: &'static str,
    /// What fails of the disk file.
    pub broken: Broken,
    pub socket: &'static str,
    pub clients: usize,
    /// How many sectors the first client is told, what each sends, and the answers to the first
    /// one. What another one sends is not read.
    pub sectors: u64,
    pub requests: &'static [Request],
    pub answers: &'static [Answer],
    /// The name of the parent's socket, and what the parent sees.
    pub parent: &'static str,
    pub seen: &'static str,
    pub outcome: Outcome,
}

/// Appends a sector full of an octet.
fn push_sector(octets: &mut Vec<u8>, fill: u8) -> Result<(), AllocError> {
    octets.extend_from_slice(&[fill; 512])
}

/// The octets of requests.
fn requests_of(alloc: Global, requests: &[Request]) -> Result<Vec<u8>, AllocError> {
    let mut octets = Vec::new(alloc);
    for (kind, at, fill) in requests {
        octets.push(*kind)?;
        octets.extend_from_slice(&at.to_be_bytes())?;
        push_sector(&mut octets, *fill)?;
    }
    Ok(octets)
}

/// The octets of a greeting and of answers.
fn answers_of(alloc: Global, sectors: u64, answers: &[Answer]) -> Result<Vec<u8>, AllocError> {
    let mut octets = Vec::new(alloc);
    octets.extend_from_slice(b"MSECKEEP")?;
    octets.extend_from_slice(&sectors.to_be_bytes())?;
    for (kind, fill) in answers {
        octets.push(*kind)?;
        push_sector(&mut octets, *fill)?;
    }
    Ok(octets)
}

/// Runs the keeper, and looks at what came to its clients.
pub fn keep(
    rt: &(impl Abort + Files<File = File> + Net + Clock + Env + RandomSource),
    alloc: Global,
    kept: &Kept,
) -> io::Result<()> {
    let beside = beside(rt, alloc, kept)?;
    run(rt, alloc, &beside, &*kept);
    beside.look(rt, "end");
    assert!(rt; beside.has_seen(kept.seen));
    for client in 0..kept.clients {
        let answers = if client == 0 {
            answers_of(alloc, kept.sectors, kept.answers)?
        } else {
            Vec::new(alloc)
        };
        assert!(rt; beside.answered(alloc, client) == Some(answers));
    }
    Ok(())
}

/// Who is there beside the keeper.
fn beside(files: &impl Files<File = File>, alloc: Global, kept: &Kept) -> io::Result<Beside> {
    let mut beside = Beside::new(alloc, kept.socket);
    for _client in 0..kept.clients {
        beside.admit(Visitor::new(requests_of(alloc, kept.requests)?))?;
    }
    beside.notify(files, alloc, kept.parent)?;
    Ok(beside)
}

/// Runs the keeper with these beside it.
fn run<'a>(
    rt: &'a (impl Abort + Files<File = File> + Net + Clock + Env + RandomSource),
    alloc: Global,
    beside: &'a Beside,
    kept: &'a Kept,
) {
    let system = StandIn {
        system: rt,
        path: kept.disk,
        broken: kept.broken,
        peers: None,
        beside: Some(beside),
    };
    let words = ["keep", kept.disk, kept.socket];
    expect_over(rt, &system, alloc, &words, kept.outcome);
}
