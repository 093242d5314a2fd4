//! Captures that are cut, and reads and writes that fail.

use super::frames::published_sender;
use super::{HEADER, PLAIN, SEALED, WRITTEN, Way, push_frame, receiver, run_in, summary};
use macs_disk::MemDisk;
use macs_edge::{RunFault, Summary};
use macs_endpoint::Endpoint;
use macs_pcap::PcapFault;
use std::alloc::Global;
use std::process::Abort;
use std::test::Fail;

fn fault(fault: PcapFault) -> Result<Summary, RunFault> {
    Err(RunFault::Pcap(fault))
}

/// Which way a published frame runs, how many octets its capture has, and that of the frame that
/// goes out for it.
#[derive(Clone, Copy)]
struct One {
    way: Way,
    read: u64,
    wrote: u64,
}

/// The plain frame has 54 octets, the protected one 86; the headers 24 and 16.
const ONES: [One; 2] = [
    One {
        way: Way::Protect,
        read: 94,
        wrote: 126,
    },
    One {
        way: Way::Validate,
        read: 126,
        wrote: 94,
    },
];

/// What is answered, and how many octets are written.
type Cut = (Result<Summary, RunFault>, u64);

impl One {
    /// A capture that has so many octets left of it.
    fn at_length(&self, length: u64) -> Cut {
        if length < 24 {
            (fault(PcapFault::CutFile), 0)
        } else if length == 24 {
            (summary(0, 0), 24)
        } else if length < self.read {
            (fault(PcapFault::CutFile), 24)
        } else {
            (summary(1, 0), self.wrote)
        }
    }

    /// Each octet takes a read, and the end one more.
    fn at_read(&self, call: u64) -> Cut {
        if call > self.read {
            (fault(PcapFault::Read), self.wrote)
        } else if call > 24 {
            (fault(PcapFault::Read), 24)
        } else {
            (fault(PcapFault::Read), 0)
        }
    }

    /// The captures that are read and written.
    fn captures(&self, alloc: Global) -> Result<(Vec<u8>, Vec<u8>), Fail> {
        match self.way {
            Way::Protect => Ok((
                capture_of(alloc, &HEADER, &PLAIN)?,
                capture_of(alloc, &WRITTEN, &SEALED)?,
            )),
            Way::Validate => Ok((
                capture_of(alloc, &HEADER, &SEALED)?,
                capture_of(alloc, &WRITTEN, &PLAIN)?,
            )),
        }
    }

    /// A new endpoint for the frame.
    fn endpoint(&self, rt: &impl Abort, alloc: Global) -> Endpoint<MemDisk> {
        match self.way {
            Way::Protect => published_sender(rt, alloc),
            Way::Validate => receiver(rt, alloc),
        }
    }
}

/// A capture of one frame after this header.
fn capture_of(alloc: Global, header: &[u8; 24], frame: &[u8]) -> Result<Vec<u8>, Fail> {
    let mut octets = Vec::from_slice(alloc, header)?;
    push_frame(&mut octets, 0, frame)?;
    Ok(octets)
}

/// Runs these octets where these calls fail. What was written is a front of the whole.
fn expect_cut(
    rt: &impl Abort,
    alloc: Global,
    one: One,
    octets: &[u8],
    whole: &[u8],
    fails: (u64, u64),
    cut: Cut,
) {
    let mut endpoint = one.endpoint(rt, alloc);
    let (answer, written) = run_in(
        alloc,
        alloc,
        &mut endpoint,
        one.way,
        octets,
        fails.0,
        fails.1,
    );
    assert!(rt; answer == cut.0);
    assert!(rt; written.len() as u64 == cut.1);
    assert!(rt; whole.starts_with(written.as_slice()));
}

/// Cuts a capture at this length.
fn cut_at(rt: &impl Abort, alloc: Global, one: One, octets: &[u8], whole: &[u8], length: usize) {
    assert!(rt; length <= octets.len());
    let (front, _) = octets.split_at(length);
    let cut = one.at_length(length as u64);
    expect_cut(rt, alloc, one, front, whole, (0, 0), cut);
}

/// Cuts a capture at each length, its own included: so many runs.
fn cut_each(rt: &impl Abort, alloc: Global, one: One) -> Result<u64, Fail> {
    let (octets, whole) = one.captures(alloc)?;
    let mut runs = 0_u64;
    for length in 0..octets.len().saturating_add(1) {
        cut_at(rt, alloc, one, &octets, &whole, length);
        runs = runs.saturating_add(1);
    }
    Ok(runs)
}

/// 95 captures that are protected, 127 that are validated.
#[test]
fn cut_at_every_length(rt: HostRuntime) -> Result<(), Fail> {
    let mut runs = 0_u64;
    for one in ONES {
        runs = runs.saturating_add(cut_each(&rt, rt.alloc(), one)?);
    }
    assert!(rt; runs == 95 + 127);
    Ok(())
}

/// Fails each read of a capture in turn, and each write: so many runs. Each octet takes a write.
fn fail_each(rt: &impl Abort, alloc: Global, one: One) -> Result<u64, Fail> {
    let (octets, whole) = one.captures(alloc)?;
    let mut runs = 0_u64;
    for call in 1..=one.read.saturating_add(1) {
        let cut = one.at_read(call);
        expect_cut(rt, alloc, one, &octets, &whole, (call, 0), cut);
        runs = runs.saturating_add(1);
    }
    for written in 0..one.wrote {
        let cut = (fault(PcapFault::Write), written);
        let call = written.saturating_add(1);
        expect_cut(rt, alloc, one, &octets, &whole, (0, call), cut);
        runs = runs.saturating_add(1);
    }
    Ok(runs)
}

/// 95 reads and 126 writes of the frame that is protected, 127 and 94 of the one that is validated.
#[test]
fn each_read_and_each_write_fails_in_turn(rt: HostRuntime) -> Result<(), Fail> {
    let mut runs = 0_u64;
    for one in ONES {
        runs = runs.saturating_add(fail_each(&rt, rt.alloc(), one)?);
    }
    assert!(rt; runs == 95 + 126 + 127 + 94);
    Ok(())
}
