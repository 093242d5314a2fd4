//! Captures that run through an endpoint.

use crate::endpoint::Played;
use crate::text::{Answer, Captures, Words};
use macs_edge::{RunFault, Summary, run_protect, run_validate};
use macs_pcap::{ReaderSource, WriterSink};
use std::alloc::Global;

/// Which way a capture runs.
#[derive(Clone, Copy)]
enum Way {
    Protect,
    Validate,
}

fn way_of(act: &str) -> Option<Way> {
    match act {
        "protect-capture" => Some(Way::Protect),
        "validate-capture" => Some(Way::Validate),
        _ => None,
    }
}

fn run_octets(
    endpoint: &mut Played,
    way: Way,
    capture: &[u8],
    written: &mut Vec<u8>,
    alloc: Global,
) -> Result<Summary, RunFault> {
    let mut source = ReaderSource::new(capture);
    let mut sink = WriterSink::new(written);
    match way {
        Way::Protect => run_protect(alloc, endpoint, &mut source, &mut sink),
        Way::Validate => run_validate(alloc, endpoint, &mut source, &mut sink),
    }
}

fn tell_run(told: Result<Summary, RunFault>, answer: &mut Answer) {
    match told {
        Ok(summary) => {
            answer.word("passed");
            answer.number(summary.passed);
            answer.word("dropped");
            answer.number(summary.dropped);
        }
        Err(RunFault::Pcap(fault)) => answer.name(&fault),
        Err(RunFault::Device(fault)) => answer.name(&fault),
    }
}

/// `protect-capture`, `validate-capture`: the capture runs through an endpoint. How many frames
/// passed and were dropped, or the fault.
pub fn run(
    endpoint: &mut Played,
    words: Words<'_>,
    captures: &mut Captures,
    alloc: Global,
    answer: &mut Answer,
) -> Option<()> {
    let way = way_of(words.rest())?;
    captures.written.clear();
    let told = run_octets(
        endpoint,
        way,
        captures.next.as_slice(),
        &mut captures.written,
        alloc,
    );
    tell_run(told, answer);
    Some(())
}
