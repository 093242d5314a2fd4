//! A command that is not handed in, or not taken.

use super::clients::{Asker, expect_told};
use super::{attended, program};
use macs_commands::requests::NoMetrics;
use macs_config::Command;
use macs_control::desk::{
    ControlDesk, Dropped, KeyNotes, NoSystem, NoteFault, Overruns, Time, report_paper,
};
use macs_disk::MemDisk;
use macs_edge::{Desk, MemWire};
use macs_endpoint::SubmitFault;
use std::alloc::Global;
use std::process::Abort;

const CASES: &[(SubmitFault, &str)] = &[
    (SubmitFault::Stopped, "0 refused Stopped\nend 4\n"),
    (SubmitFault::QueueFull, "0 refused QueueFull\nend 4\n"),
    (SubmitFault::TicketsSpent, "0 refused TicketsSpent\nend 4\n"),
];

fn refuse<K: Desk<MemDisk, MemWire<Global>, MemWire<Global>>>(desk: &mut K, fault: SubmitFault) {
    desk.took(Err(fault));
}

fn is_told(rt: &impl Abort, alloc: Global, fault: SubmitFault, told: &str) {
    let mut desk = ControlDesk::new(
        report_paper(alloc).expect(rt, "memory"),
        program(rt, alloc),
        Asker::new(rt, alloc, "show"),
        NoMetrics,
        NoSystem,
    );
    refuse(&mut desk, fault);
    expect_told(rt, desk, told);
}

/// Notes no key, for this cause.
#[derive(Drop)]
struct NoteKeeper {
    fault: NoteFault,
}

impl Overruns for NoteKeeper {
    fn dropped(&self) -> Dropped {
        Dropped {
            controlled: None,
            common: None,
        }
    }
}

impl Time for NoteKeeper {
    fn seconds(&self) -> Option<u64> {
        None
    }
}

impl KeyNotes for NoteKeeper {
    fn note(&self, command: &Command) -> Result<(), NoteFault> {
        match command {
            Command::TxInstall { .. } => Err(self.fault),
            _ => Ok(()),
        }
    }
}

/// A line, why the key of a command that installs one cannot be noted, and what is said.
const NOTES: &[(&str, NoteFault, &str)] = &[
    (INSTALL, NoteFault::Spent, "5 refused KeySpent\nend 3\n"),
    (INSTALL, NoteFault::Failed, "5 end 4\n"),
    ("tx-use 0", NoteFault::Spent, "5 refused SlotEmpty\nend 3\n"),
];

const INSTALL: &str = "tx-install 0 000102030405060708090a0b0c0d0e0f 1 confidential 0";

fn is_not_noted(rt: &impl Abort, alloc: Global, line: &'static str, fault: NoteFault, told: &str) {
    let mut desk = ControlDesk::new(
        report_paper(alloc).expect(rt, "memory"),
        program(rt, alloc),
        Asker::new(rt, alloc, line),
        NoMetrics,
        NoteKeeper { fault },
    );
    attended(rt, alloc, &mut desk, 8);
    expect_told(rt, desk, told);
}

#[test]
fn no_key_is_installed_that_is_not_noted(rt: HostRuntime) {
    for &(line, fault, told) in NOTES {
        is_not_noted(&rt, rt.alloc(), line, fault, told);
    }
}

#[test]
fn each_cause_is_named(rt: HostRuntime) {
    for &(fault, told) in CASES {
        is_told(&rt, rt.alloc(), fault, told);
    }
}
