//! What is reported of frames that pass.

use super::clients::{Asker, expect_told};
use super::program;
use crate::tests::endpoints::{OWN, THERE, command, formatted, number_of, opened};
use macs_aes::Key;
use macs_commands::requests::NoMetrics;
use macs_config::Command;
use macs_control::desk::{ControlDesk, Dropped, KeyNotes, NoteFault, Overruns, Time, report_paper};
use macs_disk::MemDisk;
use macs_edge::{MemWire, attend};
use macs_endpoint::Endpoint;
use macs_frame::FrameBuf;
use std::alloc::Global;
use std::process::Abort;

/// It is ten seconds past the beginning of 1970, and nothing else is known.
#[derive(Drop)]
struct AtTen;

impl Time for AtTen {
    fn seconds(&self) -> Option<u64> {
        Some(10)
    }
}

impl Overruns for AtTen {
    fn dropped(&self) -> Dropped {
        Dropped {
            controlled: None,
            common: None,
        }
    }
}

impl KeyNotes for AtTen {
    fn note(&self, _command: &Command) -> Result<(), NoteFault> {
        Ok(())
    }
}

/// A frame with 48 octets of User Data.
pub(super) const PLAIN: [u8; 60] = [9; 60];

/// Sends under this association number from now on.
pub(super) fn send_under(
    rt: &impl Abort,
    endpoint: &mut Endpoint<MemDisk>,
    number: u8,
    key: u8,
    confidential: bool,
) {
    let an = number_of(rt, number);
    let install = Command::TxInstall {
        an,
        key: Key::Short([key; 16]),
        start: 1,
        confidential,
        offset: 0,
    };
    command(rt, endpoint, install);
    command(rt, endpoint, Command::TxUse { an });
}

/// Receives from the other endpoint under this association number from now on.
pub(super) fn receive_under(
    rt: &impl Abort,
    endpoint: &mut Endpoint<MemDisk>,
    number: u8,
    key: u8,
) {
    let install = Command::RxInstall {
        sci: THERE,
        an: number_of(rt, number),
        key: Key::Short([key; 16]),
        start: 1,
        offset: 0,
    };
    command(rt, endpoint, install);
}

/// Puts a frame that the endpoint protects on a wire.
fn push_protected(rt: &impl Abort, endpoint: &mut Endpoint<MemDisk>, wire: &mut MemWire<Global>) {
    let mut frame = FrameBuf::new();
    assert!(rt; endpoint.protect(&PLAIN, &mut frame).is_ok());
    assert!(rt; wire.push(frame.as_slice()).is_ok());
}

/// One encrypted frame and two with integrity alone come in, and one with integrity alone goes out.
fn carried(
    rt: &impl Abort,
    alloc: Global,
    desk: &mut ControlDesk<Asker<'_, impl Abort>, NoMetrics, AtTen>,
) {
    let mut there = opened(rt, formatted(rt, alloc, THERE, 4));
    let mut here = opened(rt, formatted(rt, alloc, OWN, 4));
    let mut controlled = MemWire::new(alloc);
    let mut common = MemWire::new(alloc);
    command(rt, &mut here, Command::RxAdd { sci: THERE });
    receive_under(rt, &mut here, 1, 7);
    receive_under(rt, &mut here, 3, 8);
    send_under(rt, &mut here, 2, 9, false);
    send_under(rt, &mut there, 1, 7, true);
    push_protected(rt, &mut there, &mut common);
    send_under(rt, &mut there, 3, 8, false);
    push_protected(rt, &mut there, &mut common);
    push_protected(rt, &mut there, &mut common);
    assert!(rt; controlled.push(&PLAIN).is_ok());
    let told = attend(&mut here, &mut controlled, &mut common, desk, 80);
    assert!(rt; told.is_ok());
}

/// By hand: each plain frame has 60 octets, of which twelve are addresses.
const TOLD: &str = "\
5 tx 2 protected frames 1 octets 48
rx 0200000000020001 1 decrypted frames 1 octets 48
rx 0200000000020001 3 validated frames 2 octets 96
last-good 10
5 end 0
";

#[test]
fn what_frames_carried_is_told(rt: HostRuntime) {
    let mut desk = ControlDesk::new(
        report_paper(rt.alloc()).expect(&rt, "memory"),
        program(&rt, rt.alloc()),
        Asker::new(&rt, rt.alloc(), "traffic"),
        NoMetrics,
        AtTen,
    );
    carried(&rt, rt.alloc(), &mut desk);
    expect_told(&rt, desk, TOLD);
}
