//! Programs that the theorem speaks of lose power between two frames, and at each device call of a
//! command. An endpoint is large, and the driver moves it: without optimisation, as by `rt try`,
//! these need some 9 MB of stack.

use super::OWN;
use crate::run_in_file;
use macs_aes::Key;
use macs_config::{Command, Identity};
use macs_disk::Layout;
use macs_frame::An;
use macs_theorem::{CutCommand, TwoNights, run_in_memory};
use std::alloc::Global;
use std::process::Abort;

/// More device calls than an opening and a command make.
const MANY: u64 = 300;

fn identity(rt: &impl Abort) -> Identity {
    Identity::new(OWN, 1_024, 16).expect(rt, "identity")
}

fn an(rt: &impl Abort) -> An {
    An::new(0).expect(rt, "an")
}

/// A transmit association, from packet number 1 on.
fn install(an: An) -> Command {
    Command::TxInstall {
        an,
        key: Key::Short([0x5A; 16]),
        start: 1,
        confidential: true,
        offset: 0,
    }
}

/// Whether the association is there after power that lasted for this many device calls.
fn is_found(rt: &impl Abort, alloc: Global, calls: u64) -> bool {
    let an = an(rt);
    let mut program = CutCommand::new(identity(rt), calls, install(an), an);
    let held = run_in_memory(alloc, &mut program, 20);
    assert!(rt; held.is_some());
    program.found.expect(rt, "opened again")
}

/// The first frame has the number that the association begins with. A restart begins at the
/// ceiling, which is a block above that.
#[test]
fn frames_around_a_power_loss(rt: HostRuntime) {
    let an = an(&rt);
    let mut program = TwoNights::new(identity(&rt), install(an), Command::TxUse { an });
    let held = run_in_memory(rt.alloc(), &mut program, 20);
    assert!(rt; held.is_some());
    assert!(rt; program.first.expect(&rt, "first").get() == 1);
    assert!(rt; program.second.expect(&rt, "second").get() == 1_025);
}

/// The numbers of the frames before and after the program asks that the power be lost, on a disk in
/// a file with this layout, whose power stays.
fn numbers_in_a_file(rt: &impl Abort, alloc: Global, layout: Layout) -> (u32, u32) {
    let an = an(rt);
    let mut program = TwoNights::new(identity(rt), install(an), Command::TxUse { an });
    let held = run_in_file(alloc, layout, &mut program, 20);
    assert!(rt; held.is_some());
    let first = program.first.expect(rt, "first").get();
    let second = program.second.expect(rt, "second").get();
    (first, second)
}

/// The endpoint goes on, so the second frame has the next number.
#[test]
fn frames_on_disks_in_files(rt: HostRuntime) {
    assert!(rt; numbers_in_a_file(&rt, rt.alloc(), Layout::Packed) == (1, 2));
    assert!(rt; numbers_in_a_file(&rt, rt.alloc(), Layout::Spaced) == (1, 2));
}

/// Power that ends before the command's last device call leaves no association, and power that
/// lasts longer leaves one.
#[test]
fn a_command_cut_by_a_power_loss(rt: HostRuntime) {
    let mut was_found = false;
    for calls in 0..MANY {
        let found = is_found(&rt, rt.alloc(), calls);
        assert!(rt; found || !was_found);
        was_found = found;
    }
    assert!(rt; was_found);
    assert!(rt; !is_found(&rt, rt.alloc(), 0));
}
