//! A life: the script is played until a device call fails.

use super::frames::{PLAIN, peers_frame};
use super::known::Known;
use super::script::{Part, REFUSED, SCRIPT, command_of, window_of};
use macs_config::Command;
use macs_disk::SectorDisk;
use macs_endpoint::{CommandFault, Endpoint, ProtectFault, RestFault, Step, StepFault};
use macs_frame::{FrameBuf, Pn};
use macs_rxsc::{Kind, Verdict};
use macs_txsc::TxFault;
use std::process::Abort;

/// More steps than any work takes.
const MOST_STEPS: u32 = 700;

/// A device call failed.
#[derive(Clone, Copy)]
pub(super) struct Stopped;

/// Plays the script. Stopped where a device call fails.
pub(super) fn play<D: SectorDisk>(
    rt: &impl Abort,
    endpoint: &mut Endpoint<D>,
    known: &mut Known,
) -> Result<(), Stopped> {
    for part in SCRIPT {
        take(rt, endpoint, known, part)?;
    }
    Ok(())
}

/// Plays one part of a script.
pub(super) fn take<D: SectorDisk>(
    rt: &impl Abort,
    endpoint: &mut Endpoint<D>,
    known: &mut Known,
    part: Part,
) -> Result<(), Stopped> {
    match part {
        Part::Keeps(asked) => keep(rt, endpoint, known, command_of(rt, asked)),
        Part::Spends(asked) => spend(rt, endpoint, command_of(rt, asked)),
        Part::Passes(frames) => pass(rt, endpoint, known, frames),
        Part::Windows(count) => keep_windows(rt, endpoint, known, count),
        Part::Settles => settle(rt, endpoint),
        Part::Rests => rest(rt, endpoint),
    }
}

/// One step.
pub(super) fn step<D: SectorDisk>(
    rt: &impl Abort,
    endpoint: &mut Endpoint<D>,
) -> Result<Step, Stopped> {
    match endpoint.step() {
        Ok(step) => Ok(step),
        Err(fault) => {
            assert!(rt; fault == StepFault::Disk);
            Err(Stopped)
        }
    }
}

/// Submits a command and steps until it is done with: what became of it.
pub(super) fn command<D: SectorDisk>(
    rt: &impl Abort,
    endpoint: &mut Endpoint<D>,
    command: Command,
) -> Result<Result<(), CommandFault>, Stopped> {
    assert!(rt; endpoint.submit(command).is_ok());
    for _ in 0..MOST_STEPS {
        if let Step::Done(_, answer) = step(rt, endpoint)? {
            return Ok(answer);
        }
    }
    panic!(rt; "a command without an end")
}

/// A command is kept.
fn keep<D: SectorDisk>(
    rt: &impl Abort,
    endpoint: &mut Endpoint<D>,
    known: &mut Known,
    asked: Command,
) -> Result<(), Stopped> {
    assert!(rt; known.after.apply(&asked).is_ok());
    let answer = command(rt, endpoint, asked)?;
    assert!(rt; answer.is_ok());
    assert!(rt; known.before.apply(&asked).is_ok());
    Ok(())
}

/// A command is refused.
fn spend<D: SectorDisk>(
    rt: &impl Abort,
    endpoint: &mut Endpoint<D>,
    asked: Command,
) -> Result<(), Stopped> {
    let answer = command(rt, endpoint, asked)?;
    assert!(rt; answer == Err(CommandFault::Refused(REFUSED)));
    Ok(())
}

fn keep_windows<D: SectorDisk>(
    rt: &impl Abort,
    endpoint: &mut Endpoint<D>,
    known: &mut Known,
    count: u32,
) -> Result<(), Stopped> {
    for window in 1..=count {
        keep(rt, endpoint, known, window_of(window))?;
    }
    Ok(())
}

/// The next packet numbers become the ceilings.
fn rest<D: SectorDisk>(rt: &impl Abort, endpoint: &mut Endpoint<D>) -> Result<(), Stopped> {
    match endpoint.rest() {
        Ok(()) => Ok(()),
        Err(fault) => {
            assert!(rt; fault == RestFault::Disk);
            Err(Stopped)
        }
    }
}

/// Steps until there is nothing to do.
fn settle<D: SectorDisk>(rt: &impl Abort, endpoint: &mut Endpoint<D>) -> Result<(), Stopped> {
    for _ in 0..MOST_STEPS {
        if let Step::Idle = step(rt, endpoint)? {
            return Ok(());
        }
    }
    panic!(rt; "work without an end")
}

/// Frames go both ways, one step after each.
fn pass<D: SectorDisk>(
    rt: &impl Abort,
    endpoint: &mut Endpoint<D>,
    known: &mut Known,
    frames: u32,
) -> Result<(), Stopped> {
    for _ in 0..frames {
        send(rt, endpoint, known)?;
        step(rt, endpoint)?;
        deliver(rt, endpoint, known)?;
        step(rt, endpoint)?;
    }
    Ok(())
}

/// The packet number that a plain frame goes out under.
pub(super) fn protect<D: SectorDisk>(endpoint: &mut Endpoint<D>) -> Result<u32, ProtectFault> {
    let mut out = FrameBuf::new();
    endpoint.protect(PLAIN, &mut out).map(Pn::get)
}

/// A plain frame goes out, after steps where it waits for a packet number.
fn send<D: SectorDisk>(
    rt: &impl Abort,
    endpoint: &mut Endpoint<D>,
    known: &mut Known,
) -> Result<(), Stopped> {
    for _ in 0..MOST_STEPS {
        match protect(endpoint) {
            Ok(number) => {
                known.passed.send(rt, endpoint.config(), number);
                return Ok(());
            }
            Err(fault) => {
                assert!(rt; fault == ProtectFault::Tx(TxFault::NoNumber));
                step(rt, endpoint)?;
            }
        }
    }
    panic!(rt; "a frame without a packet number")
}

/// Whether the peer's frame with this packet number is delivered as Ok.
pub(super) fn receive<D: SectorDisk>(
    rt: &impl Abort,
    endpoint: &mut Endpoint<D>,
    number: u32,
) -> bool {
    let frame = peers_frame(rt, number);
    let mut out = FrameBuf::new();
    let answer = endpoint.receive(frame.as_slice(), &mut out);
    assert!(rt; answer.is_ok());
    answer == Ok(Verdict::Delivered(Kind::Ok))
}

/// The peer's next frame is delivered, after steps where it is held back.
fn deliver<D: SectorDisk>(
    rt: &impl Abort,
    endpoint: &mut Endpoint<D>,
    known: &mut Known,
) -> Result<(), Stopped> {
    let number = known.passed.delivered.saturating_add(1);
    for _ in 0..MOST_STEPS {
        if receive(rt, endpoint, number) {
            known.passed.delivered = number;
            return Ok(());
        }
        step(rt, endpoint)?;
    }
    panic!(rt; "a frame that is never delivered")
}
