//! Running a program over a disk whose power is never lost.

ghost use Rattle.std.specs.Prelude.{[]};
ghost use Rattle.macs_headline.specs.Binding.{IsNewDisk};
ghost use Rattle.macs_theorem.specs.Programs.{HearsExpected, HearsOrPassesOver, holds};

use crate::asking::Ask;
use crate::held::Held;
use crate::program::Program;
use crate::running::{call, show};
use macs_disk::SectorDisk;

/// Runs a program as `run` does, on a new disk whose power is never lost: what the program requests
/// of the power is passed over, and it hears nothing of it.
pub fn run_powered<D: SectorDisk, P: Program>(disk: D, program: &mut P, turns: u64) -> Held<D>
    requires new { IsNewDisk (D.disk disk) }
    requires fresh { P.keeps program.old [] }
    ensures { HearsExpected D.disk disk (P.keeps program.new) (holds result) }
{
    let mut held = Held::Disk(disk);
    for _ in 0..turns {
        let Some(ask) = program.ask() else {
            return held;
        };
        held = turn(held, ask, program);
    }
    held
}

/// One turn on a disk whose power is never lost.
fn turn<D: SectorDisk, P: Program>(held: Held<D>, ask: Ask, program: &mut P) -> Held<D>
    ensures { HearsOrPassesOver D.disk (holds held)
        (P.keeps program.old) (P.keeps program.new) (holds result) }
{
    match ask {
        Ask::Call(request) => call(held, request, program),
        Ask::Show => show(held, program),
        Ask::Power(_) => held,
    }
}
