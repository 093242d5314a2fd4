//! Running a program: its requests are met, and it hears the answers.

ghost use Rattle.std.specs.Prelude.{[]};
ghost use Rattle.macs_headline.specs.Binding.{IsNewDisk};
ghost use Rattle.macs_theorem.specs.Programs.{Hears, HearsExpected, holds};
ghost use Rattle.macs_theorem.specs.declared.asking.Ask.TheVariants as asked;
ghost use Rattle.macs_theorem.specs.declared.asking.Power.TheVariants as powered;

use crate::asking::{Ask, Power, Request};
use crate::calls::make_call;
use crate::held::{Held, into_disk};
use crate::power::PowerSupply;
use crate::program::Program;
use macs_disk::SectorDisk;
use macs_headline::PowerLoss;

/// Runs a program on a new disk, for at most this many turns, and returns what it holds in the end.
/// For any program, an observer expects all that it hears.
pub fn run<D: PowerSupply, P: Program>(disk: D, program: &mut P, turns: u64) -> Held<D>
    requires new { IsNewDisk (D.disk disk) }
    requires fresh { P.keeps program.old [] }
    ensures { HearsExpected D.disk disk (P.keeps program.new) (holds result) }
{
    let mut held = Held::Disk(disk);
    for _ in 0..turns {
        let Some(ask) = program.ask() else {
            return held;
        };
        held = turn(held, ask, program);
    }
    held
}

/// One turn.
fn turn<D: PowerSupply, P: Program>(held: Held<D>, ask: Ask, program: &mut P) -> Held<D>
    ensures { Hears D.disk (holds held) ask
        (P.keeps program.old) (P.keeps program.new) (holds result) }
{
    match ask {
        Ask::Call(request) => call(held, request, program),
        Ask::Show => show(held, program),
        Ask::Power(power) => turn_power(held, power, program),
    }
}

fn turn_power<D: PowerSupply, P: Program>(held: Held<D>, power: Power, program: &mut P) -> Held<D>
    ensures { Hears D.disk (holds held) (asked.Power power)
        (P.keeps program.old) (P.keeps program.new) (holds result) }
{
    match power {
        Power::LostIn(request) => lose_power_in(held, request, program),
        Power::Lost => lose_power(held, program),
        Power::LastsFor(calls) => supply_power(held, calls, program),
    }
}

pub(crate) fn call<D: SectorDisk, P: Program>(
    held: Held<D>,
    request: Request,
    program: &mut P,
) -> Held<D>
    ensures { Hears D.disk (holds held) (asked.Call request)
        (P.keeps program.old) (P.keeps program.new) (holds result) }
{
    let mut heard = None;
    let next = make_call(held, request, &mut heard);
    match heard {
        Some(heard) => {
            program.hear(&heard);
            next
        }
        None => next,
    }
}

pub(crate) fn show<D: SectorDisk, P: Program>(held: Held<D>, program: &mut P) -> Held<D>
    ensures { Hears D.disk (holds held) asked.Show
        (P.keeps program.old) (P.keeps program.new) (holds result) }
{
    match held {
        Held::Disk(disk) => Held::Disk(disk),
        Held::Endpoint(endpoint) => {
            program.see(&endpoint);
            Held::Endpoint(endpoint)
        }
    }
}

/// The call is made, and the power is lost before its answer is heard. Once the power is out,
/// device calls fail and change nothing, so what is left is what was there at the first failed
/// call.
fn lose_power_in<D: PowerLoss, P: Program>(
    held: Held<D>,
    request: Request,
    program: &mut P,
) -> Held<D>
    ensures { Hears D.disk (holds held) (asked.Power (powered.LostIn request))
        (P.keeps program.old) (P.keeps program.new) (holds result) }
{
    let mut heard = None;
    let next = make_call(held, request, &mut heard);
    match heard {
        Some(_heard) => {
            let left = into_disk(next).lose_power();
            program.cut();
            Held::Disk(left)
        }
        None => next,
    }
}

fn lose_power<D: PowerLoss, P: Program>(held: Held<D>, program: &mut P) -> Held<D>
    ensures { Hears D.disk (holds held) (asked.Power powered.Lost)
        (P.keeps program.old) (P.keeps program.new) (holds result) }
{
    let left = into_disk(held).lose_power();
    program.end();
    Held::Disk(left)
}

fn supply_power<D: PowerSupply, P: Program>(held: Held<D>, calls: u64, program: &mut P) -> Held<D>
    ensures { Hears D.disk (holds held) (asked.Power (powered.LastsFor calls))
        (P.keeps program.old) (P.keeps program.new) (holds result) }
{
    match held {
        Held::Disk(disk) => {
            let supplied = disk.power_for(calls);
            program.end();
            Held::Disk(supplied)
        }
        Held::Endpoint(endpoint) => Held::Endpoint(endpoint),
    }
}
