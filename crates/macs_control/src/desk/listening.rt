//! When a desk listens to its clients.

ghost use Rattle.std.specs.Prelude.{◌≡◌, List};
ghost use Rattle.macs_commands.specs.InTurn.{InTurn};
ghost use Rattle.macs_commands.specs.Talks.{Talk};
ghost use Rattle.macs_control.specs.Listening.{Listens, Looks, is_time, report_room, reports_of};
ghost use Rattle.macs_control.specs.Listening.{sleep_after};
ghost use Rattle.macs_control.specs.Listening.{turns_between};

use crate::desk::answering::read;
use crate::desk::key_notes::KeyNotes;
use crate::desk::overruns::Overruns;
use macs_commands::Paper;
use macs_commands::requests::{Client, Clients};
use macs_disk::SectorDisk;
use macs_edge::{Order, WireCounts};
use macs_endpoint::Endpoint;
use macs_texts::Program;

/// How many turns pass without a look at the clients, if none of them is quiet.
pub const TURNS_BETWEEN: u8 = 63;

/// Whether it is time to look at the clients, if `left` more turns may pass without it.
pub fn is_time(was_quiet: bool, left: u8) -> bool
    ensures { result ≡ is_time was_quiet left }
{
    was_quiet || left == 0
}

/// How many turns may pass without a look after this order: none after a command, since more may
/// follow.
pub fn turns_between(order: &Order) -> u8
    ensures { result ≡ turns_between order.now }
{
    match order {
        Order::Submit(_) => 0,
        Order::Go | Order::End => TURNS_BETWEEN,
    }
}

/// Sleeps after a quiet turn.
pub fn rest<C: Clients>(was_quiet: bool, clients: &mut C)
    ensures { InTurn C.does clients.old (sleep_after was_quiet) clients.new }
{
    if was_quiet {
        clients.sleep();
    }
}

/// Takes the next line of a client, if there is one, and handles it. Its client is then the asking
/// client.
fn listen<D: SectorDisk, S: Overruns + KeyNotes, C: Clients>(
    paper: &mut Paper,
    program: &Program,
    endpoint: &Endpoint<D>,
    controlled: &WireCounts,
    common: &WireCounts,
    system: &S,
    clients: &mut C,
    asking: &mut Client,
) -> Order
    requires { paper.old.room ≡ report_room }
    ensures listens { (talk : List Talk)
        × Listens (reports_of program.now (S.known system.now) (S.answers system.now) endpoint.now
        controlled.now common.now)
        asking.old talk result asking.new
        × InTurn C.does clients.old talk clients.new }
    ensures room { paper.new.room ≡ report_room }
{
    match clients.hear() {
        Some(heard) => {
            *asking = heard.client;
            read(
                paper, program, endpoint, controlled, common, system, &heard, clients,
            )
        }
        None => Order::Go,
    }
}

/// Checks whether the process was asked to end, and listens, unless 16 commands are
/// unanswered.
pub fn look<D: SectorDisk, S: Overruns + KeyNotes, C: Clients>(
    paper: &mut Paper,
    program: &Program,
    endpoint: &Endpoint<D>,
    controlled: &WireCounts,
    common: &WireCounts,
    system: &S,
    is_full: bool,
    clients: &mut C,
    asking: &mut Client,
) -> Order
    requires { paper.old.room ≡ report_room }
    ensures looks { (talk : List Talk)
        × Looks is_full
        (reports_of program.now (S.known system.now) (S.answers system.now) endpoint.now
        controlled.now common.now)
        asking.old talk result asking.new
        × InTurn C.does clients.old talk clients.new }
    ensures room { paper.new.room ≡ report_room }
{
    if clients.is_ended() {
        return Order::End;
    }
    if is_full {
        return Order::Go;
    }
    listen(
        paper, program, endpoint, controlled, common, system, clients, asking,
    )
}
