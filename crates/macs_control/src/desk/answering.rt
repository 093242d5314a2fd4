//! How a line of a client is handled.

ghost use Rattle.std.specs.Prelude.{◌≡◌, ◌≤◌, ℕ, List, Result, IfSome, length};
ghost use Rattle.macs_edge.specs.declared.attending.Order.TheVariants.{Go};
ghost use Rattle.macs_commands.specs.InTurn.{InTurn};
ghost use Rattle.macs_commands.specs.Papers.{IsWritten, Writes, blank};
ghost use Rattle.macs_commands.specs.Talks.{Talk};
ghost use Rattle.macs_control.specs.Listening.{Answers, HandsIn, IsKnown, IsRead, Reads};
ghost use Rattle.macs_control.specs.Listening.{counted_of, report_room, reports_of, told};
ghost use Rattle.macs_control.specs.declared.desk.key_notes.NoteFault.{NoteFault};
ghost use Rattle.macs_control.specs.declared.desk.overruns.Dropped.{Dropped};

use crate::desk::key_notes::KeyNotes;
use crate::desk::overruns::{Dropped, Overruns};
use crate::desk::replies::{DONE, NO_REQUEST, TOO_LONG, not_noted};
use macs_commands::Paper;
use macs_commands::requests::{Client, Clients, Heard, Request, request_of_line};
use macs_config::Command;
use macs_disk::SectorDisk;
use macs_edge::{Order, WireCounts};
use macs_endpoint::Endpoint;
use macs_texts::{
    Program, about_lines, counter_lines, keys_lines, reported, show_lines, traffic_lines,
};

/// Parses a request from a line; `None` if it is not UTF-8, or not a request. The paper is blank
/// after a request.
fn request_of(paper: &mut Paper, line: &[u8]) -> Option<Request>
    requires { length line.now ≤ paper.old.room }
    ensures read { IsRead line.now result }
    ensures blank { IfSome result (λ request. paper.new ≡ blank paper.old.room) }
    ensures room { paper.new.room ≡ paper.old.room }
{
    match str::from_utf8(line) {
        Ok(text) => request_of_line(paper, text),
        Err(_) => None,
    }
}

/// Sends a report to a client, followed by the end of the answer, and returns the desk's order: the
/// relay continues. A report that is too long is not sent.
fn tell<C: Clients>(clients: &mut C, client: Client, report: &Paper) -> Order
    requires { report.now.room ≡ report_room }
    ensures order { result ≡ Go }
    ensures told { (text : List ℕ) → IsWritten report.now text
        → InTurn C.does clients.old (told client text) clients.new }
{
    match report.text() {
        Some(text) => {
            clients.say(client, text);
            clients.say(client, DONE.as_bytes());
            Order::Go
        }
        None => {
            clients.say(client, TOO_LONG.as_bytes());
            Order::Go
        }
    }
}

/// Writes the counters, with what the system dropped.
fn count<D: SectorDisk, O: Overruns>(
    paper: &mut Paper,
    endpoint: &Endpoint<D>,
    controlled: &WireCounts,
    common: &WireCounts,
    overruns: &O,
)
    ensures { (dropped : Dropped) × IsKnown (O.known overruns.now) dropped
        × Writes paper.old paper.new
        (counted_of endpoint.now controlled.now common.now dropped) }
{
    let Dropped {
        controlled: first,
        common: second,
    } = overruns.dropped();
    let controlled = reported(*controlled, first);
    let common = reported(*common, second);
    counter_lines(paper, endpoint, &controlled, &common);
}

/// Submits a command once its key is noted, and returns the desk's order.
fn hand_in<K: KeyNotes, C: Clients>(
    notes: &K,
    client: Client,
    command: Command,
    clients: &mut C,
) -> Order
    ensures { (noted : Result (Unit {0}) NoteFault) × IsKnown (K.answers notes.now command) noted
        × (talk : List Talk) × HandsIn client command noted talk result
        × InTurn C.does clients.old talk clients.new }
{
    match notes.note(&command) {
        Ok(()) => Order::Submit(command),
        Err(fault) => {
            clients.say(client, not_noted(fault).as_slice());
            Order::Go
        }
    }
}

/// Answers a request, if it is answered at once, and returns the desk's order. Reports are written
/// on a blank paper.
fn answer<D: SectorDisk, S: Overruns + KeyNotes, C: Clients>(
    paper: &mut Paper,
    program: &Program,
    endpoint: &Endpoint<D>,
    controlled: &WireCounts,
    common: &WireCounts,
    system: &S,
    client: Client,
    request: Request,
    clients: &mut C,
) -> Order
    requires { paper.old ≡ blank report_room }
    ensures answers { (talk : List Talk)
        × Answers (reports_of program.now (S.known system.now) (S.answers system.now) endpoint.now
        controlled.now common.now)
        client request talk result
        × InTurn C.does clients.old talk clients.new }
    ensures room { paper.new.room ≡ report_room }
{
    match request {
        Request::Show => {
            show_lines(paper, endpoint);
            tell(clients, client, paper)
        }
        Request::Keys => {
            keys_lines(paper, endpoint.config());
            tell(clients, client, paper)
        }
        Request::Traffic => {
            traffic_lines(paper, endpoint, program.last_good);
            tell(clients, client, paper)
        }
        Request::About => {
            about_lines(paper, program);
            tell(clients, client, paper)
        }
        Request::Counters => {
            count(paper, endpoint, controlled, common, system);
            tell(clients, client, paper)
        }
        Request::Stop => {
            clients.say(client, DONE.as_bytes());
            Order::End
        }
        Request::Apply(command) => hand_in(system, client, command, clients),
    }
}

/// Handles a line, and returns the desk's order.
pub fn read<D: SectorDisk, S: Overruns + KeyNotes, C: Clients>(
    paper: &mut Paper,
    program: &Program,
    endpoint: &Endpoint<D>,
    controlled: &WireCounts,
    common: &WireCounts,
    system: &S,
    heard: &Heard,
    clients: &mut C,
) -> Order
    requires { paper.old.room ≡ report_room }
    ensures reads { (talk : List Talk)
        × Reads (reports_of program.now (S.known system.now) (S.answers system.now) endpoint.now
        controlled.now common.now)
        heard.now talk result
        × InTurn C.does clients.old talk clients.new }
    ensures room { paper.new.room ≡ report_room }
{
    let client = heard.client;
    match request_of(paper, heard.line.as_slice()) {
        Some(request) => answer(
            paper, program, endpoint, controlled, common, system, client, request, clients,
        ),
        None => {
            clients.say(client, NO_REQUEST.as_bytes());
            Order::Go
        }
    }
}
