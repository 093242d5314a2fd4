//! The desk.

ghost use Rattle.std.specs.Prelude.{◌≡◌, [], List, IfOk};
ghost use Rattle.macs_commands.specs.InTurn.{InTurn};
ghost use Rattle.macs_commands.specs.Talks.{Note, Talk};
ghost use Rattle.macs_control.specs.LastGood.{NotesGoodIf, good_after, good_frames};
ghost use Rattle.macs_control.specs.Listening.{LooksIf, MeasuresIf, is_time, measured_of};
ghost use Rattle.macs_control.specs.Listening.{report_room, reports_of};
ghost use Rattle.macs_control.specs.Listening.{said_of_ending, said_of_taking, turns_left};
ghost use Rattle.macs_control.specs.Listening.{unanswered_after};
ghost use Rattle.macs_rxsc.specs.Value as rxsc;
ghost use Rattle.macs_control.specs.Unanswered.{entries_of, is_full, without};

use crate::desk::key_notes::KeyNotes;
use crate::desk::last_good::{Time, good_frames, note_good};
use crate::desk::listening::{TURNS_BETWEEN, is_time, look, rest, turns_between};
use crate::desk::metrics::measure;
use crate::desk::overruns::Overruns;
use crate::desk::replies::{ended, not_taken};
use crate::desk::unanswered::{Submitted, Unanswered};
use macs_commands::Paper;
use macs_commands::requests::{Client, Clients, Metrics};
use macs_disk::SectorDisk;
use macs_edge::{CommandEnd, Counted, Desk, Order, Wire};
use macs_endpoint::{Endpoint, SubmitFault, Ticket};
use macs_texts::{Program, REPORT_ROOM};
use std::alloc::{AllocError, Global};

/// A desk that serves clients. It listens to them after each quiet turn, preceded by a sleep, and
/// otherwise at each 64th turn, and then takes one line; after a command it listens again before
/// the next turn. Reports are answered at once. A command is submitted once its key is noted, and
/// its client is answered once it is done: `ok` only after it is kept. While 16 commands are
/// unanswered, no line is taken. `stop` ends the relay, as does a request to end the
/// process.
///
/// Nothing that clients do delays a frame: no call waits for a client. A client that goes away
/// loses its answers, but none of its commands that were taken.
#[derive(Drop)]
pub struct ControlDesk<C, M, S> {
    /// Where requests are compared and reports are written.
    paper: Paper,
    program: Program,
    clients: C,
    metrics: M,
    system: S,
    unanswered: Unanswered,
    /// The client whose line was taken last.
    asking: Client,
    /// How many frames had verified at the last look.
    good: u64,
    /// How many turns may pass before it looks after its clients, if none of them is quiet.
    turns_left: u8,
    ghost room: { paper.room ≡ report_room },
}

/// The paper of a desk, with room for each report. Fails if memory is refused.
pub fn report_paper(alloc: Global) -> Result<Paper, AllocError>
    ensures { IfOk result (λ paper. paper.room ≡ report_room) }
{
    Paper::new(alloc, REPORT_ROOM)
}

impl<C: Clients, M: Metrics, S: Overruns + KeyNotes> ControlDesk<C, M, S> {
    /// A desk for this run of the program, with no unanswered command. Its requests and reports
    /// need no more memory than this paper.
    pub fn new(
        paper: Paper,
        program: Program,
        clients: C,
        metrics: M,
        system: S,
    ) -> ControlDesk<C, M, S>
        requires { paper.room ≡ report_room }
        ensures program { result.program ≡ program }
        ensures clients { result.clients ≡ clients }
        ensures metrics { result.metrics ≡ metrics }
        ensures system { result.system ≡ system }
        ensures none { entries_of result.unanswered ≡ [] }
        ensures good { result.good ≡ 0 }
        ensures turns { result.turns_left ≡ 63 }
    {
        ControlDesk {
            paper,
            program,
            clients,
            metrics,
            system,
            unanswered: Unanswered::new(),
            asking: Client::default(),
            good: 0,
            turns_left: TURNS_BETWEEN,
        }
    }
}

impl<C, M, S: Drop> ControlDesk<C, M, S> {
    /// The clients, and where the metrics are written.
    pub fn into_parts(self) -> (C, M)
        ensures clients { result.0 ≡ self.clients }
        ensures metrics { result.1 ≡ self.metrics }
    {
        let ControlDesk {
            clients,
            metrics,
            ..
        } = self;
        (clients, metrics)
    }
}

impl<
    D: SectorDisk,
    P: Wire + Counted,
    W: Wire + Counted,
    C: Clients,
    M: Metrics,
    S: Overruns + KeyNotes + Time,
> Desk<D, P, W> for ControlDesk<C, M, S> {
    ghost use Rattle.macs_control.specs.Serving.{SpeaksToClients};
    ghost use Rattle.macs_edge.specs.declared.attending.DeskEvent.TheVariants.{Answered, Rested};
    ghost use Rattle.macs_edge.specs.declared.attending.DeskEvent.TheVariants.{Took, Wanted};

    ghost hears = { λ old event new. SpeaksToClients C.does old event new };

    fn next(&mut self, endpoint: &Endpoint<D>, controlled: &P, common: &W, was_quiet: bool) -> Order
        ensures talk { (talk : List Talk)
            × LooksIf (is_time was_quiet self.old.turns_left) was_quiet
            (is_full (entries_of self.old.unanswered))
            (reports_of self.new.program (S.known self.old.system) (S.answers self.old.system)
            endpoint.now (P.wire_counts controlled.now) (W.wire_counts common.now))
            self.old.asking talk result self.new.asking
            × InTurn C.does self.old.clients talk self.new.clients }
        ensures notes { (notes : List Note)
            × MeasuresIf (is_time was_quiet self.old.turns_left) (S.known self.old.system)
            (measured_of self.old.program.build endpoint.now (P.wire_counts controlled.now)
            (W.wire_counts common.now))
            notes
            × InTurn M.does self.old.metrics notes self.new.metrics }
        ensures last_good { NotesGoodIf (is_time was_quiet self.old.turns_left)
            (S.time self.old.system) self.old.good
            (good_frames (rxsc.counters_of endpoint.now.rx))
            self.old.program.last_good self.new.program.last_good }
        ensures good { self.new.good ≡ good_after (is_time was_quiet self.old.turns_left)
            self.old.good (good_frames (rxsc.counters_of endpoint.now.rx)) }
        ensures program { self.new.program
            ≡ record self.old.program { last_good = self.new.program.last_good } }
        ensures system { self.new.system ≡ self.old.system }
        ensures unanswered { entries_of self.new.unanswered ≡ entries_of self.old.unanswered }
        ensures turns { self.new.turns_left
            ≡ turns_left (is_time was_quiet self.old.turns_left) self.old.turns_left result }
        ensures hears { SpeaksToClients C.does self.old (Wanted was_quiet result) self.new }
    {
        if !is_time(was_quiet, self.turns_left) {
            self.turns_left = self.turns_left.saturating_sub(1);
            return Order::Go;
        }
        let good = good_frames(endpoint);
        note_good(&mut self.program, self.good, good, &self.system);
        self.good = good;
        let controlled = controlled.counts();
        let common = common.counts();
        rest(was_quiet, &mut self.clients);
        measure(
            &mut self.paper,
            &self.program.build,
            endpoint,
            &controlled,
            &common,
            &self.system,
            &mut self.metrics,
        );
        let order = look(
            &mut self.paper,
            &self.program,
            endpoint,
            &controlled,
            &common,
            &self.system,
            self.unanswered.is_full(),
            &mut self.clients,
            &mut self.asking,
        );
        self.turns_left = turns_between(&order);
        order
    }

    fn took(&mut self, answer: Result<Ticket, SubmitFault>)
        ensures talk { InTurn C.does self.old.clients (said_of_taking self.old.asking answer)
            self.new.clients }
        ensures program { self.new.program ≡ self.old.program }
        ensures system { self.new.system ≡ self.old.system }
        ensures metrics { self.new.metrics ≡ self.old.metrics }
        ensures unanswered { entries_of self.new.unanswered
            ≡ unanswered_after (entries_of self.old.unanswered) self.old.asking answer }
        ensures asking { self.new.asking ≡ self.old.asking }
        ensures good { self.new.good ≡ self.old.good }
        ensures turns { self.new.turns_left ≡ self.old.turns_left }
        ensures hears { SpeaksToClients C.does self.old (Took answer) self.new }
    {
        match answer {
            Ok(ticket) => self.unanswered.join(Submitted {
                ticket: ticket.get(),
                client: self.asking,
            }),
            Err(fault) => self.clients.say(self.asking, not_taken(fault).as_slice()),
        }
    }

    fn answered(&mut self, ticket: Ticket, end: CommandEnd)
        ensures talk { InTurn C.does self.old.clients
            (said_of_ending (entries_of self.old.unanswered) ticket end) self.new.clients }
        ensures program { self.new.program ≡ self.old.program }
        ensures system { self.new.system ≡ self.old.system }
        ensures metrics { self.new.metrics ≡ self.old.metrics }
        ensures unanswered { entries_of self.new.unanswered
            ≡ without (entries_of self.old.unanswered) ticket }
        ensures asking { self.new.asking ≡ self.old.asking }
        ensures good { self.new.good ≡ self.old.good }
        ensures turns { self.new.turns_left ≡ self.old.turns_left }
        ensures hears { SpeaksToClients C.does self.old (Answered ticket end) self.new }
    {
        match self.unanswered.leave(ticket.get()) {
            Some(client) => self.clients.say(client, ended(end).as_slice()),
            None => {}
        }
    }

    /// It rests in `next`, before it looks after its clients.
    fn rest(&mut self)
        ensures same { self.new ≡ self.old }
        ensures hears { SpeaksToClients C.does self.old Rested self.new }
    {}

    fn pause(&mut self) {
        self.system.pause();
    }
}
