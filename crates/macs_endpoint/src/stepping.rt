//! Work on the disk, one device call at a time, with frames and commands between.

ghost use Rattle.std.specs.Prelude.{◌≡◌, Some, None, IfSome, false};
ghost use Rattle.std.specs.Option.{option_map};
ghost use Rattle.macs_store.specs.Value.{IsIdle};
ghost use Rattle.macs_endpoint.specs.Advancing.{CallsAtOnce, ToKeep, ToRaise, next_due};
ghost use Rattle.macs_endpoint.specs.Calls.{IsCall, IsStep};
ghost use Rattle.macs_endpoint.specs.Halves.{Awaits, HasBegun};
ghost use Rattle.macs_endpoint.specs.KeptCommands.{StartsFirst};
ghost use Rattle.macs_endpoint.specs.Parts.{due_of, raise_of};
ghost use Rattle.macs_endpoint.specs.Queue.{first_waiting};
ghost use Rattle.macs_endpoint.specs.State.{Advanced, Advances, Submits, Submitted};
ghost use Rattle.macs_endpoint.specs.Value.{device_in, is_stopped};

use crate::endpoint::Endpoint;
use crate::fault::{CommandFault, StepFault, SubmitFault};
use crate::progress::Step;
use crate::queue::{Ticket, Waiting};
use crate::refilling::Raise;
use crate::turn::Turn;
use macs_config::Command;
use macs_config::laws::command_in_range;
use macs_disk::SectorDisk;
use macs_record::SECTOR;
use macs_store::CommitFault;

/// What is due on the disk.
pub enum Due {
    /// To raise a ceiling.
    Raise(Raise),
    /// To keep the first pending command.
    Keep(Waiting),
}

impl<D: SectorDisk> Endpoint<D> {
    /// Queues a command that will be kept when its turn comes, and returns the ticket with which
    /// `step` reports its result. Whether it fits the configuration is checked then. Fails with
    /// `Stopped`, then with `QueueFull` if 16 commands are pending, then with `TicketsSpent` if
    /// 2^64 - 1 tickets were given; these change nothing. No device call is made.
    pub fn submit(&mut self, command: Command) -> Result<Ticket, SubmitFault>
        ensures call { IsCall D.disk self.old (Submits command) (Submitted result) self.new }
    {
        command_in_range(&command);
        if self.is_stopped() {
            return Err(SubmitFault::Stopped);
        }
        self.queue.push(command)
    }

    /// Makes one device call of the pending work, or none if there is no work. Work under way
    /// continues; otherwise the reservation that is needed first begins, or the first pending
    /// command, in turns if there are both, starting with the reservation after an opening. A
    /// reservation or a command takes effect with the last device call of its work. Fails with
    /// `Stopped`; with `GenerationsSpent` if a reservation has its turn and needs a compaction that
    /// is not possible; and with `Disk` if the call fails: the endpoint is stopped, and the next
    /// opening finds what was under way or not.
    pub fn step(&mut self) -> Result<Step, StepFault>
        ensures call { IsCall D.disk self.old Advances (Advanced result) self.new }
        ensures at_once { CallsAtOnce D.disk self.old result self.new }
    {
        if let Some(answer) = self.begin() {
            return answer;
        }
        let Some(call) = self.next_call() else {
            return Ok(Step::Idle); // Not reached.
        };
        let mut read = [0; SECTOR];
        let answer = self.make(&call, &mut read);
        self.did_call(&read, answer)
    }

    /// Makes one device call of the pending work as `step` does, but does not wait for its answer:
    /// `None` as long as that is not there. Work is under way then, which begins now if none was
    /// before, and nothing else changes. The next `try_step` continues with the same device call;
    /// frames and commands may pass before it. Over a prompt disk it is a `step`.
    pub fn try_step(&mut self) -> Option<Result<Step, StepFault>>
        ensures stepped { IfSome result (λ answer. IsStep D.disk self.old answer self.new) }
        ensures waits { result ≡ None → Awaits D.disk self.old self.new }
    {
        if let Some(answer) = self.begin() {
            return Some(answer);
        }
        let Some(call) = self.next_call() else {
            return Some(Ok(Step::Idle)); // Not reached.
        };
        let mut read = [0; SECTOR];
        match self.try_make(&call, &mut read) {
            Some(answer) => Some(self.did_call(&read, answer)),
            None => None,
        }
    }

    /// Begins what is due, unless work is under way, and makes no device call: the first part of a
    /// `step`. `None` if work is under way then: `next_call` returns the call that it needs.
    /// Otherwise the answer of a step that is complete without one: `Stopped`, `Idle`, `Done` with
    /// a command that is not kept, or `GenerationsSpent`. If it begins work, that is a call like
    /// any other, which returns `Worked`; if work was under way already nothing changes.
    pub fn begin(&mut self) -> Option<Result<Step, StepFault>>
        ensures ended { IfSome result (λ answer. IsStep D.disk self.old answer self.new) }
        ensures begun { result ≡ None → HasBegun D.disk self.old self.new }
        ensures device { device_in self.new ≡ device_in self.old }
    {
        if self.is_stopped() {
            return Some(Err(StepFault::Stopped));
        }
        if !self.store.is_idle() {
            return None;
        }
        match self.next_due() {
            Some(Due::Raise(raise)) => self.begin_raise(raise),
            Some(Due::Keep(first)) => self.begin_command(first),
            None => Some(Ok(Step::Idle)),
        }
    }

    /// What is due next: that whose turn it is if there are both, otherwise the only one.
    fn next_due(&self) -> Option<Due>
        ensures { option_map due_of result ≡ next_due self.now }
    {
        match (self.first_raise(), self.queue.first()) {
            (Some(raise), Some(first)) => match self.turn {
                Turn::Reservation => Some(Due::Raise(raise)),
                Turn::Command => Some(Due::Keep(first)),
            },
            (Some(raise), None) => Some(Due::Raise(raise)),
            (None, Some(first)) => Some(Due::Keep(first)),
            (None, None) => None,
        }
    }

    /// Starts a reservation, or fails with `GenerationsSpent`.
    fn begin_raise(&mut self, raise: Raise) -> Option<Result<Step, StepFault>>
        requires running { is_stopped self.old ≡ false }
        requires idle { IsIdle self.old.store }
        requires next { next_due self.old ≡ Some (ToRaise (raise_of raise)) }
        ensures ended { IfSome result (λ answer. IsStep D.disk self.old answer self.new) }
        ensures begun { result ≡ None → HasBegun D.disk self.old self.new }
        ensures device { device_in self.new ≡ device_in self.old }
    {
        if self.start_raise(raise).is_err() {
            self.turn = Turn::Command;
            return Some(Err(StepFault::GenerationsSpent));
        }
        None
    }

    /// Starts the first pending command, or reports why it is not kept.
    fn begin_command(&mut self, first: Waiting) -> Option<Result<Step, StepFault>>
        requires running { is_stopped self.old ≡ false }
        requires idle { IsIdle self.old.store }
        requires next { next_due self.old ≡ Some (ToKeep first) }
        ensures ended { IfSome result (λ answer. IsStep D.disk self.old answer self.new) }
        ensures begun { result ≡ None → HasBegun D.disk self.old self.new }
        ensures device { device_in self.new ≡ device_in self.old }
    {
        command_in_range(&first.command);
        if let Err(fault) = self.start_first(first) {
            self.queue.pop();
            self.turn = Turn::Reservation;
            return Some(Ok(Step::Done(first.ticket, Err(CommandFault::from(fault)))));
        }
        None
    }

    /// Starts the first pending command, and makes no device call. Fails as the store does.
    fn start_first(&mut self, first: Waiting) -> Result<(), CommitFault>
        requires running { is_stopped self.old ≡ false }
        requires idle { IsIdle self.old.store }
        requires waits { first_waiting self.old.waiting ≡ Some first }
        ensures { StartsFirst D.disk self.old first result self.new }
    {
        command_in_range(&first.command);
        self.store.start_commit(&first.command)?;
        self.queue.begin_first();
        Ok(())
    }
}
