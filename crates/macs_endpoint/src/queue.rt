//! Commands that wait for their turn, and what is under way.

ghost use Rattle.std.specs.Prelude.{◌≡◌, ◌≤◌, ◌↔◌, [], ◌∷◌, IsTrue, None, Some, length};
ghost use Rattle.macs_endpoint.specs.Queue.{QueueValue, Queues, first_command, first_waiting};

use crate::fault::SubmitFault;
use crate::refilling::Raise;
use crate::under_way::UnderWay;
use arrayvec::ArrayVec;
use macs_config::{Command, Validate};
use std::marker::Model;

/// How many commands may be pending, including the one under way.
pub const QUEUE: usize = 16;

/// Identifies a submitted command: tickets count from 1 in each life, and none is given twice.
#[derive(Clone, Copy, Debug, PartialEq, Eq)]
pub struct Ticket(u64);

impl Model for Ticket {
    ghost use Rattle.std.specs.Prelude.{ℕ};

    ghost Value = { ℕ };

    ghost view = { λ t. t.0 };

    ghost invariant = { λ t. Unit {0} };

    ghost inverse = { λ n. record { 0 = n } };
}

impl Ticket {
    /// Its number, from 1 on.
    pub fn get(self) -> u64
        ensures { result ≡ self }
    {
        let Ticket(number) = self;
        number
    }
}

/// A pending command, and its ticket.
#[derive(Clone, Copy)]
pub struct Waiting {
    pub ticket: Ticket,
    pub command: Command,
}

impl Default for Waiting {
    ghost use Rattle.macs_config.specs.declared.command.Command.TheVariants.{SetValidate};
    ghost use Rattle.macs_config.specs.declared.command.Validate.TheVariants.{Strict};

    /// The first setting of a new configuration, with a ticket that is never given.
    fn default() -> Waiting
        ensures { result ≡ record { ticket = 0; command = SetValidate Strict } }
    {
        Waiting {
            ticket: Ticket(0),
            command: Command::SetValidate(Validate::Strict),
        }
    }
}

/// The pending commands, in order, what is under way, and how many tickets were given. A pending
/// command that is under way is the first, and is not copied here.
#[derive(Drop)]
pub(crate) struct Queue {
    waiting: ArrayVec<Waiting, QUEUE>,
    under_way: UnderWay,
    given: u64,
}

impl Model for Queue {
    ghost use Rattle.std.specs.Prelude.{◌≤◌, length};
    ghost use Rattle.macs_endpoint.specs.Queue.{QueueValue, IsUnderWayIn, last_ticket};
    ghost use Rattle.macs_endpoint.specs.Queue.{queue_length};
    ghost use Rattle.macs_endpoint.specs.Queue.{queue_of};

    ghost Value = { QueueValue };

    ghost view = { λ q. queue_of q.waiting.items q.under_way q.given };

    ghost invariant = { λ q. (length q.waiting.items ≤ queue_length) × (q.given ≤ last_ticket)
        × IsUnderWayIn q.waiting.items q.under_way };
}

impl Queue {
    /// No command is pending, nothing is under way, and no ticket was given.
    pub(crate) fn new() -> Queue
        ensures { result ≡ record { waiting = []; given = 0; under_way = None; reserving = None } }
    {
        Queue {
            waiting: ArrayVec::new(),
            under_way: UnderWay::Nothing,
            given: 0,
        }
    }

    /// Whether no command is pending.
    pub(crate) fn is_empty(&self) -> bool
        ensures { IsTrue result ↔ (self.now.waiting ≡ []) }
    {
        self.waiting.is_empty()
    }

    /// The pending commands, in order.
    pub(crate) fn as_slice(&self) -> &[Waiting]
        ensures { result.now ≡ self.now.waiting }
    {
        self.waiting.as_slice()
    }

    /// The first pending command, `None` if there is none.
    pub(crate) fn first(&self) -> Option<Waiting>
        ensures { result ≡ first_waiting self.now.waiting }
    {
        self.waiting.as_slice().first().copied()
    }

    /// The command under way.
    pub(crate) fn command(&self) -> Option<Command>
        ensures { result ≡ self.now.under_way }
    {
        match self.under_way {
            UnderWay::Nothing => None,
            UnderWay::Raise(_) => None,
            UnderWay::First => Some(self.first()?.command),
            UnderWay::Cut(command) => Some(command),
        }
    }

    /// The ceiling that is being raised.
    pub(crate) fn raise(&self) -> Option<Raise>
        ensures { result ≡ self.now.reserving }
    {
        match self.under_way {
            UnderWay::Nothing => None,
            UnderWay::Raise(raise) => Some(raise),
            UnderWay::First => None,
            UnderWay::Cut(_) => None,
        }
    }

    /// Adds a command at the end and returns its ticket. Fails with `QueueFull`, then with
    /// `TicketsSpent`.
    pub(crate) fn push(&mut self, command: Command) -> Result<Ticket, SubmitFault>
        ensures { Queues self.old command result self.new }
    {
        if self.waiting.is_full() {
            return Err(SubmitFault::QueueFull);
        }
        let Some(given) = self.given.checked_add(1) else {
            return Err(SubmitFault::TicketsSpent);
        };
        let ticket = Ticket(given);
        self.given = given;
        self.waiting.push(Waiting { ticket, command });
        Ok(ticket)
    }

    /// Begins to raise a ceiling.
    pub(crate) fn begin_raise(&mut self, raise: Raise)
        ensures { self.new ≡ record self.old { under_way = None; reserving = Some raise } }
    {
        self.under_way = UnderWay::Raise(raise);
    }

    /// Begins to keep the first pending command.
    pub(crate) fn begin_first(&mut self)
        requires { 1 ≤ length self.old.waiting }
        ensures { self.new
            ≡ record self.old { under_way = first_command self.old.waiting; reserving = None } }
    {
        self.under_way = UnderWay::First;
    }

    /// A command that did not wait is cut short.
    pub(crate) fn cut(&mut self, command: Command)
        ensures { self.new ≡ record self.old { under_way = Some command; reserving = None } }
    {
        self.under_way = UnderWay::Cut(command);
    }

    /// The ceiling that is being raised, which is then no longer under way.
    pub(crate) fn end_raise(&mut self) -> Option<Raise>
        ensures value { result ≡ self.old.reserving }
        ensures after { self.new ≡ record self.old { reserving = None } }
    {
        let raise = self.raise()?;
        self.under_way = UnderWay::Nothing;
        Some(raise)
    }

    /// Removes the first command. The queue is not empty. Nothing is under way then.
    pub(crate) fn pop(&mut self) -> Waiting
        requires { 1 ≤ length self.old.waiting }
        ensures waiting { self.old.waiting ≡ result ∷ self.new.waiting }
        ensures after { self.new ≡ record self.old {
          waiting = self.new.waiting;
          under_way = None;
          reserving = None;
        } }
    {
        self.under_way = UnderWay::Nothing;
        self.waiting.remove(0)
    }
}
