//! The client side: a line is sent, and the lines of the answer are read up to its end.

ghost use Rattle.std.specs.Prelude.{◌≡◌, ◌∷◌, ◌++◌, [], IfErr, IfOk, MatchOption, OnOk};
ghost use Rattle.macs_commands.specs.Requests.{end_line};
ghost use Rattle.macs_control.specs.Asking.{EndsAnswer};

use crate::connection::Connection;
use crate::seat::{Hearing, Seat};
use macs_commands::requests::{Client, Line, MAX_LINE, end_of_line};
use std::alloc::{AllocError, Global};
use std::str;

/// The most lines of an answer.
const MAX_LINES: usize = 65_536;

/// Why a relay gave no answer.
#[derive(Clone, Copy, Debug, PartialEq, Eq)]
pub enum AskFault {
    /// There is no memory for its answer.
    Memory,
    /// It went away, or its reply is not a valid answer.
    Gone,
}

impl From<AllocError> for AskFault {
    ghost use Rattle.std.specs.Prelude.{◌≡◌};
    ghost use Rattle.macs_control.specs.declared.asking.AskFault.TheVariants.{Memory};

    ghost from_gives = { λ _ fault. fault ≡ Memory };

    fn from(_error: AllocError) -> AskFault {
        AskFault::Memory
    }
}

/// An answer: its lines, each with its line feed, and the status that follows them.
#[derive(Drop)]
pub struct Answer {
    pub text: Vec<u8>,
    pub status: u8,
}

/// A client of a relay.
#[derive(Drop)]
pub struct Asker<S> {
    relay: Seat<S>,
}

/// The status in a line that ends an answer, `None` if it does not. Fails with `Memory`.
fn status_in(alloc: Global, line: &Line) -> Result<Option<u8>, AskFault>
    ensures read { IfOk result (λ found. MatchOption found (EndsAnswer line.now.items → ⊥)
        (λ status. line.now.items ≡ end_line status)) }
    ensures failed { IfErr result (λ fault. fault ≡ AskFault.Memory) }
{
    let Ok(text) = str::from_utf8(line.as_slice()) else {
        return Ok(None);
    };
    let status = end_of_line(alloc, text)?;
    Ok(status)
}

/// Appends a line and its line feed to a text.
fn put_line(text: &mut Vec<u8>, line: &Line) -> Result<(), AllocError>
    ensures { OnOk result (text.new.items ≡ text.old.items ++ (line.now.items ++ 10 ∷ [])) }
{
    text.extend_from_slice(line.as_slice())?;
    text.push(b'\n')?;
    Ok(())
}

impl<S: Connection> Asker<S> {
    ghost use Rattle.std.specs.Prelude.{◌≡◌, ◌++◌, ◌∷◌, [], ℕ, IfErr, IfOk, IfSome, List, None};
    ghost use Rattle.std.specs.Prelude.{OnOk};
    ghost use Rattle.macs_control.specs.Asking.{Outlives, OutlivesNot, Reads, ReadsAndFinds};
    ghost use Rattle.macs_control.specs.Asking.{ReadsAnswer, ReadsLine, ReadsNoEnd, ReadsNothing};
    ghost use Rattle.macs_control.specs.Asking.{ReadsSome};
    ghost use Rattle.macs_control.specs.Asking.{Sends, SendsSome};
    ghost use Rattle.macs_control.specs.Asking.{conversation_of, seat_of};
    ghost use Rattle.macs_control.specs.Seats.{connection_of, held_by};

    /// A client over a connection from which nothing was heard yet.
    pub fn over(connection: S) -> Asker<S>
        ensures connection { connection_of (seat_of result) ≡ connection }
        ensures held { held_by (seat_of result) ≡ [] }
    {
        Asker {
            relay: Seat::new(Client(1), connection),
        }
    }

    /// Sends a line with its line feed. If that fails, its first octets may have been sent.
    pub fn send(&mut self, line: &[u8]) -> Result<(), AskFault>
        ensures sent { OnOk result (Sends (conversation_of S.link self.old) line.now
            (conversation_of S.link self.new)) }
        ensures cut { IfErr result (λ fault. SendsSome (conversation_of S.link self.old) line.now
            (conversation_of S.link self.new)) }
        ensures gone { IfErr result (λ fault. fault ≡ AskFault.Gone) }
    {
        if self.relay.try_send(line) {
            return Ok(());
        }
        Err(AskFault::Gone)
    }

    /// The next line. A read that does not complete a line takes at least one octet, or was
    /// interrupted.
    fn next_line(&mut self) -> Option<Line>
        ensures line { IfSome result (λ line. ReadsLine (conversation_of S.link self.old)
            line.items (conversation_of S.link self.new)) }
        ensures none { result ≡ None → ReadsNothing (conversation_of S.link self.old)
            (conversation_of S.link self.new) }
    {
        for _look in 0..=MAX_LINE {
            match self.relay.hear() {
                Hearing::Line(line) => return Some(line),
                Hearing::Silence => {}
                Hearing::Ended | Hearing::Gone => return None,
            }
        }
        None
    }

    /// The next line. Fails if there is none.
    fn line(&mut self) -> Result<Line, AskFault>
        ensures line { IfOk result (λ line. ReadsLine (conversation_of S.link self.old) line.items
            (conversation_of S.link self.new)) }
        ensures none { IfErr result (λ fault. ReadsNothing (conversation_of S.link self.old)
            (conversation_of S.link self.new)) }
    {
        match self.next_line() {
            Some(line) => Ok(line),
            None => Err(AskFault::Gone),
        }
    }

    /// Reads once from the relay, and returns whether it has ended the connection. `None`
    /// if the connection failed.
    fn hear_end(&mut self) -> Option<bool>
        ensures heard { IfSome result (λ ended. (octets : List ℕ)
            × ReadsAndFinds (conversation_of S.link self.old) octets ended
            (conversation_of S.link self.new)) }
        ensures gone { result ≡ None → Reads (conversation_of S.link self.old) []
            (conversation_of S.link self.new) }
    {
        match self.relay.hear() {
            Hearing::Ended => Some(true),
            Hearing::Gone => None,
            Hearing::Line(_) => Some(false),
            Hearing::Silence => Some(false),
        }
    }

    /// Waits until the relay has ended the connection. Fails with `Gone` if the connection fails
    /// before, as it does once the relay has sent nothing for a minute, and after 65,536 reads.
    pub fn outlast(&mut self) -> Result<(), AskFault>
        ensures over { OnOk result (Outlives (conversation_of S.link self.old)
            (conversation_of S.link self.new)) }
        ensures gone { IfErr result (λ fault. (fault ≡ AskFault.Gone)
            × OutlivesNot (conversation_of S.link self.old) (conversation_of S.link self.new)) }
    {
        for _look in 0..MAX_LINES {
            let Some(has_ended) = self.hear_end() else {
                return Err(AskFault::Gone);
            };
            if has_ended {
                return Ok(());
            }
        }
        Err(AskFault::Gone)
    }

    /// Reads an answer up to its end. Fails with `Memory`, when a part of it was read; and with
    /// `Gone` if the relay goes away before its end, or sends 65,536 lines without one.
    pub fn answer(&mut self, alloc: Global) -> Result<Answer, AskFault>
        ensures answer { IfOk result (λ answer. ReadsAnswer (conversation_of S.link self.old)
            answer.text.items answer.status (conversation_of S.link self.new)) }
        ensures cut { IfErr result (λ fault. ReadsSome (conversation_of S.link self.old)
            (conversation_of S.link self.new)) }
        ensures gone { IfErr result (λ fault. fault ≡ AskFault.Gone
            → ReadsNoEnd (conversation_of S.link self.old) (conversation_of S.link self.new)) }
    {
        let mut text = Vec::new(alloc);
        for _line in 0..MAX_LINES {
            let line = self.line()?;
            if let Some(status) = status_in(alloc, &line)? {
                return Ok(Answer { text, status });
            }
            put_line(&mut text, &line)?;
        }
        Err(AskFault::Gone)
    }
}
