//! A control socket whose clients are in memory: who gets a place, whose line is heard, and what is
//! sent to whom.

use macs_commands::requests::{Client, Clients, Heard};
use macs_control::{Connection, ControlSocket, Door, NO_SOCKET, Sockets, Taken, Watched};
use std::alloc::Global;
use std::cell::RefCell;
use std::os::fd::RawFd;
use std::process::Abort;
use std::rt::{Clock, Files};

/// The connection of a client that sent its lines and may end there, and what was sent to it.
#[derive(Drop)]
struct Line<'a> {
    coming: &'static str,
    is_over: bool,
    given: &'a RefCell<String>,
}

impl Connection for Line<'_> {
    fn take_into(&mut self, into: &mut [u8]) -> Taken {
        let octets = self.coming.as_bytes();
        let count = octets.len().min(into.len());
        if count == 0 {
            return if self.is_over {
                Taken::Ended
            } else {
                Taken::Nothing
            };
        }
        into[..count].copy_from_slice(&octets[..count]);
        self.coming = self.coming.get(count..).unwrap_or("");
        Taken::Octets(count.min(into.len()))
    }

    fn try_send(&mut self, octets: &[u8]) -> bool {
        match self.given.try_borrow_mut() {
            Ok(mut given) => given
                .push_str(str::from_utf8(octets).unwrap_or("no text"))
                .is_ok(),
            Err(_) => false,
        }
    }
}

/// Nothing wakes a sleep on it.
impl Watched for Line<'_> {
    ghost use Rattle.std.specs.Prelude.{negsuc};

    ghost number = { λ _. negsuc 0 };

    fn descriptor(&self) -> RawFd {
        -1
    }
}

/// Clients that wait to be let in, the next one last.
#[derive(Drop)]
struct Hall<'a> {
    waiting: Vec<Line<'a>>,
}

impl Watched for Hall<'_> {
    ghost use Rattle.std.specs.Prelude.{negsuc};

    ghost number = { λ _. negsuc 0 };

    fn descriptor(&self) -> RawFd {
        -1
    }
}

impl<'a> Door<Line<'a>> for Hall<'a> {
    fn let_in(&mut self) -> Option<Line<'a>> {
        self.waiting.pop()
    }
}

/// What five clients send, and which of them send no more.
const SENT: [(&str, bool); 5] = [
    ("show\nkeys\n", false),
    ("about\n", true),
    ("", false),
    ("traffic\nstop\n", false),
    ("counters\n", false),
];

/// Whose line is heard at each look, and the line. A client that was heard is asked last; the fifth
/// gets the place of the second, which sends no more once it is answered.
const HEARD: [(u64, &str); 6] = [
    (1, "show"),
    (2, "about"),
    (4, "traffic"),
    (1, "keys"),
    (4, "stop"),
    (5, "counters"),
];

/// Five clients, the first one last.
fn five<'a>(rt: &impl Abort, alloc: Global, given: &'a RefCell<String>) -> Hall<'a> {
    let mut waiting = Vec::new(alloc);
    for i in 0..SENT.len() {
        let (coming, is_over) = SENT[SENT.len() - 1 - i];
        let line = Line {
            coming,
            is_over,
            given,
        };
        waiting.push(line).expect(rt, "memory");
    }
    Hall { waiting }
}

/// Whether this line of this client was heard.
fn is_heard(heard: &Option<Heard>, client: u64, line: &str) -> bool {
    match heard {
        Some(heard) => {
            heard.client == Client(client) && heard.line.as_slice() == line.as_bytes()
        }
        None => false,
    }
}

#[test]
fn each_client_is_heard_in_its_turn(rt: HostRuntime) {
    let given = RefCell::new(String::new(rt.alloc()));
    let door = Some(five(&rt, rt.alloc(), &given));
    let sockets = Sockets {
        controlled: NO_SOCKET,
        common: NO_SOCKET,
        keeper: NO_SOCKET,
    };
    let made = ControlSocket::over(&rt, rt.alloc(), door, sockets, 0);
    let mut clients = made.expect(&rt, "memory");
    for (client, line) in HEARD {
        let heard = clients.hear();
        assert!(rt; is_heard(&heard, client, line), "{line}");
        clients.say(Client(client), b"end 0\n");
    }
    assert!(rt; clients.hear().is_none());
    match given.try_borrow_mut() {
        Ok(text) => assert!(rt; text.len() == 36),
        Err(_) => assert!(rt; false),
    };
}
