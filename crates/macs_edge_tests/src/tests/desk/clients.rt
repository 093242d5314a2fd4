//! A client that asks, and keeps what is said to it.

use macs_commands::requests::{Client, Clients, Heard, Line, NoMetrics};
use macs_control::desk::{ControlDesk, NoSystem};
use std::alloc::Global;
use std::process::Abort;

/// A client that sends one line, once, and keeps what is said to it. It claims nothing.
#[derive(Drop)]
pub(super) struct Asker<'a, R: Abort> {
    rt: &'a R,
    line: &'static str,
    asks: u8,
    pub(super) told: String,
}

impl<'a, R: Abort> Asker<'a, R> {
    pub(super) fn new(rt: &'a R, alloc: Global, line: &'static str) -> Asker<'a, R> {
        Asker {
            rt,
            line,
            asks: 1,
            told: String::new(alloc),
        }
    }

    fn line(&self) -> Heard {
        let mut line = Line::new();
        assert!(self.rt; line.try_extend_from_slice(self.line.as_bytes()).is_ok());
        Heard {
            client: Client(5),
            line,
        }
    }
}

impl<R: Abort> Clients for Asker<'_, R> {
    fn hear(&mut self) -> Option<Heard> {
        if self.asks == 0 {
            return None;
        }
        self.asks = 0;
        Some(self.line())
    }

    fn say(&mut self, client: Client, text: &[u8]) {
        let words = str::from_utf8(text).unwrap_or("no text");
        write!(self.told, "{} {words}", client.0).expect(self.rt, "memory");
    }

    fn sleep(&mut self) {}

    fn is_ended(&mut self) -> bool {
        false
    }
}

/// What a desk has said to its client is this text.
pub(super) fn expect_told<R: Abort, S: Drop>(
    rt: &R,
    desk: ControlDesk<Asker<'_, R>, NoMetrics, S>,
    told: &str,
) {
    let (asker, _metrics) = desk.into_parts();
    assert!(rt; asker.told.as_str() == told);
}
