//! What an act has at hand besides the disk, or besides what has the disk.

use crate::desks::{self, Orders};
use crate::endpoint::{Played, act_with_endpoint};
use crate::serving::{self, Service};
use crate::talks::{self, Talks};
use crate::text::{Answer, Captures, Line, Words, act_with_captures};
use crate::wires::{self, Wires};
use crate::{files, running};
use macs_config::Command;
use std::alloc::Global;

/// What an act has at hand besides the disk, or besides what has the disk.
#[derive(Drop)]
pub struct Tools {
    pub alloc: Global,
    wires: Wires,
    /// The commands of the file that was read last.
    commands: Vec<Command>,
    captures: Captures,
    service: Service,
    orders: Orders,
    talks: Talks,
}

impl Tools {
    /// Empty wires, no command file, no capture, no events, a desk without orders, and no
    /// clients.
    pub fn new(alloc: Global) -> Tools {
        Tools {
            alloc,
            wires: Wires::new(alloc),
            commands: Vec::new(alloc),
            captures: Captures::new(alloc),
            service: Service::new(alloc),
            orders: Orders::new(alloc),
            talks: Talks::new(alloc),
        }
    }

    /// Does what is said to a wire, of a command file, of a capture, of events, of a desk or of
    /// clients; `None` where the act is of none of them.
    pub fn act(&mut self, line: Line<'_>, answer: &mut Answer) -> Option<()> {
        let alloc = self.alloc;
        let told = wires::act(&mut self.wires, line.words(), alloc, answer);
        if told.is_some() {
            return told;
        }
        let told = files::act(line, &mut self.commands, alloc, answer);
        if told.is_some() {
            return told;
        }
        let told = serving::act(line, &mut self.service, alloc, answer);
        if told.is_some() {
            return told;
        }
        let told = desks::act(line, &mut self.orders, alloc, answer);
        if told.is_some() {
            return told;
        }
        let told = talks::act(line, &mut self.talks, alloc, answer);
        if told.is_some() {
            return told;
        }
        act_with_captures(line, &mut self.captures, alloc, answer)
    }
}

/// Does the act with an endpoint that the words say. Whether there is such an act.
pub fn act(
    endpoint: &mut Played,
    words: Words<'_>,
    tools: &mut Tools,
    answer: &mut Answer,
) -> bool {
    act_with_endpoint(endpoint, words, tools.alloc, answer)
        || wires::pass_frames(
            endpoint,
            words,
            &mut tools.wires,
            &mut tools.orders,
            &mut tools.talks,
            tools.alloc,
            answer,
        )
        .is_some()
        || files::apply(endpoint, words, tools.commands.as_slice(), answer).is_some()
        || serving::serve(endpoint, words, &mut tools.service, answer).is_some()
        || running::run(endpoint, words, &mut tools.captures, tools.alloc, answer).is_some()
}
