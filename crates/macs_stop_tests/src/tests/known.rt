//! What is known of a life: what was acknowledged, and which frames passed.

use super::frames::PEER;
use super::script::{KEYS, PEER_NUMBER};
use macs_aes::Key;
use macs_config::{Config, Identity, Role};
use macs_disk::SectorDisk;
use macs_endpoint::Endpoint;
use macs_frame::An;
use std::process::Abort;

/// What was acknowledged, what may have been done, and which frames passed.
#[derive(Drop)]
pub(super) struct Known {
    /// The commands that were acknowledged made this configuration.
    pub(super) before: Config,
    /// Those that were submitted made this one.
    pub(super) after: Config,
    /// The work on the disk of the last submitted command began and did not end.
    pub(super) is_under_way: bool,
    /// The disk was formatted.
    pub(super) is_formatted: bool,
    pub(super) passed: Passed,
}

/// Which frames passed.
#[derive(Clone, Copy)]
pub(super) struct Passed {
    /// The greatest packet number that went out under each of the script's keys, 0 where none did.
    pub(super) sent: [u32; 3],
    /// The peer's frames from packet number 1 to this one were delivered.
    pub(super) delivered: u32,
}

impl Known {
    /// A new endpoint.
    pub(super) fn new(identity: &Identity) -> Known {
        Known {
            before: Config::new(identity),
            after: Config::new(identity),
            is_under_way: false,
            is_formatted: false,
            passed: Passed {
                sent: [0; 3],
                delivered: 0,
            },
        }
    }

    /// An endpoint was opened again: it has what was acknowledged, and goes on above what passed.
    /// Nothing is under way, and the peer's frames below the next that is taken are lost.
    pub(super) fn catch_up<D: SectorDisk>(&mut self, rt: &impl Abort, endpoint: &Endpoint<D>) {
        assert!(rt; self.allows(endpoint.config()));
        assert!(rt; self.passed.is_behind(rt, endpoint));
        self.is_under_way = false;
        self.passed.catch_up(rt, endpoint);
    }

    /// Whether a configuration is that from before the command under way.
    pub(super) fn is_before(&self, found: &Config) -> bool {
        is_same(found, &self.before)
    }

    /// Whether a configuration is that from before the command under way or after it.
    pub(super) fn allows(&self, found: &Config) -> bool {
        is_same(found, &self.before) || (self.is_under_way && is_same(found, &self.after))
    }
}

impl Passed {
    /// A packet number went out: it is above all before it under its key.
    pub(super) fn send(&mut self, rt: &impl Abort, config: &Config, number: u32) {
        let place = place_of_key(rt, config);
        assert!(rt; place < self.sent.len());
        assert!(rt; self.sent[place] < number);
        self.sent[place] = number;
    }

    /// The peer's frames below the next that is taken are lost.
    fn catch_up<D: SectorDisk>(&mut self, rt: &impl Abort, endpoint: &Endpoint<D>) {
        let an = An::new(PEER_NUMBER).expect(rt, "association number");
        if let Some(numbers) = endpoint.numbers(PEER, an) {
            assert!(rt; 0 < numbers.lowest && numbers.lowest <= 1 << 32);
            self.delivered = (numbers.lowest - 1) as u32;
        }
    }

    /// Whether all packet numbers of an endpoint are above those that passed.
    pub(super) fn is_behind<D: SectorDisk>(&self, rt: &impl Abort, endpoint: &Endpoint<D>) -> bool {
        self.sends_above(rt, endpoint) && self.receives_above(rt, endpoint)
    }

    /// Whether the next packet numbers of an endpoint are the first above those that passed, on
    /// both sides.
    pub(super) fn is_followed<D: SectorDisk>(
        &self,
        rt: &impl Abort,
        endpoint: &Endpoint<D>,
    ) -> bool {
        let encoding = endpoint
            .config()
            .encoding()
            .expect(rt, "an encoding association");
        let place = place_of_key(rt, endpoint.config());
        assert!(rt; place < self.sent.len());
        let next = endpoint.next_number(encoding).expect(rt, "a next number");
        let an = An::new(PEER_NUMBER).expect(rt, "association number");
        let numbers = endpoint
            .numbers(PEER, an)
            .expect(rt, "the numbers of the peer");
        next == u64::from(self.sent[place]).saturating_add(1)
            && numbers.next == u64::from(self.delivered).saturating_add(1)
    }

    fn sends_above<D: SectorDisk>(&self, rt: &impl Abort, endpoint: &Endpoint<D>) -> bool {
        for an in An::all() {
            if let Some(association) = endpoint.config().tx(an) {
                let place = place_of(rt, association.key.get());
                let next = endpoint.next_number(an).expect(rt, "a next number");
                assert!(rt; place < self.sent.len());
                if next <= u64::from(self.sent[place]) {
                    return false;
                }
            }
        }
        true
    }

    fn receives_above<D: SectorDisk>(&self, rt: &impl Abort, endpoint: &Endpoint<D>) -> bool {
        let an = An::new(PEER_NUMBER).expect(rt, "association number");
        match endpoint.numbers(PEER, an) {
            Some(numbers) => u64::from(self.delivered) < numbers.lowest,
            None => self.delivered == 0,
        }
    }
}

/// The place of a key among those of the script.
fn place_of(rt: &impl Abort, key: Key) -> usize {
    for place in 0..KEYS.len() {
        if KEYS[place] == key {
            return place;
        }
    }
    panic!(rt; "a key of no script")
}

/// The place of the key that frames go out under.
fn place_of_key(rt: &impl Abort, config: &Config) -> usize {
    let encoding = config.encoding().expect(rt, "an encoding association");
    let association = config.tx(encoding).expect(rt, "an association");
    place_of(rt, association.key.get())
}

/// Whether two configurations are the same in all that their readers report.
fn is_same(one: &Config, other: &Config) -> bool {
    is_same_policy(one, other)
        && one.channels().as_slice() == other.channels().as_slice()
        && has_same_associations(one, other)
        && spends_the_same(one, other, Role::Transmit)
        && spends_the_same(one, other, Role::Receive)
}

fn is_same_policy(one: &Config, other: &Config) -> bool {
    one.validate() == other.validate()
        && one.replay() == other.replay()
        && one.sci_mode() == other.sci_mode()
        && one.encoding() == other.encoding()
}

fn has_same_associations(one: &Config, other: &Config) -> bool {
    for an in An::all() {
        if one.tx(an) != other.tx(an) || one.rx(PEER, an) != other.rx(PEER, an) {
            return false;
        }
    }
    true
}

/// Whether the keys that are spent on a side are the same, in the order of installing.
fn spends_the_same(one: &Config, other: &Config, role: Role) -> bool {
    for place in 0..=spent_on(one, role) {
        if one.spent_at(role, place) != other.spent_at(role, place) {
            return false;
        }
    }
    true
}

fn spent_on(config: &Config, role: Role) -> usize {
    match role {
        Role::Transmit => config.spent_tx(),
        Role::Receive => config.spent_rx(),
    }
}
