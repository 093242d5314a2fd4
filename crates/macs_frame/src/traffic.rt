//! What frames carried, for counters.

ghost use Rattle.std.specs.Prelude.{◌≡◌};
ghost use Rattle.macs_frame.specs.Traffic.{carried_with, no_carried, no_traffic};
ghost use Rattle.macs_frame.specs.Traffic.{traffic_after, traffic_under, no_channel_traffic, traffic_with};
ghost use Rattle.macs_frame.specs.Traffic.{user_octets};

use crate::tag::{ADDRESS_OCTETS, SecTag};
use macs_fields::{ASSOCIATIONS, An};

/// How many frames there were, and octets of User Data in them: of each plain frame everything
/// except its two addresses. Both numbers saturate at 2^64 - 1.
#[derive(Clone, Copy, Debug, Default, PartialEq, Eq)]
pub struct Carried {
    pub frames: u64,
    pub octets: u64,
}

impl Carried {
    /// No frames.
    fn new() -> Carried
        ensures { result ≡ no_carried }
    {
        Carried {
            frames: 0,
            octets: 0,
        }
    }

    /// Counts one more frame, with this many octets of User Data.
    fn add(&mut self, octets: u64)
        ensures { self.new ≡ carried_with octets self.old }
    {
        self.frames = self.frames.saturating_add(1);
        self.octets = self.octets.saturating_add(octets);
    }
}

/// Frames under one association number. The octets of the two parts are OutOctetsProtected and
/// OutOctetsEncrypted for a transmit channel, and InOctetsValidated and InOctetsDecrypted for a
/// receive channel (IEEE Std 802.1AE-2018, 10.7).
#[derive(Clone, Copy, Debug, Default, PartialEq, Eq)]
pub struct Traffic {
    /// Those with integrity only: E is clear.
    pub plain: Carried,
    /// Those with confidentiality as well: E is set.
    pub encrypted: Carried,
}

impl Traffic {
    /// No frames.
    fn new() -> Traffic
        ensures { result ≡ no_traffic }
    {
        Traffic {
            plain: Carried::new(),
            encrypted: Carried::new(),
        }
    }

    /// Counts one more frame, encrypted or not, with this many octets of User Data.
    fn add(&mut self, is_encrypted: bool, octets: u64)
        ensures { self.new ≡ traffic_with is_encrypted octets self.old }
    {
        if is_encrypted {
            self.encrypted.add(octets);
        } else {
            self.plain.add(octets);
        }
    }
}

/// Frames of a channel, by association number.
#[derive(Clone, Copy, Default)]
pub struct ChannelTraffic {
    by_an: [Traffic; ASSOCIATIONS],
}

impl ChannelTraffic {
    /// No frames.
    pub fn new() -> ChannelTraffic
        ensures { result ≡ no_channel_traffic }
    {
        ChannelTraffic {
            by_an: [Traffic::new(); ASSOCIATIONS],
        }
    }

    /// The frames under an association number.
    pub fn of(&self, an: An) -> Traffic
        ensures { result ≡ traffic_under self.now an }
    {
        self.by_an[an.get() as usize]
    }

    /// Counts one more frame: its SecTAG, and the plain frame that it protects.
    pub fn add(&mut self, tag: &SecTag, plain: &[u8])
        ensures { self.new ≡ traffic_after tag.now plain.now self.old }
    {
        let octets = user_octets(plain);
        self.by_an[tag.an.get() as usize].add(tag.encrypted, octets);
    }
}

/// How many octets of User Data a plain frame has.
fn user_octets(plain: &[u8]) -> u64
    ensures { result ≡ user_octets plain.now }
{
    plain.len().saturating_sub(ADDRESS_OCTETS) as u64
}
