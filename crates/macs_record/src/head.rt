//! The heads of areas.

ghost use Rattle.std.specs.Prelude.{◌≡◌, ◌↔◌, ◌<◌, ◌≤◌, IsSome, IfSome};
ghost use Rattle.macs_record.specs.Heads.{Head};

use crate::format::Format;
use macs_config::Identity;
use std::marker::Model;

/// The maximum number of records in a snapshot: one for each slot of an area.
const MAX_COUNT: u32 = 256;

/// The head of an area: its format, its generation, 1 to 2^64 - 1, the number of records in its
/// snapshot, 1 to 256, and the identity of its journal.
#[derive(Debug, Clone, Copy, PartialEq, Eq)]
pub struct Head {
    format: Format,
    generation: u64,
    count: u32,
    identity: Identity,
}

impl Model for Head {
    ghost Value = { Head };

    ghost view = { λ h. record {
      format = h.format;
      generation = h.generation;
      count = h.count;
      identity = h.identity;
    } };

    ghost invariant = { λ h. (0 < h.generation) × (1 ≤ h.count) × (h.count ≤ 256) };

    ghost inverse = { λ h. record {
      format = h.format;
      generation = h.generation;
      count = h.count;
      identity = h.identity;
    } };
}

impl Head {
    /// `None` for generation 0, and for a count that is not 1 to 256.
    pub fn new(format: Format, generation: u64, count: u32, identity: Identity) -> Option<Head>
        ensures within { IsSome result ↔ ((0 < generation) × (1 ≤ count) × (count ≤ 256)) }
        ensures value { IfSome result
            (λ head. head ≡ record {
              format = format;
              generation = generation;
              count = count;
              identity = identity;
            }) }
    {
        if generation != 0 && (1..=MAX_COUNT).contains(&count) {
            Some(Head {
                format,
                generation,
                count,
                identity,
            })
        } else {
            None
        }
    }

    /// The format of the area.
    pub fn format(&self) -> Format
        ensures { result ≡ self.now.format }
    {
        self.format
    }

    /// 1 when the disk is formatted, and one more with each new snapshot, up to 2^64 - 1.
    pub fn generation(&self) -> u64
        ensures value { result ≡ self.now.generation }
        ensures range { 0 < result }
    {
        self.generation
    }

    /// How many records the snapshot has, 1 to 256.
    pub fn count(&self) -> u32
        ensures value { result ≡ self.now.count }
        ensures range { (1 ≤ result) × (result ≤ 256) }
    {
        self.count
    }

    /// The identity of its journal.
    pub fn identity(&self) -> Identity
        ensures { result ≡ self.now.identity }
    {
        self.identity
    }
}
