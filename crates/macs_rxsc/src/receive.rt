//! Receive channels, and the verdicts on received frames (IEEE Std 802.1AE-2018, 10.6 and 10.7).

ghost use Rattle.std.specs.Prelude.{◌≡◌, ◌≤◌, ◌<◌, ◌^◌, ℕ, List, [], length, nat_lt, not, true};
ghost use Rattle.std.specs.Prelude.{false, Some, None, IsSome, IfSome};
ghost use Rattle.std.specs.List.{filter};
ghost use Rattle.std.specs.Option.{is_some, option_map};
ghost use Rattle.std.specs.Str.{bytes_eq};
ghost use Rattle.macs_aes.specs.Keys.{octets_of_key};
ghost use Rattle.macs_config.specs.Config.{this_edition, is_ascending, put_among};
ghost use Rattle.macs_config.specs.Tables.{put, put_at};
ghost use Rattle.macs_frame.specs.Tag.{tag_of};
ghost use Rattle.macs_frame.specs.Traffic.{traffic_under};
ghost use Rattle.macs_rxsc.specs.Receive.{AreOrdered, Numbers, IsOutcome, channel_of, has_channel};
ghost use Rattle.macs_rxsc.specs.Receive.{new_rx_side, put_numbers, first_numbers};
ghost use Rattle.macs_rxsc.specs.Receive.{numbers_under_window};
ghost use Rattle.macs_rxsc.specs.Needs.{Need, first_need_of, raised_ceiling};
ghost use Rattle.macs_rxsc.specs.Counting.{channel_count_of, count_of, counters_after_verdict};
ghost use Rattle.macs_rxsc.specs.Counting.{counters_after_verdict_at, no_counts, no_channel_counts};
ghost use Rattle.macs_rxsc.specs.Value.{ceilings_of, channel_counters_of, counters_of, rx_side_of};
ghost use Rattle.macs_rxsc.specs.declared.counters.ChannelCounters.{ChannelCounters};

use crate::association::{Association, RxNumbers};
use crate::counters::RxCounters;
use crate::need::RxNeed;
use crate::policy::Policy;
use crate::table::Table;
use crate::verdict::Verdict;
use arrayvec::ArrayVec;
use macs_aes::Key;
use macs_config::{MAX_CHANNELS, Replay, Validate};
use macs_frame::{An, FrameBuf, Offset, Sci, Traffic};
use macs_gcm::GcmKey;
use std::marker::Model;

/// The receive channels, by ascending SCI, and how their frames are validated.
#[derive(Drop)]
pub struct Rx {
    policy: Policy,
    table: Table,
    counters: RxCounters,
}

impl Model for Rx {
    ghost use Rattle.macs_rxsc.specs.Value.{RxValue};
    ghost use Rattle.macs_rxsc.specs.Value.{IsSoundRx};

    ghost Value = { RxValue };

    ghost view = { λ r. record {
      validate = r.policy.validate;
      replay = r.policy.replay;
      channels =
          r.table.channels.items;
      counters = r.counters;
    } };

    ghost invariant = { λ r. IsSoundRx (record {
      validate = r.policy.validate;
      replay = r.policy.replay;
      channels =
          r.table.channels.items;
      counters = r.counters;
    }) };
}

impl Rx {
    /// No channel; strict validation, replay protection with window 0.
    pub fn new() -> Rx
        ensures side { rx_side_of result ≡ new_rx_side }
        ensures ceilings { ceilings_of result ≡ (λ sci an. None) }
        ensures counters { counters_of result ≡ no_counts }
        ensures channel_counters { channel_counters_of result ≡ (λ sci. None) }
    {
        Rx {
            policy: Policy {
                validate: Validate::Strict,
                replay: Replay {
                    on: true,
                    window: 0,
                },
            },
            table: Table {
                channels: ArrayVec::new(),
            },
            counters: RxCounters::new(),
        }
    }

    /// Sets how frames are validated, whether numbers are checked for replay, and the window.
    ///
    /// The lowest acceptable number of each association rises to the next one less the window,
    /// whether replay protection is on or off, and never falls.
    pub fn set_policy(&mut self, validate: Validate, on: bool, window: u32)
        ensures side { rx_side_of self.new ≡ record (rx_side_of self.old) {
          validate = validate;
          replay = record { on = on; window = window };
          numbers = λ sci an.
              option_map (numbers_under_window window) ((rx_side_of self.old).numbers sci an);
        } }
        ensures ceilings { ceilings_of self.new ≡ ceilings_of self.old }
        ensures counters { counters_of self.new ≡ counters_of self.old }
        ensures channel_counters { channel_counters_of self.new ≡ channel_counters_of self.old }
    {
        let replay = Replay { on, window };
        self.policy = Policy { validate, replay };
        self.table.slide(window);
    }

    /// Lowers the ceiling of each association to its next packet number: until it is raised, a
    /// frame that verifies with that number or a greater one is held back.
    pub fn lower(&mut self)
        ensures side { rx_side_of self.new ≡ rx_side_of self.old }
        ensures ceilings { ceilings_of self.new ≡ (λ sci an. option_map (λ (n : Numbers). n.next)
            ((rx_side_of self.old).numbers sci an)) }
        ensures counters { counters_of self.new ≡ counters_of self.old }
        ensures channel_counters { channel_counters_of self.new ≡ channel_counters_of self.old }
    {
        self.table.lower();
    }

    /// Adds a channel with an unused SCI. There are fewer than 32.
    pub fn add(&mut self, sci: Sci)
        requires free { has_channel (rx_side_of self.old) sci ≡ false }
        requires room { length (rx_side_of self.old).channels < this_edition.channels }
        ensures side { rx_side_of self.new ≡ record (rx_side_of self.old)
            { channels = put_among sci (rx_side_of self.old).channels } }
        ensures ceilings { ceilings_of self.new ≡ ceilings_of self.old }
        ensures counters { counters_of self.new ≡ counters_of self.old }
        ensures channel_counters { channel_counters_of self.new
            ≡ put_at (channel_counters_of self.old) sci (Some no_channel_counts) }
    {
        self.table.add(sci);
    }

    /// Removes an existing channel, with its associations and counters.
    pub fn drop_channel(&mut self, sci: Sci)
        requires { has_channel (rx_side_of self.old) sci ≡ true }
        ensures side { rx_side_of self.new ≡ record (rx_side_of self.old) {
          channels = filter (λ other. not (bytes_eq other sci)) (rx_side_of self.old).channels;
          rx = put_at (rx_side_of self.old).rx sci (λ an. None);
          numbers = put_at (rx_side_of self.old).numbers sci (λ an. None);
        } }
        ensures ceilings { ceilings_of self.new ≡ put_at (ceilings_of self.old) sci (λ an. None) }
        ensures counters { counters_of self.new ≡ counters_of self.old }
        ensures channel_counters { channel_counters_of self.new
            ≡ put_at (channel_counters_of self.old) sci None }
    {
        self.table.drop_channel(sci);
    }

    /// Adds an association to an existing channel, at an unused number.
    ///
    /// `next` is its next and lowest acceptable packet number, and only frames with numbers below
    /// `ceiling` are delivered as verified: both 1 to 2^32, and `next` at most `ceiling`.
    pub fn install(&mut self, sci: Sci, an: An, key: &Key, offset: Offset, next: u64, ceiling: u64)
        requires stands { has_channel (rx_side_of self.old) sci ≡ true }
        requires empty { (rx_side_of self.old).rx sci an ≡ None }
        requires numbered { 1 ≤ next }
        requires ordered { next ≤ ceiling }
        requires bounded { ceiling ≤ 2 ^ 32 }
        ensures side { rx_side_of self.new ≡ record (rx_side_of self.old) {
          rx = put_at (rx_side_of self.old).rx sci
              (put ((rx_side_of self.old).rx sci) an
              (Some (record { key = octets_of_key key.now; offset = offset })));
          numbers = put_numbers (rx_side_of self.old).numbers sci an (Some (first_numbers next));
        } }
        ensures ceilings { ceilings_of self.new
            ≡ put_at (ceilings_of self.old) sci (put (ceilings_of self.old sci) an (Some ceiling)) }
        ensures counters { counters_of self.new ≡ counters_of self.old }
        ensures channel_counters { channel_counters_of self.new ≡ channel_counters_of self.old }
    {
        let association = Association {
            key: GcmKey::new(key),
            offset,
            next,
            lowest: next,
            ceiling,
            seen: None,
        };
        self.table.put(sci, an, Some(association));
    }

    /// Removes an existing association.
    pub fn remove(&mut self, sci: Sci, an: An)
        requires { IsSome ((rx_side_of self.old).rx sci an) }
        ensures side { rx_side_of self.new ≡ record (rx_side_of self.old) {
          rx = put_at (rx_side_of self.old).rx sci (put ((rx_side_of self.old).rx sci) an None);
          numbers = put_numbers (rx_side_of self.old).numbers sci an None;
        } }
        ensures ceilings { ceilings_of self.new
            ≡ put_at (ceilings_of self.old) sci (put (ceilings_of self.old sci) an None) }
        ensures counters { counters_of self.new ≡ counters_of self.old }
        ensures channel_counters { channel_counters_of self.new ≡ channel_counters_of self.old }
    {
        self.table.put(sci, an, None);
    }

    /// Raises the ceiling of an existing association. The new one is not below the previous one,
    /// and at most 2^32.
    pub fn raise(&mut self, sci: Sci, an: An, ceiling: u64)
        requires stands { IsSome ((rx_side_of self.old).rx sci an) }
        requires higher { IfSome (ceilings_of self.old sci an) (λ old. old ≤ ceiling) }
        requires bounded { ceiling ≤ 2 ^ 32 }
        ensures side { rx_side_of self.new ≡ rx_side_of self.old }
        ensures ceilings { ceilings_of self.new
            ≡ put_at (ceilings_of self.old) sci (put (ceilings_of self.old sci) an (Some ceiling)) }
        ensures counters { counters_of self.new ≡ counters_of self.old }
        ensures channel_counters { channel_counters_of self.new ≡ channel_counters_of self.old }
    {
        self.table.raise(sci, an, ceiling);
    }

    /// The next and the lowest acceptable packet number of an association. `None` if there is none.
    pub fn numbers(&self, sci: Sci, an: An) -> Option<RxNumbers>
        ensures { result ≡ option_map (λ (n : Numbers). record { next = n.next; lowest = n.lowest })
            ((rx_side_of self.now).numbers sci an) }
    {
        self.table.channel(sci)?.numbers(an)
    }

    /// The first association, by ascending SCI and number, whose ceiling must be raised.
    ///
    /// It comes with the greatest packet number seen on it: that of a frame that verified. That
    /// number was at or above the ceiling, or at most half a block, rounded down, is left between
    /// next and the ceiling; and the number seen plus a block, limited to 2^32, is above the
    /// ceiling. `rx_block` is 1 to 65,536 packet numbers. The association exists, and its ceiling
    /// may be raised that far.
    pub fn needs(&self, rx_block: u32) -> Option<RxNeed>
        ensures need { option_map
            (λ (need : RxNeed). record { sci = need.sci; an = need.an; pn = need.pn }) result
            ≡ first_need_of (rx_side_of self.now) (ceilings_of self.now) rx_block }
        ensures stands { IfSome result
            (λ need. IsSome ((rx_side_of self.now).rx need.sci need.an)) }
        ensures higher { IfSome result (λ need. IfSome (ceilings_of self.now need.sci need.an)
            (λ old. old < raised_ceiling rx_block need.pn)) }
    {
        self.table.need(rx_block)
    }

    /// The verdict on a frame from the common side, of any length.
    ///
    /// What is delivered is written to `out`: the plain frame if the frame verified, an untagged
    /// frame whole, otherwise the addresses and the Secure Data. Unless the verdict is `Delivered`,
    /// `out` is empty. Only a frame that verifies changes packet numbers, and only those of its
    /// association.
    ///
    /// Every verdict except `HeldBack` is counted, and seven of them also for the channel that the
    /// frame names. A frame that is held back must be submitted again, whole and unchanged, once
    /// `needs` has been served by `raise`: only the fact that its number was seen is kept.
    pub fn receive(&mut self, frame: &[u8], out: &mut FrameBuf) -> Verdict
        ensures verdict { IsOutcome (rx_side_of self.old) (ceilings_of self.old) frame.now
            (record {
              verdict = result;
              given = out.new.items;
              numbers =
                  (rx_side_of self.new).numbers;
            }) }
        ensures side { rx_side_of self.new
            ≡ record (rx_side_of self.old) { numbers = (rx_side_of self.new).numbers } }
        ensures ceilings { ceilings_of self.new ≡ ceilings_of self.old }
        ensures counters { counters_of self.new
            ≡ counters_after_verdict result (counters_of self.old) }
        ensures channel_counters { channel_counters_of self.new
            ≡ counters_after_verdict_at (channel_of (rx_side_of self.old) frame.now)
            (tag_of frame.now) result out.new.items (channel_counters_of self.old) }
    {
        let verdict = self.table.receive(self.policy, frame, out);
        self.counters.add(verdict);
        verdict
    }

    /// How often this verdict was given, at most 2^64 - 1; a frame that is held back is not
    /// counted.
    pub fn count(&self, verdict: Verdict) -> u64
        ensures { result ≡ count_of verdict (counters_of self.now) }
    {
        self.counters.of(verdict)
    }

    /// How often this verdict was given on frames of a channel, at most 2^64 - 1. 0 for a verdict
    /// that is not counted for channels, and `None` if the channel does not exist.
    pub fn channel_count(&self, sci: Sci, verdict: Verdict) -> Option<u64>
        ensures { result
            ≡ option_map (channel_count_of verdict) (channel_counters_of self.now sci) }
    {
        let channel = self.table.channel(sci)?;
        Some(channel.counters.of(verdict))
    }

    /// What the frames of a channel carried that verified under an association number, since the
    /// channel was added. `None` if the channel does not exist.
    pub fn traffic(&self, sci: Sci, an: An) -> Option<Traffic>
        ensures { result ≡ option_map (λ (c : ChannelCounters). traffic_under c.traffic an)
            (channel_counters_of self.now sci) }
    {
        let channel = self.table.channel(sci)?;
        Some(channel.counters.traffic.of(an))
    }

    /// Whether another channel may be added: there are fewer than 32.
    pub fn has_room(&self) -> bool
        ensures { result ≡ nat_lt (length (rx_side_of self.now).channels) this_edition.channels }
    {
        self.table.channels.len() < MAX_CHANNELS
    }

    /// What holds of all receive channels.
    ///
    /// For proofs, does nothing: each association that exists has numbers in order. The next one
    /// minus the window is at most the lowest acceptable, that at most the next, that at most the
    /// ceiling, and that at most 2^32. It belongs to an existing channel. The channels ascend by
    /// SCI, and exactly those that exist have counters.
    pub fn facts(&self)
        ensures ordered { (sci : List ℕ) (an : ℕ)
            → AreOrdered (rx_side_of self.now) (ceilings_of self.now) sci an }
        ensures stands { (sci : List ℕ) (an : ℕ) → IsSome ((rx_side_of self.now).rx sci an)
            → has_channel (rx_side_of self.now) sci ≡ true }
        ensures ascending { is_ascending (rx_side_of self.now).channels ≡ true }
        ensures counted { (sci : List ℕ)
            → is_some (channel_counters_of self.now sci) ≡ has_channel (rx_side_of self.now) sci }
    {
        let _table = &self.table;
    }
}
