//! The receive channels that exist.

ghost use Rattle.std.specs.Prelude.{◌≡◌, ◌≤◌, ◌<◌, ◌++◌, ◌∷◌, ℕ, List, Option, [], Some, None};
ghost use Rattle.std.specs.Prelude.{IsSome, IfSome, true, false, not, length, map, position, take};
ghost use Rattle.std.specs.Prelude.{drop};
ghost use Rattle.std.specs.List.{filter, list_any};
ghost use Rattle.std.specs.Option.{option_and_then, option_map};
ghost use Rattle.std.specs.Str.{bytes_eq};
ghost use Rattle.macs_config.specs.Config.{this_edition, is_ascending, put_among};
ghost use Rattle.macs_config.specs.Tables.{put, put_at};
ghost use Rattle.macs_frame.specs.Tag.{IsForKay, Tag};
ghost use Rattle.macs_rxsc.specs.Receive.{put_numbers, sci_named};
ghost use Rattle.macs_rxsc.specs.Receiving.{TableReceives};
ghost use Rattle.macs_rxsc.specs.Needs.{Need, first_need_of};
ghost use Rattle.macs_rxsc.specs.Counting.{no_channel_counts};
ghost use Rattle.macs_rxsc.specs.Value.{ceilings_among, channel_at, counters_among, packet_numbers};
ghost use Rattle.macs_rxsc.specs.Value.{channel_at_rest, sa_of, scis_of, rx_side_in, channel_under};
ghost use Rattle.macs_config.specs.declared.command.Replay.{Replay};
ghost use Rattle.macs_config.specs.declared.command.Validate.{Validate};
ghost use Rattle.macs_rxsc.specs.declared.association.Association.{Association};
ghost use Rattle.macs_rxsc.specs.declared.channel.Channel.{Channel};

use crate::association::Association;
use crate::channel::Channel;
use crate::need::RxNeed;
use crate::policy::Policy;
use crate::unverified::{discard_or_deliver, refuse};
use crate::verdict::{Kind, Reason, Verdict};
use arrayvec::ArrayVec;
use macs_config::MAX_CHANNELS;
use macs_frame::{An, FrameBuf, Parts, ScName, Sci, end_station_sci, read_tag};

/// The receive channels that exist, by ascending SCI.
#[derive(Drop)]
pub struct Table {
    pub channels: ArrayVec<Channel, MAX_CHANNELS>,
}

/// The index of the channel with an SCI, `None` if there is none.
fn place(channels: &[Channel], sci: Sci) -> Option<usize>
    ensures { result ≡ position (λ (channel : Channel). bytes_eq channel.sci sci) channels.now }
{
    channels.iter().position(|channel| channel.sci == sci)
}

/// How many of the existing channels come before the first whose SCI is greater.
fn place_after(channels: &[Channel], sci: Sci) -> usize
    ensures within { result ≤ length channels.now }
    ensures between { put_among sci (scis_of channels.now)
        ≡ take result (scis_of channels.now) ++ sci ∷ drop result (scis_of channels.now) }
{
    for (place, channel) in channels.iter().enumerate() {
        if sci.get() < channel.sci.get() {
            return place;
        }
    }
    channels.len()
}

/// Raises the lowest acceptable number of each association with the window. It never falls.
fn slide_all(channels: &mut [Channel], window: u32)
    ensures { channels.new ≡ map (channel_under window) channels.old }
{
    for channel in channels.iter_mut() {
        channel.slide(window);
    }
}

/// Lowers the ceiling of each association to its next packet number.
fn lower_all(channels: &mut [Channel])
    ensures { channels.new ≡ map channel_at_rest channels.old }
{
    for channel in channels.iter_mut() {
        channel.lower();
    }
}

/// The SCI that a SecTAG names (9.5, 9.9): the explicit one, the source address with port 00-01, or
/// that of the only channel if it names none.
fn sci_named(channels: &[Channel], frame: &[u8], name: ScName) -> Option<Sci>
    requires { 12 ≤ length frame.now }
    ensures { result ≡ sci_named (scis_of channels.now) frame.now name }
{
    match (name, channels) {
        (ScName::Explicit(sci), _) => Some(sci),
        (ScName::EndStation, _) => Some(end_station_sci(frame)),
        (ScName::Implicit, [channel]) => Some(channel.sci),
        (ScName::Implicit, _) => None,
    }
}

/// The index of the channel that a SecTAG names, `None` if there is none.
fn place_named(channels: &[Channel], frame: &[u8], name: ScName) -> Option<usize>
    requires { 12 ≤ length frame.now }
    ensures { result ≡ option_and_then
        (λ sci. position (λ (channel : Channel). bytes_eq channel.sci sci) channels.now)
        (sci_named (scis_of channels.now) frame.now name) }
{
    let sci = sci_named(channels, frame, name)?;
    place(channels, sci)
}

impl Table {
    /// The channel with an SCI, `None` if there is none.
    pub(crate) fn channel(&self, sci: Sci) -> Option<&Channel>
        ensures { option_map (λ channel. channel.now) result
            ≡ channel_at self.now.channels.items sci }
    {
        let place = place(self.channels.as_slice(), sci)?;
        Some(&self.channels[place])
    }

    /// Raises the lowest acceptable number of each association with the window. It never falls.
    pub(crate) fn slide(&mut self, window: u32)
        ensures { self.new.channels.items ≡ map (channel_under window) self.old.channels.items }
    {
        slide_all(self.channels.as_mut_slice(), window);
    }

    /// Lowers the ceiling of each association to its next packet number.
    pub(crate) fn lower(&mut self)
        ensures { self.new.channels.items ≡ map channel_at_rest self.old.channels.items }
    {
        lower_all(self.channels.as_mut_slice());
    }

    /// Adds a channel with an unused SCI. There are fewer than 32.
    pub(crate) fn add(&mut self, sci: Sci)
        requires free { list_any (λ other. bytes_eq other sci)
            (scis_of self.old.channels.items) ≡ false }
        requires room { length (scis_of self.old.channels.items) < this_edition.channels }
        ensures side { (validate : Validate) (replay : Replay)
            → rx_side_in validate replay self.new.channels.items
            ≡ record (rx_side_in validate replay self.old.channels.items)
            { channels = put_among sci (scis_of self.old.channels.items) } }
        ensures ceilings { ceilings_among self.new.channels.items
            ≡ ceilings_among self.old.channels.items }
        ensures counters { counters_among self.new.channels.items
            ≡ put_at (counters_among self.old.channels.items) sci (Some no_channel_counts) }
    {
        let place = place_after(self.channels.as_slice(), sci);
        self.channels.insert(place, Channel::new(sci));
    }

    /// Removes a channel, with its associations and counters.
    pub(crate) fn drop_channel(&mut self, sci: Sci)
        ensures side { (validate : Validate) (replay : Replay)
            → rx_side_in validate replay self.new.channels.items
            ≡ record (rx_side_in validate replay self.old.channels.items) {
              channels =
                  filter (λ other. not (bytes_eq other sci)) (scis_of self.old.channels.items);
              rx = put_at (rx_side_in validate replay self.old.channels.items).rx sci (λ an. None);
              numbers = put_at (rx_side_in validate replay self.old.channels.items).numbers sci
                  (λ an. None);
            } }
        ensures ceilings { ceilings_among self.new.channels.items
            ≡ put_at (ceilings_among self.old.channels.items) sci (λ an. None) }
        ensures counters { counters_among self.new.channels.items
            ≡ put_at (counters_among self.old.channels.items) sci None }
    {
        self.channels.retain(|channel| channel.sci != sci);
    }

    /// Sets or removes the association at a number of an existing channel.
    pub(crate) fn put(&mut self, sci: Sci, an: An, association: Option<Association>)
        requires { list_any (λ other. bytes_eq other sci) (scis_of self.old.channels.items) ≡ true }
        ensures side { (validate : Validate) (replay : Replay)
            → rx_side_in validate replay self.new.channels.items
            ≡ record (rx_side_in validate replay self.old.channels.items) {
              rx = put_at (rx_side_in validate replay self.old.channels.items).rx sci
                  (put ((rx_side_in validate replay self.old.channels.items).rx sci) an
                  (option_map sa_of association));
              numbers =
                  put_numbers (rx_side_in validate replay self.old.channels.items).numbers sci an
                  (option_map packet_numbers association);
            } }
        ensures ceilings { ceilings_among self.new.channels.items
            ≡ put_at (ceilings_among self.old.channels.items) sci
            (put (ceilings_among self.old.channels.items sci) an
            (option_map (λ (a : Association). a.ceiling) association)) }
        ensures counters { counters_among self.new.channels.items
            ≡ counters_among self.old.channels.items }
    {
        if let Some(place) = place(self.channels.as_slice(), sci) {
            self.channels[place].put(an, association);
        }
    }

    /// Raises the ceiling of an existing association.
    pub(crate) fn raise(&mut self, sci: Sci, an: An, ceiling: u64)
        requires { IsSome (ceilings_among self.old.channels.items sci an) }
        ensures side { (validate : Validate) (replay : Replay)
            → rx_side_in validate replay self.new.channels.items
            ≡ rx_side_in validate replay self.old.channels.items }
        ensures ceilings { ceilings_among self.new.channels.items
            ≡ put_at (ceilings_among self.old.channels.items) sci
            (put (ceilings_among self.old.channels.items sci) an (Some ceiling)) }
        ensures counters { counters_among self.new.channels.items
            ≡ counters_among self.old.channels.items }
    {
        if let Some(place) = place(self.channels.as_slice(), sci) {
            self.channels[place].raise(an, ceiling);
        }
    }

    /// The need of the first association, by ascending SCI and number, that has one. SCIs ascend.
    pub(crate) fn need(&self, block: u32) -> Option<RxNeed>
        requires { is_ascending (scis_of self.now.channels.items) ≡ true }
        ensures { (validate : Validate) (replay : Replay)
            → option_map
            (λ (need : RxNeed). record { sci = need.sci; an = need.an; pn = need.pn }) result
            ≡ first_need_of (rx_side_in validate replay self.now.channels.items)
            (ceilings_among self.now.channels.items) block }
    {
        for channel in self.channels.iter() {
            if let Some(need) = channel.need(block) {
                return Some(need);
            }
        }
        None
    }

    /// The verdict on a frame from the common side. It is counted for its channel.
    pub(crate) fn receive(&mut self, policy: Policy, frame: &[u8], out: &mut FrameBuf) -> Verdict
        ensures { TableReceives policy.validate policy.replay self.old.channels.items
            self.new.channels.items frame.now result out.new.items }
    {
        out.clear();
        match read_tag(frame) {
            Ok(parts) => self.receive_tagged(policy, frame, &parts, out),
            Err(fault) => refuse(policy.validate, fault, frame, out),
        }
    }

    /// The verdict on a frame, as by `receive`. The parts are a reading of it, and `out` is empty
    /// before.
    fn receive_tagged(
        &mut self,
        policy: Policy,
        frame: &[u8],
        parts: &Parts,
        out: &mut FrameBuf,
    ) -> Verdict
        requires read { Tag frame.now parts.now × (¬ IsForKay frame.now) }
        requires empty { out.old.items ≡ [] }
        ensures { TableReceives policy.validate policy.replay self.old.channels.items
            self.new.channels.items frame.now result out.new.items }
    {
        match place_named(self.channels.as_slice(), frame, parts.tag.name) {
            Some(place) => self.channels[place].receive(policy, frame, parts, out),
            None => discard_or_deliver(
                policy.validate,
                Reason::NoSci,
                Kind::UnknownSci,
                frame,
                parts,
                out,
            ),
        }
    }
}
