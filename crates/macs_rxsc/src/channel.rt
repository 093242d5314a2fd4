//! A receive channel (IEEE Std 802.1AE-2018, 10.7).

ghost use Rattle.std.specs.Prelude.{◌≡◌, Option, ◌<◌, ◌∷◌, ℕ, List, [], Some, None, IsSome, map};
ghost use Rattle.std.specs.Option.{option_map};
ghost use Rattle.macs_frame.specs.Tag.{IsForKay, Tag, tag_of};
ghost use Rattle.macs_rxsc.specs.Receive.{Numbers};
ghost use Rattle.macs_rxsc.specs.Receiving.{ChannelReceives};
ghost use Rattle.macs_rxsc.specs.Needs.{Need, first_need, need_of};
ghost use Rattle.macs_rxsc.specs.Counting.{channel_counters_after, no_channel_counts};
ghost use Rattle.macs_rxsc.specs.Value.{ceilings_in, numbers_in, packet_numbers, sa_of, sas_in};
ghost use Rattle.macs_rxsc.specs.Value.{association_under, channel_at_rest, channel_under};
ghost use Rattle.macs_config.specs.Tables.{put};
ghost use Rattle.macs_rxsc.specs.declared.association.Association.{Association};

use crate::association::{Association, RxNumbers, lower_if_any, slide_if_any};
use crate::counters::ChannelCounters;
use crate::need::RxNeed;
use crate::policy::Policy;
use crate::unverified::discard_or_deliver;
use crate::verdict::{Kind, Reason, Verdict};
use macs_frame::{ASSOCIATIONS, An, FrameBuf, Parts, Sci};

/// A receive channel: its SCI, its associations by number, and its counters.
#[derive(Default, Drop)]
pub struct Channel {
    pub sci: Sci,
    pub associations: [Option<Association>; ASSOCIATIONS],
    pub counters: ChannelCounters,
}

impl Channel {
    /// A channel without associations, whose counters are 0.
    pub(crate) fn new(sci: Sci) -> Channel
        ensures { result ≡ record {
          sci = sci;
          associations = None ∷ None ∷ None ∷ None ∷ [];
          counters = no_channel_counts;
        } }
    {
        Channel {
            sci,
            associations: [None, None, None, None],
            counters: ChannelCounters::new(),
        }
    }

    /// Sets or removes the association at a number.
    pub(crate) fn put(&mut self, an: An, association: Option<Association>)
        ensures sci { self.new.sci ≡ self.old.sci }
        ensures counters { self.new.counters ≡ self.old.counters }
        ensures sas { sas_in (Some self.new)
            ≡ put (sas_in (Some self.old)) an (option_map sa_of association) }
        ensures numbers { numbers_in (Some self.new)
            ≡ put (numbers_in (Some self.old)) an (option_map packet_numbers association) }
        ensures ceilings { ceilings_in (Some self.new)
            ≡ put (ceilings_in (Some self.old)) an
            (option_map (λ (a : Association). a.ceiling) association) }
    {
        self.associations[an.get() as usize] = association;
    }

    /// Raises the ceiling of an existing association.
    pub(crate) fn raise(&mut self, an: An, ceiling: u64)
        ensures sci { self.new.sci ≡ self.old.sci }
        ensures counters { self.new.counters ≡ self.old.counters }
        ensures sas { sas_in (Some self.new) ≡ sas_in (Some self.old) }
        ensures numbers { numbers_in (Some self.new) ≡ numbers_in (Some self.old) }
        ensures ceilings { IsSome (ceilings_in (Some self.old) an)
            → ceilings_in (Some self.new) ≡ put (ceilings_in (Some self.old)) an (Some ceiling) }
    {
        if let Some(association) = &mut self.associations[an.get() as usize] {
            association.ceiling = ceiling;
        }
    }

    /// Raises the lowest acceptable number of each association with the window. It never falls.
    pub(crate) fn slide(&mut self, window: u32)
        ensures { self.new ≡ channel_under window self.old }
    {
        for association in self.associations.iter_mut() {
            slide_if_any(association, window);
        }
    }

    /// Lowers the ceiling of each association to its next packet number.
    pub(crate) fn lower(&mut self)
        ensures { self.new ≡ channel_at_rest self.old }
    {
        for association in self.associations.iter_mut() {
            lower_if_any(association);
        }
    }

    /// The verdict on a frame that names this channel. The parts are a reading of it, and `out` is
    /// empty before. The verdict is counted.
    pub(crate) fn receive(
        &mut self,
        policy: Policy,
        frame: &[u8],
        parts: &Parts,
        out: &mut FrameBuf,
    ) -> Verdict
        requires read { Tag frame.now parts.now × (¬ IsForKay frame.now) }
        requires empty { out.old.items ≡ [] }
        ensures verdict { ChannelReceives policy.validate policy.replay self.old self.new frame.now
            result out.new.items }
        ensures sci { self.new.sci ≡ self.old.sci }
        ensures sas { sas_in (Some self.new) ≡ sas_in (Some self.old) }
        ensures ceilings { ceilings_in (Some self.new) ≡ ceilings_in (Some self.old) }
        ensures counters { self.new.counters
            ≡ channel_counters_after (tag_of frame.now) result out.new.items self.old.counters }
    {
        let verdict = self.decide(policy, frame, parts, out);
        self.counters.add(&parts.tag, verdict, out.as_slice());
        verdict
    }

    /// The verdict on a frame, as by `receive`; nothing is counted.
    fn decide(&mut self, policy: Policy, frame: &[u8], parts: &Parts, out: &mut FrameBuf) -> Verdict
        requires read { Tag frame.now parts.now × (¬ IsForKay frame.now) }
        requires empty { out.old.items ≡ [] }
        ensures verdict { ChannelReceives policy.validate policy.replay self.old self.new frame.now
            result out.new.items }
        ensures sci { self.new.sci ≡ self.old.sci }
        ensures sas { sas_in (Some self.new) ≡ sas_in (Some self.old) }
        ensures ceilings { ceilings_in (Some self.new) ≡ ceilings_in (Some self.old) }
        ensures counters { self.new.counters ≡ self.old.counters }
    {
        let an = parts.tag.an;
        match &mut self.associations[an.get() as usize] {
            Some(association) => association.receive(self.sci, policy, frame, parts, out),
            None => discard_or_deliver(
                policy.validate,
                Reason::NotUsingSa,
                Kind::UnusedSa,
                frame,
                parts,
                out,
            ),
        }
    }

    /// The next and the lowest acceptable packet number of an association. `None` if there is none.
    pub(crate) fn numbers(&self, an: An) -> Option<RxNumbers>
        ensures { result ≡ option_map (λ (n : Numbers). record { next = n.next; lowest = n.lowest })
            (numbers_in (Some self.now) an) }
    {
        let association = self.associations[an.get() as usize].as_ref()?;
        Some(RxNumbers {
            next: association.next,
            lowest: association.lowest,
        })
    }

    /// The need of the association at a number.
    fn need_at(&self, an: An, block: u32) -> Option<RxNeed>
        ensures { option_map
            (λ (need : RxNeed). record { sci = need.sci; an = need.an; pn = need.pn }) result
            ≡ need_of block self.now.sci an (numbers_in (Some self.now) an)
            (ceilings_in (Some self.now) an) }
    {
        let association = self.associations[an.get() as usize].as_ref()?;
        association.need(self.sci, an, block)
    }

    /// The need of the first association, by number, that has one.
    pub(crate) fn need(&self, block: u32) -> Option<RxNeed>
        ensures { option_map
            (λ (need : RxNeed). record { sci = need.sci; an = need.an; pn = need.pn }) result
            ≡ first_need (map (λ an. need_of block self.now.sci an (numbers_in (Some self.now) an)
            (ceilings_in (Some self.now) an))
            (0 ∷ 1 ∷ 2 ∷ 3 ∷ [])) }
    {
        let [first, second, third, fourth] = An::all();
        self.need_at(first, block)
            .or_else(|| self.need_at(second, block))
            .or_else(|| self.need_at(third, block))
            .or_else(|| self.need_at(fourth, block))
    }
}
