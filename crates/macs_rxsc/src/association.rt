//! A receive association (IEEE Std 802.1AE-2018, 10.7).

ghost use Rattle.std.specs.Prelude.{◌≡◌, Option, ◌≤◌, ◌<◌, ℕ, List, [], Some, None, nat_lt};
ghost use Rattle.std.specs.Prelude.{if◌then◌else◌, ◌&&◌};
ghost use Rattle.std.specs.Option.{option_map};
ghost use Rattle.macs_frame.specs.Tag.{IsForKay, Tag, tag_of};
ghost use Rattle.macs_rxsc.specs.Receive.{IsOutcome, RxSide, numbers_after_delivery, channel_of};
ghost use Rattle.macs_rxsc.specs.Receive.{numbers_after_hold, delivery_kind, put_numbers};
ghost use Rattle.macs_rxsc.specs.Receive.{seen_after};
ghost use Rattle.macs_rxsc.specs.Needs.{Need, need_of};
ghost use Rattle.macs_rxsc.specs.Value.{association_at_rest, packet_numbers, sa_of};
ghost use Rattle.macs_rxsc.specs.Value.{association_under};

use crate::need::RxNeed;
use crate::policy::Policy;
use crate::unverified::discard_or_deliver;
use crate::verdict::{Kind, Reason, Verdict};
use macs_config::Replay;
use macs_frame::{An, END_OF_NUMBERS, FrameBuf, Offset, Parts, Pn, Sci, open_parts};
use macs_gcm::GcmKey;

/// The packet numbers of a receive association.
///
/// `next` is one more than the greatest number delivered as verified, and initially the
/// association's first number; `lowest` is the lowest acceptable one. Both are 1 to 2^32.
#[derive(Clone, Copy, Debug, PartialEq, Eq)]
pub struct RxNumbers {
    pub next: u64,
    pub lowest: u64,
}

/// A receive association.
///
/// `offset` is that of its encrypted frames. Only frames with numbers below `ceiling` are delivered
/// as verified; `seen` is the greatest number that verified, if any did.
#[derive(Drop)]
pub struct Association {
    pub key: GcmKey,
    pub offset: Offset,
    pub next: u64,
    pub lowest: u64,
    pub ceiling: u64,
    pub seen: Option<Pn>,
}

/// The greater of two packet numbers, where one may be missing.
fn greatest(seen: Option<Pn>, pn: Pn) -> Pn
    ensures { Some result ≡ seen_after seen pn }
{
    match seen {
        Some(seen) if seen.get() > pn.get() => seen,
        _ => pn,
    }
}

/// Raises the lowest acceptable number of an association with the window, if there is one.
pub(crate) fn slide_if_any(association: &mut Option<Association>, window: u32)
    ensures { association.new ≡ option_map (association_under window) association.old }
{
    if let Some(association) = association {
        association.slide(window);
    }
}

/// Lowers the ceiling of an association to its next packet number, if there is one.
pub(crate) fn lower_if_any(association: &mut Option<Association>)
    ensures { association.new ≡ option_map association_at_rest association.old }
{
    if let Some(association) = association {
        association.lower();
    }
}

impl Association {
    /// Lowers the ceiling to the next packet number.
    pub(crate) fn lower(&mut self)
        ensures { self.new ≡ association_at_rest self.old }
    {
        self.ceiling = self.next;
    }

    /// Raises the lowest acceptable number to the next one minus the window. It never falls.
    pub(crate) fn slide(&mut self, window: u32)
        ensures { self.new ≡ association_under window self.old }
    {
        self.lowest = self.lowest.max(self.next.saturating_sub(u64::from(window)));
    }

    /// Whether replay protection is on, and a packet number is below the lowest acceptable one.
    fn is_late(&self, replay: Replay, pn: Pn) -> bool
        ensures { result ≡ (replay.on && nat_lt pn self.now.lowest) }
    {
        replay.on && u64::from(pn.get()) < self.lowest
    }

    /// How a frame that verified is delivered, given its packet number: `None` if that is not below
    /// the ceiling, and the frame is held back.
    fn arrive(&mut self, pn: Pn, window: u32) -> Option<Kind>
        ensures kind { result ≡ (if nat_lt pn self.old.ceiling
            then Some (delivery_kind (packet_numbers self.old) pn) else None) }
        ensures numbers { packet_numbers self.new ≡ (if nat_lt pn self.old.ceiling
            then numbers_after_delivery window (packet_numbers self.old) pn
            else numbers_after_hold (packet_numbers self.old) pn) }
        ensures sa { sa_of self.new ≡ sa_of self.old }
        ensures ceiling { self.new.ceiling ≡ self.old.ceiling }
    {
        self.seen = Some(greatest(self.seen, pn));
        let number = u64::from(pn.get());
        if number >= self.ceiling {
            return None;
        }
        let kind = if number < self.lowest {
            Kind::Delayed
        } else {
            Kind::Ok
        };
        self.next = self.next.max(number + 1);
        self.slide(window);
        Some(kind)
    }

    /// The verdict on a frame that names this association of a channel. The parts are a reading of
    /// it, and `out` is empty before.
    pub(crate) fn receive(
        &mut self,
        sci: Sci,
        policy: Policy,
        frame: &[u8],
        parts: &Parts,
        out: &mut FrameBuf,
    ) -> Verdict
        requires read { Tag frame.now parts.now × (¬ IsForKay frame.now) }
        requires empty { out.old.items ≡ [] }
        ensures verdict { (side : RxSide) (ceilings : List ℕ → ℕ → Option ℕ)
            → side.validate ≡ policy.validate
            → side.replay ≡ policy.replay → channel_of side frame.now ≡ Some sci
            → side.rx sci (tag_of frame.now).an ≡ Some (sa_of self.old)
            → side.numbers sci (tag_of frame.now).an ≡ Some (packet_numbers self.old)
            → ceilings sci (tag_of frame.now).an ≡ Some self.old.ceiling
            → IsOutcome side ceilings frame.now (record {
              verdict = result;
              given = out.new.items;
              numbers = put_numbers side.numbers sci (tag_of frame.now).an
                  (Some (packet_numbers self.new));
            }) }
        ensures sa { sa_of self.new ≡ sa_of self.old }
        ensures ceiling { self.new.ceiling ≡ self.old.ceiling }
    {
        let pn = parts.tag.pn;
        if self.is_late(policy.replay, pn) {
            return Verdict::Discarded(Reason::Late);
        }
        if !open_parts(&self.key, sci, self.offset, frame, parts, out) {
            return discard_or_deliver(
                policy.validate,
                Reason::NotValid,
                Kind::Invalid,
                frame,
                parts,
                out,
            );
        }
        match self.arrive(pn, policy.replay.window) {
            Some(kind) => Verdict::Delivered(kind),
            None => {
                out.clear();
                Verdict::HeldBack
            }
        }
    }

    /// The need of this association of a channel, if it has one. `block` is 1 to 65,536 packet
    /// numbers.
    pub(crate) fn need(&self, sci: Sci, an: An, block: u32) -> Option<RxNeed>
        ensures { option_map
            (λ (need : RxNeed). record { sci = need.sci; an = need.an; pn = need.pn }) result
            ≡ need_of block sci an (Some (packet_numbers self.now)) (Some self.now.ceiling) }
    {
        let pn = self.seen?;
        let seen = u64::from(pn.get());
        let is_low = self.ceiling <= seen
            || self.ceiling.saturating_sub(self.next) <= u64::from(block / 2);
        let raised = END_OF_NUMBERS.min(seen + u64::from(block));
        if is_low && self.ceiling < raised {
            Some(RxNeed { sci, an, pn })
        } else {
            None
        }
    }
}
