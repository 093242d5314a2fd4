//! The calls of receive channels. What a call asks of its caller is asserted before it.

use crate::tests::{END, number_of};
use macs_aes::Key;
use macs_frame::{FrameBuf, Offset, Sci};
use macs_rxsc::{Rx, Verdict};
use std::process::Abort;

/// A new channel, where there is none and there is room.
pub(super) fn add(rt: &impl Abort, rx: &mut Rx, sci: [u8; 8]) {
    rx.facts();
    assert!(rt; rx.channel_count(Sci(sci), Verdict::HeldBack).is_none());
    assert!(rt; rx.has_room());
    rx.add(Sci(sci));
}

/// A channel that exists goes.
pub(super) fn drop_channel(rt: &impl Abort, rx: &mut Rx, sci: [u8; 8]) {
    rx.facts();
    assert!(rt; rx.channel_count(Sci(sci), Verdict::HeldBack).is_some());
    rx.drop_channel(Sci(sci));
}

/// A new association of an existing channel, where there is none.
pub(super) fn install(
    rt: &impl Abort,
    rx: &mut Rx,
    sci: [u8; 8],
    association: u8,
    key: &Key,
    offset: Offset,
    next: u64,
    ceiling: u64,
) {
    let an = number_of(rt, association);
    rx.facts();
    assert!(rt; rx.channel_count(Sci(sci), Verdict::HeldBack).is_some());
    assert!(rt; rx.numbers(Sci(sci), an).is_none());
    assert!(rt; 1 <= next);
    assert!(rt; next <= ceiling);
    assert!(rt; ceiling <= END);
    rx.install(Sci(sci), an, key, offset, next, ceiling);
}

/// An association that exists goes.
pub(super) fn remove(rt: &impl Abort, rx: &mut Rx, sci: [u8; 8], association: u8) {
    let an = number_of(rt, association);
    rx.facts();
    assert!(rt; rx.numbers(Sci(sci), an).is_some());
    rx.remove(Sci(sci), an);
}

/// The first need is served.
pub(super) fn raise(rt: &impl Abort, rx: &mut Rx, block: u32) {
    let need = rx.needs(block).expect(rt, "need");
    let raised = (u64::from(need.pn.get()) + u64::from(block)).min(END);
    rx.facts();
    rx.raise(need.sci, need.an, raised);
}

/// The first need: the SCI, the association and the greatest number that was seen.
pub(super) fn need_of(rx: &Rx, block: u32) -> Option<([u8; 8], u8, u32)> {
    let need = rx.needs(block)?;
    Some((need.sci.get(), need.an.get(), need.pn.get()))
}

/// The next and the lowest acceptable number of an association, `None` where there is none.
pub(super) fn numbers_of(
    rt: &impl Abort,
    rx: &Rx,
    sci: [u8; 8],
    association: u8,
) -> Option<(u64, u64)> {
    let numbers = rx.numbers(Sci(sci), number_of(rt, association))?;
    Some((numbers.next, numbers.lowest))
}

/// A frame is received into a buffer with an octet that has to go.
pub(super) fn receive(rx: &mut Rx, frame: &[u8], out: &mut FrameBuf) -> Verdict {
    out.clear();
    out.push(0);
    rx.receive(frame, out)
}
