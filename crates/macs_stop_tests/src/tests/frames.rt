//! Frames: plain ones from the controlled side, and those of the peer.

use super::script::{PEER_KEY, PEER_NUMBER};
use macs_frame::{An, FrameBuf, MAX_FRAME, MIN_FRAME, Offset, Pn, ScName, Sci, SecTag, seal_frame};
use macs_gcm::GcmKey;
use std::process::Abort;

/// The peer's channel.
pub(super) const PEER: Sci = Sci([4; 8]);

/// A plain frame.
pub(super) const PLAIN: &[u8] = &[7; 62];

/// The peer's frame with this packet number.
pub(super) fn peers_frame(rt: &impl Abort, number: u32) -> FrameBuf {
    let tag = SecTag {
        an: An::new(PEER_NUMBER).expect(rt, "association number"),
        pn: Pn::new(number).expect(rt, "packet number"),
        name: ScName::Explicit(PEER),
        encrypted: true,
        changed: true,
    };
    assert!(rt; PLAIN.len() >= MIN_FRAME);
    assert!(rt; PLAIN.len() <= MAX_FRAME - tag.name.overhead());
    let mut frame = FrameBuf::new();
    seal_frame(
        &GcmKey::new(&PEER_KEY),
        PEER,
        &tag,
        Offset::Zero,
        PLAIN,
        &mut frame,
    );
    frame
}
