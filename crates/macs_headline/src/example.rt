//! The frame that the peer of the example sends.

ghost use Rattle.std.specs.Prelude.{◌<◌, ◌^◌, All};
ghost use Rattle.macs_headline.specs.Example.{peer_frame};

use macs_aes::Key;
use macs_fields::laws::octets_in_range;
use macs_frame::{An, FrameBuf, Offset, Pn, ScName, Sci, SecTag, seal_frame};
use macs_gcm::GcmKey;

/// Its octets are below 256, like those of each frame that is protected in Rust.
pub(crate) fn peer_frame_in_range()
    ensures { All (λ octet. octet < 2 ^ 8) (peer_frame 5) }
{
    let sci = Sci([2, 0, 0, 0, 0, 7, 0, 1]);
    let tag = SecTag {
        an: An::new(0).unwrap(),
        pn: Pn::new(5).unwrap(),
        name: ScName::Explicit(sci),
        encrypted: false,
        changed: false,
    };
    let mut frame = FrameBuf::new();
    seal_frame(
        &GcmKey::new(&Key::Long([2; 32])),
        sci,
        &tag,
        Offset::Zero,
        &[0; 14],
        &mut frame,
    );
    octets_in_range(frame.as_slice());
}
