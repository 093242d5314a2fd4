//! A SecTAG, and the parts of a tagged frame.

use arrayvec::ArrayVec;
use macs_fields::{An, Pn, Sci};

/// The shortest frame, in octets: two addresses and an EtherType.
pub const MIN_FRAME: usize = 14;

/// The longest frame, in octets.
pub const MAX_FRAME: usize = 9216;

/// The length of the two addresses at the start of a frame, in octets.
pub const ADDRESS_OCTETS: usize = 12;

/// The length of an ICV, in octets.
pub(crate) const ICV_OCTETS: usize = 16;

/// A frame of at most 9,216 octets.
pub type FrameBuf = ArrayVec<u8, MAX_FRAME>;

/// How a SecTAG names its secure channel (IEEE Std 802.1AE-2018, 9.5 and 9.9).
#[derive(Debug, Clone, Copy, PartialEq, Eq)]
pub enum ScName {
    /// The SecTAG has an explicit SCI: SC is set.
    Explicit(Sci),
    /// The source address with port 00-01: ES is set.
    EndStation,
    /// The receiver knows the channel: SC and ES are clear.
    Implicit,
}

impl ScName {
    ghost use Rattle.std.specs.Prelude.{◌≡◌};
    ghost use Rattle.macs_frame.specs.Protection.{overhead};

    /// How many octets longer than its plain frame a frame protected with such a SecTAG is: 16 for
    /// the SecTAG with an explicit SCI, else 8, and 16 for the ICV (9.3, 9.11).
    pub fn overhead(self) -> usize
        ensures { result ≡ overhead self }
    {
        match self {
            ScName::Explicit(_) => 16 + ICV_OCTETS,
            ScName::EndStation | ScName::Implicit => 8 + ICV_OCTETS,
        }
    }
}

/// The fields of a SecTAG. `encrypted` is its E bit and `changed` its C bit (9.5).
#[derive(Debug, Clone, Copy, PartialEq, Eq)]
pub struct SecTag {
    pub an: An,
    pub pn: Pn,
    pub name: ScName,
    pub encrypted: bool,
    pub changed: bool,
}

/// The positions in a tagged frame, counting octets from 0: Secure Data are the octets from `start`
/// to before `end`, and the ICV is the 16 octets from `end` on.
#[derive(Debug, Clone, Copy, PartialEq, Eq)]
pub struct Parts {
    pub tag: SecTag,
    pub start: usize,
    pub end: usize,
}

/// What is wrong with a frame or its SecTAG, in the order in which the faults are checked.
#[derive(Debug, Clone, Copy, PartialEq, Eq)]
pub enum TagFault {
    /// The frame has fewer than 14 octets.
    Runt,
    /// The frame has more than 9,216 octets.
    Oversize,
    /// The EtherType is not 88-E5.
    NoTag,
    /// The SecTAG breaks a rule of 9.12, or has SCB set.
    BadTag,
    /// E is set and C clear: the frame is for the key agreement entity (9.5).
    ForKay,
}
