//! Why a command is refused.

/// Why a command is refused, in the order in which refusals are checked. A refused command changes
/// nothing.
#[derive(Clone, Copy, Debug, PartialEq, Eq)]
pub enum Refusal {
    /// The start of a new association is 0, which is not a packet number.
    StartRange,
    /// The offset of a new association is not 0, 30 or 50 octets, or not 0 without
    /// confidentiality.
    OffsetChoice,
    /// A new channel has the endpoint's own SCI.
    OwnSci,
    /// The mode would be that of an end station, and the port of the endpoint's SCI is not 00-01.
    EndStationSci,
    /// The receive channel does not exist.
    NoChannel,
    /// A receive channel with that SCI exists.
    ChannelTaken,
    /// There are already 32 receive channels, the maximum.
    ChannelsFull,
    /// There is an association at that number.
    SlotTaken,
    /// There is no association at that number.
    SlotEmpty,
    /// Frames are sent under that association.
    InUse,
    /// The key is spent on the transmit side, or on the receive side for that SCI.
    KeySpent,
    /// 512 keys are already spent on that side, the maximum.
    SpentFull,
}
