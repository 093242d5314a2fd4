//! Why a frame is not sent.

/// Why a plain frame is not protected, in the order in which the faults are checked.
#[derive(Clone, Copy, Debug, PartialEq, Eq)]
pub enum TxFault {
    /// The plain frame has fewer than 14 octets.
    Runt,
    /// The protected frame would have more than 9,216 octets.
    TooLong,
    /// The mode is that of an end station, and the source address is not the SCI's.
    ForeignSource,
    /// No association is selected to send under.
    NoEncodingSa,
    /// All packet numbers of the association are used: the next one would be 2^32.
    Exhausted,
    /// The next packet number is not reserved yet.
    NoNumber,
}
