//! Why a capture cannot be read or written.

/// Why a capture cannot be read, or written, any further. If several faults apply the first one is
/// returned: those of the header in the order `CutFile`, `BadMagic`, `BadVersion`, `NotEthernet`;
/// those of a capture record in the order `CutFile` (in its record header), `TooManyRecords`,
/// `RecordTooLong`, `CutRecord`, `Memory`, `CutFile` (in its frame). `Read` comes before all that
/// would have been found after the read that failed.
#[derive(Clone, Copy, Debug, PartialEq, Eq)]
pub enum PcapFault {
    /// A read failed, for any reason: an interrupted read failed too.
    Read,
    /// The first four octets are neither a1b2c3d4 nor a1b23c4d in either octet order.
    BadMagic,
    /// The version is not 2.4.
    BadVersion,
    /// The link type, as a word of four octets, is not 1.
    NotEthernet,
    /// The input ends inside the header, inside a record header, or inside a frame. So this is the
    /// fault of an empty input, and of each header shorter than 24 octets, regardless of its
    /// contents.
    CutFile,
    /// The kept length of a capture record is less than the original one.
    CutRecord,
    /// The kept length of a capture record is greater than 262,144 octets.
    RecordTooLong,
    /// A write or a flush failed, or a write took no octet.
    Write,
    /// Memory ran out for the octets of a frame.
    Memory,
    /// A record header comes after 2^32 - 1 capture records.
    TooManyRecords,
}
