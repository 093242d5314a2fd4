//! The header and record header of a capture.

/// The longest frame that a capture record may have, in octets. It is written as the snaplen.
pub const LONGEST: u32 = 262_144;

/// The header of a capture, as far as it is carried over from one capture to another. In a capture
/// it has 24 octets, and the magic gives the octet order of every number, including its own:
///
/// | octets | number | read as | written as |
/// |---|---|---|---|
/// | 0 to 3 | magic | a1b2c3d4 or a1b23c4d in one of the two orders | the same |
/// | 4 and 5 | major version | 2 | 2 |
/// | 6 and 7 | minor version | 4 | 4 |
/// | 8 to 11 | zone | anything | the same |
/// | 12 to 15 | sigfigs | anything | the same |
/// | 16 to 19 | snaplen | anything | 262,144 |
/// | 20 to 23 | link type | 1, the whole word | 1 |
#[derive(Clone, Copy, Debug, PartialEq, Eq)]
pub struct Header {
    /// Whether numbers are big-endian.
    pub big: bool,
    /// Whether timestamps are in nanoseconds (a1b23c4d), else in microseconds (a1b2c3d4).
    pub nanos: bool,
    /// The time zone, in seconds west of Greenwich. It does not change any timestamp.
    pub zone: u32,
    /// The accuracy of timestamps. It has no effect.
    pub sigfigs: u32,
}

/// When a frame was captured. It is in the record header, the 16 octets before the frame:
///
/// | octets | number | read as | written as |
/// |---|---|---|---|
/// | 0 to 3 | seconds | anything | the timestamp's |
/// | 4 to 7 | fraction | anything | the timestamp's |
/// | 8 to 11 | kept length, in octets | 0 to 262,144 | that of the frame |
/// | 12 to 15 | original length, in octets | up to the kept length | that of the frame |
#[derive(Clone, Copy, Debug, PartialEq, Eq)]
pub struct Stamp {
    /// Seconds since the beginning of 1970.
    pub seconds: u32,
    /// Nanoseconds or microseconds, according to the header. Its range is not checked.
    pub fraction: u32,
}
