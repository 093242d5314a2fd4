//! The verdict on a received frame.

/// The verdict on a received frame (IEEE Std 802.1AE-2018, 10.6 and 10.7).
#[derive(Clone, Copy, Debug, PartialEq, Eq)]
pub enum Verdict {
    /// It is delivered to the controlled side.
    Delivered(Kind),
    /// It is dropped.
    Discarded(Reason),
    /// It verified, but its packet number is not reserved yet. Nothing is delivered, and it must be
    /// submitted again once the ceiling is raised.
    HeldBack,
}

/// How a frame is delivered.
#[derive(Clone, Copy, Debug, PartialEq, Eq)]
pub enum Kind {
    /// It verified.
    Ok,
    /// It verified, with replay protection off, and its packet number is below the lowest
    /// acceptable one.
    Delayed,
    /// It did not verify; validation is not strict, and C is clear.
    Invalid,
    /// It has no SecTAG, and validation is not strict.
    Untagged,
    /// It names no channel that exists; validation is not strict, and C is clear.
    UnknownSci,
    /// Its association does not exist; validation is not strict, and C is clear.
    UnusedSa,
}

/// Why a frame is discarded.
#[derive(Clone, Copy, Debug, PartialEq, Eq)]
pub enum Reason {
    /// It has fewer than 14 octets.
    Runt,
    /// It has more than 9,216 octets.
    Oversize,
    /// It has no SecTAG, and validation is strict.
    NoTag,
    /// Its SecTAG breaks a rule of 9.12, or has SCB set.
    BadTag,
    /// E is set and C clear: it is for the key agreement entity.
    ForKay,
    /// It names no channel that exists; validation is strict, or C is set.
    NoSci,
    /// Its association does not exist; validation is strict, or C is set.
    NotUsingSa,
    /// Replay protection is on, and its packet number is below the lowest acceptable one.
    Late,
    /// It did not verify; validation is strict, or C is set.
    NotValid,
}

/// The verdicts that are counted: all except `HeldBack`.
pub const VERDICTS: [Verdict; 15] = [
    Verdict::Delivered(Kind::Ok),
    Verdict::Delivered(Kind::Delayed),
    Verdict::Delivered(Kind::Invalid),
    Verdict::Delivered(Kind::Untagged),
    Verdict::Delivered(Kind::UnknownSci),
    Verdict::Delivered(Kind::UnusedSa),
    Verdict::Discarded(Reason::Runt),
    Verdict::Discarded(Reason::Oversize),
    Verdict::Discarded(Reason::NoTag),
    Verdict::Discarded(Reason::BadTag),
    Verdict::Discarded(Reason::ForKay),
    Verdict::Discarded(Reason::NoSci),
    Verdict::Discarded(Reason::NotUsingSa),
    Verdict::Discarded(Reason::Late),
    Verdict::Discarded(Reason::NotValid),
];

/// Those that are also counted for each channel.
pub const CHANNEL_VERDICTS: [Verdict; 7] = [
    Verdict::Delivered(Kind::Ok),
    Verdict::Delivered(Kind::Delayed),
    Verdict::Delivered(Kind::Invalid),
    Verdict::Delivered(Kind::UnusedSa),
    Verdict::Discarded(Reason::NotUsingSa),
    Verdict::Discarded(Reason::Late),
    Verdict::Discarded(Reason::NotValid),
];
