//! Verdicts on frames and what they move, worked out by hand from the rules.

mod channels;
mod counting;
mod fixture;
mod frames;
mod long_keys;
mod names;
mod needs;
mod published;
mod story;
mod streams;
mod tags;
mod verdicts;
mod windows;

use macs_rxsc::{Kind, Reason, Verdict};

const OK: Verdict = Verdict::Delivered(Kind::Ok);

const DELAYED: Verdict = Verdict::Delivered(Kind::Delayed);

const INVALID: Verdict = Verdict::Delivered(Kind::Invalid);

const UNTAGGED: Verdict = Verdict::Delivered(Kind::Untagged);

const UNKNOWN_SCI: Verdict = Verdict::Delivered(Kind::UnknownSci);

const UNUSED_SA: Verdict = Verdict::Delivered(Kind::UnusedSa);

const RUNT: Verdict = Verdict::Discarded(Reason::Runt);

const OVERSIZE: Verdict = Verdict::Discarded(Reason::Oversize);

const NO_TAG: Verdict = Verdict::Discarded(Reason::NoTag);

const BAD_TAG: Verdict = Verdict::Discarded(Reason::BadTag);

const FOR_KAY: Verdict = Verdict::Discarded(Reason::ForKay);

const NO_SCI: Verdict = Verdict::Discarded(Reason::NoSci);

const NOT_USING_SA: Verdict = Verdict::Discarded(Reason::NotUsingSa);

const LATE: Verdict = Verdict::Discarded(Reason::Late);

const NOT_VALID: Verdict = Verdict::Discarded(Reason::NotValid);

/// Every verdict that is counted.
const ALL_VERDICTS: [Verdict; 15] = [
    OK,
    DELAYED,
    INVALID,
    UNTAGGED,
    UNKNOWN_SCI,
    UNUSED_SA,
    RUNT,
    OVERSIZE,
    NO_TAG,
    BAD_TAG,
    FOR_KAY,
    NO_SCI,
    NOT_USING_SA,
    LATE,
    NOT_VALID,
];

/// Every verdict that is counted for a channel.
const CHANNEL_VERDICTS: [Verdict; 7] = [
    OK,
    DELAYED,
    INVALID,
    UNUSED_SA,
    NOT_USING_SA,
    LATE,
    NOT_VALID,
];

/// Every verdict that is counted, and not for a channel.
const OTHER_VERDICTS: [Verdict; 8] = [
    UNTAGGED,
    UNKNOWN_SCI,
    RUNT,
    OVERSIZE,
    NO_TAG,
    BAD_TAG,
    FOR_KAY,
    NO_SCI,
];
