//! Published frames with one bit changed, and cut at each length: none of them opens.

use super::{CONFIDENTIALITY, Case, END_STATION, INTEGRITY, cut_or_padded};
use macs_frame::{An, FrameBuf, OpenFault, Pn, TagFault};
use std::process::Abort;

/// How often each answer came: that the frame opens, and the faults in their order.
type Counts = [u32; 8];

/// A published frame, and the answers for it with each bit changed, and cut to each length.
struct Row {
    case: Case,
    bits: Counts,
    cuts: Counts,
}

/// Worked out from the tables of the SecTAG's bits and of the faults:
/// - a changed EtherType is no tag (16 bits), E without C is for KaY (1);
/// - V, SCB, a second name and each bit of SL make a bad tag: another SL is never the length (3 +
///   8);
/// - without SC the first frame has 50 octets of Secure Data for an SL of 42, a bad tag; the second
///   without SC and the third without ES name no channel, and are not valid;
/// - an SCI that is spelled out is another one (64), as is that of an end station's source address
///   (48);
/// - every other bit is authenticated: addresses, the rest of the TCI and AN, the packet number
///   (32), the Secure Data and the ICV;
/// - a frame of fewer than 14 octets is a runt, and another cut one is not as long as SL says.
const ROWS: &[Row] = &[
    Row {
        case: INTEGRITY,
        bits: [0, 0, 0, 16, 4 + 8, 1, 64, 96 + 3 + 32 + 336 + 128],
        cuts: [0, 14, 0, 0, 72, 0, 0, 0],
    },
    Row {
        case: CONFIDENTIALITY,
        bits: [0, 0, 0, 16, 3 + 8, 1, 64, 96 + 4 + 32 + 384 + 128],
        cuts: [0, 14, 0, 0, 78, 0, 0, 0],
    },
    Row {
        case: END_STATION,
        bits: [0, 0, 0, 16, 3 + 8, 1, 48, 48 + 4 + 32 + 336 + 128],
        cuts: [0, 14, 0, 0, 64, 0, 0, 0],
    },
];

/// The place of an answer among the counts.
fn place_of(answer: Result<(An, Pn), OpenFault>) -> usize {
    match answer {
        Ok(_) => 0,
        Err(OpenFault::Tag(TagFault::Runt)) => 1,
        Err(OpenFault::Tag(TagFault::Oversize)) => 2,
        Err(OpenFault::Tag(TagFault::NoTag)) => 3,
        Err(OpenFault::Tag(TagFault::BadTag)) => 4,
        Err(OpenFault::Tag(TagFault::ForKay)) => 5,
        Err(OpenFault::OtherSci) => 6,
        Err(OpenFault::NotValid) => 7,
    }
}

/// Opens a frame under the key, SCI and offset of a case, and counts the answer. After a fault
/// there is no octet.
fn count(rt: &impl Abort, case: &Case, frame: &FrameBuf, counts: &mut Counts) {
    let (answer, out) = case.security().open(frame.as_slice());
    assert!(rt; answer.is_ok() || out.is_empty());
    let place = place_of(answer);
    assert!(rt; place < counts.len());
    counts[place] = counts[place].saturating_add(1);
}

/// The frame of a case with one bit of an octet changed.
fn changed(rt: &impl Abort, case: &Case, at: usize, bit: u8) -> FrameBuf {
    let mut frame = cut_or_padded(rt, case.frame, case.length);
    assert!(rt; at < frame.len());
    frame[at] ^= bit;
    frame
}

/// The answers to a frame with each bit changed in turn.
fn to_changed_bits(rt: &impl Abort, case: &Case) -> Counts {
    let mut counts = [0; 8];
    for at in 0..case.length {
        for bit in [1, 2, 4, 8, 16, 32, 64, 128] {
            count(rt, case, &changed(rt, case, at, bit), &mut counts);
        }
    }
    counts
}

/// The answers to a frame cut to each length below its own.
fn to_cuts(rt: &impl Abort, case: &Case) -> Counts {
    let mut counts = [0; 8];
    for length in 0..case.length {
        let cut = cut_or_padded(rt, case.frame, length);
        count(rt, case, &cut, &mut counts);
    }
    counts
}

/// So many frames and all that were counted.
fn with_all(frames: u32, counts: &Counts) -> u32 {
    let mut total = frames;
    for count in counts {
        total = total.saturating_add(*count);
    }
    total
}

/// 688 changed frames, 736 and 624.
#[test]
fn no_frame_with_a_changed_bit_opens(rt: HostRuntime) {
    let mut frames = 0;
    for row in ROWS {
        let counts = to_changed_bits(&rt, &row.case);
        assert!(rt; counts == row.bits);
        frames = with_all(frames, &counts);
    }
    assert!(rt; frames == 2_048);
}

/// 86 cut frames, 92 and 78.
#[test]
fn no_cut_frame_opens(rt: HostRuntime) {
    let mut frames = 0;
    for row in ROWS {
        let counts = to_cuts(&rt, &row.case);
        assert!(rt; counts == row.cuts);
        frames = with_all(frames, &counts);
    }
    assert!(rt; frames == 256);
}
