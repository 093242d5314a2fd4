//! Frames: plain ones of sevens, and those of a peer, sealed as a story runs.

use macs_aes::Key;
use macs_frame::{An, FrameBuf, MAX_FRAME, MIN_FRAME, Offset, Pn, ScName, Sci, SecTag, seal_frame};
use macs_gcm::GcmKey;

/// One octet more than any frame may have.
const LONGEST: &[u8] = &[7; 9_217];

/// A plain frame of so many octets, 9,217 at most, each of them a 7.
pub fn sevens(octets: usize) -> &'static [u8] {
    let (frame, _) = LONGEST.split_at(octets.min(LONGEST.len()));
    frame
}

/// What is special about a frame of a peer.
#[derive(Clone, Copy)]
pub struct Form {
    /// E and C are set.
    pub confidential: bool,
    /// The last bit of its ICV is changed.
    pub broken: bool,
    pub offset: Offset,
}

/// What a frame of a peer is sealed under, in a SecTAG that spells the SCI out.
#[derive(Clone, Copy)]
pub struct Sealed {
    pub sci: Sci,
    pub key: Key,
    pub an: An,
    pub pn: Pn,
    pub octets: usize,
}

/// A frame of a peer; an empty one where its plain frame is too short or too long.
pub fn frame_of(sealed: &Sealed, form: Form) -> FrameBuf {
    let mut frame = seal(sealed, form);
    if form.broken {
        change(&mut frame);
    }
    frame
}

fn seal(sealed: &Sealed, form: Form) -> FrameBuf {
    let tag = SecTag {
        an: sealed.an,
        pn: sealed.pn,
        name: ScName::Explicit(sealed.sci),
        encrypted: form.confidential,
        changed: form.confidential,
    };
    let mut frame = FrameBuf::new();
    let plain = sevens(sealed.octets);
    if plain.len() >= MIN_FRAME && plain.len() <= MAX_FRAME - tag.name.overhead() {
        let key = GcmKey::new(&sealed.key);
        seal_frame(&key, sealed.sci, &tag, form.offset, plain, &mut frame);
    }
    frame
}

/// Changes the last bit.
fn change(frame: &mut FrameBuf) {
    if let Some(last) = frame.pop() {
        let _pushed = frame.try_push(last ^ 1);
    }
}

/// How many octets of User Data come before the first that is encrypted, in a protected frame of
/// sevens whose SecTAG spells the SCI out.
pub fn clear_octets(frame: &[u8]) -> u64 {
    let mut count = 0_u64;
    for octet in secure_data(frame) {
        if *octet != 7 {
            return count;
        }
        count = count.saturating_add(1);
    }
    count
}

/// What is between the addresses and the SecTAG, 28 octets, and the ICV, 16 octets.
fn secure_data(frame: &[u8]) -> &[u8] {
    if frame.len() < 44 {
        return &[];
    }
    let (_, secured) = frame.split_at(28);
    let (data, _) = secured.split_at(secured.len() - 16);
    data
}
