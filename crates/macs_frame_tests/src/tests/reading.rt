//! SecTAGs that are read, and those with a fault.

use super::{END_STATION, Fields, INTEGRITY, Naming, change, cut_or_padded};
use macs_frame::{Parts, TagFault, read_tag};
use std::process::Abort;

/// The octets that a frame begins with, and what its SecTAG says.
#[derive(Clone, Copy)]
struct Head {
    octets: &'static [u8],
    sci: u64,
    fields: Fields,
}

/// The addresses and the SecTAG of the frame of Annex C under integrity, but with SL 0 and packet
/// number 1.
const LONG: Head = Head {
    octets: b"\xd6\x09\xb1\xf0\x56\x63\x7a\x0d\x46\xdf\x99\x8d\
\x88\xe5\x22\x00\x00\x00\x00\x01\x12\x15\x35\x24\xc0\x89\x5e\x81",
    sci: INTEGRITY.sci,
    fields: Fields {
        naming: Naming::Explicit,
        association: 2,
        number: 1,
        encrypted: false,
        changed: false,
    },
};

/// The addresses and the SecTAG of the end station's frame in Annex C, but with SL 0 and packet
/// number 1.
const SHORT: Head = Head {
    octets: b"\xe2\x01\x06\xd7\xcd\x0d\xf0\x76\x1e\x8d\xcd\x3d\
\x88\xe5\x4c\x00\x00\x00\x00\x01",
    sci: END_STATION.sci,
    fields: Fields {
        naming: Naming::EndStation,
        association: 0,
        number: 1,
        encrypted: true,
        changed: true,
    },
};

/// The whole frame of Annex C under integrity.
fn published() -> Head {
    Head {
        octets: INTEGRITY.frame,
        sci: INTEGRITY.sci,
        fields: INTEGRITY.fields,
    }
}

/// What reading a SecTAG answers: where the Secure Data start and end, or a fault.
type Places = Result<(usize, usize), TagFault>;

impl Head {
    fn answer(&self, rt: &impl Abort, places: Places) -> Result<Parts, TagFault> {
        let (start, end) = places?;
        let tag = self.fields.tag(rt, self.sci);
        Ok(Parts { tag, start, end })
    }

    /// Reads a frame of so many octets that begins with this head, some octets of it changed.
    fn check(&self, rt: &impl Abort, changes: &[(usize, u8)], count: usize, places: Places) {
        let mut frame = cut_or_padded(rt, self.octets, count);
        for &(at, octet) in changes {
            change(rt, &mut frame, at, octet);
        }
        assert_eq!(rt; read_tag(frame.as_slice()), self.answer(rt, places));
    }
}

#[test]
fn reads_tags(rt: HostRuntime) {
    published().check(&rt, &[], 86, Ok((28, 70)));
    SHORT.check(&rt, &[], 84, Ok((20, 68)));
}

/// A place in the published frame, the octet that is put there, and the fault.
const EDITS: &[(usize, u8, TagFault)] = &[
    (14, 0xa2, TagFault::BadTag),
    (14, 0x62, TagFault::BadTag),
    (14, 0x32, TagFault::BadTag),
    (14, 0x2a, TagFault::ForKay),
    (15, 0x40, TagFault::BadTag),
    (15, 0x80, TagFault::BadTag),
    (12, 0x89, TagFault::NoTag),
    (13, 0xe6, TagFault::NoTag),
];

#[test]
fn refuses_tags(rt: HostRuntime) {
    for &(at, octet, fault) in EDITS {
        published().check(&rt, &[(at, octet)], 86, Err(fault));
    }
}

/// SL, the octets of the frame, and where its Secure Data end.
const TAKEN: &[(u8, usize, usize)] = &[
    (0x00, 92, 76),
    (0x00, 9216, 9200),
    (0x30, 92, 76),
    (0x32, 94, 78),
    (0x3f, 107, 91),
    (0x0f, 60, 43),
    (0x02, 46, 30),
    (0x02, 60, 30),
];

#[test]
fn takes_lengths(rt: HostRuntime) {
    for &(short_length, count, end) in TAKEN {
        LONG.check(&rt, &[(15, short_length)], count, Ok((28, end)));
    }
}

/// SL, the last octet of the packet number, and the octets of the frame.
const REFUSED: &[(u8, u8, usize)] = &[
    (0x00, 1, 91),
    (0x02, 1, 59),
    (0x02, 1, 61),
    (0x02, 0, 60),
    (0x2a, 0, 86),
    (0x2a, 1, 85),
    (0x32, 1, 93),
    (0x32, 1, 95),
    (0x3f, 1, 60),
];

#[test]
fn refuses_lengths(rt: HostRuntime) {
    for &(short_length, number, count) in REFUSED {
        let changes = [(15, short_length), (19, number)];
        LONG.check(&rt, &changes, count, Err(TagFault::BadTag));
    }
}

#[test]
fn refuses_cut_frames(rt: HostRuntime) {
    SHORT.check(&rt, &[], 83, Err(TagFault::BadTag));
    published().check(&rt, &[], 13, Err(TagFault::Runt));
    published().check(&rt, &[], 14, Err(TagFault::BadTag));
}

#[test]
fn refuses_an_oversize_frame(rt: HostRuntime) {
    assert_eq!(rt; read_tag(&[0; 9217]), Err(TagFault::Oversize));
}

#[test]
fn refuses_a_bad_tag_first(rt: HostRuntime) {
    let changes = [(14, 0x2a), (15, 0x02), (19, 0)];
    LONG.check(&rt, &changes, 60, Err(TagFault::BadTag));
}
