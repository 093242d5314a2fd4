//! Frames of outside origin: IEEE Std 802.1AE-2018, Annex C, and Python's `cryptography`. They are
//! sealed and opened, sent by a transmit channel, and judged by receive channels. Files of captures.

mod altered;
mod capture_files;
mod known_frames;
mod long_frames;
mod opening;
mod ranges;
mod reading;
mod receiving;
mod sealing;
mod sending;
mod tabled;
mod vectors;

use macs_aes::Key;
use macs_frame::{
    An, FrameBuf, MAX_FRAME, MIN_FRAME, Offset, OpenFault, Pn, ScName, Sci, SecTag, open_frame,
    seal_frame,
};
use macs_gcm::GcmKey;
use std::process::Abort;

/// The end of the packet numbers.
const END: u64 = 4_294_967_296;

/// How a SecTAG names its channel.
#[derive(Clone, Copy)]
enum Naming {
    Explicit,
    EndStation,
    Implicit,
}

/// What a SecTAG says besides the SCI.
#[derive(Clone, Copy)]
struct Fields {
    naming: Naming,
    association: u8,
    number: u32,
    encrypted: bool,
    changed: bool,
}

impl Fields {
    fn name(&self, sci: u64) -> ScName {
        match self.naming {
            Naming::Explicit => ScName::Explicit(Sci(sci.to_be_bytes())),
            Naming::EndStation => ScName::EndStation,
            Naming::Implicit => ScName::Implicit,
        }
    }

    fn tag(&self, rt: &impl Abort, sci: u64) -> SecTag {
        SecTag {
            an: An::new(self.association).expect(rt, "association"),
            pn: Pn::new(self.number).expect(rt, "packet number"),
            name: self.name(sci),
            encrypted: self.encrypted,
            changed: self.changed,
        }
    }
}

/// What a frame is protected and opened under.
#[derive(Clone, Copy)]
struct Security {
    key: Key,
    sci: u64,
    offset: Offset,
}

impl Security {
    /// Protects a plain frame.
    fn seal(&self, rt: &impl Abort, fields: &Fields, plain: &[u8]) -> FrameBuf {
        let key = GcmKey::new(&self.key);
        let sci = Sci(self.sci.to_be_bytes());
        let tag = fields.tag(rt, self.sci);
        let mut out = used_buffer();
        assert!(rt; plain.len() >= MIN_FRAME);
        assert!(rt; plain.len() <= MAX_FRAME - tag.name.overhead());
        assert!(rt; tag.encrypted == tag.changed);
        seal_frame(&key, sci, &tag, self.offset, plain, &mut out);
        out
    }

    /// Opens a frame: the answer, and what the buffer holds then.
    fn open(&self, frame: &[u8]) -> (Result<(An, Pn), OpenFault>, FrameBuf) {
        let key = GcmKey::new(&self.key);
        let sci = Sci(self.sci.to_be_bytes());
        let mut out = used_buffer();
        let found = open_frame(&key, sci, self.offset, frame, &mut out);
        (found, out)
    }

    /// Opens a frame to this association, packet number and plain frame.
    fn check_opened(&self, rt: &impl Abort, frame: &[u8], fields: &Fields, plain: &[u8]) {
        let (found, out) = self.open(frame);
        let tag = fields.tag(rt, self.sci);
        assert_eq!(rt; found, Ok((tag.an, tag.pn)));
        assert_eq!(rt; out.as_slice(), plain);
    }

    /// Opens a frame that has this fault, to no octet.
    fn check_refused(&self, rt: &impl Abort, frame: &[u8], fault: OpenFault) {
        let (found, out) = self.open(frame);
        assert_eq!(rt; found, Err(fault));
        assert!(rt; out.is_empty());
    }
}

/// A protected frame, what it is opened under, and what it opens to. A line of a frame is its
/// addresses, its SecTAG, its Secure Data, its ICV or its padding, which is left out of its length.
#[derive(Clone, Copy)]
struct Case {
    key: u128,
    sci: u64,
    offset: Offset,
    fields: Fields,
    frame: &'static [u8],
    length: usize,
    plain: &'static [u8],
}

impl Case {
    fn security(&self) -> Security {
        Security {
            key: Key::Short(self.key.to_be_bytes()),
            sci: self.sci,
            offset: self.offset,
        }
    }
}

/// Annex C of the standard: integrity protection of a frame with an SCI.
const INTEGRITY: Case = Case {
    key: 0xad7a2bd03eac835a6f620fdcb506b345,
    sci: 0x12153524c0895e81,
    offset: Offset::Zero,
    fields: Fields {
        naming: Naming::Explicit,
        association: 2,
        number: 0xb2c28465,
        encrypted: false,
        changed: false,
    },
    frame: known_frames::INTEGRITY,
    length: 86,
    plain: known_frames::INTEGRITY_PLAIN,
};

/// Annex C: confidentiality protection of a frame with an SCI.
const CONFIDENTIALITY: Case = Case {
    key: 0xad7a2bd03eac835a6f620fdcb506b345,
    sci: 0x12153524c0895e81,
    offset: Offset::Zero,
    fields: Fields {
        naming: Naming::Explicit,
        association: 2,
        number: 0xb2c28465,
        encrypted: true,
        changed: true,
    },
    frame: known_frames::CONFIDENTIALITY,
    length: 92,
    plain: known_frames::CONFIDENTIALITY_PLAIN,
};

/// Annex C: confidentiality protection of an end station's frame.
const END_STATION: Case = Case {
    key: 0x071b113b0ca743fecccf3d051f737382,
    sci: 0xf0761e8dcd3d0001,
    offset: Offset::Zero,
    fields: Fields {
        naming: Naming::EndStation,
        association: 0,
        number: 0x76d457ed,
        encrypted: true,
        changed: true,
    },
    frame: known_frames::END_STATION,
    length: 78,
    plain: known_frames::END_STATION_PLAIN,
};

/// By Python's `cryptography`: 30 octets in the clear, 12 encrypted.
const THIRTY: Case = Case {
    key: 0x071b113b0ca743fecccf3d051f737382,
    sci: 0xf0761e8dcd3d0001,
    offset: Offset::Thirty,
    fields: Fields {
        naming: Naming::Explicit,
        association: 2,
        number: 0x76d457ed,
        encrypted: true,
        changed: true,
    },
    frame: b"\xe2\x01\x06\xd7\xcd\x0d\xf0\x76\x1e\x8d\xcd\x3d\
\x88\xe5\x2e\x2a\x76\xd4\x57\xed\xf0\x76\x1e\x8d\xcd\x3d\x00\x01\
\x08\x00\x0f\x10\x11\x12\x13\x14\x15\x16\x17\x18\x19\x1a\x1b\x1c\x1d\x1e\x1f\x20\x21\x22\x23\x24\x25\x26\x27\x28\x29\x2a\x30\x98\xe5\x15\x06\xbf\xe7\x27\xa8\x50\xb6\x6d\
\x31\xad\x27\x85\x49\x26\xec\x3c\x24\x2f\xf4\xb0\xaf\x6b\x8a\xa0",
    length: 86,
    plain: known_frames::END_STATION_PLAIN,
};

/// By Python's `cryptography`: the User Data are shorter than the offset.
const FIFTY: Case = Case {
    key: 0x071b113b0ca743fecccf3d051f737382,
    sci: 0xf0761e8dcd3d0001,
    offset: Offset::Fifty,
    fields: Fields {
        naming: Naming::Explicit,
        association: 3,
        number: 0x76d457ed,
        encrypted: true,
        changed: true,
    },
    frame: b"\xe2\x01\x06\xd7\xcd\x0d\xf0\x76\x1e\x8d\xcd\x3d\
\x88\xe5\x2f\x2a\x76\xd4\x57\xed\xf0\x76\x1e\x8d\xcd\x3d\x00\x01\
\x08\x00\x0f\x10\x11\x12\x13\x14\x15\x16\x17\x18\x19\x1a\x1b\x1c\x1d\x1e\x1f\x20\x21\x22\x23\x24\x25\x26\x27\x28\x29\x2a\x2b\x2c\x2d\x2e\x2f\x30\x31\x32\x33\x34\x00\x04\
\x67\x45\xf2\x80\x10\x7a\x19\x5b\xd3\x4a\x82\x30\x0d\xca\x62\xcb",
    length: 86,
    plain: known_frames::END_STATION_PLAIN,
};

/// By Python's `cryptography`: a channel that is not named, of another address than the frame's
/// source, and padding to 60 octets.
const PADDED: Case = Case {
    key: 0x071b113b0ca743fecccf3d051f737382,
    sci: 0x12153524c0895e81,
    offset: Offset::Zero,
    fields: Fields {
        naming: Naming::Implicit,
        association: 1,
        number: 1,
        encrypted: true,
        changed: true,
    },
    frame: b"\xe2\x01\x06\xd7\xcd\x0d\xf0\x76\x1e\x8d\xcd\x3d\
\x88\xe5\x0d\x02\x00\x00\x00\x01\
\x4e\x24\
\xae\xf2\xa9\x53\x0b\xae\x26\x3d\xa4\x75\xd3\xab\x17\xe4\xbb\x27\
\x00\x00\x00\x00\x00\x00\x00\x00\x00\x00\x00\x00\x00\x00\x00\x00\x00\x00\x00\x00\x00\x00",
    length: 38,
    plain: known_frames::SHORTEST_PLAIN,
};

const CASES: &[Case] = &[
    INTEGRITY,
    CONFIDENTIALITY,
    END_STATION,
    THIRTY,
    FIFTY,
    PADDED,
];

fn number_of(rt: &impl Abort, association: u8) -> An {
    An::new(association).expect(rt, "association number")
}

/// A buffer with an octet that has to go.
fn used_buffer() -> FrameBuf {
    let mut out = FrameBuf::new();
    out.push(0);
    out
}

/// A frame cut to so many octets, or padded to them with zeros.
fn cut_or_padded(rt: &impl Abort, octets: &[u8], count: usize) -> FrameBuf {
    let mut frame = FrameBuf::new();
    for at in 0..count {
        assert!(rt; !frame.is_full());
        frame.push(*octets.get(at).unwrap_or(&0));
    }
    frame
}

fn change(rt: &impl Abort, frame: &mut FrameBuf, at: usize, octet: u8) {
    assert!(rt; at < frame.len());
    frame[at] = octet;
}
