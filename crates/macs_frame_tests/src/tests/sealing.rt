//! Frames that are sealed against frames from outside, and opened again.

use super::{CASES, Case, Fields, INTEGRITY, Naming, Security, cut_or_padded};
use macs_aes::Key;
use macs_frame::{FrameBuf, Offset, OpenFault, write_tag};
use std::process::Abort;

impl Case {
    /// Seals the plain frame to the frame without its padding, and opens it again.
    fn check_sealed(&self, rt: &impl Abort) {
        let security = self.security();
        let frame = security.seal(rt, &self.fields, self.plain);
        let expected = cut_or_padded(rt, self.frame, self.length);
        assert_eq!(rt; frame.as_slice(), expected.as_slice());
        security.check_opened(rt, frame.as_slice(), &self.fields, self.plain);
    }
}

#[test]
fn seals_frames(rt: HostRuntime) {
    for case in CASES {
        case.check_sealed(&rt);
    }
}

/// What a SecTAG says, the octets of Secure Data after it, and how it is written after one octet
/// that stays.
struct Written {
    fields: Fields,
    secure_len: usize,
    octets: &'static [u8],
}

impl Written {
    fn check(&self, rt: &impl Abort) {
        let tag = self.fields.tag(rt, INTEGRITY.sci);
        let mut out = FrameBuf::new();
        out.push(7);
        write_tag(&tag, self.secure_len, &mut out);
        assert_eq!(rt; out.as_slice(), self.octets);
    }
}

const WRITTEN: &[Written] = &[
    Written {
        fields: Fields {
            naming: Naming::Explicit,
            association: 2,
            number: 0xb2c28465,
            encrypted: false,
            changed: false,
        },
        secure_len: 42,
        octets: b"\x07\x88\xe5\x22\x2a\xb2\xc2\x84\x65\x12\x15\x35\x24\xc0\x89\x5e\x81",
    },
    Written {
        fields: Fields {
            naming: Naming::EndStation,
            association: 3,
            number: 0x76d457ed,
            encrypted: true,
            changed: true,
        },
        secure_len: 48,
        octets: b"\x07\x88\xe5\x4f\x00\x76\xd4\x57\xed",
    },
    Written {
        fields: Fields {
            naming: Naming::Implicit,
            association: 1,
            number: 1,
            encrypted: true,
            changed: true,
        },
        secure_len: 47,
        octets: b"\x07\x88\xe5\x0d\x2f\x00\x00\x00\x01",
    },
    Written {
        fields: Fields {
            naming: Naming::Implicit,
            association: 1,
            number: 1,
            encrypted: true,
            changed: false,
        },
        secure_len: 47,
        octets: b"\x07\x88\xe5\x09\x2f\x00\x00\x00\x01",
    },
    Written {
        fields: Fields {
            naming: Naming::Implicit,
            association: 1,
            number: 1,
            encrypted: false,
            changed: true,
        },
        secure_len: 47,
        octets: b"\x07\x88\xe5\x05\x2f\x00\x00\x00\x01",
    },
];

#[test]
fn writes_tags(rt: HostRuntime) {
    for written in WRITTEN {
        written.check(&rt);
    }
}

/// What frames of the least and the greatest lengths are protected under.
const SECURITY: Security = Security {
    key: Key::Short([7; 16]),
    sci: 0x0909_0909_0909_0909,
    offset: Offset::Thirty,
};

/// How a channel is named, the octets of a plain frame, and those of its protected frame.
struct Length {
    naming: Naming,
    plain: usize,
    protected: usize,
}

impl Length {
    fn fields(&self) -> Fields {
        Fields {
            naming: self.naming,
            association: 0,
            number: 1,
            encrypted: true,
            changed: true,
        }
    }

    fn overhead(&self) -> usize {
        self.fields().name(SECURITY.sci).overhead()
    }

    fn check(&self, rt: &impl Abort) {
        let plain = cut_or_padded(rt, &[1, 2, 3], self.plain);
        let frame = SECURITY.seal(rt, &self.fields(), plain.as_slice());
        assert!(rt; frame.len() == self.protected);
        match self.naming {
            Naming::EndStation => {
                SECURITY.check_refused(rt, frame.as_slice(), OpenFault::OtherSci);
            }
            Naming::Explicit | Naming::Implicit => {
                SECURITY.check_opened(rt, frame.as_slice(), &self.fields(), plain.as_slice());
            }
        }
    }
}

const LENGTHS: &[Length] = &[
    Length {
        naming: Naming::Explicit,
        plain: 14,
        protected: 46,
    },
    Length {
        naming: Naming::Implicit,
        plain: 14,
        protected: 38,
    },
    Length {
        naming: Naming::Explicit,
        plain: 9184,
        protected: 9216,
    },
    Length {
        naming: Naming::Implicit,
        plain: 9192,
        protected: 9216,
    },
    Length {
        naming: Naming::EndStation,
        plain: 9192,
        protected: 9216,
    },
];

#[test]
fn seals_lengths(rt: HostRuntime) {
    for length in LENGTHS {
        length.check(&rt);
        assert!(rt; length.overhead() == length.protected.wrapping_sub(length.plain));
    }
}
