//! Frames that are opened, and those that are not.

use super::{
    CASES, Case, END_STATION, INTEGRITY, PADDED, Security, THIRTY, change, cut_or_padded,
    used_buffer,
};
use macs_aes::Key;
use macs_frame::{FrameBuf, Offset, OpenFault, ScName, Sci, TagFault, open_parts, read_tag};
use macs_gcm::GcmKey;
use std::process::Abort;

#[test]
fn opens_frames(rt: HostRuntime) {
    for case in CASES {
        let security = case.security();
        security.check_opened(&rt, case.frame, &case.fields, case.plain);
    }
}

/// With E clear and C set the whole frame is in the clear, and the offset says nothing. The ICV is
/// by Python's `cryptography`.
#[test]
fn opens_changed_octets(rt: HostRuntime) {
    let frame = b"\xd6\x09\xb1\xf0\x56\x63\x7a\x0d\x46\xdf\x99\x8d\
\x88\xe5\x26\x2a\xb2\xc2\x84\x65\x12\x15\x35\x24\xc0\x89\x5e\x81\
\x08\x00\x0f\x10\x11\x12\x13\x14\x15\x16\x17\x18\x19\x1a\x1b\x1c\x1d\x1e\x1f\x20\x21\x22\x23\x24\x25\x26\x27\x28\x29\x2a\x2b\x2c\x2d\x2e\x2f\x30\x31\x32\x33\x34\x00\x01\
\x38\xe4\x0d\x0d\x4f\x5c\x59\xe3\x5c\x4d\x88\x43\x9b\x77\xd4\xf3";
    let mut security = INTEGRITY.security();
    security.offset = Offset::Fifty;
    security.check_opened(&rt, frame, &INTEGRITY.fields, INTEGRITY.plain);
}

/// Opens a frame by the parts that are read from it: how its channel is named, and the plain frame.
fn open_by_parts(security: &Security, frame: &[u8]) -> Result<(ScName, FrameBuf), OpenFault> {
    let key = GcmKey::new(&security.key);
    let sci = Sci(security.sci.to_be_bytes());
    let mut out = used_buffer();
    let parts = read_tag(frame)?;
    if !open_parts(&key, sci, security.offset, frame, &parts, &mut out) {
        return Err(OpenFault::NotValid);
    }
    Ok((parts.tag.name, out))
}

#[test]
fn opens_parts(rt: HostRuntime) {
    let opened = open_by_parts(&THIRTY.security(), THIRTY.frame);
    let (name, out) = opened.ok().expect(&rt, "parts that open");
    assert!(rt; name == THIRTY.fields.name(THIRTY.sci));
    assert_eq!(rt; out.as_slice(), THIRTY.plain);
}

/// A case that is opened under another key or SCI, or whose frame is cut or has another last octet.
struct Refusal {
    case: Case,
    key: u128,
    sci: u64,
    octets: usize,
    last: u8,
    fault: OpenFault,
}

impl Refusal {
    fn security(&self) -> Security {
        Security {
            key: Key::Short(self.key.to_be_bytes()),
            sci: self.sci,
            offset: self.case.offset,
        }
    }

    fn frame(&self, rt: &impl Abort) -> FrameBuf {
        let mut frame = cut_or_padded(rt, self.case.frame, self.octets);
        change(rt, &mut frame, self.octets.saturating_sub(1), self.last);
        frame
    }
}

const REFUSALS: &[Refusal] = &[
    Refusal {
        case: INTEGRITY,
        key: 0xad7a2bd03eac835a6f620fdcb506b345,
        sci: 0x12153524c0895e80,
        octets: 86,
        last: 0xdd,
        fault: OpenFault::OtherSci,
    },
    Refusal {
        case: INTEGRITY,
        key: 0xad7a2bd03eac835a6f620fdcb506b345,
        sci: 0x12153524c0895e80,
        octets: 86,
        last: 0xdc,
        fault: OpenFault::OtherSci,
    },
    Refusal {
        case: END_STATION,
        key: 0x071b113b0ca743fecccf3d051f737382,
        sci: 0xf0761e8dcd3d0002,
        octets: 78,
        last: 0xc3,
        fault: OpenFault::OtherSci,
    },
    Refusal {
        case: PADDED,
        key: 0x071b113b0ca743fecccf3d051f737382,
        sci: 0xf0761e8dcd3d0001,
        octets: 60,
        last: 0x00,
        fault: OpenFault::NotValid,
    },
    Refusal {
        case: INTEGRITY,
        key: 0xad7a2bd03eac835a6f620fdcb506b345,
        sci: 0x12153524c0895e81,
        octets: 86,
        last: 0xdc,
        fault: OpenFault::NotValid,
    },
    Refusal {
        case: INTEGRITY,
        key: 0xad7a2bd03eac835a6f620fdcb506b344,
        sci: 0x12153524c0895e81,
        octets: 86,
        last: 0xdd,
        fault: OpenFault::NotValid,
    },
    Refusal {
        case: INTEGRITY,
        key: 0xad7a2bd03eac835a6f620fdcb506b345,
        sci: 0x12153524c0895e81,
        octets: 85,
        last: 0x25,
        fault: OpenFault::Tag(TagFault::BadTag),
    },
];

#[test]
fn refuses_frames(rt: HostRuntime) {
    for refusal in REFUSALS {
        let frame = refusal.frame(&rt);
        let security = refusal.security();
        security.check_refused(&rt, frame.as_slice(), refusal.fault);
    }
}
