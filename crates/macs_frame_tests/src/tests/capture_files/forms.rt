//! Both orders of octets and both fractions.

use super::{
    BIG, FRAME, HEADER, LITTLE, SIGFIGS, STAMP, WHOLE, ZONE, begin, gives, source_of, take,
    with_octets, write_whole,
};
use macs_fixtures::{Failure, NarrowWriter};
use macs_pcap::{Header, PcapReader, Source, WriterSink};
use std::alloc::Global;
use std::process::Abort;

/// What a capture is made of, and its magic.
#[derive(Clone, Copy)]
struct Form {
    big: bool,
    nanos: bool,
    magic: [u8; 4],
}

const FORMS: [Form; 4] = [
    Form {
        big: true,
        nanos: false,
        magic: [0xa1, 0xb2, 0xc3, 0xd4],
    },
    Form {
        big: true,
        nanos: true,
        magic: [0xa1, 0xb2, 0x3c, 0x4d],
    },
    Form {
        big: false,
        nanos: false,
        magic: [0xd4, 0xc3, 0xb2, 0xa1],
    },
    Form {
        big: false,
        nanos: true,
        magic: [0x4d, 0x3c, 0xb2, 0xa1],
    },
];

fn header_of(form: Form) -> Header {
    Header {
        big: form.big,
        nanos: form.nanos,
        zone: ZONE,
        sigfigs: SIGFIGS,
    }
}

fn capture_of(rt: &impl Abort, form: Form) -> [u8; WHOLE] {
    with_octets(rt, if form.big { BIG } else { LITTLE }, 0, form.magic)
}

/// The next record is the worked one, and after it the capture ends.
fn has_one_record<R: Source>(rt: &impl Abort, alloc: Global, reader: &mut PcapReader<R>) {
    let mut frame = Vec::new(alloc);
    for expected in [Some(STAMP), None] {
        assert!(rt; gives(take(reader, &mut frame), expected));
        assert!(rt; frame.is_empty() == expected.is_none());
        assert!(rt; frame.is_empty() || frame.as_slice() == FRAME.as_slice());
    }
}

/// Reads a capture with the worked record and nothing else.
fn reads(rt: &impl Abort, alloc: Global, octets: &[u8], header: Header) {
    let mut reader = begin(source_of(octets, 0)).ok().expect(rt, "header");
    assert!(rt; *reader.header() == header);
    has_one_record(rt, alloc, &mut reader);
}

#[test]
fn four_captures_are_read(rt: HostRuntime) {
    for form in FORMS {
        reads(&rt, rt.alloc(), &capture_of(&rt, form), header_of(form));
    }
}

#[test]
fn four_captures_are_written(rt: HostRuntime) {
    for form in FORMS {
        let mut writer = NarrowWriter::new(rt.alloc(), 0, Failure::Error);
        assert!(rt; write_whole(&rt, WriterSink::new(&mut writer), &header_of(form)).is_ok());
        assert!(rt; writer.octets() == capture_of(&rt, form).as_slice());
    }
}

/// The snaplen is not kept: whatever was read, 262,144 is written.
#[test]
fn any_snaplen_is_read(rt: HostRuntime) {
    for snaplen in [[0, 0, 0, 0], [0, 0, 0xff, 0xff], [0xff, 0xff, 0xff, 0xff]] {
        let octets = with_octets(&rt, BIG, 16, snaplen);
        let reader = begin(source_of(&octets, 0)).ok().expect(&rt, "header");
        let header = *reader.header();
        let mut writer = NarrowWriter::new(rt.alloc(), HEADER as u64 + 1, Failure::Error);
        assert!(rt; write_whole(&rt, WriterSink::new(&mut writer), &header).is_err());
        assert!(rt; writer.octets() == &BIG[..HEADER]);
    }
}
