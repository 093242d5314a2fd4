//! Headers and record headers, converted between fields and octets.

ghost use Rattle.std.specs.Prelude.{◌≡◌, ◌+◌, ◌≤◌, ◌<◌, length, IfErr, IfOk, OnOk};
ghost use Rattle.macs_pcap.specs.Faults.{field_fault, record_header_fault, max_records};
ghost use Rattle.macs_pcap.specs.Header.{header_in, header_text};
ghost use Rattle.macs_pcap.specs.Header.{is_magic as is_magic_number};
ghost use Rattle.macs_pcap.specs.Header.{number_at, octets_of};
ghost use Rattle.macs_pcap.specs.Reading.{IsOfOctets, fault_in};
ghost use Rattle.macs_pcap.specs.Records.{IsSoundRecordHeader, record_header_text, kept_in};
ghost use Rattle.macs_pcap.specs.Records.{stamp_in};

use crate::fault::PcapFault;
use crate::header::{Header, LONGEST, Stamp};
use byteorder::{BigEndian, ByteOrder, LittleEndian};

/// The magic of a capture whose timestamps are in microseconds.
const MICROSECONDS: u32 = 0xa1b2_c3d4;

/// The magic of a capture whose timestamps are in nanoseconds.
const NANOSECONDS: u32 = 0xa1b2_3c4d;

/// The number in the two octets starting at a place.
#[tactic(auto, unfolding(crate::specs::Header::number_at))]
fn u16_at(big: bool, octets: &[u8], place: usize) -> u16
    requires { place + 2 ≤ length octets.now }
    ensures { result ≡ number_at big 2 place octets.now }
{
    if big {
        BigEndian::read_u16(&octets[place..])
    } else {
        LittleEndian::read_u16(&octets[place..])
    }
}

/// The number in the four octets starting at a place.
#[tactic(auto, unfolding(crate::specs::Header::number_at))]
fn u32_at(big: bool, octets: &[u8], place: usize) -> u32
    requires { place + 4 ≤ length octets.now }
    ensures { result ≡ number_at big 4 place octets.now }
{
    if big {
        BigEndian::read_u32(&octets[place..])
    } else {
        LittleEndian::read_u32(&octets[place..])
    }
}

fn is_magic(number: u32) -> bool
    ensures { result ≡ is_magic_number number }
{
    number == MICROSECONDS || number == NANOSECONDS
}

/// The fields of a header, or the first of its faults.
pub(crate) fn parse_header(octets: &[u8; 24]) -> Result<Header, PcapFault>
    ensures header { IfOk result (λ header. header ≡ header_in octets.now) }
    ensures fault { fault_in result ≡ field_fault octets.now }
    ensures names { IfErr result IsOfOctets }
{
    let big = is_magic(u32_at(true, octets, 0));
    if !big && !is_magic(u32_at(false, octets, 0)) {
        return Err(PcapFault::BadMagic);
    }
    if u16_at(big, octets, 4) != 2 || u16_at(big, octets, 6) != 4 {
        return Err(PcapFault::BadVersion);
    }
    if u32_at(big, octets, 20) != 1 {
        return Err(PcapFault::NotEthernet);
    }
    Ok(Header {
        big,
        nanos: u32_at(big, octets, 0) == NANOSECONDS,
        zone: u32_at(big, octets, 8),
        sigfigs: u32_at(big, octets, 12),
    })
}

/// The fields of a record header that are needed.
#[derive(Clone, Copy)]
pub(crate) struct RecordHeader {
    pub(crate) stamp: Stamp,
    /// How many octets the frame has, 0 to 262,144.
    pub(crate) kept: u32,
}

/// The fields of a record header, after `count` capture records, or the first of its faults.
pub(crate) fn parse_record_header(
    big: bool,
    count: u32,
    octets: &[u8; 16],
) -> Result<RecordHeader, PcapFault>
    ensures stamp { IfOk result (λ header. header.stamp ≡ stamp_in big octets.now) }
    ensures kept { IfOk result (λ header. header.kept ≡ kept_in big octets.now) }
    ensures sound { IfOk result (λ header. IsSoundRecordHeader big octets.now) }
    ensures few { OnOk result (count < max_records) }
    ensures fault { fault_in result ≡ record_header_fault big count octets.now }
    ensures names { IfErr result IsOfOctets }
{
    if count == u32::MAX {
        return Err(PcapFault::TooManyRecords);
    }
    let kept = u32_at(big, octets, 8);
    if kept > LONGEST {
        return Err(PcapFault::RecordTooLong);
    }
    if kept < u32_at(big, octets, 12) {
        return Err(PcapFault::CutRecord);
    }
    let stamp = Stamp {
        seconds: u32_at(big, octets, 0),
        fraction: u32_at(big, octets, 4),
    };
    Ok(RecordHeader { stamp, kept })
}

/// A number in two octets.
fn u16_octets(big: bool, number: u16) -> [u8; 2]
    ensures { result ≡ octets_of big 2 number }
{
    if big {
        number.to_be_bytes()
    } else {
        number.to_le_bytes()
    }
}

/// A number in four octets.
fn u32_octets(big: bool, number: u32) -> [u8; 4]
    ensures { result ≡ octets_of big 4 number }
{
    if big {
        number.to_be_bytes()
    } else {
        number.to_le_bytes()
    }
}

/// The 24 octets of a header, with the longest frame as its snaplen.
pub(crate) fn header_octets(header: &Header) -> [u8; 24]
    ensures { result ≡ header_text header.now }
{
    let big = header.big;
    let magic = if header.nanos {
        NANOSECONDS
    } else {
        MICROSECONDS
    };
    let [a0, a1, a2, a3] = u32_octets(big, magic);
    let [b0, b1] = u16_octets(big, 2);
    let [c0, c1] = u16_octets(big, 4);
    let [d0, d1, d2, d3] = u32_octets(big, header.zone);
    let [e0, e1, e2, e3] = u32_octets(big, header.sigfigs);
    let [f0, f1, f2, f3] = u32_octets(big, LONGEST);
    let [g0, g1, g2, g3] = u32_octets(big, 1);
    [
        a0, a1, a2, a3, b0, b1, c0, c1, d0, d1, d2, d3, e0, e1, e2, e3, f0, f1, f2, f3, g0, g1, g2,
        g3,
    ]
}

/// The 16 octets of the record header before a frame of `size` octets.
pub(crate) fn record_header_octets(big: bool, stamp: Stamp, size: u32) -> [u8; 16]
    ensures { result ≡ record_header_text big stamp size }
{
    let [a0, a1, a2, a3] = u32_octets(big, stamp.seconds);
    let [b0, b1, b2, b3] = u32_octets(big, stamp.fraction);
    let [c0, c1, c2, c3] = u32_octets(big, size);
    [
        a0, a1, a2, a3, b0, b1, b2, b3, c0, c1, c2, c3, c0, c1, c2, c3,
    ]
}
