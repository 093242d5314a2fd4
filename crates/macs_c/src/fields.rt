//! The fields of a frame that a C program passes, and those that it gets.

ghost use Rattle.std.specs.Prelude.{◌≡◌, ◌↔◌, IfSome, IsSome, true};
ghost use Rattle.macs_fields.specs.Fields.{octets_of};
ghost use Rattle.macs_c.specs.Fields.{is_in_range, is_offset, name_of, sec_tag};

use macs_fields::{An, Offset, Pn, Sci};
use macs_frame::{ScName, SecTag};

/// A secure channel identifier: the 6 octets of a MAC address, then 2 of a port (9.9).
#[repr(C)]
#[derive(Clone, Copy)]
pub struct MacsSci {
    /// The address as it is sent, then the port, the more significant octet first.
    pub octets: [u8; 8],
}

/// The fields of the SecTAG of a frame that is sealed (9.5 to 9.9), and the confidentiality offset.
#[repr(C)]
#[derive(Clone, Copy)]
pub struct MacsTag {
    /// That of the transmit channel, which is part of the initialisation vector.
    pub sci: MacsSci,
    /// The packet number, not 0.
    pub pn: u32,
    /// The association number, 0 to 3.
    pub an: u8,
    /// How the SecTAG names the channel: 0 not at all, 1 by its SCI, 2 as an end station.
    pub name: u8,
    /// Whether User Data are encrypted: 0 or 1.
    pub encrypted: u8,
    /// How many octets of User Data are in the clear if the others are encrypted: 0, 30 or 50.
    pub offset: u8,
}

/// What is reported about a frame that was opened.
#[repr(C)]
#[derive(Clone, Copy)]
pub struct MacsOpened {
    /// How many octets the plain frame has.
    pub octets: usize,
    /// The packet number in its SecTAG, 1 to 2^32 - 1.
    pub pn: u32,
    /// The association number in its SecTAG, 0 to 3.
    pub an: u8,
}

/// How a SecTAG names its channel. A number above 2, which `tag_from_c` refuses, counts as 0.
fn name_of(tag: &MacsTag) -> ScName
    ensures { result ≡ name_of tag.now }
{
    match tag.name {
        1 => ScName::Explicit(Sci(tag.sci.octets)),
        2 => ScName::EndStation,
        _ => ScName::Implicit,
    }
}

/// The confidentiality offset, `None` for a number of octets that is not 0, 30 or 50.
pub(crate) fn offset_of(octets: u8) -> Option<Offset>
    ensures some { IsSome result ↔ (is_offset octets ≡ true) }
    ensures octets { IfSome result (λ found. octets_of found ≡ octets) }
{
    Offset::new(octets)
}

/// The SecTAG and the offset, `None` if a field is out of its range.
pub(crate) fn tag_from_c(tag: &MacsTag) -> Option<(SecTag, Offset)>
    ensures some { IsSome result ↔ (is_in_range tag.now ≡ true) }
    ensures fields { IfSome result
        (λ found. (found.0 ≡ sec_tag tag.now) × (octets_of found.1 ≡ tag.now.offset)) }
{
    let an = An::new(tag.an)?;
    let pn = Pn::new(tag.pn)?;
    let offset = offset_of(tag.offset)?;
    if tag.name > 2 || tag.encrypted > 1 {
        return None;
    }
    let is_encrypted = tag.encrypted == 1;
    let read = SecTag {
        an,
        pn,
        name: name_of(tag),
        encrypted: is_encrypted,
        changed: is_encrypted,
    };
    Some((read, offset))
}
