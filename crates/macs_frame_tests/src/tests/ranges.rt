//! The ranges of a SecTAG's fields, and of the offset.

use macs_frame::{An, Offset, Pn};

fn association(number: u8) -> Option<u8> {
    Some(An::new(number)?.get())
}

fn packet_number(number: u32) -> Option<u32> {
    Some(Pn::new(number)?.get())
}

fn offset(octets: u8) -> Option<u8> {
    Some(Offset::new(octets)?.get())
}

#[test]
fn bounds_fields(rt: HostRuntime) {
    assert!(rt; association(3) == Some(3));
    assert!(rt; association(4) == None);
    assert!(rt; packet_number(0xffff_ffff) == Some(0xffff_ffff));
    assert!(rt; packet_number(0) == None);
    assert!(rt; offset(30) == Some(30));
    assert!(rt; offset(31) == None);
}
