//! Open and closed gates.

use super::sector_of;
use macs_record::{CLOSED_GATE, SECTOR, is_open, open_gate};

#[test]
fn as_written(rt: HostRuntime) {
    assert_eq!(rt; open_gate(), sector_of(&rt, b"MSECOPEN"));
    assert!(rt; is_open(&open_gate()));
    assert_eq!(rt; CLOSED_GATE, [0; SECTOR]);
    assert!(rt; !is_open(&CLOSED_GATE));
}

#[test]
fn open_whatever_follows(rt: HostRuntime) {
    let mut gate = [0xff; SECTOR];
    gate[..8].copy_from_slice(b"MSECOPEN");
    assert!(rt; is_open(&gate));
}

#[test]
fn closed_where_an_octet_differs(rt: HostRuntime) {
    for place in 0..8 {
        let mut gate = open_gate();
        gate[place] ^= 1;
        assert!(rt; !is_open(&gate));
    }
    assert!(rt; !is_open(&[0xff; SECTOR]));
    assert!(rt; !is_open(&sector_of(&rt, b"\0MSECOPEN")));
    assert!(rt; !is_open(&sector_of(&rt, b"MSECHEAD")));
}
