//! One bit changed anywhere in the tag, the additional data or the text.

use super::{Octets, Sealing};
use macs_aes::Key;
use std::process::Abort;

/// Additional data of 20 octets and a text of 33.
fn sealing() -> Sealing {
    Sealing {
        key: Key::Short([7; 16]),
        iv: [9; 12],
        aad: Octets::by_rule(11, 5, 20),
        text: Octets::by_rule(7, 3, 33),
    }
}

/// Changes a bit of octet i.
fn flip(rt: &impl Abort, octets: &mut [u8], i: usize) {
    assert!(rt; i < octets.len());
    octets[i] ^= 1 << (i % 8);
}

/// Opening answers false, and leaves the text.
fn check_refused(rt: &impl Abort, sealed: &mut Sealing, tag: &[u8; 16]) {
    let text = sealed.text;
    assert!(rt; !sealed.open(rt, tag));
    assert_eq!(rt; sealed.text.as_slice(), text.as_slice());
}

#[test]
fn refuses_a_changed_tag(rt: HostRuntime) {
    let mut sealed = sealing();
    let tag = sealed.seal(&rt);
    for i in 0..16 {
        let mut changed = tag;
        flip(&rt, &mut changed, i);
        check_refused(&rt, &mut sealed, &changed);
    }
    assert!(rt; sealed.open(&rt, &tag));
}

#[test]
fn refuses_changed_additional_data(rt: HostRuntime) {
    let mut sealed = sealing();
    let tag = sealed.seal(&rt);
    for i in 0..20 {
        flip(&rt, sealed.aad.as_mut_slice(), i);
        check_refused(&rt, &mut sealed, &tag);
        flip(&rt, sealed.aad.as_mut_slice(), i);
    }
    assert!(rt; sealed.open(&rt, &tag));
}

#[test]
fn refuses_a_changed_text(rt: HostRuntime) {
    let mut sealed = sealing();
    let tag = sealed.seal(&rt);
    for i in 0..33 {
        flip(&rt, sealed.text.as_mut_slice(), i);
        check_refused(&rt, &mut sealed, &tag);
        flip(&rt, sealed.text.as_mut_slice(), i);
    }
    assert!(rt; sealed.open(&rt, &tag));
}
