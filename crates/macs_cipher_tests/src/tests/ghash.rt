//! GHASH against values from outside, and against the products of `macs_gf` one by one.

use macs_gf::mul128;
use macs_ghash::{Powers, ghash};
use std::process::Abort;

/// The most octets of additional data or of a text in these tests.
const ROOM: usize = 320;

/// Octets of additional data or of a text.
#[derive(Drop)]
struct Octets {
    octets: [u8; ROOM],
    len: usize,
}

impl Octets {
    /// Octet i is (factor * i + first) mod 256.
    fn by_rule(factor: u8, first: u8, len: usize) -> Octets {
        let mut octets = [0; ROOM];
        let mut next = first;
        for at in 0..ROOM {
            octets[at] = next;
            next = next.wrapping_add(factor);
        }
        Octets { octets, len }
    }

    /// The octets of the blocks, as many as the length.
    fn from_blocks(blocks: &[u128], len: usize) -> Octets {
        let mut octets = [0; ROOM];
        for at in 0..ROOM {
            let block = *blocks.get(at / 16).unwrap_or(&0);
            octets[at] = block.to_be_bytes()[at % 16];
        }
        Octets { octets, len }
    }

    fn as_slice(&self) -> &[u8] {
        let len = self.len.min(ROOM);
        &self.octets[..len]
    }
}

/// What is hashed under a subkey.
fn hashed(rt: &impl Abort, h: u128, aad: &[u8], text: &[u8]) -> u128 {
    assert!(rt; aad.len() < 1 << 32);
    assert!(rt; text.len() < 1 << 32);
    u128::from_be_bytes(ghash(&Powers::new(h), aad, text))
}

/// The blocks of a padded string taken in one after another.
fn taken_in(h: u128, before: u128, octets: &[u8]) -> u128 {
    let mut state = before;
    for i in 0..octets.len().div_ceil(16) {
        let mut block = 0u128;
        for k in 0..16usize {
            let octet = *octets.get(i.wrapping_mul(16).wrapping_add(k)).unwrap_or(&0);
            block = (block << 8) | u128::from(octet);
        }
        state = mul128(state ^ block, h);
    }
    state
}

/// The same by the definition.
fn by_products(h: u128, aad: &[u8], text: &[u8]) -> u128 {
    let state = taken_in(h, taken_in(h, 0, aad), text);
    let aad_bits = (aad.len() as u128).wrapping_mul(8);
    let text_bits = (text.len() as u128).wrapping_mul(8);
    mul128(state ^ (aad_bits << 64) ^ text_bits, h)
}

// The GCM specification (McGrew and Viega, 2005), appendix B, test case 2.
#[test]
fn one_block(rt: HostRuntime) {
    let text = Octets::from_blocks(&[0x0388dace60b6a392f328c2b971b2fe78], 16);
    let hash = hashed(
        &rt,
        0x66e94bd4ef8a2c3b884cfa59ca342b2e,
        &[],
        text.as_slice(),
    );
    assert_eq!(rt; hash, 0xf38cbb1ad69223dcc3457ae5b6b0f885);
}

// The same, test case 4: two blocks and four, both with a short last one.
#[test]
fn two_strings(rt: HostRuntime) {
    let aad = [
        0xfeedfacedeadbeeffeedfacedeadbeef,
        0xabaddad2000000000000000000000000,
    ];
    let text = [
        0x42831ec2217774244b7221b784d0d49c,
        0xe3aa212f2c02a4e035c17e2329aca12e,
        0x21d514b25466931c7d8f6a5aac84aa05,
        0x1ba30b396a0aac973d58e09100000000,
    ];
    let hash = hashed(
        &rt,
        0xb83b533708bf535d0aa6e52980d53b78,
        Octets::from_blocks(&aad, 20).as_slice(),
        Octets::from_blocks(&text, 60).as_slice(),
    );
    assert_eq!(rt; hash, 0x698e57f70e6ecc7fd9463b7260a9ae5f);
}

/// Texts of each length up to the most, with additional data of this length.
fn check_texts(rt: &impl Abort, h: u128, aad_len: usize) {
    let aad = Octets::by_rule(7, 3, aad_len);
    for len in 0..=ROOM {
        let text = Octets::by_rule(89, 200, len);
        let hash = hashed(rt, h, aad.as_slice(), text.as_slice());
        assert_eq!(rt; hash, by_products(h, aad.as_slice(), text.as_slice()));
    }
}

#[test]
fn texts_of_0_to_20_blocks(rt: HostRuntime) {
    for aad_len in [0, 1, 16, 33] {
        check_texts(&rt, 0xb83b533708bf535d0aa6e52980d53b78, aad_len);
    }
}

#[test]
fn additional_data_of_0_to_20_blocks(rt: HostRuntime) {
    for aad_len in [47, 112, 127, 320] {
        check_texts(&rt, 0x80000000000000000000000000000001, aad_len);
    }
}

#[test]
fn subkeys_of_one_bit(rt: HostRuntime) {
    let aad = Octets::by_rule(1, 1, 28);
    let text = Octets::by_rule(31, 90, 130);
    for bit in 0..u128::BITS {
        let h = 1 << bit;
        let hash = hashed(&rt, h, aad.as_slice(), text.as_slice());
        assert_eq!(rt; hash, by_products(h, aad.as_slice(), text.as_slice()));
    }
}
