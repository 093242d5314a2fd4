//! Sealing by groups of blocks gives what single blocks give: AES by one block, and products of two
//! blocks.

use macs_aes::{Key, Schedule, encrypt_block};
use macs_gcm::{GcmKey, seal};
use macs_gf::mul128;
use std::process::Abort;

/// The most octets of a text here: of the longest protected frame.
const ROOM: usize = 9_184;

/// A short key and a long one.
const KEYS: [Key; 2] = [Key::Short([0x5a; 16]), Key::Long([0xa7; 32])];

const IV: [u8; 12] = [0xc3; 12];

/// The key stream's block n, n from 1 on (SP 800-38D, 7.1, steps 2 and 3): the first is that of the
/// tag.
fn key_block(key: &Key, n: u32) -> [u8; 16] {
    let mut counter = [0; 16];
    counter[..12].copy_from_slice(&IV);
    counter[12..].copy_from_slice(&n.to_be_bytes());
    encrypt_block(&Schedule::of(key), &counter)
}

/// Each block is taken in by one product (6.4).
fn hashed(subkey: u128, state: u128, octets: &[u8]) -> u128 {
    let mut next = state;
    for i in 0..octets.len().div_ceil(16) {
        let mut block = [0; 16];
        for k in 0..16 {
            block[k] = *octets.get(i.wrapping_mul(16).wrapping_add(k)).unwrap_or(&0);
        }
        next = mul128(next ^ u128::from_be_bytes(block), subkey);
    }
    next
}

/// The tag (7.1, steps 4 to 6).
fn plain_tag(key: &Key, aad: &[u8], text: &[u8]) -> [u8; 16] {
    let subkey = u128::from_be_bytes(encrypt_block(&Schedule::of(key), &[0; 16]));
    let texts = hashed(subkey, hashed(subkey, 0, aad), text);
    let lengths = ((aad.len() as u128) << 67) | ((text.len() as u128) << 3);
    let state = mul128(texts ^ lengths, subkey);
    (state ^ u128::from_be_bytes(key_block(key, 1))).to_be_bytes()
}

fn plain_cipher(key: &Key, text: &mut [u8]) {
    let mut number = 1u32;
    let mut block = [0; 16];
    for i in 0..text.len() {
        if i % 16 == 0 {
            number = number.wrapping_add(1);
            block = key_block(key, number);
        }
        text[i] ^= block[i % 16];
    }
}

fn check_length(rt: &impl Abort, key: &Key, aad_length: usize, text_length: usize) {
    let mut sealed = [0x77; ROOM];
    let mut plain = [0x77; ROOM];
    let (aad_end, end) = (aad_length.min(ROOM), text_length.min(ROOM));
    let aad = [0x11; ROOM];
    let tag = seal(&GcmKey::new(key), &IV, &aad[..aad_end], &mut sealed[..end]);
    plain_cipher(key, &mut plain[..end]);
    assert_eq!(rt; sealed.as_slice(), plain.as_slice());
    assert_eq!(rt; tag, plain_tag(key, &aad[..aad_end], &plain[..end]));
}

#[test]
fn groups_give_what_single_blocks_give(rt: HostRuntime) {
    let lengths = [0, 1, 15, 16, 17, 255, 256, 257, 1_500, ROOM];
    for key in KEYS {
        for length in lengths {
            check_length(&rt, &key, 28, length);
            check_length(&rt, &key, 0, length);
        }
    }
}
