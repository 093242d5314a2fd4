//! Blocks side by side against single blocks, and the steps of one round as FIPS 197 (2001),
//! appendix B, has them.

use macs_aes::{Block, Key, Schedule, encrypt_block};
use macs_planes::{Planes, encrypt16};
use std::process::Abort;

pub const KEY: u128 = 0x2b7e151628aed2a6abf7158809cf4f3c;

/// Sixteen blocks, each of another octet.
pub fn different_blocks() -> [Block; 16] {
    let mut blocks = [[0; 16]; 16];
    for i in 0..16 {
        for j in 0..16 {
            blocks[i][j] = ((17 * i + 29 * j) % 256) as u8;
        }
    }
    blocks
}

#[test]
fn sixteen_blocks_are_encrypted_each_by_itself(rt: HostRuntime) {
    let schedule = Schedule::new(&KEY.to_be_bytes());
    let plain = different_blocks();
    let mut blocks = plain;
    encrypt16(&schedule, &mut blocks);
    for i in 0..16 {
        assert_eq!(rt; blocks[i], encrypt_block(&schedule, &plain[i]));
    }
}

/// The example of appendix C.3 in one place, among other blocks.
#[test]
fn sixteen_blocks_are_encrypted_under_a_long_key(rt: HostRuntime) {
    let mut octets = [0; 32];
    for i in 0..32u8 {
        octets[usize::from(i)] = i;
    }
    let schedule = Schedule::of(&Key::Long(octets));
    let mut plain = different_blocks();
    plain[9] = 0x00112233445566778899aabbccddeeff_u128.to_be_bytes();
    let mut blocks = plain;
    encrypt16(&schedule, &mut blocks);
    let encrypted = 0x8ea2b7ca516745bfeafc49904b496089_u128;
    assert_eq!(rt; blocks[9], encrypted.to_be_bytes());
    for i in 0..16 {
        assert_eq!(rt; blocks[i], encrypt_block(&schedule, &plain[i]));
    }
}

/// The example of appendix C.1 in each place, among other blocks.
#[test]
fn each_place_has_the_cipher(rt: HostRuntime) {
    let key = 0x000102030405060708090a0b0c0d0e0f_u128;
    let plain = 0x00112233445566778899aabbccddeeff_u128;
    let encrypted = 0x69c4e0d86a7b0430d8cdb78070b4c55a_u128;
    let schedule = Schedule::new(&key.to_be_bytes());
    for i in 0..16 {
        let mut blocks = different_blocks();
        blocks[i] = plain.to_be_bytes();
        encrypt16(&schedule, &mut blocks);
        assert_eq!(rt; blocks[i], encrypted.to_be_bytes());
    }
}

/// Each block is this state.
fn check_each(rt: &impl Abort, planes: &Planes<16>, state: u128) {
    let blocks = planes.store();
    for i in 0..16 {
        assert_eq!(rt; blocks[i], state.to_be_bytes());
    }
}

/// The first round of appendix B.
#[test]
fn the_steps_are_those_of_the_standard(rt: HostRuntime) {
    let schedule = Schedule::new(&KEY.to_be_bytes());
    let plain = 0x3243f6a8885a308d313198a2e0370734_u128;
    let mut planes = Planes::load(&[plain.to_be_bytes(); 16]);
    check_each(&rt, &planes, plain);
    planes.add_round_key(&schedule.round_key(0));
    check_each(&rt, &planes, 0x193de3bea0f4e22b9ac68d2ae9f84808);
    planes.sub_bytes();
    check_each(&rt, &planes, 0xd42711aee0bf98f1b8b45de51e415230);
    planes.shift_rows();
    check_each(&rt, &planes, 0xd4bf5d30e0b452aeb84111f11e2798e5);
    planes.mix_columns();
    check_each(&rt, &planes, 0x046681e5e0cb199a48f8d37a2806264c);
    planes.add_round_key(&schedule.round_key(1));
    check_each(&rt, &planes, 0xa49c7ff2689f352b6b5bea43026a5049);
}

#[test]
fn what_is_loaded_is_stored(rt: HostRuntime) {
    let blocks = different_blocks();
    assert_eq!(rt; Planes::load(&blocks).store(), blocks);
    let first = [
        blocks[0], blocks[1], blocks[2], blocks[3], blocks[4], blocks[5], blocks[6], blocks[7],
    ];
    assert_eq!(rt; Planes::load(&first).store(), first);
}
