//! The examples of FIPS 197 (2001), appendices A.1, A.3, B, C.1 and C.3.

use macs_aes::{Key, KeyOctets, Schedule, encrypt_block};

/// Appendix A.1: the 44 words of a key of 16 octets, as round keys.
#[test]
fn key_expansion(rt: HostRuntime) {
    let key = 0x2b7e151628aed2a6abf7158809cf4f3c_u128;
    let keys = [
        0x2b7e151628aed2a6abf7158809cf4f3c_u128,
        0xa0fafe1788542cb123a339392a6c7605,
        0xf2c295f27a96b9435935807a7359f67f,
        0x3d80477d4716fe3e1e237e446d7a883b,
        0xef44a541a8525b7fb671253bdb0bad00,
        0xd4d1c6f87c839d87caf2b8bc11f915bc,
        0x6d88a37a110b3efddbf98641ca0093fd,
        0x4e54f70e5f5fc9f384a64fb24ea6dc4f,
        0xead27321b58dbad2312bf5607f8d292f,
        0xac7766f319fadc2128d12941575c006e,
        0xd014f9a8c9ee2589e13f0cc8b6630ca6,
    ];
    let schedule = Schedule::new(&key.to_be_bytes());
    assert_eq!(rt; schedule.rounds(), 10);
    for round in 0..11 {
        assert_eq!(rt; schedule.round_key(round), keys[round].to_be_bytes());
    }
}

/// Key, plain block and encrypted block: appendices B and C.1, and the hash subkey of the GCM
/// specification's test case 1.
#[test]
fn encrypted_blocks(rt: HostRuntime) {
    let examples = [
        (
            0x2b7e151628aed2a6abf7158809cf4f3c_u128,
            0x3243f6a8885a308d313198a2e0370734_u128,
            0x3925841d02dc09fbdc118597196a0b32_u128,
        ),
        (
            0x000102030405060708090a0b0c0d0e0f,
            0x00112233445566778899aabbccddeeff,
            0x69c4e0d86a7b0430d8cdb78070b4c55a,
        ),
        (0, 0, 0x66e94bd4ef8a2c3b884cfa59ca342b2e),
    ];
    for (key, plain, encrypted) in examples {
        let schedule = Schedule::new(&key.to_be_bytes());
        let block = encrypt_block(&schedule, &plain.to_be_bytes());
        assert_eq!(rt; block, encrypted.to_be_bytes());
    }
}

/// The octets from 0 on, one after another.
fn counted_key() -> Key {
    let mut octets = [0; 32];
    for i in 0..32u8 {
        octets[usize::from(i)] = i;
    }
    Key::Long(octets)
}

/// The octets of two blocks.
fn long_key(first: u128, second: u128) -> Key {
    let mut octets = [0; 32];
    for i in 0..16 {
        octets[i] = first.to_be_bytes()[i];
        octets[16 + i] = second.to_be_bytes()[i];
    }
    Key::Long(octets)
}

/// Appendix A.3: the 60 words of a key of 32 octets, as round keys.
#[test]
fn long_key_expansion(rt: HostRuntime) {
    let keys = [
        0x603deb1015ca71be2b73aef0857d7781_u128,
        0x1f352c073b6108d72d9810a30914dff4,
        0x9ba354118e6925afa51a8b5f2067fcde,
        0xa8b09c1a93d194cdbe49846eb75d5b9a,
        0xd59aecb85bf3c917fee94248de8ebe96,
        0xb5a9328a2678a647983122292f6c79b3,
        0x812c81addadf48ba24360af2fab8b464,
        0x98c5bfc9bebd198e268c3ba709e04214,
        0x68007bacb2df331696e939e46c518d80,
        0xc814e20476a9fb8a5025c02d59c58239,
        0xde1369676ccc5a71fa2563959674ee15,
        0x5886ca5d2e2f31d77e0af1fa27cf73c3,
        0x749c47ab18501ddae2757e4f7401905a,
        0xcafaaae3e4d59b349adf6acebd10190d,
        0xfe4890d1e6188d0b046df344706c631e,
    ];
    let schedule = Schedule::of(&long_key(keys[0], keys[1]));
    assert_eq!(rt; schedule.rounds(), 14);
    for round in 0..15 {
        assert_eq!(rt; schedule.round_key(round), keys[round].to_be_bytes());
    }
}

/// Appendix C.3.
#[test]
fn block_under_a_long_key(rt: HostRuntime) {
    let plain = 0x00112233445566778899aabbccddeeff_u128;
    let block = encrypt_block(&Schedule::of(&counted_key()), &plain.to_be_bytes());
    let encrypted = 0x8ea2b7ca516745bfeafc49904b496089_u128;
    assert_eq!(rt; block, encrypted.to_be_bytes());
}

/// A short key has the same schedule by either call.
#[test]
fn short_key_by_either_call(rt: HostRuntime) {
    let octets = 0x2b7e151628aed2a6abf7158809cf4f3c_u128.to_be_bytes();
    let schedule = Schedule::of(&Key::Short(octets));
    let same = Schedule::new(&octets);
    assert_eq!(rt; schedule.rounds(), 10);
    assert_eq!(rt; same.rounds(), 10);
    for round in 0..11 {
        assert_eq!(rt; schedule.round_key(round), same.round_key(round));
    }
}

/// A key is made of 16 or 32 octets and of no other number, and has them again.
#[test]
fn keys_of_octets(rt: HostRuntime) {
    let octets = [7; 40];
    for count in 0..41 {
        match Key::from_slice(&octets[..count]) {
            Some(key) => {
                assert!(rt; count == 16 || count == 32);
                assert!(rt; key.as_slice() == &octets[..count]);
                let kept = KeyOctets::of(key);
                assert!(rt; kept.as_slice() == &octets[..count]);
                assert!(rt; kept.get() == key);
            }
            None => assert!(rt; count != 16 && count != 32),
        }
    }
}

/// A short key is another one than a long key that begins with its octets.
#[test]
fn keys_of_two_lengths_differ(rt: HostRuntime) {
    let short = Key::Short([7; 16]);
    let long = Key::Long([7; 32]);
    assert!(rt; short != long);
    assert!(rt; KeyOctets::of(short) != KeyOctets::of(long));
    assert!(rt; KeyOctets::of(long) == KeyOctets::of(Key::Long([7; 32])));
}
