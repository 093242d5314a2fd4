//! A key that makes key stream ahead seals as `seal` does, whatever initialisation vectors and
//! lengths come.

use macs_aes::Key;
use macs_gcm::{GcmKey, SealingKey, seal};

/// The most octets of a text here.
const ROOM: usize = 700;

/// Each octet of the fixed field, the invocation field, and the octets of the text: numbers that
/// follow one another, come again, leave some out, end at the last one and begin anew, under
/// several fixed fields, with texts that become longer and shorter, empty ones and long ones.
const STEPS: [(u8, u32, usize); 30] = [
    (7, 1, 52),
    (7, 2, 52),
    (7, 3, 40),
    (7, 3, 40),
    (7, 4, 300),
    (7, 5, 304),
    (7, 6, 305),
    (7, 7, 304),
    (7, 8, 0),
    (7, 12, 16),
    (7, 19, 17),
    (7, 20, 17),
    (7, 21, 640),
    (7, 22, 1),
    (7, 1_000, 31),
    (7, 999, 31),
    (7, 1_014, 31),
    (7, 1_015, 31),
    (9, 1_016, 31),
    (9, 1_017, 33),
    (7, 1_018, 33),
    (7, u32::MAX - 2, 20),
    (7, u32::MAX - 1, 20),
    (7, u32::MAX, 20),
    (7, 0, 20),
    (7, 1, 20),
    (0, 0, 64),
    (0, 1, 288),
    (0, 15, 288),
    (0, 16, 288),
];

#[test]
fn key_stream_ahead_is_that_of_each_text(rt: HostRuntime) {
    for key in [Key::Short([0x5a; 16]), Key::Long([0xa7; 32])] {
        let single = GcmKey::new(&key);
        let mut ahead = SealingKey::new(&key);
        for (fixed, invocation, length) in STEPS {
            let end = length.min(ROOM);
            let mut iv = [fixed; 12];
            iv[8..].copy_from_slice(&invocation.to_be_bytes());
            let (mut one, mut other) = ([0x33; ROOM], [0x33; ROOM]);
            let tag = seal(&single, &iv, &[0x44; 28], &mut one[..end]);
            assert_eq!(rt; ahead.seal(&iv, &[0x44; 28], &mut other[..end]), tag);
            assert_eq!(rt; other.as_slice(), one.as_slice());
        }
    }
}
