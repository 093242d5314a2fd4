//! Sealing and opening against values from outside.
//!
//! Octets are written as the blocks of 16 that they fill, each a number whose highest octet is the
//! first.

mod ahead;
mod changed;
mod single_blocks;
mod vectors;

use macs_aes::Key;
use macs_gcm::{GcmKey, SealingKey, open, seal};
use std::process::Abort;
use vectors::{BLOCKS, LONG_KEY_VECTORS, SHORT_KEY_VECTORS, Vector};

/// The most octets of a text in these tests.
const ROOM: usize = 1500;

/// Texts and additional data have fewer octets than this.
const LIMIT: usize = 1 << 32;

/// Octets of a text or of additional data.
#[derive(Clone, Copy)]
struct Octets {
    octets: [u8; ROOM],
    len: usize,
}

impl Octets {
    fn by_rule(factor: u8, first: u8, len: usize) -> Octets {
        let mut octets = [0; ROOM];
        fill_by_rule(&mut octets, factor, first);
        Octets { octets, len }
    }

    /// The octets of the blocks from this one on, as many as the length.
    fn from_blocks(blocks: &[u128], first: usize, len: usize) -> Octets {
        let mut octets = [0; ROOM];
        for at in 0..ROOM {
            let block = *blocks.get(first.wrapping_add(at / 16)).unwrap_or(&0);
            octets[at] = block.to_be_bytes()[at % 16];
        }
        Octets { octets, len }
    }

    fn as_slice(&self) -> &[u8] {
        let len = self.len.min(ROOM);
        &self.octets[..len]
    }

    fn as_mut_slice(&mut self) -> &mut [u8] {
        let len = self.len.min(ROOM);
        &mut self.octets[..len]
    }
}

/// Octet i becomes (factor * i + first) mod 256.
fn fill_by_rule(octets: &mut [u8], factor: u8, first: u8) {
    let mut next = first;
    for at in 0..octets.len() {
        octets[at] = next;
        next = next.wrapping_add(factor);
    }
}

/// The initialisation vector in the highest 96 bits.
fn iv_from(block: u128) -> [u8; 12] {
    let mut iv = [0; 12];
    iv.copy_from_slice(&block.to_be_bytes()[..12]);
    iv
}

/// Additional data and a text, and what they are sealed under.
#[derive(Clone, Copy)]
struct Sealing {
    key: Key,
    iv: [u8; 12],
    aad: Octets,
    text: Octets,
}

impl Sealing {
    /// Encrypts the text, and answers the tag.
    fn seal(&mut self, rt: &impl Abort) -> [u8; 16] {
        let aad = self.aad.as_slice();
        let text = self.text.as_mut_slice();
        assert!(rt; aad.len() < LIMIT);
        assert!(rt; text.len() < LIMIT);
        seal(&GcmKey::new(&self.key), &self.iv, aad, text)
    }

    /// Encrypts the text under a key that makes key stream ahead, and answers the tag.
    fn seal_ahead(&mut self, rt: &impl Abort) -> [u8; 16] {
        let aad = self.aad.as_slice();
        let text = self.text.as_mut_slice();
        assert!(rt; aad.len() < LIMIT);
        assert!(rt; text.len() < LIMIT);
        SealingKey::new(&self.key).seal(&self.iv, aad, text)
    }

    /// Decrypts the text where the tag is right.
    fn open(&mut self, rt: &impl Abort, tag: &[u8; 16]) -> bool {
        let aad = self.aad.as_slice();
        let text = self.text.as_mut_slice();
        assert!(rt; aad.len() < LIMIT);
        assert!(rt; text.len() < LIMIT);
        open(&GcmKey::new(&self.key), &self.iv, aad, text, tag)
    }

    /// Seals the text to this one and this tag, in both ways, and opens it again.
    fn check(&mut self, rt: &impl Abort, ciphertext: &Octets, tag: u128) {
        let plaintext = self.text;
        let mut ahead = *self;
        let sealed = self.seal(rt);
        assert_eq!(rt; self.text.as_slice(), ciphertext.as_slice());
        assert_eq!(rt; u128::from_be_bytes(sealed), tag);
        assert_eq!(rt; ahead.seal_ahead(rt), sealed);
        assert_eq!(rt; ahead.text.as_slice(), ciphertext.as_slice());
        assert!(rt; self.open(rt, &sealed));
        assert_eq!(rt; self.text.as_slice(), plaintext.as_slice());
    }
}

// The GCM specification (McGrew and Viega, 2005), appendix B, test cases 1 and 2.
#[test]
fn zero_key(rt: HostRuntime) {
    let ciphertext = [0x0388dace60b6a392f328c2b971b2fe78];
    let cases = [
        (0, 0x58e2fccefa7e3061367f1d57a4e7455a),
        (16, 0xab6e47d42cec13bdf53a67b21257bddf),
    ];
    for (length, tag) in cases {
        let mut sealing = Sealing {
            key: Key::Short([0; 16]),
            iv: [0; 12],
            aad: Octets::from_blocks(&[], 0, 0),
            text: Octets::from_blocks(&[], 0, length),
        };
        sealing.check(&rt, &Octets::from_blocks(&ciphertext, 0, length), tag);
    }
}

const PLAINTEXT: [u128; 4] = [
    0xd9313225f88406e5a55909c5aff5269a,
    0x86a7a9531534f7da2e4c303d8a318a72,
    0x1c3c0c95956809532fcf0e2449a6b525,
    0xb16aedf5aa0de657ba637b391aafd255,
];

const CIPHERTEXT: [u128; 4] = [
    0x42831ec2217774244b7221b784d0d49c,
    0xe3aa212f2c02a4e035c17e2329aca12e,
    0x21d514b25466931c7d8f6a5aac84aa05,
    0x1ba30b396a0aac973d58e091473f5985,
];

const AAD: [u128; 2] = [
    0xfeedfacedeadbeeffeedfacedeadbeef,
    0xabaddad2000000000000000000000000,
];

// The same, test cases 3 and 4: whole blocks alone, and a short last block with additional data.
#[test]
fn other_key(rt: HostRuntime) {
    let cases = [
        (0, 64, 0x4d5c2af327cd64a62cf35abd2ba6fab4),
        (20, 60, 0x5bc94fbc3221a5db94fae95ae7121a47),
    ];
    for (aad_length, text_length, tag) in cases {
        let mut sealing = Sealing {
            key: Key::Short(0xfeffe9928665731c6d6a8f9467308308_u128.to_be_bytes()),
            iv: iv_from(0xcafebabefacedbaddecaf88800000000),
            aad: Octets::from_blocks(&AAD, 0, aad_length),
            text: Octets::from_blocks(&PLAINTEXT, 0, text_length),
        };
        sealing.check(&rt, &Octets::from_blocks(&CIPHERTEXT, 0, text_length), tag);
    }
}

// The same, test cases 13 and 14: a key of 32 octets.
#[test]
fn zero_long_key(rt: HostRuntime) {
    let ciphertext = [0xcea7403d4d606b6e074ec5d3baf39d18];
    let cases = [
        (0, 0x530f8afbc74536b9a963b4f1c4cb738b),
        (16, 0xd0d1c8a799996bf0265b98b5d48ab919),
    ];
    for (length, tag) in cases {
        let mut sealing = Sealing {
            key: Key::Long([0; 32]),
            iv: [0; 12],
            aad: Octets::from_blocks(&[], 0, 0),
            text: Octets::from_blocks(&[], 0, length),
        };
        sealing.check(&rt, &Octets::from_blocks(&ciphertext, 0, length), tag);
    }
}

/// The key of test cases 3 and 4 twice.
fn doubled_key() -> Key {
    let half = 0xfeffe9928665731c6d6a8f9467308308_u128.to_be_bytes();
    let mut octets = [0; 32];
    for i in 0..32 {
        octets[i] = half[i % 16];
    }
    Key::Long(octets)
}

const LONG_KEY_CIPHERTEXT: [u128; 4] = [
    0x522dc1f099567d07f47f37a32a84427d,
    0x643a8cdcbfe5c0c97598a2bd2555d1aa,
    0x8cb08e48590dbb3da7b08b1056828838,
    0xc5f61e6393ba7a0abcc9f662898015ad,
];

// The same, test cases 15 and 16.
#[test]
fn other_long_key(rt: HostRuntime) {
    let cases = [
        (0, 64, 0xb094dac5d93471bdec1a502270e3cc6c),
        (20, 60, 0x76fc6ece0f4e1768cddf8853bb2d551b),
    ];
    for (aad_length, text_length, tag) in cases {
        let mut sealing = Sealing {
            key: doubled_key(),
            iv: iv_from(0xcafebabefacedbaddecaf88800000000),
            aad: Octets::from_blocks(&AAD, 0, aad_length),
            text: Octets::from_blocks(&PLAINTEXT, 0, text_length),
        };
        let ciphertext = Octets::from_blocks(&LONG_KEY_CIPHERTEXT, 0, text_length);
        sealing.check(&rt, &ciphertext, tag);
    }
}

/// The short key of vector n.
fn short_key(n: u8) -> Key {
    let mut octets = [0; 16];
    fill_by_rule(&mut octets, 13, n);
    Key::Short(octets)
}

/// The long key of vector n.
fn long_key(n: u8) -> Key {
    let mut octets = [0; 32];
    fill_by_rule(&mut octets, 13, n);
    Key::Long(octets)
}

impl Vector {
    /// Checks vector n under its key.
    fn check(&self, rt: &impl Abort, n: u8, key: Key) {
        let mut iv = [0; 12];
        fill_by_rule(&mut iv, 17, n.wrapping_mul(2).wrapping_add(1));
        let mut sealing = Sealing {
            key,
            iv,
            aad: Octets::by_rule(11, 5, self.aad_length),
            text: Octets::by_rule(7, 3, self.text_length),
        };
        let ciphertext = Octets::from_blocks(BLOCKS, self.first_block, self.text_length);
        sealing.check(rt, &ciphertext, self.tag);
    }
}

// Lengths of zero, of whole and of short blocks, by another implementation.
#[test]
fn many_lengths(rt: HostRuntime) {
    let mut n = 0u8;
    for vector in SHORT_KEY_VECTORS {
        vector.check(&rt, n, short_key(n));
        n = n.wrapping_add(1);
    }
    assert!(rt; n == 31);
}

// The same lengths under keys of 32 octets.
#[test]
fn many_lengths_under_long_keys(rt: HostRuntime) {
    let mut n = 0u8;
    for vector in LONG_KEY_VECTORS {
        vector.check(&rt, n, long_key(n));
        n = n.wrapping_add(1);
    }
    assert!(rt; n == 31);
}

/// How many octets of the largest frame are encrypted: 9,216 less the addresses, a SecTAG with an
/// SCI, and the ICV.
const LONGEST: usize = 9172;

// A text of more blocks than an octet counts, and of more bits than two octets count: the last
// block of its ciphertext and its tag, by the same implementation under the rules of vector 0.
#[test]
fn longest_text(rt: HostRuntime) {
    let cases = [
        (
            short_key(0),
            0xfde996617b8c720fcfd69341dc28d496,
            0x96c08e8a417db705ab171c7ce6bcfb14,
        ),
        (
            long_key(0),
            0x1d45f6e9a2353a42d84fdf291936c3ea,
            0x65284335947188e5f7fa7c00c382fe77,
        ),
    ];
    let mut iv = [0; 12];
    fill_by_rule(&mut iv, 17, 1);
    let mut aad = [0; 28];
    fill_by_rule(&mut aad, 11, 5);
    for (key, last, tag) in cases {
        let mut text = [0; LONGEST];
        fill_by_rule(&mut text, 7, 3);
        let sealed = seal(&GcmKey::new(&key), &iv, &aad, &mut text);
        assert_eq!(rt; u128::from_be_bytes(sealed), tag);
        let mut end = [0; 16];
        end.copy_from_slice(&text[LONGEST - 16..]);
        assert_eq!(rt; u128::from_be_bytes(end), last);
    }
}
