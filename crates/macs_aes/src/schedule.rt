//! The key expansion (FIPS 197, 5.2).

ghost use Rattle.std.specs.Prelude.{◌≡◌, ◌<◌, ◌≤◌, ◌⊎◌, ◌+◌, ◌*◌, ℕ, [], get_or, length, take};
ghost use Rattle.macs_aes.specs.Cipher.{round_key};
ghost use Rattle.macs_aes.specs.KeyExpansion.{from_previous, key_word, key_words};
ghost use Rattle.macs_aes.specs.Keys.{octets_of_key};
ghost use Rattle.macs_aes.specs.KeyExpansion.{round_constant, rounds_of, sub_word};

use crate::Block;
use crate::keys::Key;
use crate::planes::Planes;
use std::marker::Model;

/// Nr, the number of rounds of the cipher with a key of 16 octets (FIPS 197, 5, figure 4).
const SHORT_ROUNDS: usize = 10;

/// Nr with a key of 32 octets.
const LONG_ROUNDS: usize = 14;

/// The maximum number of round keys: one before the first round, and one for each round.
const ROUND_KEYS: usize = LONG_ROUNDS + 1;

/// The maximum number of words in the key expansion: four for each round key.
const WORDS: usize = 4 * ROUND_KEYS;

/// The leftmost octets of Rcon\[1\] to Rcon\[10\]: x^0 to x^9.
const ROUND_CONSTANTS: [u8; 10] = [0x01, 0x02, 0x04, 0x08, 0x10, 0x20, 0x40, 0x80, 0x1b, 0x36];

/// A key, expanded for its ten or fourteen rounds. In contracts its value is its key, a list of 16
/// or 32 octets.
#[derive(Drop)]
pub struct Schedule {
    /// The value of a schedule. Its length determines the number of rounds.
    key: Key,
    /// The key of each round. Anything after those of a short key is not read.
    round_keys: [Block; ROUND_KEYS],
}

impl Model for Schedule {
    ghost use Rattle.std.specs.Prelude.{◌≡◌, ◌≤◌, List, [], ℕ, get_or};
    ghost use Rattle.macs_aes.specs.Cipher.{round_key};
    ghost use Rattle.macs_aes.specs.KeyExpansion.{key_words, rounds_of};
    ghost use Rattle.macs_aes.specs.Keys.{HasItsLength, octets_of_key};

    ghost Value = { List ℕ };

    ghost view = { λ s. octets_of_key s.key };

    ghost invariant = { λ s. HasItsLength s.key × ((i : ℕ) → i ≤ rounds_of (octets_of_key s.key)
        → get_or s.round_keys i [] ≡ round_key (key_words (octets_of_key s.key)) i) };
}

/// SubWord: the S-box on each octet of a word. The word's octets are the first of a block.
fn sub_word(word: u32) -> u32
    ensures { result ≡ sub_word word }
{
    let [a, b, c, d] = word.to_be_bytes();
    let mut planes = Planes::load(&[[a, b, c, d, 0, 0, 0, 0, 0, 0, 0, 0, 0, 0, 0, 0]]);
    planes.sub_bytes();
    let [block] = planes.store();
    u32::from_be_bytes([block[0], block[1], block[2], block[3]])
}

/// Rcon\[j\], j from 1 to 10.
fn round_constant(j: usize) -> u32
    requires first { 1 ≤ j }
    requires last { j ≤ 10 }
    ensures { result ≡ round_constant j }
{
    u32::from(ROUND_CONSTANTS[j - 1]) << 24
}

/// What word i, for i from Nk on, takes from the word before it. A key has Nk words: 4 or 8.
fn from_previous(words_in_key: usize, i: usize, word: u32) -> u32
    requires key { (words_in_key ≡ 4) ⊎ (words_in_key ≡ 8) }
    requires first { words_in_key ≤ i }
    requires last { i < 4 * (words_in_key + 7) }
    ensures { result ≡ from_previous words_in_key i word }
{
    if i % words_in_key == 0 {
        sub_word(word.rotate_left(8)) ^ round_constant(i / words_in_key)
    } else if 6 < words_in_key && i % words_in_key == 4 {
        sub_word(word)
    } else {
        word
    }
}

/// Word i of the key, whose octets are 4 i to 4 i + 3.
fn key_word(key: &[u8], i: usize) -> u32
    requires { 4 * i + 3 < length key.now }
    ensures { result ≡ key_word key.now i }
{
    u32::from_be_bytes([key[4 * i], key[4 * i + 1], key[4 * i + 2], key[4 * i + 3]])
}

/// The words of the key expansion of a key of 16 or 32 octets. Anything after them is not read.
fn expand(key: &[u8]) -> [u32; WORDS]
    requires { (length key.now ≡ 16) ⊎ (length key.now ≡ 32) }
    ensures { take (4 * (rounds_of key.now + 1)) result ≡ key_words key.now }
{
    let words_in_key = key.len() / 4;
    let mut words = [0u32; WORDS];
    'key: for i in 0..words_in_key {
        words[i] = key_word(key, i);
    }
    'rest: for i in words_in_key..4 * (words_in_key + 7) {
        words[i] = words[i - words_in_key] ^ from_previous(words_in_key, i, words[i - 1]);
    }
    words
}

/// The key of a round: words 4 round to 4 round + 3, as the columns of a state (5.1.4).
fn round_key_of(words: &[u32; WORDS], round: usize) -> Block
    requires { round < ROUND_KEYS }
    ensures { result ≡ round_key words.now round }
{
    let [a0, a1, a2, a3] = words[4 * round].to_be_bytes();
    let [b0, b1, b2, b3] = words[4 * round + 1].to_be_bytes();
    let [c0, c1, c2, c3] = words[4 * round + 2].to_be_bytes();
    let [d0, d1, d2, d3] = words[4 * round + 3].to_be_bytes();
    [
        a0, a1, a2, a3, b0, b1, b2, b3, c0, c1, c2, c3, d0, d1, d2, d3,
    ]
}

/// The keys of all rounds.
fn round_keys_of(words: &[u32; WORDS]) -> [Block; ROUND_KEYS]
    ensures { (i : ℕ) → i < ROUND_KEYS → get_or result i [] ≡ round_key words.now i }
{
    let mut keys = [[0; 16]; ROUND_KEYS];
    for round in 0..ROUND_KEYS {
        keys[round] = round_key_of(words, round);
    }
    keys
}

impl Schedule {
    /// The schedule of a key of 16 octets.
    pub fn new(key: &Block) -> Self
        ensures { result ≡ key.now }
    {
        Schedule::of(&Key::Short(*key))
    }

    /// The schedule of a key of either length.
    pub fn of(key: &Key) -> Self
        ensures { result ≡ octets_of_key key.now }
    {
        Schedule {
            key: *key,
            round_keys: round_keys_of(&expand(key.as_slice())),
        }
    }

    /// The number of rounds, Nr (FIPS 197, 5, figure 4): 10 for a key of 16 octets, 14 for one of
    /// 32.
    pub fn rounds(&self) -> usize
        ensures rounds { result ≡ rounds_of self.now }
        ensures ten_or_fourteen { (result ≡ 10) ⊎ (result ≡ 14) }
    {
        match &self.key {
            Key::Short(_) => SHORT_ROUNDS,
            Key::Long(_) => LONG_ROUNDS,
        }
    }

    /// The key of round i, i from 0 to the number of rounds: words 4 i to 4 i + 3 of the key
    /// expansion, as the columns of a state (5.1.4).
    pub fn round_key(&self, i: usize) -> Block
        requires { i ≤ rounds_of self.now }
        ensures { result ≡ round_key (key_words self.now) i }
    {
        let keys = &self.round_keys;
        keys[i]
    }
}
