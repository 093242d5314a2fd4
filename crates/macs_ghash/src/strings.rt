//! The string that is hashed (NIST SP 800-38D, 7.1, step 5), block by block: the padded additional
//! data, the padded text and their lengths.

ghost use Rattle.std.specs.Prelude.{◌≡◌, ◌≢◌, ◌+◌, ◌*◌, ◌/◌, ◌^◌, ◌<◌, ◌≤◌, ◌-◌, ℕ, ◌++◌, length};
ghost use Rattle.std.specs.Int.{from_be_bytes, to_be_bytes, w64, w128};
ghost use Rattle.macs_gf.specs.Ghash.{block_at, hash_input, padded_string};

/// Block i of a string, which is short: filled up with zero octets (7.1, step 4).
fn short_block(octets: &[u8], i: usize) -> [u8; 16]
    requires { 16 * i < length octets.now }
    ensures { from_be_bytes w128 result ≡ block_at (padded_string octets.now) i }
{
    let mut block = [0u8; 16];
    let count = (octets.len() - 16 * i).min(16);
    for k in 0..count {
        block[k] = octets[16 * i + k];
    }
    block
}

/// Block i of a string; a short last block is filled up with zero octets (7.1, step 4).
#[inline(always)]
fn padded_block(octets: &[u8], i: usize) -> [u8; 16]
    requires { 16 * i < length octets.now }
    ensures { from_be_bytes w128 result ≡ block_at (padded_string octets.now) i }
{
    match octets[16 * i..].first_chunk::<16>() {
        Some(block) => *block,
        None => short_block(octets, i),
    }
}

/// The block of the two lengths in bits, each in 64 bits (7.1, step 5).
fn lengths_block(aad: &[u8], text: &[u8]) -> [u8; 16]
    requires aad { length aad.now < 2 ^ 32 }
    requires text { length text.now < 2 ^ 32 }
    ensures { result
        ≡ to_be_bytes w64 (8 * length aad.now) ++ to_be_bytes w64 (8 * length text.now) }
{
    let [a, b, c, d, e, f, g, h] = (8 * aad.len() as u64).to_be_bytes();
    let [i, j, k, l, m, n, o, p] = (8 * text.len() as u64).to_be_bytes();
    [a, b, c, d, e, f, g, h, i, j, k, l, m, n, o, p]
}

/// Block i of the string that is hashed.
#[inline(always)]
fn input_block(aad: &[u8], text: &[u8], i: usize) -> [u8; 16]
    requires aad { length aad.now < 2 ^ 32 }
    requires text { length text.now < 2 ^ 32 }
    requires within { i < (length aad.now + 15) / 16 + (length text.now + 15) / 16 + 1 }
    ensures { from_be_bytes w128 result ≡ block_at (hash_input aad.now text.now) i }
{
    let front = aad.len().div_ceil(16);
    if i < front {
        padded_block(aad, i)
    } else if i < front + text.len().div_ceil(16) {
        padded_block(text, i - front)
    } else {
        lengths_block(aad, text)
    }
}

/// A block in place k of a string of M octets.
#[inline(always)]
fn put_block<const M: usize>(octets: &mut [u8; M], k: usize, block: &[u8; 16])
    requires { 16 * k + 16 ≤ M }
    ensures block { block_at octets.new k ≡ from_be_bytes w128 block.now }
    ensures others { (l : ℕ) → 16 * l + 16 ≤ M → l ≢ k
        → block_at octets.new l ≡ block_at octets.old l }
{
    for j in 0..16 {
        octets[16 * k + j] = block[j];
    }
}

/// Blocks of the string that is hashed, as many as M octets have room for, from block i on, taken
/// one by one.
fn gathered_blocks<const M: usize>(aad: &[u8], text: &[u8], i: usize) -> [u8; M]
    requires aad { length aad.now < 2 ^ 32 }
    requires text { length text.now < 2 ^ 32 }
    requires within { i + M / 16 ≤ (length aad.now + 15) / 16 + (length text.now + 15) / 16 + 1 }
    ensures { (k : ℕ) → k < M / 16
        → block_at result k ≡ block_at (hash_input aad.now text.now) (i + k) }
{
    let mut octets = [0u8; M];
    for k in 0..M / 16 {
        put_block(&mut octets, k, &input_block(aad, text, i + k));
    }
    octets
}

/// Blocks of the string that is hashed, as many as M octets have room for, from block i on. Whole
/// blocks of the text are side by side already.
#[inline(always)]
pub(crate) fn input_blocks<const M: usize>(aad: &[u8], text: &[u8], i: usize) -> [u8; M]
    requires aad { length aad.now < 2 ^ 32 }
    requires text { length text.now < 2 ^ 32 }
    requires within { i + M / 16 ≤ (length aad.now + 15) / 16 + (length text.now + 15) / 16 + 1 }
    ensures { (k : ℕ) → k < M / 16
        → block_at result k ≡ block_at (hash_input aad.now text.now) (i + k) }
{
    let front = aad.len().div_ceil(16);
    if i < front || text.len() < 16 * (i - front) {
        return gathered_blocks(aad, text, i);
    }
    match text[16 * (i - front)..].first_chunk::<M>() {
        Some(blocks) => *blocks,
        None => gathered_blocks(aad, text, i),
    }
}

/// The first blocks of the string that is hashed, after as many zero blocks as M octets have room
/// for.
#[inline(always)]
pub(crate) fn behind_zeros<const M: usize>(aad: &[u8], text: &[u8], count: usize) -> [u8; M]
    requires aad { length aad.now < 2 ^ 32 }
    requires text { length text.now < 2 ^ 32 }
    requires within { count ≤ (length aad.now + 15) / 16 + (length text.now + 15) / 16 + 1 }
    requires few { count ≤ M / 16 }
    ensures zeros { (k : ℕ) → k < M / 16 - count → block_at result k ≡ 0 }
    ensures blocks { (k : ℕ) → k < count
        → block_at result (M / 16 - count + k) ≡ block_at (hash_input aad.now text.now) k }
{
    let mut octets = [0u8; M];
    for k in 0..count {
        put_block(&mut octets, M / 16 - count + k, &input_block(aad, text, k));
    }
    octets
}
