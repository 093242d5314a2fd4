//! Fingerprints of spent keys.

ghost use Rattle.std.specs.Prelude.{◌≡◌};
ghost use Rattle.std.specs.Str.{bytes_eq};
ghost use Rattle.macs_config.specs.Config.{is_spent, rx_fingerprint, tx_fingerprint};

use macs_fields::Sci;
use sha2::{Digest, Sha256};

/// The SHA-256 of a key, or of an SCI and a key: 32 octets.
pub type Fingerprint = [u8; 32];

/// The fingerprint of a key with these octets on the transmit side.
pub(crate) fn tx_fingerprint(key: &[u8]) -> Fingerprint
    ensures { result ≡ tx_fingerprint key.now }
{
    Sha256::digest(key)
}

/// The fingerprint of an SCI and a key with these octets on the receive side.
pub(crate) fn rx_fingerprint(sci: Sci, key: &[u8]) -> Fingerprint
    ensures { result ≡ rx_fingerprint sci key.now }
{
    let octets = sci.get();
    let mut hasher = Sha256::new();
    hasher.update(octets.as_slice());
    hasher.update(key);
    hasher.finalize()
}

/// Whether a fingerprint is among these. It is compared with each of them, even after a match.
pub(crate) fn is_spent(spent: &[Fingerprint], fingerprint: &Fingerprint) -> bool
    ensures { result ≡ is_spent spent.now fingerprint.now }
{
    let mut found = false;
    for other in spent {
        found |= is_equal(other, fingerprint);
    }
    found
}

/// Whether two fingerprints are equal. It reads all 32 octets of both, even after a difference.
#[inline(never)] // Otherwise sixteen pairs are compared at a time, octet by octet: slower.
fn is_equal(one: &Fingerprint, other: &Fingerprint) -> bool
    ensures { result ≡ bytes_eq one.now other.now }
{
    let mut difference = 0;
    for i in 0..32 {
        difference |= one[i] ^ other[i];
    }
    difference == 0
}
