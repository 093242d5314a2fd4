//! The key lengths that this edition accepts.

ghost use Rattle.std.specs.Prelude.{◌≡◌};
ghost use Rattle.macs_config.specs.Config.{takes_key, this_edition};

/// How many octets a key of GCM-AES-128 has (IEEE Std 802.1AE-2018, 14.5).
const SHORT: usize = 16;

/// How many octets a key of GCM-AES-256 has (IEEE Std 802.1AE-2018, 14.6).
const LONG: usize = 32;

/// Whether this edition accepts a key with these octets.
pub(crate) fn takes_key(octets: &[u8]) -> bool
    ensures { result ≡ takes_key this_edition octets.now }
{
    octets.len() == LONG || octets.len() == SHORT
}
