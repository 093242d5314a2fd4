//! Reduction: what goes beyond x^127 comes back by x^128 = 1 + x + x^2 + x^7 (NIST SP 800-38D,
//! 6.3).

ghost use Rattle.std.specs.Prelude.{◌≡◌};
ghost use Rattle.macs_gf.specs.Gf128.{times_power};

/// The product of x^128 and a block: the block times 1 + x + x^2 + x^7. What the shifts to the
/// right lose comes back at the left first, since it is beyond x^127 too.
#[inline(always)]
pub(crate) fn overflow(block: u128) -> u128
    ensures { result ≡ times_power 128 block }
{
    let carried = block ^ (block << 127) ^ (block << 126) ^ (block << 121);
    carried ^ (carried >> 1) ^ (carried >> 2) ^ (carried >> 7)
}
