//! Laws of the field of 256 elements, for the crates above. Each function does nothing: its
//! contract is the law.

ghost use Rattle.std.specs.Prelude.{◌≡◌};
ghost use Rattle.macs_gf.specs.Gf256.{inverse};
ghost use Rattle.macs_aes.specs.Power.{octet_power};

/// The power 254 of an octet is its inverse (FIPS 197, 4.2; that of 0 is 0, 5.1.1).
pub fn octet_power_254_is_inverse(a: u8)
    ensures { octet_power a 254 ≡ inverse a }
{}
