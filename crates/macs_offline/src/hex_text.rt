//! Octets as they are printed: two lower-case hex digits for each.

ghost use Rattle.std.specs.Prelude.{Some};
ghost use Rattle.hex.specs.Hex.{encode_lower};

use std::fmt;

/// Octets that are displayed in hex.
#[derive(Clone, Copy)]
pub struct HexText<'a>(pub &'a [u8]);

impl fmt::Display for HexText<'_> {
    ghost output = { λ text. Some (encode_lower text.0.now) };

    fn fmt<W: fmt::Write>(&self, f: &mut fmt::Formatter<W>) -> fmt::Result {
        let octets = self.0;
        for &octet in octets {
            write!(f, "{octet:02x}")?;
        }
        Ok(())
    }
}
