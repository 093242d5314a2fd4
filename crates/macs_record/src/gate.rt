//! Gates.

ghost use Rattle.std.specs.Prelude.{◌≡◌, ◌↔◌, IsTrue};
ghost use Rattle.macs_record.specs.Gates.{IsOpen, open_gate};

use crate::SECTOR;

/// The first octets of an open gate.
const OPEN: &[u8] = b"MSECOPEN";

/// A closed gate, as it is written.
pub const CLOSED_GATE: [u8; SECTOR] = [0; SECTOR];

/// Whether a gate is open: its sector begins with `MSECOPEN`, regardless of the rest.
pub fn is_open(gate: &[u8; SECTOR]) -> bool
    ensures { IsTrue result ↔ IsOpen gate.now }
{
    gate.starts_with(OPEN)
}

/// An open gate, as it is written: `MSECOPEN`, and zeros.
pub fn open_gate() -> [u8; SECTOR]
    ensures { result ≡ open_gate }
{
    let mut gate = CLOSED_GATE;
    gate[..8].copy_from_slice(OPEN);
    gate
}
