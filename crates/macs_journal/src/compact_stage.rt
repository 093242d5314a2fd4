//! The device calls of a compaction, in order.

ghost use Rattle.std.specs.Prelude.{◌≡◌, ◌≤◌};
ghost use Rattle.macs_journal.specs.Areas.{slots};
ghost use Rattle.macs_journal.specs.Stages.{IsCompactStage, body_from, gate_from, next_stage};

use crate::area::GATES;

/// The device calls of a compaction, in order.
#[derive(Clone, Copy)]
pub enum CompactStage {
    /// Reads a gate of the other area: gate 0 is that of the head.
    ReadGate(u64),
    /// Closes a gate that read open, since an old head there would name old bodies, and an old gate
    /// an old record.
    CloseGate(u64),
    /// Makes the closed gates durable, before a body after them changes.
    GatesSync,
    /// Writes the body of the head, of the next generation, which nobody reads while its gate is
    /// closed.
    HeadBody,
    /// Writes the body of a slot's record.
    Body(u64),
    /// Makes the bodies durable, before the head gate says that they count.
    BodiesSync,
    /// Opens the head gate.
    HeadGate,
    /// Makes it durable, before the compaction is acknowledged.
    HeadSync,
}

impl CompactStage {
    /// The device call after this one, `None` after the last, given whether the gate that was read
    /// is open, and how many records there are.
    pub(crate) fn next(self, is_open: bool, count: u64) -> Option<CompactStage>
        requires room { IsCompactStage count self }
        requires few { count ≤ slots }
        ensures { result ≡ next_stage count self is_open }
    {
        match self {
            CompactStage::ReadGate(k) => {
                if is_open {
                    Some(CompactStage::CloseGate(k))
                } else {
                    Some(gate_from(k + 1))
                }
            }
            CompactStage::CloseGate(k) => Some(gate_from(k + 1)),
            CompactStage::GatesSync => Some(CompactStage::HeadBody),
            CompactStage::HeadBody => Some(body_from(0, count)),
            CompactStage::Body(slot) => Some(body_from(slot + 1, count)),
            CompactStage::BodiesSync => Some(CompactStage::HeadGate),
            CompactStage::HeadGate => Some(CompactStage::HeadSync),
            CompactStage::HeadSync => None,
        }
    }
}

/// The call for a gate, or after the last gate the next call.
fn gate_from(k: u64) -> CompactStage
    ensures { result ≡ gate_from k }
{
    if k == GATES {
        CompactStage::GatesSync
    } else {
        CompactStage::ReadGate(k)
    }
}

/// The call for the body of a slot, or after the last body the next call.
fn body_from(slot: u64, count: u64) -> CompactStage
    ensures { result ≡ body_from count slot }
{
    if slot == count {
        CompactStage::BodiesSync
    } else {
        CompactStage::Body(slot)
    }
}
