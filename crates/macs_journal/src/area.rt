//! The layout of a disk.

ghost use Rattle.std.specs.Prelude.{◌≡◌, ◌<◌, ◌≤◌, ◌+◌, ℕ};
ghost use Rattle.macs_journal.specs.Areas.{IsArea, gate, gates, head_body, least_sectors};
ghost use Rattle.macs_journal.specs.Areas.{other_area, slot_body, slots};

use std::marker::Model;

/// How many sectors a disk needs: any after them are never touched.
pub const LEAST_SECTORS: u64 = 1_028;

/// How many slots an area has.
pub const SLOTS: u64 = 256;

/// How many gates an area has: that of its head, and those of its slots.
pub(crate) const GATES: u64 = 1 + SLOTS;

/// How many sectors an area has: a body and a gate for its head, and for each of its slots.
const AREA_SECTORS: u64 = 2 + 2 * SLOTS;

/// One of the two areas of a disk, 0 or 1.
#[derive(Clone, Copy)]
pub struct Area(u64);

impl Model for Area {
    ghost Value = { ℕ };

    ghost view = { λ a. a.0 };

    ghost invariant = { λ a. IsArea a.0 };

    ghost inverse = { λ n. record { 0 = n } };
}

impl Area {
    /// The area at the start of the disk.
    pub(crate) fn first() -> Area
        ensures { result ≡ 0 }
    {
        Area(0)
    }

    /// The area after the first.
    pub(crate) fn second() -> Area
        ensures { result ≡ 1 }
    {
        Area(1)
    }

    /// Its number, 0 or 1.
    pub(crate) fn number(self) -> u64
        ensures { result ≡ self }
    {
        let Area(number) = self;
        number
    }

    /// The other area.
    pub(crate) fn other(self) -> Area
        ensures { result ≡ other_area self }
    {
        let Area(number) = self;
        Area(1 - number)
    }

    /// The sector of the head body.
    pub(crate) fn head_body(self) -> u64
        ensures at { result ≡ head_body self }
        ensures within { result < least_sectors }
    {
        let Area(number) = self;
        AREA_SECTORS * number
    }

    /// The sector of a gate: gate 0 is that of the head, gate k + 1 that of slot k.
    pub(crate) fn gate(self, k: u64) -> u64
        requires { k < gates }
        ensures at { result ≡ gate self k }
        ensures within { result < least_sectors }
    {
        self.head_body() + 1 + 2 * k
    }

    /// The sector of the head gate.
    pub(crate) fn head_gate(self) -> u64
        ensures at { result ≡ gate self 0 }
        ensures within { result < least_sectors }
    {
        self.head_body() + 1
    }

    /// The sector of a slot's body.
    pub(crate) fn slot_body(self, slot: u64) -> u64
        requires { slot < slots }
        ensures at { result ≡ slot_body self slot }
        ensures within { result < least_sectors }
    {
        self.head_body() + 2 + 2 * slot
    }

    /// The sector of a slot's gate.
    pub(crate) fn slot_gate(self, slot: u64) -> u64
        requires { slot < slots }
        ensures at { result ≡ gate self (slot + 1) }
        ensures within { result < least_sectors }
    {
        self.slot_body(slot) + 1
    }
}
