//! The memory of an endpoint in a C program.

ghost use Rattle.std.specs.Prelude.{◌≡◌, Option, Some, None, IsSome, is_some};
ghost use Rattle.std.specs.Borrow.{sem};
ghost use Rattle.macs_c.specs.declared.slot.Slot.{Slot};

use crate::slot::Slot;
use std::marker::Model;

/// Where an endpoint's memory is, and whether an endpoint lies there. In contracts `value` is that
/// endpoint. While none lies there, the memory may hold anything.
#[repr(C)]
pub struct MacsEndpoint {
    at: *mut u8,
    is_open: bool,
    ghost value: { Option Slot },
}

impl Model for MacsEndpoint {
    ghost use Rattle.macs_c.specs.Held.{held};
    ghost use Rattle.macs_c.specs.contracts.slot.Slot.{the_row};

    ghost also_owns = { λ h. held the_row h.is_open h.at h.value };
}

impl MacsEndpoint {
    ghost use Rattle.macs_c.specs.Lent.{LendsSlot};

    /// The endpoint that lies there, of which there must be one.
    pub(crate) fn get(&mut self) -> &mut Slot
        requires open { IsSome self.old.value }
        ensures* writes_back { sem 𝓛 (LendsSlot self.entry result) }
        ensures value { self.old.value ≡ Some result.now }
    {
        unsafe { &mut *(self.at as *mut Slot) }
    }

    /// Puts an endpoint there, where none may be.
    #[inline(always)] // Else it has a place of its own for the endpoint, beside its caller's.
    pub(crate) fn put(&mut self, slot: Slot)
        requires closed { self.old.value ≡ None }
        ensures { self.new.value ≡ Some slot }
    {
        unsafe { (self.at as *mut Slot).write(slot) };
        self.is_open = true;
    }

    /// Whether an endpoint lies there.
    pub(crate) fn is_open(&mut self) -> bool
        ensures { (result ≡ is_some self.old.value) × (self.new ≡ self.old) }
    {
        self.is_open
    }

    /// Forgets the endpoint: the memory is free.
    pub(crate) fn close(&mut self)
        ensures { self.new.value ≡ None }
    {
        self.is_open = false;
    }
}
