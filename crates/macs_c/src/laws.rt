//! That the contracts of an endpoint in C can be met: a device's answers can be reported, and what
//! `macs_format` made can be opened.

ghost use Rattle.std.specs.Prelude.{◌≡◌, ℕ, Bool, List, Option, Some, None, Result};
ghost use Rattle.macs_config.specs.Config.{this_edition};
ghost use Rattle.macs_disk.specs.DeviceCalls.{DoesCall, IsCall};
ghost use Rattle.macs_disk.specs.Disk.{now};
ghost use Rattle.macs_disk.specs.States.{DiskState};
ghost use Rattle.macs_disk.specs.declared.device_call.DeviceCall.{DeviceCall};
ghost use Rattle.macs_disk.specs.declared.disk.DeviceFault.{DeviceFault};
ghost use Rattle.macs_store.specs.Standing.{new_standing};
ghost use Rattle.macs_store.specs.Value.{standing_in};
ghost use Rattle.macs_c.specs.Calls.{OpenAnswer};
ghost use Rattle.macs_c.specs.Formatted.{FormatAnswer, identity_of};
ghost use Rattle.macs_c.specs.ReportedDisks.{Moment, ReportedValue, reported_disk, reported_state};
ghost use Rattle.macs_c.specs.declared.answers.Answer.{Answer};
ghost use Rattle.macs_c.specs.declared.answers.Answer.TheVariants as code;
ghost use Rattle.macs_c.specs.declared.formatting.MacsIdentity.{MacsIdentity};
ghost use Rattle.macs_c.specs.declared.slot.Slot.{Slot};

/// Whatever an honest device does on a call, there is a report of it.
pub fn each_call_may_be_reported()
    ensures { (it : ReportedValue) (asked : DeviceCall) (read : List ℕ)
        (answer : Result (Unit {0}) DeviceFault) (after : DiskState) → IsCall asked
        → DoesCall (now (reported_disk it)) after asked read answer
        → (next : Moment) × (reported_state next ≡ after) }
{}

/// Sectors that `macs_format` made are opened, as those of a new endpoint.
pub fn a_new_disk_is_opened()
    ensures { (old new : List (List ℕ)) (asked : MacsIdentity)
        → FormatAnswer old asked code.Success new
        → (honest : Bool) (answer : Answer) (there : Option Slot)
        → OpenAnswer honest new None answer there
        → (slot : Slot) × (there ≡ Some slot) × (answer ≡ code.Success)
        × (standing_in slot.endpoint.store ≡ new_standing this_edition (identity_of asked)) }
{}
