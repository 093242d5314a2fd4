//! What a list of sectors represents, and what a power loss leaves while a C program writes the
//! sectors of a new journal to its device.

ghost use Rattle.std.specs.Prelude.{◌≡◌, ◌≤◌, ◌⊎◌, ℕ, List, Err};
ghost use Rattle.macs_config.specs.Config.{this_edition};
ghost use Rattle.macs_config.specs.Identity.{Identity};
ghost use Rattle.macs_disk.specs.States.{DiskState, Image, IsImage, IsSector};
ghost use Rattle.macs_journal.specs.Areas.{head_body};
ghost use Rattle.macs_journal.specs.declared.fault.JournalFault.TheVariants.{NotFormatted};
ghost use Rattle.macs_store.specs.Found.{StandingIs};
ghost use Rattle.macs_endpoint.specs.Formatting.{IsFormattedAs};
ghost use Rattle.macs_c.specs.Formatted.{Formats, IsAtGate, IsBeforeGate, IsWritten};
ghost use Rattle.macs_c.specs.ImageDisks.{sector_of};

/// A sector in memory is what contracts read there.
pub fn sectors_are_themselves()
    ensures { (octets : List ℕ) → IsSector octets → sector_of octets ≡ octets }
{}

/// All sectors that change lie in the first area.
pub fn the_second_area_stays()
    ensures { (sectors : ℕ) (old : Image) (identity : Identity) (new : Image)
        → Formats sectors old identity new → (i : ℕ) → head_body 1 ≤ i → new i ≡ old i }
{}

/// Before the head gate is written, a power loss leaves a disk that is not formatted.
pub fn no_journal_before_the_gate()
    ensures { (sectors : ℕ) (old : Image) (identity : Identity) (new : Image)
        → Formats sectors old identity new
        → (s : DiskState) (image : Image) → IsBeforeGate old s → IsImage s image
        → StandingIs this_edition sectors image (Err NotFormatted) }
{}

/// While the head gate is written, after a sync of the others, a power loss leaves a disk that is
/// not formatted, or that of the new endpoint.
pub fn none_or_the_new_journal_at_the_gate()
    ensures { (sectors : ℕ) (old : Image) (identity : Identity) (new : Image)
        → Formats sectors old identity new
        → (s : DiskState) (image : Image) → IsAtGate new s → IsImage s image
        → StandingIs this_edition sectors image (Err NotFormatted)
        ⊎ IsFormattedAs sectors identity image }
{}

/// After the last sync, a power loss leaves the disk of the new endpoint.
pub fn the_new_journal_after_the_gate()
    ensures { (sectors : ℕ) (old : Image) (identity : Identity) (new : Image)
        → Formats sectors old identity new
        → (s : DiskState) (image : Image) → IsWritten new s → IsImage s image
        → IsFormattedAs sectors identity image }
{}
