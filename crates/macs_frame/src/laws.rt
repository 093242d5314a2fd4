//! Laws of the definitions, for the layers above. If a law is about a value behind a reference, its
//! body reads it: that is how a proof learns its range.

ghost use Rattle.std.specs.Prelude.{◌≡◌, ◌↔◌, ◌⊎◌, ◌≤◌, ◌+◌, ℕ, List};
ghost use Rattle.std.specs.Prelude.{length};
ghost use Rattle.macs_fields.specs.First.{IsFirst};
ghost use Rattle.macs_frame.specs.Opening.{OpensTo, Verified};
ghost use Rattle.macs_frame.specs.Protection.{IsWritten, overhead, written_parts, protected_frame};
ghost use Rattle.macs_frame.specs.Tag.{IsForKay, Tag, TagFaultHolds, tag_faults};
ghost use Rattle.macs_frame.specs.declared.tag.Parts.{Parts};
ghost use Rattle.macs_frame.specs.declared.tag.SecTag.{SecTag};
ghost use Rattle.macs_frame.specs.declared.tag.TagFault.{TagFault};

/// The reading of a frame is unique.
pub fn one_reading()
    ensures { (frame : List ℕ) (a b : Parts) → Tag frame a → Tag frame b → a ≡ b }
{}

/// A frame has a reading and is not for the key agreement entity, or it has a first fault.
pub fn read_or_refused()
    ensures { (frame : List ℕ) → ((parts : Parts) × Tag frame parts × (¬ IsForKay frame))
        ⊎ ((fault : TagFault) × IsFirst (TagFaultHolds frame) tag_faults fault) }
{}

/// The parts of a frame open to at most one plain frame.
pub fn opens_once()
    ensures { (frame key sci : List ℕ) (offset : ℕ) (parts : Parts) (p q : List ℕ)
        → OpensTo frame key sci offset parts p → OpensTo frame key sci offset parts q → p ≡ q }
{}

/// A frame verifies as at most one plain frame.
pub fn verified_once()
    ensures { (frame key sci : List ℕ) (offset : ℕ) (p q : List ℕ)
        → Verified frame key sci offset p → Verified frame key sci offset q → p ≡ q }
{}

/// A frame verifies if and only if the parts that were read from it open.
pub fn verified_by_its_parts()
    ensures { (frame key sci : List ℕ) (offset : ℕ) (parts : Parts) (plain : List ℕ)
        → Tag frame parts → ¬ IsForKay frame
        → (Verified frame key sci offset plain ↔ OpensTo frame key sci offset parts plain) }
{}

/// A frame verifies as a plain frame, or as none.
pub fn verified_or_not()
    ensures { (frame key sci : List ℕ) (offset : ℕ)
        → ((plain : List ℕ) × Verified frame key sci offset plain)
        ⊎ ((plain : List ℕ) → ¬ Verified frame key sci offset plain) }
{}

/// A protected frame is longer than its plain frame by its SecTAG and its ICV.
pub fn protected_length()
    ensures { (key sci : List ℕ) (tag : SecTag) (offset : ℕ) (plain : List ℕ) → IsWritten tag
        → 14 ≤ length plain
        → length (protected_frame key sci tag offset plain) ≡ length plain + overhead tag.name }
{}

/// A protected frame is read back as it was written.
pub fn protected_is_read()
    ensures { (key sci : List ℕ) (tag : SecTag) (offset : ℕ) (plain : List ℕ) → IsWritten tag
        → 14 ≤ length plain
        → length plain + overhead tag.name ≤ 9216
        → Tag (protected_frame key sci tag offset plain) (written_parts tag (length plain))
        × (¬ IsForKay (protected_frame key sci tag offset plain)) }
{}

/// A protected frame verifies, under the key, the SCI and the offset that it was protected with, as
/// its own plain frame and no other.
pub fn protected_is_verified()
    ensures { (key sci : List ℕ) (tag : SecTag) (offset : ℕ) (plain other : List ℕ) → IsWritten tag
        → 14 ≤ length plain
        → length plain + overhead tag.name ≤ 9216
        → (Verified (protected_frame key sci tag offset plain) key sci offset other
        ↔ (other ≡ plain)) }
{}
