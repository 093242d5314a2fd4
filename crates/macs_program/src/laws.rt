//! Laws of the definitions.

ghost use Rattle.std.specs.Prelude.{◌≡◌, ℕ, true, false, None};
ghost use Rattle.macs_disk.specs.Files.{FileState};
ghost use Rattle.macs_journal.specs.Contents.{ContentsAre, HasOpenGate, IsBlankFile};
ghost use Rattle.macs_program.specs.NewDisks.{Permits};
ghost use Rattle.macs_journal.specs.declared.contents.Contents.{Contents};

/// A file becomes that of a new endpoint only if it holds nothing, or if it may be overwritten and
/// holds no endpoint in use.
pub fn written_over()
    // The contents of a file are unique.
    ensures one { (file : FileState) (sectors : ℕ) (a b : Contents) → ContentsAre file sectors a
        → ContentsAre file sectors b → a ≡ b }
    // Without permission to overwrite, only a blank file is permitted.
    ensures blank { (file : FileState) (sectors : ℕ) → Permits false file sectors None
        → IsBlankFile file sectors × ¬ HasOpenGate file sectors }
    // With it, no file in which the gate of a head is open is permitted.
    ensures closed { (file : FileState) (sectors : ℕ) → Permits true file sectors None
        → ¬ HasOpenGate file sectors }
{}
