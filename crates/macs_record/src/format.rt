//! The formats of areas.

ghost use Rattle.std.specs.Prelude.{◌≡◌, IfSome, Some};
ghost use Rattle.macs_record.specs.Heads.{version_of};
ghost use Rattle.macs_record.specs.declared.format.Format.{Format};

/// The format of an area, by the version in its head.
#[derive(Debug, Clone, Copy, PartialEq, Eq)]
pub enum Format {
    /// Version 1.
    One,
    /// Version 2.
    Two,
}

impl Format {
    /// The version in a head of this format, 1 or 2.
    pub(crate) fn version(self) -> u32
        ensures { result ≡ version_of self }
    {
        match self {
            Format::One => 1,
            Format::Two => 2,
        }
    }

    /// The format whose heads have this version, `None` for a version that is neither 1 nor 2.
    pub(crate) fn of(version: u32) -> Option<Format>
        ensures some { IfSome result (λ format. version_of format ≡ version) }
        ensures found { (format : Format) → version_of format ≡ version → result ≡ Some format }
    {
        match version {
            1 => Some(Format::One),
            2 => Some(Format::Two),
            _ => None,
        }
    }
}
