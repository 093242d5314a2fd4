//! Why a frame is not sealed or not opened, and the codes returned to a C program.

ghost use Rattle.std.specs.Prelude.{◌≡◌, Err, Ok, Option, Some, None};
ghost use Rattle.macs_c.specs.Refusals.{code_of};

/// Why a frame is not sealed or not opened.
#[derive(Clone, Copy)]
pub(crate) enum Refusal {
    /// The key has neither 16 nor 32 octets.
    Key,
    /// A field is out of its range.
    Field,
    /// The frame has fewer than 14 octets.
    Runt,
    /// The frame has more than 9,216 octets, or would have once it is protected.
    Oversize,
    /// The buffer is too small for the resulting frame.
    Room,
    /// The EtherType is not 88-E5.
    NoTag,
    /// The SecTAG breaks a rule of 9.12, or has SCB set.
    BadTag,
    /// E is set and C clear: the frame is for the key agreement entity (9.5).
    ForKay,
    /// The SecTAG names another SCI.
    OtherSci,
    /// The ICV is not that of the frame under this key, SCI and offset.
    NotValid,
}

/// The return code: 0, or 1 to 10.
pub(crate) fn code_of(refusal: Option<Refusal>) -> u32
    ensures { result ≡ code_of refusal }
{
    match refusal {
        None => 0,
        Some(Refusal::Key) => 1,
        Some(Refusal::Field) => 2,
        Some(Refusal::Runt) => 3,
        Some(Refusal::Oversize) => 4,
        Some(Refusal::Room) => 5,
        Some(Refusal::NoTag) => 6,
        Some(Refusal::BadTag) => 7,
        Some(Refusal::ForKay) => 8,
        Some(Refusal::OtherSci) => 9,
        Some(Refusal::NotValid) => 10,
    }
}
