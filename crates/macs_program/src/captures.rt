//! Where the captures of a run come from and go to, by their names.

ghost use Rattle.std.specs.Prelude.{◌≡◌, ◌⊎◌, List, Option, [], ◌∷◌, None, false, true, IfErr};
ghost use Rattle.std.specs.Prelude.{OnErr, OnOk};
ghost use Rattle.macs_program.specs.CaptureFiles.{Asked, Asks, Makes, Opens};

use macs_cli::{CaptureFile, Failure};
use macs_offline::{CaptureSink, CaptureSource, make_capture, open_capture};
use macs_pcap::{Sink, Source};
use std::alloc::Global;
use std::rt::Files;

/// Opens the captures of a run. Which captures it was asked for may be known; the state of the
/// system is not.
pub trait Captures {
    /// A capture to read.
    type Input: Source + Drop;

    /// A capture to write.
    type Output: Sink + Drop;

    /// The captures that it was asked for so far, in order, and what it returned, where known.
    ghost asked: { Self → Option (List Asked) } = { λ _. None };

    /// The capture with this name, for reading. Fails with `Memory`, else with `Capture`.
    fn open(&mut self, path: &str) -> Result<Self::Input, Failure>
        ensures opened { OnOk result
            (Asks (asked self.old) (asked self.new) (Opens path.now true ∷ [])) }
        ensures refused { OnErr result
            (Asks (asked self.old) (asked self.new) (Opens path.now false ∷ [])) }
        ensures failed { IfErr result
            (λ failure. (failure ≡ Failure.Memory) ⊎ (failure ≡ Failure.Capture)) };

    /// The capture with this name, for writing: its file is created or truncated. Fails with
    /// `Memory`, else with `Capture`.
    fn make(&mut self, path: &str) -> Result<Self::Output, Failure>
        ensures made { OnOk result
            (Asks (asked self.old) (asked self.new) (Makes path.now true ∷ [])) }
        ensures refused { OnErr result
            (Asks (asked self.old) (asked self.new) (Makes path.now false ∷ [])) }
        ensures failed { IfErr result
            (λ failure. (failure ≡ Failure.Memory) ⊎ (failure ≡ Failure.Capture)) };
}

/// The captures in files of the system.
#[derive(Clone, Copy)]
pub struct SystemCaptures<'a, T> {
    pub rt: &'a T,
    pub alloc: Global,
}

impl<T: Files> Captures for SystemCaptures<'_, T>
where
    T::File: CaptureFile,
{
    type Input = CaptureSource<T::File>;

    type Output = CaptureSink<T::File>;

    fn open(&mut self, path: &str) -> Result<CaptureSource<T::File>, Failure> {
        open_capture(self.rt, self.alloc, path)
    }

    fn make(&mut self, path: &str) -> Result<CaptureSink<T::File>, Failure> {
        make_capture(self.rt, self.alloc, path)
    }
}

/// The captures of a run. INPUT is opened first, and OUTPUT is created only if that succeeds.
pub fn open_both<C: Captures>(
    captures: &mut C,
    from: &str,
    to: &str,
) -> Result<(C::Input, C::Output), Failure>
    ensures order { OnOk result (Asks (C.asked captures.old) (C.asked captures.new)
        (Opens from.now true ∷ Makes to.now true ∷ [])) }
    ensures front { OnErr result
        (Asks (C.asked captures.old) (C.asked captures.new) (Opens from.now false ∷ [])
        ⊎ Asks (C.asked captures.old) (C.asked captures.new)
        (Opens from.now true ∷ Makes to.now false ∷ [])) }
    ensures failed { IfErr result
        (λ failure. (failure ≡ Failure.Memory) ⊎ (failure ≡ Failure.Capture)) }
{
    let source = captures.open(from)?;
    let sink = captures.make(to)?;
    Ok((source, sink))
}
