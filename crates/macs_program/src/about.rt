//! `about`: the version and build of the program.

ghost use Rattle.std.specs.Prelude.{◌≡◌, ◌≢◌, ◌⊎◌, true, IfErr, IfOk, string_bytes};
ghost use Rattle.std.specs.Io.KnownBytes.{Appends};
ghost use Rattle.macs_program.specs.About.{about_text, formats_text};

use crate::build::{COMMIT, LEVEL, TOOLCHAIN};
use macs_cli::{Failure, Status, Stream, Topic, print_last};
use macs_texts::{joined, word_line};
use std::alloc::{AllocError, Global};

/// Which formats of the journal the program writes and reads.
fn formats_text(alloc: Global) -> Result<String, AllocError>
    ensures { IfOk result (λ text. string_bytes text ≡ formats_text) }
{
    joined(
        word_line(alloc, "journal writes format", "2"),
        word_line(alloc, "journal reads formats", "1, 2"),
    )
}

/// The text of `about`: the program's version, the commit of its sources, the toolchain, its
/// processors, and which formats of the journal it writes and reads.
fn about_text(alloc: Global) -> Result<String, AllocError>
    ensures { IfOk result (λ text. string_bytes text ≡ about_text) }
{
    let text = joined(word_line(alloc, "built for", LEVEL), formats_text(alloc));
    let text = joined(word_line(alloc, "toolchain", TOOLCHAIN), text);
    let text = joined(word_line(alloc, "commit", COMMIT), text);
    joined(String::from_str(alloc, Topic::Version.text()), text)
}

/// `about`: prints the version and build of the program. Fails with `Memory`, and with `Output` if
/// the text cannot be printed.
pub fn about<W: Stream>(alloc: Global, out: &mut W) -> Result<Status, Failure>
    ensures printed { IfOk result (λ status.
        Appends (W.contents out.old) (W.contents out.new) about_text × (status ≡ Status.Done)) }
    ensures ended { IfErr result
        (λ failure. (failure ≡ Failure.Memory) ⊎ (failure ≡ Failure.Output)) }
    ensures silent { IfErr result (λ failure. failure ≢ Failure.Output → out.new ≡ out.old) }
    ensures broken { IfErr result (λ failure. failure ≡ Failure.Output → W.failed out.new ≡ true) }
{
    let text = about_text(alloc)?;
    print_last(out, text.as_str(), Status::Done)
}
