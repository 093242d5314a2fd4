//! Lines of text, and text to standard output.

ghost use Rattle.std.specs.Prelude.{◌≡◌, ◌≤◌, ◌+◌, ◌++◌, length, true, IfErr, IfOk, OnErr, OnOk};
ghost use Rattle.std.specs.Fmt.{decimal};
ghost use Rattle.std.specs.Io.KnownBytes.{Appends};

use crate::failure::Failure;
use crate::status::Status;
use crate::stream::Stream;
use arrayvec::ArrayVec;
use itoa::Buffer;

/// The longest line that is not allocated.
pub const MAX_LINE: usize = 128;

/// A line that is not allocated: so memory cannot run out after the action that it reports.
pub type Line = ArrayVec<u8, MAX_LINE>;

/// Appends a name and a number in decimal, at most 20 digits.
pub fn append_count(line: &mut Line, name: &str, count: u64)
    requires { length line.old.items + length name.now + 20 ≤ MAX_LINE }
    ensures appended { line.new.items ≡ line.old.items ++ (name.now ++ decimal count) }
    ensures fits { length line.new.items ≤ length line.old.items + length name.now + 20 }
{
    let mut digits = Buffer::new();
    line.try_extend_from_slice(name.as_bytes()).unwrap();
    line.try_extend_from_slice(digits.format(count).as_bytes())
        .unwrap();
}

/// Appends a text.
pub fn append_text(line: &mut Line, text: &str)
    requires { length line.old.items + length text.now ≤ MAX_LINE }
    ensures appended { line.new.items ≡ line.old.items ++ text.now }
    ensures fits { length line.new.items ≤ length line.old.items + length text.now }
{
    line.try_extend_from_slice(text.as_bytes()).unwrap();
}

/// Prints octets on standard output, whole, and flushes. Fails with `Output` if and only if the
/// stream fails.
pub fn print_octets<W: Stream>(out: &mut W, octets: &[u8]) -> Result<(), Failure>
    ensures printed { OnOk result (Appends (W.contents out.old) (W.contents out.new) octets.now) }
    ensures failed { IfErr result (λ failure. failure ≡ Failure.Output) }
    ensures broken { OnErr result (W.failed out.new ≡ true) }
{
    let Ok(()) = out.print(octets) else {
        return Err(Failure::Output);
    };
    Ok(())
}

/// Prints a text, as `print_octets` does.
pub fn print<W: Stream>(out: &mut W, text: &str) -> Result<(), Failure>
    ensures printed { OnOk result (Appends (W.contents out.old) (W.contents out.new) text.now) }
    ensures failed { IfErr result (λ failure. failure ≡ Failure.Output) }
    ensures broken { OnErr result (W.failed out.new ≡ true) }
{
    print_octets(out, text.as_bytes())
}

/// Prints a text, the last action of a run, and returns the status of the run.
pub fn print_last<W: Stream>(out: &mut W, text: &str, status: Status) -> Result<Status, Failure>
    ensures printed { IfOk result (λ ended.
        Appends (W.contents out.old) (W.contents out.new) text.now × (ended ≡ status)) }
    ensures failed { IfErr result (λ failure. failure ≡ Failure.Output) }
    ensures broken { IfErr result (λ failure. W.failed out.new ≡ true) }
{
    print(out, text)?;
    Ok(status)
}
