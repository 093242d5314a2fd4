//! Where a request is read from: standard input.

ghost use Rattle.std.specs.Prelude.{◌≡◌, ℕ, Bool, List, Option, true, take, IfOk, IfSome, OnErr};
ghost use Rattle.std.specs.Prelude.{OnOk};

use arrayvec::ArrayVec;
use std::io;
use std::io::Read;

/// One octet more than the longest input that is accepted.
const MAX_READ: usize = 20_001;

/// An input as it was read, to its end or to one octet more than the limit.
pub type InputText = ArrayVec<u8, MAX_READ>;

/// A read of an input failed.
#[derive(Clone, Copy)]
pub struct ReadFailed;

/// An input. Whether a read of it ever failed is known; what is left of it may be known.
pub trait Input {
    /// What is left of it, where known.
    ghost remaining: { Self → Option (List ℕ) };

    /// A read of it failed.
    ghost failed: { Self → Bool };

    /// Reads it to its end, or to 20,001 octets.
    fn read_text(&mut self) -> Result<InputText, ReadFailed>
        ensures read { IfOk result
            (λ text. IfSome (remaining self.old) (λ octets. text.items ≡ take 20001 octets)) }
        ensures done { OnOk result (failed self.new ≡ failed self.old) }
        ensures broken { OnErr result (failed self.new ≡ true) };
}

/// Reads an input, but no more than is needed.
fn read_input<R: Read>(input: &mut R) -> Result<InputText, ReadFailed>
    ensures { IfOk result (λ text. IfSome (R.remaining input.old)
        (λ octets. text.items ≡ take MAX_READ octets)) }
{
    let mut text = InputText::new();
    match io::copy(&mut input.take(MAX_READ as u64), &mut text) {
        Ok(_) => Ok(text),
        Err(_) => Err(ReadFailed),
    }
}

/// An input from a standard-library reader. An interrupted read is retried.
#[derive(Drop)]
pub struct ReaderInput<R: Read> {
    reader: R,
    has_failed: bool,
}

impl<R: Read> Input for ReaderInput<R> {
    ghost remaining = { λ input. R.remaining input.reader };

    ghost failed = { λ input. input.has_failed };

    fn read_text(&mut self) -> Result<InputText, ReadFailed> {
        let Ok(text) = read_input(&mut self.reader) else {
            self.has_failed = true;
            return Err(ReadFailed);
        };
        Ok(text)
    }
}

impl<R: Read> ReaderInput<R> {
    ghost use Rattle.std.specs.Prelude.{◌≡◌, false};

    /// An input over a reader, none of whose reads has failed.
    pub fn new(reader: R) -> ReaderInput<R>
        ensures remaining { ⟦<ReaderInput<R> as Input>⟧.remaining result ≡ R.remaining reader }
        ensures failed { ⟦<ReaderInput<R> as Input>⟧.failed result ≡ false }
    {
        ReaderInput {
            reader,
            has_failed: false,
        }
    }
}
