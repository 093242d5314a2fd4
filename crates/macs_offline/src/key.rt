//! `key`: a fresh key from the system's random source.

ghost use Rattle.std.specs.Prelude.{◌≡◌, ◌≢◌, ◌⊎◌, ◌≤◌, ◌*◌, ℕ, Bool, List, Option, length, true};
ghost use Rattle.std.specs.Prelude.{false, IfErr, IfOk, IsOk, OnOk};
ghost use Rattle.std.specs.Io.KnownBytes.{Appends};
ghost use Rattle.hex.specs.Hex.{encode_lower};
ghost use Rattle.macs_offline.specs.Keys.{GivesKey, IsOfKey, PrintsKey, key_octets};
ghost use Rattle.macs_texts.specs.Lines.{line};

use macs_cli::{Failure, Line, Status, Stream, print_octets};
use macs_commands::secrets::{wipe, write_digits};
use std::random::RandomSource;

/// The longest key, in octets.
const LONGEST: usize = 32;

/// A source gave no octets.
#[derive(Clone, Copy)]
pub struct SourceFailed;

/// A source of the octets of a key. The octets it gave may be known; that they are random is not
/// claimed.
pub trait OctetSource {
    /// All octets that it has given so far, where known.
    ghost given: { Self → Option (List ℕ) };

    /// Whether it is known that it never fails.
    ghost steady: { Self → Bool } = { λ _. false };

    /// Fills the whole buffer.
    fn fill(&mut self, octets: &mut [u8]) -> Result<(), SourceFailed>
        ensures given { OnOk result (Appends (given self.old) (given self.new) octets.new) }
        ensures steady { steady self.old ≡ true → IsOk result };
}

/// The system's random source. Which octets it gives is not known.
#[derive(Clone, Copy)]
pub struct SystemOctets<'a, T> {
    pub rt: &'a T,
}

impl<T: RandomSource> OctetSource for SystemOctets<'_, T> {
    ghost use Rattle.std.specs.Prelude.{None};

    ghost given = { λ _. None };

    fn fill(&mut self, octets: &mut [u8]) -> Result<(), SourceFailed> {
        match self.rt.fill_bytes(octets) {
            Ok(()) => Ok(()),
            Err(_) => Err(SourceFailed),
        }
    }
}

/// The length of a key in octets: of 256 bits, or of 128.
fn key_octets(is_long: bool) -> usize
    ensures { result ≡ key_octets is_long }
{
    if is_long { LONGEST } else { 16 }
}

/// The line of a key. It is not allocated, so no copy of the key is left in freed memory.
fn key_line(octets: &[u8]) -> Line
    requires { length octets.now ≤ LONGEST }
    ensures { result.items ≡ line (encode_lower octets.now) }
{
    let mut room = [0; 2 * LONGEST];
    let digits = &mut room[..2 * octets.len()];
    write_digits(octets, digits);
    let mut line = Line::new();
    line.try_extend_from_slice(digits).unwrap();
    line.push(b'\n');
    wipe(digits);
    line
}

/// Prints a key made of octets from a source. Fails with `Random` if the source fails, and with
/// `Output` if the line cannot be printed.
pub fn print_key<S: OctetSource, W: Stream>(
    source: &mut S,
    is_long: bool,
    out: &mut W,
) -> Result<Status, Failure>
    ensures printed { IfOk result
        (λ status. (octets : List ℕ) × Appends (S.given source.old) (S.given source.new) octets
        × PrintsKey is_long octets (W.contents out.old) (W.contents out.new)
        × (status ≡ Status.Done)) }
    ensures failed { IfErr result IsOfKey }
    ensures steady { S.steady source.old ≡ true
        → IfErr result (λ failure. failure ≢ Failure.Random) }
    ensures silent { IfErr result (λ failure. failure ≢ Failure.Output → out.new ≡ out.old) }
    ensures broken { IfErr result (λ failure. failure ≡ Failure.Output → W.failed out.new ≡ true) }
{
    let mut room = [0; LONGEST];
    let octets = &mut room[..key_octets(is_long)];
    if source.fill(octets).is_err() {
        return Err(Failure::Random);
    }
    let mut line = key_line(octets);
    wipe(octets);
    let printed = print_octets(out, line.as_slice());
    wipe(line.as_mut_slice());
    printed?;
    Ok(Status::Done)
}

/// `key`: prints a key from the system's random source.
pub fn key<T: RandomSource, W: Stream>(
    rt: &T,
    is_long: bool,
    out: &mut W,
) -> Result<Status, Failure>
    ensures printed { IfOk result (λ status.
        GivesKey is_long (W.contents out.old) (W.contents out.new) × (status ≡ Status.Done)) }
    ensures failed { IfErr result IsOfKey }
    ensures silent { IfErr result (λ failure. failure ≢ Failure.Output → out.new ≡ out.old) }
    ensures broken { IfErr result (λ failure. failure ≡ Failure.Output → W.failed out.new ≡ true) }
{
    let mut source = SystemOctets { rt };
    print_key(&mut source, is_long, out)
}
