//! Octets from a source and to a sink, as many as are asked for.

ghost use Rattle.std.specs.Prelude.{◌≡◌, ◌<◌, ◌≤◌, length, take, IfOk, IfErr, OnErr, OnOk, true};
ghost use Rattle.std.specs.Io.KnownBytes.{Consumes, IsAtEnd};
ghost use Rattle.macs_pcap.specs.Writing.{WritesText};

use crate::fault::PcapFault;
use crate::sink::Sink;
use crate::source::Source;

/// Fills a buffer from its front with as many octets as the source has, and returns how many.
pub(crate) fn fill<R: Source>(source: &mut R, into: &mut [u8]) -> Result<usize, PcapFault>
    ensures bound { IfOk result (λ count. count ≤ length into.new) }
    ensures octets { IfOk result (λ count.
        Consumes (R.state source.old).left (R.state source.new).left (take count into.new)) }
    ensures end { IfOk result (λ count. count < length into.new
        → IsAtEnd (R.state source.new).left) }
    ensures done { OnOk result ((R.state source.new).failed ≡ (R.state source.old).failed) }
    ensures failed { OnErr result ((R.state source.new).failed ≡ true) }
    ensures names { IfErr result (λ fault. fault ≡ PcapFault.Read) }
{
    let mut count = 0;
    while count < into.len() {
        match source.read(&mut into[count..]) {
            Ok(0) => return Ok(count),
            Ok(more) => count += more,
            Err(_) => return Err(PcapFault::Read),
        }
    }
    Ok(count)
}

/// Writes all these octets. If a write fails, a prefix of them is written, not all.
pub(crate) fn send<W: Sink>(sink: &mut W, octets: &[u8]) -> Result<(), PcapFault>
    ensures { WritesText (W.state sink.old) (W.state sink.new) octets.now result }
{
    let mut rest = octets;
    while !rest.is_empty() {
        match sink.write(rest) {
            Ok(count) => rest = &rest[count..],
            Err(_) => return Err(PcapFault::Write),
        }
    }
    Ok(())
}
