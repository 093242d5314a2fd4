//! Writing captures.

ghost use Rattle.std.specs.Prelude.{◌≡◌, ◌≤◌, length, Err, None, IfErr, IfOk, IfSome};
ghost use Rattle.macs_pcap.specs.Header.{header_text, longest};
ghost use Rattle.macs_pcap.specs.Reading.{fault_in};
ghost use Rattle.macs_pcap.specs.Records.{record_text};
ghost use Rattle.macs_pcap.specs.Value.{sink_of, writer_fault, writes_big};
ghost use Rattle.macs_pcap.specs.Writing.{CutsShort, Flushes, WritesText};

use crate::fault::PcapFault;
use crate::fields::{header_octets, record_header_octets};
use crate::header::{Header, Stamp};
use crate::moving::send;
use crate::sink::Sink;

/// Writes the header of a capture.
pub fn write_header<W: Sink>(sink: &mut W, header: &Header) -> Result<(), PcapFault>
    ensures { WritesText (W.state sink.old) (W.state sink.new) (header_text header.now) result }
{
    send(sink, &header_octets(header))
}

/// Writes a capture record whose numbers are in this order. The frame has at most 262,144 octets.
pub fn write_record<W: Sink>(
    sink: &mut W,
    big: bool,
    stamp: Stamp,
    frame: &[u8],
) -> Result<(), PcapFault>
    requires { length frame.now ≤ longest }
    ensures { WritesText (W.state sink.old) (W.state sink.new) (record_text big stamp frame.now)
        result }
{
    send(sink, &record_header_octets(big, stamp, frame.len() as u32))?;
    send(sink, frame)
}

/// A capture that is being written.
#[derive(Drop)]
pub struct PcapWriter<W: Sink> {
    sink: W,
    big: bool,
    /// The first fault returned, which every later call returns too.
    fault: Option<PcapFault>,
}

impl<W: Sink> PcapWriter<W> {
    /// Writes the header of a capture. If that fails, a prefix of it is written, and the sink is
    /// dropped.
    pub fn new(sink: W, header: &Header) -> Result<PcapWriter<W>, PcapFault>
    where
        W: Drop,
        ensures header { IfOk result (λ writer. WritesText (W.state sink)
            (W.state (sink_of writer)) (header_text header.now) result) }
        ensures fault { IfErr result (λ fault. fault ≡ PcapFault.Write) }
        // The sink as it was dropped: it has a prefix of the header, and a write to it failed.
        ensures cut { IfErr result (λ fault. (left : W)
            × CutsShort (W.state sink) (W.state left) (header_text header.now) fault) }
        ensures order { IfOk result (λ writer. writes_big writer ≡ header.now.big) }
        ensures sound { IfOk result (λ writer. writer_fault writer ≡ None) }
    {
        let mut sink = sink;
        write_header(&mut sink, header)?;
        Ok(PcapWriter {
            sink,
            big: header.big,
            fault: None,
        })
    }

    /// Writes a capture record. The frame has at most 262,144 octets. If a write fails, a prefix of
    /// the record is written; after a fault nothing more is written, and each call returns that
    /// fault.
    pub fn put(&mut self, stamp: Stamp, frame: &[u8]) -> Result<(), PcapFault>
        requires { length frame.now ≤ longest }
        ensures writes { writer_fault self.old ≡ None → WritesText (W.state (sink_of self.old))
            (W.state (sink_of self.new))
            (record_text (writes_big self.old) stamp frame.now) result }
        ensures for_good { IfSome (writer_fault self.old) (λ fault.
            (result ≡ Err fault) × (self.new ≡ self.old)) }
        ensures fault { writer_fault self.new ≡ fault_in result }
        ensures order { writes_big self.new ≡ writes_big self.old }
    {
        if let Some(fault) = self.fault {
            return Err(fault);
        }
        let answer = write_record(&mut self.sink, self.big, stamp, frame);
        if let Err(fault) = answer {
            self.fault = Some(fault);
        }
        answer
    }

    /// Flushes all that was written, so that a write that fails late is reported. After a fault
    /// nothing more is flushed, and each call returns that fault.
    pub fn flush(&mut self) -> Result<(), PcapFault>
        ensures flushes { writer_fault self.old ≡ None
            → Flushes (W.state (sink_of self.old)) (W.state (sink_of self.new)) result }
        ensures for_good { IfSome (writer_fault self.old) (λ fault.
            (result ≡ Err fault) × (self.new ≡ self.old)) }
        ensures fault { writer_fault self.new ≡ fault_in result }
        ensures order { writes_big self.new ≡ writes_big self.old }
    {
        if let Some(fault) = self.fault {
            return Err(fault);
        }
        if self.sink.flush().is_err() {
            self.fault = Some(PcapFault::Write);
            return Err(PcapFault::Write);
        }
        Ok(())
    }
}
