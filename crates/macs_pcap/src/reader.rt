//! Reading captures.

ghost use Rattle.std.specs.Prelude.{◌≡◌, ◌≢◌, ◌<◌, ◌≤◌, ◌+◌, ◌⊎◌, [], length, Some, None, Ok, Err};
ghost use Rattle.std.specs.Prelude.{IfOk, IfErr, IfSome, OnOk, vec_capacity};
ghost use Rattle.std.specs.Io.KnownBytes.{Consumes};
ghost use Rattle.macs_pcap.specs.Faults.{max_records};
ghost use Rattle.macs_pcap.specs.Header.{longest};
ghost use Rattle.macs_pcap.specs.Reading.{AnswersCutRecordHeader, AnswersFault};
ghost use Rattle.macs_pcap.specs.Reading.{AnswersRecordHeaderFault, AnswersHeaderFault};
ghost use Rattle.macs_pcap.specs.Reading.{HoldsOfLeft, IsOfRecordHeader, LeavesFrame};
ghost use Rattle.macs_pcap.specs.Reading.{ReadsHeader, ReadsRecord, Takes, TakesRecordHeader};
ghost use Rattle.macs_pcap.specs.Reading.{TakesOctets, TellsFailedRead, count_in, fault_in};
ghost use Rattle.macs_pcap.specs.Value.{count_of, header_of, lasting_fault, source_of};

use crate::fault::PcapFault;
use crate::fields::{RecordHeader, parse_header, parse_record_header};
use crate::header::{Header, Stamp};
use crate::moving::fill;
use crate::source::Source;
use std::alloc::Allocator;

/// Reads the header of a capture.
pub fn read_header<R: Source>(source: &mut R) -> Result<Header, PcapFault>
    ensures { ReadsHeader (R.state source.old) (R.state source.new) result }
{
    let mut octets = [0; 24];
    if fill(source, &mut octets)? < octets.len() {
        return Err(PcapFault::CutFile);
    }
    parse_header(&octets)
}

/// Takes the octets of the next record header, or `None` at the end.
fn take_record_header<R: Source>(source: &mut R) -> Result<Option<[u8; 16]>, PcapFault>
    ensures taken { IfOk result (λ header.
        HoldsOfLeft (R.state source.old).left (R.state source.new).left (TakesOctets header)) }
    ensures fault { IfErr result
        (λ fault. IfSome (R.state source.old).left (AnswersCutRecordHeader fault)) }
    ensures read { TellsFailedRead (R.state source.old).failed (R.state source.new).failed result }
    ensures names { IfErr result (λ fault. (fault ≡ PcapFault.Read) ⊎ (fault ≡ PcapFault.CutFile)) }
{
    let mut octets = [0; 16];
    let filled = fill(source, &mut octets)?;
    if filled == 0 {
        return Ok(None);
    }
    if filled < octets.len() {
        return Err(PcapFault::CutFile);
    }
    Ok(Some(octets))
}

/// Reads the next record header, after `count` capture records, or `None` at the end.
fn read_record_header<R: Source>(
    source: &mut R,
    big: bool,
    count: u32,
) -> Result<Option<RecordHeader>, PcapFault>
    ensures taken { IfOk result (λ header.
        HoldsOfLeft (R.state source.old).left (R.state source.new).left
        (TakesRecordHeader big header)) }
    ensures fault { IfErr result (λ fault.
        IfSome (R.state source.old).left (AnswersRecordHeaderFault big count fault)) }
    ensures unread { IfErr result (λ fault.
        IsOfRecordHeader fault → LeavesFrame (R.state source.old) (R.state source.new)) }
    ensures few { IfOk result (λ header. IfSome header (λ _. count < max_records)) }
    ensures short { IfOk result (λ header. IfSome header (λ some. some.kept ≤ longest)) }
    ensures read { TellsFailedRead (R.state source.old).failed (R.state source.new).failed result }
    ensures names { IfErr result (λ fault. (fault ≢ PcapFault.Write) × (fault ≢ PcapFault.Memory)) }
{
    let Some(octets) = take_record_header(source)? else {
        return Ok(None);
    };
    let header = parse_record_header(big, count, &octets)?;
    Ok(Some(header))
}

/// Reads the octets of a frame, which are then the whole contents of the buffer. Its previous
/// contents are overwritten in place: a buffer that is already that long is not filled twice.
fn read_frame<R: Source, A: Allocator>(
    source: &mut R,
    kept: usize,
    into: &mut Vec<u8, A>,
) -> Result<(), PcapFault>
    ensures taken { OnOk result
        (Consumes (R.state source.old).left (R.state source.new).left into.new.items) }
    ensures kept { OnOk result (length into.new.items ≡ kept) }
    ensures cut { IfErr result (λ fault. fault ≡ PcapFault.CutFile
        → IfSome (R.state source.old).left (λ left. length left < kept)) }
    ensures memory { IfErr result (λ fault. fault ≡ PcapFault.Memory
        → (vec_capacity into.old < kept) × (source.new ≡ source.old)) }
    ensures read { TellsFailedRead (R.state source.old).failed (R.state source.new).failed result }
    ensures names { IfErr result (λ fault.
        (fault ≡ PcapFault.CutFile) ⊎ (fault ≡ PcapFault.Read) ⊎ (fault ≡ PcapFault.Memory)) }
{
    if into.resize(kept, 0).is_err() {
        return Err(PcapFault::Memory);
    }
    if fill(source, into.as_mut_slice())? < kept {
        return Err(PcapFault::CutFile);
    }
    Ok(())
}

/// Reads the next capture record. At the end or at a fault, the contents of the buffer are not
/// specified.
fn read_into<R: Source, A: Allocator>(
    source: &mut R,
    big: bool,
    count: u32,
    into: &mut Vec<u8, A>,
) -> Result<Option<Stamp>, PcapFault>
    ensures taken { IfOk result (λ stamp. HoldsOfLeft (R.state source.old).left
        (R.state source.new).left (Takes big into.new.items stamp)) }
    ensures fault { IfSome (R.state source.old).left
        (AnswersFault big count (vec_capacity into.old) result) }
    ensures unread { IfErr result (λ fault.
        IsOfRecordHeader fault → LeavesFrame (R.state source.old) (R.state source.new)) }
    ensures memory { result ≡ Err PcapFault.Memory → vec_capacity into.old < longest }
    ensures few { IfOk result (λ stamp. IfSome stamp (λ _. count < max_records)) }
    ensures read { TellsFailedRead (R.state source.old).failed (R.state source.new).failed result }
    ensures names { IfErr result (λ fault. fault ≢ PcapFault.Write) }
    ensures fits { IfOk result (λ stamp. IfSome stamp (λ _. length into.new.items ≤ longest)) }
{
    let Some(header) = read_record_header(source, big, count)? else {
        return Ok(None);
    };
    read_frame(source, header.kept as usize, into)?;
    Ok(Some(header.stamp))
}

/// Reads the next capture record of a capture whose numbers are in this order, after `count`
/// others. Its frame is then the whole contents of `into`. At the end and at a fault, `into` is
/// empty.
pub fn read_record<R: Source, A: Allocator>(
    source: &mut R,
    big: bool,
    count: u32,
    into: &mut Vec<u8, A>,
) -> Result<Option<Stamp>, PcapFault>
    ensures { ReadsRecord big count (vec_capacity into.old) (R.state source.old)
        (R.state source.new)
        into.new.items result }
{
    let answer = read_into(source, big, count, into);
    match answer {
        Ok(Some(_)) => {}
        Ok(None) | Err(_) => into.clear(),
    }
    answer
}

/// A capture that is being read.
#[derive(Drop)]
pub struct PcapReader<R: Source> {
    source: R,
    header: Header,
    /// How many capture records were taken.
    count: u32,
    /// The first fault returned, which every later call returns too.
    fault: Option<PcapFault>,
}

impl<R: Source> PcapReader<R> {
    /// Reads the header of a capture. If it has a fault, the source is dropped.
    pub fn new(source: R) -> Result<PcapReader<R>, PcapFault>
    where
        R: Drop,
        ensures header { IfOk result (λ reader. ReadsHeader (R.state source)
            (R.state (source_of reader)) (Ok (header_of reader))) }
        ensures fault { IfErr result (λ fault.
            IfSome (R.state source).left (AnswersHeaderFault fault)) }
        ensures names { IfErr result (λ fault.
            (fault ≢ PcapFault.Write) × (fault ≢ PcapFault.Memory)) }
        // The source as it was dropped: its header has this fault, which is `Read` only if a read
        // failed.
        ensures refused { IfErr result (λ fault. (left : R)
            × ReadsHeader (R.state source) (R.state left) (Err fault)) }
        ensures count { IfOk result (λ reader. count_of reader ≡ 0) }
        ensures sound { IfOk result (λ reader. lasting_fault reader ≡ None) }
    {
        let mut source = source;
        let header = read_header(&mut source)?;
        Ok(PcapReader {
            source,
            header,
            count: 0,
            fault: None,
        })
    }

    /// The header.
    pub fn header(&self) -> &Header
        ensures { result.now ≡ header_of self.now }
    {
        &self.header
    }

    /// Reads the next capture record. Its frame is then the whole contents of `into`. At the end
    /// and at a fault, `into` is empty. After a fault nothing more is read, and each call returns
    /// that fault. `into` never holds more than 262,144 octets, regardless of the length of the
    /// capture.
    pub fn next<A: Allocator>(&mut self, into: &mut Vec<u8, A>) -> Result<Option<Stamp>, PcapFault>
        ensures reads { lasting_fault self.old ≡ None → ReadsRecord (header_of self.old).big
            (count_of self.old) (vec_capacity into.old) (R.state (source_of self.old))
            (R.state (source_of self.new)) into.new.items result }
        ensures for_good { IfSome (lasting_fault self.old) (λ fault.
            (result ≡ Err fault) × (self.new ≡ self.old) × (into.new.items ≡ [])) }
        ensures fault { lasting_fault self.new ≡ fault_in result }
        ensures count { count_of self.new ≡ count_of self.old + count_in result }
        ensures header { header_of self.new ≡ header_of self.old }
    {
        if let Some(fault) = self.fault {
            into.clear();
            return Err(fault);
        }
        let answer = read_record(&mut self.source, self.header.big, self.count, into);
        match answer {
            Ok(Some(_)) => self.count += 1,
            Ok(None) => {}
            Err(fault) => self.fault = Some(fault),
        }
        answer
    }
}
