//! `inspect`: prints the contents of the SecTAG of each frame of a capture.

ghost use Rattle.std.specs.Prelude.{◌≡◌, ◌≢◌, ◌<◌, ◌++◌, codes, length, true, IfErr, IfOk};
ghost use Rattle.std.specs.Prelude.{◌∷◌, [], IfSome, IsTrue, string_bytes, take};
ghost use Rattle.std.specs.Fmt.{decimal};
ghost use Rattle.macs_frame.specs.Tag.{short_length};
ghost use Rattle.macs_texts.specs.Lines.{line};
ghost use Rattle.macs_offline.specs.Inspecting.{FailsSo, InspectFails, Inspects, InspectsNext};
ghost use Rattle.macs_offline.specs.Inspecting.{IsLineOf};
ghost use Rattle.macs_offline.specs.Inspecting.{IsOfInspecting, IsSaidOf};
ghost use Rattle.macs_offline.specs.Inspecting.{PrintsFrames, RunsCapture, RunsRecords, bit_text};
ghost use Rattle.macs_offline.specs.Inspecting.{bits_text, numbers_text, tag_text};
ghost use Rattle.macs_cli.specs.Reasons.{Complains, TellsOfFile};

use crate::files::{CaptureSource, open_source, source_over};
use crate::hex_text::HexText;
use crate::opened::refusal_text;
use crate::stop::{Stop, header_text, record_text};
use macs_cli::{CaptureFile, Failure, Status, Stream, failure_at, failure_told};
use macs_frame::{OpenFault, ScName, SecTag, read_tag};
use macs_pcap::{PcapFault, Source, read_header, read_record};
use std::alloc::{AllocError, Global};
use std::fs::OpenFile;
use std::io::Read;
use std::rt::Files;
use std::{fmt, fs, io};

/// How a SecTAG names its channel, as it is displayed.
#[derive(Clone, Copy)]
struct NameText(ScName);

impl fmt::Display for NameText {
    ghost use Rattle.std.specs.Prelude.{Some};
    ghost use Rattle.macs_offline.specs.Inspecting.{name_text};

    ghost output = { λ text. Some (name_text text.0) };

    fn fmt<W: fmt::Write>(&self, f: &mut fmt::Formatter<W>) -> fmt::Result {
        match self.0 {
            ScName::Explicit(sci) => {
                let octets = sci.get();
                let sci = HexText(&octets);
                write!(f, " sci={sci}")
            }
            ScName::EndStation => f.write_str(" es"),
            ScName::Implicit => f.write_str(""),
        }
    }
}

/// A bit as a digit.
fn bit_text(bit: bool) -> &'static str
    ensures { result.now ≡ bit_text bit }
{
    if bit { "1" } else { "0" }
}

/// The numbers in a SecTAG, and its SL.
fn numbers_text(alloc: Global, tag: &SecTag, short: u8) -> Result<String, AllocError>
    ensures { IfOk result (λ text. string_bytes text ≡ numbers_text tag.now short) }
{
    let an = tag.an.get();
    let pn = tag.pn.get();
    format!(in alloc; "an={an} pn={pn} sl={short}")
}

/// The bits E and C of a SecTAG, and its channel.
fn bits_text(alloc: Global, tag: &SecTag) -> Result<String, AllocError>
    ensures { IfOk result (λ text. string_bytes text ≡ bits_text tag.now) }
{
    let e = bit_text(tag.encrypted);
    let c = bit_text(tag.changed);
    let name = NameText(tag.name);
    format!(in alloc; "e={e} c={c}{name}")
}

/// The contents of a SecTAG, its SL, and the length of its frame in octets.
fn tag_text(alloc: Global, tag: &SecTag, short: u8, octets: usize) -> Result<String, AllocError>
    ensures { IfOk result (λ text. string_bytes text ≡ tag_text tag.now short octets) }
{
    let numbers = numbers_text(alloc, tag, short)?;
    let bits = bits_text(alloc, tag)?;
    format!(in alloc; "{numbers} {bits} octets={octets}")
}

/// The SL of a frame.
fn short_length(frame: &[u8]) -> u8
    requires { 15 < length frame.now }
    ensures { result ≡ short_length frame.now }
{
    frame[15]
}

/// The text for a frame: its first fault, worded as by `open`, or the contents of its SecTAG.
fn said_of(alloc: Global, frame: &[u8]) -> Result<String, AllocError>
    ensures { IfOk result (λ text. IsSaidOf frame.now (string_bytes text)) }
{
    match read_tag(frame) {
        Ok(parts) => tag_text(alloc, &parts.tag, short_length(frame), frame.len()),
        Err(fault) => String::from_str(alloc, refusal_text(OpenFault::Tag(fault))),
    }
}

/// A line of a number and a text.
fn numbered(alloc: Global, at: u64, said: &str) -> Result<String, AllocError>
    ensures { IfOk result
        (λ text. string_bytes text ≡ line (decimal at ++ (codes " " ++ said.now))) }
{
    let mut line = format!(in alloc; "{at} {said}")?;
    line.push('\n')?;
    Ok(line)
}

/// The line of a frame, with its number.
fn inspect_line(alloc: Global, at: u64, frame: &[u8]) -> Result<String, AllocError>
    ensures { IfOk result (λ text. IsLineOf at frame.now (string_bytes text)) }
{
    let said = said_of(alloc, frame)?;
    numbered(alloc, at, said.as_str())
}

/// Prints the line of the next frame of a capture, after `count` others. Returns whether there was
/// one.
fn inspect_next<R: Source, W: Stream>(
    alloc: Global,
    source: &mut R,
    big: bool,
    count: u32,
    frame: &mut Vec<u8>,
    out: &mut W,
) -> Result<bool, Stop>
    ensures next { InspectsNext big count (R.state source.old) (W.contents out.old) result
        (R.state source.new) (W.contents out.new) }
    ensures broken { IfErr result (λ stop. stop ≡ Stop.Output → W.failed out.new ≡ true) }
{
    let Some(_stamp) = read_record(source, big, count, frame)? else {
        return Ok(false);
    };
    let line = inspect_line(alloc, u64::from(count) + 1, frame.as_slice())?;
    out.print(line.as_str().as_bytes())?;
    Ok(true)
}

/// Prints the lines of all frames after the header of a capture.
fn inspect_frames<R: Source, W: Stream>(
    alloc: Global,
    source: &mut R,
    big: bool,
    out: &mut W,
) -> Result<Status, Stop>
    ensures runs { RunsRecords big (R.state source.old) (W.contents out.old) result
        (R.state source.new) (W.contents out.new) }
    ensures broken { IfErr result (λ stop. stop ≡ Stop.Output → W.failed out.new ≡ true) }
{
    let mut frame = Vec::new(alloc);
    let mut count: u32 = 0;
    while inspect_next(alloc, source, big, count, &mut frame, out)? {
        count += 1;
    }
    Ok(Status::Done)
}

/// Prints a line for each frame of a capture. Stops at the first fault of the capture, after the
/// lines of the frames before it; when memory runs out; and at the first line that cannot be
/// printed.
pub fn inspect_capture<R: Source, W: Stream>(
    alloc: Global,
    source: &mut R,
    out: &mut W,
) -> Result<Status, Stop>
    ensures runs { RunsCapture (R.state source.old) (W.contents out.old) result
        (R.state source.new) (W.contents out.new) }
    ensures broken { IfErr result (λ stop. stop ≡ Stop.Output → W.failed out.new ≡ true) }
{
    match read_header(source) {
        Ok(header) => inspect_frames(alloc, source, header.big, out),
        Err(fault) => Err(Stop::Header(fault)),
    }
}

/// Opens the file of a capture for reading. Fails if it is a folder.
fn open_file<T: Files>(rt: &T, path: &str) -> io::Result<T::File>
where
    T::File: CaptureFile,
{
    let file = open_source(rt, path)?;
    if file.metadata()?.is_dir() {
        return Err(io::Error::from(io::ErrorKind::IsADirectory));
    }
    Ok(file)
}

/// A capture read from a file. Fails with `Said` and the reason if the file cannot be opened, or
/// its writer has claimed it; and with `Memory`. Nothing is read yet.
fn open_to_inspect<T: Files>(
    rt: &T,
    alloc: Global,
    path: &str,
) -> Result<CaptureSource<T::File>, Failure>
where
    T::File: CaptureFile,
    ensures { IfErr result (Complains (TellsOfFile (codes "capture") path.now)) }
{
    match open_file(rt, path) {
        Ok(file) => source_over(alloc, file),
        Err(error) => Err(failure_at(alloc, "capture", path, error)),
    }
}

/// Whether the input begins like a pcapng file. False if a read fails.
fn begins_pcapng<R: Read>(file: &mut R) -> bool
    ensures { IfSome (R.remaining file.old)
        (λ octets. IsTrue result → take 4 octets ≡ 10 ∷ 13 ∷ 13 ∷ 10 ∷ []) }
{
    let mut front = [0; 4];
    match file.read_exact(&mut front) {
        Ok(()) => front == [0x0a, 0x0d, 0x0d, 0x0a],
        Err(_) => false,
    }
}

/// Whether a regular file with this name begins like a pcapng file.
fn is_pcapng<T: Files>(rt: &T, path: &str) -> bool {
    match rt.metadata(path) {
        Ok(about) if about.is_file() => match fs::open(rt, path) {
            Ok(mut file) => begins_pcapng(&mut file),
            Err(_) => false,
        },
        _ => false,
    }
}

/// The failure for a fault of a capture's header.
fn failure_of_header<T: Files>(rt: &T, alloc: Global, name: &str, fault: PcapFault) -> Failure
    ensures { FailsSo name.now (Stop.Header fault) result }
{
    let is_pcapng = fault == PcapFault::BadMagic && is_pcapng(rt, name);
    failure_told(alloc, "capture", name, header_text(is_pcapng, fault))
}

/// The failure for a fault of a record.
fn failure_of_record(alloc: Global, name: &str, fault: PcapFault) -> Failure
    ensures { FailsSo name.now (Stop.Record fault) result }
{
    match fault {
        PcapFault::Memory => Failure::Memory,
        _ => failure_told(alloc, "capture", name, record_text(fault)),
    }
}

/// The failure for what ends an inspection of the capture with this name.
fn failure_of_stop<T: Files>(rt: &T, alloc: Global, name: &str, stop: Stop) -> Failure
    ensures { FailsSo name.now stop result }
{
    match stop {
        Stop::Header(fault) => failure_of_header(rt, alloc, name, fault),
        Stop::Record(fault) => failure_of_record(alloc, name, fault),
        Stop::Memory => Failure::Memory,
        Stop::Output => Failure::Output,
    }
}

/// `inspect`: prints a line for each frame of a capture. Fails with `Said` and the reason if the
/// capture cannot be opened, or at its first fault, after the lines of the frames before it; with
/// `Memory`; and with `Output` at the first line that cannot be printed.
pub fn inspect<T: Files, W: Stream>(
    rt: &T,
    alloc: Global,
    input: &str,
    out: &mut W,
) -> Result<Status, Failure>
where
    T::File: CaptureFile,
    ensures printed { IfOk result (λ status.
        Inspects (W.contents out.old) (W.contents out.new) × (status ≡ Status.Done)) }
    ensures ended { IfErr result
        (InspectFails input.now (W.contents out.old) (W.contents out.new)) }
    ensures failed { IfErr result IsOfInspecting }
    ensures front { IfErr result (λ failure. failure ≢ Failure.Output
        → PrintsFrames (W.contents out.old) (W.contents out.new)) }
    ensures broken { IfErr result (λ failure. failure ≡ Failure.Output → W.failed out.new ≡ true) }
{
    let mut source = open_to_inspect(rt, alloc, input)?;
    match inspect_capture(alloc, &mut source, out) {
        Ok(status) => Ok(status),
        Err(stop) => Err(failure_of_stop(rt, alloc, input, stop)),
    }
}
