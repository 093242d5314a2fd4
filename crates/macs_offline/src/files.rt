//! The files named on the command line.

ghost use Rattle.std.specs.Prelude.{◌≡◌, ◌≢◌, ◌⊎◌, ◌/◌, false, true, [], Some, IfErr};
ghost use Rattle.std.specs.Prelude.{IfOk, IfSome, OnErr, OnOk};
ghost use Rattle.std.specs.Io.Buffered.{reader_buffer, reader_capacity, reader_inner};
ghost use Rattle.std.specs.Io.Buffered.{writer_buffer, writer_inner};
ghost use Rattle.macs_disk.specs.Files.{Behaves, file_claimed, file_cut};
ghost use Rattle.std.specs.IoError.{error_kind};
ghost use Rattle.std.specs.declared.io.ErrorKind.TheVariants.{OutOfMemory};
ghost use Rattle.macs_disk.specs.declared.file_fault.FileFault.{FileFault};
ghost use Rattle.macs_journal.specs.Contents.{HoldsEndpoint};
ghost use Rattle.macs_offline.specs.Openings.{IsDiskIn};
ghost use Rattle.macs_cli.specs.Failing.{failure_of_file};
ghost use Rattle.macs_cli.specs.declared.failure.DiskFault.{DiskFault};

use macs_cli::{CaptureFile, DiskFault, Failure, WholeWrites};
use macs_disk::{DiskFile, FileDisk};
use macs_journal::holds_endpoint;
use macs_pcap::{ReaderSource, Sink, Source, WriterSink};
use std::alloc::Global;
use std::fs::{OpenFile, OpenOptions};
use std::io::{BufReader, BufWriter, Read, Write};
use std::os::unix::fs::MetadataExt;
use std::rt::Files;
use std::{fs, io};

/// How many octets of a capture are buffered: each read and write of the system but the last
/// transfers this many, regardless of the frames.
const CAPTURE_ROOM: usize = 131_072;

/// A capture that is read.
pub type CaptureSource<F> = ReaderSource<BufReader<F>>;

/// A capture that is written.
pub type CaptureSink<F> = WriterSink<WholeWrites<F>>;

/// The failure for an error of the system: `Memory` if memory ran out, else this failure.
pub fn failure_of(error: io::Error, failure: Failure) -> Failure
    ensures memory { error_kind error ≡ OutOfMemory → result ≡ Failure.Memory }
    ensures other { error_kind error ≢ OutOfMemory → result ≡ failure }
    ensures either { (result ≡ Failure.Memory) ⊎ (result ≡ failure) }
{
    if error.kind() == io::ErrorKind::OutOfMemory {
        return Failure::Memory;
    }
    failure
}

/// The path of standard output.
const STANDARD_OUTPUT: &str = "/dev/stdout";

/// Whether standard output goes to the file at a path, so that printed lines would overwrite its
/// sectors.
pub fn is_printed_to<T: Files>(rt: &T, path: &str) -> bool {
    match (rt.metadata(path), rt.metadata(STANDARD_OUTPUT)) {
        (Ok(file), Ok(output)) => file.dev() == output.dev() && file.ino() == output.ino(),
        _ => false,
    }
}

/// Opens the regular file of a disk for reading. Fails if it is anything else, since opening a pipe
/// would wait for a writer, or if standard output goes to it, since printed lines would overwrite
/// its sectors.
pub fn open_regular<T: Files>(rt: &T, path: &str) -> io::Result<T::File> {
    if !rt.metadata(path)?.is_file() || is_printed_to(rt, path) {
        return Err(io::Error::from(io::ErrorKind::InvalidInput));
    }
    fs::open(rt, path)
}

/// Opens the regular file of a disk for reading, as `open_regular` does, and claims it along with
/// other readers. Also fails if a writer has claimed it, and with the error for a folder if it is
/// one.
pub fn open_shared<T: Files>(rt: &T, path: &str) -> io::Result<T::File>
where
    T::File: CaptureFile,
{
    if rt.metadata(path)?.is_dir() {
        return Err(io::Error::from(io::ErrorKind::IsADirectory));
    }
    let mut file = open_regular(rt, path)?;
    file.share()?;
    Ok(file)
}

/// The disk in a file. Fails with `Memory`, or with `Disk` and `File` or `Length` if the file is
/// not a disk, or if standard output goes there.
pub fn open_disk<T: Files>(rt: &T, alloc: Global, path: &str) -> Result<FileDisk<T::File>, Failure>
where
    T::File: DiskFile,
    ensures disk { IfOk result (IsDiskIn T.File.file) }
    ensures file { IfErr result
        (λ failure. (fault : FileFault) × (failure ≡ failure_of_file fault)) }
    ensures failed { IfErr result (λ failure. (failure ≡ Failure.Memory)
        ⊎ ((fault : DiskFault) × (failure ≡ Failure.Disk fault))) }
{
    if is_printed_to(rt, path) {
        return Err(Failure::Disk(DiskFault::File));
    }
    let disk = FileDisk::open(rt, alloc, path)?;
    Ok(disk)
}

/// A buffered reader of a capture. Fails with `Memory`.
fn reader_of<F: Read + Drop>(alloc: Global, file: F) -> Result<BufReader<F>, Failure>
    ensures inner { IfOk result (λ reader. reader_inner reader ≡ file) }
    ensures empty { IfOk result (λ reader. reader_buffer reader ≡ []) }
    ensures room { IfOk result (λ reader. reader_capacity reader ≡ 131072) }
    ensures failed { IfErr result (λ failure. failure ≡ Failure.Memory) }
{
    match BufReader::with_capacity(alloc, CAPTURE_ROOM, file) {
        Ok(reader) => Ok(reader),
        Err(error) => Err(failure_of(error, Failure::Capture)),
    }
}

/// A write buffer for a capture. Fails with `Memory`.
fn buffer_of<F: Write + Drop>(alloc: Global, file: F) -> Result<BufWriter<F>, Failure>
    ensures inner { IfOk result (λ buffer. writer_inner buffer ≡ file) }
    ensures empty { IfOk result (λ buffer. writer_buffer buffer ≡ []) }
    ensures failed { IfErr result (λ failure. failure ≡ Failure.Memory) }
{
    match BufWriter::with_capacity(alloc, CAPTURE_ROOM, file) {
        Ok(buffer) => Ok(buffer),
        Err(error) => Err(failure_of(error, Failure::Capture)),
    }
}

/// A capture read from an open file, from its current position to its end. Fails with `Memory`.
pub fn source_over<F: Read + Drop>(alloc: Global, file: F) -> Result<CaptureSource<F>, Failure>
    ensures left { IfOk result (λ source. IfSome (F.remaining file)
        (λ octets. (⟦<ReaderSource<BufReader<F>> as Source>⟧.state source).left ≡ Some octets)) }
    ensures fresh { IfOk result
        (λ source. (⟦<ReaderSource<BufReader<F>> as Source>⟧.state source).failed ≡ false) }
    ensures failed { IfErr result (λ failure. failure ≡ Failure.Memory) }
{
    let reader = reader_of(alloc, file)?;
    Ok(ReaderSource::new(reader))
}

/// A capture written to an open file, after what it holds. Fails with `Memory`.
fn sink_over<F: Write + Drop>(alloc: Global, file: F) -> Result<CaptureSink<F>, Failure>
    ensures held { IfOk result (λ sink. IfSome (F.contents file)
        (λ octets. (⟦<WriterSink<WholeWrites<F>> as Sink>⟧.state sink).held ≡ Some octets)) }
    ensures fresh { IfOk result
        (λ sink. (⟦<WriterSink<WholeWrites<F>> as Sink>⟧.state sink).failed ≡ false) }
    ensures unflushed { IfOk result
        (λ sink. (⟦<WriterSink<WholeWrites<F>> as Sink>⟧.state sink).flushed ≡ false) }
    ensures failed { IfErr result (λ failure. failure ≡ Failure.Memory) }
{
    let buffer = buffer_of(alloc, file)?;
    let whole = WholeWrites::new(buffer);
    Ok(WriterSink::new(whole))
}

/// Opens a file to read it as a capture. A regular file is claimed along with other readers, so
/// that it cannot also be an output.
pub fn open_source<T: Files>(rt: &T, path: &str) -> io::Result<T::File>
where
    T::File: CaptureFile,
{
    let mut file = fs::open(rt, path)?;
    if file.metadata()?.is_file() {
        file.share()?;
    }
    Ok(file)
}

/// The options to open a capture for writing, and maybe for reading. The contents of the file are
/// kept.
fn how_to_write(is_read: bool) -> OpenOptions
    ensures keeps { result.truncate ≡ false }
    ensures made { result.create ≡ true }
    ensures written { (result.read ≡ is_read) × (result.write ≡ true) × (result.append ≡ false) }
{
    let mut options = OpenOptions::new();
    options
        .read(is_read)
        .write(true)
        .create(true)
        .append(false)
        .truncate(false);
    options
}

/// Whether a device, a pipe or a socket is at a path.
fn is_special<T: Files>(rt: &T, path: &str) -> bool {
    match rt.metadata(path) {
        Ok(about) => !about.is_file() && !about.is_dir(),
        Err(_) => false,
    }
}

/// Opens or creates a file for writing, and also for reading if allowed, so that its contents can
/// be examined. A pipe is not opened for reading, since opening it would then not wait for a
/// reader.
fn open_output<T: Files>(rt: &T, path: &str) -> io::Result<T::File> {
    if is_special(rt, path) {
        return how_to_write(false).open(rt, path);
    }
    match how_to_write(true).open(rt, path) {
        Err(error) if error.kind() == io::ErrorKind::PermissionDenied => {
            how_to_write(false).open(rt, path)
        }
        opened => opened,
    }
}

/// Claims a file and truncates it to zero length. Fails if another open has claimed it, or if it
/// holds an endpoint or cannot be examined: then it is left unchanged, except for the claim.
fn cut_output<F: CaptureFile>(file: &mut F) -> io::Result<()>
    ensures steady { (F.file file.new).behaves ≡ (F.file file.old).behaves }
    ensures same { Behaves (F.file file.old)
        → OnErr result (file_claimed (F.file file.new) ≡ file_claimed (F.file file.old)) }
    ensures cut { Behaves (F.file file.old)
        → OnOk result (F.file file.new ≡ file_cut (file_claimed (F.file file.old))) }
    ensures free { Behaves (F.file file.old)
        → OnOk result (¬ HoldsEndpoint (F.file file.old) ((F.file file.old).size / 512)) }
{
    file.claim()?;
    if holds_endpoint(file)? {
        return Err(io::Error::from(io::ErrorKind::AlreadyExists));
    }
    file.cut()
}

/// Opens or creates a file to write it as a capture. A regular file is claimed and examined before
/// it is truncated. Fails if standard output goes to it, since the line of the run would overwrite
/// the capture.
fn open_sink<T: Files>(rt: &T, path: &str) -> io::Result<T::File>
where
    T::File: CaptureFile,
{
    let mut file = open_output(rt, path)?;
    if file.metadata()?.is_file() {
        if is_printed_to(rt, path) {
            return Err(io::Error::from(io::ErrorKind::AlreadyExists));
        }
        cut_output(&mut file)?;
    }
    Ok(file)
}

/// A capture read from a file. Fails with `Memory` if the system or the program runs out of memory,
/// and with `Capture` if the file cannot be opened, or its writer has claimed it, as is the case
/// for the disk file. Nothing is read yet.
pub fn open_capture<T: Files>(
    rt: &T,
    alloc: Global,
    path: &str,
) -> Result<CaptureSource<T::File>, Failure>
where
    T::File: CaptureFile,
    ensures { IfErr result (λ failure. (failure ≡ Failure.Memory) ⊎ (failure ≡ Failure.Capture)) }
{
    match open_source(rt, path) {
        Ok(file) => source_over(alloc, file),
        Err(error) => Err(failure_of(error, Failure::Capture)),
    }
}

/// A capture written to a file, which is created or truncated. Fails with `Memory` if the system or
/// the program runs out of memory, and with `Capture` if the file cannot be created, is another
/// file of the run, holds an endpoint, or has a sector and cannot be read: then it is left
/// unchanged.
pub fn make_capture<T: Files>(
    rt: &T,
    alloc: Global,
    path: &str,
) -> Result<CaptureSink<T::File>, Failure>
where
    T::File: CaptureFile,
    ensures { IfErr result (λ failure. (failure ≡ Failure.Memory) ⊎ (failure ≡ Failure.Capture)) }
{
    match open_sink(rt, path) {
        Ok(file) => sink_over(alloc, file),
        Err(error) => Err(failure_of(error, Failure::Capture)),
    }
}
