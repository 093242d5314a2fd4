//! Reads and writes of whole ranges of a file.

ghost use Rattle.std.specs.Prelude.{◌≡◌, ◌<◌, ◌≤◌, ◌+◌, ◌-◌, ◌^◌, length, replicate, IfErr, OnOk};
ghost use Rattle.std.specs.IoError.{error_kind};
ghost use Rattle.macs_disk.specs.FileFailures.{MoveFails, OnlyInterrupted, Reads, Writes};
ghost use Rattle.macs_disk.specs.Files.{Behaves, WritesAll, values_from};
ghost use Rattle.macs_disk.specs.Layouts.{place};

use crate::disk_file::DiskFile;
use crate::layout::Layout;
use std::io;

/// How many zeros are written at a time.
const ZEROS: usize = 4_096;

/// Reads 512 octets.
fn read_whole<F: DiskFile>(file: &mut F, from: u64, into: &mut [u8; 512]) -> io::Result<()>
    requires { from + 512 < 2 ^ 64 }
    ensures steady { (F.file file.new).behaves ≡ (F.file file.old).behaves }
    ensures same { Behaves (F.file file.old) → F.file file.new ≡ F.file file.old }
    ensures octets { Behaves (F.file file.old)
        → OnOk result (into.new ≡ values_from (F.file file.old).seen from 512) }
    ensures quiet { OnOk result (OnlyInterrupted (F.failures file.old) (F.failures file.new)) }
    ensures cause { IfErr result
        (λ error. MoveFails (F.failures file.old) (F.failures file.new) Reads (error_kind error)) }
{
    let mut done = 0;
    for _ in 0..u64::MAX {
        if done >= 512 {
            return Ok(());
        }
        match file.read_at(from + done as u64, &mut into[done..]) {
            Ok(0) => return Err(io::Error::from(io::ErrorKind::UnexpectedEof)),
            Ok(count) => done += count,
            Err(error) => {
                if error.kind() != io::ErrorKind::Interrupted {
                    return Err(error);
                }
            }
        }
    }
    Err(io::Error::from(io::ErrorKind::TimedOut))
}

/// Reads the 512 octets from octet `from` on. Fails with `UnexpectedEof` if the file ends before.
/// An interrupted read is retried.
pub fn read_exact_at<F: DiskFile>(file: &mut F, from: u64, into: &mut [u8; 512]) -> io::Result<()>
    ensures steady { (F.file file.new).behaves ≡ (F.file file.old).behaves }
    ensures same { Behaves (F.file file.old) → F.file file.new ≡ F.file file.old }
    ensures octets { Behaves (F.file file.old)
        → OnOk result (into.new ≡ values_from (F.file file.old).seen from 512) }
    ensures quiet { OnOk result (OnlyInterrupted (F.failures file.old) (F.failures file.new)) }
    ensures cause { IfErr result
        (λ error. MoveFails (F.failures file.old) (F.failures file.new) Reads (error_kind error)) }
{
    if from >= u64::MAX - 512 {
        return Err(io::Error::from(io::ErrorKind::UnexpectedEof));
    }
    read_whole(file, from, into)
}

/// Writes all of these octets.
pub(crate) fn write_all<F: DiskFile>(file: &mut F, at: u64, from: &[u8]) -> io::Result<()>
    requires { at + length from.now < 2 ^ 64 }
    ensures steady { (F.file file.new).behaves ≡ (F.file file.old).behaves }
    ensures effect { Behaves (F.file file.old)
        → WritesAll (F.file file.old) (F.file file.new) at from.now result }
    ensures quiet { OnOk result (OnlyInterrupted (F.failures file.old) (F.failures file.new)) }
    ensures cause { IfErr result
        (λ error. MoveFails (F.failures file.old) (F.failures file.new) Writes (error_kind error)) }
{
    let mut done = 0;
    for _ in 0..u64::MAX {
        if done >= from.len() {
            return Ok(());
        }
        match file.write_at(at + done as u64, &from[done..]) {
            Ok(0) => return Err(io::Error::from(io::ErrorKind::WriteZero)),
            Ok(count) => done += count,
            Err(error) => {
                if error.kind() != io::ErrorKind::Interrupted {
                    return Err(error);
                }
            }
        }
    }
    Err(io::Error::from(io::ErrorKind::TimedOut))
}

/// Reads the sector with this number.
pub(crate) fn read_sector<F: DiskFile>(
    file: &mut F,
    layout: Layout,
    at: u64,
    into: &mut [u8; 512],
) -> io::Result<()>
    requires { place layout at + 512 < 2 ^ 64 }
    ensures steady { (F.file file.new).behaves ≡ (F.file file.old).behaves }
    ensures same { Behaves (F.file file.old) → F.file file.new ≡ F.file file.old }
    ensures octets { Behaves (F.file file.old)
        → OnOk result (into.new ≡ values_from (F.file file.old).seen (place layout at) 512) }
    ensures quiet { OnOk result (OnlyInterrupted (F.failures file.old) (F.failures file.new)) }
    ensures cause { IfErr result
        (λ error. MoveFails (F.failures file.old) (F.failures file.new) Reads (error_kind error)) }
{
    read_whole(file, layout.place(at), into)
}

/// Writes zeros from octet `from` to before octet `to`, so that the file system allocates space for
/// them.
pub(crate) fn write_zeros<F: DiskFile>(file: &mut F, from: u64, to: u64) -> io::Result<()>
    requires { to < 2 ^ 64 }
    ensures steady { (F.file file.new).behaves ≡ (F.file file.old).behaves }
    ensures effect { Behaves (F.file file.old)
        → WritesAll (F.file file.old) (F.file file.new) from (replicate (to - from) 0) result }
    ensures quiet { OnOk result (OnlyInterrupted (F.failures file.old) (F.failures file.new)) }
    ensures cause { IfErr result
        (λ error. MoveFails (F.failures file.old) (F.failures file.new) Writes (error_kind error)) }
{
    let zeros = [0; ZEROS];
    let mut at = from;
    for _ in 0..u64::MAX {
        if at >= to {
            return Ok(());
        }
        let count = (to - at).min(ZEROS as u64) as usize;
        write_all(file, at, &zeros[..count])?;
        at += count as u64;
    }
    Err(io::Error::from(io::ErrorKind::TimedOut))
}
