//! The mode of a command file that others can read.

ghost use Rattle.std.specs.Prelude.{◌≡◌, true, IfErr, OnErr, OnOk};
ghost use Rattle.std.specs.Io.KnownBytes.{Appends};
ghost use Rattle.macs_cli.specs.FileModes.{mode_line, mode_warning, octal_digit, others_read};

use crate::failure::Failure;
use crate::output::{Line, append_text, print_octets};
use crate::stream::Stream;
use std::fs::OpenFile;
use std::os::unix::fs::MetadataExt;

/// The mode of an open file, if it is a regular file and the system reports it. For a link, it is
/// the mode of the file that the link leads to.
pub fn mode_of<F: OpenFile>(file: &F) -> Option<u32> {
    match file.metadata() {
        Ok(about) => {
            if about.is_file() {
                Some(about.mode())
            } else {
                None
            }
        }
        Err(_) => None,
    }
}

/// The last octal digit of a number.
fn octal_digit(number: u32) -> u8
    ensures { result ≡ octal_digit number }
{
    b'0' + (number % 8) as u8
}

/// Whether users other than the owner and the group of a file can read it.
fn others_read(mode: u32) -> bool
    ensures { result ≡ others_read mode }
{
    mode / 4 % 2 == 1
}

/// The line of a mode: its permission bits in octal.
fn mode_line(mode: u32) -> Line
    ensures { result.items ≡ mode_line mode }
{
    let mut line = Line::new();
    append_text(&mut line, "mode ");
    if mode / 512 % 8 != 0 {
        line.push(octal_digit(mode / 512));
    }
    let digits = [
        octal_digit(mode / 64),
        octal_digit(mode / 8),
        octal_digit(mode),
        b'\n',
    ];
    line.try_extend_from_slice(&digits).unwrap();
    line
}

/// Prints the line of a mode if others can read the file. Fails with `Output` if the line cannot be
/// printed.
pub fn print_mode<W: Stream>(mode: Option<u32>, out: &mut W) -> Result<(), Failure>
    ensures printed { OnOk result
        (Appends (W.contents out.old) (W.contents out.new) (mode_warning mode)) }
    ensures failed { IfErr result (λ failure. failure ≡ Failure.Output) }
    ensures broken { OnErr result (W.failed out.new ≡ true) }
{
    let Some(mode) = mode else {
        return Ok(());
    };
    if !others_read(mode) {
        return Ok(());
    }
    print_octets(out, mode_line(mode).as_slice())
}
