//! A MACsec endpoint on the command line (IEEE Std 802.1AE-2018).
#![tactic(auto)]

use macs_program::run::{report, run};
use macs_program::{Failure, ReaderInput, WriterStream};
use std::env;
use std::fs::File;
use std::io::ErrorKind;
use std::os::fd::AsRawFd;
use std::process::ExitCode;

/// The greatest descriptor of standard input, output and error.
const LAST_STANDARD: i32 = 2;

/// Opens a folder that can be neither read nor written on each closed descriptor of standard input,
/// output and error. Otherwise the disk file could get one of them, and printed lines would
/// overwrite its sectors.
fn take_closed_descriptors(rt: &HostRuntime) -> Result<[Option<File>; 3], Failure> {
    let mut taken = [None, None, None];
    for i in 0..taken.len() {
        let Ok(folder) = File::open(rt, "/") else {
            return Err(Failure::Output);
        };
        if folder.as_raw_fd() > LAST_STANDARD {
            break;
        }
        taken[i] = Some(folder);
    }
    Ok(taken)
}

/// The words after the program's name.
fn words_of(rt: &HostRuntime) -> Result<Vec<String>, Failure> {
    match env::args(rt) {
        Ok(words) => Ok(words.skip(1).collect(rt.alloc())?),
        Err(error) if error.kind() == ErrorKind::InvalidData => {
            let cause = String::from_str(rt.alloc(), "a word is not text")?;
            Err(Failure::Usage(cause))
        }
        Err(_) => Err(Failure::Memory),
    }
}

/// Runs the program with the words of the process, and returns its exit status.
fn run_process(rt: &HostRuntime) -> Result<u8, Failure> {
    let _taken = take_closed_descriptors(rt)?;
    let words = words_of(rt)?;
    let words: Vec<&str> = words.iter().map(|word| word.as_str()).collect(rt.alloc())?;
    let status = run(
        rt,
        rt.alloc(),
        words.as_slice(),
        &mut ReaderInput::new(rt.stdin()),
        &mut WriterStream::new(rt.stdout()),
        &mut WriterStream::new(rt.stderr()),
    );
    Ok(status)
}

fn main(rt: HostRuntime) -> ExitCode {
    let status = match run_process(&rt) {
        Ok(status) => status,
        Err(failure) => report(&failure, &mut WriterStream::new(rt.stderr())),
    };
    ExitCode::from(status)
}
