//! The counters in a file: a new one is written whole, and then renamed.

ghost use Rattle.std.specs.Prelude.{◌≡◌, IfOk, string_bytes};
ghost use Rattle.macs_control.specs.MetricsFiles.{Replaces, new_name};

use crate::second::EachSecond;
use macs_commands::requests::Metrics;
use std::alloc::{AllocError, Global};
use std::fs::File;
use std::io::{ErrorKind, Write};
use std::rt::{Clock, Files};

/// The file operations needed. Tests replace them.
pub trait FileCalls {
    ghost use Rattle.std.specs.Prelude.{◌≡◌, [], ◌∷◌, List, Option, None};
    ghost use Rattle.macs_control.specs.MetricsFiles.{FileCall, Makes, Removes, Renames};
    ghost use Rattle.macs_control.specs.Calls.{with_calls};

    /// The calls so far, in order, and whether each succeeded, if known.
    ghost asked: { Self → Option (List FileCall) } = { λ _. None };

    /// Removes the file or the link with this name, and returns whether the name is unused now.
    fn remove(&mut self, path: &str) -> bool
        ensures { asked self.new ≡ with_calls (asked self.old) (Removes path.now result ∷ []) };

    /// Makes a file with this name, which must be unused, and writes a text to it: all of it, or
    /// the call fails.
    fn make(&mut self, path: &str, text: &[u8]) -> bool
        ensures { asked self.new
            ≡ with_calls (asked self.old) (Makes path.now text.now result ∷ []) };

    /// Renames a file over another.
    fn rename(&mut self, from: &str, to: &str) -> bool
        ensures { asked self.new
            ≡ with_calls (asked self.old) (Renames from.now to.now result ∷ []) };
}

/// The files of the system.
#[derive(Clone, Copy)]
pub struct SystemFiles<'a, T> {
    pub rt: &'a T,
}

impl<T: Files> FileCalls for SystemFiles<'_, T> {
    fn remove(&mut self, path: &str) -> bool {
        match self.rt.remove_file(path) {
            Ok(()) => true,
            Err(error) => error.kind() == ErrorKind::NotFound,
        }
    }

    /// No link is followed, and no existing file is opened (`O_EXCL`, open(2)).
    fn make(&mut self, path: &str, text: &[u8]) -> bool {
        match File::create_new(self.rt, path) {
            Ok(mut file) => file.write_all(text).is_ok(),
            Err(_) => false,
        }
    }

    fn rename(&mut self, from: &str, to: &str) -> bool {
        self.rt.rename(from, to).is_ok()
    }
}

/// Replaces a file by one with this text: whoever reads it finds the old text or the new one,
/// whole. The new file is created each time, so that the text is not written to any other file.
pub fn replace<F: FileCalls>(files: &mut F, new: &str, path: &str, text: &[u8])
    ensures { Replaces new.now path.now text.now (F.asked files.old) (F.asked files.new) }
{
    if files.remove(new) && files.make(new, text) {
        files.rename(new, path);
    }
}

/// A file of counters, written at most once a second.
#[derive(Drop)]
pub struct MetricsFile<'a, T> {
    rt: &'a T,
    path: &'a str,
    new: String,
    second: EachSecond,
}

/// The name under which a new file is written.
fn new_name(alloc: Global, path: &str) -> Result<String, AllocError>
    ensures { IfOk result (λ name. string_bytes name ≡ new_name path.now) }
{
    let name = format!(in alloc; "{path}.new")?;
    Ok(name)
}

impl<'a, T: Files + Clock> MetricsFile<'a, T> {
    ghost use Rattle.std.specs.Prelude.{IfOk, string_bytes};
    ghost use Rattle.macs_control.specs.MetricsFiles.{IsFileAt, Replaces};

    /// The file with this name, which need not exist.
    pub fn new(rt: &'a T, alloc: Global, path: &'a str) -> Result<MetricsFile<'a, T>, AllocError>
        ensures { IfOk result (IsFileAt path.now) }
    {
        let new = new_name(alloc, path)?;
        Ok(MetricsFile {
            rt,
            path,
            new,
            second: EachSecond::new(),
        })
    }

    /// Replaces the file by one with this text.
    fn write_over<F: FileCalls>(&self, files: &mut F, text: &[u8])
        ensures { Replaces (string_bytes self.now.new) self.now.path.now text.now
            (F.asked files.old) (F.asked files.new) }
    {
        replace(files, self.new.as_str(), self.path, text);
    }
}

impl<T: Files + Clock> Metrics for MetricsFile<'_, T> {
    ghost use Rattle.macs_control.specs.MetricsFiles.{IsNoted};

    ghost does = { IsNoted };

    fn is_due(&mut self) -> bool {
        self.second.is_over(self.rt)
    }

    fn put(&mut self, text: &[u8]) {
        let mut files = SystemFiles { rt: self.rt };
        self.write_over(&mut files, text);
    }
}

/// Where the counters are written: to a file, or nowhere.
#[derive(Drop)]
pub enum MetricsPlace<'a, T> {
    Nowhere,
    File(MetricsFile<'a, T>),
}

impl<'a, T: Files + Clock> MetricsPlace<'a, T> {
    ghost use Rattle.std.specs.Prelude.{IfOk};
    ghost use Rattle.macs_control.specs.MetricsFiles.{IsPlaceAt};

    /// The file with this name, if one is given.
    pub fn new(
        rt: &'a T,
        alloc: Global,
        path: Option<&'a str>,
    ) -> Result<MetricsPlace<'a, T>, AllocError>
        ensures { IfOk result (IsPlaceAt path.entry) }
    {
        match path {
            None => Ok(MetricsPlace::Nowhere),
            Some(path) => {
                let file = MetricsFile::new(rt, alloc, path)?;
                Ok(MetricsPlace::File(file))
            }
        }
    }
}

impl<T: Files + Clock> Metrics for MetricsPlace<'_, T> {
    ghost use Rattle.macs_control.specs.MetricsFiles.{IsNotedAt};

    ghost does = { IsNotedAt };

    fn is_due(&mut self) -> bool {
        match self {
            MetricsPlace::Nowhere => false,
            MetricsPlace::File(file) => file.is_due(),
        }
    }

    fn put(&mut self, text: &[u8]) {
        match self {
            MetricsPlace::Nowhere => {}
            MetricsPlace::File(file) => file.put(text),
        }
    }
}
