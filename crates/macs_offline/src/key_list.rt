//! The keys that endpoints on a disk file of this name have been given, in a list beside the disk
//! file.
//!
//! A new disk file does not know which keys its predecessor had. If the old file was lost, the list
//! is all that is left of them: no command that installs one of them is given to the new endpoint.

ghost use Rattle.std.specs.Prelude.{◌≡◌, ◌↔◌, ◌⊎◌, ◌++◌, IfErr, IfOk, IsTrue, MatchOption, OnOk};
ghost use Rattle.std.specs.Prelude.{map, string_bytes};
ghost use Rattle.std.specs.List.{All};
ghost use Rattle.std.specs.Option.{option_map};
ghost use Rattle.macs_offline.specs.KeyLists.{HasSpent, IsFirstSpent, IsSpentIn, digits_of, key_in};
ghost use Rattle.macs_offline.specs.KeyLists.{key_line, lines_text};

use macs_cli::Failure;
use macs_config::Command;
use macs_texts::key_digest;
use std::alloc::{AllocError, Global};
use std::fs::{OpenFile, OpenOptions};
use std::io::Write;
use std::os::unix::fs::OpenOptionsExt;
use std::path::Path;
use std::rt::Files;
use std::{fs, io};

/// The line after the keys of earlier endpoints.
const FORMATTED: &str = "formatted\n";

/// Only its owner may read and write a list, as with a disk file.
const OWNER_ALONE: u32 = 0o600;

/// The list beside a disk file: NAME.spent. A line is the fingerprint of a key, 64 hex digits, or
/// `formatted`: the keys before that line belong to endpoints that are gone. The list only grows.
///
/// Only the program that has claimed the disk file reads and writes it. If the name is a link, the
/// list is beside the file that the link leads to.
#[derive(Clone, Copy)]
pub struct KeyList<'a, T> {
    pub rt: &'a T,
    pub alloc: Global,
    /// The path of the disk file.
    pub disk: &'a str,
}

/// Why keys are not noted.
#[derive(Clone, Copy, Debug, PartialEq, Eq)]
pub enum KeyFault {
    /// One of them was given to an endpoint before.
    Spent,
    /// The list cannot be opened, read, written or synced.
    File,
    /// Out of memory.
    Memory,
}

impl From<AllocError> for KeyFault {
    ghost use Rattle.std.specs.Prelude.{◌≡◌};
    ghost use Rattle.macs_offline.specs.declared.key_list.KeyFault.TheVariants.{Memory};

    ghost from_gives = { λ _ fault. fault ≡ Memory };

    fn from(_error: AllocError) -> KeyFault {
        KeyFault::Memory
    }
}

impl From<io::Error> for KeyFault {
    ghost use Rattle.std.specs.Prelude.{◌≡◌, ◌⊎◌};
    ghost use Rattle.macs_offline.specs.declared.key_list.KeyFault.TheVariants.{File, Memory};

    ghost from_gives = { λ _ fault. (fault ≡ Memory) ⊎ (fault ≡ File) };

    fn from(error: io::Error) -> KeyFault {
        match error.kind() {
            io::ErrorKind::OutOfMemory => KeyFault::Memory,
            _ => KeyFault::File,
        }
    }
}

/// If the keys of its commands are not noted, a command file has no commands to apply.
impl From<KeyFault> for Failure {
    ghost use Rattle.std.specs.Prelude.{◌≡◌};
    ghost use Rattle.macs_offline.specs.KeyLists.{failure_of_keys};

    ghost from_gives = { λ fault failure. failure ≡ failure_of_keys fault };

    fn from(fault: KeyFault) -> Failure {
        match fault {
            KeyFault::Spent | KeyFault::File => Failure::Commands,
            KeyFault::Memory => Failure::Memory,
        }
    }
}

/// The octets of the key that a command installs, 16 or 32, if it installs one.
fn key_in(command: &Command) -> Option<&[u8]>
    ensures { option_map (λ octets. octets.now) result ≡ key_in command.now }
{
    match command {
        Command::TxInstall { key, .. } | Command::RxInstall { key, .. } => Some(key.as_slice()),
        _ => None,
    }
}

/// The fingerprint of a command's key, in hex digits, if it installs one.
fn digits_of(alloc: Global, command: &Command) -> Result<Option<String>, AllocError>
    ensures { IfOk result (λ found. option_map string_bytes found ≡ digits_of command.now) }
{
    match key_in(command) {
        Some(key) => Ok(Some(hex::encode(alloc, key_digest(key))?)),
        None => Ok(None),
    }
}

/// Whether a list has these digits among the keys of endpoints that are gone.
fn has_spent(list: &str, digits: &str) -> bool
    ensures { IsTrue result ↔ HasSpent list.now digits.now }
{
    match list.split_once(digits) {
        Some((_, behind)) => behind.contains(FORMATTED),
        None => false,
    }
}

/// The fingerprint of the key of each of these commands.
fn digits_of_each(alloc: Global, commands: &[Command]) -> Result<Vec<Option<String>>, AllocError>
    ensures { IfOk result (λ keys.
        map (option_map string_bytes) keys.items ≡ map digits_of commands.now) }
{
    let mut keys = Vec::new(alloc);
    for i in 0..commands.len() {
        let digits = digits_of(alloc, &commands[i])?;
        if keys.push(digits).is_err() {
            return Err(AllocError);
        }
    }
    Ok(keys)
}

/// Whether a list has this key, by its digits, as a key of an endpoint that is gone.
fn is_spent(list: &str, key: &Option<String>) -> bool
    ensures { IsTrue result ↔ IsSpentIn list.now (option_map string_bytes key.now) }
{
    match key {
        Some(digits) => has_spent(list, digits.as_str()),
        None => false,
    }
}

/// The index, counting from 1, of the first of these keys that the list has as a key of an endpoint
/// that is gone. The keys are given by their digits.
fn first_spent(list: &str, keys: &[Option<String>]) -> Option<usize>
    ensures { MatchOption result
        (All (λ key. ¬ IsSpentIn list.now key) (map (option_map string_bytes) keys.now))
        (IsFirstSpent list.now (map (option_map string_bytes) keys.now)) }
{
    for i in 0..keys.len() {
        if is_spent(list, &keys[i]) {
            return Some(i + 1);
        }
    }
    None
}

/// Appends the line of a key, by its digits.
fn push_line(lines: &mut String, key: &Option<String>) -> Result<(), AllocError>
    ensures { OnOk result (string_bytes lines.new
        ≡ string_bytes lines.old ++ key_line (option_map string_bytes key.now)) }
{
    match key {
        Some(digits) => {
            lines.push_str(digits.as_str())?;
            lines.push('\n')
        }
        None => Ok(()),
    }
}

/// The lines of these keys, by their digits.
fn lines_of(alloc: Global, keys: &[Option<String>]) -> Result<String, AllocError>
    ensures { IfOk result
        (λ text. string_bytes text ≡ lines_text (map (option_map string_bytes) keys.now)) }
{
    let mut lines = String::new(alloc);
    for i in 0..keys.len() {
        push_line(&mut lines, &keys[i])?;
    }
    Ok(lines)
}

/// How a list is opened: writes append to it.
fn how_to_append() -> OpenOptions {
    let mut options = OpenOptions::new();
    options.mode(OWNER_ALONE);
    options.append(true).create(true);
    options
}

/// Notes the keys that commands install in the list beside the disk file at a path, durably. Fails
/// with `Memory`; and with `Commands` if an endpoint that is gone was given one of them, or the
/// list cannot be read, written or synced.
pub fn note_keys<T: Files>(
    rt: &T,
    alloc: Global,
    disk: &str,
    commands: &[Command],
) -> Result<(), Failure>
    ensures { IfErr result (λ failure. (failure ≡ Failure.Memory) ⊎ (failure ≡ Failure.Commands)) }
{
    let list = KeyList { rt, alloc, disk };
    list.note(commands)?;
    Ok(())
}

/// The contents of a list: empty if there is no list.
fn read_list<T: Files>(rt: &T, alloc: Global, name: &str) -> io::Result<String> {
    match fs::read_to_string(&(rt, alloc), name) {
        Err(error) if error.kind() == io::ErrorKind::NotFound => Ok(String::new(alloc)),
        read => read,
    }
}

/// Appends lines to a list, durably, and makes its name durable too. The name is absolute.
fn append<T: Files>(rt: &T, name: &str, lines: &str) -> io::Result<()> {
    let folder = Path::new(name)
        .parent()
        .map_or("/", |folder| folder.as_str());
    let mut list = how_to_append().open(rt, name)?;
    list.write_all(lines.as_bytes())?;
    list.sync_all()?;
    fs::open(rt, folder)?.sync_all()
}

impl<T: Files> KeyList<'_, T> {
    ghost use Rattle.std.specs.Prelude.{IfOk, List, MatchOption, map, ℕ};
    ghost use Rattle.std.specs.List.{All};
    ghost use Rattle.macs_offline.specs.KeyLists.{IsFirstSpent, IsSpentIn, digits_of};

    /// Its path.
    fn name(&self) -> Result<String, KeyFault> {
        let place = self.rt.canonicalize(self.alloc, self.disk)?;
        let disk = place.as_str();
        let name = format!(in self.alloc; "{disk}.spent")?;
        Ok(name)
    }

    /// The index, counting from 1, of the first of these commands that installs a key of an
    /// endpoint that is gone.
    pub fn first_spent(&self, commands: &[Command]) -> Result<Option<usize>, KeyFault>
        ensures { IfOk result (λ found. (list : List ℕ) × MatchOption found
            (All (λ key. ¬ IsSpentIn list key) (map digits_of commands.now))
            (IsFirstSpent list (map digits_of commands.now))) }
    {
        let keys = digits_of_each(self.alloc, commands)?;
        let name = self.name()?;
        let list = read_list(self.rt, self.alloc, name.as_str())?;
        Ok(first_spent(list.as_str(), keys.as_slice()))
    }

    /// Notes the keys that these commands install, durably, unless an endpoint that is gone was
    /// given one of them; then none is noted. Commands that install none need no memory.
    pub fn note(&self, commands: &[Command]) -> Result<(), KeyFault> {
        if commands.iter().all(|command| key_in(command).is_none()) {
            return Ok(());
        }
        let keys = digits_of_each(self.alloc, commands)?;
        let lines = lines_of(self.alloc, keys.as_slice())?;
        let name = self.name()?;
        let list = read_list(self.rt, self.alloc, name.as_str())?;
        if first_spent(list.as_str(), keys.as_slice()).is_some() {
            return Err(KeyFault::Spent);
        }
        append(self.rt, name.as_str(), lines.as_str())?;
        Ok(())
    }

    /// Notes that the endpoint with these keys is gone, durably, if there is a list.
    pub fn close(&self) -> Result<(), KeyFault> {
        let name = self.name()?;
        match self.rt.metadata(name.as_str()) {
            Err(error) if error.kind() == io::ErrorKind::NotFound => Ok(()),
            known => {
                known?;
                append(self.rt, name.as_str(), FORMATTED)?;
                Ok(())
            }
        }
    }
}
