//! How many datagrams the system dropped before a wire could take them.

ghost use Rattle.std.specs.Prelude.{◌≡◌, None, IfOk, IfSome, string_bytes};
ghost use Rattle.macs_program.specs.Overruns.{HasDigits, IsBehind, IsEndless, IsLastColumn, Lacks};
ghost use Rattle.macs_program.specs.Overruns.{LacksDigits, LacksDropped, SaysDropped, mark_of};

use std::alloc::{AllocError, Global};
use std::fs;
use std::os::fd::RawFd;
use std::os::unix::fs::MetadataExt;
use std::rt::Files;

/// Where Linux lists the IPv4 UDP sockets of the network namespace of this process (proc(5)).
const SOCKETS: &str = "/proc/self/net/udp";

/// The same for IPv6.
const SOCKETS_OF_SIX: &str = "/proc/self/net/udp6";

/// The fields of a socket's line before its last three columns: its timeout, which is 0, and its
/// inode.
fn mark_of(alloc: Global, inode: u64) -> Result<String, AllocError>
    ensures { IfOk result (λ text. string_bytes text ≡ mark_of inode) }
{
    let text = format!(in alloc; " 0 {inode} ")?;
    Ok(text)
}

/// What follows the first occurrence of a mark.
fn behind<'a>(text: &'a str, mark: &str) -> Option<&'a str>
    ensures found { IfSome result (λ rest. IsBehind mark.now text.now rest.now) }
    ensures lacks { result ≡ None → Lacks mark.now text.now }
{
    match text.split_once(mark) {
        Some((_, rest)) => Some(rest),
        None => None,
    }
}

/// The last column of a line: blanks may follow.
fn last_column(text: &str) -> Option<&str>
    ensures found { IfSome result (λ column. IsLastColumn text.now column.now) }
    ensures lacks { result ≡ None → IsEndless text.now }
{
    let Some((line, _)) = text.split_once('\n') else {
        return None;
    };
    match line.split_once(' ') {
        Some((column, _)) => Some(column),
        None => Some(line),
    }
}

/// The digits of the last column of the line with this mark: after it come the references, the
/// pointer, and these digits.
fn digits_in<'a>(sockets: &'a str, mark: &str) -> Option<&'a str>
    ensures found { IfSome result (λ digits. HasDigits mark.now sockets.now digits.now) }
    ensures lacks { result ≡ None → LacksDigits mark.now sockets.now }
{
    let Some(references) = behind(sockets, mark) else {
        return None;
    };
    let Some(pointer) = behind(references, " ") else {
        return None;
    };
    match behind(pointer, " ") {
        Some(dropped) => last_column(dropped),
        None => None,
    }
}

/// How many datagrams were dropped at the socket with this mark, according to a text like that of
/// `/proc/net/udp`; `None` if it has no such line, or the line has no such number.
pub fn dropped_in(sockets: &str, mark: &str) -> Option<u64>
    ensures found { IfSome result (λ count. SaysDropped mark.now sockets.now count) }
    ensures lacks { result ≡ None → LacksDropped mark.now sockets.now }
{
    match digits_in(sockets, mark) {
        Some(digits) => u64::from_str_radix(digits, 10).ok(),
        None => None,
    }
}

/// The same, read from a list of sockets of the system.
fn dropped_by<T: Files>(rt: &T, alloc: Global, path: &str, mark: &str) -> Option<u64> {
    match fs::read_to_string(&(rt, alloc), path) {
        Ok(sockets) => dropped_in(sockets.as_str(), mark),
        Err(_) => None,
    }
}

/// The mark of a socket of this process.
fn mark_for<T: Files>(rt: &T, alloc: Global, socket: RawFd) -> Option<String> {
    let Ok(path) = format!(in alloc; "/proc/self/fd/{socket}") else {
        return None;
    };
    match rt.metadata(path.as_str()) {
        Ok(about) => mark_of(alloc, about.ino()).ok(),
        Err(_) => None,
    }
}

/// How many datagrams the system dropped at a UDP socket because its buffer was full. `None` if
/// that cannot be read, or if memory runs out.
pub(crate) fn dropped_at<T: Files>(rt: &T, alloc: Global, socket: RawFd) -> Option<u64> {
    let Some(mark) = mark_for(rt, alloc, socket) else {
        return None;
    };
    match dropped_by(rt, alloc, SOCKETS, mark.as_str()) {
        Some(count) => Some(count),
        None => dropped_by(rt, alloc, SOCKETS_OF_SIX, mark.as_str()),
    }
}
