//! How much the system buffers of waiting datagrams.

ghost use Rattle.std.specs.Prelude.{◌≡◌, ◌++◌, take};
ghost use Rattle.std.specs.Int.{to_le_bytes, w32};
ghost use Rattle.macs_control.specs.Buffers.{option_value};

use libc::net as c;
use std::net::Net;
use std::os::fd::RawFd;

/// A 32-bit number as the value of an option.
fn option_value(number: u32) -> [u8; 16]
    ensures { result ≡ option_value number }
{
    let [first, second, third, fourth] = number.to_le_bytes();
    [
        first, second, third, fourth, 0, 0, 0, 0, 0, 0, 0, 0, 0, 0, 0, 0,
    ]
}

/// The system's buffer size for a socket, in octets, if it reports it.
fn kept_for(socket: RawFd) -> Option<u32> {
    let mut value = [0; 16];
    let mut length = 4;
    let read = unsafe {
        c::getsockopt(socket, c::SOL_SOCKET, c::SO_RCVBUF, &mut value, &mut length)
    };
    if read < 0 {
        return None;
    }
    let [first, second, third, fourth, ..] = value;
    Some(u32::from_le_bytes([first, second, third, fourth]))
}

/// Asks the system to buffer `octets` octets of the datagrams that wait at a socket (`SO_RCVBUF`,
/// socket(7)), and returns how many it buffers: Linux buffers twice as many, up to twice
/// `net.core.rmem_max`. If it refuses, the buffer size is unchanged.
pub fn ask_for_buffer<N: Net>(_net: &N, socket: RawFd, octets: u32) -> Option<u32> {
    let value = option_value(octets);
    let _ = unsafe { c::setsockopt(socket, c::SOL_SOCKET, c::SO_RCVBUF, &value, 4) };
    kept_for(socket)
}
