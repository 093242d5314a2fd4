//! Reports the state of the program to its parent (sd_notify(3)).

ghost use Rattle.std.specs.Prelude.{◌≡◌, ◌≤◌, ◌+◌, ◌∷◌, ◌↔◌, length, take, IfSome, IsSome};
ghost use Rattle.macs_control.specs.Notices.{HasAddress, IsName, name_octets};

use crate::local_address::{LocalAddress, MAX_NAME, address_with};
use arrayvec::ArrayVec;
use libc::net as c;
use std::alloc::Global;
use std::env;
use std::net::Net;
use std::rt::Env;

/// A name as it is in an address.
type Name = ArrayVec<u8, MAX_NAME>;

/// A name as it is in an address: for an abstract one, which begins with `@`, the first octet is 0.
fn name_octets(name: &[u8]) -> Name
    requires { length name.now ≤ 107 }
    ensures octets { result.items ≡ name_octets name.now }
    ensures count { length result.items ≡ length name.now }
{
    let mut octets = Name::new();
    if let Some((first, rest)) = name.split_first() {
        octets.push(if *first == b'@' { 0 } else { *first });
        octets.try_extend_from_slice(rest).unwrap();
    }
    octets
}

/// The address for a name, if it is valid: 1 to 107 octets, a path or an abstract name.
fn address_of(name: &[u8]) -> Option<LocalAddress>
    ensures some { IsSome result ↔ IsName name.now }
    ensures count { IfSome result (λ address. address.count ≡ 2 + length name.now) }
    ensures address { IfSome result (λ address. HasAddress name.now address.octets) }
{
    if name.len() > MAX_NAME {
        return None;
    }
    address_with(name_octets(name).as_slice())
}

/// Where the state of the program is reported: the socket that `NOTIFY_SOCKET` names, if any.
#[derive(Clone, Copy)]
pub struct Notifier {
    address: Option<LocalAddress>,
}

/// Sends a text to an address, as one datagram. A failure is ignored: the program continues.
fn send_to(address: &LocalAddress, text: &[u8]) {
    let fd = unsafe { c::socket(c::AF_UNIX, c::SOCK_DGRAM | c::SOCK_CLOEXEC, 0) };
    if fd < 0 {
        return;
    }
    let _ = unsafe {
        c::sendto(
            fd,
            text,
            c::MSG_NOSIGNAL | c::MSG_DONTWAIT,
            &address.octets,
            address.count,
        )
    };
    libc::close(fd);
}

impl Notifier {
    /// The notifier named by the environment.
    pub fn of_environment<R: Env + Net>(rt: &R, alloc: Global) -> Notifier {
        match env::var(&(rt, alloc), "NOTIFY_SOCKET") {
            Ok(name) => Notifier {
                address: address_of(name.as_bytes()),
            },
            Err(_) => Notifier { address: None },
        }
    }

    /// Sends a text to it.
    fn tell(&self, text: &[u8]) {
        if let Some(address) = &self.address {
            send_to(address, text);
        }
    }

    /// Reports that the program is ready.
    pub fn ready(&self) {
        self.tell(b"READY=1");
    }

    /// Reports that the program is stopping.
    pub fn stopping(&self) {
        self.tell(b"STOPPING=1");
    }
}
