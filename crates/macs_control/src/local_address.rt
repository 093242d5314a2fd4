//! Addresses of local sockets, as the system takes them.

ghost use Rattle.std.specs.Prelude.{◌≡◌, ◌≤◌, ◌+◌, ◌∷◌, ◌↔◌, length, take, IfSome, IsSome};
ghost use Rattle.macs_control.specs.Notices.{IsName};

/// The longest name of a local socket, in octets (unix(7)).
pub(crate) const MAX_NAME: usize = 107;

/// The address of a local socket, as the system takes it: the first `count` of these octets.
#[derive(Clone, Copy)]
pub(crate) struct LocalAddress {
    pub(crate) octets: [u8; 128],
    pub(crate) count: u32,
    ghost short: { count ≤ 109 },
}

/// Puts the family of local sockets (`AF_UNIX`, a 16-bit number, low octet first) and a name at the
/// front.
fn put_name(octets: &mut [u8], name: &[u8])
    requires { 2 + length name.now ≤ length octets.old }
    ensures { take (2 + length name.now) octets.new ≡ 1 ∷ 0 ∷ name.now }
{
    octets[..2].copy_from_slice(&[1, 0]);
    octets[2..2 + name.len()].copy_from_slice(name);
}

/// The address with these octets, if their number is valid: 1 to 107.
pub(crate) fn address_with(name: &[u8]) -> Option<LocalAddress>
    ensures some { IsSome result ↔ IsName name.now }
    ensures count { IfSome result (λ address. address.count ≡ 2 + length name.now) }
    ensures address { IfSome result
        (λ address. take (2 + length name.now) address.octets ≡ 1 ∷ 0 ∷ name.now) }
{
    if name.is_empty() || name.len() > MAX_NAME {
        return None;
    }
    let mut octets = [0u8; 128];
    put_name(&mut octets, name);
    Some(LocalAddress {
        octets,
        count: (2 + name.len()) as u32,
    })
}
