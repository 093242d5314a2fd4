//! A device call as a client asks for it.

ghost use Rattle.std.specs.Prelude.{◌≡◌, ◌<◌, ◌^◌, ◌∷◌, ◌++◌, ℕ, List, length, IfSome, Some};
ghost use Rattle.std.specs.Int.{to_be_bytes, w64};
ghost use Rattle.macs_disk.specs.DeviceCalls.{IsCall};
ghost use Rattle.macs_disk.specs.Messages.{kind_of, place_of, request_of, sector_of};
ghost use Rattle.macs_disk.specs.declared.device_call.DeviceCall.{DeviceCall};

use crate::device_call::DeviceCall;

/// How many octets a request has: its kind, the number of the sector, most significant octet
/// first, and a sector.
pub const REQUEST: usize = 521;

const READ: u8 = 1;

const WRITE: u8 = 2;

const SYNC: u8 = 3;

/// A request by its parts.
fn join(kind: u8, at: u64, sector: &[u8; 512]) -> [u8; REQUEST]
    ensures { result ≡ kind ∷ to_be_bytes w64 at ++ sector.now }
{
    let mut octets = [0; REQUEST];
    octets[0] = kind;
    octets[1..9].copy_from_slice(&at.to_be_bytes());
    octets[9..].copy_from_slice(sector);
    octets
}

/// The parts of a request, if octets are as many. What they are is found out by its caller.
fn parts(octets: &[u8]) -> Option<(u8, u64, [u8; 512])>
    ensures { (kind at : ℕ) (sector : List ℕ) → at < 2 ^ 64 → length sector ≡ 512
        → octets.now ≡ kind ∷ to_be_bytes w64 at ++ sector → result ≡ Some (kind, at, sector) }
{
    let (kind, rest) = octets.split_first()?;
    let (at, rest) = rest.split_first_chunk::<8>()?;
    let (sector, _) = rest.split_first_chunk::<512>()?;
    Some((*kind, u64::from_be_bytes(*at), *sector))
}

/// A call by the parts of its request.
fn call_of(kind: u8, at: u64, sector: [u8; 512]) -> Option<DeviceCall>
    ensures { (call : DeviceCall) → kind ≡ kind_of call → at ≡ place_of call
        → sector ≡ sector_of call → result ≡ Some call }
{
    match kind {
        READ => Some(DeviceCall::Read(at)),
        WRITE => Some(DeviceCall::Write(at, sector)),
        SYNC => Some(DeviceCall::Sync),
        _ => None,
    }
}

impl DeviceCall {
    /// The octets that ask for this call. A number or a sector that it does not have is zero.
    pub fn request(&self) -> [u8; REQUEST]
        ensures { result ≡ request_of self.now }
    {
        match self {
            DeviceCall::Read(at) => join(READ, *at, &[0; 512]),
            DeviceCall::Write(at, octets) => join(WRITE, *at, octets),
            DeviceCall::Sync => join(SYNC, 0, &[0; 512]),
        }
    }

    /// The call that octets ask for; `None` if they are not a request.
    pub fn requested(octets: &[u8]) -> Option<DeviceCall>
        ensures some { IfSome result (λ call. octets.now ≡ request_of call) }
        ensures found { (call : DeviceCall) → IsCall call → octets.now ≡ request_of call
            → result ≡ Some call }
    {
        let (kind, at, sector) = parts(octets)?;
        let call = call_of(kind, at, sector)?;
        if call.request().as_slice() == octets {
            Some(call)
        } else {
            None
        }
    }
}
