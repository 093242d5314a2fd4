//! The answer to a device call, as its keeper sends it.

ghost use Rattle.std.specs.Prelude.{◌≡◌, ◌∷◌, ◌++◌, List, ℕ, length, IfSome, Some};
ghost use Rattle.macs_disk.specs.Messages.{answer_octets, answer_to, octet_of};
ghost use Rattle.macs_disk.specs.Messages.{octets_in};
ghost use Rattle.macs_disk.specs.States.{IsSector};
ghost use Rattle.macs_disk.specs.declared.messages.answer.CallAnswer.{CallAnswer};

use crate::device_call::DeviceCall;
use crate::disk::DeviceFault;

/// How many octets an answer has: what became of the call, and a sector.
pub const ANSWER: usize = 513;

const SECTOR: u8 = 1;

const DONE: u8 = 2;

const FAILED: u8 = 3;

/// What became of a device call.
#[derive(Clone, Copy)]
pub enum CallAnswer {
    /// A sector was read, with these octets.
    Sector([u8; 512]),
    /// A sector was written, or all are durable.
    Done,
    /// The call failed.
    Failed,
}

/// An answer by its parts.
fn join(kind: u8, sector: &[u8; 512]) -> [u8; ANSWER]
    ensures { result ≡ kind ∷ sector.now }
{
    let mut octets = [0; ANSWER];
    octets[0] = kind;
    octets[1..].copy_from_slice(sector);
    octets
}

/// The parts of an answer, if octets are as many. What they are is found out by its caller.
fn parts(octets: &[u8]) -> Option<(u8, [u8; 512])>
    ensures { (kind : ℕ) (sector : List ℕ) → length sector ≡ 512
        → octets.now ≡ kind ∷ sector → result ≡ Some (kind, sector) }
{
    let (kind, rest) = octets.split_first()?;
    let (sector, _) = rest.split_first_chunk::<512>()?;
    Some((*kind, *sector))
}

/// An answer by its parts.
fn answer_of(kind: u8, sector: [u8; 512]) -> Option<CallAnswer>
    ensures { (answer : CallAnswer) → kind ≡ octet_of answer → sector ≡ octets_in answer
        → result ≡ Some answer }
{
    match kind {
        SECTOR => Some(CallAnswer::Sector(sector)),
        DONE => Some(CallAnswer::Done),
        FAILED => Some(CallAnswer::Failed),
        _ => None,
    }
}

impl CallAnswer {
    /// The answer to a call that was made, with what a read put into `read`.
    pub fn to(call: &DeviceCall, read: &[u8; 512], end: Result<(), DeviceFault>) -> CallAnswer
        ensures { result ≡ answer_to call.now read.now end }
    {
        if end.is_err() {
            return CallAnswer::Failed;
        }
        match call {
            DeviceCall::Read(_) => CallAnswer::Sector(*read),
            DeviceCall::Write(_, _) | DeviceCall::Sync => CallAnswer::Done,
        }
    }

    /// The octets of the answer. A sector that it does not have is zeros.
    pub fn octets(&self) -> [u8; ANSWER]
        ensures { result ≡ answer_octets self.now }
    {
        match self {
            CallAnswer::Sector(octets) => join(SECTOR, octets),
            CallAnswer::Done => join(DONE, &[0; 512]),
            CallAnswer::Failed => join(FAILED, &[0; 512]),
        }
    }

    /// The answer with these octets; `None` if they are not one.
    pub fn given(octets: &[u8]) -> Option<CallAnswer>
        ensures some { IfSome result (λ answer. octets.now ≡ answer_octets answer) }
        ensures found { (answer : CallAnswer) → length (octets_in answer) ≡ 512
            → octets.now ≡ answer_octets answer → result ≡ Some answer }
    {
        let (kind, sector) = parts(octets)?;
        let answer = answer_of(kind, sector)?;
        if answer.octets().as_slice() == octets {
            Some(answer)
        } else {
            None
        }
    }
}
