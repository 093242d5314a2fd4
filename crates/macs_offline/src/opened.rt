//! The answer of `open`: the plain frame of a protected one, or why there is none.

ghost use Rattle.std.specs.Prelude.{◌≡◌, ◌↔◌, IfOk};
ghost use Rattle.macs_fields.specs.First.{IsFirst};
ghost use Rattle.macs_cli.specs.OpenInput.{InputFaultHolds, input_faults};
ghost use Rattle.macs_offline.specs.Opened.{Answers, AnswersRequest, refusal_text};

use crate::hex_text::HexText;
use macs_cli::{InputFault, OpenInput, Status, request_of};
use macs_frame::{An, FrameBuf, OpenFault, Pn, TagFault, open_frame};
use macs_gcm::GcmKey;
use std::fmt;

/// The result of opening a frame. It is displayed as the line that the program prints.
#[derive(Drop)]
pub enum Opened {
    /// The frame is genuine: its AN, its PN and the plain frame.
    Valid { an: An, pn: Pn, plain: FrameBuf },
    /// The frame is refused with the first fault that applies.
    Refused(OpenFault),
}

impl Opened {
    ghost use Rattle.macs_offline.specs.Opened.{answer_status};

    /// The status of the run.
    pub fn status(&self) -> Status
        ensures { result ≡ answer_status self.now }
    {
        match self {
            Opened::Valid { .. } => Status::Done,
            Opened::Refused(_) => Status::Refused,
        }
    }
}

/// What the program prints for a refused frame.
pub fn refusal_text(fault: OpenFault) -> &'static str
    ensures { result.now ≡ refusal_text fault }
{
    match fault {
        OpenFault::Tag(TagFault::Runt) => "runt",
        OpenFault::Tag(TagFault::Oversize) => "oversize",
        OpenFault::Tag(TagFault::NoTag) => "no tag",
        OpenFault::Tag(TagFault::BadTag) => "bad tag",
        OpenFault::Tag(TagFault::ForKay) => "for kay",
        OpenFault::OtherSci => "other sci",
        OpenFault::NotValid => "not valid",
    }
}

impl fmt::Display for Opened {
    ghost use Rattle.std.specs.Prelude.{Some};
    ghost use Rattle.macs_offline.specs.Opened.{answer_text};

    ghost output = { λ answer. Some (answer_text answer) };

    fn fmt<W: fmt::Write>(&self, f: &mut fmt::Formatter<W>) -> fmt::Result {
        match self {
            Opened::Valid { an, pn, plain } => {
                let an = an.get();
                let octets = pn.get().to_be_bytes();
                let pn = HexText(&octets);
                let plain = HexText(plain.as_slice());
                write!(f, "valid an={an} pn={pn} plain={plain}")
            }
            Opened::Refused(fault) => f.write_str(refusal_text(*fault)),
        }
    }
}

/// Opens the frame of a request under its key, SCI and offset.
fn open_request(request: &OpenInput) -> Opened
    ensures { AnswersRequest request.now result }
{
    let key = GcmKey::new(&request.key);
    let mut plain = FrameBuf::new();
    let frame = request.frame.as_slice();
    match open_frame(&key, request.sci, request.offset, frame, &mut plain) {
        Ok((an, pn)) => Opened::Valid { an, pn, plain },
        Err(fault) => Opened::Refused(fault),
    }
}

/// Opens the frame in an input, or returns the first fault of the input.
pub fn answer_of(input: &[u8]) -> Result<Opened, InputFault>
    ensures answer { IfOk result (Answers input.now) }
    ensures fault { (fault : InputFault)
        → (result ≡ Err fault) ↔ IsFirst (InputFaultHolds input.now) input_faults fault }
{
    let request = request_of(input)?;
    Ok(open_request(&request))
}
