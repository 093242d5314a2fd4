//! What a run is to come to.

/// What a run is to come to: a status, and one text on standard output or on standard error.
#[derive(Clone, Copy)]
pub enum Outcome {
    /// Status 0, and what is printed.
    Done(&'static str),
    /// Status 3, and the line that is printed.
    Refused(&'static str),
    /// Status 3, and the line on standard error.
    LinkRefused(&'static str),
    /// Status 2, and the line on standard error.
    Usage(&'static str),
    /// Status 4, and the line on standard error.
    Disk(&'static str),
    /// Status 4, what was printed before, and the line on standard error.
    DiskBehind(&'static str, &'static str),
    /// Status 5, and the line on standard error.
    Fault(&'static str),
    /// Status 5, what was printed before, and the line on standard error.
    FaultBehind(&'static str, &'static str),
}

impl Outcome {
    fn status(self) -> u8 {
        match self {
            Outcome::Done(_) => 0,
            Outcome::Usage(_) => 2,
            Outcome::Refused(_) | Outcome::LinkRefused(_) => 3,
            Outcome::Disk(_) | Outcome::DiskBehind(..) => 4,
            Outcome::Fault(_) | Outcome::FaultBehind(..) => 5,
        }
    }

    /// What is printed.
    fn out(self) -> &'static str {
        match self {
            Outcome::Done(out) | Outcome::Refused(out) => out,
            Outcome::DiskBehind(out, _) | Outcome::FaultBehind(out, _) => out,
            _ => "",
        }
    }

    /// What is on standard error.
    fn err(self) -> &'static str {
        match self {
            Outcome::LinkRefused(err) | Outcome::Usage(err) => err,
            Outcome::Disk(err) | Outcome::DiskBehind(_, err) => err,
            Outcome::Fault(err) | Outcome::FaultBehind(_, err) => err,
            _ => "",
        }
    }

    /// The first part of an answer that is not that of the outcome: no text where there is none.
    pub(crate) fn differing_part(self, status: u8, out: &[u8], err: &[u8]) -> &'static str {
        if out != self.out().as_bytes() {
            "standard output"
        } else if err != self.err().as_bytes() {
            "standard error"
        } else if status != self.status() {
            "status"
        } else {
            ""
        }
    }
}
