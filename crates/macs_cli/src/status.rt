//! How the program exits.

/// How a run ends, and the exit status of the process.
#[derive(Clone, Copy)]
pub enum Status {
    /// It is done: 0.
    Done,
    /// The words are not understood, or a value among them is not accepted: 2.
    Usage,
    /// The frame, a command or a link is refused, or a journal has a fault: 3.
    Refused,
    /// The disk file failed, or what is on it cannot be used: 4.
    Disk,
    /// The input, the output or memory failed: 5.
    Fault,
}

impl Status {
    ghost use Rattle.std.specs.Prelude.{◌≡◌};
    ghost use Rattle.macs_cli.specs.Statuses.{code_of};

    /// The exit status of the process.
    pub fn code(self) -> u8
        ensures { result ≡ code_of self }
    {
        match self {
            Status::Done => 0,
            Status::Usage => 2,
            Status::Refused => 3,
            Status::Disk => 4,
            Status::Fault => 5,
        }
    }
}
