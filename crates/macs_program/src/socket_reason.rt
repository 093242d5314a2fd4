//! Why a control socket cannot be asked.

ghost use Rattle.std.specs.Prelude.{◌≡◌};
ghost use Rattle.macs_program.specs.Sockets.{socket_reason};

use std::io::ErrorKind;

/// Why a control socket cannot be asked.
#[derive(Clone, Copy, Debug, PartialEq, Eq)]
pub enum SocketReason {
    /// No file has this name.
    Missing,
    /// The permissions of the socket, or of a folder in its path, forbid using it.
    NoPermission,
    /// Nobody listens on it, for example after a relay was killed.
    Refused,
    /// It cannot be connected to for another reason: it is not a socket, or its name is too long.
    NoSocket,
    /// No answer of a relay came from it: the relay did not accept the connection in time, for
    /// example because it is stopped; it went away while it was asked; or its reply is not a valid
    /// answer.
    NoAnswer,
}

impl SocketReason {
    ghost use Rattle.std.specs.Prelude.{◌≡◌};
    ghost use Rattle.macs_program.specs.Sockets.{socket_text};

    /// The program's message.
    pub fn text(self) -> &'static str
        ensures { result.now ≡ socket_text self }
    {
        match self {
            SocketReason::Missing => "no such socket",
            SocketReason::NoPermission => "no permission",
            SocketReason::Refused => "nobody listens",
            SocketReason::NoSocket => "not a socket of a relay",
            SocketReason::NoAnswer => "no answer of a relay, or it went away",
        }
    }
}

/// The reason for an error of a connection, by its kind. A relay that accepts no connection in time
/// gives no answer.
pub fn socket_reason(kind: ErrorKind) -> SocketReason
    ensures { result ≡ socket_reason kind }
{
    match kind {
        ErrorKind::NotFound | ErrorKind::NotADirectory => SocketReason::Missing,
        ErrorKind::PermissionDenied => SocketReason::NoPermission,
        ErrorKind::ConnectionRefused => SocketReason::Refused,
        ErrorKind::WouldBlock | ErrorKind::TimedOut => SocketReason::NoAnswer,
        _ => SocketReason::NoSocket,
    }
}
