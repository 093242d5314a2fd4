//! Why a message did not arrive.

/// Why a message did not arrive whole.
#[derive(Clone, Copy, Debug, PartialEq, Eq)]
pub enum Cut {
    /// The other side ended the connection before.
    Ended,
    /// The connection failed, or nothing came in time.
    Gone,
}
