//! Whose turn it is if a ceiling is needed and a command is pending.

/// Which kind of work begins next if there is work of both kinds.
#[derive(Clone, Copy)]
pub enum Turn {
    /// A reservation of packet numbers.
    Reservation,
    /// The first pending command.
    Command,
}
