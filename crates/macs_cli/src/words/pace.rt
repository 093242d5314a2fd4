//! How a relay runs: its turns, and what it serves meanwhile.

/// A time in milliseconds.
#[derive(Clone, Copy)]
pub struct Milliseconds(pub u16);

/// How a relay takes its turns.
#[derive(Clone, Copy)]
pub enum Pace {
    /// This many turns, one right after the other: `--turns n` alone.
    Sleepless {
        turns: u64,
    },
    /// After a turn that brought nothing the relay sleeps until a datagram arrives: `--wait MS`.
    Waiting {
        /// The longest sleep: 1 to 60,000 ms.
        limit: Milliseconds,
        /// How many turns there are, if `--turns n` is given too.
        turns: Option<u64>,
    },
}

/// How a relay runs: how it takes its turns, and what it serves meanwhile.
#[derive(Clone, Copy)]
pub struct Running<'a> {
    pub pace: Pace,
    /// How many octets of waiting datagrams the system is asked to buffer for each wire, 1 to
    /// 1,073,741,823, if it is asked: `--buffer OCTETS`.
    pub buffer: Option<u32>,
    /// The file of the control socket, if there is one: `--control PATH`.
    pub control: Option<&'a str>,
    /// The file that the counters are written to, if there is one: `--metrics FILE`.
    pub metrics: Option<&'a str>,
    /// The socket of the keeper that has the disk file, if there is one: `--keeper SOCKET`.
    pub keeper: Option<&'a str>,
}
