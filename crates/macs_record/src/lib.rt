//! The records of a journal, the heads and gates of its areas, and the sectors that they are in.
#![tactic(auto)]

mod ceiling;
mod decoding;
mod encoding;
mod format;
mod gate;
mod head;
mod head_codec;
mod key_length;
mod kind;
pub mod laws;
mod reading;
mod record;
mod writing;

pub use ceiling::Ceiling;
pub use decoding::decode;
pub use encoding::encode;
pub use format::Format;
pub use gate::{CLOSED_GATE, is_open, open_gate};
pub use head::Head;
pub use head_codec::{decode_head, encode_head};
pub use kind::Kind;
pub use record::{Record, RecordFault};

/// The octets of a sector.
pub const SECTOR: usize = 512;
