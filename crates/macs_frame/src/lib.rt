//! MACsec frames (IEEE Std 802.1AE-2018): SecTAGs read and written, plain frames
//! protected and protected frames opened.
#![tactic(auto)]

pub mod laws;
mod opening;
mod reading;
mod sealing;
mod shared;
mod tag;
mod traffic;

pub use macs_fields::{ASSOCIATIONS, An, END_OF_NUMBERS, Offset, Pn, Sci};
pub use opening::{OpenFault, end_station_sci, open_frame, open_parts};
pub use reading::read_tag;
pub use sealing::{seal_frame, seal_next_frame, write_tag};
pub use shared::append;
pub use tag::{ADDRESS_OCTETS, FrameBuf, MAX_FRAME, MIN_FRAME, Parts, ScName, SecTag, TagFault};
pub use traffic::{Carried, ChannelTraffic, Traffic};
