//! The values of the fields of a SecTAG (IEEE Std 802.1AE-2018, 9.6, 9.8 and 9.9), and the first
//! refusal that applies.
#![tactic(auto)]

mod fields;
pub mod laws;

pub use fields::{ASSOCIATIONS, An, END_OF_NUMBERS, Offset, Pn, Sci};
