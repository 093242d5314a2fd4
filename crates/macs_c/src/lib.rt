//! A library for C programs (`include/macsec.h`): frames protected and opened, by IEEE Std
//! 802.1AE-2018, 10.5, 10.6, 14.5 and 14.6, and whole endpoints. It uses only its caller's memory,
//! and makes no device call.
#![tactic(auto)]

mod answers;
mod commands;
mod device_calls;
mod endpoint_exports;
mod exports;
mod fields;
mod format_exports;
pub mod format_laws;
mod formatting;
mod frame_exports;
mod frames;
mod handle;
mod history;
mod image;
mod keys;
pub mod laws;
mod opening;
mod reader_exports;
mod readers;
mod reading;
mod refusals;
mod report;
mod reported;
mod sealing;
mod slot;
mod starting;
mod stepping;

pub use commands::MacsCommand;
pub use device_calls::{MacsCall, MacsDone};
pub use endpoint_exports::{
    macs_close, macs_did_call, macs_endpoint_alignment, macs_endpoint_size, macs_next_call,
    macs_open,
};
pub use exports::{macs_key_new, macs_open_frame, macs_read_tag, macs_seal_frame};
pub use fields::{MacsOpened, MacsSci, MacsTag};
pub use format_exports::macs_format;
pub use formatting::MacsIdentity;
pub use frame_exports::{macs_protect, macs_receive, macs_submit};
pub use handle::MacsEndpoint;
pub use keys::MacsKey;
pub use reader_exports::{macs_counters, macs_show_rx, macs_show_tx};
pub use readers::{MacsCounters, MacsRx, MacsTx};
