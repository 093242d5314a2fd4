//! What several crates of tests have in common: streams that move one octet a call, and a file in
//! memory that behaves as one of a kernel's does, with a cache and a device, syncs that fail,
//! pressure on memory and power losses.
#![tactic(auto)]

mod blocks;
mod file;
mod folder;
mod narrow;
mod open;
mod plan;

pub use blocks::{DeviceBlock, Left};
pub use file::MemFile;
pub use folder::{MemFolder, make_disk, open_disk};
pub use narrow::{Failure, NarrowReader, NarrowWriter};
pub use open::OpenMemFile;
pub use plan::FileCall;
