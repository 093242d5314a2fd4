//! Disks of sectors, and what a power loss at any moment may leave on them.
#![tactic(auto)]

mod call_list;
mod claimed_file;
mod clearing;
mod device_call;
mod disk;
mod disk_copy;
mod disk_file;
mod file;
mod file_calls;
mod file_fault;
mod file_opening;
mod fuse;
pub mod laws;
mod layout;
mod log;
mod memory;
pub mod messages;
mod renewal;
mod settled_file;

pub use claimed_file::ClaimedFile;
pub use device_call::DeviceCall;
pub use disk::{DeviceFault, SectorDisk};
pub use disk_copy::{DiskCopy, copy_disk};
pub use disk_file::DiskFile;
pub use file::FileDisk;
pub use file_calls::read_exact_at;
pub use file_fault::FileFault;
pub use file_opening::make_file;
pub use fuse::Fuse;
pub use layout::{Layout, spaced_mark};
pub use memory::{MemDisk, MemFault};
pub use renewal::Renewal;
pub use settled_file::SettledFile;
