//! A disk that a separate process keeps: the keeper makes the device calls that its client sends,
//! and the client continues with frames until the answer is there.

mod connecting;
mod courier;
mod cut;
mod keeper;
mod kept_disk;
mod taking;
mod waiting;

pub use connecting::{Keepers, SystemKeepers};
pub use cut::Cut;
pub use keeper::{KeepEnd, keep_for};
pub use kept_disk::KeptDisk;
pub use waiting::{ClientStream, Waits};
