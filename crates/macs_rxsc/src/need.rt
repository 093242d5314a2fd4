//! An association that needs packet numbers.

use macs_frame::{An, Pn, Sci};

/// An association whose ceiling must be raised, with the greatest packet number that verified.
#[derive(Clone, Copy, Debug, PartialEq, Eq)]
pub struct RxNeed {
    pub sci: Sci,
    pub an: An,
    pub pn: Pn,
}
