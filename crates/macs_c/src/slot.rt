//! What lies in the memory of an endpoint.

use crate::reported::ReportedDisk;
use macs_endpoint::Endpoint;

/// An endpoint, whose device calls a C program makes.
#[derive(Drop)]
pub struct Slot {
    pub(crate) endpoint: Endpoint<ReportedDisk>,
}
