//! Which call of a file in memory is to fail.

use std::io;
use std::io::ErrorKind;

/// A call of a file.
#[derive(Clone, Copy, Debug, PartialEq, Eq)]
pub enum FileCall {
    Claim,
    Size,
    Read,
    Write,
    Sync,
}

/// Which call is to fail: this one of its kind, counted from 1. None where that is 0.
#[derive(Drop)]
pub(crate) struct Plan {
    pub(crate) call: FileCall,
    pub(crate) nth: u64,
}

impl Plan {
    pub(crate) fn none() -> Plan {
        Plan {
            call: FileCall::Claim,
            nth: 0,
        }
    }

    /// Lets a call pass or fail.
    pub(crate) fn pass(&mut self, call: FileCall) -> io::Result<()> {
        if call == self.call && self.nth > 0 {
            self.nth -= 1;
            if self.nth == 0 {
                return Err(io::Error::from(ErrorKind::Other));
            }
        }
        Ok(())
    }
}
