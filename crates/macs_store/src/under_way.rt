//! What a store has under way.

ghost use Rattle.std.specs.Prelude.{◌≡◌};
ghost use Rattle.macs_store.specs.UnderWay.{record_kept};

use macs_config::Checked;
use macs_fields::{An, Sci};
use macs_record::{Ceiling, Record};

/// What a store has under way. Memory does not change before it is done.
#[derive(Drop)]
pub enum UnderWay {
    /// Nothing.
    Nothing,
    /// The journal is being compacted; the record of this is appended next.
    Compacting(Kept),
    /// The record of this is being appended.
    Appending(Kept),
}

/// What is kept by one record.
#[derive(Clone, Copy)]
pub enum Kept {
    /// A command, with the verdict of its check.
    Command(Checked),
    /// The raised ceiling of a transmit association.
    TxCeiling { an: An, ceiling: Ceiling },
    /// The raised ceiling of a receive association.
    RxCeiling { sci: Sci, an: An, ceiling: Ceiling },
}

impl Kept {
    /// Its record.
    pub(crate) fn record(&self) -> Record
        ensures { result ≡ record_kept self.now }
    {
        match self {
            Kept::Command(checked) => Record::of(checked),
            Kept::TxCeiling { an, ceiling } => Record::TxCeiling {
                an: *an,
                ceiling: *ceiling,
            },
            Kept::RxCeiling { sci, an, ceiling } => Record::RxCeiling {
                sci: *sci,
                an: *an,
                ceiling: *ceiling,
            },
        }
    }
}
