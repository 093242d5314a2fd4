//! The kinds of records.

ghost use Rattle.std.specs.Prelude.{◌≡◌, ◌↔◌, Some};
ghost use Rattle.macs_record.specs.Layout.{kind_number};
ghost use Rattle.macs_record.specs.declared.kind.Kind.{Kind};

/// The kind of a record, in the order of its number: first the records of a snapshot, then the
/// commands, then raised ceilings, and last the associations and the commands that have a long key.
#[derive(Clone, Copy)]
pub enum Kind {
    Settings,
    TxSa,
    Channel,
    RxSa,
    Spent,
    SetValidate,
    SetReplay,
    SetSciMode,
    TxInstall,
    TxUse,
    TxRemove,
    RxAdd,
    RxDrop,
    RxInstall,
    RxRemove,
    TxCeiling,
    RxCeiling,
    TxSaLong,
    RxSaLong,
    TxInstallLong,
    RxInstallLong,
}

/// Every kind, once.
const KINDS: [Kind; 21] = [
    Kind::Settings,
    Kind::TxSa,
    Kind::Channel,
    Kind::RxSa,
    Kind::Spent,
    Kind::SetValidate,
    Kind::SetReplay,
    Kind::SetSciMode,
    Kind::TxInstall,
    Kind::TxUse,
    Kind::TxRemove,
    Kind::RxAdd,
    Kind::RxDrop,
    Kind::RxInstall,
    Kind::RxRemove,
    Kind::TxCeiling,
    Kind::RxCeiling,
    Kind::TxSaLong,
    Kind::RxSaLong,
    Kind::TxInstallLong,
    Kind::RxInstallLong,
];

impl Kind {
    /// The number of a kind in a sector, 1 to 21.
    pub fn number(self) -> u8
        ensures { result ≡ kind_number self }
    {
        match self {
            Kind::Settings => 1,
            Kind::TxSa => 2,
            Kind::Channel => 3,
            Kind::RxSa => 4,
            Kind::Spent => 5,
            Kind::SetValidate => 6,
            Kind::SetReplay => 7,
            Kind::SetSciMode => 8,
            Kind::TxInstall => 9,
            Kind::TxUse => 10,
            Kind::TxRemove => 11,
            Kind::RxAdd => 12,
            Kind::RxDrop => 13,
            Kind::RxInstall => 14,
            Kind::RxRemove => 15,
            Kind::TxCeiling => 16,
            Kind::RxCeiling => 17,
            Kind::TxSaLong => 18,
            Kind::RxSaLong => 19,
            Kind::TxInstallLong => 20,
            Kind::RxInstallLong => 21,
        }
    }

    /// The kind with this number, `None` if there is none: the inverse of `number`.
    pub fn of(number: u8) -> Option<Kind>
        ensures { (kind : Kind) → (result ≡ Some kind) ↔ (kind_number kind ≡ number) }
    {
        KINDS.iter().find(|kind| kind.number() == number).copied()
    }
}
