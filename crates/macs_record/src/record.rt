//! The records of a journal.

ghost use Rattle.std.specs.Prelude.{◌≡◌, Some, None};
ghost use Rattle.macs_config.specs.declared.command.Command.TheVariants.{RxInstall, TxInstall};
ghost use Rattle.macs_record.specs.Commands.{record_judged, record_of};
ghost use Rattle.macs_record.specs.Layout.{by_length, kind_of};

use crate::ceiling::Ceiling;
use crate::kind::Kind;
use macs_aes::{Key, KeyOctets};
use macs_config::{
    Checked, Command, Fingerprints, Judged, Protection, Replay, Role, RxSa, SciMode, TxSa, Validate,
};
use macs_fields::{An, Offset, Pn, Sci};

/// A record of a journal. There are three groups of kinds: the parts of a configuration's snapshot,
/// the commands that are not refused because of their start or offset, and raised ceilings.
#[derive(Drop)]
pub enum Record {
    /// The settings of a snapshot.
    Settings {
        validate: Validate,
        replay: Replay,
        sci_mode: SciMode,
        encoding: Option<An>,
    },
    /// A transmit association of a snapshot, with its ceiling.
    TxSa {
        an: An,
        sa: TxSa,
        ceiling: Ceiling,
    },
    /// A receive channel of a snapshot.
    Channel {
        sci: Sci,
    },
    /// A receive association of a snapshot, with its ceiling.
    RxSa {
        sci: Sci,
        an: An,
        sa: RxSa,
        ceiling: Ceiling,
    },
    /// Spent keys of a snapshot.
    Spent {
        role: Role,
        fingerprints: Fingerprints,
    },
    SetValidate(Validate),
    SetReplay(Replay),
    SetSciMode(SciMode),
    /// A new transmit association, and its first packet number.
    TxInstall {
        an: An,
        sa: TxSa,
        start: Pn,
    },
    TxUse {
        an: An,
    },
    TxRemove {
        an: An,
    },
    RxAdd {
        sci: Sci,
    },
    RxDrop {
        sci: Sci,
    },
    /// A new receive association, and its first packet number.
    RxInstall {
        sci: Sci,
        an: An,
        sa: RxSa,
        start: Pn,
    },
    RxRemove {
        sci: Sci,
        an: An,
    },
    /// The raised ceiling of a transmit association.
    TxCeiling {
        an: An,
        ceiling: Ceiling,
    },
    /// The raised ceiling of a receive association.
    RxCeiling {
        sci: Sci,
        an: An,
        ceiling: Ceiling,
    },
}

/// Why a sector is not a record: the first fault that applies.
#[derive(Clone, Copy, Debug, PartialEq, Eq)]
pub enum RecordFault {
    /// It does not begin with the mark and a kind of record.
    Kind,
    /// A field of that kind is out of its range.
    Field,
    /// An octet after the fields is not zero.
    Rest,
}

impl Record {
    /// The record of a command, `None` if its start is 0, or its offset is not 0, 30 or 50, or not
    /// 0 without confidentiality.
    pub fn command(command: &Command) -> Option<Record>
        ensures { result ≡ record_of command.now }
    {
        match *command {
            Command::SetValidate(validate) => Some(Record::SetValidate(validate)),
            Command::SetReplay { on, window } => Some(Record::SetReplay(Replay { on, window })),
            Command::SetSciMode(sci_mode) => Some(Record::SetSciMode(sci_mode)),
            Command::TxInstall {
                an,
                key,
                start,
                confidential,
                offset,
            } => tx_install(an, key, start, confidential, offset),
            Command::TxUse { an } => Some(Record::TxUse { an }),
            Command::TxRemove { an } => Some(Record::TxRemove { an }),
            Command::RxAdd { sci } => Some(Record::RxAdd { sci }),
            Command::RxDrop { sci } => Some(Record::RxDrop { sci }),
            Command::RxInstall {
                sci,
                an,
                key,
                start,
                offset,
            } => rx_install(sci, an, key, start, offset),
            Command::RxRemove { sci, an } => Some(Record::RxRemove { sci, an }),
        }
    }

    /// The record of a command that was checked.
    pub fn of(checked: &Checked) -> Record
        ensures { Some result ≡ record_of checked.now }
    {
        record_judged(checked.judged())
    }

    /// A copy of the record.
    pub fn copied(&self) -> Record
        ensures { result ≡ self.now }
    {
        match self {
            Record::Settings {
                validate,
                replay,
                sci_mode,
                encoding,
            } => Record::Settings {
                validate: *validate,
                replay: *replay,
                sci_mode: *sci_mode,
                encoding: *encoding,
            },
            Record::TxSa { an, sa, ceiling } => Record::TxSa {
                an: *an,
                sa: *sa,
                ceiling: *ceiling,
            },
            Record::Channel { sci } => Record::Channel { sci: *sci },
            Record::RxSa {
                sci,
                an,
                sa,
                ceiling,
            } => Record::RxSa {
                sci: *sci,
                an: *an,
                sa: *sa,
                ceiling: *ceiling,
            },
            Record::Spent { role, fingerprints } => Record::Spent {
                role: *role,
                fingerprints: fingerprints.copied(),
            },
            Record::SetValidate(validate) => Record::SetValidate(*validate),
            Record::SetReplay(replay) => Record::SetReplay(*replay),
            Record::SetSciMode(sci_mode) => Record::SetSciMode(*sci_mode),
            Record::TxInstall { an, sa, start } => Record::TxInstall {
                an: *an,
                sa: *sa,
                start: *start,
            },
            Record::TxUse { an } => Record::TxUse { an: *an },
            Record::TxRemove { an } => Record::TxRemove { an: *an },
            Record::RxAdd { sci } => Record::RxAdd { sci: *sci },
            Record::RxDrop { sci } => Record::RxDrop { sci: *sci },
            Record::RxInstall { sci, an, sa, start } => Record::RxInstall {
                sci: *sci,
                an: *an,
                sa: *sa,
                start: *start,
            },
            Record::RxRemove { sci, an } => Record::RxRemove { sci: *sci, an: *an },
            Record::TxCeiling { an, ceiling } => Record::TxCeiling {
                an: *an,
                ceiling: *ceiling,
            },
            Record::RxCeiling { sci, an, ceiling } => Record::RxCeiling {
                sci: *sci,
                an: *an,
                ceiling: *ceiling,
            },
        }
    }

    /// Its kind.
    pub fn kind(&self) -> Kind
        ensures { result ≡ kind_of self.now }
    {
        match self {
            Record::Settings { .. } => Kind::Settings,
            Record::TxSa { sa, .. } => by_length(sa.key, Kind::TxSa, Kind::TxSaLong),
            Record::Channel { .. } => Kind::Channel,
            Record::RxSa { sa, .. } => by_length(sa.key, Kind::RxSa, Kind::RxSaLong),
            Record::Spent { .. } => Kind::Spent,
            Record::SetValidate(_) => Kind::SetValidate,
            Record::SetReplay(_) => Kind::SetReplay,
            Record::SetSciMode(_) => Kind::SetSciMode,
            Record::TxInstall { sa, .. } => {
                by_length(sa.key, Kind::TxInstall, Kind::TxInstallLong)
            }
            Record::TxUse { .. } => Kind::TxUse,
            Record::TxRemove { .. } => Kind::TxRemove,
            Record::RxAdd { .. } => Kind::RxAdd,
            Record::RxDrop { .. } => Kind::RxDrop,
            Record::RxInstall { sa, .. } => {
                by_length(sa.key, Kind::RxInstall, Kind::RxInstallLong)
            }
            Record::RxRemove { .. } => Kind::RxRemove,
            Record::TxCeiling { .. } => Kind::TxCeiling,
            Record::RxCeiling { .. } => Kind::RxCeiling,
        }
    }
}

/// The record of a command, from the verdict of its check.
fn record_judged(judged: &Judged) -> Record
    ensures { result ≡ record_judged judged.now }
{
    match *judged {
        Judged::SetValidate(validate) => Record::SetValidate(validate),
        Judged::SetReplay { on, window } => Record::SetReplay(Replay { on, window }),
        Judged::SetSciMode(sci_mode) => Record::SetSciMode(sci_mode),
        Judged::TxInstall { an, sa, start, .. } => Record::TxInstall { an, sa, start },
        Judged::TxUse { an } => Record::TxUse { an },
        Judged::TxRemove { an } => Record::TxRemove { an },
        Judged::RxAdd { sci } => Record::RxAdd { sci },
        Judged::RxDrop { sci } => Record::RxDrop { sci },
        Judged::RxInstall {
            sci,
            an,
            sa,
            start,
            ..
        } => Record::RxInstall { sci, an, sa, start },
        Judged::RxRemove { sci, an } => Record::RxRemove { sci, an },
    }
}

/// The kind of a record with this key: there is one for short keys and one for long ones.
fn by_length(key: KeyOctets, short: Kind, long: Kind) -> Kind
    ensures { result ≡ by_length key short long }
{
    match key.get() {
        Key::Short(_) => short,
        Key::Long(_) => long,
    }
}

/// The record of a command that installs a transmit association.
fn tx_install(an: An, key: Key, start: u32, confidential: bool, offset: u8) -> Option<Record>
    ensures { result ≡ record_of (TxInstall an key start confidential offset) }
{
    let offset = Offset::new(offset)?;
    let protection = Protection::chosen(confidential, offset)?;
    let start = Pn::new(start)?;
    let key = KeyOctets::of(key);
    let sa = TxSa { key, protection };
    Some(Record::TxInstall { an, sa, start })
}

/// The record of a command that installs a receive association.
fn rx_install(sci: Sci, an: An, key: Key, start: u32, offset: u8) -> Option<Record>
    ensures { result ≡ record_of (RxInstall sci an key start offset) }
{
    let offset = Offset::new(offset)?;
    let start = Pn::new(start)?;
    let key = KeyOctets::of(key);
    let sa = RxSa { key, offset };
    Some(Record::RxInstall { sci, an, sa, start })
}

impl Default for Record {
    ghost use Rattle.macs_record.specs.Settings.{default_settings};

    /// The settings of a new configuration.
    fn default() -> Record
        ensures { result ≡ default_settings }
    {
        Record::Settings {
            validate: Validate::Strict,
            replay: Replay {
                on: true,
                window: 0,
            },
            sci_mode: SciMode::Explicit,
            encoding: None,
        }
    }
}
