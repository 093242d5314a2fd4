//! Records as sectors.

ghost use Rattle.std.specs.Prelude.{◌≡◌, ◌≤◌, ◌++◌, length};
ghost use Rattle.macs_record.specs.Layout.{fields_of, sector_of};
ghost use Rattle.macs_record.specs.declared.record.Record.TheVariants as recorded;

use crate::SECTOR;
use crate::ceiling::Ceiling;
use crate::record::Record;
use crate::writing::RecordWriter;
use macs_config::{Fingerprints, Replay, Role, RxSa, SciMode, TxSa, Validate};
use macs_fields::{An, Pn, Sci};

/// The first octets of the sector of a record.
pub(crate) const MARK: [u8; 4] = *b"MREC";

/// The sector of a record: the mark `MREC`, its kind (1 octet), its fields in order without gaps,
/// and zeros.
pub fn encode(value: &Record) -> [u8; SECTOR]
    ensures { result ≡ sector_of value.now }
{
    let front = RecordWriter::new()
        .octets(&MARK)
        .octet(value.kind().number());
    write_fields(value, front).finish()
}

/// Writes the fields of a record.
fn write_fields(value: &Record, to: RecordWriter) -> RecordWriter
    requires room { length to ≤ 5 }
    ensures { result ≡ to ++ fields_of value.now }
{
    match value {
        Record::Settings {
            validate,
            replay,
            sci_mode,
            encoding,
        } => write_settings(*validate, *replay, *sci_mode, *encoding, to),
        Record::TxSa { an, sa, ceiling } => write_tx_sa(*an, sa, *ceiling, to),
        Record::Channel { sci } | Record::RxAdd { sci } | Record::RxDrop { sci } => to.sci(*sci),
        Record::RxSa {
            sci,
            an,
            sa,
            ceiling,
        } => write_rx_sa(*sci, *an, sa, *ceiling, to),
        Record::Spent { role, fingerprints } => write_spent(*role, fingerprints, to),
        Record::SetValidate(validate) => to.validate(*validate),
        Record::SetReplay(replay) => to.replay(*replay),
        Record::SetSciMode(sci_mode) => to.sci_mode(*sci_mode),
        Record::TxInstall { an, sa, start } => write_tx_install(*an, sa, *start, to),
        Record::TxUse { an } | Record::TxRemove { an } => to.an(*an),
        Record::RxInstall { sci, an, sa, start } => write_rx_install(*sci, *an, sa, *start, to),
        Record::RxRemove { sci, an } => write_rx_remove(*sci, *an, to),
        Record::TxCeiling { an, ceiling } => write_tx_ceiling(*an, *ceiling, to),
        Record::RxCeiling { sci, an, ceiling } => write_rx_ceiling(*sci, *an, *ceiling, to),
    }
}

/// Writes the settings of a snapshot.
fn write_settings(
    validate: Validate,
    replay: Replay,
    sci_mode: SciMode,
    encoding: Option<An>,
    to: RecordWriter,
) -> RecordWriter
    requires room { length to ≤ 5 }
    ensures { result ≡ to ++ fields_of (recorded.Settings validate replay sci_mode encoding) }
{
    to.validate(validate)
        .replay(replay)
        .sci_mode(sci_mode)
        .encoding(encoding)
}

/// Writes a transmit association of a snapshot.
fn write_tx_sa(an: An, sa: &TxSa, ceiling: Ceiling, to: RecordWriter) -> RecordWriter
    requires room { length to ≤ 5 }
    ensures { result ≡ to ++ fields_of (recorded.TxSa an sa.now ceiling) }
{
    to.an(an)
        .octets(sa.key.as_slice())
        .ceiling(ceiling)
        .protection(sa.protection)
}

/// Writes a receive association of a snapshot.
fn write_rx_sa(sci: Sci, an: An, sa: &RxSa, ceiling: Ceiling, to: RecordWriter) -> RecordWriter
    requires room { length to ≤ 5 }
    ensures { result ≡ to ++ fields_of (recorded.RxSa sci an sa.now ceiling) }
{
    to.sci(sci)
        .an(an)
        .octets(sa.key.as_slice())
        .ceiling(ceiling)
        .offset(sa.offset)
}

/// Writes spent keys of a snapshot.
fn write_spent(role: Role, fingerprints: &Fingerprints, to: RecordWriter) -> RecordWriter
    requires room { length to ≤ 5 }
    ensures { result ≡ to ++ fields_of (recorded.Spent role fingerprints.now) }
{
    to.role(role).fingerprints(fingerprints)
}

/// Writes a new transmit association.
fn write_tx_install(an: An, sa: &TxSa, start: Pn, to: RecordWriter) -> RecordWriter
    requires room { length to ≤ 5 }
    ensures { result ≡ to ++ fields_of (recorded.TxInstall an sa.now start) }
{
    to.an(an)
        .octets(sa.key.as_slice())
        .start(start)
        .protection(sa.protection)
}

/// Writes a new receive association.
fn write_rx_install(sci: Sci, an: An, sa: &RxSa, start: Pn, to: RecordWriter) -> RecordWriter
    requires room { length to ≤ 5 }
    ensures { result ≡ to ++ fields_of (recorded.RxInstall sci an sa.now start) }
{
    to.sci(sci)
        .an(an)
        .octets(sa.key.as_slice())
        .start(start)
        .offset(sa.offset)
}

/// Writes a removed receive association.
fn write_rx_remove(sci: Sci, an: An, to: RecordWriter) -> RecordWriter
    requires room { length to ≤ 5 }
    ensures { result ≡ to ++ fields_of (recorded.RxRemove sci an) }
{
    to.sci(sci).an(an)
}

/// Writes the raised ceiling of a transmit association.
fn write_tx_ceiling(an: An, ceiling: Ceiling, to: RecordWriter) -> RecordWriter
    requires room { length to ≤ 5 }
    ensures { result ≡ to ++ fields_of (recorded.TxCeiling an ceiling) }
{
    to.an(an).ceiling(ceiling)
}

/// Writes the raised ceiling of a receive association.
fn write_rx_ceiling(sci: Sci, an: An, ceiling: Ceiling, to: RecordWriter) -> RecordWriter
    requires room { length to ≤ 5 }
    ensures { result ≡ to ++ fields_of (recorded.RxCeiling sci an ceiling) }
{
    to.sci(sci).an(an).ceiling(ceiling)
}
