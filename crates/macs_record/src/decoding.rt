//! Sectors as records.

ghost use Rattle.std.specs.Prelude.{◌≡◌, ◌↔◌, ◌++◌, ℕ, List, IfSome, Ok, Err, Some};
ghost use Rattle.std.specs.Prelude.{true};
ghost use Rattle.macs_fields.specs.First.{IsFirst};
ghost use Rattle.macs_record.specs.Decoding.{RecordFaultHolds, IsSectorOf, record_faults};
ghost use Rattle.macs_record.specs.Layout.{has_one_field, octets_of_kind, of_length};
ghost use Rattle.macs_record.specs.Decoding.{FieldsFound, FieldsRead};
ghost use Rattle.macs_record.specs.declared.kind.Kind.{Kind};
ghost use Rattle.macs_record.specs.declared.kind.Kind.TheVariants as kinds;
ghost use Rattle.macs_record.specs.declared.record.Record.{Record};
ghost use Rattle.macs_record.specs.declared.record.RecordFault.{RecordFault};

use crate::SECTOR;
use crate::encoding::MARK;
use crate::key_length::KeyLength;
use crate::kind::Kind;
use crate::reading::Reader;
use crate::record::{Record, RecordFault};
use macs_config::{RxSa, TxSa};

/// The record of a sector. Fails with the first of `Kind`, `Field` and `Rest` that applies.
pub fn decode(sector: &[u8; SECTOR]) -> Result<Record, RecordFault>
    ensures exactly { (r : Record) → (result ≡ Ok r) ↔ IsSectorOf r sector.now }
    ensures fault { (fault : RecordFault)
        → (result ≡ Err fault) ↔ IsFirst (RecordFaultHolds sector.now) record_faults fault }
{
    let mut reader = Reader::new(sector);
    let Some(kind) = read_kind(&mut reader) else {
        return Err(RecordFault::Kind);
    };
    let Some(value) = read_fields(kind, &mut reader) else {
        return Err(RecordFault::Field);
    };
    if reader.is_zero() {
        Ok(value)
    } else {
        Err(RecordFault::Rest)
    }
}

/// Reads the mark and a kind.
fn read_kind(from: &mut Reader<'_>) -> Option<Kind>
    ensures some { IfSome result (λ kind. from.old ≡ octets_of_kind kind ++ from.new) }
    ensures found { (kind : Kind) (rest : List ℕ) → from.old ≡ octets_of_kind kind ++ rest
        → (result ≡ Some kind) × (from.new ≡ rest) }
{
    let mark: [u8; 4] = from.octets()?;
    let number = from.octet()?;
    if mark == MARK { Kind::of(number) } else { None }
}

/// Reads the fields of a record of this kind.
fn read_fields(kind: Kind, from: &mut Reader<'_>) -> Option<Record>
    ensures some { FieldsRead kind from.old result from.new }
    ensures found { FieldsFound kind from.old result from.new }
{
    match kind {
        Kind::Settings => read_settings(from),
        Kind::TxSa => read_tx_sa(KeyLength::Short, from),
        Kind::TxSaLong => read_tx_sa(KeyLength::Long, from),
        Kind::RxSa => read_rx_sa(KeyLength::Short, from),
        Kind::RxSaLong => read_rx_sa(KeyLength::Long, from),
        Kind::Spent => read_spent(from),
        Kind::TxInstall => read_tx_install(KeyLength::Short, from),
        Kind::TxInstallLong => read_tx_install(KeyLength::Long, from),
        Kind::RxInstall => read_rx_install(KeyLength::Short, from),
        Kind::RxInstallLong => read_rx_install(KeyLength::Long, from),
        Kind::RxRemove => read_rx_remove(from),
        Kind::TxCeiling => read_tx_ceiling(from),
        Kind::RxCeiling => read_rx_ceiling(from),
        _ => read_one_field(kind, from),
    }
}

/// Reads the field of a record of this kind, which has only one.
fn read_one_field(kind: Kind, from: &mut Reader<'_>) -> Option<Record>
    requires { has_one_field kind ≡ true }
    ensures some { FieldsRead kind from.old result from.new }
    ensures found { FieldsFound kind from.old result from.new }
{
    match kind {
        Kind::Channel => read_channel(from),
        Kind::SetValidate => read_set_validate(from),
        Kind::SetReplay => read_set_replay(from),
        Kind::SetSciMode => read_set_sci_mode(from),
        Kind::TxUse => read_tx_use(from),
        Kind::TxRemove => read_tx_remove(from),
        Kind::RxAdd => read_rx_add(from),
        Kind::RxDrop => read_rx_drop(from),
        _ => None,
    }
}

/// Reads a receive channel of a snapshot.
fn read_channel(from: &mut Reader<'_>) -> Option<Record>
    ensures some { FieldsRead kinds.Channel from.old result from.new }
    ensures found { FieldsFound kinds.Channel from.old result from.new }
{
    let sci = from.sci()?;
    Some(Record::Channel { sci })
}

/// Reads how frames are validated from now on.
fn read_set_validate(from: &mut Reader<'_>) -> Option<Record>
    ensures some { FieldsRead kinds.SetValidate from.old result from.new }
    ensures found { FieldsFound kinds.SetValidate from.old result from.new }
{
    let validate = from.validate()?;
    Some(Record::SetValidate(validate))
}

/// Reads the replay protection from now on.
fn read_set_replay(from: &mut Reader<'_>) -> Option<Record>
    ensures some { FieldsRead kinds.SetReplay from.old result from.new }
    ensures found { FieldsFound kinds.SetReplay from.old result from.new }
{
    let replay = from.replay()?;
    Some(Record::SetReplay(replay))
}

/// Reads how frames name their channel from now on.
fn read_set_sci_mode(from: &mut Reader<'_>) -> Option<Record>
    ensures some { FieldsRead kinds.SetSciMode from.old result from.new }
    ensures found { FieldsFound kinds.SetSciMode from.old result from.new }
{
    let sci_mode = from.sci_mode()?;
    Some(Record::SetSciMode(sci_mode))
}

/// Reads the transmit association that encodes from now on.
fn read_tx_use(from: &mut Reader<'_>) -> Option<Record>
    ensures some { FieldsRead kinds.TxUse from.old result from.new }
    ensures found { FieldsFound kinds.TxUse from.old result from.new }
{
    let an = from.an()?;
    Some(Record::TxUse { an })
}

/// Reads a removed transmit association.
fn read_tx_remove(from: &mut Reader<'_>) -> Option<Record>
    ensures some { FieldsRead kinds.TxRemove from.old result from.new }
    ensures found { FieldsFound kinds.TxRemove from.old result from.new }
{
    let an = from.an()?;
    Some(Record::TxRemove { an })
}

/// Reads a new receive channel.
fn read_rx_add(from: &mut Reader<'_>) -> Option<Record>
    ensures some { FieldsRead kinds.RxAdd from.old result from.new }
    ensures found { FieldsFound kinds.RxAdd from.old result from.new }
{
    let sci = from.sci()?;
    Some(Record::RxAdd { sci })
}

/// Reads a removed receive channel.
fn read_rx_drop(from: &mut Reader<'_>) -> Option<Record>
    ensures some { FieldsRead kinds.RxDrop from.old result from.new }
    ensures found { FieldsFound kinds.RxDrop from.old result from.new }
{
    let sci = from.sci()?;
    Some(Record::RxDrop { sci })
}

/// Reads the settings of a snapshot.
fn read_settings(from: &mut Reader<'_>) -> Option<Record>
    ensures some { FieldsRead kinds.Settings from.old result from.new }
    ensures found { FieldsFound kinds.Settings from.old result from.new }
{
    let validate = from.validate()?;
    let replay = from.replay()?;
    let sci_mode = from.sci_mode()?;
    let encoding = from.encoding()?;
    Some(Record::Settings {
        validate,
        replay,
        sci_mode,
        encoding,
    })
}

/// Reads a transmit association of a snapshot, with a key of this length.
fn read_tx_sa(length: KeyLength, from: &mut Reader<'_>) -> Option<Record>
    ensures some { FieldsRead (of_length length kinds.TxSa kinds.TxSaLong)
        from.old result from.new }
    ensures found { FieldsFound (of_length length kinds.TxSa kinds.TxSaLong)
        from.old result from.new }
{
    let an = from.an()?;
    let key = from.key(length)?;
    let ceiling = from.ceiling()?;
    let protection = from.protection()?;
    let sa = TxSa { key, protection };
    Some(Record::TxSa { an, sa, ceiling })
}

/// Reads a receive association of a snapshot, with a key of this length.
fn read_rx_sa(length: KeyLength, from: &mut Reader<'_>) -> Option<Record>
    ensures some { FieldsRead (of_length length kinds.RxSa kinds.RxSaLong)
        from.old result from.new }
    ensures found { FieldsFound (of_length length kinds.RxSa kinds.RxSaLong)
        from.old result from.new }
{
    let sci = from.sci()?;
    let an = from.an()?;
    let key = from.key(length)?;
    let ceiling = from.ceiling()?;
    let offset = from.offset()?;
    let sa = RxSa { key, offset };
    Some(Record::RxSa {
        sci,
        an,
        sa,
        ceiling,
    })
}

/// Reads spent keys of a snapshot.
fn read_spent(from: &mut Reader<'_>) -> Option<Record>
    ensures some { FieldsRead kinds.Spent from.old result from.new }
    ensures found { FieldsFound kinds.Spent from.old result from.new }
{
    let role = from.role()?;
    let fingerprints = from.fingerprints()?;
    Some(Record::Spent { role, fingerprints })
}

/// Reads a new transmit association, with a key of this length.
fn read_tx_install(length: KeyLength, from: &mut Reader<'_>) -> Option<Record>
    ensures some { FieldsRead (of_length length kinds.TxInstall kinds.TxInstallLong)
        from.old result from.new }
    ensures found { FieldsFound (of_length length kinds.TxInstall kinds.TxInstallLong)
        from.old result from.new }
{
    let an = from.an()?;
    let key = from.key(length)?;
    let start = from.start()?;
    let protection = from.protection()?;
    let sa = TxSa { key, protection };
    Some(Record::TxInstall { an, sa, start })
}

/// Reads a new receive association, with a key of this length.
fn read_rx_install(length: KeyLength, from: &mut Reader<'_>) -> Option<Record>
    ensures some { FieldsRead (of_length length kinds.RxInstall kinds.RxInstallLong)
        from.old result from.new }
    ensures found { FieldsFound (of_length length kinds.RxInstall kinds.RxInstallLong)
        from.old result from.new }
{
    let sci = from.sci()?;
    let an = from.an()?;
    let key = from.key(length)?;
    let start = from.start()?;
    let offset = from.offset()?;
    let sa = RxSa { key, offset };
    Some(Record::RxInstall { sci, an, sa, start })
}

/// Reads a removed receive association.
fn read_rx_remove(from: &mut Reader<'_>) -> Option<Record>
    ensures some { FieldsRead kinds.RxRemove from.old result from.new }
    ensures found { FieldsFound kinds.RxRemove from.old result from.new }
{
    let sci = from.sci()?;
    let an = from.an()?;
    Some(Record::RxRemove { sci, an })
}

/// Reads the raised ceiling of a transmit association.
fn read_tx_ceiling(from: &mut Reader<'_>) -> Option<Record>
    ensures some { FieldsRead kinds.TxCeiling from.old result from.new }
    ensures found { FieldsFound kinds.TxCeiling from.old result from.new }
{
    let an = from.an()?;
    let ceiling = from.ceiling()?;
    Some(Record::TxCeiling { an, ceiling })
}

/// Reads the raised ceiling of a receive association.
fn read_rx_ceiling(from: &mut Reader<'_>) -> Option<Record>
    ensures some { FieldsRead kinds.RxCeiling from.old result from.new }
    ensures found { FieldsFound kinds.RxCeiling from.old result from.new }
{
    let sci = from.sci()?;
    let an = from.an()?;
    let ceiling = from.ceiling()?;
    Some(Record::RxCeiling { sci, an, ceiling })
}
