//! Laws of the definitions, for the layers above. If a law is about a value behind a reference, its
//! body reads the fields: that is how a proof learns their ranges.

ghost use Rattle.std.specs.Prelude.{◌≡◌, ◌<◌, ◌^◌, List, ℕ, length};
ghost use Rattle.macs_fields.specs.First.{IsFirst};
ghost use Rattle.macs_record.specs.Decoding.{HasFields, HasKind, HasRecord, RecordFaultHolds};
ghost use Rattle.macs_record.specs.Decoding.{record_faults};
ghost use Rattle.macs_record.specs.Heads.{Head, IsHead, IsHeadOf, head_sector_of};
ghost use Rattle.macs_record.specs.Layout.{IsRecord, sector_of};
ghost use Rattle.macs_config.specs.Apply.{IsKey};
ghost use Rattle.macs_fields.specs.Fields.{IsAn, IsOctets, IsSci};
ghost use Rattle.macs_record.specs.Ranges.{IsCeiling, IsEncoding, IsFingerprints, IsStart};
ghost use Rattle.macs_record.specs.declared.record.Record.{Record};
ghost use Rattle.macs_record.specs.declared.record.RecordFault.{RecordFault};
ghost use Rattle.macs_record.specs.declared.record.RecordFault.TheVariants.{Field, Kind, Rest};

use crate::{Ceiling, Head, Record};
use macs_aes::KeyOctets;
use macs_config::{Fingerprint, Fingerprints, Replay};
use macs_fields::laws::{an_in_range, octets_in_range, sci_in_range};
use macs_fields::{An, Pn, Sci};

/// The fields of a record are in their ranges.
pub fn record_in_range(value: &Record)
    ensures { IsRecord value.now }
{
    match value {
        Record::Settings {
            replay,
            encoding,
            ..
        } => settings_in_range(*replay, *encoding),
        Record::TxSa { an, sa, ceiling } => sa_in_range(*an, sa.key, *ceiling),
        Record::Channel { sci } | Record::RxAdd { sci } | Record::RxDrop { sci } => {
            sci_in_range(*sci);
        }
        Record::RxSa {
            sci,
            an,
            sa,
            ceiling,
        } => {
            sci_in_range(*sci);
            sa_in_range(*an, sa.key, *ceiling);
        }
        Record::Spent { fingerprints, .. } => fingerprints_in_range(fingerprints),
        Record::SetValidate(_) | Record::SetSciMode(_) => {}
        Record::SetReplay(replay) => replay_in_range(*replay),
        Record::TxInstall { an, sa, start } => install_in_range(*an, sa.key, *start),
        Record::TxUse { an } | Record::TxRemove { an } => an_in_range(*an),
        Record::RxInstall { sci, an, sa, start } => {
            sci_in_range(*sci);
            install_in_range(*an, sa.key, *start);
        }
        Record::RxRemove { sci, an } => rx_in_range(*sci, *an),
        Record::TxCeiling { an, ceiling } => ceiling_in_range(*an, *ceiling),
        Record::RxCeiling { sci, an, ceiling } => {
            sci_in_range(*sci);
            ceiling_in_range(*an, *ceiling);
        }
    }
}

/// A replay window has 32 bits.
fn replay_in_range(replay: Replay)
    ensures { replay.window < 2 ^ 32 }
{}

/// An encoding association is 0 to 3.
fn encoding_in_range(encoding: Option<An>)
    ensures { IsEncoding encoding }
{
    if let Some(an) = encoding {
        let _number = an.get();
    }
}

/// The window and the encoding association of a snapshot's settings.
fn settings_in_range(replay: Replay, encoding: Option<An>)
    ensures { (replay.window < 2 ^ 32) × IsEncoding encoding }
{
    replay_in_range(replay);
    encoding_in_range(encoding);
}

/// The SCI and the number of a receive association.
fn rx_in_range(sci: Sci, an: An)
    ensures { IsSci sci × IsAn an }
{
    sci_in_range(sci);
    an_in_range(an);
}

/// The number and the ceiling of an association.
fn ceiling_in_range(an: An, ceiling: Ceiling)
    ensures { IsAn an × IsCeiling ceiling }
{
    let _numbers = (an.get(), ceiling.get());
}

/// The number, the key and the ceiling of an association.
fn sa_in_range(an: An, key: KeyOctets, ceiling: Ceiling)
    ensures { IsAn an × IsKey key × IsCeiling ceiling }
{
    ceiling_in_range(an, ceiling);
    key_in_range(key);
}

/// The number, the key and the first packet number of a new association.
fn install_in_range(an: An, key: KeyOctets, start: Pn)
    ensures { IsAn an × IsKey key × IsStart start }
{
    let _numbers = (an.get(), start.get());
    key_in_range(key);
}

/// A key has 16 or 32 octets.
fn key_in_range(key: KeyOctets)
    ensures { IsKey key }
{
    octets_in_range(key.as_slice());
}

/// A fingerprint has 32 octets.
fn fingerprint_in_range(fingerprint: Fingerprint)
    ensures { IsOctets 32 fingerprint }
{
    octets_in_range(&fingerprint);
}

/// There are 1 to 15 fingerprints, each of 32 octets.
fn fingerprints_in_range(fingerprints: &Fingerprints)
    ensures { IsFingerprints fingerprints.now }
{
    for fingerprint in fingerprints.as_slice() {
        fingerprint_in_range(*fingerprint);
    }
}

/// A record fills a sector of 512 octets.
pub fn sector_length()
    ensures { (r : Record) → IsRecord r → length (sector_of r) ≡ 512 }
{}

/// A sector holds at most one record.
pub fn one_record()
    ensures { (a b : Record) → IsRecord a → IsRecord b → sector_of a ≡ sector_of b → a ≡ b }
{}

/// The fields of a head are in their ranges.
pub fn head_in_range(head: &Head)
    ensures { IsHead head.now }
{
    let _numbers = (head.generation(), head.count());
    let identity = head.identity();
    sci_in_range(identity.sci());
    let _blocks = (identity.tx_block(), identity.rx_block());
}

/// A head fills a sector of 512 octets.
pub fn head_sector_length()
    ensures { (head : Head) → IsHead head → length (head_sector_of head) ≡ 512 }
{}

/// A sector holds at most one head.
pub fn one_head()
    ensures { (a b : Head) (sector : List ℕ) → IsHeadOf a sector → IsHeadOf b sector → a ≡ b }
{}

/// Why a sector is rejected as a record: it does not begin with a kind, regardless of the rest; or
/// its fields are not in their ranges, regardless of what follows; or an octet after them is not
/// zero.
pub fn record_refusals()
    ensures kind { (sector : List ℕ) (fault : RecordFault)
        → IsFirst (RecordFaultHolds sector) record_faults fault
        → ¬ HasKind sector → fault ≡ Kind }
    ensures field { (sector : List ℕ) (fault : RecordFault)
        → IsFirst (RecordFaultHolds sector) record_faults fault
        → HasKind sector → ¬ HasFields sector → fault ≡ Field }
    ensures rest { (sector : List ℕ) (fault : RecordFault)
        → IsFirst (RecordFaultHolds sector) record_faults fault
        → HasKind sector → HasFields sector → (fault ≡ Rest) × (¬ HasRecord sector) }
{}
