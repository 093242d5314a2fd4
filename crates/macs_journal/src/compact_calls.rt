//! The device calls of a compaction, as values.

ghost use Rattle.std.specs.Prelude.{◌≤◌, length};
ghost use Rattle.macs_disk.specs.DeviceCalls.{IsWithin};
ghost use Rattle.macs_journal.specs.Areas.{least_sectors, slots};
ghost use Rattle.macs_journal.specs.Halves.{IsCompactCall};
ghost use Rattle.macs_journal.specs.Stages.{IsCompactStage};

use crate::area::Area;
use crate::compact_stage::CompactStage;
use crate::record_source::RecordSource;
use macs_disk::DeviceCall;
use macs_record::laws::{head_in_range, record_in_range};
use macs_record::{CLOSED_GATE, Head, encode, encode_head, open_gate};

/// The device call of a stage of a compaction of the records of a source into an area with this
/// head: a record is read for the call that writes its body, and for no other.
pub(crate) fn compact_call<R: RecordSource>(
    area: Area,
    head: &Head,
    records: &R,
    stage: CompactStage,
) -> DeviceCall
    requires room { IsCompactStage (length (R.listed records.now)) stage }
    requires few { length (R.listed records.now) ≤ slots }
    ensures call { IsCompactCall area head.now (R.listed records.now) stage result }
    ensures within { IsWithin least_sectors result }
{
    match stage {
        CompactStage::ReadGate(k) => DeviceCall::Read(area.gate(k)),
        CompactStage::CloseGate(k) => DeviceCall::Write(area.gate(k), CLOSED_GATE),
        // The gates are closed before a body after them changes.
        CompactStage::GatesSync => DeviceCall::Sync,
        CompactStage::HeadBody => {
            head_in_range(head);
            DeviceCall::Write(area.head_body(), encode_head(head))
        }
        CompactStage::Body(slot) => {
            let value = records.at(slot as usize).unwrap();
            record_in_range(&value);
            DeviceCall::Write(area.slot_body(slot), encode(&value))
        }
        // The bodies and the closed gates are durable before the head is opened.
        CompactStage::BodiesSync => DeviceCall::Sync,
        CompactStage::HeadGate => DeviceCall::Write(area.head_gate(), open_gate()),
        CompactStage::HeadSync => DeviceCall::Sync, // The head is durable before the answer.
    }
}
