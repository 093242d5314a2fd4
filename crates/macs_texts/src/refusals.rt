//! The names of refusals.

ghost use Rattle.std.specs.Prelude.{◌≡◌, ◌≤◌, length};
ghost use Rattle.macs_texts.specs.Refusals.{refusal_name};

use macs_config::Refusal;

/// The name of a refusal.
pub fn refusal_name(refusal: Refusal) -> &'static str
    ensures name { result.now ≡ refusal_name refusal }
    ensures short { length result.now ≤ 13 }
{
    match refusal {
        Refusal::StartRange => "StartRange",
        Refusal::OffsetChoice => "OffsetChoice",
        Refusal::OwnSci => "OwnSci",
        Refusal::EndStationSci => "EndStationSci",
        Refusal::NoChannel => "NoChannel",
        Refusal::ChannelTaken => "ChannelTaken",
        Refusal::ChannelsFull => "ChannelsFull",
        Refusal::SlotTaken => "SlotTaken",
        Refusal::SlotEmpty => "SlotEmpty",
        Refusal::InUse => "InUse",
        Refusal::KeySpent => "KeySpent",
        Refusal::SpentFull => "SpentFull",
    }
}
