//! What frames carried, as text.
#![tactic(auto, using(crate::proofs::Adding::joined, crate::proofs::Adding::empty))]

ghost use Rattle.std.specs.Prelude.{flat_map};
ghost use Rattle.macs_commands.specs.Papers.{Writes};
ghost use Rattle.macs_endpoint.specs.State.{no_logs};
ghost use Rattle.macs_endpoint.specs.Value.{state_of};
ghost use Rattle.macs_rxsc.specs.Value as rxsc;
ghost use Rattle.macs_txsc.specs.Value as txsc;
ghost use Rattle.macs_texts.specs.Lines.{name_of};
ghost use Rattle.macs_texts.specs.Showing.{association_numbers};
ghost use Rattle.macs_texts.specs.TrafficTexts.{carried_line, channel_text, rx_text, traffic_text};
ghost use Rattle.macs_texts.specs.TrafficTexts.{tx_text};

use crate::lines::{Subject, known_line, numbered, put_name};
use macs_commands::Paper;
use macs_disk::SectorDisk;
use macs_endpoint::Endpoint;
use macs_frame::{An, Carried, Sci};

/// The frames of a kind under an association and the octets of User Data in them, if there were
/// any.
fn carried_line(paper: &mut Paper, whose: Subject, kind: &str, carried: Carried)
    ensures { Writes paper.old paper.new (carried_line (name_of whose) kind.now carried) }
{
    if carried.frames == 0 {
        return;
    }
    put_name(paper, whose);
    paper.put(" ");
    paper.put(kind);
    numbered(paper, " frames ", carried.frames);
    numbered(paper, " octets ", carried.octets);
    paper.end_line();
}

/// What was sent under an association number.
fn tx_text<D: SectorDisk>(paper: &mut Paper, endpoint: &Endpoint<D>, an: An)
    ensures { Writes paper.old paper.new (tx_text (txsc.counters_of endpoint.now.tx) an) }
{
    let traffic = endpoint.counters().transmitted(an);
    carried_line(paper, Subject::Tx(an), "protected", traffic.plain);
    carried_line(paper, Subject::Tx(an), "encrypted", traffic.encrypted);
}

/// What verified under an association number of a channel, if the channel exists.
fn rx_text<D: SectorDisk>(paper: &mut Paper, endpoint: &Endpoint<D>, sci: Sci, an: An)
    ensures { Writes paper.old paper.new
        (rx_text (rxsc.channel_counters_of endpoint.now.rx) sci an) }
{
    if let Some(traffic) = endpoint.counters().received(sci, an) {
        carried_line(paper, Subject::Rx(sci, an), "validated", traffic.plain);
        carried_line(paper, Subject::Rx(sci, an), "decrypted", traffic.encrypted);
    }
}

/// What was sent, by association number.
fn tx_texts<D: SectorDisk>(paper: &mut Paper, endpoint: &Endpoint<D>)
    ensures { Writes paper.old paper.new
        (flat_map (tx_text (txsc.counters_of endpoint.now.tx)) association_numbers) }
{
    for an in An::all() {
        tx_text(paper, endpoint, an);
    }
}

/// What verified on a channel, by association number.
fn channel_text<D: SectorDisk>(paper: &mut Paper, endpoint: &Endpoint<D>, sci: Sci)
    ensures { Writes paper.old paper.new
        (channel_text (rxsc.channel_counters_of endpoint.now.rx) sci) }
{
    for an in An::all() {
        rx_text(paper, endpoint, sci, an);
    }
}

/// What verified on each channel.
fn channel_texts<D: SectorDisk>(paper: &mut Paper, endpoint: &Endpoint<D>)
    ensures { Writes paper.old paper.new
        (flat_map (channel_text (rxsc.channel_counters_of endpoint.now.rx))
        (state_of endpoint.now no_logs).config.channels) }
{
    let channels = endpoint.config().channels();
    for sci in channels.iter() {
        channel_text(paper, endpoint, *sci);
    }
}

/// Writes what the frames carried that were sent and that verified, a line for each association
/// number and kind with frames; and when the last one verified, in seconds since the beginning of
/// 1970 (UTC), if known.
pub fn traffic_lines<D: SectorDisk>(paper: &mut Paper, endpoint: &Endpoint<D>, last: Option<u64>)
    ensures { Writes paper.old paper.new (traffic_text
        (txsc.counters_of endpoint.now.tx) (state_of endpoint.now no_logs).config.channels
        (rxsc.channel_counters_of endpoint.now.rx) last) }
{
    tx_texts(paper, endpoint);
    channel_texts(paper, endpoint);
    known_line(paper, "last-good", last);
}
