//! How many packet numbers are reserved and not used, as text.
#![tactic(auto, using(crate::proofs::Adding::joined, crate::proofs::Adding::empty))]

ghost use Rattle.std.specs.Prelude.{flat_map};
ghost use Rattle.macs_commands.specs.Papers.{Writes};
ghost use Rattle.macs_endpoint.specs.Reserved.{reserved_of};
ghost use Rattle.macs_endpoint.specs.State.{no_logs};
ghost use Rattle.macs_endpoint.specs.Value.{state_of};
ghost use Rattle.macs_texts.specs.Lines.{name_of};
ghost use Rattle.macs_texts.specs.ReservedTexts.{channel_text, reserved_line, reserved_text};
ghost use Rattle.macs_texts.specs.ReservedTexts.{rx_line, tx_line};
ghost use Rattle.macs_texts.specs.Showing.{association_numbers};

use crate::lines::{Subject, numbered, put_name};
use macs_commands::Paper;
use macs_disk::SectorDisk;
use macs_endpoint::Endpoint;
use macs_frame::{An, Sci};

/// The line of an association, if it exists.
fn reserved_line(paper: &mut Paper, whose: Subject, count: Option<u64>)
    ensures { Writes paper.old paper.new (reserved_line (name_of whose) count) }
{
    if let Some(count) = count {
        paper.put("reserved ");
        put_name(paper, whose);
        numbered(paper, " ", count);
        paper.end_line();
    }
}

/// The transmit association with this number.
fn tx_line<D: SectorDisk>(paper: &mut Paper, endpoint: &Endpoint<D>, an: An)
    ensures { Writes paper.old paper.new (tx_line (reserved_of endpoint.now) an) }
{
    reserved_line(paper, Subject::Tx(an), endpoint.reserved_tx(an));
}

/// A receive association.
fn rx_line<D: SectorDisk>(paper: &mut Paper, endpoint: &Endpoint<D>, sci: Sci, an: An)
    ensures { Writes paper.old paper.new (rx_line (reserved_of endpoint.now) sci an) }
{
    reserved_line(paper, Subject::Rx(sci, an), endpoint.reserved_rx(sci, an));
}

/// The transmit associations, by number.
fn tx_lines<D: SectorDisk>(paper: &mut Paper, endpoint: &Endpoint<D>)
    ensures { Writes paper.old paper.new
        (flat_map (tx_line (reserved_of endpoint.now)) association_numbers) }
{
    for an in An::all() {
        tx_line(paper, endpoint, an);
    }
}

/// A channel's associations, by number.
fn channel_lines<D: SectorDisk>(paper: &mut Paper, endpoint: &Endpoint<D>, sci: Sci)
    ensures { Writes paper.old paper.new (channel_text (reserved_of endpoint.now) sci) }
{
    for an in An::all() {
        rx_line(paper, endpoint, sci, an);
    }
}

/// Those of each channel.
fn rx_lines<D: SectorDisk>(paper: &mut Paper, endpoint: &Endpoint<D>)
    ensures { Writes paper.old paper.new (flat_map (channel_text (reserved_of endpoint.now))
        (state_of endpoint.now no_logs).config.channels) }
{
    let channels = endpoint.config().channels();
    for sci in channels.iter() {
        channel_lines(paper, endpoint, *sci);
    }
}

/// Writes how many packet numbers of each association are reserved and not used.
pub(crate) fn reserved_lines<D: SectorDisk>(paper: &mut Paper, endpoint: &Endpoint<D>)
    ensures { Writes paper.old paper.new (reserved_text (reserved_of endpoint.now)
        (state_of endpoint.now no_logs).config.channels) }
{
    tx_lines(paper, endpoint);
    rx_lines(paper, endpoint);
}
