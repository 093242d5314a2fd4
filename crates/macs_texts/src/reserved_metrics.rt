//! How many packet numbers are reserved and not used, for a metrics collector.
#![tactic(auto, using(crate::proofs::Adding::joined, crate::proofs::Adding::empty))]

ghost use Rattle.std.specs.Prelude.{flat_map};
ghost use Rattle.macs_commands.specs.Papers.{Writes};
ghost use Rattle.macs_endpoint.specs.Reserved.{reserved_of};
ghost use Rattle.macs_endpoint.specs.State.{no_logs};
ghost use Rattle.macs_endpoint.specs.Value.{state_of};
ghost use Rattle.macs_texts.specs.Measuring.{own_label, reserved_metrics, rx_reserved_metric};
ghost use Rattle.macs_texts.specs.Measuring.{rx_reserved_sample, rx_reserved_samples};
ghost use Rattle.macs_texts.specs.Measuring.{tx_reserved_metric, tx_reserved_sample};

use crate::samples::Metric;
use macs_commands::Paper;
use macs_disk::SectorDisk;
use macs_endpoint::Endpoint;
use macs_frame::{An, Sci};

/// Of a transmit association, if it exists.
fn tx_sample<D: SectorDisk>(paper: &mut Paper, own: Sci, endpoint: &Endpoint<D>, an: An)
    ensures { Writes paper.old paper.new
        (tx_reserved_sample (own_label own) (reserved_of endpoint.now) an) }
{
    let reserved = Metric {
        name: "macsec_tx_numbers_reserved",
        own,
    };
    if let Some(count) = endpoint.reserved_tx(an) {
        reserved.sample_at(paper, "an", u64::from(an.get()), count);
    }
}

/// Of each transmit association.
fn tx_metric<D: SectorDisk>(paper: &mut Paper, own: Sci, endpoint: &Endpoint<D>)
    ensures { Writes paper.old paper.new
        (tx_reserved_metric (own_label own) (reserved_of endpoint.now)) }
{
    let reserved = Metric {
        name: "macsec_tx_numbers_reserved",
        own,
    };
    let help = "Packet numbers reserved and not used, which a power loss would skip.";
    reserved.describe(paper, "gauge", help);
    for an in An::all() {
        tx_sample(paper, own, endpoint, an);
    }
}

/// Of a receive association, if it exists.
fn rx_sample<D: SectorDisk>(paper: &mut Paper, own: Sci, endpoint: &Endpoint<D>, sci: Sci, an: An)
    ensures { Writes paper.old paper.new
        (rx_reserved_sample (own_label own) (reserved_of endpoint.now) sci an) }
{
    let reserved = Metric {
        name: "macsec_rx_numbers_reserved",
        own,
    };
    if let Some(count) = endpoint.reserved_rx(sci, an) {
        reserved.association_sample(paper, sci, an, count);
    }
}

/// Of each receive association of a channel.
fn rx_samples<D: SectorDisk>(paper: &mut Paper, own: Sci, endpoint: &Endpoint<D>, sci: Sci)
    ensures { Writes paper.old paper.new
        (rx_reserved_samples (own_label own) (reserved_of endpoint.now) sci) }
{
    for an in An::all() {
        rx_sample(paper, own, endpoint, sci, an);
    }
}

/// Of each channel.
fn channels_samples<D: SectorDisk>(paper: &mut Paper, own: Sci, endpoint: &Endpoint<D>)
    ensures { Writes paper.old paper.new
        (flat_map (rx_reserved_samples (own_label own) (reserved_of endpoint.now))
        (state_of endpoint.now no_logs).config.channels) }
{
    let channels = endpoint.config().channels();
    for sci in channels.iter() {
        rx_samples(paper, own, endpoint, *sci);
    }
}

/// The same with its description.
fn rx_metric<D: SectorDisk>(paper: &mut Paper, own: Sci, endpoint: &Endpoint<D>)
    ensures { Writes paper.old paper.new
        (rx_reserved_metric (own_label own) (reserved_of endpoint.now)
        (state_of endpoint.now no_logs).config.channels) }
{
    let reserved = Metric {
        name: "macsec_rx_numbers_reserved",
        own,
    };
    let help = "Packet numbers reserved and not received, late after a power loss.";
    reserved.describe(paper, "gauge", help);
    channels_samples(paper, own, endpoint);
}

/// Writes how many packet numbers of each association are reserved and not used.
pub(crate) fn reserved_metrics<D: SectorDisk>(paper: &mut Paper, own: Sci, endpoint: &Endpoint<D>)
    ensures { Writes paper.old paper.new
        (reserved_metrics (own_label own) (reserved_of endpoint.now)
        (state_of endpoint.now no_logs).config.channels) }
{
    tx_metric(paper, own, endpoint);
    rx_metric(paper, own, endpoint);
}
