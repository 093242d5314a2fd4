//! The counters of an endpoint and of its wires, for a metrics collector.
#![tactic(auto, using(crate::proofs::Adding::joined, crate::proofs::Adding::empty))]

ghost use Rattle.std.specs.Prelude.{◌++◌, codes, flat_map, string_bytes};
ghost use Rattle.macs_commands.specs.Papers.{Writes};
ghost use Rattle.macs_config.specs.Value.{config_of};
ghost use Rattle.macs_endpoint.specs.Reserved.{reserved_of};
ghost use Rattle.macs_endpoint.specs.State.{no_logs};
ghost use Rattle.macs_endpoint.specs.Value.{state_of};
ghost use Rattle.macs_rxsc.specs.Value as rxsc;
ghost use Rattle.macs_txsc.specs.Value as txsc;
ghost use Rattle.macs_texts.specs.Measuring.{build_labels, build_metric, channel_metric};
ghost use Rattle.macs_texts.specs.Measuring.{channel_samples, keys_metric, left_metric};
ghost use Rattle.macs_texts.specs.Measuring.{left_sample, metrics_of, metrics_text, own_label};
ghost use Rattle.macs_texts.specs.Measuring.{rx_metric, sample, tx_metric, wire_metric};
ghost use Rattle.macs_texts.specs.Measuring.{wires_metrics};

use crate::build::Build;
use crate::counting::{TX_FAULTS, keys_left, left_of};
use crate::reserved_metrics::reserved_metrics;
use crate::samples::{Metric, rest_of_sample};
use crate::wire_report::{WIRE_NUMBERS, WireNumber, WireReport, wire_number};
use crate::words::{fault_words, verdict_words, wire_help, wire_kind, wire_metric_name};
use macs_commands::Paper;
use macs_config::Config;
use macs_disk::SectorDisk;
use macs_endpoint::Endpoint;
use macs_frame::{An, Sci};
use macs_rxsc::{CHANNEL_VERDICTS, VERDICTS};

/// Plain frames, by outcome.
fn tx_metric<D: SectorDisk>(paper: &mut Paper, own: Sci, endpoint: &Endpoint<D>)
    ensures { Writes paper.old paper.new
        (tx_metric (own_label own) (txsc.counters_of endpoint.now.tx)) }
{
    let counters = endpoint.counters();
    let frames = Metric {
        name: "macsec_tx_frames_total",
        own,
    };
    frames.describe(paper, "counter", "Plain frames by what was answered.");
    frames.sample(paper, "answer", "protected", counters.protected());
    for &fault in &TX_FAULTS {
        let count = counters.tx_fault(fault);
        frames.sample(paper, "answer", fault_words(fault), count);
    }
}

/// Received frames, by verdict.
fn rx_metric<D: SectorDisk>(paper: &mut Paper, own: Sci, endpoint: &Endpoint<D>)
    ensures { Writes paper.old paper.new
        (rx_metric (own_label own) (rxsc.counters_of endpoint.now.rx)) }
{
    let counters = endpoint.counters();
    let frames = Metric {
        name: "macsec_rx_frames_total",
        own,
    };
    frames.describe(paper, "counter", "Received frames by verdict.");
    for &verdict in &VERDICTS {
        let count = counters.verdict(verdict);
        frames.sample(paper, "verdict", verdict_words(verdict), count);
    }
}

/// How often each verdict was given on frames of a channel.
fn channel_samples<D: SectorDisk>(paper: &mut Paper, own: Sci, endpoint: &Endpoint<D>, sci: Sci)
    ensures { Writes paper.old paper.new
        (channel_samples (own_label own) (rxsc.channel_counters_of endpoint.now.rx) sci) }
{
    let counters = endpoint.counters();
    let frames = Metric {
        name: "macsec_rx_channel_frames_total",
        own,
    };
    for &verdict in &CHANNEL_VERDICTS {
        let count = counters.channel(sci, verdict);
        frames.channel_sample_of(paper, sci, verdict_words(verdict), count);
    }
}

/// The same for each channel.
fn channels_samples<D: SectorDisk>(paper: &mut Paper, own: Sci, endpoint: &Endpoint<D>)
    ensures { Writes paper.old paper.new
        (flat_map (channel_samples (own_label own) (rxsc.channel_counters_of endpoint.now.rx))
        (state_of endpoint.now no_logs).config.channels) }
{
    let channels = endpoint.config().channels();
    for sci in channels.iter() {
        channel_samples(paper, own, endpoint, *sci);
    }
}

/// Received frames of channels, by verdict.
fn channel_metric<D: SectorDisk>(paper: &mut Paper, own: Sci, endpoint: &Endpoint<D>)
    ensures { Writes paper.old paper.new (channel_metric (own_label own)
        (state_of endpoint.now no_logs) (rxsc.channel_counters_of endpoint.now.rx)) }
{
    let frames = Metric {
        name: "macsec_rx_channel_frames_total",
        own,
    };
    frames.describe(paper, "counter", "Received frames of a channel by verdict.");
    channels_samples(paper, own, endpoint);
}

/// A number of each wire, if it is known.
fn wire_metric(
    paper: &mut Paper,
    own: Sci,
    controlled: &WireReport,
    common: &WireReport,
    number: WireNumber,
)
    ensures { Writes paper.old paper.new
        (wire_metric (own_label own) controlled.now common.now number) }
{
    let metric = Metric {
        name: wire_metric_name(number),
        own,
    };
    metric.describe(paper, wire_kind(number), wire_help(number));
    metric.sample_of(paper, "wire", "1", wire_number(controlled, number));
    metric.sample_of(paper, "wire", "2", wire_number(common, number));
}

/// The numbers of the wires.
fn wires_metrics(paper: &mut Paper, own: Sci, controlled: &WireReport, common: &WireReport)
    ensures { Writes paper.old paper.new
        (wires_metrics (own_label own) controlled.now common.now) }
{
    for &number in &WIRE_NUMBERS {
        wire_metric(paper, own, controlled, common, number);
    }
}

/// How many packet numbers are left under a transmit association, if it exists.
fn left_sample<D: SectorDisk>(paper: &mut Paper, own: Sci, endpoint: &Endpoint<D>, an: An)
    ensures { Writes paper.old paper.new
        (left_sample (own_label own) (state_of endpoint.now no_logs) an) }
{
    let left = Metric {
        name: "macsec_tx_numbers_left",
        own,
    };
    if let Some(count) = left_of(endpoint.next_number(an)) {
        left.sample_at(paper, "an", u64::from(an.get()), count);
    }
}

/// How many packet numbers are left under each transmit association.
fn left_metric<D: SectorDisk>(paper: &mut Paper, own: Sci, endpoint: &Endpoint<D>)
    ensures { Writes paper.old paper.new
        (left_metric (own_label own) (state_of endpoint.now no_logs)) }
{
    let left = Metric {
        name: "macsec_tx_numbers_left",
        own,
    };
    left.describe(paper, "gauge", "Packet numbers left under a transmit key.");
    for an in An::all() {
        left_sample(paper, own, endpoint, an);
    }
}

/// How many keys may still be installed in each direction.
fn keys_metric(paper: &mut Paper, own: Sci, config: &Config)
    ensures { Writes paper.old paper.new (keys_metric (own_label own) (config_of config.now)) }
{
    let left = Metric {
        name: "macsec_keys_left",
        own,
    };
    left.describe(paper, "gauge", "Keys that may still be installed.");
    left.sample(paper, "side", "tx", keys_left(config.spent_tx()));
    left.sample(paper, "side", "rx", keys_left(config.spent_rx()));
}

/// The labels of a build's version and commit.
fn build_labels(paper: &mut Paper, build: &Build)
    ensures { Writes paper.old paper.new (codes ",version=\"" ++ (string_bytes build.now.version
        ++ (codes "\",commit=\"" ++ (string_bytes build.now.commit ++ codes "\"")))) }
{
    paper.put(",version=\"");
    paper.put(build.version.as_str());
    paper.put("\",commit=\"");
    paper.put(build.commit.as_str());
    paper.put("\"");
}

/// Which program reports, always 1.
fn build_sample(paper: &mut Paper, info: &Metric, build: &Build)
    ensures { Writes paper.old paper.new
        (sample info.now.name.now (build_labels (own_label info.now.own) build.now)
        (codes "proved") (string_bytes build.now.proved) 1) }
{
    info.begin_sample(paper);
    build_labels(paper, build);
    rest_of_sample(paper, "proved", build.proved.as_str(), 1);
}

/// The same with its description.
fn build_metric(paper: &mut Paper, own: Sci, build: &Build)
    ensures { Writes paper.old paper.new (build_metric (own_label own) build.now) }
{
    let info = Metric {
        name: "macsecd_build_info",
        own,
    };
    info.describe(paper, "gauge", "The program that reports, always 1.");
    build_sample(paper, &info, build);
}

/// All metrics, each of whose samples has the label of the endpoint.
fn metrics_of<D: SectorDisk>(
    paper: &mut Paper,
    own: Sci,
    build: &Build,
    endpoint: &Endpoint<D>,
    controlled: &WireReport,
    common: &WireReport,
)
    ensures { Writes paper.old paper.new
        (metrics_of (own_label own) build.now (state_of endpoint.now no_logs)
        (reserved_of endpoint.now) (txsc.counters_of endpoint.now.tx)
        (rxsc.counters_of endpoint.now.rx) (rxsc.channel_counters_of endpoint.now.rx)
        controlled.now common.now) }
{
    tx_metric(paper, own, endpoint);
    rx_metric(paper, own, endpoint);
    channel_metric(paper, own, endpoint);
    wires_metrics(paper, own, controlled, common);
    left_metric(paper, own, endpoint);
    keys_metric(paper, own, endpoint.config());
    reserved_metrics(paper, own, endpoint);
    build_metric(paper, own, build);
}

/// Writes the counters of an endpoint and of its wires in the Prometheus text format, version
/// 0.0.4, each with the endpoint's `sci` label, and which program reports them.
pub fn metric_lines<D: SectorDisk>(
    paper: &mut Paper,
    build: &Build,
    endpoint: &Endpoint<D>,
    controlled: &WireReport,
    common: &WireReport,
)
    ensures { Writes paper.old paper.new (metrics_text build.now (state_of endpoint.now no_logs)
        (reserved_of endpoint.now) (txsc.counters_of endpoint.now.tx)
        (rxsc.counters_of endpoint.now.rx) (rxsc.channel_counters_of endpoint.now.rx)
        controlled.now common.now) }
{
    let own = endpoint.identity().sci();
    metrics_of(paper, own, build, endpoint, controlled, common);
}
