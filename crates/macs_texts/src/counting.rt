//! The counters of an endpoint and of its wires, as text.
#![tactic(auto, using(crate::proofs::Adding::joined, crate::proofs::Adding::empty))]

ghost use Rattle.std.specs.Prelude.{◌≡◌, ◌-◌, ◌^◌, flat_map};
ghost use Rattle.std.specs.Option.{option_map};
ghost use Rattle.macs_commands.specs.Papers.{Writes};
ghost use Rattle.macs_config.specs.Config.{max_spent};
ghost use Rattle.macs_config.specs.Value.{config_of};
ghost use Rattle.macs_endpoint.specs.Reserved.{reserved_of};
ghost use Rattle.macs_endpoint.specs.State.{no_logs};
ghost use Rattle.macs_endpoint.specs.Value.{state_of};
ghost use Rattle.macs_rxsc.specs.Value as rxsc;
ghost use Rattle.macs_txsc.specs.Value as txsc;
ghost use Rattle.macs_texts.specs.Counting.{channel_text, counters_text, keys_text, left_line};
ghost use Rattle.macs_texts.specs.Counting.{left_text, report_text, rx_text, tx_text};
ghost use Rattle.macs_texts.specs.Lines.{channel_name, count_line_of};

use crate::lines::{Subject, count_line, count_line_of, counted, numbered, put_name};
use crate::reserved::reserved_lines;
use crate::wire_report::{WIRE_NUMBERS, WireReport, wire_number};
use crate::words::{fault_words, verdict_words, wire_words};
use macs_commands::Paper;
use macs_config::{Config, MAX_SPENT};
use macs_disk::SectorDisk;
use macs_endpoint::Endpoint;
use macs_frame::{An, Sci};
use macs_rxsc::{CHANNEL_VERDICTS, VERDICTS};
use macs_txsc::TxFault;

/// The faults that are counted, in the order in which they are checked.
pub(crate) const TX_FAULTS: [TxFault; 6] = [
    TxFault::Runt,
    TxFault::TooLong,
    TxFault::ForeignSource,
    TxFault::NoEncodingSa,
    TxFault::Exhausted,
    TxFault::NoNumber,
];

/// One more than the greatest packet number (IEEE Std 802.1AE-2018, 9.8).
const NUMBERS: u64 = 1 << 32;

/// How many packet numbers are left, given the next one.
pub(crate) fn left_of(next: Option<u64>) -> Option<u64>
    ensures { result ≡ option_map (λ n. 2 ^ 32 - n) next }
{
    let next = next?;
    Some(NUMBERS.saturating_sub(next))
}

/// How many keys may still be installed in a direction, given how many are spent.
pub(crate) fn keys_left(spent: usize) -> u64
    ensures { result ≡ max_spent - spent }
{
    MAX_SPENT.saturating_sub(spent) as u64
}

/// How many plain frames were protected, and how many met each fault.
fn tx_lines<D: SectorDisk>(paper: &mut Paper, endpoint: &Endpoint<D>)
    ensures { Writes paper.old paper.new (tx_text (txsc.counters_of endpoint.now.tx)) }
{
    let counters = endpoint.counters();
    count_line(paper, "tx", "protected", counters.protected());
    for &fault in &TX_FAULTS {
        count_line(paper, "tx", fault_words(fault), counters.tx_fault(fault));
    }
}

/// How often each verdict was given.
fn rx_lines<D: SectorDisk>(paper: &mut Paper, endpoint: &Endpoint<D>)
    ensures { Writes paper.old paper.new (rx_text (rxsc.counters_of endpoint.now.rx)) }
{
    let counters = endpoint.counters();
    for &verdict in &VERDICTS {
        count_line(
            paper,
            "rx",
            verdict_words(verdict),
            counters.verdict(verdict),
        );
    }
}

/// Writes the line of a count of a channel, if there is one.
fn channel_count(paper: &mut Paper, sci: Sci, what: &str, count: Option<u64>)
    ensures { Writes paper.old paper.new (count_line_of (channel_name sci) what.now count) }
{
    if let Some(count) = count {
        put_name(paper, Subject::Channel(sci));
        counted(paper, what, count);
    }
}

/// How often each verdict was given on frames of a channel.
fn channel_lines<D: SectorDisk>(paper: &mut Paper, endpoint: &Endpoint<D>, sci: Sci)
    ensures { Writes paper.old paper.new
        (channel_text (rxsc.channel_counters_of endpoint.now.rx) sci) }
{
    let counters = endpoint.counters();
    for &verdict in &CHANNEL_VERDICTS {
        let count = counters.channel(sci, verdict);
        channel_count(paper, sci, verdict_words(verdict), count);
    }
}

/// The same for each channel.
fn channels_lines<D: SectorDisk>(paper: &mut Paper, endpoint: &Endpoint<D>)
    ensures { Writes paper.old paper.new
        (flat_map (channel_text (rxsc.channel_counters_of endpoint.now.rx))
        (state_of endpoint.now no_logs).config.channels) }
{
    let channels = endpoint.config().channels();
    for sci in channels.iter() {
        channel_lines(paper, endpoint, *sci);
    }
}

/// The numbers of a wire that are known.
fn wire_lines(paper: &mut Paper, side: &str, wire: &WireReport)
    ensures { Writes paper.old paper.new (report_text side.now wire.now) }
{
    for &number in &WIRE_NUMBERS {
        count_line_of(paper, side, wire_words(number), wire_number(wire, number));
    }
}

/// How many packet numbers are left under a transmit association, if it exists.
fn left_line<D: SectorDisk>(paper: &mut Paper, endpoint: &Endpoint<D>, an: An)
    ensures { Writes paper.old paper.new (left_line (state_of endpoint.now no_logs) an) }
{
    if let Some(left) = left_of(endpoint.next_number(an)) {
        paper.put("left tx");
        numbered(paper, " ", u64::from(an.get()));
        numbered(paper, " ", left);
        paper.end_line();
    }
}

/// The same for each.
fn left_lines<D: SectorDisk>(paper: &mut Paper, endpoint: &Endpoint<D>)
    ensures { Writes paper.old paper.new (left_text (state_of endpoint.now no_logs)) }
{
    for an in An::all() {
        left_line(paper, endpoint, an);
    }
}

/// How many keys may still be installed in each direction.
fn key_lines(paper: &mut Paper, config: &Config)
    ensures { Writes paper.old paper.new (keys_text (config_of config.now)) }
{
    count_line(paper, "left keys", "tx", keys_left(config.spent_tx()));
    count_line(paper, "left keys", "rx", keys_left(config.spent_rx()));
}

/// Writes the counters of an endpoint and of its wires, one per line; the last ones are of packet
/// numbers and keys that are left, and of numbers that are reserved and not used.
pub fn counter_lines<D: SectorDisk>(
    paper: &mut Paper,
    endpoint: &Endpoint<D>,
    controlled: &WireReport,
    common: &WireReport,
)
    ensures { Writes paper.old paper.new (counters_text (state_of endpoint.now no_logs)
        (reserved_of endpoint.now) (txsc.counters_of endpoint.now.tx)
        (rxsc.counters_of endpoint.now.rx) (rxsc.channel_counters_of endpoint.now.rx)
        controlled.now common.now) }
{
    tx_lines(paper, endpoint);
    rx_lines(paper, endpoint);
    channels_lines(paper, endpoint);
    wire_lines(paper, "wire 1", controlled);
    wire_lines(paper, "wire 2", common);
    left_lines(paper, endpoint);
    key_lines(paper, endpoint.config());
    reserved_lines(paper, endpoint);
}
