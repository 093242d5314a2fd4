//! Metrics that are due each time, and keep what is written.

use super::clients::Asker;
use super::reserved::carrying;
use super::{attended, program, relay_between};
use macs_commands::requests::Metrics;
use macs_config::Command;
use macs_control::desk::{ControlDesk, Dropped, KeyNotes, NoteFault, Overruns, Time, report_paper};
use std::alloc::Global;
use std::process::Abort;

/// What was written. It is due `left` times more, and claims nothing.
#[derive(Drop)]
struct Written<'a, R: Abort> {
    rt: &'a R,
    left: u8,
    text: String,
}

impl<R: Abort> Metrics for Written<'_, R> {
    fn is_due(&mut self) -> bool {
        let is_due = self.left > 0;
        self.left = self.left.saturating_sub(1);
        is_due
    }

    fn put(&mut self, text: &[u8]) {
        let words = str::from_utf8(text).unwrap_or("no text");
        self.text.push_str(words).expect(self.rt, "memory");
    }
}

/// 17 datagrams were dropped of wire 1, and of wire 2 it is not known.
#[derive(Drop)]
struct FirstLost;

impl Overruns for FirstLost {
    fn dropped(&self) -> Dropped {
        Dropped {
            controlled: Some(17),
            common: None,
        }
    }
}

impl Time for FirstLost {
    fn seconds(&self) -> Option<u64> {
        None
    }
}

impl KeyNotes for FirstLost {
    fn note(&self, _command: &Command) -> Result<(), NoteFault> {
        Ok(())
    }
}

/// A desk whose metrics are due once.
fn due_once<R: Abort>(
    rt: &R,
    alloc: Global,
) -> ControlDesk<Asker<'_, R>, Written<'_, R>, FirstLost> {
    let metrics = Written {
        rt,
        left: 1,
        text: String::new(alloc),
    };
    ControlDesk::new(
        report_paper(alloc).expect(rt, "memory"),
        program(rt, alloc),
        Asker::new(rt, alloc, "show"),
        metrics,
        FirstLost,
    )
}

/// What is written of a new endpoint, by hand.
const NEW: &str = "\
# HELP macsec_tx_frames_total Plain frames by what was answered.
# TYPE macsec_tx_frames_total counter
macsec_tx_frames_total{sci=\"0200000000010001\",answer=\"protected\"} 0
macsec_tx_frames_total{sci=\"0200000000010001\",answer=\"runt\"} 0
macsec_tx_frames_total{sci=\"0200000000010001\",answer=\"too-long\"} 0
macsec_tx_frames_total{sci=\"0200000000010001\",answer=\"foreign-source\"} 0
macsec_tx_frames_total{sci=\"0200000000010001\",answer=\"no-encoding\"} 0
macsec_tx_frames_total{sci=\"0200000000010001\",answer=\"exhausted\"} 0
macsec_tx_frames_total{sci=\"0200000000010001\",answer=\"no-number\"} 0
# HELP macsec_rx_frames_total Received frames by verdict.
# TYPE macsec_rx_frames_total counter
macsec_rx_frames_total{sci=\"0200000000010001\",verdict=\"ok\"} 0
macsec_rx_frames_total{sci=\"0200000000010001\",verdict=\"delayed\"} 0
macsec_rx_frames_total{sci=\"0200000000010001\",verdict=\"invalid\"} 0
macsec_rx_frames_total{sci=\"0200000000010001\",verdict=\"untagged\"} 0
macsec_rx_frames_total{sci=\"0200000000010001\",verdict=\"unknown-sci\"} 0
macsec_rx_frames_total{sci=\"0200000000010001\",verdict=\"unused-sa\"} 0
macsec_rx_frames_total{sci=\"0200000000010001\",verdict=\"runt\"} 0
macsec_rx_frames_total{sci=\"0200000000010001\",verdict=\"oversize\"} 0
macsec_rx_frames_total{sci=\"0200000000010001\",verdict=\"no-tag\"} 0
macsec_rx_frames_total{sci=\"0200000000010001\",verdict=\"bad-tag\"} 0
macsec_rx_frames_total{sci=\"0200000000010001\",verdict=\"for-kay\"} 0
macsec_rx_frames_total{sci=\"0200000000010001\",verdict=\"no-sci\"} 0
macsec_rx_frames_total{sci=\"0200000000010001\",verdict=\"not-using-sa\"} 0
macsec_rx_frames_total{sci=\"0200000000010001\",verdict=\"late\"} 0
macsec_rx_frames_total{sci=\"0200000000010001\",verdict=\"not-valid\"} 0
# HELP macsec_rx_channel_frames_total Received frames of a channel by verdict.
# TYPE macsec_rx_channel_frames_total counter
# HELP macsec_wire_taken_total Frames taken off a wire.
# TYPE macsec_wire_taken_total counter
macsec_wire_taken_total{sci=\"0200000000010001\",wire=\"1\"} 0
macsec_wire_taken_total{sci=\"0200000000010001\",wire=\"2\"} 0
# HELP macsec_wire_too_long_total Frames taken off a wire that were too long, and dropped.
# TYPE macsec_wire_too_long_total counter
macsec_wire_too_long_total{sci=\"0200000000010001\",wire=\"1\"} 0
macsec_wire_too_long_total{sci=\"0200000000010001\",wire=\"2\"} 0
# HELP macsec_wire_sent_total Frames sent on a wire.
# TYPE macsec_wire_sent_total counter
macsec_wire_sent_total{sci=\"0200000000010001\",wire=\"1\"} 0
macsec_wire_sent_total{sci=\"0200000000010001\",wire=\"2\"} 0
# HELP macsec_wire_strangers_total Datagrams of another address than the peer's.
# TYPE macsec_wire_strangers_total counter
macsec_wire_strangers_total{sci=\"0200000000010001\",wire=\"1\"} 0
macsec_wire_strangers_total{sci=\"0200000000010001\",wire=\"2\"} 0
# HELP macsec_wire_failed_receives_total Receives that failed.
# TYPE macsec_wire_failed_receives_total counter
macsec_wire_failed_receives_total{sci=\"0200000000010001\",wire=\"1\"} 0
macsec_wire_failed_receives_total{sci=\"0200000000010001\",wire=\"2\"} 0
# HELP macsec_wire_failed_sends_total Sends that failed.
# TYPE macsec_wire_failed_sends_total counter
macsec_wire_failed_sends_total{sci=\"0200000000010001\",wire=\"1\"} 0
macsec_wire_failed_sends_total{sci=\"0200000000010001\",wire=\"2\"} 0
# HELP macsec_wire_buffer_octets Octets of waiting datagrams that the system keeps for a wire.
# TYPE macsec_wire_buffer_octets gauge
# HELP macsec_wire_overrun_total Datagrams that the system dropped, since a wire had no room for them.
# TYPE macsec_wire_overrun_total counter
macsec_wire_overrun_total{sci=\"0200000000010001\",wire=\"1\"} 17
# HELP macsec_tx_numbers_left Packet numbers left under a transmit key.
# TYPE macsec_tx_numbers_left gauge
# HELP macsec_keys_left Keys that may still be installed.
# TYPE macsec_keys_left gauge
macsec_keys_left{sci=\"0200000000010001\",side=\"tx\"} 512
macsec_keys_left{sci=\"0200000000010001\",side=\"rx\"} 512
# HELP macsec_tx_numbers_reserved Packet numbers reserved and not used, which a power loss would skip.
# TYPE macsec_tx_numbers_reserved gauge
# HELP macsec_rx_numbers_reserved Packet numbers reserved and not received, late after a power loss.
# TYPE macsec_rx_numbers_reserved gauge
# HELP macsecd_build_info The program that reports, always 1.
# TYPE macsecd_build_info gauge
macsecd_build_info{sci=\"0200000000010001\",version=\"7.8.9\",commit=\"abc\",proved=\"no\"} 1
";

/// What a desk has written is this text.
fn expect_written<R: Abort>(
    rt: &R,
    desk: ControlDesk<Asker<'_, R>, Written<'_, R>, FirstLost>,
    text: &str,
) {
    let (_asker, metrics) = desk.into_parts();
    assert!(rt; metrics.text.as_str() == text);
}

/// Three looks, of which the first alone finds them due.
#[test]
fn metrics_are_written_where_they_are_due(rt: HostRuntime) {
    let mut desk = due_once(&rt, rt.alloc());
    attended(&rt, rt.alloc(), &mut desk, 4);
    expect_written(&rt, desk, NEW);
}

/// The end of what is written of an endpoint with associations, by hand.
const CARRYING: &str = "\
# HELP macsec_tx_numbers_left Packet numbers left under a transmit key.
# TYPE macsec_tx_numbers_left gauge
macsec_tx_numbers_left{sci=\"0200000000010001\",an=\"2\"} 4294967292
# HELP macsec_keys_left Keys that may still be installed.
# TYPE macsec_keys_left gauge
macsec_keys_left{sci=\"0200000000010001\",side=\"tx\"} 511
macsec_keys_left{sci=\"0200000000010001\",side=\"rx\"} 510
# HELP macsec_tx_numbers_reserved Packet numbers reserved and not used, which a power loss would skip.
# TYPE macsec_tx_numbers_reserved gauge
macsec_tx_numbers_reserved{sci=\"0200000000010001\",an=\"2\"} 13
# HELP macsec_rx_numbers_reserved Packet numbers reserved and not received, late after a power loss.
# TYPE macsec_rx_numbers_reserved gauge
macsec_rx_numbers_reserved{sci=\"0200000000010001\",channel=\"0200000000020001\",an=\"1\"} 15
macsec_rx_numbers_reserved{sci=\"0200000000010001\",channel=\"0200000000020001\",an=\"3\"} 14
# HELP macsecd_build_info The program that reports, always 1.
# TYPE macsecd_build_info gauge
macsecd_build_info{sci=\"0200000000010001\",version=\"7.8.9\",commit=\"abc\",proved=\"no\"} 1
";

#[test]
fn metrics_are_written_of_each_association(rt: HostRuntime) {
    let mut desk = due_once(&rt, rt.alloc());
    relay_between(&rt, rt.alloc(), carrying(&rt, rt.alloc()), &mut desk, 4);
    let (_asker, metrics) = desk.into_parts();
    assert!(rt; metrics.text.as_str().ends_with(CARRYING));
}
