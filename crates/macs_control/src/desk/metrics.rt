//! The counters for a metrics collector.

ghost use Rattle.std.specs.Prelude.{◌≡◌, List};
ghost use Rattle.macs_commands.specs.InTurn.{InTurn};
ghost use Rattle.macs_commands.specs.Papers.{Writes};
ghost use Rattle.macs_commands.specs.Talks.{Note};
ghost use Rattle.macs_control.specs.Listening.{IsKnown, Measures, measured_of, report_room};
ghost use Rattle.macs_control.specs.declared.desk.overruns.Dropped.{Dropped};

use crate::desk::overruns::{Dropped, Overruns};
use macs_commands::Paper;
use macs_commands::requests::Metrics;
use macs_disk::SectorDisk;
use macs_edge::WireCounts;
use macs_endpoint::Endpoint;
use macs_texts::{Build, metric_lines, reported};

/// Writes the metrics, with what the system dropped.
fn measured<D: SectorDisk, O: Overruns>(
    paper: &mut Paper,
    build: &Build,
    endpoint: &Endpoint<D>,
    controlled: &WireCounts,
    common: &WireCounts,
    overruns: &O,
)
    ensures { (dropped : Dropped) × IsKnown (O.known overruns.now) dropped
        × Writes paper.old paper.new
        (measured_of build.now endpoint.now controlled.now common.now dropped) }
{
    let Dropped {
        controlled: first,
        common: second,
    } = overruns.dropped();
    let controlled = reported(*controlled, first);
    let common = reported(*common, second);
    metric_lines(paper, build, endpoint, &controlled, &common);
}

/// Writes the metrics to their file, if they are due and not too long.
pub fn measure<D: SectorDisk, O: Overruns, M: Metrics>(
    paper: &mut Paper,
    build: &Build,
    endpoint: &Endpoint<D>,
    controlled: &WireCounts,
    common: &WireCounts,
    overruns: &O,
    metrics: &mut M,
)
    requires { paper.old.room ≡ report_room }
    ensures notes { (notes : List Note)
        × Measures (O.known overruns.now)
        (measured_of build.now endpoint.now controlled.now common.now) notes
        × InTurn M.does metrics.old notes metrics.new }
    ensures room { paper.new.room ≡ report_room }
{
    if !metrics.is_due() {
        return;
    }
    paper.clear();
    measured(paper, build, endpoint, controlled, common, overruns);
    match paper.text() {
        Some(text) => metrics.put(text),
        None => {}
    }
}
