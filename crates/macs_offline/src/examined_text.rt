//! The report of `examine` on a journal, as text.

ghost use Rattle.std.specs.Prelude.{◌≡◌, List, codes, map, IfOk, string_bytes};
ghost use Rattle.std.specs.List.{concat};
ghost use Rattle.macs_config.specs.Value.{config_of};
ghost use Rattle.macs_record.specs.Heads.{version_of};
ghost use Rattle.macs_record.specs.declared.record.Record.{Record};
ghost use Rattle.macs_store.specs.Value.{standing_in};
ghost use Rattle.macs_texts.specs.Lines.{line};
ghost use Rattle.macs_texts.specs.Showing.{association_numbers};
ghost use Rattle.macs_offline.specs.Examining.{channel_ceilings_text, end_text};
ghost use Rattle.macs_offline.specs.Examining.{examined_text, figures_text};
ghost use Rattle.macs_offline.specs.Examining.{fault_line, number_line, part_line, rx_ceiling_line};
ghost use Rattle.macs_offline.specs.Examining.{rx_ceiling_text};
ghost use Rattle.macs_offline.specs.Examining.{tx_ceiling_line, tx_ceiling_text};
ghost use Rattle.macs_offline.specs.RecordLines.{records_text};

use macs_config::Config;
use macs_disk::{Layout, SectorDisk};
use macs_frame::{An, Sci};
use macs_journal::SLOTS;
use macs_record::{Ceiling, Format};
use macs_store::Store;
use macs_texts::{ended, joined};
use std::alloc::{AllocError, Global};

/// How many keys may be spent in each direction.
const SPENT: u64 = 512;

/// What recovery of a journal finds: the format of its current area, which of the two areas that
/// is, its generation, and how many of its slots are used.
#[derive(Clone, Copy)]
pub struct Figures {
    pub format: Format,
    pub area: u64,
    pub generation: u64,
    pub used: u64,
}

/// The number of a format.
fn format_number(format: Format) -> u64
    ensures { result ≡ version_of format }
{
    match format {
        Format::One => 1,
        Format::Two => 2,
    }
}

/// A line of a name and a number.
fn number_line(alloc: Global, name: &str, number: u64) -> Result<String, AllocError>
    ensures { IfOk result (λ text. string_bytes text ≡ number_line name.now number) }
{
    ended(format!(in alloc; "{name} {number}")?)
}

/// A line of a name, a number and its maximum.
fn part_line(alloc: Global, name: &str, number: u64, most: u64) -> Result<String, AllocError>
    ensures { IfOk result (λ text. string_bytes text ≡ part_line name.now number most) }
{
    ended(format!(in alloc; "{name} {number} of {most}")?)
}

/// The line for a bad journal, whose first fault is in this sector.
pub fn fault_line(alloc: Global, at: u64) -> Result<String, AllocError>
    ensures { IfOk result (λ text. string_bytes text ≡ fault_line at) }
{
    number_line(alloc, "fault in sector", at)
}

/// The line of a transmit association's ceiling, if it has one.
fn tx_line(alloc: Global, an: An, ceiling: Option<Ceiling>) -> Result<String, AllocError>
    ensures { IfOk result (λ text. string_bytes text ≡ tx_ceiling_line an ceiling) }
{
    match ceiling {
        None => Ok(String::new(alloc)),
        Some(ceiling) => {
            let an = an.get();
            let ceiling = ceiling.get();
            ended(format!(in alloc; "ceiling tx {an} {ceiling}")?)
        }
    }
}

/// The line of a receive association's ceiling, if it has one.
fn rx_line(alloc: Global, sci: Sci, an: An, ceiling: Option<Ceiling>) -> Result<String, AllocError>
    ensures { IfOk result (λ text. string_bytes text ≡ rx_ceiling_line sci an ceiling) }
{
    match ceiling {
        None => Ok(String::new(alloc)),
        Some(ceiling) => {
            let sci = hex::encode(alloc, sci.get())?;
            let an = an.get();
            let ceiling = ceiling.get();
            ended(format!(in alloc; "ceiling rx {sci} {an} {ceiling}")?)
        }
    }
}

/// The ceilings of the transmit associations, by number.
fn tx_text<D: SectorDisk>(alloc: Global, store: &Store<D>) -> Result<String, AllocError>
    ensures { IfOk result (λ text. string_bytes text
        ≡ concat (map (tx_ceiling_text (standing_in store.now)) association_numbers)) }
{
    let mut text = String::new(alloc);
    for an in An::all() {
        text.push_str(tx_line(alloc, an, store.tx_ceiling(an))?.as_str())?;
    }
    Ok(text)
}

/// The ceilings of a channel's associations, by number.
fn channel_text<D: SectorDisk>(
    alloc: Global,
    store: &Store<D>,
    sci: Sci,
) -> Result<String, AllocError>
    ensures { IfOk result
        (λ text. string_bytes text ≡ channel_ceilings_text (standing_in store.now) sci) }
{
    let mut text = String::new(alloc);
    for an in An::all() {
        text.push_str(rx_line(alloc, sci, an, store.rx_ceiling(sci, an))?.as_str())?;
    }
    Ok(text)
}

/// The ceilings of the channels with their associations.
fn channels_text<D: SectorDisk>(alloc: Global, store: &Store<D>) -> Result<String, AllocError>
    ensures { IfOk result (λ text. string_bytes text
        ≡ concat (map (channel_ceilings_text (standing_in store.now))
        (standing_in store.now).config.channels)) }
{
    let mut text = String::new(alloc);
    let channels = store.config().channels();
    for sci in channels.iter() {
        text.push_str(channel_text(alloc, store, *sci)?.as_str())?;
    }
    Ok(text)
}

/// The journal, in five lines.
fn figures_text(alloc: Global, layout: Layout, figures: Figures) -> Result<String, AllocError>
    ensures { IfOk result (λ text. string_bytes text ≡ figures_text layout figures) }
{
    let text = joined(
        number_line(alloc, "generation", figures.generation),
        part_line(alloc, "slots used", figures.used, SLOTS),
    );
    let text = joined(number_line(alloc, "area", figures.area), text);
    let text = joined(number_line(alloc, "block", layout.block()), text);
    joined(
        number_line(alloc, "format", format_number(figures.format)),
        text,
    )
}

/// States that the journal is whole.
fn line_of_whole_journal(alloc: Global) -> Result<String, AllocError>
    ensures { IfOk result (λ text. string_bytes text ≡ line (codes "whole")) }
{
    ended(String::from_str(alloc, "whole")?)
}

/// How many keys are spent in each direction, and that the journal is whole.
fn end_text(alloc: Global, config: &Config) -> Result<String, AllocError>
    ensures { IfOk result (λ text. string_bytes text ≡ end_text (config_of config.now)) }
{
    let text = joined(
        part_line(alloc, "spent rx", config.spent_rx() as u64, SPENT),
        line_of_whole_journal(alloc),
    );
    joined(
        part_line(alloc, "spent tx", config.spent_tx() as u64, SPENT),
        text,
    )
}

/// The report of `examine` on a journal with these figures and record lines, whose meaning is in a
/// store. Fails only if memory runs out.
pub fn examined_text<D: SectorDisk>(
    alloc: Global,
    layout: Layout,
    figures: Figures,
    lines: Result<String, AllocError>,
    store: &Store<D>,
) -> Result<String, AllocError>
    ensures { (records : List Record)
        → IfOk lines (λ text. string_bytes text ≡ records_text records) → IfOk result (λ text.
        string_bytes text ≡ examined_text layout figures records (standing_in store.now)) }
{
    let text = joined(channels_text(alloc, store), end_text(alloc, store.config()));
    let text = joined(tx_text(alloc, store), text);
    let text = joined(lines, text);
    joined(figures_text(alloc, layout, figures), text)
}
