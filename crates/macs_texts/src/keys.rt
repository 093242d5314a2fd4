//! Which keys are installed, as text.
#![tactic(auto, using(crate::proofs::Adding::joined, crate::proofs::Adding::empty))]

ghost use Rattle.std.specs.Prelude.{flat_map};
ghost use Rattle.macs_commands.specs.Papers.{Writes};
ghost use Rattle.macs_config.specs.Value.{config_of};
ghost use Rattle.macs_texts.specs.KeyTexts.{channel_keys, key_line, keys_text, rx_key_text};
ghost use Rattle.macs_texts.specs.KeyTexts.{tx_key_text};
ghost use Rattle.macs_texts.specs.Lines.{name_of};
ghost use Rattle.macs_texts.specs.Showing.{association_numbers};

use crate::key_names::key_id;
use crate::lines::{Subject, numbered, put_name};
use macs_aes::KeyOctets;
use macs_commands::Paper;
use macs_config::Config;
use macs_fields::{An, Sci};

/// The key of an association: its length, in bits, and its identifier.
fn key_line(paper: &mut Paper, whose: Subject, key: KeyOctets)
    ensures { Writes paper.old paper.new (key_line (name_of whose) key) }
{
    let octets = key.as_slice();
    put_name(paper, whose);
    numbered(paper, " key ", 8 * octets.len() as u64);
    paper.put(" id ");
    key_id(paper, octets);
    paper.end_line();
}

/// The key of a transmit association, if it exists.
fn tx_key_text(paper: &mut Paper, config: &Config, an: An)
    ensures { Writes paper.old paper.new (tx_key_text (config_of config.now) an) }
{
    if let Some(sa) = config.tx(an) {
        key_line(paper, Subject::Tx(an), sa.key);
    }
}

/// The key of a receive association, if it exists.
fn rx_key_text(paper: &mut Paper, config: &Config, sci: Sci, an: An)
    ensures { Writes paper.old paper.new (rx_key_text (config_of config.now) sci an) }
{
    if let Some(sa) = config.rx(sci, an) {
        key_line(paper, Subject::Rx(sci, an), sa.key);
    }
}

/// The keys of the transmit associations, by number.
fn tx_keys(paper: &mut Paper, config: &Config)
    ensures { Writes paper.old paper.new
        (flat_map (tx_key_text (config_of config.now)) association_numbers) }
{
    for an in An::all() {
        tx_key_text(paper, config, an);
    }
}

/// The keys of a channel's associations, by number.
fn channel_keys(paper: &mut Paper, config: &Config, sci: Sci)
    ensures { Writes paper.old paper.new (channel_keys (config_of config.now) sci) }
{
    for an in An::all() {
        rx_key_text(paper, config, sci, an);
    }
}

/// The keys of all channels.
fn rx_keys(paper: &mut Paper, config: &Config)
    ensures { Writes paper.old paper.new
        (flat_map (channel_keys (config_of config.now)) (config_of config.now).channels) }
{
    let channels = config.channels();
    for sci in channels.iter() {
        channel_keys(paper, config, *sci);
    }
}

/// Writes a line for each installed key: its association, its length in bits, and its identifier.
/// The keys themselves are not shown.
pub fn keys_lines(paper: &mut Paper, config: &Config)
    ensures { Writes paper.old paper.new (keys_text (config_of config.now)) }
{
    tx_keys(paper, config);
    rx_keys(paper, config);
}
