//! `show`: the configuration of an endpoint and its packet numbers, as text.
#![tactic(auto, using(crate::proofs::Adding::joined, crate::proofs::Adding::empty))]

ghost use Rattle.std.specs.Prelude.{flat_map};
ghost use Rattle.macs_commands.specs.Papers.{Writes};
ghost use Rattle.macs_config.specs.Value.{config_of};
ghost use Rattle.macs_endpoint.specs.State.{no_logs};
ghost use Rattle.macs_endpoint.specs.Value.{state_of};
ghost use Rattle.macs_texts.specs.Showing.{association_numbers, blocks_line, channel_text};
ghost use Rattle.macs_texts.specs.Showing.{encoding_line, encoding_word, identity_lines};
ghost use Rattle.macs_texts.specs.Showing.{mode_line, protection_words, replay_line, rx_line};
ghost use Rattle.macs_texts.specs.Showing.{rx_text, sci_line, setting_lines, show_text};
ghost use Rattle.macs_texts.specs.Showing.{spent_line, tx_line, tx_text, validate_line};

use crate::lines::{Subject, numbered, put_name};
use macs_commands::{Paper, replay_word, sci_mode_word, validate_word};
use macs_config::{Config, Identity, Protection, Replay, RxSa, SciMode, TxSa, Validate};
use macs_disk::SectorDisk;
use macs_endpoint::Endpoint;
use macs_frame::{An, Sci};
use macs_rxsc::RxNumbers;

fn sci_line(paper: &mut Paper, identity: &Identity)
    ensures { Writes paper.old paper.new (sci_line identity.now) }
{
    paper.put("sci ");
    paper.hex(&identity.sci().get());
    paper.end_line();
}

fn blocks_line(paper: &mut Paper, identity: &Identity)
    ensures { Writes paper.old paper.new (blocks_line identity.now) }
{
    numbered(paper, "blocks tx ", u64::from(identity.tx_block()));
    numbered(paper, " rx ", u64::from(identity.rx_block()));
    paper.end_line();
}

/// The values given at formatting: the SCI, and the sizes of the packet number blocks.
fn identity_lines(paper: &mut Paper, identity: &Identity)
    ensures { Writes paper.old paper.new (identity_lines identity.now) }
{
    sci_line(paper, identity);
    blocks_line(paper, identity);
}

fn validate_line(paper: &mut Paper, validate: Validate)
    ensures { Writes paper.old paper.new (validate_line validate) }
{
    paper.put("validate ");
    paper.put(validate_word(validate));
    paper.end_line();
}

fn replay_line(paper: &mut Paper, replay: Replay)
    ensures { Writes paper.old paper.new (replay_line replay) }
{
    paper.put("replay ");
    paper.put(replay_word(replay.on));
    numbered(paper, " window ", u64::from(replay.window));
    paper.end_line();
}

fn mode_line(paper: &mut Paper, mode: SciMode)
    ensures { Writes paper.old paper.new (mode_line mode) }
{
    paper.put("sci-mode ");
    paper.put(sci_mode_word(mode));
    paper.end_line();
}

fn encoding_word(paper: &mut Paper, encoding: Option<An>)
    ensures { Writes paper.old paper.new (encoding_word encoding) }
{
    match encoding {
        None => paper.put("none"),
        Some(an) => paper.number(u64::from(an.get())),
    }
}

/// The association that frames are sent under.
fn encoding_line(paper: &mut Paper, encoding: Option<An>)
    ensures { Writes paper.old paper.new (encoding_line encoding) }
{
    paper.put("encoding ");
    encoding_word(paper, encoding);
    paper.end_line();
}

/// The settings.
fn setting_lines(paper: &mut Paper, config: &Config)
    ensures { Writes paper.old paper.new (setting_lines (config_of config.now)) }
{
    validate_line(paper, config.validate());
    replay_line(paper, config.replay());
    mode_line(paper, config.sci_mode());
    encoding_line(paper, config.encoding());
}

/// What a transmit association does with User Data.
fn protection_words(paper: &mut Paper, protection: Protection)
    ensures { Writes paper.old paper.new (protection_words protection) }
{
    match protection {
        Protection::Integrity => paper.put("integrity"),
        Protection::Confidentiality(offset) => {
            numbered(paper, "confidential offset ", u64::from(offset.get()));
        }
    }
}

fn tx_line(paper: &mut Paper, an: An, sa: &TxSa, next: u64)
    ensures { Writes paper.old paper.new (tx_line an sa.now next) }
{
    put_name(paper, Subject::Tx(an));
    paper.put(" ");
    protection_words(paper, sa.protection);
    numbered(paper, " next ", next);
    paper.end_line();
}

fn rx_line(paper: &mut Paper, sci: Sci, an: An, sa: &RxSa, numbers: RxNumbers)
    ensures { Writes paper.old paper.new (rx_line sci an sa.now numbers.next numbers.lowest) }
{
    put_name(paper, Subject::Rx(sci, an));
    numbered(paper, " offset ", u64::from(sa.offset.get()));
    numbered(paper, " next ", numbers.next);
    numbered(paper, " lowest ", numbers.lowest);
    paper.end_line();
}

/// A transmit association and its next packet number, if they exist.
fn tx_text<D: SectorDisk>(paper: &mut Paper, endpoint: &Endpoint<D>, an: An)
    ensures { Writes paper.old paper.new (tx_text (state_of endpoint.now no_logs) an) }
{
    let Some(sa) = endpoint.config().tx(an) else {
        return;
    };
    let Some(next) = endpoint.next_number(an) else {
        return;
    };
    tx_line(paper, an, &sa, next);
}

/// A receive association, its next and its lowest acceptable packet number, if they exist.
fn rx_text<D: SectorDisk>(paper: &mut Paper, endpoint: &Endpoint<D>, sci: Sci, an: An)
    ensures { Writes paper.old paper.new (rx_text (state_of endpoint.now no_logs) sci an) }
{
    let Some(sa) = endpoint.config().rx(sci, an) else {
        return;
    };
    let Some(numbers) = endpoint.numbers(sci, an) else {
        return;
    };
    rx_line(paper, sci, an, &sa, numbers);
}

/// The transmit associations, by number.
fn tx_texts<D: SectorDisk>(paper: &mut Paper, endpoint: &Endpoint<D>)
    ensures { Writes paper.old paper.new
        (flat_map (tx_text (state_of endpoint.now no_logs)) association_numbers) }
{
    for an in An::all() {
        tx_text(paper, endpoint, an);
    }
}

/// A channel's associations, by number.
fn rx_texts<D: SectorDisk>(paper: &mut Paper, endpoint: &Endpoint<D>, sci: Sci)
    ensures { Writes paper.old paper.new
        (flat_map (rx_text (state_of endpoint.now no_logs) sci) association_numbers) }
{
    for an in An::all() {
        rx_text(paper, endpoint, sci, an);
    }
}

/// A channel, and its associations by number.
fn channel_text<D: SectorDisk>(paper: &mut Paper, endpoint: &Endpoint<D>, sci: Sci)
    ensures { Writes paper.old paper.new (channel_text (state_of endpoint.now no_logs) sci) }
{
    put_name(paper, Subject::Channel(sci));
    paper.end_line();
    rx_texts(paper, endpoint, sci);
}

/// The channels with their associations.
fn channel_texts<D: SectorDisk>(paper: &mut Paper, endpoint: &Endpoint<D>)
    ensures { Writes paper.old paper.new
        (flat_map (channel_text (state_of endpoint.now no_logs))
        (state_of endpoint.now no_logs).config.channels) }
{
    let channels = endpoint.config().channels();
    for sci in channels.iter() {
        channel_text(paper, endpoint, *sci);
    }
}

/// How many keys are spent in each direction.
fn spent_line(paper: &mut Paper, config: &Config)
    ensures { Writes paper.old paper.new (spent_line (config_of config.now)) }
{
    numbered(paper, "spent tx ", config.spent_tx() as u64);
    numbered(paper, " rx ", config.spent_rx() as u64);
    paper.end_line();
}

/// Writes the output of `show` for an endpoint.
pub fn show_lines<D: SectorDisk>(paper: &mut Paper, endpoint: &Endpoint<D>)
    ensures { Writes paper.old paper.new (show_text (state_of endpoint.now no_logs)) }
{
    let config = endpoint.config();
    identity_lines(paper, &endpoint.identity());
    setting_lines(paper, config);
    tx_texts(paper, endpoint);
    channel_texts(paper, endpoint);
    spent_line(paper, config);
}
