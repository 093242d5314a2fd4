//! Commands as lines.

ghost use Rattle.std.specs.Prelude.{◌≡◌, ◌++◌, codes};
ghost use Rattle.std.specs.Fmt.{decimal};
ghost use Rattle.hex.specs.Hex.{encode_lower};
ghost use Rattle.macs_config.specs.declared.command.Command.TheVariants as told;
ghost use Rattle.macs_commands.specs.CommandLines.{command_line, fields_of};
ghost use Rattle.macs_commands.specs.Papers.{Writes};

use crate::command_word::CommandWord;
use crate::modes::{protection_word, replay_word, sci_mode_word, validate_word};
use crate::paper::Paper;
use macs_aes::Key;
use macs_config::Command;
use macs_fields::{An, Sci};

/// Writes a text and a blank.
fn put_word(paper: &mut Paper, text: &str)
    ensures { Writes paper.old paper.new (text.now ++ codes " ") }
{
    paper.put(text);
    paper.put(" ");
}

/// Writes a number, in decimal digits, and a blank.
fn put_number(paper: &mut Paper, number: u32)
    ensures { Writes paper.old paper.new (decimal number ++ codes " ") }
{
    paper.number(u64::from(number));
    paper.put(" ");
}

/// Writes octets, in hex digits, and a blank.
fn put_hex(paper: &mut Paper, octets: &[u8])
    ensures { Writes paper.old paper.new (encode_lower octets.now ++ codes " ") }
{
    paper.hex(octets);
    paper.put(" ");
}

/// Writes an association number, in decimal digits.
fn write_an(paper: &mut Paper, an: An)
    ensures { Writes paper.old paper.new (decimal an) }
{
    paper.number(u64::from(an.get()));
}

/// Writes an SCI, in hex digits.
fn write_sci(paper: &mut Paper, sci: Sci)
    ensures { Writes paper.old paper.new (encode_lower sci) }
{
    paper.hex(&sci.get());
}

fn write_replay(paper: &mut Paper, on: bool, window: u32)
    ensures { Writes paper.old paper.new (fields_of (told.SetReplay on window)) }
{
    put_word(paper, replay_word(on));
    paper.number(u64::from(window));
}

fn write_tx_install(paper: &mut Paper, an: An, key: Key, start: u32, confidential: bool, offset: u8)
    ensures { Writes paper.old paper.new
        (fields_of (told.TxInstall an key start confidential offset)) }
{
    put_number(paper, u32::from(an.get()));
    put_hex(paper, key.as_slice());
    put_number(paper, start);
    put_word(paper, protection_word(confidential));
    paper.number(u64::from(offset));
}

fn write_rx_install(paper: &mut Paper, sci: Sci, an: An, key: Key, start: u32, offset: u8)
    ensures { Writes paper.old paper.new (fields_of (told.RxInstall sci an key start offset)) }
{
    put_hex(paper, &sci.get());
    put_number(paper, u32::from(an.get()));
    put_hex(paper, key.as_slice());
    put_number(paper, start);
    paper.number(u64::from(offset));
}

fn write_rx_remove(paper: &mut Paper, sci: Sci, an: An)
    ensures { Writes paper.old paper.new (fields_of (told.RxRemove sci an)) }
{
    put_hex(paper, &sci.get());
    write_an(paper, an);
}

/// Writes the fields of a command.
fn write_fields(paper: &mut Paper, command: &Command)
    ensures { Writes paper.old paper.new (fields_of command.now) }
{
    match *command {
        Command::SetValidate(mode) => paper.put(validate_word(mode)),
        Command::SetReplay { on, window } => write_replay(paper, on, window),
        Command::SetSciMode(mode) => paper.put(sci_mode_word(mode)),
        Command::TxInstall {
            an,
            key,
            start,
            confidential,
            offset,
        } => write_tx_install(paper, an, key, start, confidential, offset),
        Command::TxUse { an } | Command::TxRemove { an } => write_an(paper, an),
        Command::RxAdd { sci } | Command::RxDrop { sci } => write_sci(paper, sci),
        Command::RxInstall {
            sci,
            an,
            key,
            start,
            offset,
        } => write_rx_install(paper, sci, an, key, start, offset),
        Command::RxRemove { sci, an } => write_rx_remove(paper, sci, an),
    }
}

/// Writes the line of a command, without its line feed: its word and its fields, with a blank
/// before each.
///
/// | word | fields |
/// |---|---|
/// | `set-validate` | `strict` or `check` |
/// | `set-replay` | `on` or `off`, window |
/// | `set-sci-mode` | `explicit`, `end-station` or `implicit` |
/// | `tx-install` | AN, key, start, `confidential` or `integrity`, offset |
/// | `tx-use`, `tx-remove` | AN |
/// | `rx-add`, `rx-drop` | SCI |
/// | `rx-install` | SCI, AN, key, start, offset |
/// | `rx-remove` | SCI, AN |
///
/// Numbers are decimal, keys and SCIs are in lower-case hex digits.
pub(crate) fn write_command(paper: &mut Paper, command: &Command)
    ensures { Writes paper.old paper.new (command_line command.now) }
{
    put_word(paper, CommandWord::of(command).text());
    write_fields(paper, command);
}
