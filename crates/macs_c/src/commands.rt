//! Commands of an operator, as a C program passes them.

ghost use Rattle.std.specs.Prelude.{◌≡◌, ◌<◌, ◌↔◌, IfSome, IsSome};
ghost use Rattle.macs_c.specs.Commands.{NamesCommand, flag_number};

use crate::fields::MacsSci;
use crate::keys::{MacsKey, key_of};
use macs_config::{Command, SciMode, Validate};
use macs_fields::{An, Sci};

/// A command. Its kind says which one it is, and which of the other fields are read.
#[repr(C)]
pub struct MacsCommand {
    /// 1 set-validate, 2 set-replay, 3 set-sci-mode, 4 tx-install, 5 tx-use, 6 tx-remove, 7 rx-add,
    /// 8 rx-drop, 9 rx-install, 10 rx-remove.
    pub kind: u32,
    /// The first packet number of an association that is installed (4, 9): 0 is refused when the
    /// command's turn comes.
    pub start: u32,
    /// The replay window, in packet numbers (2).
    pub window: u32,
    /// The association number, 0 to 3 (4, 5, 6, 9, 10).
    pub an: u8,
    /// Strict 0 or check 1 (1); replay protection off 0 or on 1 (2); implicit 0, explicit 1 or end
    /// station 2 (3); integrity alone 0 or confidentiality 1 (4).
    pub choice: u8,
    /// The confidentiality offset in octets (4, 9): all but 0, 30 and 50 are refused when the
    /// command's turn comes.
    pub offset: u8,
    /// The receive channel (7, 8, 9, 10).
    pub sci: MacsSci,
    /// The key, of 16 or 32 octets (4, 9).
    pub key: MacsKey,
}

/// Off or on; `None` for a number greater than 1.
fn flag_of(choice: u8) -> Option<bool>
    ensures within { IsSome result ↔ (choice < 2) }
    ensures value { IfSome result (λ on. choice ≡ flag_number on) }
{
    match choice {
        0 => Some(false),
        1 => Some(true),
        _ => None,
    }
}

/// What is done with received frames that do not verify. `None` for a choice above 1.
fn set_validate(command: &MacsCommand) -> Option<Command>
    requires { command.now.kind ≡ 1 }
    ensures { NamesCommand command.now result }
{
    match command.choice {
        0 => Some(Command::SetValidate(Validate::Strict)),
        1 => Some(Command::SetValidate(Validate::Check)),
        _ => None,
    }
}

/// Replay protection and its window. `None` for a choice above 1.
fn set_replay(command: &MacsCommand) -> Option<Command>
    requires { command.now.kind ≡ 2 }
    ensures { NamesCommand command.now result }
{
    let on = flag_of(command.choice)?;
    Some(Command::SetReplay {
        on,
        window: command.window,
    })
}

/// How transmitted frames name the channel. `None` for a choice above 2.
fn set_sci_mode(command: &MacsCommand) -> Option<Command>
    requires { command.now.kind ≡ 3 }
    ensures { NamesCommand command.now result }
{
    match command.choice {
        0 => Some(Command::SetSciMode(SciMode::Implicit)),
        1 => Some(Command::SetSciMode(SciMode::Explicit)),
        2 => Some(Command::SetSciMode(SciMode::EndStation)),
        _ => None,
    }
}

/// A new transmit association. `None` for an association number above 3, a key that has neither 16
/// nor 32 octets, or a choice above 1.
fn tx_install(command: &MacsCommand) -> Option<Command>
    requires { command.now.kind ≡ 4 }
    ensures { NamesCommand command.now result }
{
    let an = An::new(command.an)?;
    let key = key_of(&command.key)?;
    let confidential = flag_of(command.choice)?;
    Some(Command::TxInstall {
        an,
        key,
        start: command.start,
        confidential,
        offset: command.offset,
    })
}

/// The transmit association that is used. `None` for a number above 3.
fn tx_use(command: &MacsCommand) -> Option<Command>
    requires { command.now.kind ≡ 5 }
    ensures { NamesCommand command.now result }
{
    let an = An::new(command.an)?;
    Some(Command::TxUse { an })
}

/// A transmit association that is removed. `None` for a number above 3.
fn tx_remove(command: &MacsCommand) -> Option<Command>
    requires { command.now.kind ≡ 6 }
    ensures { NamesCommand command.now result }
{
    let an = An::new(command.an)?;
    Some(Command::TxRemove { an })
}

/// A new receive association. `None` for an association number above 3, or a key that has neither
/// 16 nor 32 octets.
fn rx_install(command: &MacsCommand) -> Option<Command>
    requires { command.now.kind ≡ 9 }
    ensures { NamesCommand command.now result }
{
    let an = An::new(command.an)?;
    let key = key_of(&command.key)?;
    Some(Command::RxInstall {
        sci: Sci(command.sci.octets),
        an,
        key,
        start: command.start,
        offset: command.offset,
    })
}

/// A receive association that is removed. `None` for a number above 3.
fn rx_remove(command: &MacsCommand) -> Option<Command>
    requires { command.now.kind ≡ 10 }
    ensures { NamesCommand command.now result }
{
    let an = An::new(command.an)?;
    Some(Command::RxRemove {
        sci: Sci(command.sci.octets),
        an,
    })
}

/// The command, `None` if its kind is none, or a field that it reads is out of its range.
pub(crate) fn command_from_c(command: &MacsCommand) -> Option<Command>
    ensures { NamesCommand command.now result }
{
    match command.kind {
        1 => set_validate(command),
        2 => set_replay(command),
        3 => set_sci_mode(command),
        4 => tx_install(command),
        5 => tx_use(command),
        6 => tx_remove(command),
        7 => Some(Command::RxAdd {
            sci: Sci(command.sci.octets),
        }),
        8 => Some(Command::RxDrop {
            sci: Sci(command.sci.octets),
        }),
        9 => rx_install(command),
        10 => rx_remove(command),
        _ => None,
    }
}
