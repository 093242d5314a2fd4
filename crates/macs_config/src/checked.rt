//! The verdict of a command's check.

ghost use Rattle.std.specs.Prelude.{◌≡◌};
ghost use Rattle.macs_aes.specs.Keys.{key_of_octets};
ghost use Rattle.macs_config.specs.Judged.{IsJudged, asked_by};

use crate::association::{RxSa, TxSa};
use crate::command::{Command, SciMode, Validate};
use crate::fingerprint::Fingerprint;
use macs_aes::{Key, KeyOctets};
use macs_fields::{An, Pn, Sci};
use std::marker::Model;

/// The verdict on a command, in the types of what it changes. An install has its association, its
/// first packet number, and the fingerprint of its key.
#[derive(Clone, Copy)]
pub enum Judged {
    SetValidate(Validate),
    SetReplay {
        on: bool,
        window: u32,
    },
    SetSciMode(SciMode),
    TxInstall {
        an: An,
        sa: TxSa,
        start: Pn,
        fingerprint: Fingerprint,
    },
    TxUse {
        an: An,
    },
    TxRemove {
        an: An,
    },
    RxAdd {
        sci: Sci,
    },
    RxDrop {
        sci: Sci,
    },
    RxInstall {
        sci: Sci,
        an: An,
        sa: RxSa,
        start: Pn,
        fingerprint: Fingerprint,
    },
    RxRemove {
        sci: Sci,
        an: An,
    },
}

/// A command that a configuration does not refuse, with the verdict of its check. It fits that
/// configuration, or one with the same contents; in contracts its value is the command.
#[derive(Clone, Copy)]
pub struct Checked {
    judged: Judged,
}

impl Model for Checked {
    ghost use Rattle.macs_config.specs.Judged.{IsJudged, asked_by, judged_of};
    ghost use Rattle.macs_config.specs.Judged.{judged_of-asked_by};
    ghost use Rattle.macs_config.specs.declared.command.Command.{Command};

    ghost Value = { Command };

    ghost view = { λ c. asked_by c.judged };

    ghost invariant = { λ c. IsJudged c.judged };

    ghost inverse = { λ command. record { judged = judged_of command } };

    ghost inverse_ok = { λ c h i. record { judged = judged_of-asked_by c.judged h i } };
}

impl Checked {
    /// From a verdict.
    pub(crate) fn of(judged: Judged) -> Checked
        requires { IsJudged judged }
        ensures { result ≡ asked_by judged }
    {
        Checked { judged }
    }

    /// The verdict.
    pub fn judged(&self) -> &Judged
        ensures asked { asked_by result.now ≡ self.now }
        ensures judged { IsJudged result.now }
    {
        &self.judged
    }

    /// The command that was checked.
    pub fn command(&self) -> Command
        ensures { result ≡ self.now }
    {
        asked_by(&self.judged)
    }
}

/// The command with this verdict.
fn asked_by(judged: &Judged) -> Command
    ensures { result ≡ asked_by judged.now }
{
    match *judged {
        Judged::SetValidate(validate) => Command::SetValidate(validate),
        Judged::SetReplay { on, window } => Command::SetReplay { on, window },
        Judged::SetSciMode(mode) => Command::SetSciMode(mode),
        Judged::TxInstall { an, sa, start, .. } => Command::TxInstall {
            an,
            key: key_of(sa.key),
            start: start.get(),
            confidential: sa.protection.is_confidential(),
            offset: sa.protection.offset().get(),
        },
        Judged::TxUse { an } => Command::TxUse { an },
        Judged::TxRemove { an } => Command::TxRemove { an },
        Judged::RxAdd { sci } => Command::RxAdd { sci },
        Judged::RxDrop { sci } => Command::RxDrop { sci },
        Judged::RxInstall {
            sci,
            an,
            sa,
            start,
            ..
        } => Command::RxInstall {
            sci,
            an,
            key: key_of(sa.key),
            start: start.get(),
            offset: sa.offset.get(),
        },
        Judged::RxRemove { sci, an } => Command::RxRemove { sci, an },
    }
}

/// The key of an association.
fn key_of(octets: KeyOctets) -> Key
    ensures { result ≡ key_of_octets octets }
{
    let key = octets.get();
    let _octets = key.as_slice(); // Whether it is short or long goes by their number.
    key
}
