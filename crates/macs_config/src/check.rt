//! Whether a command may be applied.

ghost use Rattle.std.specs.Prelude.{◌≡◌, Some, None, length, nat_le, if◌then◌else◌};
ghost use Rattle.macs_config.specs.Apply.{answer_or_refusal, reason_named, refusal_of, with_reason};
ghost use Rattle.macs_config.specs.Config.{is_spent, max_spent, this_edition};
ghost use Rattle.macs_config.specs.Identity.{is_port_one};
ghost use Rattle.macs_config.specs.Judged.{IsJudged, asked_by, rx_install, tx_install};
ghost use Rattle.macs_config.specs.Value.{config_in};
ghost use Rattle.macs_config.specs.declared.command.Command.TheVariants.{SetSciMode, TxInstall};
ghost use Rattle.macs_config.specs.declared.command.Command.TheVariants.{TxUse, TxRemove, RxAdd};
ghost use Rattle.macs_config.specs.declared.command.Command.TheVariants.{RxDrop, RxInstall};
ghost use Rattle.macs_config.specs.declared.command.Command.TheVariants.{RxRemove};
ghost use Rattle.macs_config.specs.declared.refusal.Refusal.TheVariants.{KeySpent, SpentFull};

use crate::association::{Protection, RxSa, TxSa};
use crate::checked::{Checked, Judged};
use crate::command::{Command, SciMode};
use crate::contents::{Contents, MAX_CHANNELS};
use crate::fingerprint::{Fingerprint, rx_fingerprint, tx_fingerprint};
use crate::identity::Identity;
use crate::refusal::Refusal;
use crate::spent_keys::{MAX_SPENT, SpentKeys};
use macs_aes::{Key, KeyOctets};
use macs_fields::{An, Offset, Pn, Sci};

/// The port of an end station's SCI (IEEE Std 802.1AE-2018, 9.5).
const END_STATION_PORT: [u8; 2] = [0, 1];

/// The verdict on a command, or its first refusal in the order of `Refusal`.
pub(crate) fn check(
    contents: &Contents,
    identity: &Identity,
    command: &Command,
) -> Result<Checked, Refusal>
    ensures { with_reason result ≡ answer_or_refusal
        (refusal_of this_edition identity.now (config_in contents.now) command.now) command.now }
{
    match *command {
        Command::SetValidate(validate) => Ok(Checked::of(Judged::SetValidate(validate))),
        Command::SetReplay { on, window } => Ok(Checked::of(Judged::SetReplay { on, window })),
        Command::SetSciMode(mode) => {
            unless_refused(sci_mode_refusal(identity, mode), Judged::SetSciMode(mode))
        }
        Command::TxInstall {
            an,
            key,
            start,
            confidential,
            offset,
        } => check_tx_install(contents, an, &key, start, confidential, offset),
        Command::TxUse { an } => unless_refused(tx_use_refusal(contents, an), Judged::TxUse { an }),
        Command::TxRemove { an } => {
            unless_refused(tx_remove_refusal(contents, an), Judged::TxRemove { an })
        }
        Command::RxAdd { sci } => {
            unless_refused(
                rx_add_refusal(contents, identity, sci),
                Judged::RxAdd { sci },
            )
        }
        Command::RxDrop { sci } => {
            unless_refused(rx_drop_refusal(contents, sci), Judged::RxDrop { sci })
        }
        Command::RxInstall {
            sci,
            an,
            key,
            start,
            offset,
        } => check_rx_install(contents, sci, an, &key, start, offset),
        Command::RxRemove { sci, an } => {
            unless_refused(
                rx_remove_refusal(contents, sci, an),
                Judged::RxRemove { sci, an },
            )
        }
    }
}

/// The result of the check of a command that spends no key.
fn unless_refused(refusal: Option<Refusal>, judged: Judged) -> Result<Checked, Refusal>
    requires { IsJudged judged }
    ensures { with_reason result ≡ answer_or_refusal (reason_named refusal) (asked_by judged) }
{
    match refusal {
        Some(refusal) => Err(refusal),
        None => Ok(Checked::of(judged)),
    }
}

fn sci_mode_refusal(identity: &Identity, mode: SciMode) -> Option<Refusal>
    ensures { (c : _)
        → reason_named result ≡ refusal_of this_edition identity.now c (SetSciMode mode) }
{
    if mode == SciMode::EndStation && !is_port_one(identity.sci()) {
        Some(Refusal::EndStationSci)
    } else {
        None
    }
}

/// Whether the port of an SCI is 00-01.
pub(crate) fn is_port_one(sci: Sci) -> bool
    ensures { result ≡ is_port_one sci }
{
    let octets = sci.get();
    &octets[6..] == END_STATION_PORT.as_slice()
}

fn check_tx_install(
    contents: &Contents,
    an: An,
    key: &Key,
    start: u32,
    confidential: bool,
    offset: u8,
) -> Result<Checked, Refusal>
    ensures { (identity : _) → with_reason result
        ≡ answer_or_refusal (refusal_of this_edition identity (config_in contents.now)
        (TxInstall an key.now start confidential offset))
        (TxInstall an key.now start confidential offset) }
{
    let Some(start) = Pn::new(start) else {
        return Err(Refusal::StartRange);
    };
    let Some(offset) = Offset::new(offset) else {
        return Err(Refusal::OffsetChoice);
    };
    let Some(protection) = Protection::chosen(confidential, offset) else {
        return Err(Refusal::OffsetChoice);
    };
    let _octets = key.as_slice(); // Whether it is short or long goes by their number.
    let key = KeyOctets::of(*key);
    check_tx(contents, an, TxSa { key, protection }, start)
}

/// The verdict on an install of a transmit association.
pub(crate) fn check_tx(contents: &Contents, an: An, sa: TxSa, start: Pn) -> Result<Checked, Refusal>
    ensures { (identity : _) → with_reason result
        ≡ answer_or_refusal (refusal_of this_edition identity (config_in contents.now)
        (tx_install an sa start)) (tx_install an sa start) }
{
    let _number = start.get(); // It is above 0.
    if contents.tx[an.get() as usize].is_some() {
        return Err(Refusal::SlotTaken);
    }
    let octets = sa.key.as_slice();
    let fingerprint = tx_fingerprint(octets);
    if let Some(refusal) = key_refusal(&contents.spent_tx, &fingerprint) {
        return Err(refusal);
    }
    Ok(Checked::of(Judged::TxInstall {
        an,
        sa,
        start,
        fingerprint,
    }))
}

fn tx_use_refusal(contents: &Contents, an: An) -> Option<Refusal>
    ensures { (identity : _) → reason_named result
        ≡ refusal_of this_edition identity (config_in contents.now) (TxUse an) }
{
    if contents.tx[an.get() as usize].is_some() {
        None
    } else {
        Some(Refusal::SlotEmpty)
    }
}

fn tx_remove_refusal(contents: &Contents, an: An) -> Option<Refusal>
    ensures { (identity : _) → reason_named result
        ≡ refusal_of this_edition identity (config_in contents.now) (TxRemove an) }
{
    if contents.tx[an.get() as usize].is_none() {
        Some(Refusal::SlotEmpty)
    } else if contents.encoding == Some(an) {
        Some(Refusal::InUse)
    } else {
        None
    }
}

fn rx_add_refusal(contents: &Contents, identity: &Identity, sci: Sci) -> Option<Refusal>
    ensures { reason_named result
        ≡ refusal_of this_edition identity.now (config_in contents.now) (RxAdd sci) }
{
    if sci == identity.sci() {
        Some(Refusal::OwnSci)
    } else if contents.has_channel(sci) {
        Some(Refusal::ChannelTaken)
    } else if contents.channels.len() >= MAX_CHANNELS {
        Some(Refusal::ChannelsFull)
    } else {
        None
    }
}

fn rx_drop_refusal(contents: &Contents, sci: Sci) -> Option<Refusal>
    ensures { (identity : _) → reason_named result
        ≡ refusal_of this_edition identity (config_in contents.now) (RxDrop sci) }
{
    if contents.has_channel(sci) {
        None
    } else {
        Some(Refusal::NoChannel)
    }
}

fn check_rx_install(
    contents: &Contents,
    sci: Sci,
    an: An,
    key: &Key,
    start: u32,
    offset: u8,
) -> Result<Checked, Refusal>
    ensures { (identity : _) → with_reason result
        ≡ answer_or_refusal (refusal_of this_edition identity (config_in contents.now)
        (RxInstall sci an key.now start offset)) (RxInstall sci an key.now start offset) }
{
    let Some(start) = Pn::new(start) else {
        return Err(Refusal::StartRange);
    };
    let Some(offset) = Offset::new(offset) else {
        return Err(Refusal::OffsetChoice);
    };
    let _octets = key.as_slice(); // Whether it is short or long goes by their number.
    let key = KeyOctets::of(*key);
    check_rx(contents, sci, an, RxSa { key, offset }, start)
}

/// The verdict on an install of a receive association.
pub(crate) fn check_rx(
    contents: &Contents,
    sci: Sci,
    an: An,
    sa: RxSa,
    start: Pn,
) -> Result<Checked, Refusal>
    ensures { (identity : _) → with_reason result
        ≡ answer_or_refusal (refusal_of this_edition identity (config_in contents.now)
        (rx_install sci an sa start)) (rx_install sci an sa start) }
{
    let _number = start.get(); // It is above 0.
    if !contents.has_channel(sci) {
        return Err(Refusal::NoChannel);
    }
    if contents.rx(sci, an).is_some() {
        return Err(Refusal::SlotTaken);
    }
    let octets = sa.key.as_slice();
    let fingerprint = rx_fingerprint(sci, octets);
    if let Some(refusal) = key_refusal(&contents.spent_rx, &fingerprint) {
        return Err(refusal);
    }
    Ok(Checked::of(Judged::RxInstall {
        sci,
        an,
        sa,
        start,
        fingerprint,
    }))
}

fn rx_remove_refusal(contents: &Contents, sci: Sci, an: An) -> Option<Refusal>
    ensures { (identity : _) → reason_named result
        ≡ refusal_of this_edition identity (config_in contents.now) (RxRemove sci an) }
{
    if !contents.has_channel(sci) {
        Some(Refusal::NoChannel)
    } else if contents.rx(sci, an).is_none() {
        Some(Refusal::SlotEmpty)
    } else {
        None
    }
}

/// Why a key with this fingerprint may not be spent on its side, if it may not.
fn key_refusal(spent: &SpentKeys, fingerprint: &Fingerprint) -> Option<Refusal>
    ensures { result ≡ (if is_spent spent.now fingerprint.now then Some KeySpent
        else if nat_le max_spent (length spent.now) then Some SpentFull else None) }
{
    if spent.contains(fingerprint) {
        Some(Refusal::KeySpent)
    } else if spent.len() >= MAX_SPENT {
        Some(Refusal::SpentFull)
    } else {
        None
    }
}
