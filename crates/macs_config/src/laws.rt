//! Laws of the definitions, for the layers above. If a law is about a value behind a reference, its
//! body reads the fields: that is how a proof learns their ranges.

ghost use Rattle.std.specs.Prelude.{◌≡◌, ◌<◌, ◌^◌, ◌++◌, List, true, Some, Ok};
ghost use Rattle.macs_aes.specs.Keys.{octets_of_key};
ghost use Rattle.macs_fields.specs.Fields.{IsAn, IsSci};
ghost use Rattle.macs_config.specs.Apply.{IsCommand, IsKey, LongKey, apply, refusal_of, spent_by};
ghost use Rattle.macs_config.specs.Config.{Config, Edition, IsConfig, IsUpTo, default, spent_of};
ghost use Rattle.macs_config.specs.Identity.{Identity, IsIdentity};
ghost use Rattle.macs_config.specs.Snapshot.{config_of_parts};
ghost use Rattle.macs_config.specs.SnapshotWords.{OrderWords, PartWords};
ghost use Rattle.macs_config.specs.declared.command.Command.{Command};
ghost use Rattle.macs_config.specs.declared.command.Role.{Role};
ghost use Rattle.macs_config.specs.declared.part.Part.{Part};

use crate::{Command, Identity};
use macs_aes::Key;
use macs_fields::laws::{an_in_range, octets_in_range, sci_in_range};
use macs_fields::{An, Sci};

/// The fields of a command are in their ranges.
pub fn command_in_range(command: &Command)
    ensures { IsCommand command.now }
{
    match *command {
        Command::SetValidate(_) => {}
        Command::SetReplay { window, .. } => {
            let _window = window;
        }
        Command::SetSciMode(_) => {}
        Command::TxInstall {
            an,
            key,
            start,
            offset,
            ..
        } => {
            an_in_range(an);
            install_in_range(&key, start, offset);
        }
        Command::TxUse { an } | Command::TxRemove { an } => an_in_range(an),
        Command::RxAdd { sci } | Command::RxDrop { sci } => sci_in_range(sci),
        Command::RxInstall {
            sci,
            an,
            key,
            start,
            offset,
        } => {
            place_in_range(sci, an);
            install_in_range(&key, start, offset);
        }
        Command::RxRemove { sci, an } => place_in_range(sci, an),
    }
}

/// The SCI and the number of a receive association are in their ranges.
fn place_in_range(sci: Sci, an: An)
    ensures { IsSci sci × IsAn an }
{
    sci_in_range(sci);
    an_in_range(an);
}

/// The key and the numbers of a new association are in their ranges.
fn install_in_range(key: &Key, start: u32, offset: u8)
    ensures key { IsKey (octets_of_key key.now) }
    ensures start { start < 2 ^ 32 }
    ensures offset { offset < 2 ^ 8 }
{
    match key {
        Key::Short(octets) => octets_in_range(octets),
        Key::Long(octets) => octets_in_range(octets),
    }
}

/// The fields of an identity are in their ranges.
pub fn identity_in_range(identity: &Identity)
    ensures { IsIdentity identity.now }
{
    sci_in_range(identity.sci());
    let _blocks = (identity.tx_block(), identity.rx_block());
}

/// The initial state of a newly formatted endpoint is a configuration.
pub fn default_is_config()
    ensures { (edition : Edition) (identity : Identity) → IsConfig edition identity default }
{}

/// A command that is not refused turns a configuration into a configuration.
pub fn apply_keeps()
    ensures { (edition : Edition) (identity : Identity) (old new : Config) (command : Command)
        → IsConfig edition identity old → apply edition identity old command ≡ Ok new
        → IsConfig edition identity new }
{}

/// Restoring a snapshot gives a configuration.
pub fn restored_is_config()
    ensures { (edition : Edition) (identity : Identity) (parts : List Part) (c : Config)
        → config_of_parts edition identity parts ≡ Some c → IsConfig edition identity c }
{}

/// Spent keys stay, in order; an install adds its key on its side, and no other command adds any.
pub fn spent_for_good()
    ensures { (edition : Edition) (identity : Identity) (old new : Config) (command : Command)
        (role : Role)
        → apply edition identity old command ≡ Ok new
        → spent_of role new ≡ spent_of role old ++ spent_by role command }
{}

/// What an edition applies, an edition that accepts at least as much also applies, with the same
/// result.
pub fn larger_applies()
    ensures { (small large : Edition) → IsUpTo small large
        → (identity : Identity) (old new : Config) (command : Command)
        → apply small identity old command ≡ Ok new → apply large identity old command ≡ Ok new }
{}

/// What an edition restores from a snapshot, an edition that accepts at least as much also
/// restores.
pub fn larger_restores()
    ensures { (small large : Edition) → IsUpTo small large
        → (identity : Identity) (parts : List Part) (c : Config)
        → config_of_parts small identity parts ≡ Some c
        → config_of_parts large identity parts ≡ Some c }
{}

/// A configuration of an edition is also one of an edition that accepts at least as much.
pub fn larger_has()
    ensures { (small large : Edition) → IsUpTo small large
        → (identity : Identity) (c : Config) → IsConfig small identity c
        → IsConfig large identity c }
{}

/// An edition that accepts long keys refuses no command for its key's length, which is 16 or 32
/// octets.
pub fn long_keys_taken()
    ensures { (edition : Edition) (identity : Identity) (c : Config) (command : Command)
        → IsCommand command
        → edition.long_keys ≡ true → ¬ (refusal_of edition identity c command ≡ Some LongKey) }
{}

/// What follows from the definitions of snapshots.
pub fn snapshots()
    // Which parts may not follow those before them.
    ensures parts { PartWords }
    // Which orders of parts are refused.
    ensures order { OrderWords }
{}
