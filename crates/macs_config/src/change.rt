//! Applying a command.

ghost use Rattle.std.specs.Prelude.{◌≡◌, None};
ghost use Rattle.macs_config.specs.Apply.{refusal_of};
ghost use Rattle.macs_config.specs.Config.{this_edition};
ghost use Rattle.macs_config.specs.Identity.{Identity};
ghost use Rattle.macs_config.specs.Judged.{asked_by, config_changed};
ghost use Rattle.macs_config.specs.Value.{config_in};

use crate::checked::Judged;
use crate::command::Replay;
use crate::contents::Contents;

/// Applies a command that is not refused, with the verdict of its check.
pub(crate) fn change(contents: &mut Contents, judged: &Judged)
    requires { (identity : Identity)
        × (refusal_of this_edition identity (config_in contents.old) (asked_by judged.now) ≡ None) }
    ensures { config_in contents.new ≡ config_changed (config_in contents.old) judged.now }
{
    match *judged {
        Judged::SetValidate(validate) => contents.validate = validate,
        Judged::SetReplay { on, window } => contents.replay = Replay { on, window },
        Judged::SetSciMode(mode) => contents.mode = mode,
        Judged::TxInstall {
            an,
            sa,
            fingerprint,
            ..
        } => {
            contents.put_tx(an, Some(sa));
            contents.spend_tx(fingerprint);
        }
        Judged::TxUse { an } => contents.encoding = Some(an),
        Judged::TxRemove { an } => contents.put_tx(an, None),
        Judged::RxAdd { sci } => contents.add_channel(sci),
        Judged::RxDrop { sci } => contents.drop_channel(sci),
        Judged::RxInstall {
            sci,
            an,
            sa,
            fingerprint,
            ..
        } => {
            contents.put_rx(sci, an, Some(sa));
            contents.spend_rx(fingerprint);
        }
        Judged::RxRemove { sci, an } => contents.put_rx(sci, an, None),
    }
}
