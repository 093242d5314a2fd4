//! The words of modes and flags. Each is spelled here once.

ghost use Rattle.std.specs.Prelude.{◌≡◌};
ghost use Rattle.macs_commands.specs.Words.{protection_word, replay_word, sci_mode_spelled};
ghost use Rattle.macs_commands.specs.Words.{sci_mode_word, validate_spelled, validate_word};

use macs_config::{SciMode, Validate};

/// The word for what is done with frames that do not verify.
pub fn validate_word(mode: Validate) -> &'static str
    ensures { result.now ≡ validate_word mode }
{
    match mode {
        Validate::Strict => "strict",
        Validate::Check => "check",
    }
}

/// What is done with frames that do not verify, by its word.
pub(crate) fn validate_of(text: &str) -> Option<Validate>
    ensures { result ≡ validate_spelled text.now }
{
    let modes = [Validate::Strict, Validate::Check];
    modes
        .iter()
        .find(|mode| validate_word(**mode) == text)
        .copied()
}

/// The word for how frames name the channel.
pub fn sci_mode_word(mode: SciMode) -> &'static str
    ensures { result.now ≡ sci_mode_word mode }
{
    match mode {
        SciMode::Explicit => "explicit",
        SciMode::EndStation => "end-station",
        SciMode::Implicit => "implicit",
    }
}

/// How frames name the channel, by its word.
pub(crate) fn sci_mode_of(text: &str) -> Option<SciMode>
    ensures { result ≡ sci_mode_spelled text.now }
{
    let modes = [SciMode::Explicit, SciMode::EndStation, SciMode::Implicit];
    modes
        .iter()
        .find(|mode| sci_mode_word(**mode) == text)
        .copied()
}

/// The word for whether replay protection is on.
pub fn replay_word(on: bool) -> &'static str
    ensures { result.now ≡ replay_word on }
{
    if on { "on" } else { "off" }
}

/// The word for whether User Data are encrypted.
pub(crate) fn protection_word(confidential: bool) -> &'static str
    ensures { result.now ≡ protection_word confidential }
{
    if confidential {
        "confidential"
    } else {
        "integrity"
    }
}
