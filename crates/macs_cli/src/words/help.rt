//! The words that ask for help.

ghost use Rattle.std.specs.Prelude.{◌≡◌, ◌↔◌, IsTrue, Some};
ghost use Rattle.macs_cli.specs.Words.{AsksFor, IsHelpFlag, IsVersionFlag, name_of, texts};

use crate::words::help_texts::{
    ABOUT, APPLY, ASK, CHECK, EXAMINE, FORMAT, HELP, INSPECT, KEEP, KEY, OPEN, PLAN, PROTECT,
    RELAY, SHOW, VALIDATE, VERSION,
};

/// A subcommand.
#[derive(Clone, Copy)]
pub enum Subcommand {
    Open,
    Format,
    Apply,
    Show,
    Protect,
    Validate,
    Relay,
    Keep,
    Ask,
    Key,
    Inspect,
    Check,
    Plan,
    Examine,
    About,
}

/// What is requested instead of an action.
#[derive(Clone, Copy)]
pub enum Topic {
    /// What the program does: only `--help` or `-h`.
    Help,
    /// What a subcommand does, and its values: `--help` or `-h` after its name.
    HelpOn(Subcommand),
    /// The version: only `--version`.
    Version,
}

impl Subcommand {
    ghost use Rattle.std.specs.Prelude.{◌≡◌, ◌↔◌};
    ghost use Rattle.macs_cli.specs.Help.{subcommand_text};
    ghost use Rattle.macs_cli.specs.Words.{name_of};

    /// The subcommand with this name.
    fn named(name: &str) -> Option<Subcommand>
        ensures { (which : Subcommand) → (result ≡ Some which) ↔ (name.now ≡ name_of which) }
    {
        match name {
            "open" => Some(Subcommand::Open),
            "format" => Some(Subcommand::Format),
            "apply" => Some(Subcommand::Apply),
            "show" => Some(Subcommand::Show),
            "protect" => Some(Subcommand::Protect),
            "validate" => Some(Subcommand::Validate),
            "relay" => Some(Subcommand::Relay),
            "keep" => Some(Subcommand::Keep),
            "ask" => Some(Subcommand::Ask),
            "key" => Some(Subcommand::Key),
            "inspect" => Some(Subcommand::Inspect),
            "check" => Some(Subcommand::Check),
            "plan" => Some(Subcommand::Plan),
            "examine" => Some(Subcommand::Examine),
            "about" => Some(Subcommand::About),
            _ => None,
        }
    }

    /// Its help text, in whole lines.
    fn text(self) -> &'static str
        ensures { result.now ≡ subcommand_text self }
    {
        match self {
            Subcommand::Open => OPEN,
            Subcommand::Format => FORMAT,
            Subcommand::Apply => APPLY,
            Subcommand::Show => SHOW,
            Subcommand::Protect => PROTECT,
            Subcommand::Validate => VALIDATE,
            Subcommand::Relay => RELAY,
            Subcommand::Keep => KEEP,
            Subcommand::Ask => ASK,
            Subcommand::Key => KEY,
            Subcommand::Inspect => INSPECT,
            Subcommand::Check => CHECK,
            Subcommand::Plan => PLAN,
            Subcommand::Examine => EXAMINE,
            Subcommand::About => ABOUT,
        }
    }
}

impl Topic {
    ghost use Rattle.std.specs.Prelude.{◌≡◌};
    ghost use Rattle.macs_cli.specs.Help.{topic_text};

    /// The text that is printed, in whole lines.
    pub fn text(self) -> &'static str
        ensures { result.now ≡ topic_text self }
    {
        match self {
            Topic::Help => HELP,
            Topic::HelpOn(which) => which.text(),
            Topic::Version => VERSION,
        }
    }
}

fn is_help_flag(word: &str) -> bool
    ensures { IsTrue result ↔ IsHelpFlag word.now }
{
    word == "--help" || word == "-h"
}

fn is_version_flag(word: &str) -> bool
    ensures { IsTrue result ↔ IsVersionFlag word.now }
{
    word == "--version"
}

/// What the words request instead of an action, if anything.
pub fn topic_of(words: &[&str]) -> Option<Topic>
    ensures { (topic : Topic) → (result ≡ Some topic) ↔ AsksFor (texts words.now) topic }
{
    match words {
        [word] if is_help_flag(word) => Some(Topic::Help),
        [word] if is_version_flag(word) => Some(Topic::Version),
        [name, word] if is_help_flag(word) => {
            let which = Subcommand::named(name)?;
            Some(Topic::HelpOn(which))
        }
        _ => None,
    }
}
