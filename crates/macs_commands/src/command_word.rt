//! The words of the commands. Each is spelled here once.

ghost use Rattle.std.specs.Prelude.{◌≡◌};
ghost use Rattle.macs_commands.specs.Words.{word_of, word_spelled, word_text};

use macs_config::Command;

/// The word of a command: the value at the key `do` in a command file, and the first word of its
/// line on a control socket.
#[derive(Clone, Copy, Debug, PartialEq, Eq)]
pub enum CommandWord {
    SetValidate,
    SetReplay,
    SetSciMode,
    TxInstall,
    TxUse,
    TxRemove,
    RxAdd,
    RxDrop,
    RxInstall,
    RxRemove,
}

/// Every command word, once.
const COMMAND_WORDS: [CommandWord; 10] = [
    CommandWord::SetValidate,
    CommandWord::SetReplay,
    CommandWord::SetSciMode,
    CommandWord::TxInstall,
    CommandWord::TxUse,
    CommandWord::TxRemove,
    CommandWord::RxAdd,
    CommandWord::RxDrop,
    CommandWord::RxInstall,
    CommandWord::RxRemove,
];

impl CommandWord {
    /// The word of a command.
    pub fn of(command: &Command) -> CommandWord
        ensures { result ≡ word_of command.now }
    {
        match *command {
            Command::SetValidate(_) => CommandWord::SetValidate,
            Command::SetReplay { .. } => CommandWord::SetReplay,
            Command::SetSciMode(_) => CommandWord::SetSciMode,
            Command::TxInstall { .. } => CommandWord::TxInstall,
            Command::TxUse { .. } => CommandWord::TxUse,
            Command::TxRemove { .. } => CommandWord::TxRemove,
            Command::RxAdd { .. } => CommandWord::RxAdd,
            Command::RxDrop { .. } => CommandWord::RxDrop,
            Command::RxInstall { .. } => CommandWord::RxInstall,
            Command::RxRemove { .. } => CommandWord::RxRemove,
        }
    }

    /// How the word is spelled.
    pub fn text(self) -> &'static str
        ensures { result.now ≡ word_text self }
    {
        match self {
            CommandWord::SetValidate => "set-validate",
            CommandWord::SetReplay => "set-replay",
            CommandWord::SetSciMode => "set-sci-mode",
            CommandWord::TxInstall => "tx-install",
            CommandWord::TxUse => "tx-use",
            CommandWord::TxRemove => "tx-remove",
            CommandWord::RxAdd => "rx-add",
            CommandWord::RxDrop => "rx-drop",
            CommandWord::RxInstall => "rx-install",
            CommandWord::RxRemove => "rx-remove",
        }
    }

    /// The word that is spelled like this, `None` if there is none.
    pub(crate) fn spelled(text: &str) -> Option<CommandWord>
        ensures { result ≡ word_spelled text.now }
    {
        COMMAND_WORDS
            .iter()
            .find(|word| word.text() == text)
            .copied()
    }
}
