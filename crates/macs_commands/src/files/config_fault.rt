//! Why a command file cannot be read.

/// A key of a command's table, except `do`.
#[derive(Clone, Copy, Debug, PartialEq, Eq)]
pub enum KeyName {
    Mode,
    On,
    Window,
    An,
    Key,
    Start,
    Confidential,
    Offset,
    Sci,
}

/// The first fault of a command file. `Shape` comes before all others, then the tables in order,
/// and in a table `Word`, `Key` and `Extra` in this order. Tables are counted from 1.
#[derive(Clone, Copy, Debug, PartialEq, Eq)]
pub enum ConfigFault {
    /// The file has another key besides `command`, or `command` is not an array of tables.
    Shape,
    /// A table has no key `do`, or no command has this word.
    Word { at: usize },
    /// A key of the command is missing, of another type or out of range: the first such key in the
    /// order of the command's line.
    Key { at: usize, name: KeyName },
    /// A table has a key that its command does not have: `extra_key` returns the first one.
    Extra { at: usize },
    /// Memory ran out.
    Memory,
}
