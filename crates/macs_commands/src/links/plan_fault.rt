//! Why nothing is planned.

/// A table of a link file.
#[derive(Clone, Copy, Debug, PartialEq, Eq)]
pub enum Place {
    /// `[left]`
    Left,
    /// `[right]`
    Right,
    /// A table `[[key]]`, counting from 1.
    Key { at: usize },
}

/// A key of such a table.
#[derive(Clone, Copy, Debug, PartialEq, Eq)]
pub enum ValueName {
    Sci,
    An,
    Left,
    Right,
}

/// The first fault of a link file. `Shape` comes before all others, then the tables `[left]`,
/// `[right]` and each `[[key]]` in order, in a table `Value` and `Extra` in this order, and then
/// `SameSci`, `SameKey` and `AnInUse`; `OneKey` is checked when commands are planned.
#[derive(Clone, Copy, Debug, PartialEq, Eq)]
pub enum PlanFault {
    /// The keys of the file are not exactly `left`, `right` and `key`, one of the first two is not
    /// a table, or the last is not an array of tables or is empty.
    Shape,
    /// A value is missing, of another type or out of range: the first such one of its table, in the
    /// order `sci`, or `an`, `left`, `right`.
    Value { place: Place, name: ValueName },
    /// A table has another key.
    Extra { place: Place },
    /// Both ends have the same SCI.
    SameSci,
    /// A key occurs twice: in both directions, or in two pairs.
    SameKey,
    /// A pair has the association number of the previous one, which is in use until it is replaced.
    AnInUse,
    /// Keys should be replaced, and there is only one pair.
    OneKey,
    /// Memory ran out.
    Memory,
}
