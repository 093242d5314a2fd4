//! Laws of the definitions: which links are refused, and that the commands of a link are accepted.

ghost use Rattle.macs_commands.specs.Accepting.{Begins, Meets, Refuses, Rekeys};

/// The commands planned for a link are accepted at both ends, and lead each from pair to pair.
pub fn plans()
    // A link that is read has two different SCIs, and no key twice; its newest keys have valid
    // lengths.
    ensures refuses { Refuses }
    // What one end sends under a pair the other one receives under it.
    ensures meets { Meets }
    // A new endpoint accepts the first keys.
    ensures begins { Begins }
    // An end accepts the stages of a new pair, and meanwhile receives what the other end may send.
    ensures rekeys { Rekeys }
{}
