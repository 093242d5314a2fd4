//! Lines on a paper, and the names of channels and associations in them.
#![tactic(auto, using(crate::proofs::Adding::joined, crate::proofs::Adding::empty))]

ghost use Rattle.std.specs.Prelude.{◌++◌, codes};
ghost use Rattle.std.specs.Fmt.{decimal};
ghost use Rattle.macs_commands.specs.Papers.{Writes};
ghost use Rattle.macs_texts.specs.Lines.{count_line, count_line_of, known_line, line, name_of};

use macs_commands::Paper;
use macs_fields::{An, Sci};

/// Octets for a report: each fits with 32 channels, four associations a channel and numbers of 20
/// digits. The longest, the metrics, has at most 46,578 octets and the texts of the build.
pub const REPORT_ROOM: usize = 65_536;

/// What a line is about.
#[derive(Clone, Copy)]
pub(crate) enum Subject {
    Channel(Sci),
    Tx(An),
    Rx(Sci, An),
}

/// Writes words, and a number after them.
pub(crate) fn numbered(paper: &mut Paper, words: &str, number: u64)
    ensures { Writes paper.old paper.new (words.now ++ decimal number) }
{
    paper.put(words);
    paper.number(number);
}

/// Writes the line of a word: its name and value.
pub(crate) fn worded_line(paper: &mut Paper, name: &str, word: &str)
    ensures { Writes paper.old paper.new (line (name.now ++ (codes " " ++ word.now))) }
{
    paper.put(name);
    paper.put(" ");
    paper.put(word);
    paper.end_line();
}

/// Writes the line of a number, if it is known.
pub(crate) fn known_line(paper: &mut Paper, name: &str, number: Option<u64>)
    ensures { Writes paper.old paper.new (known_line name.now number) }
{
    if let Some(number) = number {
        paper.put(name);
        numbered(paper, " ", number);
        paper.end_line();
    }
}

/// Writes the rest of the line of a count after its side: its name, and the count.
pub(crate) fn counted(paper: &mut Paper, what: &str, count: u64)
    ensures { Writes paper.old paper.new
        (line (codes " " ++ (what.now ++ (codes " " ++ decimal count)))) }
{
    paper.put(" ");
    paper.put(what);
    numbered(paper, " ", count);
    paper.end_line();
}

/// Writes the line of a count: its side, its name, and the count.
pub(crate) fn count_line(paper: &mut Paper, side: &str, what: &str, count: u64)
    ensures { Writes paper.old paper.new (count_line side.now what.now count) }
{
    paper.put(side);
    counted(paper, what, count);
}

/// Writes the line of a count, if there is one.
pub(crate) fn count_line_of(paper: &mut Paper, side: &str, what: &str, count: Option<u64>)
    ensures { Writes paper.old paper.new (count_line_of side.now what.now count) }
{
    if let Some(count) = count {
        count_line(paper, side, what, count);
    }
}

/// Writes the name of a channel or an association.
pub(crate) fn put_name(paper: &mut Paper, subject: Subject)
    ensures { Writes paper.old paper.new (name_of subject) }
{
    match subject {
        Subject::Channel(sci) => {
            paper.put("channel ");
            paper.hex(&sci.get());
        }
        Subject::Tx(an) => numbered(paper, "tx ", u64::from(an.get())),
        Subject::Rx(sci, an) => {
            paper.put("rx ");
            paper.hex(&sci.get());
            numbered(paper, " ", u64::from(an.get()));
        }
    }
}
