//! Questions to a relay, over a connection that plays its answers. No answer comes from a relay.

use crate::Outcome::{Disk, DiskBehind, Done, Fault, FaultBehind, Refused};
use crate::{Closing, Outcome};
use macs_cli::Question;
use macs_cli::Question::{About, Apply, Counters, Keys, Show, Stop, Traffic};
use macs_control::{Asker, Connection, Taken};
use macs_program::run::report;
use macs_program::{WriterStream, converse};
use std::alloc::Global;
use std::cell::{Cell, RefCell};
use std::fs;
use std::io::Write;
use std::process::Abort;
use std::rt::Files;
use std::test::Fail;

/// What comes from a relay.
#[derive(Clone, Copy)]
enum Piece {
    /// A text, so many times.
    Text(&'static str, usize),
    /// No octet yet.
    Nothing,
    /// The connection fails.
    Gone,
}

use Piece::{Gone, Nothing, Text};

/// What a relay has seen of its client.
#[derive(Drop)]
struct Record {
    /// All that was sent.
    sent: RefCell<String>,
    /// The client was told that the connection has ended.
    is_ended: Cell<bool>,
}

impl Record {
    fn new(alloc: Global) -> Record {
        Record {
            sent: RefCell::new(String::new(alloc)),
            is_ended: Cell::new(false),
        }
    }

    /// Whether this was sent.
    fn has(&self, sent: &str) -> bool {
        match self.sent.try_borrow_mut() {
            Ok(text) => text.as_str() == sent,
            Err(_) => false,
        }
    }
}

/// A connection to a relay that plays these pieces, one after another, and ends.
#[derive(Drop)]
struct Played<'a> {
    pieces: &'static [Piece],
    /// How many times the first of them was given whole, and how many octets of it since then.
    times: usize,
    octets: usize,
    record: &'a Record,
}

impl Played<'_> {
    /// The first piece is over.
    fn pass(&mut self) {
        self.times = 0;
        self.octets = 0;
        if let Some((_, rest)) = self.pieces.split_first() {
            self.pieces = rest;
        }
    }

    /// Counts octets of the first piece that were given.
    fn count(&mut self, text: &str, times: usize, given: usize) {
        self.octets = self.octets.saturating_add(given);
        if self.octets < text.len() {
            return;
        }
        self.octets = 0;
        self.times = self.times.saturating_add(1);
        if self.times >= times {
            self.pass();
        }
    }

    /// Gives octets of the first piece, which is this text.
    fn give(&mut self, text: &str, times: usize, into: &mut [u8]) -> usize {
        let from = self.octets.min(text.len());
        let rest = &text.as_bytes()[from..];
        let count = rest.len().min(into.len());
        into[..count].copy_from_slice(&rest[..count]);
        self.count(text, times, count);
        count
    }
}

impl Connection for Played<'_> {
    fn take_into(&mut self, into: &mut [u8]) -> Taken {
        match self.pieces.first() {
            Some(Text(text, times)) => {
                let given = self.give(text, *times, into);
                Taken::Octets(given.min(into.len()))
            }
            Some(Nothing) => {
                self.pass();
                Taken::Nothing
            }
            Some(Gone) => Taken::Gone,
            None => {
                self.record.is_ended.set(true);
                Taken::Ended
            }
        }
    }

    fn try_send(&mut self, octets: &[u8]) -> bool {
        match self.record.sent.try_borrow_mut() {
            Ok(mut sent) => sent
                .push_str(str::from_utf8(octets).unwrap_or("no text"))
                .is_ok(),
            Err(_) => false,
        }
    }
}

/// A question, whether its answer is printed as JSON, what the relay sends, and what is sent to it
/// and printed.
#[derive(Clone, Copy)]
struct Asked {
    question: Question<'static>,
    is_json: bool,
    pieces: &'static [Piece],
    sent: &'static str,
    outcome: Outcome,
}

/// Asks over a connection. The status, and what is printed on both streams.
fn answered(
    files: &impl Files,
    alloc: Global,
    asked: &Asked,
    record: &Record,
    out: impl Write + Drop,
    err: &mut Vec<u8>,
) -> u8 {
    let mut asker = Asker::over(Played {
        pieces: asked.pieces,
        times: 0,
        octets: 0,
        record,
    });
    let mut out = WriterStream::new(out);
    match converse(
        files,
        alloc,
        &mut asker,
        asked.question,
        asked.is_json,
        &mut out,
    ) {
        Ok(status) => status.code(),
        Err(failure) => report(&failure, &mut WriterStream::new(err)),
    }
}

/// Asks, and asserts the whole outcome. A `stop` that is done has heard the end of the connection.
fn expect_asked(rt: &(impl Abort + Files), alloc: Global, i: usize, asked: Asked) {
    let record = Record::new(alloc);
    let mut out = Vec::new(alloc);
    let mut err = Vec::new(alloc);
    let status = answered(rt, alloc, &asked, &record, &mut out, &mut err);
    let wrong = asked
        .outcome
        .differing_part(status, out.as_slice(), err.as_slice());
    assert!(rt; wrong.is_empty(), "{i}: {wrong}");
    assert!(rt; record.has(asked.sent), "{i}");
    if matches!(asked.question, Question::Stop) && status == 0 {
        assert!(rt; record.is_ended.get(), "{i}");
    }
}

/// Asks each question, in its order.
fn expect_each(rt: &(impl Abort + Files), alloc: Global, rows: &[Asked]) {
    for i in 0..rows.len() {
        expect_asked(rt, alloc, i, rows[i]);
    }
}

/// A question with a report, and its line.
const REPORTS: &[(Question<'static>, &str)] = &[
    (Show, "show\n"),
    (Counters, "counters\n"),
    (Keys, "keys\n"),
    (Traffic, "traffic\n"),
    (About, "about\n"),
    (Stop, "stop\n"),
];

/// No answer of a relay came.
const NO_ANSWER: Outcome = Fault("macsecd: control\n");

/// What comes from a relay, and what is said of it, whatever text was asked for. Only an answer
/// that ends with status 0 is printed.
const ANSWERS: &[(&[Piece], Outcome)] = &[
    (&[Text("one 1\ntwo\nend 0\n", 1)], Done("one 1\ntwo\n")),
    (&[Text("end 0\n", 1)], Done("")),
    (
        &[
            Nothing,
            Text("one", 1),
            Nothing,
            Text(" 1\nen", 1),
            Text("d 0\nend 4\n", 1),
            Nothing,
        ],
        Done("one 1\n"),
    ),
    (&[Text("one 1\nend 2\n", 1)], NO_ANSWER),
    (&[Text("ok\nend 3\n", 1)], NO_ANSWER),
    (&[Text("ok\nend 4\n", 1)], Disk("macsecd: stopped\n")),
    (&[Text("end 5\n", 1)], Fault("macsecd: memory\n")),
    (&[Text("ok\nend 255\n", 1)], NO_ANSWER),
    // It ends early: at once, in a line, or before the last line is whole.
    (&[], NO_ANSWER),
    (&[Text("one 1\n", 1)], NO_ANSWER),
    (&[Text("one 1\nend 0", 1)], NO_ANSWER),
    (&[Text("one 1\nend", 1), Gone], NO_ANSWER),
    // A last line has one spelling.
    (&[Text("end 00\n", 1)], NO_ANSWER),
    (&[Text(" end 0\n", 1)], NO_ANSWER),
    // A line of 255 octets, and one of 256.
    (&[Text("a", 255), Text("\nend 0\n", 1)], Done(LONG_LINE)),
    (&[Text("a", 256), Text("\nend 0\n", 1)], NO_ANSWER),
];

/// 255 octets and a line feed.
const LONG_LINE: &str = "\
aaaaaaaaaaaaaaaaaaaaaaaaaaaaaaaaaaaaaaaaaaaaaaaaaaa\
aaaaaaaaaaaaaaaaaaaaaaaaaaaaaaaaaaaaaaaaaaaaaaaaaaa\
aaaaaaaaaaaaaaaaaaaaaaaaaaaaaaaaaaaaaaaaaaaaaaaaaaa\
aaaaaaaaaaaaaaaaaaaaaaaaaaaaaaaaaaaaaaaaaaaaaaaaaaa\
aaaaaaaaaaaaaaaaaaaaaaaaaaaaaaaaaaaaaaaaaaaaaaaaaaa\n";

#[test]
fn only_a_report_that_is_whole_is_printed(rt: HostRuntime) {
    for &(question, sent) in REPORTS {
        for i in 0..ANSWERS.len() {
            let (pieces, outcome) = ANSWERS[i];
            let asked = Asked {
                question,
                is_json: false,
                pieces,
                sent,
                outcome,
            };
            expect_asked(&rt, rt.alloc(), i, asked);
        }
    }
}

/// Reports as JSON: a failure is told as it is without.
const AS_JSON: &[Asked] = &[
    Asked {
        question: Show,
        is_json: true,
        pieces: &[Text("sci 0200000000010001\nvalidate strict\nend 0\n", 1)],
        sent: "show\n",
        outcome: Done(
            "{\"line\":\"sci\",\"sci\":\"0200000000010001\"}\n\
{\"line\":\"validate\",\"mode\":\"strict\"}\n",
        ),
    },
    Asked {
        question: Counters,
        is_json: true,
        pieces: &[Text("rx late 3\nend 4\n", 1)],
        sent: "counters\n",
        outcome: Disk("macsecd: stopped\n"),
    },
];

#[test]
fn a_report_is_printed_as_json(rt: HostRuntime) {
    expect_each(&rt, rt.alloc(), AS_JSON);
}

/// Asks for a report of so many empty lines, and looks at how many are printed.
fn expect_lines(
    rt: &(impl Abort + Files),
    alloc: Global,
    pieces: &'static [Piece],
    printed: usize,
    complaint: &str,
) {
    let asked = Asked {
        question: Show,
        is_json: false,
        pieces,
        sent: "show\n",
        outcome: NO_ANSWER,
    };
    let record = Record::new(alloc);
    let mut out = Vec::new(alloc);
    let mut err = Vec::new(alloc);
    let _ = answered(rt, alloc, &asked, &record, &mut out, &mut err);
    assert!(rt; out.len() == printed);
    assert!(rt; err.as_slice() == complaint.as_bytes());
}

/// An answer has 65,536 lines at most, its last one included.
#[test]
fn the_longest_report_is_printed(rt: HostRuntime) {
    let most = &[Text("\n", 65_535), Text("end 0\n", 1)];
    expect_lines(&rt, rt.alloc(), most, 65_535, "");
    let more = &[Text("\n", 65_536), Text("end 0\n", 1)];
    expect_lines(&rt, rt.alloc(), more, 0, "macsecd: control\n");
}

const ANY_END: &str = "asking-any.toml";

const ONE_END: &str = "asking-one.toml";

/// Two commands for any end, and one for one end.
const FILES: &[(&str, &str)] = &[
    (
        ANY_END,
        "[[command]]\ndo = 'set-replay'\non = true\nwindow = 9\n\
[[command]]\ndo = 'tx-use'\nan = 1\n",
    ),
    (
        ONE_END,
        "sci = '0200000000010001'\n[[command]]\ndo = 'set-replay'\non = true\nwindow = 9\n",
    ),
];

/// What a relay answers to the two commands, what is sent to it, and what is said.
const APPLIED: &[(&[Piece], &str, Outcome)] = &[
    (&[Text("ok\nend 0\n", 2)], BOTH, Done("1 ok\n2 ok\n")),
    (
        &[Text("ok\nend 0\nrefused SlotEmpty\nend 3\n", 1)],
        BOTH,
        Refused("1 ok\n2 refused SlotEmpty\n"),
    ),
    (
        &[Text("refused KeySpent\nend 3\nok\nend 0\n", 1)],
        BOTH,
        Refused("1 refused KeySpent\n2 ok\n"),
    ),
    (
        &[Text("ok\nend 0\nend 4\n", 1)],
        BOTH,
        DiskBehind("1 ok\n", "macsecd: stopped\n"),
    ),
    (&[Text("end 4\n", 1)], FIRST, Disk("macsecd: stopped\n")),
    (&[Text("ok\nend 4\n", 1)], FIRST, Disk("macsecd: stopped\n")),
    (
        &[Text("refused QueueFull\nend 4\n", 1)],
        FIRST,
        Disk("macsecd: stopped\n"),
    ),
    (
        &[Text("ok\nend 0\nok\nend 5\n", 1)],
        BOTH,
        FaultBehind("1 ok\n", "macsecd: memory\n"),
    ),
    (
        &[Text("ok\nend 0\nok\n", 1)],
        BOTH,
        FaultBehind("1 ok\n", "macsecd: control\n"),
    ),
    (&[Text("ok\nend 2\n", 1)], FIRST, NO_ANSWER),
    (&[Text("ok\nend 3\n", 1)], FIRST, NO_ANSWER),
    (&[Text("end 3\n", 1)], FIRST, NO_ANSWER),
    (&[Text("refused Slotempty\nend 3\n", 1)], FIRST, NO_ANSWER),
    (
        &[Text("refused SlotEmpty\nok\nend 3\n", 1)],
        FIRST,
        NO_ANSWER,
    ),
];

/// Applies both commands where so many lines can be printed, and looks at what is sent.
fn expect_sent(rt: &(impl Abort + Files), alloc: Global, writes: u32, sent: &str) {
    let asked = Asked {
        question: Apply(ANY_END),
        is_json: false,
        pieces: &[Text("ok\nend 0\n", 2)],
        sent: "",
        outcome: NO_ANSWER,
    };
    let record = Record::new(alloc);
    let mut err = Vec::new(alloc);
    let out = Closing { writes, flushes: 9 };
    let status = answered(rt, alloc, &asked, &record, out, &mut err);
    assert!(rt; status == 5);
    assert!(rt; err.as_slice() == b"macsecd: output\n".as_slice());
    assert!(rt; record.has(sent));
}

const FIRST: &str = "set-replay on 9\n";

const BOTH: &str = "set-replay on 9\ntx-use 1\n";

/// What a relay answers to `show`, before the command for one end, what is sent to it, and what is
/// said.
const FOR_ONE: &[(&[Piece], &str, Outcome)] = &[
    (
        &[Text(
            "sci 0200000000010001\nblocks tx 4 rx 4\nend 0\nok\nend 0\n",
            1,
        )],
        "show\nset-replay on 9\n",
        Done("1 ok\n"),
    ),
    (
        &[Text(
            "sci 0200000000010002\nblocks tx 4 rx 4\nend 0\nok\nend 0\n",
            1,
        )],
        "show\n",
        Fault("macsecd: commands\n"),
    ),
    (&[Text("ok\nend 0\nok\nend 0\n", 1)], "show\n", NO_ANSWER),
    (&[Text("end 4\n", 1)], "show\n", Disk("macsecd: stopped\n")),
    (&[Text("end 5\n", 1)], "show\n", Fault("macsecd: memory\n")),
];

/// Applies a file in each of these cases.
fn expect_applied(
    rt: &(impl Abort + Files),
    alloc: Global,
    file: &'static str,
    rows: &[(&'static [Piece], &'static str, Outcome)],
) {
    for i in 0..rows.len() {
        let (pieces, sent, outcome) = rows[i];
        let asked = Asked {
            question: Apply(file),
            is_json: false,
            pieces,
            sent,
            outcome,
        };
        expect_asked(rt, alloc, i, asked);
    }
}

/// Writes the files.
fn write_files(files: &impl Files) -> Result<(), Fail> {
    for (file, text) in FILES {
        fs::write(files, *file, text.as_bytes())?;
    }
    Ok(())
}

/// Removes them.
fn remove_files(files: &impl Files) -> Result<(), Fail> {
    for (file, _) in FILES {
        fs::remove_file(files, *file)?;
    }
    Ok(())
}

#[test]
fn a_command_is_ok_once_a_relay_says_so(rt: HostRuntime) -> Result<(), Fail> {
    write_files(&rt)?;
    expect_applied(&rt, rt.alloc(), ANY_END, APPLIED);
    expect_applied(&rt, rt.alloc(), ONE_END, FOR_ONE);
    // The line of a command is printed before the next one is sent.
    expect_sent(&rt, rt.alloc(), 0, FIRST);
    expect_sent(&rt, rt.alloc(), 1, BOTH);
    remove_files(&rt)
}
