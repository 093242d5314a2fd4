//! Words that are refused, and the line that says why.

use super::{Row, expect, expect_each};
use macsecd_tests::Outcome;
use std::alloc::Global;
use std::fs::File;
use std::net::Net;
use std::process::Abort;
use std::random::RandomSource;
use std::rt::{Clock, Env, Files};

/// Runs each of these words, and asserts the same whole outcome.
fn expect_all(
    rt: &(impl Abort + Files<File = File> + Net + Clock + Env + RandomSource),
    alloc: Global,
    each: &[&[&str]],
    outcome: Outcome,
) {
    for words in each {
        expect(rt, alloc, words, "", outcome);
    }
}

/// Words that are refused, and the line that says why.
const OTHER_WORDS: &[Row] = &[
    (
        &["frobnicate"],
        Outcome::Usage(
            "macsecd: unrecognized subcommand 'frobnicate' tip: a similar subcommand exists: 'format'\n",
        ),
    ),
    (
        &["Open"],
        Outcome::Usage(
            "macsecd: unrecognized subcommand 'Open' tip: a similar subcommand exists: 'open'\n",
        ),
    ),
    (
        &[""],
        Outcome::Usage("macsecd: unrecognized subcommand ''\n"),
    ),
    (
        &["frob\nnicate"],
        Outcome::Usage("macsecd: unrecognized subcommand 'frob?nicate'\n"),
    ),
    (
        &["help"],
        Outcome::Usage("macsecd: unrecognized subcommand 'help'\n"),
    ),
    (
        &["open", "open"],
        Outcome::Usage("macsecd: unexpected argument 'open' found\n"),
    ),
    (
        &["open", "--frob"],
        Outcome::Usage("macsecd: unexpected argument '--frob' found\n"),
    ),
    (
        &["open", "help"],
        Outcome::Usage("macsecd: unexpected argument 'help' found\n"),
    ),
    (
        &["-V"],
        Outcome::Usage("macsecd: unexpected argument '-V' found\n"),
    ),
    (
        &["--help", "open"],
        Outcome::Usage("macsecd: unexpected argument '--help' found\n"),
    ),
    (
        &["--help", "--help"],
        Outcome::Usage("macsecd: unexpected argument '--help' found\n"),
    ),
    (
        &["open", "-h", "x"],
        Outcome::Usage("macsecd: unexpected argument '-h' found\n"),
    ),
    (
        &["open", "--version"],
        Outcome::Usage("macsecd: unexpected argument '--version' found\n"),
    ),
    (
        &["--version", "x"],
        Outcome::Usage("macsecd: unexpected argument '--version' found\n"),
    ),
];

/// The words come first: the input, which is wrong too, is not reported.
#[test]
fn refuses_other_words(rt: HostRuntime) {
    expect_each(&rt, rt.alloc(), OTHER_WORDS);
}

/// Words with values too few, and the line that says which are missing.
const WORDS_TOO_FEW: &[Row] = &[
    (
        &["format"],
        Outcome::Usage(
            "macsecd: the following required arguments were not provided: <DISK> <SCI> <TX> <RX>\n",
        ),
    ),
    (
        &["format", "left.disk"],
        Outcome::Usage(
            "macsecd: the following required arguments were not provided: <SCI> <TX> <RX>\n",
        ),
    ),
    (
        &["format", "left.disk", "0200000000010001"],
        Outcome::Usage("macsecd: the following required arguments were not provided: <TX> <RX>\n"),
    ),
    (
        &["format", "left.disk", "0200000000010001", "1024"],
        Outcome::Usage("macsecd: the following required arguments were not provided: <RX>\n"),
    ),
    (
        &["apply"],
        Outcome::Usage(
            "macsecd: the following required arguments were not provided: <DISK> <FILE>\n",
        ),
    ),
    (
        &["apply", "left.disk"],
        Outcome::Usage("macsecd: the following required arguments were not provided: <FILE>\n"),
    ),
    (
        &["show"],
        Outcome::Usage("macsecd: the following required arguments were not provided: <DISK>\n"),
    ),
    (
        &["protect"],
        Outcome::Usage(
            "macsecd: the following required arguments were not provided: <DISK> <INPUT> <OUTPUT>\n",
        ),
    ),
    (
        &["protect", "left.disk"],
        Outcome::Usage(
            "macsecd: the following required arguments were not provided: <INPUT> <OUTPUT>\n",
        ),
    ),
    (
        &["protect", "left.disk", "plain.pcap"],
        Outcome::Usage("macsecd: the following required arguments were not provided: <OUTPUT>\n"),
    ),
    (
        &["validate"],
        Outcome::Usage(
            "macsecd: the following required arguments were not provided: <DISK> <INPUT> <OUTPUT>\n",
        ),
    ),
    (
        &["validate", "left.disk"],
        Outcome::Usage(
            "macsecd: the following required arguments were not provided: <INPUT> <OUTPUT>\n",
        ),
    ),
    (
        &["validate", "left.disk", "protected.pcap"],
        Outcome::Usage("macsecd: the following required arguments were not provided: <OUTPUT>\n"),
    ),
    (
        &["keep"],
        Outcome::Usage(
            "macsecd: the following required arguments were not provided: <DISK> <SOCKET>\n",
        ),
    ),
    (
        &["keep", "left.disk"],
        Outcome::Usage("macsecd: the following required arguments were not provided: <SOCKET>\n"),
    ),
    (
        &["ask"],
        Outcome::Usage(
            "macsecd: the following required arguments were not provided: <PATH> <WORD>\n",
        ),
    ),
    (
        &["ask", "control"],
        Outcome::Usage("macsecd: the following required arguments were not provided: <WORD>\n"),
    ),
    (
        &["inspect"],
        Outcome::Usage("macsecd: the following required arguments were not provided: <INPUT>\n"),
    ),
    (
        &["check"],
        Outcome::Usage("macsecd: the following required arguments were not provided: <FILE>\n"),
    ),
    (
        &["plan"],
        Outcome::Usage(
            "macsecd: the following required arguments were not provided: <FILE> <END> <STAGE>\n",
        ),
    ),
    (
        &["plan", "link.toml"],
        Outcome::Usage(
            "macsecd: the following required arguments were not provided: <END> <STAGE>\n",
        ),
    ),
    (
        &["plan", "link.toml", "left"],
        Outcome::Usage("macsecd: the following required arguments were not provided: <STAGE>\n"),
    ),
    (
        &["examine"],
        Outcome::Usage("macsecd: the following required arguments were not provided: <DISK>\n"),
    ),
];

/// Words that ask nothing that a relay is asked, and the line that says what it is asked.
const NO_QUESTION: Outcome = Outcome::Usage(
    "macsecd: ask PATH show, counters, keys, traffic, about, stop, or apply FILE\n",
);

const WORDS_OF_NO_QUESTION: &[&[&str]] = &[
    &["ask", "control", "Show"],
    &["ask", "control", "apply"],
    &["ask", "control", "show", "left.toml"],
    &["ask", "control", "", "left.toml"],
];

/// Words that want JSON of what is no report, and the line that says of what there is JSON.
const NO_REPORT: Outcome = Outcome::Usage(
    "macsecd: ask PATH show, counters, keys, traffic or about, with --json\n",
);

const WORDS_OF_NO_REPORT: &[&[&str]] = &[
    &["ask", "control", "stop", "--json"],
    &["ask", "control", "apply", "left.toml", "--json"],
    &["ask", "--json", "control", "stop"],
    &["ask", "control", "Show", "--json"],
];

#[test]
fn refuses_json_of_what_is_no_report(rt: HostRuntime) {
    expect_all(&rt, rt.alloc(), WORDS_OF_NO_REPORT, NO_REPORT);
}

#[test]
fn refuses_a_question_that_is_none(rt: HostRuntime) {
    expect_all(&rt, rt.alloc(), WORDS_OF_NO_QUESTION, NO_QUESTION);
}

/// Words that say no end or no stage, and the line that says which there are.
const NO_PLAN: Outcome = Outcome::Usage(
    "macsecd: plan FILE left or right, then first, receive, send or remove\n",
);

const WORDS_OF_NO_PLAN: &[&[&str]] = &[
    &["plan", "link.toml", "Left", "first"],
    &["plan", "link.toml", "first", "left"],
    &["plan", "link.toml", "left", "removed"],
    &["plan", "link.toml", "right", ""],
];

#[test]
fn refuses_a_plan_that_is_none(rt: HostRuntime) {
    expect_all(&rt, rt.alloc(), WORDS_OF_NO_PLAN, NO_PLAN);
}

/// Each value is required.
#[test]
fn refuses_a_value_too_few(rt: HostRuntime) {
    expect_each(&rt, rt.alloc(), WORDS_TOO_FEW);
}

/// Words with one value too many.
const WORDS_TOO_MANY: &[&[&str]] = &[
    &["open", "more"],
    &[
        "format",
        "left.disk",
        "0200000000010001",
        "1024",
        "16",
        "more",
    ],
    &["apply", "left.disk", "left.toml", "more"],
    &["show", "left.disk", "more"],
    &[
        "protect",
        "left.disk",
        "plain.pcap",
        "protected.pcap",
        "more",
    ],
    &[
        "validate",
        "left.disk",
        "protected.pcap",
        "plain.pcap",
        "more",
    ],
    &["keep", "left.disk", "keeper", "more"],
    &["ask", "control", "apply", "left.toml", "more"],
    &["key", "more"],
    &["key", "--long", "more"],
    &["inspect", "plain.pcap", "more"],
    &["check", "left.toml", "left.disk", "more"],
    &["plan", "link.toml", "left", "first", "more"],
    &["examine", "left.disk", "more"],
    &["about", "more"],
];

#[test]
fn refuses_a_value_too_many(rt: HostRuntime) {
    let outcome = Outcome::Usage("macsecd: unexpected argument 'more' found\n");
    expect_all(&rt, rt.alloc(), WORDS_TOO_MANY, outcome);
}

/// Words with an option, and the line that says that there is none.
const WORDS_WITH_OPTIONS: &[Row] = &[
    (
        &[
            "format",
            "left.disk",
            "0200000000010001",
            "1024",
            "16",
            "--frob",
        ],
        Outcome::Usage("macsecd: unexpected argument '--frob' found\n"),
    ),
    (
        &["format", "d", "s", "1", "1", "--over=1"],
        Outcome::Usage("macsecd: unexpected value '1' for '--over' found; no more were expected\n"),
    ),
    (
        &["format", "d", "s", "1", "1", "--over", "--over"],
        Outcome::Usage("macsecd: the argument '--over' cannot be used multiple times\n"),
    ),
    (
        &["format", "d", "s", "1", "1", "--block"],
        Outcome::Usage(
            "macsecd: a value is required for '--block <block>' but none was supplied\n",
        ),
    ),
    (
        &[
            "format", "d", "s", "1", "1", "--block", "512", "--block", "512",
        ],
        Outcome::Usage("macsecd: the argument '--block <block>' cannot be used multiple times\n"),
    ),
    (
        &["show", "left.disk", "--over"],
        Outcome::Usage("macsecd: unexpected argument '--over' found\n"),
    ),
    (
        &["apply", "--frob=1", "left.disk", "left.toml"],
        Outcome::Usage("macsecd: unexpected argument '--frob' found\n"),
    ),
    (
        &["show", "left.disk", "-f"],
        Outcome::Usage("macsecd: unexpected argument '-f' found\n"),
    ),
    (
        &[
            "protect",
            "left.disk",
            "-fg",
            "plain.pcap",
            "protected.pcap",
        ],
        Outcome::Usage("macsecd: unexpected argument '-f' found\n"),
    ),
    (
        &[
            "validate",
            "left.disk",
            "--",
            "plain.pcap",
            "protected.pcap",
            "--frob",
        ],
        Outcome::Usage("macsecd: unexpected argument '--frob' found\n"),
    ),
    (
        &["format", "left.disk", "--help"],
        Outcome::Usage("macsecd: unexpected argument '--help' found\n"),
    ),
    (
        &["apply", "left.disk", "left.toml", "--help"],
        Outcome::Usage("macsecd: unexpected argument '--help' found\n"),
    ),
    (
        &["show", "left.disk", "-h"],
        Outcome::Usage("macsecd: unexpected argument '-h' found\n"),
    ),
    (
        &["protect", "--help", "left.disk"],
        Outcome::Usage("macsecd: unexpected argument '--help' found\n"),
    ),
    (
        &["validate", "--version"],
        Outcome::Usage("macsecd: unexpected argument '--version' found\n"),
    ),
    (
        &["show", "-V"],
        Outcome::Usage("macsecd: unexpected argument '-V' found\n"),
    ),
    (
        &["protect", "d", "i", "o", "--all=1"],
        Outcome::Usage("macsecd: unexpected value '1' for '--all' found; no more were expected\n"),
    ),
    (
        &["validate", "--all", "d", "i", "o", "--all"],
        Outcome::Usage("macsecd: the argument '--all' cannot be used multiple times\n"),
    ),
    (
        &["validate", "d", "i", "o", "--each=1"],
        Outcome::Usage("macsecd: unexpected value '1' for '--each' found; no more were expected\n"),
    ),
    (
        &["validate", "--each", "d", "i", "o", "--each"],
        Outcome::Usage("macsecd: the argument '--each' cannot be used multiple times\n"),
    ),
    (
        &["protect", "d", "i", "o", "--each"],
        Outcome::Usage("macsecd: unexpected argument '--each' found\n"),
    ),
    (
        &["key", "--long=1"],
        Outcome::Usage("macsecd: unexpected value '1' for '--long' found; no more were expected\n"),
    ),
    (
        &["key", "--long", "--long"],
        Outcome::Usage("macsecd: the argument '--long' cannot be used multiple times\n"),
    ),
    (
        &["show", "left.disk", "--json"],
        Outcome::Usage("macsecd: unexpected argument '--json' found\n"),
    ),
    (
        &["ask", "control", "show", "--json", "--json"],
        Outcome::Usage("macsecd: the argument '--json' cannot be used multiple times\n"),
    ),
    (
        &["keep", "left.disk", "keeper", "--wait", "5"],
        Outcome::Usage("macsecd: unexpected argument '--wait' found\n"),
    ),
    (
        &["keep", "left.disk", "keeper", "--keeper"],
        Outcome::Usage("macsecd: unexpected argument '--keeper' found\n"),
    ),
    (
        &["protect", "--keeper", "d", "i", "o"],
        Outcome::Usage("macsecd: unexpected argument '--keeper' found\n"),
    ),
    (
        &["show", "left.disk", "--keeper"],
        Outcome::Usage("macsecd: unexpected argument '--keeper' found\n"),
    ),
    (
        &["inspect", "--long", "plain.pcap"],
        Outcome::Usage("macsecd: unexpected argument '--long' found\n"),
    ),
    (
        &["check", "left.toml", "--help"],
        Outcome::Usage("macsecd: unexpected argument '--help' found\n"),
    ),
];

/// No subcommand has another option than its own, and help is asked for right after its name
/// alone.
#[test]
fn refuses_options(rt: HostRuntime) {
    expect_each(&rt, rt.alloc(), WORDS_WITH_OPTIONS);
}

/// The numbers of `format` are in decimal digits, also those after `--`, where a hyphen is taken.
const NO_NUMBERS: &[Row] = &[
    (
        &["format", "d", "s", "-1", "16"],
        Outcome::Usage("macsecd: unexpected argument '-1' found\n"),
    ),
    (
        &["format", "d", "s", "-0", "16"],
        Outcome::Usage("macsecd: unexpected argument '-0' found\n"),
    ),
    (
        &["format", "d", "s", "x", "16"],
        Outcome::Usage("macsecd: invalid value 'x' for '<TX>': invalid digit found in string\n"),
    ),
    (
        &["format", "d", "s", "4294967296", "16"],
        Outcome::Usage(
            "macsecd: invalid value '4294967296' for '<TX>': 4294967296 is not in 0..=4294967295\n",
        ),
    ),
    (
        &["format", "d", "s", "18446744073709551616", "16"],
        Outcome::Usage(
            "macsecd: invalid value '18446744073709551616' for '<TX>': number too large to fit in target type\n",
        ),
    ),
    (
        &["format", "d", "s", "0x10", "16"],
        Outcome::Usage("macsecd: invalid value '0x10' for '<TX>': invalid digit found in string\n"),
    ),
    (
        &["format", "d", "s", " 1", "16"],
        Outcome::Usage("macsecd: invalid value ' 1' for '<TX>': invalid digit found in string\n"),
    ),
    (
        &["format", "d", "s", "", "16"],
        Outcome::Usage(
            "macsecd: invalid value '' for '<TX>': cannot parse integer from empty string\n",
        ),
    ),
    (
        &["format", "d", "s", "1024", "many"],
        Outcome::Usage("macsecd: invalid value 'many' for '<RX>': invalid digit found in string\n"),
    ),
    (
        &["format", "d", "s", "--", "-0", "16"],
        Outcome::Usage("macsecd: invalid value '-0' for '<TX>': invalid digit found in string\n"),
    ),
];

#[test]
fn refuses_what_is_no_number(rt: HostRuntime) {
    expect_each(&rt, rt.alloc(), NO_NUMBERS);
}

/// A file whose name begins with a hyphen.
const HYPHENS: &[Row] = &[
    (
        &["format", "-left.disk", "0200000000010001", "1024", "16"],
        Outcome::Usage("macsecd: unexpected argument '-l' found\n"),
    ),
    (
        &["apply", "-left.disk", "left.toml"],
        Outcome::Usage("macsecd: unexpected argument '-l' found\n"),
    ),
    (
        &["show", "-left.disk"],
        Outcome::Usage("macsecd: unexpected argument '-l' found\n"),
    ),
    (
        &["show", "--left.disk"],
        Outcome::Usage("macsecd: unexpected argument '--left.disk' found\n"),
    ),
    (
        &["protect", "-left.disk", "plain.pcap", "protected.pcap"],
        Outcome::Usage("macsecd: unexpected argument '-l' found\n"),
    ),
    (
        &["validate", "-left.disk", "protected.pcap", "plain.pcap"],
        Outcome::Usage("macsecd: unexpected argument '-l' found\n"),
    ),
];

#[test]
fn refuses_a_file_that_begins_with_a_hyphen(rt: HostRuntime) {
    expect_each(&rt, rt.alloc(), HYPHENS);
}

/// Words with characters that a terminal obeys, and the line that says why they are refused: it has
/// `?` in the place of each.
const CONTROL_WORDS: &[Row] = &[
    (
        &["\x1b[31mred"],
        Outcome::Usage("macsecd: unrecognized subcommand '?[31mred'\n"),
    ),
    (
        &["frob\rnicate"],
        Outcome::Usage("macsecd: unrecognized subcommand 'frob?nicate'\n"),
    ),
    (
        &["frob\tnicate"],
        Outcome::Usage("macsecd: unrecognized subcommand 'frob?nicate'\n"),
    ),
    (
        &["\u{9b}31mred"],
        Outcome::Usage("macsecd: unrecognized subcommand '?31mred'\n"),
    ),
    (
        &["\0\x1f \x7f\u{80}\u{9f}\u{a0}é"],
        Outcome::Usage("macsecd: unrecognized subcommand '?? ???\u{a0}é'\n"),
    ),
    (
        &["open", "--\x1b[31m\t\u{9b}"],
        Outcome::Usage("macsecd: unexpected argument '--?[31m??' found\n"),
    ),
    (
        &["\x1b[31m\r\t\u{9b}\nmacsecd: input"],
        Outcome::Usage("macsecd: unrecognized subcommand '?[31m????macsecd: input'\n"),
    ),
];

#[test]
fn says_nothing_that_a_terminal_obeys(rt: HostRuntime) {
    expect_each(&rt, rt.alloc(), CONTROL_WORDS);
}

/// Words for which there are tips, and the line that has them.
const TIPS: &[Row] = &[
    (
        &["formt"],
        Outcome::Usage(
            "macsecd: unrecognized subcommand 'formt' tip: a similar subcommand exists: 'format'\n",
        ),
    ),
    (
        &["key", "--lon"],
        Outcome::Usage(
            "macsecd: unexpected argument '--lon' found tip: a similar argument exists: '--long'\n",
        ),
    ),
    (
        &["show", "left.disk", "--frob"],
        Outcome::Usage("macsecd: unexpected argument '--frob' found\n"),
    ),
    (
        &["--lon", "key"],
        Outcome::Usage("macsecd: unexpected argument '--lon' found tip: 'key --long' exists\n"),
    ),
    (
        &["--frob", "validate", "--all"],
        Outcome::Usage("macsecd: unexpected argument '--frob' found\n"),
    ),
    (
        &["show", "left.disk", "--frob\n\n  tip: no"],
        Outcome::Usage("macsecd: unexpected argument '--frob tip: no' found\n"),
    ),
    (
        &["no\n\n  tip: open"],
        Outcome::Usage("macsecd: unrecognized subcommand 'no tip: open'\n"),
    ),
    (
        &["format\n\n"],
        Outcome::Usage(
            "macsecd: unrecognized subcommand 'format??' tip: a similar subcommand exists: 'format'\n",
        ),
    ),
];

#[test]
fn a_refused_word_has_its_tips(rt: HostRuntime) {
    expect_each(&rt, rt.alloc(), TIPS);
}
