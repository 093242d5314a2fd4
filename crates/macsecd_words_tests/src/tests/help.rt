//! What asks for help, and that what the help names is there.

use super::help_text::{
    ABOUT_TEXT, APPLY_TEXT, ASK_TEXT, CHECK_TEXT, EXAMINE_TEXT, FORMAT_TEXT, HELP_TEXT,
    INSPECT_TEXT, KEEP_TEXT, KEY_TEXT, OPEN_TEXT, PLAN_TEXT, PROTECT_TEXT, RELAY_TEXT, SHOW_TEXT,
    VALIDATE_TEXT,
};
use super::{INPUT, OPENED, expect, printed};
use macsecd_tests::Outcome;
use std::alloc::Global;
use std::fs::File;
use std::net::Net;
use std::process::Abort;
use std::random::RandomSource;
use std::rt::{Clock, Env, Files};

/// What `--version` prints.
const VERSION_TEXT: &str = "macsecd 0.1.0\n";

/// Four lines, of which the last is empty: a frame of no octets.
const RUNT_INPUT: &str = "ad7a2bd03eac835a6f620fdcb506b345\n12153524c0895e81\n0\n\n";

/// The flags that ask for help.
const FLAGS: &[&str] = &["--help", "-h"];

#[test]
fn prints_help(rt: HostRuntime) {
    for flag in FLAGS {
        expect(&rt, rt.alloc(), &[*flag], "", Outcome::Done(HELP_TEXT));
    }
}

#[test]
fn prints_its_version(rt: HostRuntime) {
    let version = Outcome::Done(VERSION_TEXT);
    expect(&rt, rt.alloc(), &["--version"], "", version);
}

/// What `about` prints of the sources as they are in the repository.
const PROGRAM: Outcome = Outcome::Done(
    "macsecd 0.1.0
commit unknown
toolchain unknown
built for x86-64-v2
journal writes format 2
journal reads formats 1, 2
",
);

#[test]
fn prints_which_program_it_is(rt: HostRuntime) {
    expect(&rt, rt.alloc(), &["about"], "", PROGRAM);
}

/// Asks for help on a subcommand with both flags.
fn expect_help(
    rt: &(impl Abort + Files<File = File> + Net + Clock + Env + RandomSource),
    alloc: Global,
    name: &str,
    text: &'static str,
) {
    for flag in FLAGS {
        expect(rt, alloc, &[name, *flag], "", Outcome::Done(text));
    }
}

#[test]
fn prints_help_on_frames_and_commands(rt: HostRuntime) {
    expect_help(&rt, rt.alloc(), "open", OPEN_TEXT);
    expect_help(&rt, rt.alloc(), "apply", APPLY_TEXT);
}

#[test]
fn prints_help_on_disks(rt: HostRuntime) {
    expect_help(&rt, rt.alloc(), "format", FORMAT_TEXT);
    expect_help(&rt, rt.alloc(), "show", SHOW_TEXT);
    expect_help(&rt, rt.alloc(), "examine", EXAMINE_TEXT);
}

#[test]
fn prints_help_on_captures(rt: HostRuntime) {
    expect_help(&rt, rt.alloc(), "protect", PROTECT_TEXT);
    expect_help(&rt, rt.alloc(), "validate", VALIDATE_TEXT);
}

#[test]
fn prints_help_on_relays(rt: HostRuntime) {
    expect_help(&rt, rt.alloc(), "relay", RELAY_TEXT);
    expect_help(&rt, rt.alloc(), "keep", KEEP_TEXT);
    expect_help(&rt, rt.alloc(), "ask", ASK_TEXT);
}

#[test]
fn prints_help_on_what_needs_no_disk(rt: HostRuntime) {
    expect_help(&rt, rt.alloc(), "key", KEY_TEXT);
    expect_help(&rt, rt.alloc(), "inspect", INSPECT_TEXT);
    expect_help(&rt, rt.alloc(), "check", CHECK_TEXT);
    expect_help(&rt, rt.alloc(), "plan", PLAN_TEXT);
    expect_help(&rt, rt.alloc(), "about", ABOUT_TEXT);
}

/// Asserts that a text has this part.
fn expect_in(rt: &impl Abort, printed: &[u8], part: &str) {
    let Ok(text) = str::from_utf8(printed) else {
        panic!(rt; "no text");
    };
    assert!(rt; text.contains(part), "{part}");
}

/// Asserts that what is printed for these words has this part.
fn expect_part(
    rt: &(impl Abort + Files<File = File> + Net + Clock + Env + RandomSource),
    alloc: Global,
    words: &[&str],
    part: &str,
) {
    let text = printed(rt, alloc, words);
    expect_in(rt, text.as_slice(), part);
}

/// The subcommands with their values, as the help lists them.
const FORMS: &[&str] = &[
    "\n  open   ",
    "\n  format DISK SCI TX RX   ",
    "\n  apply DISK FILE   ",
    "\n  show DISK   ",
    "\n  protect DISK INPUT OUTPUT   ",
    "\n  validate DISK INPUT OUTPUT   ",
    "\n  relay DISK OWN1 PEER1 OWN2 PEER2 --turns n\n",
    "\n  keep DISK SOCKET   ",
    "\n  ask PATH show|counters|keys|traffic|about|stop|apply FILE\n",
    "\n  key   ",
    "\n  inspect INPUT   ",
    "\n  check FILE [DISK]   ",
    "\n  plan FILE left|right first|receive|send|remove\n",
    "\n  examine DISK   ",
    "\n  about   ",
];

#[test]
fn lists_each_subcommand(rt: HostRuntime) {
    for form in FORMS {
        expect_part(&rt, rt.alloc(), &["--help"], form);
    }
}

/// What the help names, and a run of these words on this input that shows it.
const NAMED: &[(&str, &[&str], &str, Outcome)] = &[
    ("also without a word", &[], INPUT, OPENED),
    (
        "--version prints the version",
        &["--version"],
        "",
        Outcome::Done(VERSION_TEXT),
    ),
    (
        "2 usage",
        &["close"],
        INPUT,
        Outcome::Usage("macsecd: unrecognized subcommand 'close'\n"),
    ),
    (
        "3 refused",
        &["open"],
        RUNT_INPUT,
        Outcome::Refused("runt\n"),
    ),
    ("5 input", &["open"], "", Outcome::Fault("macsecd: input\n")),
];

/// What the help says of words is so.
#[test]
fn names_what_there_is(rt: HostRuntime) {
    for (name, words, input, outcome) in NAMED {
        expect_part(&rt, rt.alloc(), &["--help"], name);
        expect(&rt, rt.alloc(), words, input, *outcome);
    }
}

/// What the help of `open` names.
const NAMED_OF_OPEN: &[(&str, &str, Outcome)] = &[
    ("0 valid", INPUT, OPENED),
    ("3 frame refused", RUNT_INPUT, Outcome::Refused("runt\n")),
    ("5 input", "", Outcome::Fault("macsecd: input\n")),
];

#[test]
fn names_what_open_does(rt: HostRuntime) {
    for (name, input, outcome) in NAMED_OF_OPEN {
        expect_part(&rt, rt.alloc(), &["open", "--help"], name);
        expect(&rt, rt.alloc(), &["open"], input, *outcome);
    }
}
