//! Files of a link of which nothing is planned: the line that says why.

use super::expect;
use macsecd_tests::{ONE_PAIR, Outcome};
use std::alloc::Global;
use std::fs;
use std::fs::File;
use std::net::Net;
use std::process::Abort;
use std::random::RandomSource;
use std::rt::{Clock, Env, Files};
use std::test::Fail;

/// Files of which nothing is planned, and the line that says why.
const FAULTS: &[(&str, &str)] = &[
    (
        "[left]\nsci = '020000000001000'\n[right]\nsci = '0200000000020001'\n[[key]]\n",
        "macsecd: left sci: not 16 hex digits\n",
    ),
    (
        "[left]\nsci = '0200000000010001'\n[right]\nsci = 2\n[[key]]\n",
        "macsecd: right sci: not 16 hex digits\n",
    ),
    (
        "[left]\nsci = '0200000000010001'\nan = 0\n[right]\nsci = '0200000000020001'\n[[key]]\n",
        "macsecd: left: a key that it does not have\n",
    ),
    (
        "[left]\nsci = '0200000000010001'\n[right]\nsci = '0200000000020001'\nan = 0\n[[key]]\n",
        "macsecd: right: a key that it does not have\n",
    ),
    (
        "[left]\nsci = '0200000000010001'\n[right]\nsci = '0200000000020001'\n[[key]]\nan = 0\nleft = '5a1c7e93d04b26f8a97d31e4026fb85'\n",
        "macsecd: key 1 left: not 32 or 64 hex digits\n",
    ),
    (
        "[left]\nsci = '0200000000010001'\n[right]\nsci = '0200000000020001'\n[[key]]\nan = 0\nleft = '5a1c7e93d04b26f8a97d31e4026fb85c'\n",
        "macsecd: key 1 right: not 32 or 64 hex digits\n",
    ),
    (
        "[left]\nsci = '0200000000010001'\n[right]\nsci = '0200000000020001'\n[[key]]\nan = 0\nleft = '5a1c7e93d04b26f8a97d31e4026fb85c'\nright = 'e07b49d6158c32af6e90b7c4fd2a8113'\nstart = 1\n",
        "macsecd: key 1: a key that it does not have\n",
    ),
    (
        "[left]\nsci = '0200000000010001'\n[right]\nsci = '0200000000020001'\n[[key]]\nan = 0\nleft = '5a1c7e93d04b26f8a97d31e4026fb85c'\nright = 'e07b49d6158c32af6e90b7c4fd2a8113'\n[[key]]\nan = 4\n",
        "macsecd: key 2 an: not 0 to 3\n",
    ),
];

/// The same of files that say no link, or too little of one.
const FURTHER_FAULTS: &[(&str, &str)] = &[
    (ONE_PAIR, "macsecd: one key\n"),
    (
        "[left]\nsci = '0200000000010001'\n[right]\nsci = '0200000000020001'\n",
        "macsecd: link file: not [left], [right] and tables [[key]] alone\n",
    ),
    (
        "name = 'a'\n[left]\nsci = '0200000000010001'\n[right]\nsci = '0200000000020001'\n[[key]]\n",
        "macsecd: link file: not [left], [right] and tables [[key]] alone\n",
    ),
    ("[left\n", "macsecd: link file: line 1 column 6: not TOML\n"),
];

/// Links that are refused, and the line that says why.
const REFUSED_LINKS: &[(&str, &str)] = &[
    (
        "[left]\nsci = '0200000000010001'\n[right]\nsci = '0200000000010001'\n[[key]]\nan = 0\nleft = '5a1c7e93d04b26f8a97d31e4026fb85c'\nright = 'e07b49d6158c32af6e90b7c4fd2a8113'\n",
        "macsecd: same sci\n",
    ),
    (
        "[left]\nsci = '0200000000010001'\n[right]\nsci = '0200000000020001'\n[[key]]\nan = 0\nleft = '5a1c7e93d04b26f8a97d31e4026fb85c'\nright = '5A1C7E93D04B26F8A97D31E4026FB85C'\n",
        "macsecd: same key\n",
    ),
    (
        "[left]\nsci = '0200000000010001'\n[right]\nsci = '0200000000020001'\n[[key]]\nan = 0\nleft = '5a1c7e93d04b26f8a97d31e4026fb85c'\nright = 'e07b49d6158c32af6e90b7c4fd2a8113'\n[[key]]\nan = 0\nleft = '00112233445566778899aabbccddeeff'\nright = 'ffeeddccbbaa99887766554433221100'\n",
        "macsecd: an in use\n",
    ),
];

/// Plans the sending of a file of this text.
fn expect_plan(
    rt: &(impl Abort + Files<File = File> + Net + Clock + Env + RandomSource),
    alloc: Global,
    text: &str,
    outcome: Outcome,
) -> Result<(), Fail> {
    fs::write(rt, "link-fault.toml", text.as_bytes())?;
    let words = ["plan", "link-fault.toml", "left", "send"];
    expect(rt, alloc, &words, "", outcome);
    Ok(())
}

/// Plans a file of each text, whose first fault is that of its line.
fn expect_each(
    rt: &(impl Abort + Files<File = File> + Net + Clock + Env + RandomSource),
    alloc: Global,
    faults: &[(&str, &'static str)],
) -> Result<(), Fail> {
    for (text, line) in faults {
        expect_plan(rt, alloc, text, Outcome::Fault(*line))?;
    }
    Ok(())
}

/// Plans a file of each text, whose link is refused so.
fn expect_refused(
    rt: &(impl Abort + Files<File = File> + Net + Clock + Env + RandomSource),
    alloc: Global,
    links: &[(&str, &'static str)],
) -> Result<(), Fail> {
    for (text, line) in links {
        expect_plan(rt, alloc, text, Outcome::LinkRefused(*line))?;
    }
    Ok(())
}

#[test]
fn why_nothing_is_planned_is_said(rt: HostRuntime) -> Result<(), Fail> {
    expect_each(&rt, rt.alloc(), FAULTS)?;
    expect_each(&rt, rt.alloc(), FURTHER_FAULTS)
}

#[test]
fn links_are_refused(rt: HostRuntime) -> Result<(), Fail> {
    expect_refused(&rt, rt.alloc(), REFUSED_LINKS)
}
