//! Words that are no relay, and the line that says why. No file is made.

use super::{Row, expect_each};
use macsecd_tests::Outcome::Usage;
use std::fs;
use std::test::Fail;

const OWN1: &str = "macsecd: OWN1 is not an address and a port\n";

/// A word that is no address, and an address of any port.
const BAD: &str = "localhost:4000";

const ANY: &str = "127.0.0.1:0";

const NO: &str = "story-relay/no";

const WORDS: &[Row] = &[
    (
        &["relay", NO, ANY, ANY, ANY, ANY],
        Usage(
            "macsecd: the following required arguments were not provided: --turns n or --wait MS\n",
        ),
    ),
    (
        &["relay", NO, ANY, ANY, ANY, "--turns", "5"],
        Usage("macsecd: the following required arguments were not provided: <PEER2>\n"),
    ),
    (
        &["relay", NO, ANY, ANY, ANY, ANY, ANY, "--turns", "5"],
        Usage("macsecd: unexpected argument '127.0.0.1:0' found\n"),
    ),
    (
        &["relay", NO, ANY, ANY, ANY, ANY, "--turns", "x"],
        Usage("macsecd: invalid value 'x' for '--turns <turns>': invalid digit found in string\n"),
    ),
    (
        &[
            "relay",
            NO,
            ANY,
            ANY,
            ANY,
            ANY,
            "--turns",
            "18446744073709551616",
        ],
        Usage(
            "macsecd: invalid value '18446744073709551616' for '--turns <turns>': number too large to fit in target type\n",
        ),
    ),
    (
        &[
            "relay", NO, ANY, ANY, ANY, ANY, "--turns", "1", "--turns", "2",
        ],
        Usage("macsecd: the argument '--turns <turns>' cannot be used multiple times\n"),
    ),
    (
        &["relay", NO, ANY, ANY, ANY, ANY, "--turn", "1"],
        Usage(
            "macsecd: unexpected argument '--turn' found tip: a similar argument exists: '--turns'\n",
        ),
    ),
    (
        &["relay", NO, ANY, ANY, ANY, "--wait", "5"],
        Usage("macsecd: the following required arguments were not provided: <PEER2>\n"),
    ),
    (
        &["relay", "--", NO, ANY, ANY, ANY, "--wait"],
        Usage(
            "macsecd: the following required arguments were not provided: --turns n or --wait MS\n",
        ),
    ),
    (
        &["relay", NO, ANY, ANY, ANY, ANY, "--wait", "0"],
        Usage("macsecd: invalid value '0' for '--wait <wait>': 0 is not in 1..=60000\n"),
    ),
    (
        &["relay", NO, ANY, ANY, ANY, ANY, "--wait=60001"],
        Usage("macsecd: invalid value '60001' for '--wait <wait>': 60001 is not in 1..=60000\n"),
    ),
    (
        &["relay", NO, ANY, ANY, ANY, ANY, "--wait", "1s"],
        Usage("macsecd: invalid value '1s' for '--wait <wait>': invalid digit found in string\n"),
    ),
    (
        &["relay", NO, ANY, ANY, ANY, ANY, "--turns", "5", "--wait"],
        Usage("macsecd: a value is required for '--wait <wait>' but none was supplied\n"),
    ),
    (
        &[
            "relay", NO, ANY, ANY, ANY, ANY, "--wait", "1", "--wait", "1",
        ],
        Usage("macsecd: the argument '--wait <wait>' cannot be used multiple times\n"),
    ),
    (
        &["relay", NO, BAD, BAD, BAD, BAD, "--wait", "5"],
        Usage(OWN1),
    ),
    (
        &["relay", NO, ANY, ANY, ANY, ANY, "--control", NO],
        Usage(
            "macsecd: the following required arguments were not provided: --turns n or --wait MS\n",
        ),
    ),
    (
        &["relay", NO, ANY, ANY, ANY, ANY, "--turns", "1", "--control"],
        Usage("macsecd: a value is required for '--control <control>' but none was supplied\n"),
    ),
    (
        &[
            "relay",
            NO,
            ANY,
            ANY,
            ANY,
            ANY,
            "--metrics",
            "a",
            "--metrics",
            "b",
        ],
        Usage("macsecd: the argument '--metrics <metrics>' cannot be used multiple times\n"),
    ),
    (
        &["relay", NO, ANY, ANY, ANY, ANY, "--keeper=s"],
        Usage(
            "macsecd: the following required arguments were not provided: --turns n or --wait MS\n",
        ),
    ),
    (
        &["relay", NO, ANY, ANY, ANY, ANY, "--turns=1", "--keeper"],
        Usage("macsecd: a value is required for '--keeper <keeper>' but none was supplied\n"),
    ),
    (
        &[
            "relay",
            NO,
            ANY,
            ANY,
            ANY,
            ANY,
            "--keeper=s",
            "--wait=1",
            "--keeper=s",
        ],
        Usage("macsecd: the argument '--keeper <keeper>' cannot be used multiple times\n"),
    ),
    (
        &["relay", NO, ANY, ANY, ANY, ANY, "--buffer", "0"],
        Usage("macsecd: invalid value '0' for '--buffer <buffer>': 0 is not in 1..=1073741823\n"),
    ),
    (
        &["relay", NO, ANY, ANY, ANY, ANY, "--buffer=1073741824"],
        Usage(
            "macsecd: invalid value '1073741824' for '--buffer <buffer>': 1073741824 is not in 1..=1073741823\n",
        ),
    ),
];

#[test]
fn other_words_are_no_relay(rt: HostRuntime) -> Result<(), Fail> {
    expect_each(&rt, rt.alloc(), WORDS);
    assert!(rt; !fs::exists(&rt, NO)?, "{NO}");
    Ok(())
}
