//! Command files that cannot be read: the line that says where and why.

use super::expect;
use macsecd_tests::Outcome;
use std::alloc::Global;
use std::fs;
use std::fs::File;
use std::net::Net;
use std::process::Abort;
use std::random::RandomSource;
use std::rt::{Clock, Env, Files};
use std::test::Fail;

/// Command files with a fault, and the line that says where it is and why.
const FAULTS: &[(&str, &str)] = &[
    (
        "[[command]]\ndo = 'tx-use'\nan = 0\n[[command]]\ndo = 'rx-add'\nsci = '12153524c0895e81'\n[[command]]\ndo = 'tx-install'\nan = 0\nkey = 'ad7a2bd03eac835a6f620fdcb506b34'\n",
        "macsecd: command 3 key: not 32 or 64 hex digits\n",
    ),
    (
        "[[command]]\ndo = 'tx-use'\nan = 4\n",
        "macsecd: command 1 an: not 0 to 3\n",
    ),
    (
        "[[command]]\ndo = 'rx-add'\n",
        "macsecd: command 1 sci: missing\n",
    ),
    (
        "[[command]]\ndo = 'tx-use'\nan = 0\n[[command]]\ndo = 'rx-add'\nsci = 1\n",
        "macsecd: command 2 sci: not 16 hex digits\n",
    ),
    (
        "[[command]]\ndo = 'set-validate'\nmode = 'explicit'\n",
        "macsecd: command 1 mode: not a mode of this command\n",
    ),
    (
        "[[command]]\ndo = 'set-replay'\non = 1\nwindow = 0\n",
        "macsecd: command 1 on: not true or false\n",
    ),
    (
        "[[command]]\ndo = 'set-replay'\non = true\nwindow = -1\n",
        "macsecd: command 1 window: not 0 to 4294967295\n",
    ),
];

/// The same of further keys, and of files that are not of commands.
const FURTHER_FAULTS: &[(&str, &str)] = &[
    (
        "[[command]]\ndo = 'tx-install'\nan = 0\nkey = 'ad7a2bd03eac835a6f620fdcb506b345'\nstart = 4294967296\n",
        "macsecd: command 1 start: not 0 to 4294967295\n",
    ),
    (
        "[[command]]\ndo = 'tx-install'\nan = 0\nkey = 'ad7a2bd03eac835a6f620fdcb506b345'\nstart = 1\n",
        "macsecd: command 1 confidential: missing\n",
    ),
    (
        "[[command]]\ndo = 'tx-install'\nan = 0\nkey = 'ad7a2bd03eac835a6f620fdcb506b345'\nstart = 1\nconfidential = 1\n",
        "macsecd: command 1 confidential: not true or false\n",
    ),
    (
        "[[command]]\ndo = 'tx-install'\nan = 0\nkey = 'ad7a2bd03eac835a6f620fdcb506b345'\nstart = 1\nconfidential = true\noffset = 256\n",
        "macsecd: command 1 offset: not 0 to 255\n",
    ),
    (
        "[[command]]\ndo = 'tx-use'\nan = 0\n[[command]]\ndo = 'use-tx'\nan = 0\n",
        "macsecd: command 2 do: not a command\n",
    ),
    (
        "[[command]]\nan = 0\n",
        "macsecd: command 1 do: not a command\n",
    ),
    (
        "[[command]]\ndo = 'tx-use'\nan = 0\nkey = ''\n",
        "macsecd: command 1 key: not a key of this command\n",
    ),
    (
        "key = '12153524c0895e81'\n",
        "macsecd: command file: not sci and tables [[command]] alone\n",
    ),
    (
        "[[command]\n",
        "macsecd: command file: line 1 column 11: not TOML\n",
    ),
    // Columns count characters.
    (
        "# \u{e9}\nsci = '\u{e9}' x\n",
        "macsecd: command file: line 2 column 11: not TOML\n",
    ),
];

/// The same of keys that a command does not have, of which the first in the order of their octets
/// is named.
const OTHER_KEYS: &[(&str, &str)] = &[
    (
        "[[command]]\ndo = 'tx-use'\nan = 0\nfrobnicate = 1\nconfidential = true\n",
        "macsecd: command 1 confidential: not a key of this command\n",
    ),
    (
        "[[command]]\ndo = 'tx-use'\nan = 0\n[[command]]\ndo = 'rx-add'\nsci = '12153524c0895e81'\nfrob.nicate = 1\n",
        "macsecd: command 2 frob: not a key of this command\n",
    ),
    // A key may be of any characters.
    (
        "[[command]]\ndo = 'tx-use'\nan = 0\n\"\\u001b[1m\\n\" = 1\n",
        "macsecd: command 1 ?[1m?: not a key of this command\n",
    ),
    (
        "[[command]]\ndo = 'tx-use'\nan = 0\n'' = 1\n",
        "macsecd: command 1 : not a key of this command\n",
    ),
    // 64 characters, and one more.
    (
        "[[command]]\ndo = 'tx-use'\nan = 0\n'0123456789abcdef0123456789abcdef0123456789abcdef0123456789abcde\u{e9}' = 1\n",
        "macsecd: command 1 0123456789abcdef0123456789abcdef0123456789abcdef0123456789abcde\u{e9}: not a key of this command\n",
    ),
    (
        "[[command]]\ndo = 'tx-use'\nan = 0\n'0123456789abcdef0123456789abcdef0123456789abcdef0123456789abcde\u{e9}.' = 1\n",
        "macsecd: command 1 0123456789abcdef0123456789abcdef0123456789abcdef0123456789abcde\u{e9}..: not a key of this command\n",
    ),
];

/// The same of files that name their end.
const END_FAULTS: &[(&str, &str)] = &[
    (
        "sci = '12153524c0895e8'\n[[command]]\ndo = 'use-tx'\n",
        "macsecd: command file sci: not 16 hex digits\n",
    ),
    (
        "sci = 1\nkey = 1\n",
        "macsecd: command file sci: not 16 hex digits\n",
    ),
    (
        "sci = '12153524c0895e81'\nkey = 1\n",
        "macsecd: command file: not sci and tables [[command]] alone\n",
    ),
    (
        "sci = '12153524c0895e81'\n[[command]]\ndo = 'tx-use'\nan = 4\n",
        "macsecd: command 1 an: not 0 to 3\n",
    ),
    // After a table `sci` is a key of that command.
    (
        "[[command]]\ndo = 'tx-use'\nan = 0\nsci = '12153524c0895e81'\n",
        "macsecd: command 1 sci: not a key of this command\n",
    ),
    (
        "[[command]]\ndo = 'rx-add'\nsci = '12153524c0895e83'\nsci = '12153524c0895e81'\n",
        "macsecd: command file: line 4 column 1: not TOML\n",
    ),
];

/// Checks a file of this text, in which the first fault is that of a line.
fn expect_fault(
    rt: &(impl Abort + Files<File = File> + Net + Clock + Env + RandomSource),
    alloc: Global,
    text: &str,
    line: &'static str,
) -> Result<(), Fail> {
    fs::write(rt, "fault.toml", text.as_bytes())?;
    expect(
        rt,
        alloc,
        &["check", "fault.toml"],
        "",
        Outcome::Fault(line),
    );
    Ok(())
}

/// Checks a file of each text.
fn expect_each(
    rt: &(impl Abort + Files<File = File> + Net + Clock + Env + RandomSource),
    alloc: Global,
    faults: &[(&str, &'static str)],
) -> Result<(), Fail> {
    for (text, line) in faults {
        expect_fault(rt, alloc, text, *line)?;
    }
    Ok(())
}

#[test]
fn the_first_fault_is_named(rt: HostRuntime) -> Result<(), Fail> {
    expect_each(&rt, rt.alloc(), FAULTS)?;
    expect_each(&rt, rt.alloc(), FURTHER_FAULTS)?;
    expect_each(&rt, rt.alloc(), OTHER_KEYS)?;
    expect_each(&rt, rt.alloc(), END_FAULTS)
}
