//! Inputs: their lines, and each fault.

use super::{
    FourLines, INTEGRITY, KEY, OPENED, SCI, expect, expect_lines_and, expect_openings,
    expect_texts, joined,
};
use macsecd_tests::Outcome;
use std::test::Fail;

const INPUT_FAULT: Outcome = Outcome::Fault("macsecd: input\n");

const KEY_FAULT: Outcome = Outcome::Fault("macsecd: key\n");

const SCI_FAULT: Outcome = Outcome::Fault("macsecd: sci\n");

const OFFSET_FAULT: Outcome = Outcome::Fault("macsecd: offset\n");

const FRAME_FAULT: Outcome = Outcome::Fault("macsecd: frame\n");

/// Inputs of texts, one after another, and what they come to.
const INPUTS: &[(&[&str], Outcome)] = &[
    // Lines however they end.
    (&[KEY, "\n", SCI, "\n0\n", INTEGRITY], OPENED),
    (&[KEY, "\r\n", SCI, "\r\n0\r\n", INTEGRITY, "\r\n"], OPENED),
    (&[KEY, "\n", SCI, "\r\n0\n", INTEGRITY, "\r"], OPENED),
    // Fewer lines than four, and more.
    (&[], INPUT_FAULT),
    (&["\n"], INPUT_FAULT),
    (&[KEY, "\n", SCI, "\n0"], INPUT_FAULT),
    (&[KEY, "\n", SCI, "\n0\n"], INPUT_FAULT),
    (&[KEY, "\n", SCI, "\n0\n", INTEGRITY, "\n\n"], INPUT_FAULT),
    (&[KEY, "\n", SCI, "\n0\n", INTEGRITY, "\n\r"], INPUT_FAULT),
    (&[KEY, "\n", SCI, "\n0\n", INTEGRITY, "\n00"], INPUT_FAULT),
    // The fourth line is empty: a frame of no octets.
    (&[KEY, "\n", SCI, "\n0\n\n"], Outcome::Refused("runt\n")),
    (&[KEY, "\n", SCI, "\n0\n\r\n"], Outcome::Refused("runt\n")),
    (&[KEY, "\n", SCI, "\n0\n\r"], Outcome::Refused("runt\n")),
];

#[test]
fn reads_four_lines_however_they_end(rt: HostRuntime) -> Result<(), Fail> {
    for (texts, outcome) in INPUTS {
        expect_texts(&rt, rt.alloc(), texts, *outcome)?;
    }
    Ok(())
}

#[test]
fn reads_digits_of_either_case(rt: HostRuntime) {
    let input =
        "AD7A2BD03EAC835A6F620FDCB506B345\n12153524C0895E81\n0\nD609B1F056637A0D46DF998D88E5222AB2C2846512153524C0895E8108000F101112131415161718191A1B1C1D1E1F202122232425262728292A2B2C2D2E2F30313233340001F09478A9B09007D06F46E9B6A1DA25DD\n";
    expect(&rt, rt.alloc(), &["open"], input, OPENED);
}

/// Lines that are wrong in a single respect.
const WRONG_LINES: &[FourLines] = &[
    // Each line of a key ends in a carriage return, which is dropped: of two the first stays.
    (["\r", SCI, "0", INTEGRITY], KEY_FAULT),
    (
        ["ad7a2bd03eac835a6f620fdcb506b34\r", SCI, "0", INTEGRITY],
        KEY_FAULT,
    ),
    (
        ["ad7a2bd03eac835a6f620fdcb506b34500\r", SCI, "0", INTEGRITY],
        KEY_FAULT,
    ),
    (
        ["ad7a2bd03eac835a6f620fdcb506b34g\r", SCI, "0", INTEGRITY],
        KEY_FAULT,
    ),
    (
        [" ad7a2bd03eac835a6f620fdcb506b345\r", SCI, "0", INTEGRITY],
        KEY_FAULT,
    ),
    (
        ["ad7a2bd03eac835a6f620fdcb506b345\r\r", SCI, "0", INTEGRITY],
        KEY_FAULT,
    ),
    (
        [
            "ad7a2bd03eac835a6f620fdcb506b345ad7a2bd03eac835a6f620fdcb506b34\r",
            SCI,
            "0",
            INTEGRITY,
        ],
        KEY_FAULT,
    ),
    (
        [
            "ad7a2bd03eac835a6f620fdcb506b345ad7a2bd03eac835a6f620fdcb506b34500\r",
            SCI,
            "0",
            INTEGRITY,
        ],
        KEY_FAULT,
    ),
    (
        [
            "ad7a2bd03eac835a6f620fdcb506b345ad7a2bd03eac835a\r",
            SCI,
            "0",
            INTEGRITY,
        ],
        KEY_FAULT,
    ),
    ([KEY, "", "0", INTEGRITY], SCI_FAULT),
    ([KEY, "12153524c0895e8", "0", INTEGRITY], SCI_FAULT),
    ([KEY, "12153524c0895e8100", "0", INTEGRITY], SCI_FAULT),
    ([KEY, "12153524c0895e8x", "0", INTEGRITY], SCI_FAULT),
    ([KEY, SCI, "", INTEGRITY], OFFSET_FAULT),
    ([KEY, SCI, "00", INTEGRITY], OFFSET_FAULT),
    ([KEY, SCI, "1", INTEGRITY], OFFSET_FAULT),
    ([KEY, SCI, "31", INTEGRITY], OFFSET_FAULT),
    ([KEY, SCI, "030", INTEGRITY], OFFSET_FAULT),
    ([KEY, SCI, "30 ", INTEGRITY], OFFSET_FAULT),
    ([KEY, SCI, "+30", INTEGRITY], OFFSET_FAULT),
    ([KEY, SCI, "500", INTEGRITY], OFFSET_FAULT),
    ([KEY, SCI, "0", "0"], FRAME_FAULT),
    ([KEY, SCI, "0", "000"], FRAME_FAULT),
    ([KEY, SCI, "0", "0g"], FRAME_FAULT),
    ([KEY, SCI, "0", " 00"], FRAME_FAULT),
    ([KEY, SCI, "0", "0x00"], FRAME_FAULT),
];

#[test]
fn refuses_each_wrong_line(rt: HostRuntime) -> Result<(), Fail> {
    expect_openings(&rt, rt.alloc(), WRONG_LINES)
}

/// Every choice of wrong lines: of two and more faults the first is reported.
const SEVERAL_WRONG_LINES: &[FourLines] = &[
    ([KEY, SCI, "0", "f"], FRAME_FAULT),
    ([KEY, SCI, "o", INTEGRITY], OFFSET_FAULT),
    ([KEY, SCI, "o", "f"], OFFSET_FAULT),
    ([KEY, "s", "0", INTEGRITY], SCI_FAULT),
    ([KEY, "s", "0", "f"], SCI_FAULT),
    ([KEY, "s", "o", INTEGRITY], SCI_FAULT),
    ([KEY, "s", "o", "f"], SCI_FAULT),
    (["k", SCI, "0", INTEGRITY], KEY_FAULT),
    (["k", SCI, "0", "f"], KEY_FAULT),
    (["k", SCI, "o", INTEGRITY], KEY_FAULT),
    (["k", SCI, "o", "f"], KEY_FAULT),
    (["k", "s", "0", INTEGRITY], KEY_FAULT),
    (["k", "s", "0", "f"], KEY_FAULT),
    (["k", "s", "o", INTEGRITY], KEY_FAULT),
    (["k", "s", "o", "f"], KEY_FAULT),
];

#[test]
fn tells_the_first_fault(rt: HostRuntime) -> Result<(), Fail> {
    expect_openings(&rt, rt.alloc(), SEVERAL_WRONG_LINES)
}

/// A fifth line goes before every other fault.
#[test]
fn counts_lines_first(rt: HostRuntime) -> Result<(), Fail> {
    let right = [KEY, SCI, "0", INTEGRITY];
    expect_lines_and(&rt, rt.alloc(), right, "\n", INPUT_FAULT)?;
    for (lines, _) in SEVERAL_WRONG_LINES {
        expect_lines_and(&rt, rt.alloc(), *lines, "\n", INPUT_FAULT)?;
    }
    Ok(())
}

#[test]
fn takes_at_most_twenty_thousand_octets(rt: HostRuntime) -> Result<(), Fail> {
    let alloc = rt.alloc();
    let mut input = joined(alloc, &[KEY, "\n", SCI, "\n0\n"])?;
    for _ in input.len()..20_000 {
        input.push_str("0")?;
    }
    let oversize = Outcome::Refused("oversize\n");
    expect(&rt, alloc, &["open"], input.as_str(), oversize);
    input.push_str("\n")?;
    expect(&rt, alloc, &["open"], input.as_str(), INPUT_FAULT);
    Ok(())
}
