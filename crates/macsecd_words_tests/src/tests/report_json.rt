//! Each kind of line, and lines of no kind, as JSON in the form of Python's `json`.

use macs_cli::{json_lines, json_of_line};
use std::alloc::Global;
use std::process::Abort;

/// A line, and its object.
type Row = (&'static str, &'static str);

/// The output of `show`.
const SHOWN: &[Row] = &[
    (
        "sci 0200000000010001",
        "{\"line\":\"sci\",\"sci\":\"0200000000010001\"}",
    ),
    (
        "blocks tx 1024 rx 16",
        "{\"line\":\"blocks\",\"tx\":1024,\"rx\":16}",
    ),
    (
        "validate strict",
        "{\"line\":\"validate\",\"mode\":\"strict\"}",
    ),
    (
        "validate check",
        "{\"line\":\"validate\",\"mode\":\"check\"}",
    ),
    (
        "replay on window 0",
        "{\"line\":\"replay\",\"on\":true,\"window\":0}",
    ),
    (
        "replay off window 4294967295",
        "{\"line\":\"replay\",\"on\":false,\"window\":4294967295}",
    ),
    (
        "sci-mode explicit",
        "{\"line\":\"sci-mode\",\"mode\":\"explicit\"}",
    ),
    (
        "sci-mode end-station",
        "{\"line\":\"sci-mode\",\"mode\":\"end-station\"}",
    ),
    ("encoding 3", "{\"line\":\"encoding\",\"an\":3}"),
    ("encoding none", "{\"line\":\"encoding\",\"an\":null}"),
    (
        "tx 0 confidential offset 30 next 2049",
        "{\"line\":\"tx\",\"an\":0,\"protection\":\"confidential\",\"offset\":30,\"next\":2049}",
    ),
    (
        "tx 1 integrity next 4294967296",
        "{\"line\":\"tx\",\"an\":1,\"protection\":\"integrity\",\"next\":4294967296}",
    ),
    (
        "channel 0200000000020001",
        "{\"line\":\"channel\",\"sci\":\"0200000000020001\"}",
    ),
    (
        "rx 0200000000020001 2 offset 0 next 17 lowest 1",
        "{\"line\":\"rx\",\"sci\":\"0200000000020001\",\"an\":2,\"offset\":0,\"next\":17,\"lowest\":1}",
    ),
    (
        "spent tx 1 rx 512",
        "{\"line\":\"spent\",\"tx\":1,\"rx\":512}",
    ),
];

/// The output of `counters`.
const COUNTED: &[Row] = &[
    (
        "tx protected 18446744073709551615",
        "{\"line\":\"tx\",\"counter\":\"protected\",\"count\":18446744073709551615}",
    ),
    (
        "tx too-long 0",
        "{\"line\":\"tx\",\"counter\":\"too-long\",\"count\":0}",
    ),
    (
        "rx not-using-sa 9007199254740993",
        "{\"line\":\"rx\",\"counter\":\"not-using-sa\",\"count\":9007199254740993}",
    ),
    (
        "channel 0200000000020001 ok 5",
        "{\"line\":\"channel\",\"sci\":\"0200000000020001\",\"counter\":\"ok\",\"count\":5}",
    ),
    (
        "wire 1 failed-receives 7",
        "{\"line\":\"wire\",\"wire\":1,\"counter\":\"failed-receives\",\"count\":7}",
    ),
    (
        "wire 2 buffer 425984",
        "{\"line\":\"wire\",\"wire\":2,\"counter\":\"buffer\",\"count\":425984}",
    ),
    (
        "left tx 0 4294965247",
        "{\"line\":\"left\",\"an\":0,\"numbers\":4294965247}",
    ),
    (
        "left keys tx 511",
        "{\"line\":\"left\",\"side\":\"tx\",\"keys\":511}",
    ),
    (
        "left keys rx 0",
        "{\"line\":\"left\",\"side\":\"rx\",\"keys\":0}",
    ),
    (
        "reserved tx 0 1536",
        "{\"line\":\"reserved\",\"an\":0,\"numbers\":1536}",
    ),
    (
        "reserved rx 0200000000020001 3 16",
        "{\"line\":\"reserved\",\"sci\":\"0200000000020001\",\"an\":3,\"numbers\":16}",
    ),
];

/// The output of `keys` and `about`.
const NAMED: &[Row] = &[
    (
        "tx 0 key 128 id 31415926",
        "{\"line\":\"tx\",\"an\":0,\"key\":128,\"id\":\"31415926\"}",
    ),
    (
        "rx 0200000000020001 3 key 256 id 3f0a91c2",
        "{\"line\":\"rx\",\"sci\":\"0200000000020001\",\"an\":3,\"key\":256,\"id\":\"3f0a91c2\"}",
    ),
    (
        "macsecd 0.1.0",
        "{\"line\":\"macsecd\",\"version\":\"0.1.0\"}",
    ),
    (
        "commit 1234567",
        "{\"line\":\"commit\",\"commit\":\"1234567\"}",
    ),
    (
        "proved unknown",
        "{\"line\":\"proved\",\"proved\":\"unknown\"}",
    ),
    (
        "started 1764395139",
        "{\"line\":\"started\",\"seconds\":1764395139}",
    ),
];

/// The output of `examine`.
const EXAMINED: &[Row] = &[
    ("format 2", "{\"line\":\"format\",\"format\":2}"),
    ("block 4096", "{\"line\":\"block\",\"octets\":4096}"),
    ("area 0", "{\"line\":\"area\",\"area\":0}"),
    (
        "generation 18446744073709551615",
        "{\"line\":\"generation\",\"generation\":18446744073709551615}",
    ),
    (
        "slots used 12 of 256",
        "{\"line\":\"slots\",\"used\":12,\"of\":256}",
    ),
    (
        "records set-replay 5",
        "{\"line\":\"records\",\"kind\":\"set-replay\",\"count\":5}",
    ),
    (
        "ceiling tx 0 2049",
        "{\"line\":\"ceiling\",\"an\":0,\"ceiling\":2049}",
    ),
    (
        "ceiling rx 0200000000020001 0 1",
        "{\"line\":\"ceiling\",\"sci\":\"0200000000020001\",\"an\":0,\"ceiling\":1}",
    ),
    (
        "spent tx 1 of 512",
        "{\"line\":\"spent\",\"side\":\"tx\",\"keys\":1,\"of\":512}",
    ),
    ("whole", "{\"line\":\"whole\"}"),
];

/// Lines that occur in no report.
const UNKNOWN: &[Row] = &[
    ("", "{\"line\":\"\",\"known\":false}"),
    ("color blue", "{\"line\":\"color blue\",\"known\":false}"),
    ("blocks", "{\"line\":\"blocks\",\"known\":false}"),
    (
        "blocks tx 1024 rx",
        "{\"line\":\"blocks tx 1024 rx\",\"known\":false}",
    ),
    (
        "blocks tx 1024 rx 16 more",
        "{\"line\":\"blocks tx 1024 rx 16 more\",\"known\":false}",
    ),
    (
        "blocks tx 01 rx 16",
        "{\"line\":\"blocks tx 01 rx 16\",\"known\":false}",
    ),
    (
        "blocks tx +1 rx 16",
        "{\"line\":\"blocks tx +1 rx 16\",\"known\":false}",
    ),
    (
        "blocks rx 16 tx 1024",
        "{\"line\":\"blocks rx 16 tx 1024\",\"known\":false}",
    ),
    (
        "replay yes window 0",
        "{\"line\":\"replay yes window 0\",\"known\":false}",
    ),
    (
        "replay on window 0x10",
        "{\"line\":\"replay on window 0x10\",\"known\":false}",
    ),
    ("Whole", "{\"line\":\"Whole\",\"known\":false}"),
    ("sci", "{\"line\":\"sci\",\"known\":false}"),
    (
        "encoding 0 1",
        "{\"line\":\"encoding 0 1\",\"known\":false}",
    ),
    (
        "a \"quote\" and a \\",
        "{\"line\":\"a \\\"quote\\\" and a \\\\\",\"known\":false}",
    ),
    (
        "a tab\tand €",
        "{\"line\":\"a tab\\tand €\",\"known\":false}",
    ),
];

/// Each line has its object.
fn expect_each(rt: &impl Abort, alloc: Global, rows: &[Row]) {
    for i in 0..rows.len() {
        let (line, wanted) = rows[i];
        let json = json_of_line(alloc, line).ok().expect(rt, "memory");
        assert!(rt; json.as_slice() == wanted.as_bytes(), "{line}");
    }
}

#[test]
fn shown(rt: HostRuntime) {
    expect_each(&rt, rt.alloc(), SHOWN);
}

#[test]
fn counted(rt: HostRuntime) {
    expect_each(&rt, rt.alloc(), COUNTED);
}

#[test]
fn named(rt: HostRuntime) {
    expect_each(&rt, rt.alloc(), NAMED);
}

#[test]
fn examined(rt: HostRuntime) {
    expect_each(&rt, rt.alloc(), EXAMINED);
}

#[test]
fn unknown(rt: HostRuntime) {
    expect_each(&rt, rt.alloc(), UNKNOWN);
}

/// A report has its objects in the order of its lines, even if its last line has no line feed.
#[test]
fn whole_reports(rt: HostRuntime) {
    let alloc = rt.alloc();
    let json = json_lines(alloc, "").ok().expect(&rt, "memory");
    assert!(rt; json.is_empty());
    let json = json_lines(alloc, "area 0\n\nwhole")
        .ok()
        .expect(&rt, "memory");
    let wanted =
        "{\"line\":\"area\",\"area\":0}\n{\"line\":\"\",\"known\":false}\n{\"line\":\"whole\"}\n";
    assert!(rt; json.as_slice() == wanted.as_bytes());
}
