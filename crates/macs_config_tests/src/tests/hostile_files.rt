//! Command files as an adversary writes them. Each has one fault, which is worked out from the
//! table of words and keys; none gives a command, even where good tables come before the bad one.

use super::hostile_texts::{CONTROLS, NO_TOML, SHAPES};
use macs_commands::{ConfigFault, KeyName, commands_of};
use std::alloc::Global;
use std::process::Abort;

/// The words, a line each, with their keys in order; at each key is a value that is right.
const WORDS: &str = r#"set-validate mode="check"
set-replay on=true window=0
set-sci-mode mode="explicit"
tx-install an=0 key="000102030405060708090a0b0c0d0e0f" start=1 confidential=true offset=0
tx-use an=0
tx-remove an=0
rx-add sci="12153524c0895e81"
rx-drop sci="12153524c0895e81"
rx-install sci="12153524c0895e81" an=0 key="000102030405060708090a0b0c0d0e0f" start=1 offset=0
rx-remove sci="12153524c0895e81" an=0"#;

/// Each key once, with a value that is right.
const KEYS: &str =
    r#"mode="check" on=true window=0 an=0 key="000102030405060708090a0b0c0d0e0f" start=1 confidential=true offset=0 sci="12153524c0895e81""#;

/// Values that are wrong at every key, and are no word: 60 of them. Numbers that no key takes;
/// floats; dates and times; texts that are neither a mode nor 16, 32 or 64 hex digits; arrays;
/// tables.
const WRONG: &str = r#"4294967296
4294967297
9223372036854775807
-1
-30
-9223372036854775808
0x100000000
0o40000000000
0b100000000000000000000000000000000
1_000_000_000_000
0.0
-0.0
1.0
1e0
1e99
inf
-inf
nan
+nan
1979-05-27
1979-05-27T07:32:00Z
1979-05-27T00:32:00.999999-07:00
1979-05-27 07:32:00
07:32:00
""
''
"""a"""
"0"
"-1"
"true"
"strict "
" strict"
"STRICT"
"Explicit"
"strict\u0000"
"explicit\n"
"\u0001\u001b[2J"
"\u202Estrict"
"12153524c0895e8"
"12153524c0895e811"
"0x12153524c0895e"
"12:15:35:24:c0:89"
"12153524c0895e8\u0031\u0000"
"12153524c0895e8g"
"١٢١٥٣٥٢٤١٢٣٤٥٦٧٨"
"１２１５３５２４１２３４５６７８"
"000102030405060708090a0b0c0d0e0"
"000102030405060708090a0b0c0d0e0f0"
"000102030405060708090A0B0C0D0E0G"
"000102030405060708090a0b0c0d0e0f000102030405060708090a0b0c0d0e0"
[]
[0]
["strict"]
[true, true]
[[[[[[[[[[[[[[[[0]]]]]]]]]]]]]]]]
[{an = 0}]
{}
{an = 0}
{do = "tx-use", an = 0}
{x = {y = {z = {}}}}"#;

/// Values that are wrong at one key, or at a key of one word: 47 lines.
const WRONG_HERE: &str = r#"* an 4
* an 5
* an +4
* an 0x4
* an 0b100
* an 255
* an 256
* an 4294967295
* an true
* an "strict"
* start true
* start false
* start "explicit"
* window true
* window false
* window "check"
* offset 256
* offset 300
* offset 65536
* offset 0x100
* offset 4294967295
* offset true
* on 0
* on 1
* on "check"
* confidential 0
* confidential 1
* confidential 255
* mode 0
* mode true
* mode "12153524c0895e81"
* mode "000102030405060708090a0b0c0d0e0f"
* mode "000102030405060708090a0b0c0d0e0f000102030405060708090a0b0c0d0e0f"
set-validate mode "explicit"
set-validate mode "end-station"
set-validate mode "implicit"
set-sci-mode mode "strict"
set-sci-mode mode "check"
* sci 0
* sci true
* sci "000102030405060708090a0b0c0d0e0f"
* sci "000102030405060708090a0b0c0d0e0f000102030405060708090a0b0c0d0e0f"
* sci "strict"
* key 0
* key true
* key "12153524c0895e81"
* key "explicit""#;

/// Texts that are nearly a word: 25 of them.
const NO_WORDS: &str = r#"" tx-use"
"tx-use "
"\ttx-use"
"tx-use\n"
"tx-use\u0000"
"\u0000tx-use"
"TX-USE"
"Tx-Use"
"tx-Use"
"tx_use"
"tx use"
"txuse"
"tx--use"
"-tx-use"
"tx-us"
"tx-uses"
"tx‐use"
"ｔｘ-use"
"tх-use"
"set-replay on"
"tx-use;tx-remove"
"tx-use\ntx-remove"
"do"
"command"
"../../etc/passwd""#;

/// Keys that are not `do`, though they are nearly that, or are below it: 10 of them.
const NO_DO: &str = r#"Do="tx-use"
DO="tx-use"
dO="tx-use"
"do "="tx-use"
" do"="tx-use"
"do\u0000"="tx-use"
"dо"="tx-use"
do.x="tx-use"
do.do="tx-use"
d.o="tx-use""#;

/// Keys that no word has: 25 of them.
const EXTRA: &str = r#"x=1
""=1
''=""
Do="tx-use"
DO="tx-use"
"do "="tx-use"
AN=0
An=0
"an "=0
" an"=0
"an\u0000"=0
"а"=0
"ключ"="000102030405060708090a0b0c0d0e0f"
1=1
-=-1
_=nan
1979-05-27=1979-05-27
true=true
command=[]
commands={}
keys=0
x.y.z=1
x=[[[[[[[[0]]]]]]]]
x={an=0}
xxxxxxxxxxxxxxxxxxxxxxxxxxxxxxxxxxxxxxxxxxxxxxxxxxxxxxxxxxxxxxxx=0"#;

/// A good table.
const GOOD: &str = "[[command]]\ndo=\"rx-add\"\nsci=\"12153524c0895e81\"\n";

/// How the keys after a wrong one are written.
#[derive(Clone, Copy, PartialEq, Eq)]
enum Rest {
    /// Right.
    Right,
    /// Right, and all keys are in the order from the last to the first.
    Turned,
    /// They are absent, and there is a key too many.
    Absent,
    /// Wrong, too, and a table without a word comes after.
    Wrong,
}

fn push(rt: &impl Abort, text: &mut String, part: &str) {
    assert!(rt; text.push_str(part).is_ok());
}

/// A line of a table: the key, and what is at it.
fn push_line(rt: &impl Abort, text: &mut String, key: &str, value: &str) {
    push(rt, text, key);
    push(rt, text, "=");
    push(rt, text, value);
    push(rt, text, "\n");
}

/// So many good tables, and the head of the next one.
fn begun(rt: &impl Abort, alloc: Global, good: usize) -> String {
    let mut text = String::new(alloc);
    for _ in 0..good {
        push(rt, &mut text, GOOD);
    }
    push(rt, &mut text, "[[command]]\n");
    text
}

/// The key and the value of a pair.
fn parts(pair: &str) -> (&str, &str) {
    pair.split_once('=').unwrap_or((pair, ""))
}

fn word_in(line: &str) -> &str {
    line.split_whitespace().next().unwrap_or("")
}

/// The pair of a line at this place, the first at 0; after the last it is empty.
fn pair_at(line: &str, place: usize) -> &str {
    line.split_whitespace()
        .nth(place.saturating_add(1))
        .unwrap_or("")
}

fn keys_in(line: &str) -> usize {
    line.split_whitespace().count().saturating_sub(1)
}

fn name_of(rt: &impl Abort, key: &str) -> KeyName {
    match key {
        "mode" => KeyName::Mode,
        "on" => KeyName::On,
        "window" => KeyName::Window,
        "an" => KeyName::An,
        "key" => KeyName::Key,
        "start" => KeyName::Start,
        "confidential" => KeyName::Confidential,
        "offset" => KeyName::Offset,
        "sci" => KeyName::Sci,
        _ => panic!(rt; "no key {key}"),
    }
}

fn fault_of(rt: &impl Abort, alloc: Global, text: &str) -> Option<ConfigFault> {
    let file = toml::table_from_str(alloc, text).expect(rt, text);
    commands_of(alloc, &file).err()
}

/// A file gives no command, and reports this fault.
fn is_refused(rt: &impl Abort, alloc: Global, text: &str, wanted: ConfigFault) {
    assert!(rt; fault_of(rt, alloc, text) == Some(wanted), "{text}");
}

fn is_no_toml(rt: &impl Abort, alloc: Global, text: &str) {
    assert!(rt; toml::table_from_str(alloc, text).is_err(), "{text}");
}

/// The table of a word whose key at this place has a wrong value, after so many good tables. The
/// keys before it are right.
fn with_wrong_key(
    rt: &impl Abort,
    alloc: Global,
    good: usize,
    line: &str,
    wrong_at: usize,
    value: &str,
    rest: Rest,
) -> String {
    let mut text = begun(rt, alloc, good);
    push(rt, &mut text, "do=\"");
    push(rt, &mut text, word_in(line));
    push(rt, &mut text, "\"\n");
    let last = keys_in(line).saturating_sub(1);
    for step in 0..keys_in(line) {
        let place = if rest == Rest::Turned {
            last.saturating_sub(step)
        } else {
            step
        };
        let (key, right) = parts(pair_at(line, place));
        if place == wrong_at || (place > wrong_at && rest == Rest::Wrong) {
            push_line(rt, &mut text, key, value);
        } else if place < wrong_at || rest != Rest::Absent {
            push_line(rt, &mut text, key, right);
        }
    }
    match rest {
        Rest::Absent => push(rt, &mut text, "x=1\n"),
        Rest::Wrong => push(rt, &mut text, "[[command]]\nan=0\n"),
        Rest::Right | Rest::Turned => {}
    }
    text
}

/// A file of each form with this wrong value at this key: so many files.
fn refuse_value(
    rt: &impl Abort,
    alloc: Global,
    good: usize,
    line: &str,
    wrong_at: usize,
    value: &str,
) -> usize {
    let (key, _) = parts(pair_at(line, wrong_at));
    let name = name_of(rt, key);
    let at = good.saturating_add(1);
    for rest in [Rest::Right, Rest::Turned, Rest::Absent, Rest::Wrong] {
        let text = with_wrong_key(rt, alloc, good, line, wrong_at, value, rest);
        is_refused(rt, alloc, &text, ConfigFault::Key { at, name });
    }
    4
}

/// Values that are wrong at every key, at each of the 20 keys of the ten words, in four forms of
/// the table, with no good table before it or up to two.
#[test]
fn a_wrong_value_is_told(rt: HostRuntime) {
    let mut files = 0_usize;
    for line in WORDS.lines() {
        for wrong_at in 0..keys_in(line) {
            for value in WRONG.lines() {
                let good = files % 3;
                let more = refuse_value(&rt, rt.alloc(), good, line, wrong_at, value);
                files = files.saturating_add(more);
            }
        }
    }
    assert!(rt; files == 4_800);
}

/// The same at the keys that a line names, of each word that has them: the files that were made.
fn refuse_value_here(rt: &impl Abort, alloc: Global, line: &str, wrong: &str) -> usize {
    let mut fields = wrong.splitn(3, ' ');
    let word = fields.next().unwrap_or("");
    let wanted = fields.next().unwrap_or("");
    let value = fields.next().unwrap_or("");
    if word != "*" && word != word_in(line) {
        return 0;
    }
    for place in 0..keys_in(line) {
        let (key, _) = parts(pair_at(line, place));
        if key == wanted {
            return refuse_value(rt, alloc, place % 3, line, place, value);
        }
    }
    0
}

/// Values that are wrong at one key, at 120 keys of words, in the four forms.
#[test]
fn a_value_of_another_key_is_told(rt: HostRuntime) {
    let mut files = 0_usize;
    for wrong in WRONG_HERE.lines() {
        for line in WORDS.lines() {
            let more = refuse_value_here(&rt, rt.alloc(), line, wrong);
            files = files.saturating_add(more);
        }
    }
    assert!(rt; files == 480);
}

/// What is next to a line that is no word.
#[derive(Clone, Copy, PartialEq, Eq)]
enum Beside {
    /// The keys of a word.
    Right,
    /// They are wrong.
    Wrong,
    /// There is a key too many.
    More,
}

/// A file whose second table has this line in the place of its word.
fn refuse_word(rt: &impl Abort, alloc: Global, line: &str, first: &str, beside: Beside) {
    let mut text = begun(rt, alloc, 1);
    push(rt, &mut text, first);
    push(rt, &mut text, "\n");
    for place in 0..keys_in(line) {
        let (key, right) = parts(pair_at(line, place));
        let value = if beside == Beside::Wrong { "[]" } else { right };
        push_line(rt, &mut text, key, value);
    }
    if beside == Beside::More {
        push(rt, &mut text, "x=1\n");
    }
    is_refused(rt, alloc, &text, ConfigFault::Word { at: 2 });
}

/// The same with the keys of each word, in three forms: so many files.
fn refuse_word_of_all(rt: &impl Abort, alloc: Global, first: &str) -> usize {
    let mut files = 0_usize;
    for line in WORDS.lines() {
        for beside in [Beside::Right, Beside::Wrong, Beside::More] {
            refuse_word(rt, alloc, line, first, beside);
            files = files.saturating_add(1);
        }
    }
    files
}

/// A value is put at `do`: so many files.
fn refuse_value_as_word(rt: &impl Abort, alloc: Global, value: &str) -> usize {
    let mut first = String::new(alloc);
    push(rt, &mut first, "do=");
    push(rt, &mut first, value);
    refuse_word_of_all(rt, alloc, &first)
}

/// 85 values that are no word, ten keys that are nearly `do`, and none, in three forms with the
/// keys of each word.
#[test]
fn a_wrong_word_is_told(rt: HostRuntime) {
    let mut files = refuse_word_of_all(&rt, rt.alloc(), "");
    for values in [WRONG, NO_WORDS] {
        for value in values.lines() {
            files = files.saturating_add(refuse_value_as_word(&rt, rt.alloc(), value));
        }
    }
    for first in NO_DO.lines() {
        files = files.saturating_add(refuse_word_of_all(&rt, rt.alloc(), first));
    }
    assert!(rt; files == 2_880);
}

/// A table that is right but for a key too many, which comes first or last, between a good one and
/// one without a word.
fn refuse_extra(rt: &impl Abort, alloc: Global, line: &str, extra: &str, is_first: bool) {
    let mut text = begun(rt, alloc, 1);
    if is_first {
        push(rt, &mut text, extra);
        push(rt, &mut text, "\n");
    }
    push(rt, &mut text, "do=\"");
    push(rt, &mut text, word_in(line));
    push(rt, &mut text, "\"\n");
    for place in 0..keys_in(line) {
        push(rt, &mut text, pair_at(line, place));
        push(rt, &mut text, "\n");
    }
    if !is_first {
        push(rt, &mut text, extra);
        push(rt, &mut text, "\n");
    }
    push(rt, &mut text, "[[command]]\nan=0\n");
    is_refused(rt, alloc, &text, ConfigFault::Extra { at: 2 });
}

/// Whether a word has the key of a pair.
fn has_key(line: &str, pair: &str) -> bool {
    let (wanted, _) = parts(pair);
    for place in 0..keys_in(line) {
        let (key, _) = parts(pair_at(line, place));
        if key == wanted {
            return true;
        }
    }
    false
}

/// 25 keys that no word has besides the keys of each of the ten, and the keys of the others: of the
/// nine keys the words have 20, so 70 are left.
#[test]
fn a_key_too_many_is_told(rt: HostRuntime) {
    let mut files = 0_usize;
    for line in WORDS.lines() {
        for extra in EXTRA.lines() {
            refuse_extra(&rt, rt.alloc(), line, extra, files % 2 == 0);
            files = files.saturating_add(1);
        }
        for pair in KEYS.split_whitespace() {
            if !has_key(line, pair) {
                refuse_extra(&rt, rt.alloc(), line, pair, files % 2 == 0);
                files = files.saturating_add(1);
            }
        }
    }
    assert!(rt; files == 320);
}

/// Files of a wrong shape, and texts that are no TOML.
#[test]
fn a_wrong_shape_is_told(rt: HostRuntime) {
    let mut files = 0_usize;
    for text in SHAPES.split("\n---\n") {
        is_refused(&rt, rt.alloc(), text, ConfigFault::Shape);
        files = files.saturating_add(1);
    }
    assert!(rt; files == 50);
    for texts in [NO_TOML, CONTROLS] {
        for text in texts.split("\n---\n") {
            is_no_toml(&rt, rt.alloc(), text);
            files = files.saturating_add(1);
        }
    }
    assert!(rt; files == 152);
}

/// A part that is there so many times between a head and a tail.
fn repeated(
    rt: &impl Abort,
    alloc: Global,
    head: &str,
    part: &str,
    times: u32,
    tail: &str,
) -> String {
    let mut text = String::new(alloc);
    push(rt, &mut text, head);
    for _ in 0..times {
        push(rt, &mut text, part);
    }
    push(rt, &mut text, tail);
    text
}

/// Long words and digits, many tables and many keys.
#[test]
fn a_long_file_is_refused(rt: HostRuntime) {
    let word = ConfigFault::Word { at: 1 };
    let key = ConfigFault::Key {
        at: 1,
        name: KeyName::Sci,
    };
    let extra = ConfigFault::Extra { at: 1 };
    let last = ConfigFault::Word { at: 1_001 };
    for (head, part, times, tail, wanted) in [
        ("[[command]]\ndo=\"", "a", 500_000, "\"\n", word),
        ("[[command]]\ndo=\"tx-use", " ", 500_000, "\"\nan=0\n", word),
        (
            "[[command]]\ndo=\"rx-add\"\nsci=\"",
            "0",
            500_000,
            "\"\n",
            key,
        ),
        (
            "[[command]]\ndo=\"tx-use\"\nan=0\nx=[",
            "0,",
            100_000,
            "]\n",
            extra,
        ),
        ("", GOOD, 1_000, "[[command]]\nsci=0\n", last),
    ] {
        let text = repeated(&rt, rt.alloc(), head, part, times, tail);
        is_refused(&rt, rt.alloc(), &text, wanted);
    }
}

/// A number inside so many arrays or tables.
fn nested(
    rt: &impl Abort,
    alloc: Global,
    head: &str,
    opening: &str,
    depth: u32,
    closing: &str,
    tail: &str,
) -> String {
    let mut text = repeated(rt, alloc, head, opening, depth, "0");
    for _ in 0..depth {
        push(rt, &mut text, closing);
    }
    push(rt, &mut text, tail);
    text
}

/// A number inside arrays or tables: 1,000 of them are more than the reader of TOML takes, which is
/// 80, though all are closed; seventy are read, and refused for where they are.
fn refuse_deep(
    rt: &impl Abort,
    alloc: Global,
    head: &str,
    opening: &str,
    closing: &str,
    tail: &str,
    wanted: ConfigFault,
) {
    let text = nested(rt, alloc, head, opening, 1_000, closing, tail);
    is_no_toml(rt, alloc, &text);
    let text = nested(rt, alloc, head, opening, 70, closing, tail);
    is_refused(rt, alloc, &text, wanted);
}

/// Arrays and tables in one another.
#[test]
fn a_deep_file_is_refused(rt: HostRuntime) {
    let alloc = rt.alloc();
    let word = ConfigFault::Word { at: 1 };
    let key = ConfigFault::Key {
        at: 1,
        name: KeyName::An,
    };
    refuse_deep(&rt, alloc, "command=", "[", "]", "", ConfigFault::Shape);
    refuse_deep(&rt, alloc, "command=", "{x=", "}", "", ConfigFault::Shape);
    refuse_deep(&rt, alloc, "command=[{do=", "[", "]", "}]", word);
    refuse_deep(&rt, alloc, "command=[{an=0,do=", "{do=", "}", "}]", word);
    for (opening, closing) in [("[", "]"), ("{an=", "}")] {
        let head = "command=[{do=\"tx-use\",an=";
        refuse_deep(&rt, alloc, head, opening, closing, "}]", key);
    }
}
