//! Link files written by hand, and what is planned from them.

use macs_commands::links::{End, Place, PlanFault, Stage, ValueName, plan};
use std::alloc::Global;
use std::process::Abort;

const LEFT: &str = "[left]\nsci = '0200000000010001'\n";

const RIGHT: &str = "[right]\nsci = '0200000000020001'\n";

/// A pair of short keys.
const FIRST: &str = "[[key]]\nan = 0\nleft = '5a1c7e93d04b26f8a97d31e4026fb85c'\n\
    right = 'E07B49D6158C32AF6E90B7C4FD2A8113'\n";

/// A pair of a long key and a short one.
const SECOND: &str = "[[key]]\nan = 1\n\
    left = '000102030405060708090a0b0c0d0e0f101112131415161718191a1b1c1d1e1f'\n\
    right = 'ffeeddccbbaa99887766554433221100'\n";

/// A later pair, which reuses the first number.
const THIRD: &str = "[[key]]\nan = 0\nleft = '9c0f3b51d7e8426a81b5c6d4e3f20719'\n\
    right = '27d1a84e6b3c95f00e6f7d8c9b1a4352'\n";

/// A file of these parts.
fn file_of(rt: &impl Abort, alloc: Global, parts: &[&str]) -> String {
    let mut file = String::new(alloc);
    for i in 0..parts.len() {
        file.push_str(parts[i]).expect(rt, "memory");
    }
    file
}

fn planned(
    rt: &impl Abort,
    alloc: Global,
    parts: &[&str],
    end: End,
    stage: Stage,
) -> Result<String, PlanFault> {
    let file = file_of(rt, alloc, parts);
    let table = toml::table_from_str(alloc, file.as_str()).expect(rt, "TOML");
    plan(alloc, &table, end, stage)
}

/// The command file for a stage is this text.
fn is_planned(
    rt: &impl Abort,
    alloc: Global,
    parts: &[&str],
    end: End,
    stage: Stage,
    wanted: &str,
) {
    let text = planned(rt, alloc, parts, end, stage)
        .ok()
        .expect(rt, "a link");
    assert!(rt; text.as_str() == wanted, "{text}");
}

/// A file is refused with this fault.
fn is_refused(rt: &impl Abort, alloc: Global, parts: &[&str], stage: Stage, wanted: PlanFault) {
    let fault = planned(rt, alloc, parts, End::Left, stage).err();
    assert!(rt; fault == Some(wanted));
}

#[test]
fn first_keys(rt: HostRuntime) {
    let parts = [LEFT, RIGHT, FIRST];
    let left = "sci = \"0200000000010001\"\n\n\
        [[command]]\nan = 0\nconfidential = true\ndo = \"tx-install\"\n\
        key = \"5a1c7e93d04b26f8a97d31e4026fb85c\"\noffset = 0\nstart = 1\n\n\
        [[command]]\nan = 0\ndo = \"tx-use\"\n\n\
        [[command]]\ndo = \"rx-add\"\nsci = \"0200000000020001\"\n\n\
        [[command]]\nan = 0\ndo = \"rx-install\"\nkey = \"e07b49d6158c32af6e90b7c4fd2a8113\"\n\
        offset = 0\nsci = \"0200000000020001\"\nstart = 1\n";
    is_planned(&rt, rt.alloc(), &parts, End::Left, Stage::First, left);
    let right = "sci = \"0200000000020001\"\n\n\
        [[command]]\nan = 0\nconfidential = true\ndo = \"tx-install\"\n\
        key = \"e07b49d6158c32af6e90b7c4fd2a8113\"\noffset = 0\nstart = 1\n\n\
        [[command]]\nan = 0\ndo = \"tx-use\"\n\n\
        [[command]]\ndo = \"rx-add\"\nsci = \"0200000000010001\"\n\n\
        [[command]]\nan = 0\ndo = \"rx-install\"\nkey = \"5a1c7e93d04b26f8a97d31e4026fb85c\"\n\
        offset = 0\nsci = \"0200000000010001\"\nstart = 1\n";
    is_planned(&rt, rt.alloc(), &parts, End::Right, Stage::First, right);
}

#[test]
fn stages_of_new_keys(rt: HostRuntime) {
    let parts = [FIRST, SECOND, LEFT, RIGHT];
    let receive = "sci = \"0200000000010001\"\n\n\
        [[command]]\nan = 1\ndo = \"rx-install\"\nkey = \"ffeeddccbbaa99887766554433221100\"\n\
        offset = 0\nsci = \"0200000000020001\"\nstart = 1\n";
    is_planned(&rt, rt.alloc(), &parts, End::Left, Stage::Receive, receive);
    let send = "sci = \"0200000000010001\"\n\n\
        [[command]]\nan = 1\nconfidential = true\ndo = \"tx-install\"\n\
        key = \"000102030405060708090a0b0c0d0e0f101112131415161718191a1b1c1d1e1f\"\n\
        offset = 0\nstart = 1\n\n\
        [[command]]\nan = 1\ndo = \"tx-use\"\n";
    is_planned(&rt, rt.alloc(), &parts, End::Left, Stage::Send, send);
    let remove = "sci = \"0200000000020001\"\n\n\
        [[command]]\nan = 0\ndo = \"tx-remove\"\n\n\
        [[command]]\nan = 0\ndo = \"rx-remove\"\nsci = \"0200000000010001\"\n";
    is_planned(&rt, rt.alloc(), &parts, End::Right, Stage::Remove, remove);
}

#[test]
fn three_pairs(rt: HostRuntime) {
    let alloc = rt.alloc();
    let parts = [LEFT, RIGHT, FIRST, SECOND, THIRD];
    let send = "sci = \"0200000000020001\"\n\n\
        [[command]]\nan = 0\nconfidential = true\ndo = \"tx-install\"\n\
        key = \"27d1a84e6b3c95f00e6f7d8c9b1a4352\"\noffset = 0\nstart = 1\n\n\
        [[command]]\nan = 0\ndo = \"tx-use\"\n";
    is_planned(&rt, alloc, &parts, End::Right, Stage::Send, send);
    let remove = "sci = \"0200000000010001\"\n\n\
        [[command]]\nan = 1\ndo = \"tx-remove\"\n\n\
        [[command]]\nan = 1\ndo = \"rx-remove\"\nsci = \"0200000000020001\"\n";
    is_planned(&rt, alloc, &parts, End::Left, Stage::Remove, remove);
    let first_again = "[[key]]\nan = 2\nleft = '9c0f3b51d7e8426a81b5c6d4e3f20719'\n\
        right = '5A1C7E93D04B26F8A97D31E4026FB85C'\n";
    let parts = [LEFT, RIGHT, FIRST, SECOND, first_again];
    is_refused(&rt, alloc, &parts, Stage::Remove, PlanFault::SameKey);
}

#[test]
fn links_that_are_refused(rt: HostRuntime) {
    let alloc = rt.alloc();
    let twice = "[right]\nsci = '0200000000010001'\n";
    is_refused(
        &rt,
        alloc,
        &[LEFT, twice, FIRST],
        Stage::First,
        PlanFault::SameSci,
    );
    let mirror = "[[key]]\nan = 1\nleft = '00112233445566778899aabbccddeeff'\n\
        right = '00112233445566778899AABBCCDDEEFF'\n";
    is_refused(
        &rt,
        alloc,
        &[LEFT, RIGHT, mirror],
        Stage::First,
        PlanFault::SameKey,
    );
    let crossed = "[[key]]\nan = 1\nleft = 'e07b49d6158c32af6e90b7c4fd2a8113'\n\
        right = 'ffeeddccbbaa99887766554433221100'\n";
    let parts = [LEFT, RIGHT, FIRST, crossed];
    is_refused(&rt, alloc, &parts, Stage::Send, PlanFault::SameKey);
    let in_use = "[[key]]\nan = 0\nleft = '00112233445566778899aabbccddeeff'\n\
        right = 'ffeeddccbbaa99887766554433221100'\n";
    let parts = [LEFT, RIGHT, FIRST, in_use];
    is_refused(&rt, alloc, &parts, Stage::Receive, PlanFault::AnInUse);
    let parts = [LEFT, RIGHT, FIRST];
    is_refused(&rt, alloc, &parts, Stage::Receive, PlanFault::OneKey);
    is_refused(&rt, alloc, &parts, Stage::Send, PlanFault::OneKey);
    is_refused(&rt, alloc, &parts, Stage::Remove, PlanFault::OneKey);
}

/// A value of a table is refused.
fn is_wrong(rt: &impl Abort, alloc: Global, parts: &[&str], place: Place, name: ValueName) {
    let fault = PlanFault::Value { place, name };
    is_refused(rt, alloc, parts, Stage::First, fault);
}

#[test]
fn values_that_are_refused(rt: HostRuntime) {
    let alloc = rt.alloc();
    let short = "[left]\nsci = '020000000001000'\n";
    is_wrong(
        &rt,
        alloc,
        &[short, RIGHT, FIRST],
        Place::Left,
        ValueName::Sci,
    );
    let number = "[right]\nsci = 2\n";
    is_wrong(
        &rt,
        alloc,
        &[LEFT, number, FIRST],
        Place::Right,
        ValueName::Sci,
    );
    let four = "[[key]]\nan = 4\n";
    let second = Place::Key { at: 2 };
    is_wrong(
        &rt,
        alloc,
        &[LEFT, RIGHT, FIRST, four],
        second,
        ValueName::An,
    );
    let absent = "[[key]]\nan = 3\nright = '00112233445566778899aabbccddeeff'\n";
    is_wrong(
        &rt,
        alloc,
        &[LEFT, RIGHT, FIRST, absent],
        second,
        ValueName::Left,
    );
    let odd = "[[key]]\nan = 3\nleft = '00112233445566778899aabbccddeeff'\nright = '0'\n";
    is_wrong(
        &rt,
        alloc,
        &[LEFT, RIGHT, FIRST, odd],
        second,
        ValueName::Right,
    );
}

#[test]
fn shapes_that_are_refused(rt: HostRuntime) {
    let alloc = rt.alloc();
    let shape = PlanFault::Shape;
    is_refused(&rt, alloc, &[LEFT, FIRST], Stage::First, shape);
    is_refused(&rt, alloc, &[RIGHT, FIRST], Stage::First, shape);
    is_refused(&rt, alloc, &[LEFT, RIGHT], Stage::First, shape);
    is_refused(
        &rt,
        alloc,
        &["key = []\n", LEFT, RIGHT],
        Stage::First,
        shape,
    );
    is_refused(
        &rt,
        alloc,
        &["key = [1]\n", LEFT, RIGHT],
        Stage::First,
        shape,
    );
    is_refused(
        &rt,
        alloc,
        &["name = 'a'\n", LEFT, RIGHT, FIRST],
        Stage::First,
        shape,
    );
    let extra = PlanFault::Extra { place: Place::Left };
    is_refused(
        &rt,
        alloc,
        &[LEFT, "an = 0\n", RIGHT, FIRST],
        Stage::First,
        extra,
    );
    let extra = PlanFault::Extra {
        place: Place::Key { at: 1 },
    };
    is_refused(
        &rt,
        alloc,
        &[LEFT, RIGHT, FIRST, "start = 1\n"],
        Stage::First,
        extra,
    );
}
