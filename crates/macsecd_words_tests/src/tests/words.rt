//! Words that are taken: the action that they name.

use super::{INPUT, OPENED, expect};
use macs_cli::{
    Action, DiskAction, FrameAction, Pace, PlanEnd, PlanStage, Question, Running, ToolAction,
    WireEnds, action_of,
};
use std::alloc::Global;
use std::process::Abort;

/// `open` is also what no word asks for.
#[test]
fn opens_with_and_without_its_name(rt: HostRuntime) {
    expect(&rt, rt.alloc(), &["open"], INPUT, OPENED);
    expect(&rt, rt.alloc(), &[], INPUT, OPENED);
}

/// An action in parts: its name, up to five texts and up to two numbers.
type Parts<'a> = (&'a str, [&'a str; 5], [u64; 2]);

/// Words that are taken, and the action that they name.
const TAKEN: &[(&[&str], Parts<'static>)] = &[
    (&[], ("open", ["", "", "", "", ""], [0, 0])),
    (&["open"], ("open", ["", "", "", "", ""], [0, 0])),
    (
        &["format", "left.disk", "0200000000010001", "1024", "16"],
        (
            "format",
            ["left.disk", "0200000000010001", "", "", ""],
            [1024, 16],
        ),
    ),
    (
        &["format", "--block", "4096", "d", "s", "1", "2", "--over"],
        ("format", ["d", "s", "4096", "over", ""], [1, 2]),
    ),
    (
        &["format", "d", "s", "1", "--over", "2", "--block=none"],
        ("format", ["d", "s", "none", "over", ""], [1, 2]),
    ),
    (
        &["format", "d", "s", "4294967295", "0"],
        ("format", ["d", "s", "", "", ""], [4_294_967_295, 0]),
    ),
    (
        &["format", "", "", "+7", "0016"],
        ("format", ["", "", "", "", ""], [7, 16]),
    ),
    (
        &["apply", "left.disk", "left.toml"],
        ("apply", ["left.disk", "left.toml", "", "", ""], [0, 0]),
    ),
    (
        &["show", "left.disk"],
        ("show", ["left.disk", "", "", "", ""], [0, 0]),
    ),
    (
        &["show", "open"],
        ("show", ["open", "", "", "", ""], [0, 0]),
    ),
    (&["show", "-"], ("show", ["-", "", "", "", ""], [0, 0])),
    (
        &["show", "--", "-left.disk"],
        ("show", ["-left.disk", "", "", "", ""], [0, 0]),
    ),
    (
        &["show", "--", "--help"],
        ("show", ["--help", "", "", "", ""], [0, 0]),
    ),
    (
        &["protect", "left.disk", "plain.pcap", "protected.pcap"],
        (
            "protect",
            ["left.disk", "plain.pcap", "protected.pcap", "", ""],
            [0, 0],
        ),
    ),
    (
        &["protect", "validate", "protect", "show"],
        ("protect", ["validate", "protect", "show", "", ""], [0, 0]),
    ),
    (
        &["validate", "right.disk", "protected.pcap", "plain.pcap"],
        (
            "validate",
            ["right.disk", "protected.pcap", "plain.pcap", "", ""],
            [0, 0],
        ),
    ),
    (
        &[
            "relay",
            "d",
            "--turns",
            "18446744073709551615",
            "a",
            "b",
            "c",
            "e",
        ],
        (
            "relay",
            ["d", "a", "b", "c", "e"],
            [18_446_744_073_709_551_615, 0],
        ),
    ),
    (
        &["relay", "d", "a", "b", "c", "e", "--turns=+0"],
        ("relay", ["d", "a", "b", "c", "e"], [0, 0]),
    ),
    (
        &[
            "relay", "d", "a", "b", "c", "e", "--wait", "60000", "--turns", "7",
        ],
        ("relay", ["d", "a", "b", "c", "e"], [7, 60_000]),
    ),
    (
        &["relay", "--wait=1", "--turns=0", "d", "a", "b", "c", "e"],
        ("relay", ["d", "a", "b", "c", "e"], [0, 1]),
    ),
    (
        &["relay", "d", "a", "--wait", "+0250", "b", "c", "e"],
        ("relay without turns", ["d", "a", "b", "c", "e"], [0, 250]),
    ),
    (
        &["relay", "--turns", "5", "--", "--wait", "a", "b", "c", "e"],
        ("relay", ["--wait", "a", "b", "c", "e"], [5, 0]),
    ),
    (
        &["keep", "left.disk", "keeper"],
        ("keep", ["left.disk", "keeper", "", "", ""], [0, 0]),
    ),
    (
        &["keep", "--", "--keeper", ""],
        ("keep", ["--keeper", "", "", "", ""], [0, 0]),
    ),
    (
        &["ask", "p", "show"],
        ("ask show", ["p", "", "", "", ""], [0, 0]),
    ),
    (
        &["ask", "show", "counters"],
        ("ask counters", ["show", "", "", "", ""], [0, 0]),
    ),
    (
        &["ask", "p", "keys"],
        ("ask keys", ["p", "", "", "", ""], [0, 0]),
    ),
    (
        &["ask", "p", "traffic"],
        ("ask traffic", ["p", "", "", "", ""], [0, 0]),
    ),
    (
        &["ask", "p", "about"],
        ("ask about", ["p", "", "", "", ""], [0, 0]),
    ),
    (
        &["ask", "p", "stop"],
        ("ask stop", ["p", "", "", "", ""], [0, 0]),
    ),
    (
        &["ask", "p", "apply", "show"],
        ("ask apply", ["p", "show", "", "", ""], [0, 0]),
    ),
    (
        &["ask", "p", "show", "--json"],
        ("ask show", ["p", "", "json", "", ""], [0, 0]),
    ),
    (
        &["ask", "--json", "p", "counters"],
        ("ask counters", ["p", "", "json", "", ""], [0, 0]),
    ),
    (
        &["ask", "p", "--json", "keys"],
        ("ask keys", ["p", "", "json", "", ""], [0, 0]),
    ),
    (
        &["ask", "p", "about", "--json"],
        ("ask about", ["p", "", "json", "", ""], [0, 0]),
    ),
    (
        &["ask", "p", "apply", "--", "--json"],
        ("ask apply", ["p", "--json", "", "", ""], [0, 0]),
    ),
    (
        &["protect", "--all", "d", "i", "o"],
        ("protect", ["d", "i", "o", "all", ""], [0, 0]),
    ),
    (
        &["validate", "d", "--all", "--", "--all", "o"],
        ("validate", ["d", "--all", "o", "all", ""], [0, 0]),
    ),
    (
        &["validate", "d", "--each", "i", "o"],
        ("validate", ["d", "i", "o", "", "each"], [0, 0]),
    ),
    (
        &["validate", "--each", "d", "i", "--all", "o"],
        ("validate", ["d", "i", "o", "all", "each"], [0, 0]),
    ),
    (&["key"], ("key", ["", "", "", "", ""], [0, 0])),
    (
        &["key", "--long"],
        ("key", ["long", "", "", "", ""], [0, 0]),
    ),
    (
        &["inspect", "key"],
        ("inspect", ["key", "", "", "", ""], [0, 0]),
    ),
    (
        &["check", "--", "--long"],
        ("check", ["--long", "", "", "", ""], [0, 0]),
    ),
    (
        &["check", "left.toml", "left.disk"],
        ("check", ["left.toml", "left.disk", "", "", ""], [0, 0]),
    ),
    (
        &["plan", "plan", "left", "first"],
        ("plan", ["plan", "left", "first", "", ""], [0, 0]),
    ),
    (
        &["plan", "link.toml", "right", "receive"],
        ("plan", ["link.toml", "right", "receive", "", ""], [0, 0]),
    ),
    (
        &["plan", "link.toml", "left", "send"],
        ("plan", ["link.toml", "left", "send", "", ""], [0, 0]),
    ),
    (
        &["plan", "link.toml", "right", "remove"],
        ("plan", ["link.toml", "right", "remove", "", ""], [0, 0]),
    ),
    (
        &["examine", "show"],
        ("examine", ["show", "", "", "", ""], [0, 0]),
    ),
    (
        &["examine", "d", "--json"],
        ("examine", ["d", "json", "", "", ""], [0, 0]),
    ),
    (&["about"], ("about", ["", "", "", "", ""], [0, 0])),
];

/// What a relay serves: a control socket, a file of counters, and a buffer in octets; and the
/// socket of its keeper.
type Served<'a> = (&'a str, &'a str, u32, &'a str);

/// Words of a relay, and what it serves.
const SERVED: &[(&[&str], Served<'static>)] = &[
    (
        &["relay", "d", "a", "b", "c", "e", "--wait", "5"],
        ("", "", 0, ""),
    ),
    (
        &[
            "relay",
            "d",
            "a",
            "b",
            "c",
            "e",
            "--wait",
            "5",
            "--control",
            "p",
            "--metrics",
            "m",
            "--buffer",
            "1073741823",
        ],
        ("p", "m", 1_073_741_823, ""),
    ),
    (
        &[
            "relay",
            "--buffer=1",
            "--metrics=m",
            "d",
            "a",
            "b",
            "c",
            "e",
            "--turns",
            "5",
        ],
        ("", "m", 1, ""),
    ),
    (
        &[
            "relay", "d", "a", "b", "c", "e", "--wait", "5", "--keeper", "s",
        ],
        ("", "", 0, "s"),
    ),
    (
        &[
            "relay",
            "--keeper=s",
            "--turns=5",
            "--control=p",
            "d",
            "a",
            "b",
            "c",
            "e",
        ],
        ("p", "", 0, "s"),
    ),
    (
        &["relay", "--turns=5", "--", "d", "a", "b", "c", "--keeper"],
        ("", "", 0, ""),
    ),
];

/// What a relay serves, of the action that it is.
fn served<'a>(action: Action<'a>) -> Option<Served<'a>> {
    match action {
        Action::OnFrames(FrameAction::Relay { running, .. }) => Some(served_so(running)),
        _ => None,
    }
}

/// What a relay serves that runs so.
fn served_so<'a>(running: Running<'a>) -> Served<'a> {
    (
        running.control.unwrap_or(""),
        running.metrics.unwrap_or(""),
        running.buffer.unwrap_or(0),
        running.keeper.unwrap_or(""),
    )
}

/// Asserts what a relay of these words serves.
fn expect_served(rt: &impl Abort, alloc: Global, words: &[&str], wanted: Served<'static>) {
    let found = named(alloc, words).and_then(served);
    assert!(rt; found == Some(wanted));
}

#[test]
fn takes_what_a_relay_serves(rt: HostRuntime) {
    for (words, wanted) in SERVED {
        expect_served(&rt, rt.alloc(), words, *wanted);
    }
}

/// Whether these are the expected parts.
fn is_named(wanted: &Parts<'_>, name: &str, words: [&str; 5], numbers: [u64; 2]) -> bool {
    wanted.0 == name && wanted.1 == words && wanted.2 == numbers
}

/// Whether an action has the expected parts.
fn is_of(action: Action<'_>, wanted: &Parts<'_>) -> bool {
    match action {
        Action::Open => is_named(wanted, "open", ["", "", "", "", ""], [0, 0]),
        Action::OnDisk(action) => is_on_disk(action, wanted),
        Action::OnFrames(action) => is_on_frames(action, wanted),
        Action::Tool(action) => is_tool(action, wanted),
    }
}

/// The same of an action on a disk file, without frames.
fn is_on_disk(action: DiskAction<'_>, wanted: &Parts<'_>) -> bool {
    match action {
        DiskAction::Format {
            disk,
            sci,
            tx_block,
            rx_block,
            block,
            is_over,
        } => is_named(
            wanted,
            "format",
            [
                disk,
                sci,
                block.unwrap_or(""),
                if is_over { "over" } else { "" },
                "",
            ],
            [u64::from(tx_block), u64::from(rx_block)],
        ),
        DiskAction::Apply { disk, file } => is_named(
            wanted,
            "apply",
            [disk, file, "", "", ""],
            [0, 0],
        ),
        DiskAction::Show { disk } => is_named(wanted, "show", [disk, "", "", "", ""], [0, 0]),
        DiskAction::Keep { disk, socket } => is_named(
            wanted,
            "keep",
            [disk, socket, "", "", ""],
            [0, 0],
        ),
    }
}

/// The same of an action that gives frames to an endpoint.
fn is_on_frames(action: FrameAction<'_>, wanted: &Parts<'_>) -> bool {
    match action {
        FrameAction::Protect {
            disk,
            input,
            output,
            is_all,
        } => is_named(
            wanted,
            "protect",
            [disk, input, output, if is_all { "all" } else { "" }, ""],
            [0, 0],
        ),
        FrameAction::Validate {
            disk,
            input,
            output,
            is_all,
            is_each,
        } => is_named(
            wanted,
            "validate",
            [
                disk,
                input,
                output,
                if is_all { "all" } else { "" },
                if is_each { "each" } else { "" },
            ],
            [0, 0],
        ),
        FrameAction::Relay {
            disk,
            controlled,
            common,
            running,
        } => is_relay(disk, controlled, common, running.pace, wanted),
    }
}

/// The same of an action that changes no disk.
fn is_tool(action: ToolAction<'_>, wanted: &Parts<'_>) -> bool {
    match action {
        ToolAction::Ask {
            path,
            question,
            is_json,
        } => is_asked(path, question, is_json, wanted),
        ToolAction::Key { is_long } => is_named(
            wanted,
            "key",
            [if is_long { "long" } else { "" }, "", "", "", ""],
            [0, 0],
        ),
        ToolAction::Inspect { input } => is_named(
            wanted,
            "inspect",
            [input, "", "", "", ""],
            [0, 0],
        ),
        ToolAction::Check { file, disk } => {
            let disk = disk.unwrap_or("");
            is_named(wanted, "check", [file, disk, "", "", ""], [0, 0])
        }
        ToolAction::Plan { file, end, stage } => is_planned(file, end, stage, wanted),
        ToolAction::Examine { disk, is_json } => is_named(
            wanted,
            "examine",
            [disk, if is_json { "json" } else { "" }, "", "", ""],
            [0, 0],
        ),
        ToolAction::About => is_named(wanted, "about", ["", "", "", "", ""], [0, 0]),
    }
}

/// The same of a plan.
fn is_planned(file: &str, end: PlanEnd, stage: PlanStage, wanted: &Parts<'_>) -> bool {
    let end = match end {
        PlanEnd::Left => "left",
        PlanEnd::Right => "right",
    };
    let stage = match stage {
        PlanStage::First => "first",
        PlanStage::Receive => "receive",
        PlanStage::Send => "send",
        PlanStage::Remove => "remove",
    };
    is_named(wanted, "plan", [file, end, stage, "", ""], [0, 0])
}

/// The same of a relay.
fn is_relay(
    disk: &str,
    controlled: WireEnds<'_>,
    common: WireEnds<'_>,
    pace: Pace,
    wanted: &Parts<'_>,
) -> bool {
    let (name, numbers) = pace_parts(pace);
    is_named(
        wanted,
        name,
        [
            disk,
            controlled.own,
            controlled.peer,
            common.own,
            common.peer,
        ],
        numbers,
    )
}

/// The same of a question to a relay.
fn is_asked(path: &str, question: Question<'_>, is_json: bool, wanted: &Parts<'_>) -> bool {
    let (name, file) = question_parts(question);
    is_named(
        wanted,
        name,
        [path, file, if is_json { "json" } else { "" }, "", ""],
        [0, 0],
    )
}

/// What a relay is asked, and the file of its commands.
fn question_parts<'a>(question: Question<'a>) -> (&'static str, &'a str) {
    match question {
        Question::Show => ("ask show", ""),
        Question::Counters => ("ask counters", ""),
        Question::Keys => ("ask keys", ""),
        Question::Traffic => ("ask traffic", ""),
        Question::About => ("ask about", ""),
        Question::Stop => ("ask stop", ""),
        Question::Apply(file) => ("ask apply", file),
    }
}

/// How a relay takes its turns: whether it is given turns; these, and the milliseconds of a wait.
fn pace_parts(pace: Pace) -> (&'static str, [u64; 2]) {
    match pace {
        Pace::Sleepless { turns } => ("relay", [turns, 0]),
        Pace::Waiting { limit, turns } => {
            let milliseconds = u64::from(limit.0);
            match turns {
                Some(turns) => ("relay", [turns, milliseconds]),
                None => ("relay without turns", [0, milliseconds]),
            }
        }
    }
}

/// The action that the words name. What is proved of it is left out.
fn named<'a>(alloc: Global, words: &'a [&'a str]) -> Option<Action<'a>> {
    action_of(alloc, words).ok()
}

/// Asserts the action that the words name.
fn expect_parts(rt: &impl Abort, alloc: Global, words: &[&str], wanted: Parts<'static>) {
    let is_found = match named(alloc, words) {
        Some(action) => is_of(action, &wanted),
        None => false,
    };
    assert!(rt; is_found, "{}", wanted.0);
}

/// Each word goes to its own place.
#[test]
fn takes_each_subcommand(rt: HostRuntime) {
    for (words, wanted) in TAKEN {
        expect_parts(&rt, rt.alloc(), words, *wanted);
    }
}
