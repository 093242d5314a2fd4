//! A disk that is formatted, commands, and what is shown then.

use super::captures::SENDER;
use super::stand_in::Broken::Folder as FolderSync;
use super::stories::Step::{
    Closing, Failing, Filled, Folder, HasMode, HasOctets, Holds, IsMissing, Run, Symbolic, Text,
    Zeros,
};
use super::stories::{Step, play};
use crate::Outcome;

const FORMATTED: Outcome = Outcome::Done("formatted\n");

/// Six commands, of which three are refused.
pub const SIX_COMMANDS: &str = "[[command]]
do = 'tx-install'
an = 0
key = 'ad7a2bd03eac835a6f620fdcb506b345'
start = 1
confidential = true
offset = 0

[[command]]
do = 'tx-install'
an = 1
key = 'ad7a2bd03eac835a6f620fdcb506b345'
start = 1
confidential = true
offset = 0

[[command]]
do = 'tx-install'
an = 1
key = '000102030405060708090a0b0c0d0e0f'
start = 1
confidential = true
offset = 20

[[command]]
do = 'tx-remove'
an = 3

[[command]]
do = 'tx-use'
an = 0

[[command]]
do = 'tx-remove'
an = 0
";

const SIX_LINES: &str =
    "1 ok\n2 refused KeySpent\n3 refused OffsetChoice\n4 refused SlotEmpty\n5 ok\n6 refused InUse\n";

/// Numbers 1 to 4 were reserved, so a later run begins at 5.
const SHOWN: &str = "sci 12153524c0895e81
blocks tx 4 rx 4
validate strict
replay on window 0
sci-mode explicit
encoding 0
tx 0 confidential offset 0 next 5
spent tx 1 rx 0
";

const FORMAT: &[&str] = &["format", "story-apply/disk", "12153524C0895E81", "4", "4"];

const APPLIED: &[Step] = &[
    Run(FORMAT, FORMATTED),
    Run(FORMAT, Outcome::Disk("macsecd: already formatted\n")),
    Text("story-apply/six.toml", SIX_COMMANDS),
    Run(
        &["apply", "story-apply/disk", "story-apply/six.toml"],
        Outcome::Refused(SIX_LINES),
    ),
    Run(&["show", "story-apply/disk"], Outcome::Done(SHOWN)),
    Run(&["show", "story-apply/disk"], Outcome::Done(SHOWN)),
];

#[test]
fn commands_are_kept_or_refused(rt: HostRuntime) {
    play(&rt, rt.alloc(), "story-apply", APPLIED);
}

/// Keys of 256 bits on either side, and then a key of 128 bits.
const LONG_KEYS: &str = "[[command]]
do = 'tx-install'
an = 0
key = '000102030405060708090a0b0c0d0e0f101112131415161718191a1b1c1d1e1f'
start = 1
confidential = true
offset = 0

[[command]]
do = 'rx-add'
sci = 'ffffffffffff0001'

[[command]]
do = 'rx-install'
sci = 'ffffffffffff0001'
an = 3
key = '000102030405060708090a0b0c0d0e0f101112131415161718191a1b1c1d1e1f'
start = 5
offset = 0

[[command]]
do = 'tx-install'
an = 1
key = '000102030405060708090a0b0c0d0e0f'
start = 1
confidential = true
offset = 0
";

const LONG_LINES: &str = "1 ok\n2 ok\n3 ok\n4 ok\n";

const LONG_SHOWN: &str = "sci 12153524c0895e81
blocks tx 4 rx 4
validate strict
replay on window 0
sci-mode explicit
encoding none
tx 0 confidential offset 0 next 5
tx 1 confidential offset 0 next 5
channel ffffffffffff0001
rx ffffffffffff0001 3 offset 0 next 5 lowest 5
spent tx 2 rx 1
";

const LONG_APPLIED: &[Step] = &[
    Run(
        &["format", "story-long/disk", "12153524C0895E81", "4", "4"],
        FORMATTED,
    ),
    Text("story-long/keys.toml", LONG_KEYS),
    Run(
        &["apply", "story-long/disk", "story-long/keys.toml"],
        Outcome::Done(LONG_LINES),
    ),
    Run(&["show", "story-long/disk"], Outcome::Done(LONG_SHOWN)),
];

#[test]
fn long_keys_are_applied(rt: HostRuntime) {
    play(&rt, rt.alloc(), "story-long", LONG_APPLIED);
}

/// Both sides, with each setting changed.
const BOTH_SIDES: &str = "[[command]]
do = 'set-validate'
mode = 'check'

[[command]]
do = 'set-replay'
on = false
window = 7

[[command]]
do = 'set-sci-mode'
mode = 'implicit'

[[command]]
do = 'tx-install'
an = 2
key = 'ad7a2bd03eac835a6f620fdcb506b345'
start = 9
confidential = false
offset = 0

[[command]]
do = 'tx-install'
an = 1
key = '000102030405060708090a0b0c0d0e0f'
start = 1
confidential = true
offset = 50

[[command]]
do = 'rx-add'
sci = 'ffffffffffff0001'

[[command]]
do = 'rx-add'
sci = '0000000000000001'

[[command]]
do = 'rx-install'
sci = 'ffffffffffff0001'
an = 3
key = '101112131415161718191a1b1c1d1e1f'
start = 5
offset = 30

[[command]]
do = 'rx-install'
sci = 'ffffffffffff0001'
an = 0
key = '202122232425262728292a2b2c2d2e2f'
start = 1
offset = 0
";

const BOTH_LINES: &str = "1 ok\n2 ok\n3 ok\n4 ok\n5 ok\n6 ok\n7 ok\n8 ok\n9 ok\n";

/// 16 transmit numbers were reserved with each association, and none yet for reception.
const BOTH_SHOWN: &str = "sci 12153524c0895e81
blocks tx 16 rx 8
validate check
replay off window 7
sci-mode implicit
encoding none
tx 1 confidential offset 50 next 17
tx 2 integrity next 25
channel 0000000000000001
channel ffffffffffff0001
rx ffffffffffff0001 0 offset 0 next 1 lowest 1
rx ffffffffffff0001 3 offset 30 next 5 lowest 5
spent tx 2 rx 2
";

const BOTH: &[Step] = &[
    Run(
        &["format", "story-both/disk", "12153524c0895e81", "16", "8"],
        FORMATTED,
    ),
    Text("story-both/both.toml", BOTH_SIDES),
    Run(
        &["apply", "story-both/disk", "story-both/both.toml"],
        Outcome::Done(BOTH_LINES),
    ),
    Run(&["show", "story-both/disk"], Outcome::Done(BOTH_SHOWN)),
];

#[test]
fn both_sides_are_shown(rt: HostRuntime) {
    play(&rt, rt.alloc(), "story-both", BOTH);
}

const FIRST_APPLIED: Outcome = Outcome::Done(
    "sci 12153524c0895e81
blocks tx 4 rx 4
validate strict
replay on window 0
sci-mode explicit
encoding none
tx 0 confidential offset 0 next 5
spent tx 1 rx 0
",
);

const BOTH_APPLIED: Outcome = Outcome::Done(
    "sci 12153524c0895e81
blocks tx 4 rx 4
validate strict
replay on window 0
sci-mode explicit
encoding 0
tx 0 confidential offset 0 next 5
spent tx 1 rx 0
",
);

/// Each line is flushed after its command, and the first that cannot be ends the run.
const FLUSHED: &[Step] = &[
    Text("story-flushed/file", SENDER),
    Run(
        &["format", "story-flushed/a", "12153524c0895e81", "4", "4"],
        FORMATTED,
    ),
    Closing(9, 0, &["apply", "story-flushed/a", "story-flushed/file"]),
    Run(&["show", "story-flushed/a"], FIRST_APPLIED),
];

#[test]
fn a_line_that_is_not_flushed_ends_the_run(rt: HostRuntime) {
    play(&rt, rt.alloc(), "story-flushed", FLUSHED);
}

/// Each line is written after its command, and the first that cannot be ends the run.
const LINES: &[Step] = &[
    Text("story-lines/file", SENDER),
    Run(
        &["format", "story-lines/b", "12153524c0895e81", "4", "4"],
        FORMATTED,
    ),
    Closing(0, 9, &["apply", "story-lines/b", "story-lines/file"]),
    Run(&["show", "story-lines/b"], FIRST_APPLIED),
    // The first command is refused now, and the line of the second one is not taken.
    Closing(1, 9, &["apply", "story-lines/b", "story-lines/file"]),
    Run(&["show", "story-lines/b"], BOTH_APPLIED),
    // No number is reserved but with an association that is installed.
    Run(
        &["apply", "story-lines/b", "story-lines/file"],
        Outcome::Refused("1 refused SlotTaken\n2 ok\n"),
    ),
    Run(&["show", "story-lines/b"], BOTH_APPLIED),
];

#[test]
fn a_line_that_is_not_taken_ends_the_run(rt: HostRuntime) {
    play(&rt, rt.alloc(), "story-lines", LINES);
}

const COMMANDS_FAULT: Outcome = Outcome::Fault("macsecd: commands\n");

/// Applies the file that was made last.
const APPLY: &[&str] = &["apply", "story-files/disk", "story-files/file"];

/// Command files with a fault, and two that say no command: one is empty, one is a comment of the
/// greatest length.
const FILES: &[Step] = &[
    Run(
        &[
            "format",
            "story-files/disk",
            "12153524c0895e81",
            "1",
            "65536",
        ],
        FORMATTED,
    ),
    Run(APPLY, COMMANDS_FAULT),
    Folder("story-files/folder"),
    Run(
        &["apply", "story-files/disk", "story-files/folder"],
        COMMANDS_FAULT,
    ),
    Text("story-files/file", ""),
    Run(APPLY, Outcome::Done("")),
    Filled("story-files/file", b'#', 1_048_576),
    Run(APPLY, Outcome::Done("")),
    Filled("story-files/file", b'#', 1_048_577),
    Run(APPLY, COMMANDS_FAULT),
    Filled("story-files/file", 0xff, 3),
    Run(APPLY, COMMANDS_FAULT),
    Text("story-files/file", "command"),
    Run(APPLY, COMMANDS_FAULT),
    Text("story-files/file", "other = 1\n"),
    Run(APPLY, COMMANDS_FAULT),
    Text("story-files/file", "[[command]]\ndo = 'tx-send'\n"),
    Run(APPLY, COMMANDS_FAULT),
    Text("story-files/file", "[[command]]\ndo = 'tx-use'\n"),
    Run(APPLY, COMMANDS_FAULT),
    Text(
        "story-files/file",
        "[[command]]\ndo = 'tx-use'\nan = 0\nkey = 'x'\n",
    ),
    Run(APPLY, COMMANDS_FAULT),
];

#[test]
fn a_wrong_command_file_is_commands(rt: HostRuntime) {
    play(&rt, rt.alloc(), "story-files", FILES);
}

/// A key for the transmit side.
const KEY: &str = "[[command]]
do = 'tx-install'
an = 0
key = '000102030405060708090a0b0c0d0e0f'
start = 1
confidential = true
offset = 0
";

const OTHER_KEY: &str = "[[command]]
do = 'rx-add'
sci = '0200000000020001'

[[command]]
do = 'rx-install'
sci = '0200000000020001'
an = 0
key = '0f0e0d0c0b0a09080706050403020100'
start = 1
offset = 0
";

/// Commands for the other end of the link, of which the third installs the same key.
const OTHER_END: &str = "sci = '0200000000020001'

[[command]]
do = 'rx-add'
sci = '0200000000010001'

[[command]]
do = 'rx-install'
sci = '0200000000010001'
an = 0
key = '0f0e0d0c0b0a09080706050403020100'
start = 1
offset = 0

[[command]]
do = 'tx-install'
an = 0
key = '000102030405060708090a0b0c0d0e0f'
start = 1
confidential = true
offset = 0
";

/// The SHA-256 of `macsecd key ` and the key, in hex digits, and a line feed; as octets.
const NOTED: &str =
    "3563633231366136613431623866353966636632653438363930313836303961626665333035343738306335\
36396233633032613962393461313766613562630a";

/// With the line `formatted` behind it.
const CLOSED: &str =
    "3563633231366136613431623866353966636632653438363930313836303961626665333035343738306335\
36396233633032613962393461313766613562630a666f726d61747465640a";

/// With the other key behind that.
const NOTED_AGAIN: &str =
    "3563633231366136613431623866353966636632653438363930313836303961626665333035343738306335\
36396233633032613962393461313766613562630a666f726d61747465640a39383232376661373661626231\
6163313565323135653230646366646462663035396165613961333234613361363132353463303932333434\
623639643539620a";

const SPENT_FORMAT: &[&str] = &["format", "story-spent/disk", "0200000000010001", "4", "4"];

const APPLY_KEY: &[&str] = &["apply", "story-spent/disk", "story-spent/key.toml"];

const APPLY_OTHER: &[&str] = &["apply", "story-spent/disk", "story-spent/other.toml"];

/// A disk file is lost, and a new one gets its name.
const LOST: &[Step] = &[
    Text("story-spent/key.toml", KEY),
    Text("story-spent/other.toml", OTHER_KEY),
    Run(SPENT_FORMAT, FORMATTED),
    IsMissing("story-spent/disk.spent"),
    Run(APPLY_KEY, Outcome::Done("1 ok\n")),
    Holds("story-spent/disk.spent", NOTED),
    Zeros("story-spent/disk", 0),
    Run(SPENT_FORMAT, FORMATTED),
    Holds("story-spent/disk.spent", CLOSED),
    Run(APPLY_KEY, Outcome::Fault("macsecd: commands\n")),
    Holds("story-spent/disk.spent", CLOSED),
    Run(
        &["check", "story-spent/key.toml", "story-spent/disk"],
        Outcome::Fault("macsecd: command 1 key: an earlier disk file of this name had it\n"),
    ),
    Run(APPLY_OTHER, Outcome::Done("1 ok\n2 ok\n")),
    Holds("story-spent/disk.spent", NOTED_AGAIN),
    Run(SPENT_FORMAT, Outcome::Disk("macsecd: already formatted\n")),
    Holds("story-spent/disk.spent", NOTED_AGAIN),
    Run(
        APPLY_OTHER,
        Outcome::Refused("1 refused ChannelTaken\n2 refused SlotTaken\n"),
    ),
];

#[test]
fn no_key_of_a_lost_disk_is_applied(rt: HostRuntime) {
    play(&rt, rt.alloc(), "story-spent", LOST);
}

const OTHER_FORMAT: &[&str] = &["format", "story-third/disk", "0200000000020001", "4", "4"];

/// The third command of a file has the key of a disk file that was lost. The disk file has a second
/// name, beside which there is no list.
const THIRD: &[Step] = &[
    Text("story-third/key.toml", KEY),
    Text("story-third/end.toml", OTHER_END),
    Folder("story-third/folder"),
    Symbolic("../disk", "story-third/folder/link"),
    Run(OTHER_FORMAT, FORMATTED),
    Run(
        &["apply", "story-third/folder/link", "story-third/key.toml"],
        Outcome::Done("1 ok\n"),
    ),
    Holds("story-third/disk.spent", NOTED),
    IsMissing("story-third/folder/link.spent"),
    Zeros("story-third/disk", 0),
    Run(OTHER_FORMAT, FORMATTED),
    Run(
        &["check", "story-third/end.toml", "story-third/folder/link"],
        Outcome::Fault("macsecd: command 3 key: an earlier disk file of this name had it\n"),
    ),
];

#[test]
fn a_key_of_a_lost_disk_is_told_by_its_command(rt: HostRuntime) {
    play(&rt, rt.alloc(), "story-third", THIRD);
}

const NOT_OWN_FORMAT: &[&str] = &["format", "story-not-own/own", "0200000000020001", "4", "4"];

/// A command file for the other end, and then that end: both of its keys are noted.
const NOT_OWN: &[Step] = &[
    Text("story-not-own/key.toml", KEY),
    Text("story-not-own/end.toml", OTHER_END),
    Run(
        &["format", "story-not-own/disk", "0200000000010001", "4", "4"],
        FORMATTED,
    ),
    Run(
        &["apply", "story-not-own/disk", "story-not-own/end.toml"],
        Outcome::Fault("macsecd: commands\n"),
    ),
    IsMissing("story-not-own/disk.spent"),
    Run(NOT_OWN_FORMAT, FORMATTED),
    Run(
        &["apply", "story-not-own/own", "story-not-own/end.toml"],
        Outcome::Done("1 ok\n2 ok\n3 ok\n"),
    ),
    HasOctets("story-not-own/own.spent", 130),
    Zeros("story-not-own/own", 0),
    Run(NOT_OWN_FORMAT, FORMATTED),
    Run(
        &["check", "story-not-own/end.toml", "story-not-own/own"],
        Outcome::Fault("macsecd: command 2 key: an earlier disk file of this name had it\n"),
    ),
    Run(
        &["check", "story-not-own/key.toml", "story-not-own/own"],
        Outcome::Fault("macsecd: command 1 key: an earlier disk file of this name had it\n"),
    ),
];

#[test]
fn the_keys_of_the_own_end_are_noted(rt: HostRuntime) {
    play(&rt, rt.alloc(), "story-not-own", NOT_OWN);
}

const UNSYNCED_DISK: &str = "story-unsynced/disk";

const UNSYNCED_LIST: &str = "story-unsynced/disk.spent";

const UNSYNCED_FORMAT: &[&str] = &["format", UNSYNCED_DISK, "0200000000010001", "4", "4"];

const UNSYNCED_APPLY: &[&str] = &["apply", UNSYNCED_DISK, "story-unsynced/key.toml"];

/// The list of keys is not synced, or its folder is not. Nothing is done then that it stands for:
/// no command is applied, and no new disk file takes the name.
const UNSYNCED: &[Step] = &[
    Text("story-unsynced/key.toml", KEY),
    Run(UNSYNCED_FORMAT, FORMATTED),
    Failing(
        UNSYNCED_LIST,
        FolderSync,
        UNSYNCED_APPLY,
        Outcome::Fault("macsecd: commands\n"),
    ),
    HasMode(UNSYNCED_LIST, 0o600),
    Run(UNSYNCED_APPLY, Outcome::Done("1 ok\n")),
    Zeros(UNSYNCED_DISK, 0),
    Failing(
        UNSYNCED_LIST,
        FolderSync,
        UNSYNCED_FORMAT,
        Outcome::Disk("macsecd: disk file\n"),
    ),
    HasOctets(UNSYNCED_DISK, 0),
    Failing(
        "story-unsynced",
        FolderSync,
        UNSYNCED_FORMAT,
        Outcome::Disk("macsecd: disk file\n"),
    ),
    HasOctets(UNSYNCED_DISK, 0),
    Run(UNSYNCED_FORMAT, FORMATTED),
];

#[test]
fn the_list_of_keys_is_synced_first(rt: HostRuntime) {
    play(&rt, rt.alloc(), "story-unsynced", UNSYNCED);
}

/// A folder has the name of the list of keys.
const UNLISTED: &[Step] = &[
    Text("story-unlisted/key.toml", KEY),
    Run(
        &[
            "format",
            "story-unlisted/disk",
            "0200000000010001",
            "4",
            "4",
        ],
        FORMATTED,
    ),
    Folder("story-unlisted/disk.spent"),
    Run(
        &["apply", "story-unlisted/disk", "story-unlisted/key.toml"],
        Outcome::Fault("macsecd: commands\n"),
    ),
    Run(
        &["check", "story-unlisted/key.toml", "story-unlisted/disk"],
        Outcome::Fault("macsecd: key list: cannot be read\n"),
    ),
    Zeros("story-unlisted/disk", 0),
    Run(
        &[
            "format",
            "story-unlisted/disk",
            "0200000000010001",
            "4",
            "4",
        ],
        Outcome::Disk("macsecd: disk file\n"),
    ),
    HasOctets("story-unlisted/disk", 0),
];

#[test]
fn no_key_is_applied_that_is_not_noted(rt: HostRuntime) {
    play(&rt, rt.alloc(), "story-unlisted", UNLISTED);
}
