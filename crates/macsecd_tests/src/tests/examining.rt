//! What the journal on a disk has, which stays as it is.

use super::link_files::{LEFT, PLAIN};
use super::older_files::{GATE, HEAD, LAST_HEAD, SETTINGS, TX_INSTALL, TX_USE};
use super::stand_in::Broken::{Opening, Printed, Read};
use super::stories::Step::{
    Claimed, Closing, Failing, Filled, Folder, HasOctets, Hex, IsMissing, Keeping, Patch, Run,
    Shared, Symbolic, Text, Zeros,
};
use super::stories::{Step, play};
use crate::Outcome;
use std::io::ErrorKind::{
    FilesystemLoop, IsADirectory, NotADirectory, NotFound, Other, OutOfMemory, PermissionDenied,
    TooManyLinks, WouldBlock,
};

const FORMATTED: Outcome = Outcome::Done("formatted\n");

const DISK: &str = "story-examine/disk";

const SPACED: &str = "story-examine/spaced";

const EXAMINE: &[&str] = &["examine", DISK];

const EXAMINE_IN_JSON: &[&str] = &["examine", DISK, "--json"];

/// One record: the settings of a new endpoint.
const NEW: Outcome = Outcome::Done(
    "format 2
block 512
area 0
generation 1
slots used 1 of 256
records settings 1
spent tx 0 of 512
spent rx 0 of 512
whole
",
);

/// Four commands more: the ceiling of the transmit association is its start and a block, that of
/// the receive association its start.
const APPLIED: Outcome = Outcome::Done(
    "format 2
block 512
area 0
generation 1
slots used 5 of 256
records settings 1
records tx-install 1
records tx-use 1
records rx-add 1
records rx-install 1
ceiling tx 0 1025
ceiling rx 0200000000020001 0 1
spent tx 1 of 512
spent rx 1 of 512
whole
",
);

/// One reservation more.
const PROTECTED: Outcome = Outcome::Done(
    "format 2
block 512
area 0
generation 1
slots used 6 of 256
records settings 1
records tx-install 1
records tx-use 1
records rx-add 1
records rx-install 1
records tx-ceiling 1
ceiling tx 0 2049
ceiling rx 0200000000020001 0 1
spent tx 1 of 512
spent rx 1 of 512
whole
",
);

/// The same as JSON.
const PROTECTED_IN_JSON: Outcome = Outcome::Done(
    "{\"line\":\"format\",\"format\":2}
{\"line\":\"block\",\"octets\":512}
{\"line\":\"area\",\"area\":0}
{\"line\":\"generation\",\"generation\":1}
{\"line\":\"slots\",\"used\":6,\"of\":256}
{\"line\":\"records\",\"kind\":\"settings\",\"count\":1}
{\"line\":\"records\",\"kind\":\"tx-install\",\"count\":1}
{\"line\":\"records\",\"kind\":\"tx-use\",\"count\":1}
{\"line\":\"records\",\"kind\":\"rx-add\",\"count\":1}
{\"line\":\"records\",\"kind\":\"rx-install\",\"count\":1}
{\"line\":\"records\",\"kind\":\"tx-ceiling\",\"count\":1}
{\"line\":\"ceiling\",\"an\":0,\"ceiling\":2049}
{\"line\":\"ceiling\",\"sci\":\"0200000000020001\",\"an\":0,\"ceiling\":1}
{\"line\":\"spent\",\"side\":\"tx\",\"keys\":1,\"of\":512}
{\"line\":\"spent\",\"side\":\"rx\",\"keys\":1,\"of\":512}
{\"line\":\"whole\"}
",
);

const NEW_SPACED: Outcome = Outcome::Done(
    "format 2
block 4096
area 0
generation 1
slots used 1 of 256
records settings 1
spent tx 0 of 512
spent rx 0 of 512
whole
",
);

const EXAMINED: &[Step] = &[
    Run(
        &["format", DISK, "0200000000010001", "1024", "16"],
        FORMATTED,
    ),
    Keeping(&[DISK], EXAMINE, NEW),
    Text("story-examine/left.toml", LEFT),
    Hex("story-examine/plain.pcap", PLAIN),
    Run(
        &["apply", DISK, "story-examine/left.toml"],
        Outcome::Done("1 ok\n2 ok\n3 ok\n4 ok\n"),
    ),
    Keeping(&[DISK], EXAMINE, APPLIED),
    Run(
        &[
            "protect",
            DISK,
            "story-examine/plain.pcap",
            "story-examine/protected.pcap",
        ],
        Outcome::Done("protected 3 dropped 0\n"),
    ),
    Keeping(&[DISK], EXAMINE, PROTECTED),
    Keeping(&[DISK], EXAMINE_IN_JSON, PROTECTED_IN_JSON),
    Shared(DISK, EXAMINE, PROTECTED),
    Closing(0, 0, EXAMINE),
    Closing(0, 0, EXAMINE_IN_JSON),
    Closing(9, 0, EXAMINE),
    Run(
        &[
            "format",
            SPACED,
            "0200000000010001",
            "1024",
            "16",
            "--block",
            "4096",
        ],
        FORMATTED,
    ),
    Keeping(&[SPACED], &["examine", SPACED], NEW_SPACED),
];

#[test]
fn a_journal_is_examined(rt: HostRuntime) {
    play(&rt, rt.alloc(), "story-examine", EXAMINED);
}

const OLDER: &str = "story-examine-older/disk";

/// A file of an older program: it is not brought up to date.
const OF_FORMAT_ONE: Outcome = Outcome::Done(
    "format 1
block 512
area 0
generation 1
slots used 3 of 256
records settings 1
records tx-install 1
records tx-use 1
ceiling tx 0 5
spent tx 1 of 512
spent rx 0 of 512
whole
",
);

/// The settings, the association and its key, in the other area.
const BEGUN_ANEW: Outcome = Outcome::Done(
    "format 2
block 512
area 1
generation 2
slots used 3 of 256
records settings 1
records tx-sa 1
records spent 1
ceiling tx 0 5
spent tx 1 of 512
spent rx 0 of 512
whole
",
);

/// A key of 256 bits, and one of 128.
const KEYS: &str = "[[command]]
do = 'tx-install'
an = 1
key = 'ad7a2bd03eac835a6f620fdcb506b345ad7a2bd03eac835a6f620fdcb506b345'
start = 1
confidential = true
offset = 0

[[command]]
do = 'tx-install'
an = 2
key = 'e07b49d6158c32af6e90b7c4fd2a8113'
start = 1
confidential = true
offset = 0
";

/// Two records more, and two keys; each ceiling is its start and a block.
const WITH_KEYS: Outcome = Outcome::Done(
    "format 2
block 512
area 1
generation 2
slots used 5 of 256
records settings 1
records tx-sa 1
records spent 1
records tx-install 2
ceiling tx 0 5
ceiling tx 1 5
ceiling tx 2 5
spent tx 3 of 512
spent rx 0 of 512
whole
",
);

const SHOWN: Outcome = Outcome::Done(
    "sci 12153524c0895e81
blocks tx 4 rx 4
validate strict
replay on window 0
sci-mode explicit
encoding 0
tx 0 confidential offset 30 next 5
spent tx 1 rx 0
",
);

const EXAMINED_OLDER: &[Step] = &[
    Zeros(OLDER, 526_336),
    Patch(OLDER, 0, HEAD),
    Patch(OLDER, 512, GATE),
    Patch(OLDER, 2 * 512, SETTINGS),
    Patch(OLDER, 4 * 512, TX_INSTALL),
    Patch(OLDER, 5 * 512, GATE),
    Patch(OLDER, 6 * 512, TX_USE),
    Patch(OLDER, 7 * 512, GATE),
    Keeping(&[OLDER], &["examine", OLDER], OF_FORMAT_ONE),
    Run(&["show", OLDER], SHOWN),
    Keeping(&[OLDER], &["examine", OLDER], BEGUN_ANEW),
    Text("story-examine-older/keys.toml", KEYS),
    Run(
        &["apply", OLDER, "story-examine-older/keys.toml"],
        Outcome::Done("1 ok\n2 ok\n"),
    ),
    Keeping(&[OLDER], &["examine", OLDER], WITH_KEYS),
];

#[test]
fn an_older_file_is_examined(rt: HostRuntime) {
    play(&rt, rt.alloc(), "story-examine-older", EXAMINED_OLDER);
}

const FAULTY: &str = "story-examine-faults/disk";

const FAULTY_WORDS: &[&str] = &["examine", FAULTY];

const NO_FILE: Outcome = Outcome::Disk(
    "macsecd: disk file: story-examine-faults/disk: no such file\n",
);

/// The reason, for each error of the system.
const REASONS: &[Step] = &[
    Text(REASON, ""),
    Failing(
        REASON,
        Opening(NotFound),
        REASON_WORDS,
        Outcome::Disk("macsecd: disk file: story-reasons/disk: no such file\n"),
    ),
    Failing(
        REASON,
        Opening(NotADirectory),
        REASON_WORDS,
        Outcome::Disk("macsecd: disk file: story-reasons/disk: no such file\n"),
    ),
    Failing(
        REASON,
        Opening(PermissionDenied),
        REASON_WORDS,
        Outcome::Disk("macsecd: disk file: story-reasons/disk: no permission\n"),
    ),
    Failing(
        REASON,
        Opening(IsADirectory),
        REASON_WORDS,
        Outcome::Disk("macsecd: disk file: story-reasons/disk: a folder\n"),
    ),
    Failing(
        REASON,
        Opening(FilesystemLoop),
        REASON_WORDS,
        Outcome::Disk("macsecd: disk file: story-reasons/disk: too many links\n"),
    ),
    Failing(
        REASON,
        Opening(TooManyLinks),
        REASON_WORDS,
        Outcome::Disk("macsecd: disk file: story-reasons/disk: too many links\n"),
    ),
    Failing(
        REASON,
        Opening(WouldBlock),
        REASON_WORDS,
        Outcome::Disk("macsecd: disk file: story-reasons/disk: in use by another program\n"),
    ),
    Failing(
        REASON,
        Opening(Other),
        REASON_WORDS,
        Outcome::Disk("macsecd: disk file: story-reasons/disk: cannot be read\n"),
    ),
    // A name is shown without control characters.
    Run(
        &["examine", "story-reasons/no\x1b[1m\n"],
        Outcome::Disk("macsecd: disk file: story-reasons/no?[1m?: no such file\n"),
    ),
    Symbolic("circle", "story-reasons/circle"),
    Run(
        &["examine", "story-reasons/circle"],
        Outcome::Disk("macsecd: disk file: story-reasons/circle: too many links\n"),
    ),
    Run(
        &["examine", "story-reasons/disk/disk"],
        Outcome::Disk("macsecd: disk file: story-reasons/disk/disk: no such file\n"),
    ),
];

const REASON: &str = "story-reasons/disk";

const REASON_WORDS: &[&str] = &["examine", REASON];

#[test]
fn a_disk_that_is_not_opened_says_why(rt: HostRuntime) {
    play(&rt, rt.alloc(), "story-reasons", REASONS);
}

/// What standard output goes to.
const PRINTED_TO: Outcome = Outcome::Disk(
    "macsecd: disk file: story-examine-faults/disk: not a regular file, or standard output goes there\n",
);

const DISK_FAULT: Outcome = Outcome::Disk("macsecd: disk\n");

const BAD_JOURNAL: Outcome = Outcome::Disk("macsecd: bad journal\n");

/// Nothing is printed before a fault, and no file is made.
const FAULTS: &[Step] = &[
    Run(FAULTY_WORDS, NO_FILE),
    IsMissing(FAULTY),
    Folder("story-examine-faults/folder"),
    Run(
        &["examine", "story-examine-faults/folder"],
        Outcome::Disk("macsecd: disk file: story-examine-faults/folder: a folder\n"),
    ),
    Filled(FAULTY, 0, 526_337),
    Run(FAULTY_WORDS, Outcome::Disk("macsecd: disk length\n")),
    Filled(FAULTY, 0, 100),
    Run(FAULTY_WORDS, Outcome::Disk("macsecd: disk length\n")),
    Filled(FAULTY, 0, 512),
    Run(FAULTY_WORDS, Outcome::Disk("macsecd: too small\n")),
    HasOctets(FAULTY, 512),
    Filled(FAULTY, 0, 526_848),
    Run(FAULTY_WORDS, Outcome::Disk("macsecd: not formatted\n")),
    Run(&["format", FAULTY, "12153524c0895e81", "1", "1"], FORMATTED),
    Run(FAULTY_WORDS, NEW),
    Claimed(
        FAULTY,
        FAULTY_WORDS,
        Outcome::Disk("macsecd: disk file: story-examine-faults/disk: in use by another program\n"),
    ),
    // Standard output goes into the file.
    Failing(FAULTY, Printed, FAULTY_WORDS, PRINTED_TO),
    Failing(FAULTY, Opening(NotFound), FAULTY_WORDS, NO_FILE),
    Failing(
        FAULTY,
        Opening(OutOfMemory),
        FAULTY_WORDS,
        Outcome::Fault("macsecd: memory\n"),
    ),
    // A sector is read in six parts here, and the last of 1,028 by the reads up to the 6,168th.
    Failing(FAULTY, Read(1, Other), FAULTY_WORDS, DISK_FAULT),
    Failing(FAULTY, Read(6_168, Other), FAULTY_WORDS, DISK_FAULT),
    Failing(FAULTY, Read(6_169, Other), FAULTY_WORDS, NEW),
    // A record that does not follow from those before it.
    Patch(FAULTY, 4 * 512, TX_USE),
    Patch(FAULTY, 5 * 512, GATE),
    Keeping(&[FAULTY], FAULTY_WORDS, BAD_JOURNAL),
];

#[test]
fn each_fault_of_an_examined_disk_is_told(rt: HostRuntime) {
    play(&rt, rt.alloc(), "story-examine-faults", FAULTS);
}

const SPOILED: &str = "story-examine-spoiled/disk";

const SPOILED_WORDS: &[&str] = &["examine", SPOILED];

/// The first sector at fault. A slot whose gate is closed has none, unless a gate behind it is
/// open.
const SPOILED_SECTORS: &[Step] = &[
    Run(
        &["format", SPOILED, "12153524c0895e81", "1", "1"],
        FORMATTED,
    ),
    Patch(SPOILED, 4 * 512, "ff"),
    Run(SPOILED_WORDS, NEW),
    Patch(SPOILED, 5 * 512, GATE),
    Keeping(
        &[SPOILED],
        SPOILED_WORDS,
        Outcome::Refused("fault in sector 4\n"),
    ),
    Patch(SPOILED, 5 * 512, "00"),
    Run(SPOILED_WORDS, NEW),
    Patch(SPOILED, 513 * 512, GATE),
    Run(SPOILED_WORDS, Outcome::Refused("fault in sector 5\n")),
    Patch(SPOILED, 2 * 512, "ff"),
    Run(SPOILED_WORDS, Outcome::Refused("fault in sector 2\n")),
    Patch(SPOILED, 515 * 512, GATE),
    Run(SPOILED_WORDS, Outcome::Refused("fault in sector 514\n")),
    Patch(SPOILED, 0, "ff"),
    Run(SPOILED_WORDS, Outcome::Refused("fault in sector 0\n")),
    Run(
        &["examine", SPOILED, "--json"],
        Outcome::Refused("fault in sector 0\n"),
    ),
];

#[test]
fn the_first_sector_at_fault_is_told(rt: HostRuntime) {
    play(&rt, rt.alloc(), "story-examine-spoiled", SPOILED_SECTORS);
}

const LAST: &str = "story-examine-last/disk";

/// A file of an older program that cannot begin anew: no endpoint is opened on it.
const LAST_GENERATION: &[Step] = &[
    Zeros(LAST, 526_336),
    Patch(LAST, 0, LAST_HEAD),
    Patch(LAST, 512, GATE),
    Patch(LAST, 2 * 512, SETTINGS),
    Keeping(
        &[LAST],
        &["examine", LAST],
        Outcome::Disk("macsecd: generations spent\n"),
    ),
];

#[test]
fn an_older_file_in_its_last_generation_is_not_examined(rt: HostRuntime) {
    play(&rt, rt.alloc(), "story-examine-last", LAST_GENERATION);
}
