//! Relays over the disk of a keeper. Each answer to a write or a sync comes in six parts, of which a
//! look takes one.

use super::link_files::RIGHT;
use super::stories::Step::{RelayKept, Run, Text};
use super::stories::{Client, Frames, KeptRelay, Step, Told, play};
use super::wires::FRAMES;
use crate::Outcome::{Disk, Done, Fault};

const DISK: &str = "story-kept/disk";

const KEEPER: &str = "story-kept/keeper";

const CONTROL: &str = "story-kept/control";

/// A relay that reserves numbers for both ways, with four calls each. The keeper is looked for once,
/// after both wires are bound.
const RELAY: KeptRelay = KeptRelay {
    disk: DISK,
    keeper: KEEPER,
    answered: 8,
    is_over: false,
    words: &["--turns=60"],
    frames: FRAMES,
    strangers: 0,
    control: "",
    clients: &[],
    parent: "story-kept/notify",
    seen: "wire\nkeeper\nend\n",
    least: 0,
    outcome: Done("sent 1 delivered 1 dropped 0 faults 0\n"),
};

/// The same to which no frame comes.
const QUIET: KeptRelay = KeptRelay {
    frames: Frames {
        plain: "",
        protected: "",
        arrived: "",
        delivered: "",
    },
    parent: "",
    seen: "",
    outcome: Done("sent 0 delivered 0 dropped 0 faults 0\n"),
    ..RELAY
};

/// A keeper that ends.
const ENDED: KeptRelay = KeptRelay {
    answered: 3,
    is_over: true,
    outcome: Disk("macsecd: disk\n"),
    ..QUIET
};

/// Four calls, with five looks each that find a part of an answer: if the next part did not wake it,
/// the relay would sleep for a second after each of these.
const WOKEN: KeptRelay = KeptRelay {
    answered: 4,
    words: &["--wait=1000", "--turns=24"],
    ..QUIET
};

/// The same with a desk. The buffers of the wires are those that were asked for.
const WOKEN_BESIDE: KeptRelay = KeptRelay {
    words: &["--wait=1000", "--turns=24", "--buffer=65536"],
    control: CONTROL,
    clients: &[Client {
        lines: "counters\n",
        later: "",
        told: &[Told::Buffers],
    }],
    ..WOKEN
};

/// A keeper that is silent, a frame that waits for numbers, and after it what a stranger sends. All
/// turns but the first pause for a millisecond.
const PAUSES: KeptRelay = KeptRelay {
    answered: 0,
    words: &["--turns=500"],
    frames: Frames {
        protected: "",
        arrived: "",
        delivered: "",
        ..FRAMES
    },
    strangers: 1,
    least: 499,
    outcome: Done("sent 0 delivered 0 dropped 1 faults 0\n"),
    ..QUIET
};

const PAUSES_BESIDE: KeptRelay = KeptRelay {
    control: CONTROL,
    ..PAUSES
};

/// A wire that cannot be bound is found before the keeper that is not there.
const RELAYS: &[Step] = &[
    Run(
        &["format", DISK, "0200000000020001", "1024", "16"],
        Done("formatted\n"),
    ),
    Text("story-kept/right.toml", RIGHT),
    Run(
        &["apply", DISK, "story-kept/right.toml"],
        Done("1 ok\n2 ok\n3 ok\n4 ok\n"),
    ),
    RelayKept(&RELAY),
    RelayKept(&WOKEN),
    RelayKept(&WOKEN_BESIDE),
    RelayKept(&PAUSES),
    RelayKept(&PAUSES_BESIDE),
    RelayKept(&ENDED),
    Run(
        &[
            "relay",
            DISK,
            "127.0.0.1:0",
            "127.0.0.1:9",
            "192.0.2.1:0",
            "127.0.0.1:9",
            "--turns=5",
            "--keeper",
            KEEPER,
        ],
        Fault("macsecd: wire\n"),
    ),
    Run(
        &[
            "relay",
            DISK,
            "127.0.0.1:0",
            "127.0.0.1:9",
            "127.0.0.1:0",
            "127.0.0.1:9",
            "--turns=5",
            "--keeper",
            KEEPER,
        ],
        Disk("macsecd: disk\n"),
    ),
];

#[test]
fn a_relay_has_the_disk_of_its_keeper(rt: HostRuntime) {
    play(&rt, rt.alloc(), "story-kept", RELAYS);
}
