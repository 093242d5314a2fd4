//! Relays that wait: how long they sleep, and what wakes them.

use super::link_files::RIGHT;
use super::stories::Step::{Relay, Run, Text};
use super::stories::{Frames, Relayed, Step, play};
use super::wires::FRAMES;
use crate::Outcome::Done;
use std::test::Fail;
use std::time::{Duration, Instant};

/// Ten turns to which no frame comes, with 0.2 s after each.
const SLEEPS: &[Step] = &[
    Run(
        &["format", "story-sleeps/disk", "12153524c0895e81", "4", "4"],
        Done("formatted\n"),
    ),
    Run(
        &[
            "relay",
            "story-sleeps/disk",
            "127.0.0.1:0",
            "127.0.0.1:9",
            "127.0.0.1:0",
            "127.0.0.1:9",
            "--wait",
            "200",
            "--turns",
            "10",
        ],
        Done("sent 0 delivered 0 dropped 0 faults 0\n"),
    ),
];

#[test]
fn a_relay_that_waits_sleeps(rt: HostRuntime) -> Result<(), Fail> {
    let begun = Instant::now(&rt)?;
    play(&rt, rt.alloc(), "story-sleeps", SLEEPS);
    assert!(rt; begun.elapsed(&rt)? >= Duration::from_secs(2));
    Ok(())
}

/// The plain frame alone, and the protected one alone.
const PLAIN: Frames = Frames {
    arrived: "",
    delivered: "",
    ..FRAMES
};

const ARRIVED: Frames = Frames {
    plain: "",
    protected: "",
    ..FRAMES
};

/// A frame on one wire and nothing on the other: forty of a stranger's datagrams are each seen
/// without a sleep of a second between. A plain frame is sent in the next turn, a protected one
/// after the four turns of a reservation.
const WAKES: &[Step] = &[
    Run(
        &[
            "format",
            "story-wakes/disk",
            "0200000000020001",
            "1024",
            "16",
        ],
        Done("formatted\n"),
    ),
    Text("story-wakes/right.toml", RIGHT),
    Run(
        &["apply", "story-wakes/disk", "story-wakes/right.toml"],
        Done("1 ok\n2 ok\n3 ok\n4 ok\n"),
    ),
    Relay(&Relayed {
        disk: "story-wakes/disk",
        pace: "--wait=1000",
        turns: "--turns=41",
        frames: PLAIN,
        strangers: 40,
        outcome: Done("sent 1 delivered 0 dropped 0 faults 0\n"),
    }),
    Relay(&Relayed {
        disk: "story-wakes/disk",
        pace: "--wait=1000",
        turns: "--turns=46",
        frames: ARRIVED,
        strangers: 40,
        outcome: Done("sent 0 delivered 1 dropped 0 faults 0\n"),
    }),
];

#[test]
fn a_frame_behind_strangers_wakes_a_relay(rt: HostRuntime) -> Result<(), Fail> {
    let begun = Instant::now(&rt)?;
    play(&rt, rt.alloc(), "story-wakes", WAKES);
    assert!(rt; begun.elapsed(&rt)? < Duration::from_secs(20));
    Ok(())
}
