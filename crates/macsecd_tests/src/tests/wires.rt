//! A frame on each wire of a relay. The protected frames were made by Python's `cryptography`
//! (AESGCM).

use super::link_files::RIGHT;
use super::stories::Step::{Relay, Run, Text};
use super::stories::{Frames, Relayed, Step, play};
use crate::Outcome;

/// The plain frame goes out under packet number 1,025; the other one is the first of the left end.
pub const FRAMES: Frames = Frames {
    plain: "020000000001020000000002080045000054000100004001f6a4c0000201c0000202080000e500070001000102030405060708090a0b0c0d0e0f101112131415161718191a1b1c1d1e1f202122232425262728292a2b2c2d2e2f3031323334353637",
    protected: "02000000000102000000000288e52c00000004010200000000020001423fbdc3e4ae98cfa3c060e90229771f7d43e0a320243efe3d226257902d707d40bdde6c3cf5325d8f3854012399ac9fa74ac63a8f18af4bc406a28a0fa9dbdd7c01d0c08037b49c37b770fc54db6c7e644645d5c052d0078e67b4652d8e6c83e9daccad806b",
    arrived: "ffffffffffff02000000000188e52c000000040102000000000100017a7f5b7dfca2d962f3b0011b025a6816ecccc269755b273ebb4741926d1e5e39c5231f87144b058e0ae34319afa676506d9141992a85c5ab922d7a9d77131559",
    delivered: "ffffffffffff02000000000108060001080006040001020000000001c0000201000000000000c0000202000000000000000000000000000000000000",
};

/// Wires that are exchanged would drop the plain frame, and protect the other one once more.
const RELAYED: &[Step] = &[
    Run(
        &[
            "format",
            "story-wires/disk",
            "0200000000020001",
            "1024",
            "16",
        ],
        Outcome::Done("formatted\n"),
    ),
    Text("story-wires/right.toml", RIGHT),
    Run(
        &["apply", "story-wires/disk", "story-wires/right.toml"],
        Outcome::Done("1 ok\n2 ok\n3 ok\n4 ok\n"),
    ),
    Relay(&Relayed {
        disk: "story-wires/disk",
        pace: "--turns",
        turns: "1000",
        frames: FRAMES,
        strangers: 0,
        outcome: Outcome::Done("sent 1 delivered 1 dropped 0 faults 0\n"),
    }),
];

#[test]
fn each_wire_is_in_its_place(rt: HostRuntime) {
    play(&rt, rt.alloc(), "story-wires", RELAYED);
}
