//! Frames that are opened, and each refusal.

use super::{
    FourLines, INTEGRITY, INTEGRITY_LINE, KEY, OPENED, SCI, expect_lines_and, expect_openings,
    joined,
};
use macsecd_tests::Outcome;
use std::alloc::Global;
use std::fs::File;
use std::net::Net;
use std::process::Abort;
use std::random::RandomSource;
use std::rt::{Clock, Env, Files};
use std::test::Fail;

/// A frame with offset 30.
const THIRTY: &str =
    "d609b1f056637a0d46df998d88e52e2ab2c2846512153524c0895e8108000f101112131415161718191a1b1c1d1e1f202122232425262728292a5336d822fe1be2f143309d7fc85a1c340ee2c2e685dc66cea1fe0d09";

/// A frame under the key of FIPS 197, C.3, as tools/channel_vectors.py has it.
const LONG: &str =
    "d609b1f056637a0d46df998d88e52e00b2c2846512153524c0895e8164fc41d9a019c6be9830655049b8cb68bb2b2eca5a62046baa3b83004291a14d473d13697e5a23825fce5b1617fb3e0797319f44036e3edf3765b0e7d23f7d3e";

/// Key, SCI, offset and frame, and what they come to.
const FRAMES: &[FourLines] = &[
    ([KEY, SCI, "0", INTEGRITY], OPENED),
    (
        [
            KEY,
            SCI,
            "0",
            "d609b1f056637a0d46df998d88e52e00b2c2846512153524c0895e81701afa1cc039c0d765128a665dab69243899bf7318ccdc81c9931da17fbe8edd7d17cb8b4c26fc81e3284f2b7fba713d4f8d55e7d3f06fd5a13c0c29b9d5b880",
        ],
        Outcome::Done(
            "valid an=2 pn=b2c28465 plain=d609b1f056637a0d46df998d08000f101112131415161718191a1b1c1d1e1f202122232425262728292a2b2c2d2e2f303132333435363738393a0002\n",
        ),
    ),
    ([KEY, SCI, "30", THIRTY], Outcome::Done(INTEGRITY_LINE)),
    (
        [
            KEY,
            SCI,
            "50",
            "d609b1f056637a0d46df998d88e52e00b2c2846512153524c0895e8108000f101112131415161718191a1b1c1d1e1f202122232425262728292a2b2c2d2e2f303132333435363738393a3b3c3d3e475ab44e926f968570078eb537314ccc5776bc50452813e0dfdd",
        ],
        Outcome::Done(
            "valid an=2 pn=b2c28465 plain=d609b1f056637a0d46df998d08000f101112131415161718191a1b1c1d1e1f202122232425262728292a2b2c2d2e2f303132333435363738393a3b3c3d3e3f404142434445460003\n",
        ),
    ),
    // An end station: its SCI is the source address with port 00-01.
    (
        [
            "071b113b0ca743fecccf3d051f737382",
            "f0761e8dcd3d0001",
            "0",
            "e20106d7cd0df0761e8dcd3d88e54c2a76d457ed13b4c72b389dc5018e72a171dd85a5d3752274d3a019fbcaed09a425cd9b2e1c9b72eee7c9de7d52b3f3d6a5284f4a6d3fe22a5d6c2b960494c3",
        ],
        Outcome::Done(
            "valid an=0 pn=76d457ed plain=e20106d7cd0df0761e8dcd3d08000f101112131415161718191a1b1c1d1e1f202122232425262728292a2b2c2d2e2f30313233340004\n",
        ),
    ),
    // Keys of 256 bits: the first one sealed the frame, the second differs in its last bit.
    (
        [
            "000102030405060708090a0b0c0d0e0f101112131415161718191a1b1c1d1e1f",
            SCI,
            "0",
            LONG,
        ],
        Outcome::Done(
            "valid an=2 pn=b2c28465 plain=d609b1f056637a0d46df998d08000f101112131415161718191a1b1c1d1e1f202122232425262728292a2b2c2d2e2f303132333435363738393a0002\n",
        ),
    ),
    (
        [
            "000102030405060708090a0b0c0d0e0f101112131415161718191a1b1c1d1e1e",
            SCI,
            "0",
            LONG,
        ],
        Outcome::Refused("not valid\n"),
    ),
    // Each refusal.
    (
        [KEY, SCI, "0", "d609b1f056637a0d46df998d08"],
        Outcome::Refused("runt\n"),
    ),
    (
        [KEY, SCI, "0", "d609b1f056637a0d46df998d0800"],
        Outcome::Refused("no tag\n"),
    ),
    (
        [KEY, SCI, "0", "d609b1f056637a0d46df998d88e5"],
        Outcome::Refused("bad tag\n"),
    ),
    // E is set and C is not.
    (
        [
            KEY,
            SCI,
            "0",
            "d609b1f056637a0d46df998d88e52a2ab2c2846512153524c0895e8108000f101112131415161718191a1b1c1d1e1f202122232425262728292a2b2c2d2e2f30313233340001f09478a9b09007d06f46e9b6a1da25dd",
        ],
        Outcome::Refused("for kay\n"),
    ),
    (
        [KEY, "12153524c0895e82", "0", INTEGRITY],
        Outcome::Refused("other sci\n"),
    ),
    // The last octet of the ICV is another.
    (
        [
            KEY,
            SCI,
            "0",
            "d609b1f056637a0d46df998d88e5222ab2c2846512153524c0895e8108000f101112131415161718191a1b1c1d1e1f202122232425262728292a2b2c2d2e2f30313233340001f09478a9b09007d06f46e9b6a1da25de",
        ],
        Outcome::Refused("not valid\n"),
    ),
    // A frame opens under its own offset alone.
    ([KEY, SCI, "0", THIRTY], Outcome::Refused("not valid\n")),
    ([KEY, SCI, "50", THIRTY], Outcome::Refused("not valid\n")),
];

#[test]
fn answers_each_frame(rt: HostRuntime) -> Result<(), Fail> {
    expect_openings(&rt, rt.alloc(), FRAMES)
}

/// The longest frame that is looked at, and one octet more.
const LENGTHS: &[(u16, Outcome)] = &[
    (9_216, Outcome::Refused("no tag\n")),
    (9_217, Outcome::Refused("oversize\n")),
];

/// Opens a frame of so many zeros.
fn expect_zeros(
    rt: &(impl Abort + Files<File = File> + Net + Clock + Env + RandomSource),
    alloc: Global,
    octets: u16,
    outcome: Outcome,
) -> Result<(), Fail> {
    let mut frame = joined(alloc, &[])?;
    for _ in 0..octets {
        frame.push_str("00")?;
    }
    expect_lines_and(rt, alloc, [KEY, SCI, "0", frame.as_str()], "", outcome)
}

#[test]
fn refuses_a_frame_above_the_limit(rt: HostRuntime) -> Result<(), Fail> {
    for (octets, outcome) in LENGTHS {
        expect_zeros(&rt, rt.alloc(), *octets, *outcome)?;
    }
    Ok(())
}
