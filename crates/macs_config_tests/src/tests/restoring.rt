//! Snapshots that are restored, and that are refused.

use super::expect_spent;
use macs_aes::{Key, KeyOctets};
use macs_config::{
    Config, Fingerprint, Fingerprints, Identity, Part, Protection, Replay, Role, RxSa, SciMode,
    TxSa, Validate,
};
use macs_fields::{An, Offset, Sci};
use std::process::Abort;
use std::test::Fail;

/// The SCI of the endpoint, with port 00-01, and those of two others.
const OWN: Sci = Sci(*b"\x02\x00\x00\x00\x00\x01\x00\x01");

const FIRST: Sci = Sci(*b"\x02\x00\x00\x00\x00\x0a\x00\x01");

const SECOND: Sci = Sci(*b"\x02\x00\x00\x00\x00\x0b\x00\x02");

/// The SHA-256 of the keys of sixteen octets 1 and 2.
const TX_1: Fingerprint = *b"\xcc\x8c\xd4\x1c\xef\x90\x7c\x4d\x21\x60\x69\x12\x2c\x4b\x89\x93\
\x62\x11\x36\x1f\x90\x50\xa7\x17\xa1\xe3\x7a\xd1\x86\x2e\x95\x2f";

const TX_2: Fingerprint = *b"\x29\x2a\xfd\xe3\xb6\x4e\x66\x36\xd6\x8f\x11\x20\xd9\x24\x2f\x1f\
\x85\xe3\x8e\xf7\xbf\x30\x6e\x44\x07\xc2\x30\x3e\xb6\x37\x91\xef";

/// The SHA-256 of an SCI and the key of sixteen octets 3 or 4.
const FIRST_3: Fingerprint = *b"\xef\x50\x9b\x22\xa5\x93\x58\x50\x97\x9f\x9e\xc4\x74\xcc\x72\x5e\
\xa6\x41\x1f\xa7\xab\x76\x26\x9a\x58\xdd\xdb\x3c\x56\xe4\x9e\x9a";

const FIRST_4: Fingerprint = *b"\x50\xe5\xa2\xe6\xc8\x18\x9c\xaa\x7e\x60\x79\x40\x3e\x70\x0c\x5c\
\xc7\x65\xd7\xf4\xb8\xe7\x87\xb5\x2f\xe6\x6c\x48\x64\xbe\x2b\xce";

const SECOND_3: Fingerprint = *b"\x79\xfb\x39\x3b\xe2\xb3\xc8\x5f\x96\x63\xef\x96\xd7\x79\x0e\x9b\
\xd9\x19\x18\x51\x33\x13\x0a\xb1\x47\x65\x8c\xc6\x31\x7c\x37\x10";

/// The SHA-256 of the key of thirty-two octets 1, and of an SCI and it.
const TX_LONG_1: Fingerprint = *b"\x72\xcd\x6e\x84\x22\xc4\x07\xfb\x6d\x09\x86\x90\xf1\x13\x0b\x7d\
\xed\x7e\xc2\xf7\xf5\xe1\xd3\x0b\xd9\xd5\x21\xf0\x15\x36\x37\x93";

const FIRST_LONG_1: Fingerprint =
    *b"\xcf\x60\x4e\x3a\x87\x4e\xf5\xb1\x27\x76\x0b\xb3\x0b\x64\x6f\x71\
\xe6\xa5\x7b\x39\x69\x84\x6b\xe2\x0d\x42\x11\xf0\x85\xde\xa4\x49";

fn identity(rt: &impl Abort) -> Identity {
    Identity::new(OWN, 100, 65_536).expect(rt, "identity")
}

fn an(rt: &impl Abort, number: u8) -> An {
    An::new(number).expect(rt, "association number")
}

/// A key of sixteen octets of this value.
fn short(octet: u8) -> Key {
    Key::Short([octet; 16])
}

fn settings(sci_mode: SciMode, encoding: Option<An>) -> Part {
    Part::Settings {
        validate: Validate::Check,
        replay: Replay {
            on: false,
            window: 7,
        },
        sci_mode,
        encoding,
    }
}

/// A transmit association whose key is sixteen octets of this value.
fn tx(rt: &impl Abort, number: u8, octet: u8) -> Part {
    tx_with_key(rt, number, short(octet))
}

fn tx_with_key(rt: &impl Abort, number: u8, key: Key) -> Part {
    let sa = TxSa {
        key: KeyOctets::of(key),
        protection: Protection::Confidentiality(Offset::Thirty),
    };
    Part::TxSa {
        an: an(rt, number),
        sa,
    }
}

fn channel(sci: Sci) -> Part {
    Part::Channel { sci }
}

/// A receive association whose key is sixteen octets of this value.
fn rx(rt: &impl Abort, sci: Sci, number: u8, octet: u8) -> Part {
    rx_with_key(rt, sci, number, short(octet))
}

fn rx_with_key(rt: &impl Abort, sci: Sci, number: u8, key: Key) -> Part {
    let sa = RxSa {
        key: KeyOctets::of(key),
        offset: Offset::Fifty,
    };
    Part::RxSa {
        sci,
        an: an(rt, number),
        sa,
    }
}

fn spent(role: Role, fingerprint: Fingerprint) -> Part {
    Part::Spent {
        role,
        fingerprints: Fingerprints::new(fingerprint),
    }
}

fn spent_two(role: Role, first: Fingerprint, second: Fingerprint) -> Part {
    let mut fingerprints = Fingerprints::new(first);
    fingerprints.push(second);
    Part::Spent { role, fingerprints }
}

/// A fingerprint of no key here.
fn made_up(number: u16) -> Fingerprint {
    let [high, low] = number.to_be_bytes();
    let mut fingerprint = [0x5a; 32];
    fingerprint[0] = high;
    fingerprint[31] = low;
    fingerprint
}

/// Parts of 15 fingerprints each, and one more part of the rest.
fn spent_many(rt: &impl Abort, parts: &mut Vec<Part>, role: Role, count: u16) -> Result<(), Fail> {
    let mut fingerprints = Fingerprints::new(made_up(0));
    for number in 1..count {
        let fingerprint = made_up(number);
        if !fingerprints.push(fingerprint) {
            assert_eq!(rt; fingerprints.as_slice().len(), 15);
            parts.push(Part::Spent { role, fingerprints })?;
            fingerprints = Fingerprints::new(fingerprint);
        }
    }
    parts.push(Part::Spent { role, fingerprints })?;
    Ok(())
}

/// What two transmit and three receive associations are restored to.
fn restored(rt: &impl Abort) -> Option<Config> {
    let parts = [
        settings(SciMode::EndStation, Some(an(rt, 3))),
        tx(rt, 3, 1),
        tx(rt, 0, 2),
        channel(SECOND),
        channel(FIRST),
        rx(rt, FIRST, 2, 3),
        rx(rt, SECOND, 2, 3),
        rx(rt, FIRST, 1, 4),
        spent_two(Role::Transmit, TX_2, made_up(1)),
        spent(Role::Transmit, TX_1),
        spent_two(Role::Receive, FIRST_4, made_up(1)),
        spent_two(Role::Receive, SECOND_3, FIRST_3),
    ];
    Config::restore(&identity(rt), &parts)
}

#[test]
fn restores_a_configuration(rt: HostRuntime) {
    let config = restored(&rt).expect(&rt, "restored");
    check_settings(&rt, &config);
    check_transmit_side(&rt, &config);
    check_receive_side(&rt, &config);
}

fn check_settings(rt: &impl Abort, config: &Config) {
    let replay = Replay {
        on: false,
        window: 7,
    };
    assert!(rt; config.identity() == identity(rt));
    assert!(rt; config.validate() == Validate::Check);
    assert!(rt; config.replay() == replay);
    assert!(rt; config.sci_mode() == SciMode::EndStation);
    assert!(rt; config.encoding() == Some(an(rt, 3)));
}

/// The transmit association of a number has this key, or there is none.
fn expect_tx(rt: &impl Abort, config: &Config, number: u8, key: Option<Key>) {
    let protection = Protection::Confidentiality(Offset::Thirty);
    let found = config.tx(an(rt, number));
    match key {
        Some(key) => {
            let key = KeyOctets::of(key);
            assert!(rt; found == Some(TxSa { key, protection }));
        }
        None => assert!(rt; found.is_none()),
    }
}

fn check_transmit_side(rt: &impl Abort, config: &Config) {
    expect_tx(rt, config, 0, Some(short(2)));
    expect_tx(rt, config, 1, None);
    expect_tx(rt, config, 2, None);
    expect_tx(rt, config, 3, Some(short(1)));
    expect_spent(rt, config, Role::Transmit, 0, Some(TX_2));
    expect_spent(rt, config, Role::Transmit, 1, Some(made_up(1)));
    expect_spent(rt, config, Role::Transmit, 2, Some(TX_1));
    expect_spent(rt, config, Role::Transmit, 3, None);
    assert!(rt; config.spent_tx() == 3);
    assert!(rt; config.is_spent_tx(&short(1)));
    assert!(rt; !config.is_spent_tx(&short(3)));
}

/// The receive association of a channel and a number has this key, or there is none.
fn expect_rx(rt: &impl Abort, config: &Config, sci: Sci, number: u8, key: Option<Key>) {
    let offset = Offset::Fifty;
    let found = config.rx(sci, an(rt, number));
    match key {
        Some(key) => {
            let key = KeyOctets::of(key);
            assert!(rt; found == Some(RxSa { key, offset }));
        }
        None => assert!(rt; found.is_none()),
    }
}

fn check_receive_side(rt: &impl Abort, config: &Config) {
    check_channels(rt, config);
    expect_rx(rt, config, FIRST, 0, None);
    expect_rx(rt, config, FIRST, 1, Some(short(4)));
    expect_rx(rt, config, FIRST, 2, Some(short(3)));
    expect_rx(rt, config, SECOND, 1, None);
    expect_rx(rt, config, SECOND, 2, Some(short(3)));
    expect_spent(rt, config, Role::Receive, 0, Some(FIRST_4));
    expect_spent(rt, config, Role::Receive, 3, Some(FIRST_3));
    assert!(rt; config.spent_rx() == 4);
    assert!(rt; config.is_spent_rx(SECOND, &short(3)));
    assert!(rt; !config.is_spent_rx(SECOND, &short(4)));
}

fn check_channels(rt: &impl Abort, config: &Config) {
    assert_eq!(rt; config.channels().as_slice(), [FIRST, SECOND].as_slice());
    assert!(rt; config.has_channel(SECOND));
    assert!(rt; !config.has_channel(OWN));
}

fn expect_refused(rt: &impl Abort, parts: &[Part], cause: &str) {
    assert!(rt; Config::restore(&identity(rt), parts).is_none(), "{cause}");
}

fn plain() -> Part {
    settings(SciMode::Explicit, None)
}

#[test]
fn refuses_parts_out_of_order(rt: HostRuntime) {
    expect_refused(&rt, &[], "no parts");
    expect_refused(&rt, &[channel(FIRST)], "no settings");
    expect_refused(&rt, &[plain(), plain()], "settings twice");
    expect_refused(&rt, &[channel(FIRST), plain()], "settings behind a channel");
    let parts = [
        plain(),
        channel(FIRST),
        tx(&rt, 0, 1),
        spent(Role::Transmit, TX_1),
    ];
    expect_refused(&rt, &parts, "a transmit association behind a channel");
    let parts = [
        plain(),
        channel(FIRST),
        rx(&rt, FIRST, 0, 3),
        channel(SECOND),
        spent(Role::Receive, FIRST_3),
    ];
    expect_refused(&rt, &parts, "a channel behind a receive association");
    let parts = [
        plain(),
        spent(Role::Receive, FIRST_3),
        spent(Role::Transmit, TX_1),
    ];
    expect_refused(
        &rt,
        &parts,
        "keys of the transmit side behind those of the receive side",
    );
}

#[test]
fn refuses_what_stands(rt: HostRuntime) {
    let keys = spent_two(Role::Transmit, TX_1, TX_2);
    expect_refused(
        &rt,
        &[plain(), tx(&rt, 1, 1), tx(&rt, 1, 2), keys],
        "a number twice",
    );
    let parts = [
        plain(),
        channel(FIRST),
        rx(&rt, FIRST, 1, 3),
        rx(&rt, FIRST, 1, 4),
        spent_two(Role::Receive, FIRST_3, FIRST_4),
    ];
    expect_refused(&rt, &parts, "a number of a channel twice");
    expect_refused(
        &rt,
        &[plain(), channel(FIRST), channel(FIRST)],
        "a channel twice",
    );
    expect_refused(&rt, &[plain(), channel(OWN)], "the own SCI");
    let keys = spent(Role::Receive, SECOND_3);
    let parts = [plain(), channel(FIRST), rx(&rt, SECOND, 0, 3), keys];
    expect_refused(&rt, &parts, "no channel");
    expect_refused(
        &rt,
        &[plain(), spent_two(Role::Transmit, TX_1, TX_1)],
        "a key twice in a part",
    );
    let parts = [
        plain(),
        spent_two(Role::Receive, TX_1, TX_2),
        spent(Role::Receive, TX_1),
    ];
    expect_refused(&rt, &parts, "a key twice in two parts");
}

#[test]
fn refuses_what_is_not_whole(rt: HostRuntime) {
    let encoding = settings(SciMode::Explicit, Some(an(&rt, 2)));
    expect_refused(
        &rt,
        &[encoding, tx(&rt, 1, 1), spent(Role::Transmit, TX_1)],
        "no encoding",
    );
    let parts = [
        plain(),
        tx(&rt, 3, 1),
        spent(Role::Transmit, TX_2),
        spent(Role::Receive, TX_1),
    ];
    expect_refused(&rt, &parts, "a transmit key that is not spent");
    let parts = [
        plain(),
        channel(FIRST),
        channel(SECOND),
        rx(&rt, SECOND, 3, 3),
        spent(Role::Receive, FIRST_3),
    ];
    expect_refused(
        &rt,
        &parts,
        "a receive key that is not spent for its channel",
    );
    let station = settings(SciMode::EndStation, None);
    let other = Identity::new(SECOND, 1, 1).expect(&rt, "identity");
    assert!(rt; Config::restore(&other, &[station]).is_none());
}

#[test]
fn restores_long_keys(rt: HostRuntime) {
    let long = Key::Long([1; 32]);
    let parts = [
        plain(),
        tx_with_key(&rt, 1, long),
        channel(FIRST),
        rx_with_key(&rt, FIRST, 1, long),
        spent(Role::Transmit, TX_LONG_1),
        spent(Role::Receive, FIRST_LONG_1),
    ];
    let config = Config::restore(&identity(&rt), &parts).expect(&rt, "long keys");
    assert!(rt; config.is_spent_tx(&long));
    assert!(rt; config.is_spent_rx(FIRST, &long));
    let parts = [plain(), tx_with_key(&rt, 1, long)];
    expect_refused(&rt, &parts, "a long key that is not spent");
}

#[test]
fn limits_channels(rt: HostRuntime) -> Result<(), Fail> {
    let mut parts = Vec::new(rt.alloc());
    parts.push(plain())?;
    for port in 1..=32 {
        parts.push(channel(Sci([6, 0, 0, 0, 0, 0, 0, port])))?;
    }
    let config = Config::restore(&identity(&rt), &parts).expect(&rt, "thirty-two channels");
    assert_eq!(rt; config.channels().len(), 32);
    parts.push(channel(Sci([6, 0, 0, 0, 0, 0, 0, 33])))?;
    expect_refused(&rt, &parts, "thirty-three channels");
    Ok(())
}

#[test]
fn limits_spent_keys(rt: HostRuntime) -> Result<(), Fail> {
    let mut parts = Vec::new(rt.alloc());
    parts.push(plain())?;
    spent_many(&rt, &mut parts, Role::Transmit, 512)?;
    spent_many(&rt, &mut parts, Role::Receive, 512)?;
    let config = Config::restore(&identity(&rt), &parts).expect(&rt, "512 keys");
    assert_eq!(rt; (config.spent_tx(), config.spent_rx()), (512, 512));
    assert_eq!(rt; config.spent_at(Role::Transmit, 511), Some(made_up(511)));
    parts.push(spent(Role::Receive, FIRST_3))?;
    expect_refused(&rt, &parts, "513 keys of the receive side");
    Ok(())
}

#[test]
fn limits_spent_keys_of_the_transmit_side(rt: HostRuntime) -> Result<(), Fail> {
    let mut parts = Vec::new(rt.alloc());
    parts.push(plain())?;
    spent_many(&rt, &mut parts, Role::Transmit, 513)?;
    expect_refused(&rt, &parts, "513 keys of the transmit side");
    Ok(())
}

#[test]
fn a_part_holds_fifteen_fingerprints(rt: HostRuntime) {
    let mut fingerprints = Fingerprints::new(made_up(0));
    assert_eq!(rt; fingerprints.as_slice(), [made_up(0)].as_slice());
    for number in 1..15 {
        assert!(rt; fingerprints.push(made_up(number)));
    }
    assert!(rt; !fingerprints.push(made_up(15)));
    let held = fingerprints.as_slice();
    assert_eq!(rt; held.len(), 15);
    assert_eq!(rt; (held[1], held[14]), (made_up(1), made_up(14)));
}

#[test]
fn fingerprints_are_1_to_15(rt: HostRuntime) {
    assert!(rt; Fingerprints::from_slice(&[]).is_none());
    assert!(rt; Fingerprints::from_slice(&[[7; 32]; 16]).is_none());
    for (fingerprints, count) in [
        (Fingerprints::from_slice(&[[7; 32]]), 1),
        (Fingerprints::from_slice(&[[7; 32]; 15]), 15),
    ] {
        match fingerprints {
            Some(fingerprints) => {
                assert_eq!(rt; fingerprints.as_slice().len(), count);
                assert!(rt;
                    fingerprints
                        .as_slice()
                        .iter()
                        .all(|octets| *octets == [7; 32])
                );
            }
            None => panic!(rt; "no fingerprints"),
        }
    }
}
