//! Spent keys: their fingerprints, their order and their limit.

use super::{
    OWN_SCI, an_of, configured, expect_spent, identity_of, key_from, long_key_from, peer, refuse,
    rx_install, take, tx_install,
};
use macs_aes::Key;
use macs_config::{
    Command, Config, Fingerprint, Fingerprints, Part, Refusal, Replay, Role, SciMode, Validate,
};
use std::process::Abort;

/// The SHA-256 of the octets 00 to 0f.
const LOW_KEY: &[u8; 32] = b"\xbe\x45\xcb\x26\x05\xbf\x36\xbe\xbd\xe6\x84\x84\x1a\x28\xf0\xfd\
\x43\xc6\x98\x50\xa3\xdc\xe5\xfe\xdb\xa6\x99\x28\xee\x3a\x89\x91";

/// The SHA-256 of the octets 10 to 1f.
const HIGH_KEY: &[u8; 32] = b"\xfc\x2e\x2c\x73\x07\x2b\xfa\x2b\xda\x03\xff\x93\x07\x47\x2d\xeb\
\xd3\xcc\x81\x05\x02\x8a\x8a\x9e\x23\x5e\x35\xba\x8d\x2e\x37\xf4";

/// The SHA-256 of the SCI 02-00-00-00-00-0a, port 00-07, and the octets 00 to 0f.
const TENTH_LOW_KEY: &[u8; 32] = b"\xd7\xe1\x01\x4c\x4d\x07\x4b\x3a\xae\x18\x63\x1e\x09\x41\xb5\xc3\
\x6e\x03\xbd\x06\x4c\xcf\x9a\xe7\xbe\x13\xf2\xf6\x80\x86\xfc\x71";

/// The SHA-256 of the SCI 02-00-00-00-00-0b, port 00-07, and the octets 00 to 0f.
const ELEVENTH_LOW_KEY: &[u8; 32] =
    b"\x5b\xe5\xce\x24\xe5\xb8\xcd\x64\xce\x67\x42\xbc\xa2\x9f\x63\x9c\
\xd0\x70\xe0\xc7\xb9\x02\x12\xfe\xf8\xef\x1f\xc0\x3d\x03\xd6\x3a";

/// The SHA-256 of the octets 00 to 1f.
const LONG_KEY: &[u8; 32] = b"\x63\x0d\xcd\x29\x66\xc4\x33\x66\x91\x12\x54\x48\xbb\xb2\x5b\x4f\
\xf4\x12\xa4\x9c\x73\x2d\xb2\xc8\xab\xc1\xb8\x58\x1b\xd7\x10\xdd";

/// The SHA-256 of the SCI 02-00-00-00-00-0a, port 00-07, and the octets 00 to 1f.
const TENTH_LONG_KEY: &[u8; 32] =
    b"\x7b\x25\x42\x43\x27\x33\xcc\x17\x38\x21\xbd\x15\xae\x97\x17\xd2\
\x29\xd8\x32\x2c\xc7\xdc\xa0\x95\x15\x3e\x44\xb9\x69\xdd\x4d\xd0";

#[test]
fn keeps_fingerprints_in_order(rt: HostRuntime) {
    let mut config = Config::new(&identity_of(&rt, OWN_SCI));
    take(&rt, &mut config, tx_install(&rt, 3, key_from(16)));
    take(&rt, &mut config, tx_install(&rt, 0, key_from(0)));
    take(&rt, &mut config, Command::RxAdd { sci: peer(10) });
    take(&rt, &mut config, Command::RxAdd { sci: peer(11) });
    take(&rt, &mut config, rx_install(&rt, peer(11), 1, key_from(0)));
    take(&rt, &mut config, rx_install(&rt, peer(10), 1, key_from(0)));
    expect_spent(&rt, &config, Role::Transmit, 0, Some(*HIGH_KEY));
    expect_spent(&rt, &config, Role::Transmit, 1, Some(*LOW_KEY));
    expect_spent(&rt, &config, Role::Transmit, 2, None);
    expect_spent(&rt, &config, Role::Receive, 0, Some(*ELEVENTH_LOW_KEY));
    expect_spent(&rt, &config, Role::Receive, 1, Some(*TENTH_LOW_KEY));
    expect_spent(&rt, &config, Role::Receive, 2, None);
}

#[test]
fn spends_for_good(rt: HostRuntime) {
    let mut config = configured(&rt);
    let key = key_from(0);
    assert!(rt; config.is_spent_tx(&key));
    assert!(rt; !config.is_spent_rx(peer(9), &key));
    take(&rt, &mut config, Command::TxRemove { an: an_of(&rt, 0) });
    refuse(&rt, &mut config, tx_install(&rt, 2, key), Refusal::KeySpent);
    assert!(rt; config.is_spent_tx(&key));
    take(&rt, &mut config, rx_install(&rt, peer(9), 1, key));
    take(&rt, &mut config, rx_install(&rt, peer(5), 1, key));
    take(&rt, &mut config, Command::RxDrop { sci: peer(9) });
    take(&rt, &mut config, Command::RxAdd { sci: peer(9) });
    assert!(rt; config.is_spent_rx(peer(9), &key));
    refuse(
        &rt,
        &mut config,
        rx_install(&rt, peer(9), 3, key),
        Refusal::KeySpent,
    );
}

/// A configuration in which one key is spent on either side.
fn restored_with(rt: &impl Abort, transmit: Fingerprint, receive: Fingerprint) -> Config {
    let settings = Part::Settings {
        validate: Validate::Strict,
        replay: Replay {
            on: true,
            window: 0,
        },
        sci_mode: SciMode::Explicit,
        encoding: None,
    };
    let transmit = Part::Spent {
        role: Role::Transmit,
        fingerprints: Fingerprints::new(transmit),
    };
    let receive = Part::Spent {
        role: Role::Receive,
        fingerprints: Fingerprints::new(receive),
    };
    let parts = [settings, transmit, receive];
    Config::restore(&identity_of(rt, OWN_SCI), &parts).expect(rt, "restored")
}

/// A long key is found by all its octets.
#[test]
fn knows_long_keys(rt: HostRuntime) {
    let mut config = restored_with(&rt, *LONG_KEY, *TENTH_LONG_KEY);
    let (spent, new) = (long_key_from(0), long_key_from(1));
    assert!(rt; config.is_spent_tx(&spent));
    assert!(rt; !config.is_spent_tx(&new));
    assert!(rt; !config.is_spent_tx(&key_from(0)));
    assert!(rt; config.is_spent_rx(peer(10), &spent));
    assert!(rt; !config.is_spent_rx(peer(11), &spent));
    assert!(rt; !config.is_spent_rx(peer(10), &key_from(0)));
    take(&rt, &mut config, Command::RxAdd { sci: peer(10) });
    let old = rx_install(&rt, peer(10), 0, spent);
    refuse(
        &rt,
        &mut config,
        tx_install(&rt, 0, spent),
        Refusal::KeySpent,
    );
    refuse(&rt, &mut config, old, Refusal::KeySpent);
    take(&rt, &mut config, tx_install(&rt, 0, new));
    take(&rt, &mut config, rx_install(&rt, peer(10), 0, new));
    assert_eq!(rt; (config.spent_tx(), config.spent_rx()), (2, 2));
    let again = tx_install(&rt, 1, new);
    refuse(&rt, &mut config, again, Refusal::KeySpent);
}

/// The key of a place among as many as may be spent, and one more.
fn numbered_key(place: u16) -> Key {
    let [high, low] = place.to_be_bytes();
    let mut octets = [0; 16];
    octets[0] = high;
    octets[15] = low;
    Key::Short(octets)
}

#[test]
fn fills_the_transmit_side(rt: HostRuntime) {
    let mut config = Config::new(&identity_of(&rt, OWN_SCI));
    let an = an_of(&rt, 0);
    for place in 0..512 {
        take(&rt, &mut config, tx_install(&rt, 0, numbered_key(place)));
        take(&rt, &mut config, Command::TxRemove { an });
    }
    assert_eq!(rt; config.spent_tx(), 512);
    let (old, new) = (numbered_key(511), numbered_key(512));
    refuse(&rt, &mut config, tx_install(&rt, 0, old), Refusal::KeySpent);
    refuse(
        &rt,
        &mut config,
        tx_install(&rt, 0, new),
        Refusal::SpentFull,
    );
    let long = tx_install(&rt, 0, long_key_from(0));
    refuse(&rt, &mut config, long, Refusal::SpentFull);
    assert_eq!(rt; config.spent_tx(), 512);
    take(&rt, &mut config, Command::RxAdd { sci: peer(9) });
    take(&rt, &mut config, rx_install(&rt, peer(9), 0, new));
}

#[test]
fn fills_the_receive_side(rt: HostRuntime) {
    let mut config = Config::new(&identity_of(&rt, OWN_SCI));
    let (sci, an) = (peer(9), an_of(&rt, 3));
    take(&rt, &mut config, Command::RxAdd { sci });
    for place in 0..512 {
        take(
            &rt,
            &mut config,
            rx_install(&rt, sci, 3, numbered_key(place)),
        );
        take(&rt, &mut config, Command::RxRemove { sci, an });
    }
    assert_eq!(rt; config.spent_rx(), 512);
    let (old, new) = (numbered_key(0), numbered_key(512));
    refuse(
        &rt,
        &mut config,
        rx_install(&rt, sci, 3, old),
        Refusal::KeySpent,
    );
    refuse(
        &rt,
        &mut config,
        rx_install(&rt, sci, 3, new),
        Refusal::SpentFull,
    );
    let long = rx_install(&rt, sci, 3, long_key_from(0));
    refuse(&rt, &mut config, long, Refusal::SpentFull);
    take(&rt, &mut config, tx_install(&rt, 3, new));
}
