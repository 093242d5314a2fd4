//! Commands on a configuration: what each one changes, when it is refused, and which keys it
//! spends; fingerprints are by Python's hashlib. Records, heads and gates, written out by hand.
//! Command files with each wrong value, and while memory is refused.

mod applying;
mod hostile_files;
mod hostile_texts;
mod memory;
mod records;
mod refusing;
mod restoring;
mod spending;

use macs_aes::Key;
use macs_config::{Command, Config, Fingerprint, Identity, Refusal, Role};
use macs_fields::{An, Sci};
use std::process::Abort;

/// The endpoint's own SCI, with port 00-01.
const OWN_SCI: Sci = Sci([2, 0, 0, 0, 0, 1, 0, 1]);

/// An SCI of another endpoint.
fn peer(station: u8) -> Sci {
    Sci([2, 0, 0, 0, 0, station, 0, 7])
}

/// A key of sixteen octets that count up from this one.
fn key_from(first: u8) -> Key {
    let mut octets = [0; 16];
    for place in 0..16u8 {
        octets[place as usize] = first.wrapping_add(place);
    }
    Key::Short(octets)
}

/// A key of thirty-two octets that count up from this one.
fn long_key_from(first: u8) -> Key {
    let mut octets = [0; 32];
    for place in 0..32u8 {
        octets[place as usize] = first.wrapping_add(place);
    }
    Key::Long(octets)
}

fn an_of(rt: &impl Abort, number: u8) -> An {
    An::new(number).expect(rt, "association number")
}

fn identity_of(rt: &impl Abort, sci: Sci) -> Identity {
    Identity::new(sci, 1, 1).expect(rt, "identity")
}

/// A transmit association with integrity alone, from packet number 1 on.
fn tx_install(rt: &impl Abort, number: u8, key: Key) -> Command {
    Command::TxInstall {
        an: an_of(rt, number),
        key,
        start: 1,
        confidential: false,
        offset: 0,
    }
}

/// A receive association without offset, from packet number 1 on.
fn rx_install(rt: &impl Abort, sci: Sci, number: u8, key: Key) -> Command {
    Command::RxInstall {
        sci,
        an: an_of(rt, number),
        key,
        start: 1,
        offset: 0,
    }
}

/// Applies a command that is taken.
fn take(rt: &impl Abort, config: &mut Config, command: Command) {
    assert!(rt; config.check(&command).is_ok());
    assert_eq!(rt; config.apply(&command), Ok(()));
}

/// Applies a command that is refused.
fn refuse(rt: &impl Abort, config: &mut Config, command: Command, refusal: Refusal) {
    assert!(rt; config.check(&command).err() == Some(refusal));
    assert_eq!(rt; config.apply(&command), Err(refusal));
}

/// Two transmit associations, frames going out under the second, and two channels, one of them with
/// an association.
fn configured(rt: &impl Abort) -> Config {
    let mut config = Config::new(&identity_of(rt, OWN_SCI));
    take(rt, &mut config, tx_install(rt, 0, key_from(0)));
    take(rt, &mut config, tx_install(rt, 1, key_from(16)));
    take(rt, &mut config, Command::TxUse { an: an_of(rt, 1) });
    take(rt, &mut config, Command::RxAdd { sci: peer(9) });
    take(rt, &mut config, Command::RxAdd { sci: peer(5) });
    take(rt, &mut config, rx_install(rt, peer(9), 2, key_from(32)));
    config
}

/// Every reader answers the same.
fn expect_same(rt: &impl Abort, one: &Config, other: &Config) {
    expect_same_associations(rt, one, other);
    assert!(rt; one.identity() == other.identity());
    expect_same_spent(rt, one, other, Role::Transmit);
    expect_same_spent(rt, one, other, Role::Receive);
}

/// Every reader of the spent keys of a role answers the same.
fn expect_same_spent(rt: &impl Abort, one: &Config, other: &Config, role: Role) {
    assert!(rt; one.spent_tx() == other.spent_tx());
    assert!(rt; one.spent_rx() == other.spent_rx());
    for place in 0..=512 {
        assert!(rt; one.spent_at(role, place) == other.spent_at(role, place));
    }
}

/// Every reader answers the same, but for the spent keys.
fn expect_same_associations(rt: &impl Abort, one: &Config, other: &Config) {
    expect_same_settings(rt, one, other);
    assert!(rt; one.channels().as_slice() == other.channels().as_slice());
    for number in 0..4 {
        expect_same_association(rt, one, other, an_of(rt, number));
    }
}

fn expect_same_settings(rt: &impl Abort, one: &Config, other: &Config) {
    assert!(rt; one.validate() == other.validate());
    assert!(rt; one.replay() == other.replay());
    assert!(rt; one.sci_mode() == other.sci_mode());
    assert!(rt; one.encoding() == other.encoding());
}

fn expect_same_association(rt: &impl Abort, one: &Config, other: &Config, an: An) {
    assert!(rt; one.tx(an) == other.tx(an));
    for station in 0..16 {
        assert!(rt; one.rx(peer(station), an) == other.rx(peer(station), an));
    }
}

/// The spent key at a place of a role has this fingerprint, or none is there.
fn expect_spent(
    rt: &impl Abort,
    config: &Config,
    role: Role,
    place: usize,
    fingerprint: Option<Fingerprint>,
) {
    assert!(rt; config.spent_at(role, place) == fingerprint);
}
