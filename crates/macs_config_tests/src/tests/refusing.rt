//! Every refusal of every command, and which of two comes first.

use super::{
    OWN_SCI, an_of, configured, expect_same, identity_of, key_from, long_key_from, peer, refuse,
    rx_install, take, tx_install,
};
use macs_config::{Command, Config, Refusal, SciMode};
use macs_fields::Sci;
use std::process::Abort;

/// Refuses a command on what `configured` makes, and looks at every reader.
fn expect_refusal(rt: &impl Abort, command: Command, refusal: Refusal) {
    let mut config = configured(rt);
    refuse(rt, &mut config, command, refusal);
    expect_same(rt, &config, &configured(rt));
}

/// The long key begins with the octets of the one that is spent.
#[test]
fn refuses_transmit_installs(rt: HostRuntime) {
    let (new, old, long) = (key_from(48), key_from(0), long_key_from(0));
    let cases = [
        (2, new, 0, false, 0, Refusal::StartRange),
        (2, new, 0, false, 31, Refusal::StartRange),
        (0, new, 0, false, 0, Refusal::StartRange),
        (2, new, 1, true, 31, Refusal::OffsetChoice),
        (2, new, 1, true, 255, Refusal::OffsetChoice),
        (2, new, 1, false, 30, Refusal::OffsetChoice),
        (2, new, 1, false, 50, Refusal::OffsetChoice),
        (0, new, 1, true, 1, Refusal::OffsetChoice),
        (2, old, 1, false, 30, Refusal::OffsetChoice),
        (0, new, 1, false, 0, Refusal::SlotTaken),
        (0, old, 1, false, 0, Refusal::SlotTaken),
        (2, old, 1, false, 0, Refusal::KeySpent),
        (2, long, 0, false, 0, Refusal::StartRange),
        (2, long, 1, false, 30, Refusal::OffsetChoice),
        (0, long, 1, false, 0, Refusal::SlotTaken),
    ];
    for (number, key, start, confidential, offset, refusal) in cases {
        let an = an_of(&rt, number);
        let command = Command::TxInstall {
            an,
            key,
            start,
            confidential,
            offset,
        };
        expect_refusal(&rt, command, refusal);
    }
}

/// The long key begins with the octets of the one that is spent.
#[test]
fn refuses_receive_installs(rt: HostRuntime) {
    let (new, old, long) = (key_from(48), key_from(32), long_key_from(32));
    let cases = [
        (9, 3, new, 0, 0, Refusal::StartRange),
        (9, 3, new, 0, 31, Refusal::StartRange),
        (6, 3, new, 0, 0, Refusal::StartRange),
        (9, 3, new, 1, 31, Refusal::OffsetChoice),
        (6, 3, new, 1, 31, Refusal::OffsetChoice),
        (6, 3, new, 1, 0, Refusal::NoChannel),
        (9, 2, new, 1, 50, Refusal::SlotTaken),
        (9, 2, old, 1, 0, Refusal::SlotTaken),
        (9, 3, old, 1, 0, Refusal::KeySpent),
        (9, 3, long, 0, 0, Refusal::StartRange),
        (9, 3, long, 1, 31, Refusal::OffsetChoice),
        (6, 3, long, 1, 0, Refusal::NoChannel),
        (9, 2, long, 1, 0, Refusal::SlotTaken),
    ];
    for (station, number, key, start, offset, refusal) in cases {
        let an = an_of(&rt, number);
        let command = Command::RxInstall {
            sci: peer(station),
            an,
            key,
            start,
            offset,
        };
        expect_refusal(&rt, command, refusal);
    }
}

/// The long keys begin with the octets of those that are spent.
#[test]
fn takes_long_keys(rt: HostRuntime) {
    let mut config = configured(&rt);
    take(&rt, &mut config, tx_install(&rt, 2, long_key_from(0)));
    let again = tx_install(&rt, 2, long_key_from(0));
    refuse(&rt, &mut config, again, Refusal::SlotTaken);
    take(
        &rt,
        &mut config,
        rx_install(&rt, peer(9), 3, long_key_from(32)),
    );
    let again = rx_install(&rt, peer(9), 3, long_key_from(32));
    refuse(&rt, &mut config, again, Refusal::SlotTaken);
    assert!(rt; config.is_spent_tx(&long_key_from(0)));
    assert!(rt; config.is_spent_rx(peer(9), &long_key_from(32)));
}

#[test]
fn refuses_others(rt: HostRuntime) {
    let (an_1, an_2) = (an_of(&rt, 1), an_of(&rt, 2));
    expect_refusal(&rt, Command::TxUse { an: an_2 }, Refusal::SlotEmpty);
    expect_refusal(&rt, Command::TxRemove { an: an_2 }, Refusal::SlotEmpty);
    expect_refusal(&rt, Command::TxRemove { an: an_1 }, Refusal::InUse);
    expect_refusal(&rt, Command::RxAdd { sci: OWN_SCI }, Refusal::OwnSci);
    expect_refusal(&rt, Command::RxAdd { sci: peer(9) }, Refusal::ChannelTaken);
    expect_refusal(&rt, Command::RxDrop { sci: peer(6) }, Refusal::NoChannel);
    let (sci, an) = (peer(6), an_2);
    expect_refusal(&rt, Command::RxRemove { sci, an }, Refusal::NoChannel);
    let (sci, an) = (peer(9), an_1);
    expect_refusal(&rt, Command::RxRemove { sci, an }, Refusal::SlotEmpty);
}

/// A channel that was dropped is looked for before its old key.
#[test]
fn refuses_a_dropped_channel_first(rt: HostRuntime) {
    let mut config = configured(&rt);
    take(&rt, &mut config, Command::RxDrop { sci: peer(9) });
    let first = rx_install(&rt, peer(9), 2, key_from(32));
    refuse(&rt, &mut config, first, Refusal::NoChannel);
    take(&rt, &mut config, Command::RxAdd { sci: peer(9) });
    let second = rx_install(&rt, peer(9), 2, key_from(32));
    refuse(&rt, &mut config, second, Refusal::KeySpent);
}

#[test]
fn refuses_the_thirty_third_channel(rt: HostRuntime) {
    let mut config = Config::new(&identity_of(&rt, OWN_SCI));
    for station in 1..33 {
        take(&rt, &mut config, Command::RxAdd { sci: peer(station) });
    }
    assert_eq!(rt; config.channels().len(), 32);
    let cases = [
        (peer(33), Refusal::ChannelsFull),
        (peer(8), Refusal::ChannelTaken),
        (OWN_SCI, Refusal::OwnSci),
    ];
    for (sci, refusal) in cases {
        refuse(&rt, &mut config, Command::RxAdd { sci }, refusal);
    }
    assert_eq!(rt; config.channels().len(), 32);
}

#[test]
fn refuses_end_stations(rt: HostRuntime) {
    let ports = [
        ([0, 2], Err(Refusal::EndStationSci)),
        ([1, 1], Err(Refusal::EndStationSci)),
        ([1, 0], Err(Refusal::EndStationSci)),
        ([0, 1], Ok(())),
    ];
    for (port, answer) in ports {
        let [high, low] = port;
        let sci = Sci([0, 1, 0, 1, 0, 1, high, low]);
        let mut config = Config::new(&identity_of(&rt, sci));
        let found = config.apply(&Command::SetSciMode(SciMode::EndStation));
        assert_eq!(rt; found, answer, "port {high} {low}");
        assert_eq!(rt; config.sci_mode() == SciMode::EndStation, answer.is_ok());
    }
}

/// A key that is spent on the other side or for another channel is taken, and so is a number that
/// is taken there.
#[test]
fn takes_what_differs(rt: HostRuntime) {
    let mut config = configured(&rt);
    take(&rt, &mut config, tx_install(&rt, 2, key_from(32)));
    take(&rt, &mut config, rx_install(&rt, peer(9), 3, key_from(0)));
    take(&rt, &mut config, rx_install(&rt, peer(5), 2, key_from(0)));
}
