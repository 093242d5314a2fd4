//! What a command that is taken changes, by every reader.

use super::{
    OWN_SCI, an_of, configured, expect_same_associations, identity_of, key_from, peer, rx_install,
    take, tx_install,
};
use macs_aes::KeyOctets;
use macs_config::{
    Command, Config, Identity, Protection, Replay, Role, RxSa, SciMode, TxSa, Validate,
};
use macs_fields::{Offset, Sci};
use std::process::Abort;

/// Blocks of the transmit and the receive side, and whether an identity has them.
const BLOCKS: &[(u32, u32, bool)] = &[
    (0, 1, false),
    (1, 0, false),
    (1, 1, true),
    (65_536, 65_536, true),
    (65_537, 1, false),
    (1, 65_537, false),
];

#[test]
fn bounds_blocks(rt: HostRuntime) {
    for &(tx_block, rx_block, taken) in BLOCKS {
        assert!(rt; Identity::new(OWN_SCI, tx_block, rx_block).is_some() == taken);
    }
}

#[test]
fn keeps_blocks(rt: HostRuntime) {
    let identity = Identity::new(OWN_SCI, 2, 3).expect(&rt, "identity");
    assert!(rt; identity.sci() == OWN_SCI);
    assert!(rt; identity.tx_block() == 2);
    assert!(rt; identity.rx_block() == 3);
}

#[test]
fn begins_empty(rt: HostRuntime) {
    let config = Config::new(&identity_of(&rt, OWN_SCI));
    let replay = config.replay();
    assert!(rt; config.identity().sci() == OWN_SCI);
    assert!(rt; config.validate() == Validate::Strict);
    assert!(rt; replay.on && replay.window == 0);
    assert!(rt; config.sci_mode() == SciMode::Explicit);
    assert!(rt; config.channels().is_empty());
    assert!(rt; config.spent_tx() == 0 && config.spent_rx() == 0);
    config.facts();
}

#[test]
fn begins_without_associations(rt: HostRuntime) {
    let config = Config::new(&identity_of(&rt, OWN_SCI));
    assert!(rt; config.encoding().is_none());
    for number in 0..4 {
        let an = an_of(&rt, number);
        assert!(rt; config.tx(an).is_none());
        assert!(rt; config.rx(peer(5), an).is_none());
    }
    config.facts();
}

#[test]
fn sets(rt: HostRuntime) {
    let mut config = configured(&rt);
    take(&rt, &mut config, Command::SetValidate(Validate::Check));
    assert!(rt; config.validate() == Validate::Check);
    let window = u32::MAX;
    take(&rt, &mut config, Command::SetReplay { on: false, window });
    assert!(rt; config.replay() == Replay { on: false, window });
}

#[test]
fn sets_the_sci_mode(rt: HostRuntime) {
    let mut config = configured(&rt);
    for sci_mode in [SciMode::Implicit, SciMode::EndStation] {
        take(&rt, &mut config, Command::SetSciMode(sci_mode));
        assert!(rt; config.sci_mode() == sci_mode);
    }
    assert!(rt; config.encoding() == Some(an_of(&rt, 1)));
}

#[test]
fn uses(rt: HostRuntime) {
    let mut config = configured(&rt);
    let an = an_of(&rt, 0);
    take(&rt, &mut config, Command::TxUse { an });
    assert!(rt; config.encoding() == Some(an));
}

/// A transmit association that begins at the greatest packet number.
fn last_tx_install(rt: &impl Abort) -> Command {
    Command::TxInstall {
        an: an_of(rt, 3),
        key: key_from(48),
        start: u32::MAX,
        confidential: true,
        offset: 50,
    }
}

/// A receive association of the same number and key.
fn last_rx_install(rt: &impl Abort) -> Command {
    Command::RxInstall {
        sci: peer(5),
        an: an_of(rt, 3),
        key: key_from(48),
        start: u32::MAX,
        offset: 30,
    }
}

#[test]
fn installs(rt: HostRuntime) {
    let mut config = configured(&rt);
    let (an, key) = (an_of(&rt, 3), KeyOctets::of(key_from(48)));
    take(&rt, &mut config, last_tx_install(&rt));
    let protection = Protection::Confidentiality(Offset::Fifty);
    assert!(rt; config.tx(an) == Some(TxSa { key, protection }));
    take(&rt, &mut config, last_rx_install(&rt));
    let offset = Offset::Thirty;
    assert!(rt; config.rx(peer(5), an) == Some(RxSa { key, offset }));
    assert!(rt; config.rx(peer(9), an).is_none());
    assert!(rt; config.spent_tx() == 3);
    assert!(rt; config.spent_rx() == 2);
}

#[test]
fn protects(rt: HostRuntime) {
    let hidden = Protection::new(true, Offset::Fifty);
    assert!(rt; hidden == Protection::Confidentiality(Offset::Fifty));
    assert!(rt; hidden.is_confidential());
    assert!(rt; hidden.offset() == Offset::Fifty);
    let plain = Protection::new(false, Offset::Fifty);
    assert!(rt; !plain.is_confidential());
    assert!(rt; plain.offset() == Offset::Zero);
}

/// Installing and removing again leaves all but the spent keys as it was.
#[test]
fn removes(rt: HostRuntime) {
    let before = configured(&rt);
    let mut config = configured(&rt);
    let (sci, an) = (peer(5), an_of(&rt, 3));
    take(&rt, &mut config, tx_install(&rt, 3, key_from(48)));
    take(&rt, &mut config, rx_install(&rt, sci, 3, key_from(48)));
    take(&rt, &mut config, Command::TxRemove { an });
    take(&rt, &mut config, Command::RxRemove { sci, an });
    expect_same_associations(&rt, &config, &before);
    assert_eq!(rt; (config.spent_tx(), config.spent_rx()), (3, 2));
}

#[test]
fn orders_channels(rt: HostRuntime) {
    let mut config = Config::new(&identity_of(&rt, OWN_SCI));
    let low = Sci([1, 255, 0, 0, 0, 0, 0, 9]);
    let high = Sci([255, 0, 0, 0, 0, 0, 0, 0]);
    for sci in [peer(7), high, peer(3), low, peer(5)] {
        take(&rt, &mut config, Command::RxAdd { sci });
    }
    let all = [low, peer(3), peer(5), peer(7), high];
    assert_eq!(rt; config.channels().as_slice(), all.as_slice());
    take(&rt, &mut config, Command::RxDrop { sci: peer(5) });
    let rest = [low, peer(3), peer(7), high];
    assert_eq!(rt; config.channels().as_slice(), rest.as_slice());
    assert!(rt; config.has_channel(high));
    assert!(rt; !config.has_channel(peer(5)));
}

/// A channel that is added again has none of the associations that it had.
#[test]
fn drops_associations(rt: HostRuntime) {
    let mut config = configured(&rt);
    let sci = peer(9);
    let an = an_of(&rt, 2);
    assert!(rt; config.rx(sci, an).is_some());
    take(&rt, &mut config, Command::RxDrop { sci });
    assert!(rt; config.rx(sci, an).is_none());
    take(&rt, &mut config, Command::RxAdd { sci });
    assert!(rt; config.rx(sci, an).is_none());
    assert!(rt; config.is_spent_rx(sci, &key_from(32)));
    assert_eq!(rt; config.spent_at(Role::Receive, 1), None);
}
