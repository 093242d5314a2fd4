//! Frames that go out as the operator commanded.

use super::Security;
use super::fixture::{install, select};
use super::frames::{
    ALL_CLEAR, CONFIDENTIALITY, Case, END_STATION, INTEGRITY, LAST_NUMBER, ONE_HIDDEN, expect_frame,
};
use super::story::{Plain, Step, play};
use crate::tests::{END, number_of};
use macs_config::{Command, Config, Identity, Refusal, SciMode, TxSa};
use macs_frame::{An, Sci};
use macs_txsc::{Tx, TxFault};
use std::process::Abort;

/// How many packet numbers are reserved at a time.
const BLOCK: u64 = 4;

const CASES: &[Case] = &[
    INTEGRITY,
    CONFIDENTIALITY,
    END_STATION,
    ALL_CLEAR,
    ONE_HIDDEN,
    LAST_NUMBER,
];

/// A configuration of an SCI, after nothing was commanded.
fn new_config(rt: &impl Abort, sci: [u8; 8]) -> Config {
    let identity = Identity::new(Sci(sci), 4, 4).expect(rt, "blocks");
    Config::new(&identity)
}

/// What a command has for an answer.
fn expect_reply(
    rt: &impl Abort,
    config: &mut Config,
    command: &Command,
    reply: Result<(), Refusal>,
) {
    assert_eq!(rt; config.apply(command), reply);
}

/// The command that installs the association of a case at a number.
fn install_of(case: &Case, an: An, start: u32) -> Command {
    Command::TxInstall {
        an,
        key: case.security.key,
        start,
        confidential: case.security.confidential,
        offset: case.security.offset.get(),
    }
}

/// A configuration in which the association of a case was commanded.
fn configured(rt: &impl Abort, case: &Case, an: An) -> Config {
    let mut config = new_config(rt, case.sci);
    for command in [
        Command::SetSciMode(case.mode),
        install_of(case, an, case.number),
        Command::TxUse { an },
    ] {
        expect_reply(rt, &mut config, &command, Ok(()));
    }
    config
}

/// A channel without associations, of a configuration's SCI and mode.
fn channel_of(config: &Config) -> Tx {
    config.facts();
    let mut tx = Tx::new(config.identity().sci());
    tx.set_mode(config.sci_mode());
    tx
}

/// What an association of a configuration is installed with.
fn security_of(rt: &impl Abort, config: &Config, an: An) -> Security {
    let TxSa { key, protection } = config.tx(an).expect(rt, "association");
    Security {
        key: key.get(),
        confidential: protection.is_confidential(),
        offset: protection.offset(),
    }
}

/// The channel of a case's configuration.
fn commanded(rt: &impl Abort, case: &Case) -> Tx {
    let an = number_of(rt, case.association);
    let config = configured(rt, case, an);
    assert_eq!(rt; config.encoding(), Some(an));
    let security = security_of(rt, &config, an);
    let start = u64::from(case.number);
    let mut tx = channel_of(&config);
    install(rt, &mut tx, an, &security, start, (start + BLOCK).min(END));
    select(rt, &mut tx, an);
    tx
}

/// The frame goes out under the number that was commanded.
#[test]
fn sends_as_commanded(rt: HostRuntime) {
    for case in CASES {
        let mut tx = commanded(&rt, case);
        expect_frame(&rt, &mut tx, case);
    }
}

/// After the last number there is none.
#[test]
fn exhausts_an_association(rt: HostRuntime) {
    const STEPS: &[Step] = &[
        Step::Sends(Plain::Published, Ok(0xffff_ffff)),
        Step::Sends(Plain::Published, Err(TxFault::Exhausted)),
        Step::Next(Some(END), None, None, None),
    ];
    play(&rt, &mut commanded(&rt, &LAST_NUMBER), STEPS);
}

/// A key that was removed does not come back at another number.
#[test]
fn keeps_a_removed_key_spent(rt: HostRuntime) {
    let an = number_of(&rt, 0);
    let other = number_of(&rt, 1);
    let mut config = new_config(&rt, CONFIDENTIALITY.sci);
    let first = install_of(&CONFIDENTIALITY, an, 1);
    let second = install_of(&CONFIDENTIALITY, other, 1);
    expect_reply(&rt, &mut config, &first, Ok(()));
    expect_reply(&rt, &mut config, &Command::TxRemove { an }, Ok(()));
    expect_reply(&rt, &mut config, &second, Err(Refusal::KeySpent));
    assert!(rt; config.tx(other).is_none());
}
