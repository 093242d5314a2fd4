//! Commands as records.

use super::{KEY, LONG_KEY, SCI, sector_of};
use crate::tests::an_of;
use macs_config::{Command, SciMode, Validate};
use macs_record::{Record, encode};
use std::process::Abort;

/// The command has a record that is written as these octets and zeros.
fn is_kept_as(rt: &impl Abort, command: Command, front: &[u8]) {
    let value = Record::command(&command).expect(rt, "record");
    assert_eq!(rt; encode(&value), sector_of(rt, front));
}

/// The command has no record.
fn is_not_kept(rt: &impl Abort, command: Command) {
    assert!(rt; Record::command(&command).is_none());
}

/// Sets replay protection and its window.
fn set_replay(on: bool, window: u32) -> Command {
    Command::SetReplay { on, window }
}

#[test]
fn settings(rt: HostRuntime) {
    is_kept_as(&rt, Command::SetValidate(Validate::Strict), b"MREC\x06\x00");
    is_kept_as(&rt, Command::SetValidate(Validate::Check), b"MREC\x06\x01");
    is_kept_as(
        &rt,
        set_replay(true, 0x0102_0304),
        b"MREC\x07\x01\x01\x02\x03\x04",
    );
    is_kept_as(&rt, set_replay(false, 7), b"MREC\x07\x00\x00\x00\x00\x07");
    for (sci_mode, octet) in [
        (SciMode::Explicit, 0),
        (SciMode::EndStation, 1),
        (SciMode::Implicit, 2),
    ] {
        is_kept_as(
            &rt,
            Command::SetSciMode(sci_mode),
            &[b'M', b'R', b'E', b'C', 8, octet],
        );
    }
}

#[test]
fn places(rt: HostRuntime) {
    is_kept_as(&rt, Command::TxUse { an: an_of(&rt, 2) }, b"MREC\x0a\x02");
    is_kept_as(&rt, Command::TxUse { an: an_of(&rt, 1) }, b"MREC\x0a\x01");
    is_kept_as(
        &rt,
        Command::TxRemove { an: an_of(&rt, 3) },
        b"MREC\x0b\x03",
    );
    is_kept_as(&rt, Command::RxAdd { sci: SCI }, b"MREC\x0cpeer-A\x00\x07");
    is_kept_as(&rt, Command::RxDrop { sci: SCI }, b"MREC\x0dpeer-A\x00\x07");
    let remove = Command::RxRemove {
        sci: SCI,
        an: an_of(&rt, 1),
    };
    is_kept_as(&rt, remove, b"MREC\x0fpeer-A\x00\x07\x01");
}

/// A new transmit association under number 1.
fn tx_install(rt: &impl Abort, start: u32, confidential: bool, offset: u8) -> Command {
    Command::TxInstall {
        an: an_of(rt, 1),
        key: KEY,
        start,
        confidential,
        offset,
    }
}

/// Start, confidentiality and offset of a transmit association, and the octets of its record.
const TX_INSTALL_KEPT: &[(u32, bool, u8, &[u8])] = &[
    (
        1,
        false,
        0,
        b"MREC\x09\x010123456789abcdef\x00\x00\x00\x01\x00\x00",
    ),
    (
        0x0102_0304,
        true,
        0,
        b"MREC\x09\x010123456789abcdef\x01\x02\x03\x04\x01\x00",
    ),
    (
        u32::MAX,
        true,
        30,
        b"MREC\x09\x010123456789abcdef\xff\xff\xff\xff\x01\x1e",
    ),
    (
        1,
        true,
        50,
        b"MREC\x09\x010123456789abcdef\x00\x00\x00\x01\x01\x32",
    ),
];

/// Those that have no record.
const TX_INSTALL_NOT_KEPT: &[(u32, bool, u8)] = &[
    (0, false, 0),
    (0, true, 30),
    (1, true, 20),
    (1, true, 51),
    (1, false, 30),
    (1, false, 50),
    (0, false, 20),
];

#[test]
fn transmit_associations(rt: HostRuntime) {
    for &(start, confidential, offset, front) in TX_INSTALL_KEPT {
        is_kept_as(&rt, tx_install(&rt, start, confidential, offset), front);
    }
    for &(start, confidential, offset) in TX_INSTALL_NOT_KEPT {
        is_not_kept(&rt, tx_install(&rt, start, confidential, offset));
    }
}

/// A new receive association under number 2.
fn rx_install(rt: &impl Abort, start: u32, offset: u8) -> Command {
    Command::RxInstall {
        sci: SCI,
        an: an_of(rt, 2),
        key: KEY,
        start,
        offset,
    }
}

/// Start and offset of a receive association, and the octets of its record.
const RX_INSTALL_KEPT: &[(u32, u8, &[u8])] = &[
    (
        1,
        0,
        b"MREC\x0epeer-A\x00\x07\x020123456789abcdef\x00\x00\x00\x01\x00",
    ),
    (
        0x0102_0304,
        30,
        b"MREC\x0epeer-A\x00\x07\x020123456789abcdef\x01\x02\x03\x04\x1e",
    ),
    (
        u32::MAX,
        50,
        b"MREC\x0epeer-A\x00\x07\x020123456789abcdef\xff\xff\xff\xff\x32",
    ),
];

/// Those that have no record.
const RX_INSTALL_NOT_KEPT: &[(u32, u8)] = &[(0, 0), (1, 20), (1, 49), (0, 20)];

#[test]
fn receive_associations(rt: HostRuntime) {
    for &(start, offset, front) in RX_INSTALL_KEPT {
        is_kept_as(&rt, rx_install(&rt, start, offset), front);
    }
    for &(start, offset) in RX_INSTALL_NOT_KEPT {
        is_not_kept(&rt, rx_install(&rt, start, offset));
    }
}

#[test]
fn long_keys(rt: HostRuntime) {
    let transmit = Command::TxInstall {
        an: an_of(&rt, 1),
        key: LONG_KEY,
        start: 0x0102_0304,
        confidential: true,
        offset: 30,
    };
    is_kept_as(
        &rt,
        transmit,
        b"MREC\x14\x010123456789abcdefghijklmnopqrstuv\x01\x02\x03\x04\x01\x1e",
    );
    let receive = Command::RxInstall {
        sci: SCI,
        an: an_of(&rt, 2),
        key: LONG_KEY,
        start: 1,
        offset: 50,
    };
    is_kept_as(
        &rt,
        receive,
        b"MREC\x15peer-A\x00\x07\x020123456789abcdefghijklmnopqrstuv\x00\x00\x00\x01\x32",
    );
    let no_start = Command::TxInstall {
        an: an_of(&rt, 1),
        key: LONG_KEY,
        start: 0,
        confidential: true,
        offset: 0,
    };
    is_not_kept(&rt, no_start);
}
