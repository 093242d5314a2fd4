//! Each request, and its line.

use crate::tests::endpoints::number_of;
use macs_aes::Key;
use macs_commands::Paper;
use macs_commands::requests::{MAX_LINE, Request, request_of_line, write_request};
use macs_config::{Command, SciMode, Validate};
use macs_fields::Sci;
use std::alloc::Global;
use std::process::Abort;

/// A short key, a long one, and an SCI, with digits of each kind.
const KEY: Key = Key::Short([
    0x00, 0x09, 0x0a, 0x0f, 0x10, 0x90, 0xa0, 0xf0, 0xff, 0x01, 0x23, 0x45, 0x67, 0x89, 0xab, 0xcd,
]);

const LONG_KEY: Key = Key::Long(*b"0123456789abcdefghijklmnopqrstuv");

const SCI: Sci = Sci([0x12, 0x15, 0x35, 0x24, 0xc0, 0x89, 0x5e, 0x81]);

/// The request is written as this line, and the line is read as it.
fn stands_as(rt: &impl Abort, alloc: Global, request: Request, line: &str) {
    let mut written = Paper::new(alloc, MAX_LINE).expect(rt, "memory");
    write_request(&mut written, &request);
    assert!(rt; written.text() == Some(line.as_bytes()));
    let mut blank = Paper::new(alloc, MAX_LINE).expect(rt, "memory");
    assert!(rt; line.len() <= MAX_LINE);
    let found = request_of_line(&mut blank, line);
    assert!(rt; found == Some(request));
}

fn command_stands_as(rt: &impl Abort, alloc: Global, command: Command, line: &str) {
    stands_as(rt, alloc, Request::Apply(command), line);
}

#[test]
fn words(rt: HostRuntime) {
    stands_as(&rt, rt.alloc(), Request::Show, "show");
    stands_as(&rt, rt.alloc(), Request::Counters, "counters");
    stands_as(&rt, rt.alloc(), Request::Keys, "keys");
    stands_as(&rt, rt.alloc(), Request::About, "about");
    stands_as(&rt, rt.alloc(), Request::Stop, "stop");
}

#[test]
fn settings(rt: HostRuntime) {
    let alloc = rt.alloc();
    let check = Command::SetValidate(Validate::Check);
    command_stands_as(&rt, alloc, check, "set-validate check");
    let strict = Command::SetValidate(Validate::Strict);
    command_stands_as(&rt, alloc, strict, "set-validate strict");
    let on = Command::SetReplay {
        on: true,
        window: 4_294_967_295,
    };
    command_stands_as(&rt, alloc, on, "set-replay on 4294967295");
    let off = Command::SetReplay {
        on: false,
        window: 0,
    };
    command_stands_as(&rt, alloc, off, "set-replay off 0");
    let explicit = Command::SetSciMode(SciMode::Explicit);
    command_stands_as(&rt, alloc, explicit, "set-sci-mode explicit");
    let station = Command::SetSciMode(SciMode::EndStation);
    command_stands_as(&rt, alloc, station, "set-sci-mode end-station");
    let implicit = Command::SetSciMode(SciMode::Implicit);
    command_stands_as(&rt, alloc, implicit, "set-sci-mode implicit");
}

#[test]
fn places(rt: HostRuntime) {
    let alloc = rt.alloc();
    let an = number_of(&rt, 3);
    command_stands_as(&rt, alloc, Command::TxUse { an }, "tx-use 3");
    command_stands_as(&rt, alloc, Command::TxRemove { an }, "tx-remove 3");
    let add = Command::RxAdd { sci: SCI };
    command_stands_as(&rt, alloc, add, "rx-add 12153524c0895e81");
    let drop = Command::RxDrop { sci: SCI };
    command_stands_as(&rt, alloc, drop, "rx-drop 12153524c0895e81");
    let remove = Command::RxRemove { sci: SCI, an };
    command_stands_as(&rt, alloc, remove, "rx-remove 12153524c0895e81 3");
}

#[test]
fn installs(rt: HostRuntime) {
    let alloc = rt.alloc();
    let tx = Command::TxInstall {
        an: number_of(&rt, 0),
        key: KEY,
        start: 1,
        confidential: true,
        offset: 30,
    };
    let line = "tx-install 0 00090a0f1090a0f0ff0123456789abcd 1 confidential 30";
    command_stands_as(&rt, alloc, tx, line);
    let rx = Command::RxInstall {
        sci: SCI,
        an: number_of(&rt, 1),
        key: KEY,
        start: 4_294_967_295,
        offset: 255,
    };
    let line = "rx-install 12153524c0895e81 1 00090a0f1090a0f0ff0123456789abcd 4294967295 255";
    command_stands_as(&rt, alloc, rx, line);
}

#[test]
fn long_keys(rt: HostRuntime) {
    let tx = Command::TxInstall {
        an: number_of(&rt, 2),
        key: LONG_KEY,
        start: 0,
        confidential: false,
        offset: 0,
    };
    let line = "tx-install 2 \
        303132333435363738396162636465666768696a6b6c6d6e6f70717273747576 0 integrity 0";
    command_stands_as(&rt, rt.alloc(), tx, line);
}
