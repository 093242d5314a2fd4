//! A relay over a disk that answers later: what passes and what pauses meanwhile.

use super::endpoints::{OWN, THERE, command, formatted, formatted_as, number_of, sending};
use super::relaying::{counted, packet_number, push_plain};
use macs_aes::Key;
use macs_config::{Command, Identity};
use macs_disk::{DeviceCall, DeviceFault, MemDisk, SectorDisk};
use macs_edge::{Got, Idle, MemWire, Unattended, Wire, WireFault, attend};
use macs_endpoint::Endpoint;
use macs_frame::FrameBuf;
use std::alloc::Global;
use std::cell::{Cell, RefCell};
use std::process::Abort;

/// What came to pass, a letter for each event.
type Notes = RefCell<Vec<u8>>;

fn note(notes: &Notes, letter: u8) {
    if let Ok(mut letters) = notes.try_borrow_mut() {
        let _ = letters.push(letter);
    }
}

fn is_noted(notes: &Notes, wanted: &[u8]) -> bool {
    match notes.try_borrow_mut() {
        Ok(letters) => letters.as_slice() == wanted,
        Err(_) => false,
    }
}

fn forget(notes: &Notes) {
    if let Ok(mut letters) = notes.try_borrow_mut() {
        letters.clear();
    }
}

/// A disk that answers each call at the third look (`!`), and has no answer at those before (`.`).
/// A call that waits (`w`) is answered at once.
#[derive(Drop)]
struct Late<'a, D> {
    disk: D,
    looks: Cell<u8>,
    notes: &'a Notes,
}

impl<D: SectorDisk> SectorDisk for Late<'_, D> {
    ghost use Rattle.std.specs.Prelude.{false};

    ghost disk = { λ it. record {
      sectors = (D.disk it.disk).sectors;
      past = (D.disk it.disk).past;
      clock = (D.disk it.disk).clock;
      failures = (D.disk it.disk).failures;
      honest = (D.disk it.disk).honest;
      worn = (D.disk it.disk).worn;
      prompt = false;
    } };

    ghost sound = { λ it honest. D.sound it.disk honest };

    ghost wear = { λ it. D.wear it.disk };

    fn sectors(&self) -> u64 {
        self.disk.sectors()
    }

    fn read(&mut self, at: u64, into: &mut [u8; 512]) -> Result<(), DeviceFault> {
        note(self.notes, b'w');
        self.disk.read(at, into)
    }

    fn write(&mut self, at: u64, from: &[u8; 512]) -> Result<(), DeviceFault> {
        note(self.notes, b'w');
        self.disk.write(at, from)
    }

    fn sync(&mut self) -> Result<(), DeviceFault> {
        note(self.notes, b'w');
        self.disk.sync()
    }

    fn try_make(
        &mut self,
        call: &DeviceCall,
        read: &mut [u8; 512],
    ) -> Option<Result<(), DeviceFault>> {
        let looks = self.looks.get();
        if looks < 2 {
            self.looks.set(looks + 1);
            note(self.notes, b'.');
            return None;
        }
        self.looks.set(0);
        note(self.notes, b'!');
        Some(call.make(&mut self.disk, read))
    }
}

/// A wire that notes its sends by this letter.
#[derive(Drop)]
struct Sending<'a> {
    wire: MemWire<Global>,
    notes: &'a Notes,
    letter: u8,
}

impl Wire for Sending<'_> {
    ghost state = { λ it. ⟦<MemWire<Global> as Wire>⟧.state it.wire };

    fn receive(&mut self, into: &mut FrameBuf) -> Result<Got, WireFault> {
        self.wire.receive(into)
    }

    fn send(&mut self, frame: &[u8]) -> Result<(), WireFault> {
        note(self.notes, self.letter);
        self.wire.send(frame)
    }
}

/// What notes its rests (`r`) and its pauses (`p`).
#[derive(Drop)]
struct Resting<'a> {
    notes: &'a Notes,
}

impl Idle for Resting<'_> {
    fn idle(&mut self) {
        note(self.notes, b'r');
    }

    fn pause(&mut self) {
        note(self.notes, b'p');
    }
}

/// A disk that answers later, of a new endpoint with transmit blocks of 4.
fn late_disk<'a>(rt: &impl Abort, alloc: Global, notes: &'a Notes) -> Late<'a, MemDisk> {
    let identity = Identity::new(OWN, 4, 64).expect(rt, "identity");
    Late {
        disk: formatted_as(rt, alloc, &identity),
        looks: Cell::new(0),
        notes,
    }
}

/// Receives from the other endpoint under association 0.
fn receive<D: SectorDisk>(rt: &impl Abort, endpoint: &mut Endpoint<D>) {
    command(rt, endpoint, Command::RxAdd { sci: THERE });
    let install = Command::RxInstall {
        sci: THERE,
        an: number_of(rt, 0),
        key: Key::Short([7; 16]),
        start: 1,
        offset: 0,
    };
    command(rt, endpoint, install);
}

/// So many frames of the other endpoint wait.
fn push_protected(rt: &impl Abort, alloc: Global, wire: &mut MemWire<Global>, count: u8) {
    let mut there = sending(rt, formatted(rt, alloc, THERE, 64));
    let mut frame = FrameBuf::new();
    for _ in 0..count {
        assert!(rt; there.protect(&[5; 60], &mut frame).is_ok());
        assert!(rt; wire.push(frame.as_slice()).is_ok());
    }
}

/// The frames that were sent have the packet numbers from 1 on.
fn expect_numbers(rt: &impl Abort, wire: &MemWire<Global>) {
    let mut last: u32 = 0;
    for frame in wire.sent() {
        last = last.saturating_add(1);
        assert!(rt; packet_number(frame) == Some(last));
    }
}

/// By hand, of 26 turns. The first protected frame waits for a reservation, of four calls. Meanwhile
/// four plain frames go out (`o`), and the fifth waits for the next reservation. As that begins all
/// protected frames come in (`i`). Only a turn in which no frame passes and the disk has not
/// answered ends with a pause.
const NOTED: &[u8] = b"o.o.o!o..p!.p.p!.p.p!i.i.i!.p.p!.p.p!.p.p!or";

#[test]
fn frames_pass_while_the_disk_has_not_answered(rt: HostRuntime) {
    let notes = RefCell::new(Vec::new(rt.alloc()));
    let mut endpoint = sending(&rt, late_disk(&rt, rt.alloc(), &notes));
    receive(&rt, &mut endpoint);
    forget(&notes);
    let mut plain = MemWire::new(rt.alloc());
    push_plain(&rt, rt.alloc(), &mut plain, 5);
    let mut protected = MemWire::new(rt.alloc());
    push_protected(&rt, rt.alloc(), &mut protected, 3);
    let mut controlled = Sending {
        wire: plain,
        notes: &notes,
        letter: b'i',
    };
    let mut common = Sending {
        wire: protected,
        notes: &notes,
        letter: b'o',
    };
    let mut nobody = Unattended {
        idle: Resting { notes: &notes },
    };
    let told = attend(&mut endpoint, &mut controlled, &mut common, &mut nobody, 26);
    assert!(rt; told == counted(5, 3, 0, 0));
    assert!(rt; is_noted(&notes, NOTED));
    assert!(rt; endpoint.next_number(number_of(&rt, 0)) == Some(6));
    expect_numbers(&rt, &common.wire);
}
