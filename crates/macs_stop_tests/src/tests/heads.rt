//! Disks whose head was changed in one bit: what is found, or that they are refused.

use macs_config::{Config, Identity, Replay, SciMode, Validate};
use macs_disk::{MemDisk, SectorDisk};
use macs_frame::{An, Sci};
use macs_journal::{JournalFault, format};
use macs_record::{Record, SECTOR, encode, open_gate};
use macs_store::Store;
use std::alloc::Global;
use std::process::Abort;

/// How many sectors a disk needs.
const SECTORS: u64 = 1_028;

/// The SCI of the head, which is also that of a channel which does not exist.
const PEER: Sci = Sci(*b"\x12\x15\x35\x24\xc0\x89\x5e\x81");

/// A disk in memory of so many sectors.
fn blank(rt: &impl Abort, alloc: Global, sectors: u64) -> MemDisk {
    match MemDisk::new(alloc, sectors) {
        Ok(disk) => disk,
        Err(_) => panic!(rt; "no disk"),
    }
}

/// A disk in memory with a new journal, of the peer's SCI and blocks of 4.
fn fresh(rt: &impl Abort, alloc: Global) -> MemDisk {
    let identity = Identity::new(PEER, 4, 4).expect(rt, "identity");
    let mut disk = blank(rt, alloc, SECTORS);
    assert!(rt; format(&mut disk, &identity).is_ok());
    disk
}

fn read(rt: &impl Abort, disk: &mut MemDisk, at: u64) -> [u8; SECTOR] {
    let mut sector = [0; SECTOR];
    assert!(rt; at < disk.sectors());
    assert!(rt; disk.read(at, &mut sector).is_ok());
    sector
}

fn write(rt: &impl Abort, disk: &mut MemDisk, at: u64, sector: &[u8; SECTOR]) {
    assert!(rt; at < disk.sectors());
    assert!(rt; disk.write(at, sector).is_ok());
}

fn sync(rt: &impl Abort, disk: &mut MemDisk) {
    assert!(rt; disk.sync().is_ok());
}

/// The record that sets replay protection on, with a window of 9.
fn window_of_9() -> Record {
    Record::SetReplay(Replay {
        on: true,
        window: 9,
    })
}

/// What an opening finds: an identity and a window, or why the disk is refused.
type Found = Result<(Identity, u32), JournalFault>;

/// Whether a configuration is that of a new endpoint, but for its window.
fn is_new(config: &Config, window: u32) -> bool {
    let replay = Replay { on: true, window };
    config.validate() == Validate::Strict
        && config.replay() == replay
        && config.sci_mode() == SciMode::Explicit
        && config.encoding().is_none()
        && config.channels().is_empty()
}

/// Whether no association of this number has a ceiling, of the transmit side or of the peer.
fn has_no_ceiling(store: &Store<MemDisk>, an: An) -> bool {
    store.tx_ceiling(an).is_none() && store.rx_ceiling(PEER, an).is_none()
}

/// A store has nothing but an identity and a window.
fn expect_nothing_else(rt: &impl Abort, store: &Store<MemDisk>, window: u32) {
    assert!(rt; is_new(store.config(), window));
    for an in An::all() {
        assert!(rt; has_no_ceiling(store, an));
    }
}

/// Opens a disk, and gives it back.
fn opening(rt: &impl Abort, disk: MemDisk) -> (Found, MemDisk) {
    match Store::open(disk) {
        Ok(store) => {
            let found = (store.identity(), store.config().replay().window);
            expect_nothing_else(rt, &store, found.1);
            (Ok(found), store.into_disk())
        }
        Err(refused) => (Err(refused.fault), refused.disk),
    }
}

/// A disk with a new journal and one record after it, the window of 9.
fn written(rt: &impl Abort, alloc: Global) -> MemDisk {
    let mut disk = fresh(rt, alloc);
    write(rt, &mut disk, 4, &encode(&window_of_9()));
    write(rt, &mut disk, 5, &open_gate());
    sync(rt, &mut disk);
    disk
}

/// What a disk is found to be where a bit of its head is changed.
#[derive(Clone, Copy)]
enum Answer {
    /// The bit does not count.
    Same,
    /// The SCI or a block is another one.
    Other,
    Refused(JournalFault),
}

/// The answer where a bit of this octet of the head's body is changed. Its generation is 1, its
/// count 1, and its blocks are 4. Another count takes in a command or a slot without a record, and
/// a block is 65,536 at most.
fn of_body(at: usize, bit: u8) -> Answer {
    match at {
        12..=18 => Answer::Same,
        19 if bit != 1 => Answer::Same,
        24..=31 | 34 | 38 => Answer::Other,
        35 | 39 if bit != 4 => Answer::Other,
        _ => Answer::Refused(JournalFault::BadJournal),
    }
}

/// The answer where a bit of this octet of the head's gate is changed.
fn of_gate(at: usize) -> Answer {
    if at < 8 {
        Answer::Refused(JournalFault::NotFormatted)
    } else {
        Answer::Same
    }
}

/// The identity in a head's body.
fn identity_in(rt: &impl Abort, body: &[u8; SECTOR]) -> Identity {
    let mut sci = [0; 8];
    for place in 0..8 {
        sci[place] = body[24 + place];
    }
    let tx_block = u32::from_be_bytes([body[32], body[33], body[34], body[35]]);
    let rx_block = u32::from_be_bytes([body[36], body[37], body[38], body[39]]);
    Identity::new(Sci(sci), tx_block, rx_block).expect(rt, "identity")
}

/// Opens a disk with a bit of a sector changed. What is found, the body of its head then, and the
/// disk as it was.
fn with_bit(
    rt: &impl Abort,
    disk: MemDisk,
    sector: u64,
    at: usize,
    bit: u8,
) -> (Found, [u8; SECTOR], MemDisk) {
    let mut disk = disk;
    let before = read(rt, &mut disk, sector);
    let mut after = before;
    assert!(rt; at < SECTOR);
    after[at] ^= bit;
    write(rt, &mut disk, sector, &after);
    sync(rt, &mut disk);
    let body = read(rt, &mut disk, 0);
    let (found, mut disk) = opening(rt, disk);
    write(rt, &mut disk, sector, &before);
    sync(rt, &mut disk);
    disk.crash();
    (found, body, disk)
}

/// Whether an opening finds what is expected: nothing, or the window of 9 and the identity of the
/// head.
fn is_as(rt: &impl Abort, answer: Answer, found: Found, body: &[u8; SECTOR]) -> bool {
    let first = Identity::new(PEER, 4, 4).expect(rt, "identity");
    match answer {
        Answer::Same => found == Ok((first, 9)),
        Answer::Other => {
            let other = identity_in(rt, body);
            other != first && found == Ok((other, 9))
        }
        Answer::Refused(fault) => found == Err(fault),
    }
}

/// How often bits do not count, make another identity, a bad journal, and no journal.
type Counts = [u32; 4];

fn place_of(answer: Answer) -> usize {
    match answer {
        Answer::Same => 0,
        Answer::Other => 1,
        Answer::Refused(JournalFault::BadJournal) => 2,
        Answer::Refused(_) => 3,
    }
}

/// Changes each bit of an octet of a sector in turn, and gives the disk back as it was.
fn check_octet(
    rt: &impl Abort,
    disk: MemDisk,
    sector: u64,
    at: usize,
    counts: &mut Counts,
) -> MemDisk {
    let mut disk = disk;
    for bit in [1, 2, 4, 8, 16, 32, 64, 128] {
        let answer = if sector == 0 {
            of_body(at, bit)
        } else {
            of_gate(at)
        };
        let (found, body, same) = with_bit(rt, disk, sector, at, bit);
        assert!(rt; is_as(rt, answer, found, &body), "octet {at}, bit {bit}");
        let place = place_of(answer);
        assert!(rt; place < counts.len());
        counts[place] = counts[place].saturating_add(1);
        disk = same;
    }
    disk
}

/// A head's sector, and the answers to its 4,096 bits. Of the body, all bits of the generation but
/// one do not count; the SCI has 64 bits, and each block 15 that leave it 1 to 65,536. Of the gate
/// the first 64 bits count.
const HEADS: [(u64, Counts); 2] = [(0, [63, 64 + 15 + 15, 3_939, 0]), (1, [504 * 8, 0, 0, 64])];

#[test]
fn each_bit_of_the_head(rt: HostRuntime) {
    let mut disk = written(&rt, rt.alloc());
    for (sector, expected) in HEADS {
        let mut counts = [0; 4];
        for at in 0..SECTOR {
            disk = check_octet(&rt, disk, sector, at, &mut counts);
        }
        assert!(rt; counts == expected);
    }
}
