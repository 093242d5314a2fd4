//! The calls of a transmit channel. What a call asks of its caller is asserted before it.

use super::Security;
use crate::tests::known_frames::STATION;
use crate::tests::{END, number_of};
use macs_config::SciMode;
use macs_frame::{An, FrameBuf, Pn, Sci};
use macs_txsc::{Tx, TxFault};
use std::process::Abort;

/// More packet numbers than the associations of these tests have left below their ceilings.
const LARGE_BLOCK: u32 = 65_536;

/// A channel without associations. An end station's is the one of `STATION`.
pub(super) fn channel(rt: &impl Abort, sci: [u8; 8], mode: SciMode) -> Tx {
    if mode == SciMode::EndStation {
        assert_eq!(rt; sci, STATION);
        let mut station = Tx::new(Sci(STATION));
        station.set_mode(SciMode::EndStation);
        return station;
    }
    let mut tx = Tx::new(Sci(sci));
    tx.set_mode(mode);
    tx
}

/// Frames name the channel otherwise from now on, and not by an end station's address.
pub(super) fn set_mode(rt: &impl Abort, tx: &mut Tx, mode: SciMode) {
    assert!(rt; mode != SciMode::EndStation);
    tx.set_mode(mode);
}

/// A new association, where there is none.
pub(super) fn install(
    rt: &impl Abort,
    tx: &mut Tx,
    an: An,
    security: &Security,
    next: u64,
    ceiling: u64,
) {
    tx.facts();
    assert!(rt; tx.next_number(an).is_none());
    assert!(rt; 1 <= next);
    assert!(rt; next <= ceiling);
    assert!(rt; ceiling <= END);
    tx.install(
        an,
        &security.key,
        security.confidential,
        security.offset,
        next,
        ceiling,
    );
}

/// Frames go out under an association that exists.
pub(super) fn select(rt: &impl Abort, tx: &mut Tx, an: An) {
    tx.facts();
    assert!(rt; tx.next_number(an).is_some());
    tx.select(an);
}

/// An association that exists goes, while frames go out under another one.
pub(super) fn remove(rt: &impl Abort, tx: &mut Tx, an: An) {
    tx.facts();
    assert!(rt; tx.next_number(an).is_some());
    let chosen = tx.needs(LARGE_BLOCK).expect(rt, "chosen association");
    assert!(rt; chosen != an);
    tx.remove(an);
}

/// The ceiling of the association that frames go out under rises. It is not above the new one,
/// since a block of twice the numbers up to that would need more.
pub(super) fn raise(rt: &impl Abort, tx: &mut Tx, an: An, ceiling: u32) {
    tx.facts();
    let next = tx.next_number(an).expect(rt, "next number");
    assert!(rt; next <= u64::from(ceiling));
    let room = u64::from(ceiling) - next;
    let block = u32::try_from(2 * room).ok().expect(rt, "block");
    assert_eq!(rt; tx.needs(block), Some(an));
    tx.raise(an, u64::from(ceiling));
}

/// The next numbers of the four associations.
pub(super) fn next_numbers(rt: &impl Abort, tx: &Tx) -> [Option<u64>; 4] {
    let next = |association| tx.next_number(number_of(rt, association));
    [next(0), next(1), next(2), next(3)]
}

/// Protects a plain frame into a buffer with an octet that has to go, and answers its number. A
/// fault leaves the buffer empty and the numbers as they were.
pub(super) fn protect(
    rt: &impl Abort,
    tx: &mut Tx,
    plain: &[u8],
    out: &mut FrameBuf,
) -> Result<u32, TxFault> {
    let before = next_numbers(rt, tx);
    out.clear();
    out.push(0);
    let answer = tx.protect(plain, out);
    if answer.is_err() {
        assert!(rt; out.is_empty());
        assert_eq!(rt; next_numbers(rt, tx), before);
    }
    answer.map(Pn::get)
}
