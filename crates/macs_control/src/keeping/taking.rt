//! Messages of one length, taken from a connection.

ghost use Rattle.std.specs.Prelude.{◌≡◌, ◌<◌, ◌≤◌, ◌+◌, [], length, true, false, IfErr, IfOk, OnOk};
ghost use Rattle.std.specs.Prelude.{Option};
ghost use Rattle.macs_control.specs.Links.{Fills, FindsMore, Link, count_of};
ghost use Rattle.macs_control.specs.Keepers.{IsCut, IsCutAfter, Takes, TakesMore};

use crate::connection::{Connection, Taken};
use crate::keeping::cut::Cut;
use crate::keeping::waiting::Waits;
use arrayvec::ArrayVec;
use macs_commands::secrets::wipe;

/// Takes what arrived of a message, and overwrites what it was taken into.
pub(crate) fn take_part<C: Connection, const N: usize>(
    from: &mut C,
    held: &mut ArrayVec<u8, N>,
) -> Taken
    ensures fills { Fills held.old.items (C.link from.old) result held.new.items
        (C.link from.new) }
    ensures grows { length held.old.items + count_of result ≤ length held.new.items }
    ensures steady { C.steady from.new ≡ C.steady from.old }
    ensures finds { C.steady from.old ≡ true → length held.old.items < N → FindsMore result }
{
    let mut octets = [0; N];
    let part = &mut octets[..held.remaining_capacity()];
    let taken = from.take_into(part);
    if let Taken::Octets(count) = taken {
        held.try_extend_from_slice(&part[..count]).unwrap();
        wipe(part);
    }
    taken
}

/// Takes more of a message, and waits for it. Fails with `Ended` or `Gone` if no more comes.
fn take_more<C: Waits, const N: usize>(from: &mut C, held: &mut ArrayVec<u8, N>) -> Result<(), Cut>
    ensures more { (start : Option Link) → Takes start held.old.items (C.link from.old)
        → OnOk result (Takes start held.new.items (C.link from.new)) }
    ensures cut { (start : Option Link) → Takes start held.old.items (C.link from.old)
        → IfErr result (λ cut. IsCutAfter held.old.items start cut (C.link from.new)) }
    ensures steady { C.steady from.old ≡ true → length held.old.items < N
        → TakesMore result (length held.old.items) (length held.new.items)
        (C.steady from.new) }
{
    match take_part(from, held) {
        Taken::Octets(_) => Ok(()),
        Taken::Nothing => { if from.wait() { Ok(()) } else { Err(Cut::Gone) } }
        Taken::Ended => Err(Cut::Ended),
        Taken::Gone => Err(Cut::Gone),
    }
}

/// A message of which nothing has arrived.
fn nothing_held<const N: usize>() -> ArrayVec<u8, N>
    ensures { result.items ≡ [] }
{
    ArrayVec::new()
}

/// Whether a message is whole.
pub(crate) fn is_whole<const N: usize>(held: &ArrayVec<u8, N>) -> bool
    ensures whole { result ≡ true → length held.now.items ≡ N }
    ensures part { result ≡ false → length held.now.items < N }
{
    held.is_full()
}

/// Takes a whole message, and waits for it. Fails with `Ended` or `Gone` if it does not come; a
/// part of it may have been taken.
pub(crate) fn take_whole<C: Waits, const N: usize>(from: &mut C) -> Result<ArrayVec<u8, N>, Cut>
    requires { 0 < N }
    ensures whole { IfOk result (λ octets. (length octets.items ≡ N)
        × Takes (C.link from.old) octets.items (C.link from.new)) }
    ensures cut { IfErr result (λ cut. IsCut N (C.link from.old) cut (C.link from.new)) }
    ensures steady { C.steady from.old ≡ true → IfErr result (λ cut. cut ≡ Cut.Ended) }
    ensures still { C.steady from.old ≡ true → OnOk result (C.steady from.new ≡ true) }
{
    let mut held = nothing_held();
    for _look in 0..u64::MAX {
        match take_more(from, &mut held) {
            Ok(()) => {}
            Err(cut) => return Err(cut),
        }
        if is_whole(&held) {
            return Ok(held);
        }
    }
    Err(Cut::Gone)
}
