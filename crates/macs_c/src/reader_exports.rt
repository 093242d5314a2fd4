//! The calls of `include/macsec.h` that read a whole endpoint.

ghost use Rattle.std.specs.Prelude.{◌≡◌};
ghost use Rattle.macs_c.specs.Answers.{number_of};
ghost use Rattle.macs_c.specs.Shown.{CountersAnswer, RxAnswer, TxAnswer};
ghost use Rattle.macs_c.specs.declared.answers.Answer.{Answer};

use crate::answers::{Answer, number_of};
use crate::fields::MacsSci;
use crate::handle::MacsEndpoint;
use crate::readers::{MacsCounters, MacsRx, MacsTx, count, show_rx, show_tx};

/// Stores the numbers of a transmit association in `tx`. Returns 0, or the code of the first that
/// holds: no endpoint is open, `an` is above 3, there is no such association. Then nothing is
/// stored. The endpoint stays as it is.
#[unsafe(no_mangle)]
pub extern "C" fn macs_show_tx(endpoint: &mut MacsEndpoint, an: u8, tx: &mut MacsTx) -> u32
    ensures shown { (answer : Answer) × (result ≡ number_of answer)
        × TxAnswer endpoint.old.value an tx.old answer tx.new }
    ensures same { endpoint.new ≡ endpoint.old }
{
    if !endpoint.is_open() {
        return number_of(Answer::Closed);
    }
    let slot = endpoint.get();
    number_of(show_tx(&slot.endpoint, an, tx))
}

/// Stores the numbers of a receive association in `rx`. Returns 0, or the code of the first that
/// holds: no endpoint is open, `an` is above 3, there is no such association. Then nothing is
/// stored. The endpoint stays as it is.
#[unsafe(no_mangle)]
pub extern "C" fn macs_show_rx(
    endpoint: &mut MacsEndpoint,
    sci: &MacsSci,
    an: u8,
    rx: &mut MacsRx,
) -> u32
    ensures shown { (answer : Answer) × (result ≡ number_of answer)
        × RxAnswer endpoint.old.value sci.now.octets an rx.old answer rx.new }
    ensures same { endpoint.new ≡ endpoint.old }
{
    if !endpoint.is_open() {
        return number_of(Answer::Closed);
    }
    let slot = endpoint.get();
    number_of(show_rx(&slot.endpoint, sci, an, rx))
}

/// Stores the counters. Returns 0, or the code for no open endpoint: then nothing is stored. The
/// endpoint stays as it is.
#[unsafe(no_mangle)]
pub extern "C" fn macs_counters(endpoint: &mut MacsEndpoint, counters: &mut MacsCounters) -> u32
    ensures shown { (answer : Answer) × (result ≡ number_of answer)
        × CountersAnswer endpoint.old.value counters.old answer counters.new }
    ensures same { endpoint.new ≡ endpoint.old }
{
    if !endpoint.is_open() {
        return number_of(Answer::Closed);
    }
    let slot = endpoint.get();
    *counters = count(&slot.endpoint);
    number_of(Answer::Success)
}
