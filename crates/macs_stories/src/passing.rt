//! Frames that an endpoint is given, from either side.

use crate::disk::{an_of, key_of, offset_of, pn_of, sci_of};
use crate::endpoint::Played;
use crate::frames::{Form, Sealed, clear_octets, frame_of, sevens};
use crate::text::{Answer, Words, octets_of, whole};
use macs_endpoint::{ProtectFault, Stopped};
use macs_frame::{FrameBuf, Offset, Pn};
use macs_rxsc::Verdict;
use std::alloc::Global;

fn protected(endpoint: &mut Played, plain: &[u8], out: &mut FrameBuf) -> Result<Pn, ProtectFault> {
    endpoint.protect(plain, out)
}

fn received(endpoint: &mut Played, frame: &[u8], out: &mut FrameBuf) -> Result<Verdict, Stopped> {
    endpoint.receive(frame, out)
}

/// A buffer with an octet that has to go.
fn stale() -> FrameBuf {
    let mut out = FrameBuf::new();
    out.push(0);
    out
}

/// Reports the packet number of a frame that goes out, or the fault.
pub fn tell_protected(told: Result<Pn, ProtectFault>, answer: &mut Answer) {
    match told {
        Ok(number) => answer.number(u64::from(number.get())),
        Err(ProtectFault::Stopped) => answer.word("Stopped"),
        Err(ProtectFault::Tx(fault)) => answer.name(&fault),
    }
}

/// Protects a plain frame, and reports its number or the fault. A buffer that is not empty after a
/// fault is reported.
fn protect(endpoint: &mut Played, plain: &[u8], out: &mut FrameBuf, answer: &mut Answer) {
    let told = protected(endpoint, plain, out);
    let is_odd = told.is_ok() == out.is_empty();
    tell_protected(told, answer);
    if is_odd {
        answer.octets(out.as_slice());
    }
}

/// Reports how a frame of sevens went out: its length, octets 3 and 4 of its SecTAG, and how many
/// octets of User Data are in the clear.
fn tell_sealed(frame: &[u8], answer: &mut Answer) {
    if frame.len() < 16 {
        return;
    }
    answer.number(frame.len() as u64);
    answer.octets(&[frame[14], frame[15]]);
    answer.number(clear_octets(frame));
}

/// Reports a verdict in two words.
pub fn tell_verdict(verdict: Verdict, answer: &mut Answer) {
    match verdict {
        Verdict::Delivered(kind) => {
            answer.word("delivered");
            answer.name(&kind);
        }
        Verdict::Discarded(reason) => {
            answer.word("discarded");
            answer.name(&reason);
        }
        Verdict::HeldBack => answer.word("held back"),
    }
}

/// Reports the verdict on a frame.
pub fn tell_received(told: Result<Verdict, Stopped>, answer: &mut Answer) {
    match told {
        Ok(verdict) => tell_verdict(verdict, answer),
        Err(_) => answer.word("Stopped"),
    }
}

fn is_delivered(told: Result<Verdict, Stopped>) -> bool {
    matches!(told, Ok(Verdict::Delivered(_)))
}

/// Receives a frame, and reports the verdict. What is given is to be these octets where the frame
/// is delivered, and else nothing: it is reported where it is not.
fn receive(endpoint: &mut Played, frame: &[u8], plain: &[u8], answer: &mut Answer) {
    let mut out = stale();
    let told = received(endpoint, frame, &mut out);
    tell_received(told, answer);
    let given = if is_delivered(told) { plain } else { &[] };
    if out.as_slice() != given {
        answer.octets(out.as_slice());
    }
}

/// `protect LENGTH`: the number that a frame of sevens goes out with.
fn protect_sevens(endpoint: &mut Played, octets: usize, answer: &mut Answer) {
    let mut out = stale();
    protect(endpoint, sevens(octets), &mut out, answer);
}

/// `seal LENGTH`: the same, and how it goes out.
fn seal_sevens(endpoint: &mut Played, octets: usize, answer: &mut Answer) {
    let mut out = stale();
    protect(endpoint, sevens(octets), &mut out, answer);
    tell_sealed(out.as_slice(), answer);
}

/// `protect-hex HEX`: the number, and the frame that goes out.
fn protect_octets(
    endpoint: &mut Played,
    words: &mut Words<'_>,
    alloc: Global,
    answer: &mut Answer,
) -> Option<()> {
    let octets = octets_of(words, alloc)?;
    let mut out = stale();
    protect(endpoint, octets.as_slice(), &mut out, answer);
    answer.octets(out.as_slice());
    Some(())
}

/// `receive-hex HEX`: what is given is reported.
fn receive_octets(
    endpoint: &mut Played,
    words: &mut Words<'_>,
    alloc: Global,
    answer: &mut Answer,
) -> Option<()> {
    let octets = octets_of(words, alloc)?;
    receive(endpoint, octets.as_slice(), &[], answer);
    Some(())
}

/// `receive-plain LENGTH`: a frame of sevens without a SecTAG.
fn receive_sevens(endpoint: &mut Played, octets: usize, answer: &mut Answer) {
    let frame = sevens(octets);
    receive(endpoint, frame, frame, answer);
}

/// `receive SCI KEY AN PN LENGTH`, and `clear`, `broken`, an offset: a frame of sevens that is
/// sealed so.
fn receive_sealed(endpoint: &mut Played, words: &mut Words<'_>, answer: &mut Answer) -> Option<()> {
    let sealed = sealed_of(words)?;
    let form = form_of(words)?;
    let frame = frame_of(&sealed, form);
    receive(endpoint, frame.as_slice(), sevens(sealed.octets), answer);
    Some(())
}

fn sealed_of(words: &mut Words<'_>) -> Option<Sealed> {
    let sci = sci_of(words)?;
    let key = key_of(words)?;
    let an = an_of(words)?;
    let pn = pn_of(words)?;
    let octets = words.length()?;
    Some(Sealed {
        sci,
        key,
        an,
        pn,
        octets,
    })
}

fn form_of(words: &mut Words<'_>) -> Option<Form> {
    let mut form = Form {
        confidential: true,
        broken: false,
        offset: Offset::Zero,
    };
    for _ in 0..4 {
        match words.take() {
            "" => return Some(form),
            "clear" => form.confidential = false,
            "broken" => form.broken = true,
            word => form.offset = offset_of(word)?,
        }
    }
    None
}

/// Passes a frame of sevens, whose length the words say; `None` where there is no such act.
fn pass_sevens(
    endpoint: &mut Played,
    act: &str,
    words: &mut Words<'_>,
    answer: &mut Answer,
) -> Option<()> {
    let octets = whole_length(words)?;
    match act {
        "protect" => protect_sevens(endpoint, octets, answer),
        "seal" => seal_sevens(endpoint, octets, answer),
        "receive-plain" => receive_sevens(endpoint, octets, answer),
        _ => return None,
    }
    Some(())
}

/// Passes a frame, and answers; `None` where the words say none.
pub fn pass(
    endpoint: &mut Played,
    words: Words<'_>,
    alloc: Global,
    answer: &mut Answer,
) -> Option<()> {
    let mut words = words;
    match words.take() {
        "receive" => receive_sealed(endpoint, &mut words, answer),
        "protect-hex" => protect_octets(endpoint, &mut words, alloc, answer),
        "receive-hex" => receive_octets(endpoint, &mut words, alloc, answer),
        act => pass_sevens(endpoint, act, &mut words, answer),
    }
}

fn whole_length(words: &mut Words<'_>) -> Option<usize> {
    whole(words.length(), words)
}
