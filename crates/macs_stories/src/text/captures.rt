//! Captures: the octets that come after an act, and those that are written.

use crate::text::answer::Answer;
use crate::text::frames::{filled, octets_of, tell_frame, tell_number};
use crate::text::script::Line;
use crate::text::words::{Words, whole};
use std::alloc::Global;

/// The header of a capture whose stamps are in nanoseconds, as another program writes it.
const HEADER: [u8; 24] = [
    0xa1, 0xb2, 0x3c, 0x4d, 0, 2, 0, 4, 0, 0, 0, 0, 0, 0, 0, 0, 0, 0, 0xff, 0xff, 0, 0, 0, 1,
];

/// How many octets come before the first record.
const FRONT: usize = 24;

/// How many octets come before the frame of a record.
const RECORD: usize = 16;

/// The capture that is read next, and the one that was written last.
#[derive(Drop)]
pub struct Captures {
    pub next: Vec<u8>,
    pub written: Vec<u8>,
}

impl Captures {
    /// Two without an octet.
    pub fn new(alloc: Global) -> Captures {
        Captures {
            next: Vec::new(alloc),
            written: Vec::new(alloc),
        }
    }
}

/// The header of a record whose stamp is told from others by its place: the kept length and the
/// original one.
fn push_record(octets: &mut Vec<u8>, words: &mut Words<'_>) -> Option<()> {
    let place = words.short()?;
    let kept = words.short()?;
    let original = words.short()?;
    octets.extend_from_slice(&place.to_be_bytes()).ok()?;
    octets.extend_from_slice(&(!place).to_be_bytes()).ok()?;
    octets.extend_from_slice(&kept.to_be_bytes()).ok()?;
    octets.extend_from_slice(&original.to_be_bytes()).ok()
}

fn push_octets(octets: &mut Vec<u8>, piece: Option<Vec<u8>>) -> Option<()> {
    octets.extend_from_slice(piece?.as_slice()).ok()
}

/// Octets of a capture: `header`; `record PLACE KEPT ORIGINAL`; `fill LENGTH OCTET`; `hex HEX`.
fn push_piece(octets: &mut Vec<u8>, words: &mut Words<'_>, alloc: Global) -> Option<()> {
    match words.take() {
        "header" => octets.extend_from_slice(&HEADER).ok(),
        "record" => push_record(octets, words),
        "fill" => push_octets(octets, filled(words, alloc)),
        "hex" => push_octets(octets, octets_of(words, alloc)),
        _ => None,
    }
}

/// The capture that the lines of a text say.
fn capture_of(text: &str, line: Line<'_>, alloc: Global) -> Option<Vec<u8>> {
    let mut octets = Vec::new(alloc);
    let mut rest = text;
    for _ in 0..u64::MAX {
        let Some((one, behind)) = rest.split_once('\n') else {
            return Some(octets);
        };
        let mut words = Words::new(one, line.values);
        push_piece(&mut octets, &mut words, alloc)?;
        rest = behind;
    }
    None
}

/// `capture`, and lines of text after it.
fn begin(
    line: Line<'_>,
    captures: &mut Captures,
    alloc: Global,
    answer: &mut Answer,
) -> Option<()> {
    let text = line.behind.text(alloc)?;
    captures.next = capture_of(text.as_str(), line, alloc)?;
    answer.word("ok");
    Some(())
}

/// `capture-written`: what was written last is what is read next.
fn turn(captures: &mut Captures, alloc: Global, answer: &mut Answer) -> Option<()> {
    captures.next = Vec::from_slice(alloc, captures.written.as_slice()).ok()?;
    answer.word("ok");
    Some(())
}

/// The octets from one place up to another.
fn part(octets: &[u8], from: usize, length: usize) -> &[u8] {
    let end = from.saturating_add(length);
    octets.get(from..end).unwrap_or(&[])
}

/// The length in the header of the record that is here.
fn length_at(octets: &[u8], at: usize) -> Option<usize> {
    let length = octets.get(at.saturating_add(8)..at.saturating_add(12))?;
    if length.len() < 4 {
        return None;
    }
    let length = u32::from_be_bytes([length[0], length[1], length[2], length[3]]);
    usize::try_from(length).ok()
}

/// Where the record of this place begins, from 1 on, and how long its frame is.
fn record_at(octets: &[u8], place: u64) -> Option<(usize, usize)> {
    let mut at = FRONT;
    for _ in 1..place {
        let length = length_at(octets, at)?;
        at = at.saturating_add(RECORD).saturating_add(length);
    }
    Some((at, length_at(octets, at)?))
}

/// `written-octets FIRST LENGTH`.
fn tell_part(octets: &[u8], first: u64, words: &mut Words<'_>, answer: &mut Answer) -> Option<()> {
    let first = usize::try_from(first).ok()?;
    let length = usize::try_from(whole(words.number(), words)?).ok()?;
    answer.octets(part(octets, first, length));
    Some(())
}

/// Of a record its stamp, its frame, or the packet number of that.
fn tell_record(octets: &[u8], act: &str, place: u64, answer: &mut Answer) -> Option<()> {
    let (at, length) = record_at(octets, place)?;
    let frame = part(octets, at.saturating_add(RECORD), length);
    match act {
        "written-stamp" => answer.octets(part(octets, at, 8)),
        "written-frame" => tell_frame(frame, answer),
        _ => tell_number(frame, answer),
    }
    Some(())
}

/// Reports what was written: how many octets; some of them; what a record is.
fn look(words: Words<'_>, octets: &[u8], answer: &mut Answer) -> Option<()> {
    let mut words = words;
    let act = words.take();
    if act == "written" && words.is_empty() {
        answer.number(octets.len() as u64);
        return Some(());
    }
    let place = words.number()?;
    match act {
        "written-octets" => tell_part(octets, place, &mut words, answer),
        "written-stamp" | "written-frame" | "written-number" => {
            tell_record(octets, act, place, answer)
        }
        _ => None,
    }
}

/// Does an act with a capture, and answers it; `None` where there is no such act.
pub fn act_with_captures(
    line: Line<'_>,
    captures: &mut Captures,
    alloc: Global,
    answer: &mut Answer,
) -> Option<()> {
    let words = line.words();
    match words.rest() {
        "capture" => begin(line, captures, alloc, answer),
        "capture-written" => turn(captures, alloc, answer),
        _ => look(words, captures.written.as_slice(), answer),
    }
}
