//! Frames in words: octets that are all the same, and lists of frames.

use crate::text::answer::Answer;
use crate::text::words::{Words, whole};
use std::alloc::Global;

/// The longest frame that a story makes, in octets.
const LONGEST: usize = 65_536;

/// `LENGTH OCTET`: a frame of so many octets, each of which is this one; 7 where none is said.
pub fn filled(words: &mut Words<'_>, alloc: Global) -> Option<Vec<u8>> {
    let length = usize::try_from(words.number()?).ok()?;
    let octet = if words.is_empty() { 7 } else { words.octet()? };
    if length > LONGEST || !words.is_empty() {
        return None;
    }
    let mut frame = Vec::new(alloc);
    frame.resize(length, octet).ok()?;
    Some(frame)
}

/// The octets that are left of a line, in hex.
pub fn octets_of(words: &mut Words<'_>, alloc: Global) -> Option<Vec<u8>> {
    hex::decode(alloc, words.take_rest()).ok()
}

/// Whether each octet is this one.
fn is_filled(frame: &[u8], octet: u8) -> bool {
    for one in frame {
        if *one != octet {
            return false;
        }
    }
    true
}

/// Reports a frame: its length, and the octet that it is full of, else its octets in hex.
pub fn tell_frame(frame: &[u8], answer: &mut Answer) {
    answer.number(frame.len() as u64);
    let Some(octet) = frame.first() else {
        return;
    };
    if is_filled(frame, *octet) {
        answer.number(u64::from(*octet));
    } else {
        answer.octets(frame);
    }
}

/// The packet number in the SecTAG of a frame.
fn packet_number(frame: &[u8]) -> Option<u32> {
    let octets = frame.get(16..20)?;
    if octets.len() < 4 {
        return None;
    }
    Some(u32::from_be_bytes([octets[0], octets[1], octets[2], octets[3]]))
}

/// Reports the packet number of a frame; `-` for a frame without one.
pub fn tell_number(frame: &[u8], answer: &mut Answer) {
    match packet_number(frame) {
        Some(number) => answer.number(u64::from(number)),
        None => answer.word("-"),
    }
}

/// The frame of this place, from 0 on.
pub fn frame_at(frames: &[Vec<u8>], place: u64) -> Option<&[u8]> {
    let place = usize::try_from(place).ok()?;
    Some(frames.get(place)?.as_slice())
}

/// The packet numbers of frames, in their order.
fn tell_numbers(frames: &[Vec<u8>], answer: &mut Answer) {
    for frame in frames {
        tell_number(frame.as_slice(), answer);
    }
    if answer.is_empty() {
        answer.word("none");
    }
}

/// The octet that a frame is full of; `-` for a frame that is not so, or is of another length.
fn tell_octet(frame: &[u8], length: u64, answer: &mut Answer) {
    let octet = frame.first().copied().unwrap_or(0);
    if frame.len() as u64 == length && is_filled(frame, octet) {
        answer.number(u64::from(octet));
    } else {
        answer.word("-");
    }
}

fn tell_octets(frames: &[Vec<u8>], words: &mut Words<'_>, answer: &mut Answer) -> Option<()> {
    let length = whole(words.number(), words)?;
    for frame in frames {
        tell_octet(frame.as_slice(), length, answer);
    }
    if answer.is_empty() {
        answer.word("none");
    }
    Some(())
}

fn tell_one(frames: &[Vec<u8>], words: &mut Words<'_>, answer: &mut Answer) -> Option<()> {
    match frame_at(frames, whole(words.number(), words)?) {
        Some(frame) => tell_frame(frame, answer),
        None => answer.word("none"),
    }
    Some(())
}

fn tell_one_number(frames: &[Vec<u8>], words: &mut Words<'_>, answer: &mut Answer) -> Option<()> {
    let place = whole(words.number(), words)?;
    tell_number(frame_at(frames, place).unwrap_or(&[]), answer);
    Some(())
}

/// Tells what was sent: how many frames, their packet numbers, or one by its place from 0 on.
pub fn tell_sent(
    act: &str,
    words: Words<'_>,
    frames: &[Vec<u8>],
    answer: &mut Answer,
) -> Option<()> {
    let mut words = words;
    match act {
        "sent-octets" => tell_octets(frames, &mut words, answer),
        "sent-frame" => tell_one(frames, &mut words, answer),
        "sent-number" => tell_one_number(frames, &mut words, answer),
        _ => tell_all(act, frames, answer),
    }
}

fn tell_all(act: &str, frames: &[Vec<u8>], answer: &mut Answer) -> Option<()> {
    match act {
        "sent-frames" => answer.number(frames.len() as u64),
        "sent-numbers" => tell_numbers(frames, answer),
        _ => return None,
    }
    Some(())
}
