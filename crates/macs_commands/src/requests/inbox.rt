//! What a client sent, line by line.

ghost use Rattle.std.specs.Prelude.{◌≡◌, ◌<◌, ◌≤◌, ◌+◌, ◌-◌, ◌==◌, length, take, drop};
ghost use Rattle.std.specs.Prelude.{position, IfSome};

use crate::secrets::wipe;
use arrayvec::ArrayVec;

/// The longest line, in octets, with its line feed.
pub const MAX_LINE: usize = 256;

/// A line without its line feed.
pub type Line = ArrayVec<u8, MAX_LINE>;

/// Octets that do not form a line yet, at most 256. They may arrive in pieces of any size: a line
/// is taken once its line feed has arrived. If there is neither room nor a whole line, the line is
/// too long. They are overwritten when they are dropped.
pub struct Inbox {
    octets: Line,
}

impl Drop for Inbox {
    fn drop(self) {
        let Inbox { mut octets } = self;
        wipe(octets.as_mut_slice());
    }
}

/// The place of the first line feed.
fn feed_in(text: &[u8]) -> Option<usize>
    ensures { result ≡ position (λ octet. octet == 10) text.now }
{
    text.iter().position(|octet| *octet == b'\n')
}

/// The same, and that it is within the text.
fn end_in(text: &[u8]) -> Option<usize>
    ensures place { result ≡ position (λ octet. octet == 10) text.now }
    ensures within { IfSome result (λ place. place < length text.now) }
{
    feed_in(text)
}

/// The octets before a place.
fn before(text: &[u8], place: usize) -> Line
    requires place { place ≤ length text.now }
    requires size { length text.now ≤ 256 }
    ensures { result.items ≡ take place text.now }
{
    let mut octets = Line::new();
    octets.try_extend_from_slice(&text[..place]).unwrap();
    octets
}

/// The octets after the one at a place.
fn after(text: &[u8], place: usize) -> Line
    requires place { place < length text.now }
    requires size { length text.now ≤ 256 }
    ensures { result.items ≡ take (length text.now - (place + 1)) (drop (place + 1) text.now) }
{
    let mut octets = Line::new();
    octets.try_extend_from_slice(&text[place + 1..]).unwrap();
    octets
}

impl Inbox {
    ghost use Rattle.std.specs.Prelude.{◌≡◌, ◌≤◌, ◌+◌, ◌-◌, ◌++◌, [], length};
    ghost use Rattle.std.specs.Option.{option_map};
    ghost use Rattle.macs_commands.specs.Inboxes.{TakesLine, octets_in};

    /// An empty inbox.
    pub fn new() -> Inbox
        ensures { octets_in result ≡ [] }
    {
        Inbox {
            octets: Line::new(),
        }
    }

    /// How many more octets fit.
    pub fn room(&self) -> usize
        ensures { result ≡ 256 - length (octets_in self.now) }
    {
        MAX_LINE.saturating_sub(self.octets.len())
    }

    /// Adds octets, which must fit.
    pub fn push(&mut self, octets: &[u8])
        requires { length (octets_in self.old) + length octets.now ≤ 256 }
        ensures { octets_in self.new ≡ octets_in self.old ++ octets.now }
    {
        self.octets.try_extend_from_slice(octets).unwrap();
    }

    /// Takes the first whole line, and returns it without its line feed.
    pub fn next_line(&mut self) -> Option<Line>
        ensures { TakesLine (octets_in self.old) (option_map (λ line. line.items) result)
            (octets_in self.new) }
    {
        let text = self.octets.as_slice();
        match end_in(text) {
            Some(end) => {
                let line = before(text, end);
                let rest = after(text, end);
                wipe(self.octets.as_mut_slice());
                self.octets = rest;
                Some(line)
            }
            None => None,
        }
    }
}
