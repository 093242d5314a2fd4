//! The checks on a link that is read.

ghost use Rattle.std.specs.Prelude.{◌≡◌, ◌∷◌, ◌||◌, None};
ghost use Rattle.std.specs.Str.{bytes_eq};
ghost use Rattle.macs_aes.specs.Keys.{octets_of_key};
ghost use Rattle.macs_config.specs.Config.{are_distinct, is_among};
ghost use Rattle.macs_commands.specs.Reading.{keys_of, newest_link, reuses_an, sound_link};

use crate::links::link::{KeyPair, Link};
use crate::links::plan_fault::PlanFault;
use macs_aes::Key;
use macs_fields::Sci;

/// Whether two keys have the same octets.
fn are_same(one: &Key, other: &Key) -> bool
    ensures { result ≡ bytes_eq (octets_of_key one.now) (octets_of_key other.now) }
{
    one.as_slice() == other.as_slice()
}

/// Whether a pair has a key.
fn has_key(pair: &KeyPair, key: &Key) -> bool
    ensures { result ≡ (bytes_eq (octets_of_key pair.now.left) (octets_of_key key.now)
        || bytes_eq (octets_of_key pair.now.right) (octets_of_key key.now)) }
{
    are_same(&pair.left, key) || are_same(&pair.right, key)
}

/// Whether some pairs have a key.
fn have_key(pairs: &[KeyPair], key: &Key) -> bool
    ensures { result ≡ is_among (keys_of pairs.now) (octets_of_key key.now) }
{
    for i in 0..pairs.len() {
        let pair = pairs[i];
        if has_key(&pair, key) {
            return true;
        }
    }
    false
}

/// Whether the left key of a pair is also its right one, or either is among the keys of later
/// pairs.
fn comes_again(pair: &KeyPair, later: &[KeyPair]) -> bool
    ensures { result
        ≡ (is_among (octets_of_key pair.now.right ∷ keys_of later.now) (octets_of_key pair.now.left)
        || is_among (keys_of later.now) (octets_of_key pair.now.right)) }
{
    are_same(&pair.right, &pair.left) || have_key(later, &pair.left) || have_key(later, &pair.right)
}

/// Whether no key occurs twice.
fn keys_differ(pairs: &[KeyPair]) -> bool
    ensures { result ≡ are_distinct (keys_of pairs.now) }
{
    for i in 0..pairs.len() {
        let pair = pairs[i];
        if comes_again(&pair, &pairs[i + 1..]) {
            return false;
        }
    }
    true
}

/// Whether a pair has the association number of the previous one.
fn reuses_an(pairs: &[KeyPair]) -> bool
    ensures { result ≡ reuses_an pairs.now }
{
    for i in 0..pairs.len() {
        if i + 1 < pairs.len() && pairs[i + 1].an == pairs[i].an {
            return true;
        }
    }
    false
}

/// The link of these ends, of which the last pair is the newest.
fn newest_link(left: Sci, right: Sci, pairs: &[KeyPair]) -> Result<Link, PlanFault>
    ensures { result ≡ newest_link left right None pairs.now }
{
    let mut earlier = None;
    for i in 0..pairs.len() {
        let pair = pairs[i];
        if i + 1 == pairs.len() {
            return Ok(Link {
                left,
                right,
                newest: pair,
                before: earlier,
            });
        }
        earlier = Some(pair);
    }
    Err(PlanFault::Shape)
}

/// The link of these ends and pairs, unless it is refused.
pub(crate) fn sound_link(left: Sci, right: Sci, pairs: &[KeyPair]) -> Result<Link, PlanFault>
    ensures { result ≡ sound_link left right pairs.now }
{
    if left == right {
        return Err(PlanFault::SameSci);
    }
    if !keys_differ(pairs) {
        return Err(PlanFault::SameKey);
    }
    if reuses_an(pairs) {
        return Err(PlanFault::AnInUse);
    }
    newest_link(left, right, pairs)
}
