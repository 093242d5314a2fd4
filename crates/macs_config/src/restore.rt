//! Restoring a configuration from the parts of a snapshot, in place.

ghost use Rattle.std.specs.Prelude.{◌≡◌, ◌+◌, ◌&&◌, ◌<◌, [], ◌∷◌, Bool, true, false, not};
ghost use Rattle.std.specs.Prelude.{if◌then◌else◌, drop, length, nat_le, nat_lt, is_none, is_some};
ghost use Rattle.std.specs.Prelude.{IfSome, Some, None};
ghost use Rattle.std.specs.Option.{option_map_or};
ghost use Rattle.std.specs.List.{list_all};
ghost use Rattle.std.specs.Str.{bytes_eq};
ghost use Rattle.macs_config.specs.Config.{are_distinct, has_channel, is_spent, max_spent};
ghost use Rattle.macs_config.specs.Config.{put_among, spent_of, takes_key, this_edition};
ghost use Rattle.macs_config.specs.Config.{tx_fingerprint};
ghost use Rattle.macs_config.specs.Identity.{is_port_one};
ghost use Rattle.macs_config.specs.Snapshot.{are_new, is_rx_spent, is_tx_spent, is_whole};
ghost use Rattle.macs_config.specs.Snapshot.{may_follow, every_an, place_of, config_of_listed};
ghost use Rattle.macs_config.specs.Snapshot.{config_with_listed, config_with_part};
ghost use Rattle.macs_config.specs.Value.{config_in};
ghost use Rattle.macs_config.specs.Tables.{put, put_at};
ghost use Rattle.macs_config.specs.declared.part.Part.TheVariants.{Spent};

use crate::association::{RxSa, TxSa};
use crate::check::is_port_one;
use crate::command::{Role, SciMode};
use crate::contents::{Contents, MAX_CHANNELS};
use crate::edition::takes_key;
use crate::fingerprint::{Fingerprint, is_spent, rx_fingerprint, tx_fingerprint};
use crate::identity::Identity;
use crate::part::Part;
use crate::part_source::PartSource;
use crate::spent_keys::{MAX_SPENT, SpentKeys};
use macs_fields::{An, Sci};

/// The rank of the first parts after the settings, in the order of a snapshot.
const BEHIND_SETTINGS: u8 = 2;

/// Replaces the contents by what the parts of a snapshot make up, and returns whether there is such
/// a configuration; if the snapshot is refused, the result is not specified.
pub(crate) fn restore<P: PartSource>(
    identity: &Identity,
    contents: &mut Contents,
    parts: &P,
) -> bool
    ensures { config_of_listed this_edition identity.now (P.listed parts.now)
        ≡ (if result then Some (config_in contents.new) else None) }
{
    contents.reset();
    if !take_settings(contents, parts.part(0)) {
        return false;
    }
    add_all(identity, contents, parts) && is_whole(identity, contents)
}

/// Takes the settings of a first part, and returns whether it has settings.
fn take_settings(contents: &mut Contents, first: Option<Part>) -> bool
    ensures test { result ≡ option_map_or (λ part. nat_le (place_of part) 1) first false }
    ensures settled { result ≡ true → IfSome first
        (λ part. config_in contents.new ≡ config_with_part (config_in contents.old) part) }
{
    let Some(
        Part::Settings {
            validate,
            replay,
            sci_mode,
            encoding,
        },
    ) = first
    else {
        return false;
    };
    contents.validate = validate;
    contents.replay = replay;
    contents.mode = sci_mode;
    contents.encoding = encoding;
    true
}

/// Adds the parts after the settings in turn, and returns whether there is one at each position,
/// none is out of order, and each may follow those before it.
fn add_all<P: PartSource>(identity: &Identity, contents: &mut Contents, parts: &P) -> bool
    ensures { config_with_listed this_edition identity.now 2 (config_in contents.old)
        (drop 1 (P.listed parts.now))
        ≡ (if result then Some (config_in contents.new) else None) }
{
    let mut place = BEHIND_SETTINGS;
    for at in 1..parts.count() {
        let Some(part) = parts.part(at) else {
            return false;
        };
        let next = place_of(&part);
        if next < place || !add(identity, contents, &part) {
            return false;
        }
        place = next;
    }
    true
}

/// A part's rank in the order of a snapshot, 1 to 6.
fn place_of(part: &Part) -> u8
    ensures { result ≡ place_of part.now }
{
    match part {
        Part::Settings { .. } => 1,
        Part::TxSa { .. } => 2,
        Part::Channel { .. } => 3,
        Part::RxSa { .. } => 4,
        Part::Spent {
            role: Role::Transmit,
            ..
        } => 5,
        Part::Spent {
            role: Role::Receive,
            ..
        } => 6,
    }
}

/// Adds a part, and returns whether it may follow what is present.
fn add(identity: &Identity, contents: &mut Contents, part: &Part) -> bool
    ensures test { result ≡ may_follow this_edition identity.now (config_in contents.old) part.now }
    ensures added { result ≡ true
        → config_in contents.new ≡ config_with_part (config_in contents.old) part.now }
{
    match part {
        Part::Settings { .. } => false,
        Part::TxSa { an, sa } => add_tx(contents, *an, *sa),
        Part::Channel { sci } => add_channel(identity, contents, *sci),
        Part::RxSa { sci, an, sa } => add_rx(contents, *sci, *an, *sa),
        Part::Spent { role, fingerprints } => add_spent(contents, *role, fingerprints.as_slice()),
    }
}

/// Adds a transmit association, and returns whether there was none at its number and this edition
/// accepts its key.
fn add_tx(contents: &mut Contents, an: An, sa: TxSa) -> bool
    ensures test { result
        ≡ (is_none ((config_in contents.old).tx an) && takes_key this_edition sa.key) }
    ensures added { result ≡ true → config_in contents.new
        ≡ record (config_in contents.old) { tx = put (config_in contents.old).tx an (Some sa) } }
{
    let may_follow = contents.tx[an.get() as usize].is_none() && takes_key(sa.key.as_slice());
    if may_follow {
        contents.put_tx(an, Some(sa));
    }
    may_follow
}

/// Adds a receive channel, and returns whether it is not the own one, did not exist, and fits.
fn add_channel(identity: &Identity, contents: &mut Contents, sci: Sci) -> bool
    ensures test { result
        ≡ (not (bytes_eq sci identity.now.sci) && not (has_channel (config_in contents.old) sci)
        && nat_lt (length (config_in contents.old).channels) this_edition.channels) }
    ensures added { result ≡ true → config_in contents.new ≡ record (config_in contents.old)
        { channels = put_among sci (config_in contents.old).channels } }
{
    let is_new = sci != identity.sci() && !contents.has_channel(sci);
    let may_follow = is_new && contents.channels.len() < MAX_CHANNELS;
    if may_follow {
        contents.add_channel(sci);
    }
    may_follow
}

/// Adds a receive association, and returns whether its channel exists, there was no association at
/// its number, and this edition accepts its key.
fn add_rx(contents: &mut Contents, sci: Sci, an: An, sa: RxSa) -> bool
    ensures test { result
        ≡ (has_channel (config_in contents.old) sci && is_none ((config_in contents.old).rx sci an)
        && takes_key this_edition sa.key) }
    ensures added { result ≡ true → config_in contents.new ≡ record (config_in contents.old) {
      rx = put_at (config_in contents.old).rx sci
          (put ((config_in contents.old).rx sci) an (Some sa));
    } }
{
    let is_free = contents.has_channel(sci) && contents.rx(sci, an).is_none();
    let may_follow = is_free && takes_key(sa.key.as_slice());
    if may_follow {
        contents.put_rx(sci, an, Some(sa));
    }
    may_follow
}

/// Adds spent keys of a side, and returns whether they are new and fit.
fn add_spent(contents: &mut Contents, role: Role, fingerprints: &[Fingerprint]) -> bool
    ensures test { result ≡ (are_new (spent_of role (config_in contents.old)) fingerprints.now
        && nat_le (length (spent_of role (config_in contents.old)) + length fingerprints.now)
        max_spent) }
    ensures added { result ≡ true → config_in contents.new
        ≡ config_with_part (config_in contents.old) (Spent role fingerprints.now) }
{
    let may_follow = may_be_spent(spent_of(contents, role), fingerprints);
    if may_follow {
        for fingerprint in fingerprints {
            spend(contents, role, *fingerprint);
        }
    }
    may_follow
}

/// The spent keys of a side.
fn spent_of(contents: &Contents, role: Role) -> &SpentKeys
    ensures { result.now ≡ spent_of role (config_in contents.now) }
{
    match role {
        Role::Transmit => &contents.spent_tx,
        Role::Receive => &contents.spent_rx,
    }
}

/// Adds a spent key of a side.
fn spend(contents: &mut Contents, role: Role, fingerprint: Fingerprint)
    requires { length (spent_of role (config_in contents.old)) < max_spent }
    ensures { config_in contents.new
        ≡ config_with_part (config_in contents.old) (Spent role (fingerprint ∷ [])) }
{
    match role {
        Role::Transmit => contents.spend_tx(fingerprint),
        Role::Receive => contents.spend_rx(fingerprint),
    }
}

/// Whether these fingerprints may be added to those that are spent: they are new, and they fit.
fn may_be_spent(spent: &SpentKeys, fingerprints: &[Fingerprint]) -> bool
    ensures { result ≡ (are_new spent.now fingerprints.now
        && nat_le (length spent.now + length fingerprints.now) max_spent) }
{
    are_new(spent, fingerprints) && spent.len() + fingerprints.len() <= MAX_SPENT
}

/// Whether no fingerprint occurs twice, and none is among those that are spent.
fn are_new(spent: &SpentKeys, fingerprints: &[Fingerprint]) -> bool
    ensures { result ≡ are_new spent.now fingerprints.now }
{
    are_distinct(fingerprints)
        && fingerprints
            .iter()
            .all(|fingerprint| !spent.contains(fingerprint))
}

/// Whether no fingerprint occurs twice.
fn are_distinct(fingerprints: &[Fingerprint]) -> bool
    ensures { result ≡ are_distinct fingerprints.now }
{
    let mut rest = fingerprints;
    while let Some((first, others)) = rest.split_first() {
        if is_spent(others, first) {
            return false;
        }
        rest = others;
    }
    true
}

/// Whether every installed key is spent, the encoding association exists, and an end station's port
/// is 00-01.
fn is_whole(identity: &Identity, contents: &Contents) -> bool
    ensures { result ≡ is_whole identity.now (config_in contents.now) }
{
    are_tx_spent(contents)
        && are_rx_spent(contents)
        && encoding_stands(contents)
        && (contents.mode != SciMode::EndStation || is_port_one(identity.sci()))
}

/// Whether the keys of all transmit associations are spent.
fn are_tx_spent(contents: &Contents) -> bool
    ensures { result ≡ list_all (is_tx_spent (config_in contents.now)) every_an }
{
    let spent = &contents.spent_tx;
    contents.tx.iter().all(|sa| is_tx_spent(spent, sa))
}

/// Whether the key of a transmit association is spent; true if there is none.
fn is_tx_spent(spent: &SpentKeys, sa: &Option<TxSa>) -> bool
    ensures { result
        ≡ option_map_or (λ sa. is_spent spent.now (tx_fingerprint sa.key)) sa.now true }
{
    match sa {
        Some(sa) => spent.contains(&tx_fingerprint(sa.key.as_slice())),
        None => true,
    }
}

/// Whether the keys of all receive associations are spent.
fn are_rx_spent(contents: &Contents) -> bool
    ensures { result ≡ list_all (λ sci. list_all (is_rx_spent (config_in contents.now) sci)
        every_an) (config_in contents.now).channels }
{
    contents
        .channels
        .iter()
        .all(|channel| are_keys_spent(contents, channel.sci))
}

/// Whether the keys of a channel's associations, at the numbers 0 to 3, are spent.
fn are_keys_spent(contents: &Contents, sci: Sci) -> bool
    ensures { result ≡ list_all (is_rx_spent (config_in contents.now) sci) every_an }
{
    An::all().iter().all(|an| is_rx_spent(contents, sci, *an))
}

/// Whether the key of a receive association is spent; true if there is none.
fn is_rx_spent(contents: &Contents, sci: Sci, an: An) -> bool
    ensures { result ≡ is_rx_spent (config_in contents.now) sci an }
{
    match contents.rx(sci, an) {
        Some(sa) => contents
            .spent_rx
            .contains(&rx_fingerprint(sci, sa.key.as_slice())),
        None => true,
    }
}

/// Whether the association that frames are sent under exists; true if none is selected.
fn encoding_stands(contents: &Contents) -> bool
    ensures { result ≡ option_map_or (λ an. is_some ((config_in contents.now).tx an))
        (config_in contents.now).encoding true }
{
    match contents.encoding {
        Some(an) => contents.tx[an.get() as usize].is_some(),
        None => true,
    }
}
