//! The standing, as the records of a snapshot, one by one.

ghost use Rattle.std.specs.Prelude.{◌≡◌, ◌≤◌, ◌<◌, ◌+◌, ◌*◌, ◌==◌, [], false, true, IfNone, IfSome};
ghost use Rattle.std.specs.Prelude.{Some, length};
ghost use Rattle.std.specs.List.{slice_get};
ghost use Rattle.macs_config.specs.Config.{spent_of, this_edition};
ghost use Rattle.macs_config.specs.Value.{config_of};
ghost use Rattle.macs_store.specs.Replay.{snapshot_of};
ghost use Rattle.macs_store.specs.Snapshot.{channel_records, fingerprints_at, most_records};
ghost use Rattle.macs_store.specs.Snapshot.{most_spent_records, rx_records, rx_records_at};
ghost use Rattle.macs_store.specs.Snapshot.{rx_records_of};
ghost use Rattle.macs_store.specs.Snapshot.{settings_record, snapshot, spent_records};
ghost use Rattle.macs_store.specs.Snapshot.{spent_records_at, tx_records, tx_records_at};
ghost use Rattle.macs_store.specs.Table.{standing_of, table_ceilings};
ghost use Rattle.macs_store.specs.Snapshot.{new_walk, walk_past, walk_past_all};

use crate::ceiling_table::CeilingTable;
use crate::laws::snapshot_stands_for_itself;
use crate::standing::Standing;
use crate::walk::Walk;
use macs_config::{Config, Fingerprints, MAX_FINGERPRINTS, Role};
use macs_fields::{An, Sci};
use macs_journal::RecordSource;
use macs_record::Record;

/// How many records are needed for the maximum number of spent keys of a side.
const MAX_SPENT_RECORDS: usize = 35;

// The records of a snapshot of the standing. At most one of them exists at a time.
impl RecordSource for Standing {
    ghost listed = { λ s. snapshot (standing_of s) };

    fn count(&self) -> usize {
        self.record_count()
    }

    fn at(&self, place: usize) -> Option<Record> {
        self.record_at(place)
    }
}

impl Standing {
    /// For proofs, does nothing: a snapshot represents the standing it was taken of, in 1 to 235
    /// records.
    pub(crate) fn facts(&self)
        ensures stands { snapshot_of this_edition self.now.config.identity
            (snapshot (standing_of self.now)) ≡ Some (standing_of self.now) }
        ensures some { 1 ≤ length (snapshot (standing_of self.now)) }
        ensures few { length (snapshot (standing_of self.now)) ≤ most_records }
    {
        snapshot_stands_for_itself();
        self.config.facts();
    }

    /// How many records a snapshot of the standing has.
    fn record_count(&self) -> usize
        ensures { result ≡ length (snapshot (standing_of self.now)) }
    {
        let Walk { passed, .. } = self.walk(usize::MAX); // No record has this position.
        passed
    }

    /// The record at a position in a snapshot of the standing, counting from 0; `None` after the
    /// last one.
    fn record_at(&self, place: usize) -> Option<Record>
        ensures { result ≡ slice_get (snapshot (standing_of self.now)) place }
    {
        let Walk { found, .. } = self.walk(place);
        found
    }

    /// Walks over all records of a snapshot of the standing, and keeps the one at a position.
    fn walk(&self, place: usize) -> Walk
        ensures { result ≡ walk_past_all (new_walk place) (snapshot (standing_of self.now)) }
    {
        let scis = self.config.channels();
        let mut walk = Walk::new(place);
        pass_settings(&self.config, &mut walk);
        pass_tx(&self.config, &self.ceilings, &mut walk);
        pass_channels(scis.as_slice(), &mut walk);
        pass_rx(&self.config, &self.ceilings, scis.as_slice(), &mut walk);
        pass_spent(&self.config, Role::Transmit, &mut walk);
        pass_spent(&self.config, Role::Receive, &mut walk);
        walk
    }
}

/// Walks over the settings.
fn pass_settings(config: &Config, walk: &mut Walk)
    requires room { walk.old.passed < most_records }
    ensures walked { walk.new ≡ walk_past walk.old (settings_record (config_of config.now)) }
    ensures few { walk.new.passed ≤ walk.old.passed + 1 }
{
    walk.pass(Record::Settings {
        validate: config.validate(),
        replay: config.replay(),
        sci_mode: config.sci_mode(),
        encoding: config.encoding(),
    });
}

/// Walks over the transmit associations, by number.
fn pass_tx(config: &Config, ceilings: &CeilingTable, walk: &mut Walk)
    requires room { walk.old.passed + 4 ≤ most_records }
    ensures walked { walk.new
        ≡ walk_past_all walk.old (tx_records (config_of config.now) (table_ceilings ceilings.now)) }
    ensures few { walk.new.passed ≤ walk.old.passed + 4 }
{
    for an in An::all() {
        pass_tx_at(config, ceilings, an, walk);
    }
}

/// Walks over the transmit association at a number, if there is one.
fn pass_tx_at(config: &Config, ceilings: &CeilingTable, an: An, walk: &mut Walk)
    requires room { walk.old.passed < most_records }
    ensures walked { walk.new ≡ walk_past_all walk.old
        (tx_records_at (config_of config.now) (table_ceilings ceilings.now) an) }
    ensures few { walk.new.passed ≤ walk.old.passed + 1 }
{
    if let Some(sa) = config.tx(an) {
        if let Some(ceiling) = ceilings.tx(an) {
            walk.pass(Record::TxSa { an, sa, ceiling });
        }
    }
}

/// Walks over receive channels.
fn pass_channels(scis: &[Sci], walk: &mut Walk)
    requires fit { length scis.now ≤ 32 }
    requires room { walk.old.passed + 32 ≤ most_records }
    ensures walked { walk.new ≡ walk_past_all walk.old (channel_records scis.now) }
    ensures few { walk.new.passed ≤ walk.old.passed + 32 }
{
    for sci in scis {
        walk.pass(Record::Channel { sci: *sci });
    }
}

/// Walks over the receive associations of all channels, in channel order.
fn pass_rx(config: &Config, ceilings: &CeilingTable, scis: &[Sci], walk: &mut Walk)
    requires channels { scis.now ≡ (config_of config.now).channels }
    requires fit { length scis.now ≤ 32 }
    requires room { walk.old.passed + 128 ≤ most_records }
    ensures walked { walk.new
        ≡ walk_past_all walk.old (rx_records (config_of config.now) (table_ceilings ceilings.now)) }
    ensures few { walk.new.passed ≤ walk.old.passed + 128 }
{
    for sci in scis {
        pass_rx_of(config, ceilings, *sci, walk);
    }
}

/// Walks over the receive associations of a channel, by number.
fn pass_rx_of(config: &Config, ceilings: &CeilingTable, sci: Sci, walk: &mut Walk)
    requires room { walk.old.passed + 4 ≤ most_records }
    ensures walked { walk.new ≡ walk_past_all walk.old
        (rx_records_of (config_of config.now) (table_ceilings ceilings.now) sci) }
    ensures few { walk.new.passed ≤ walk.old.passed + 4 }
{
    for an in An::all() {
        pass_rx_at(config, ceilings, sci, an, walk);
    }
}

/// Walks over the receive association at a number, if there is one.
fn pass_rx_at(config: &Config, ceilings: &CeilingTable, sci: Sci, an: An, walk: &mut Walk)
    requires room { walk.old.passed < most_records }
    ensures walked { walk.new ≡ walk_past_all walk.old
        (rx_records_at (config_of config.now) (table_ceilings ceilings.now) sci an) }
    ensures few { walk.new.passed ≤ walk.old.passed + 1 }
{
    if let Some(sa) = config.rx(sci, an) {
        if let Some(ceiling) = ceilings.rx(sci, an) {
            walk.pass(Record::RxSa {
                sci,
                an,
                sa,
                ceiling,
            });
        }
    }
}

/// Walks over the spent keys of a side, in the order of installation.
fn pass_spent(config: &Config, role: Role, walk: &mut Walk)
    requires room { walk.old.passed + 35 ≤ most_records }
    ensures walked { walk.new
        ≡ walk_past_all walk.old (spent_records role (spent_of role (config_of config.now))) }
    ensures few { walk.new.passed ≤ walk.old.passed + 35 }
{
    for place in 0..MAX_SPENT_RECORDS {
        pass_spent_at(config, role, place, walk);
    }
}

/// Walks over a side's record of spent keys at a position, if there is one. The record is made only
/// if it is the wanted one, otherwise counted.
fn pass_spent_at(config: &Config, role: Role, place: usize, walk: &mut Walk)
    requires within { place < most_spent_records }
    requires room { walk.old.passed < most_records }
    ensures walked { walk.new ≡ walk_past_all walk.old
        (spent_records_at role (spent_of role (config_of config.now)) place) }
    ensures few { walk.new.passed ≤ walk.old.passed + 1 }
{
    if walk.is_here() {
        pass_fingerprints(config, role, place, walk)
    } else {
        pass_over_fingerprints(config, role, place, walk)
    }
}

/// Walks over the record of the fingerprints at a position, if there are any.
fn pass_fingerprints(config: &Config, role: Role, place: usize, walk: &mut Walk)
    requires within { place < most_spent_records }
    requires room { walk.old.passed < most_records }
    ensures walked { walk.new ≡ walk_past_all walk.old
        (spent_records_at role (spent_of role (config_of config.now)) place) }
    ensures few { walk.new.passed ≤ walk.old.passed + 1 }
{
    if let Some(fingerprints) = fingerprints_at(config, role, place) {
        walk.pass(Record::Spent { role, fingerprints });
    }
}

/// Walks over the record of the fingerprints at a position, if there are any, which is not the
/// wanted one.
fn pass_over_fingerprints(config: &Config, role: Role, place: usize, walk: &mut Walk)
    requires within { place < most_spent_records }
    requires room { walk.old.passed < most_records }
    requires other { (walk.old.passed == walk.old.place) ≡ false }
    ensures walked { walk.new ≡ walk_past_all walk.old
        (spent_records_at role (spent_of role (config_of config.now)) place) }
    ensures few { walk.new.passed ≤ walk.old.passed + 1 }
{
    if has_fingerprints(config, role, place) {
        walk.pass_over();
    }
}

/// Whether a side's record at a position has fingerprints.
fn has_fingerprints(config: &Config, role: Role, place: usize) -> bool
    requires within { place < most_spent_records }
    ensures some { result ≡ true
        → 1 ≤ length (fingerprints_at (spent_of role (config_of config.now)) place) }
    ensures none { result ≡ false
        → fingerprints_at (spent_of role (config_of config.now)) place ≡ [] }
{
    config.spent_at(role, MAX_FINGERPRINTS * place).is_some()
}

/// The fingerprints of a side's record at a position, 15 except in the last; `None` if there are
/// none.
fn fingerprints_at(config: &Config, role: Role, place: usize) -> Option<Fingerprints>
    requires within { place < most_spent_records }
    ensures some { IfSome result (λ fingerprints.
        (fingerprints ≡ fingerprints_at (spent_of role (config_of config.now)) place)
        × (1 ≤ length fingerprints)) }
    ensures none { IfNone result
        (fingerprints_at (spent_of role (config_of config.now)) place ≡ []) }
{
    let start = MAX_FINGERPRINTS * place;
    let Some(first) = config.spent_at(role, start) else {
        return None;
    };
    let mut fingerprints = Fingerprints::new(first);
    for more in 1..MAX_FINGERPRINTS {
        if let Some(fingerprint) = config.spent_at(role, start + more) {
            fingerprints.push(fingerprint);
        }
    }
    Some(fingerprints)
}
