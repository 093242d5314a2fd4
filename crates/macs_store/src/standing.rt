//! The meaning of a journal's records.

ghost use Rattle.std.specs.Prelude.{◌≡◌, ◌≤◌, ◌↔◌, List, true, false, if◌then◌else◌, Some, None};
ghost use Rattle.std.specs.Prelude.{IfSome, IsSome, Ok, Err, IsOk, IfOk, OnOk, length};
ghost use Rattle.macs_config.specs.Apply.{Named, apply};
ghost use Rattle.macs_config.specs.Config as spec;
ghost use Rattle.macs_config.specs.Config.{this_edition};
ghost use Rattle.macs_config.specs.Judged.{asked_by};
ghost use Rattle.macs_config.specs.Snapshot.{config_of_parts};
ghost use Rattle.macs_config.specs.Value.{config_of};
ghost use Rattle.macs_config.specs.declared.part.Part.{Part};
ghost use Rattle.macs_store.specs.Commands.{command_of};
ghost use Rattle.macs_store.specs.UnderWay.{record_kept};
ghost use Rattle.macs_store.specs.Replay.{standing_after_command, standing_after_record};
ghost use Rattle.macs_store.specs.Replay.{standing_after_records, snapshot_parts, all_belong};
ghost use Rattle.macs_store.specs.Replay.{is_long_kind, reading_of, reads, replay_of, is_raise};
ghost use Rattle.macs_store.specs.Replay.{snapshot_of, ceilings_with_records};
ghost use Rattle.macs_store.specs.Standing.{IsStanding, accept, ceilings_after, new_standing};
ghost use Rattle.macs_store.specs.Standing.{no_ceilings, standing_with_rx_ceiling};
ghost use Rattle.macs_store.specs.Standing.{standing_with_tx_ceiling};
ghost use Rattle.macs_store.specs.Table.{StandingValue, table_ceilings, table_scis, standing_of};

use crate::ahead::ahead;
use crate::ceiling_table::CeilingTable;
use crate::meaning::{Snapshot, plain_command_of};
use crate::under_way::Kept;
use macs_config::{Checked, Command, Config, Identity, Judged, Refusal};
use macs_fields::{An, Sci};
use macs_record::{Ceiling, Format, Kind, Record};
use std::marker::Model;

/// What an endpoint continues from: its configuration, and the ceilings of its packet numbers.
#[derive(Drop)]
pub struct Standing {
    pub(crate) config: Config,
    pub(crate) ceilings: CeilingTable,
}

impl Model for Standing {
    ghost Value = { StandingValue };

    ghost view = { λ s. record { config = s.config; table = s.ceilings } };

    ghost invariant = { λ s.
        IsStanding (standing_of (record { config = s.config; table = s.ceilings }))
        × (table_scis s.ceilings ≡ (config_of s.config).channels) };
}

/// Whether this edition reads an area of this format.
fn is_read(format: Format) -> bool
    ensures { result ≡ reads this_edition format }
{
    match format {
        Format::One => true,
        Format::Two => true,
    }
}

/// Whether an area of this format may have records of these kinds: those with long keys require
/// format two.
fn all_belong(format: Format, records: &[Record]) -> bool
    ensures { result ≡ all_belong format records.now }
{
    match format {
        Format::One => records.iter().all(|value| !is_long_kind(value.kind())),
        Format::Two => true,
    }
}

/// Whether a kind is one of the four with long keys.
fn is_long_kind(kind: Kind) -> bool
    ensures { result ≡ is_long_kind kind }
{
    match kind {
        Kind::TxSaLong | Kind::RxSaLong | Kind::TxInstallLong | Kind::RxInstallLong => true,
        _ => false,
    }
}

impl Standing {
    /// The standing on a newly formatted disk.
    pub(crate) fn new(identity: &Identity) -> Standing
        ensures { standing_of result ≡ new_standing this_edition identity.now }
    {
        Standing {
            config: Config::new(identity),
            ceilings: CeilingTable::new(),
        }
    }

    /// Replaces itself, in place, by the standing that the records of an area of this format
    /// represent under its identity, those of the snapshot first, and returns whether there is one.
    /// If they are refused, one is of a kind that the format does not have, or this edition does
    /// not read the format, the resulting value is not specified.
    pub(crate) fn read(&mut self, format: Format, count: usize, records: &[Record]) -> bool
        requires { count ≤ length records.now }
        ensures { reading_of this_edition format (standing_of self.old).identity count records.now
            ≡ (if result then Some (standing_of self.new) else None) }
    {
        is_read(format) && all_belong(format, records) && self.replay(count, records)
    }

    /// Replaces itself, in place, by the standing that the records of a snapshot, and then those
    /// after it, represent under its identity, and returns whether there is one; if they are
    /// refused, the resulting value is not specified.
    #[inline(never)]
    fn replay(&mut self, count: usize, records: &[Record]) -> bool
        requires { count ≤ length records.now }
        ensures { replay_of this_edition (standing_of self.old).identity count records.now
            ≡ (if result then Some (standing_of self.new) else None) }
    {
        let (snapshot, later) = records.split_at(count);
        self.restore(snapshot) && self.replay_records(later)
    }

    /// Replaces itself by the standing that a snapshot represents under its identity, and returns
    /// whether there is one.
    fn restore(&mut self, records: &[Record]) -> bool
        ensures { snapshot_of this_edition (standing_of self.old).identity records.now
            ≡ (if result then Some (standing_of self.new) else None) }
    {
        if !self.config.restore_from(&Snapshot { records }) {
            self.ceilings = CeilingTable::new();
            return false;
        }
        self.ceilings = ceilings_in(&self.config, records);
        true
    }

    /// Replays the records after a snapshot, and returns whether each of them fits.
    fn replay_records(&mut self, records: &[Record]) -> bool
        ensures { standing_after_records (standing_of self.old) records.now
            ≡ (if result then Some (standing_of self.new) else None) }
    {
        for value in records {
            if !self.replay_record(value) {
                return false;
            }
        }
        true
    }

    /// Replays the record of a command or of a raised ceiling, and returns whether it fits.
    pub(crate) fn replay_record(&mut self, value: &Record) -> bool
        ensures fits { result ≡ true
            → standing_after_record (standing_of self.old) value.now ≡ Some (standing_of self.new) }
        ensures refused { result ≡ false
            → standing_after_record (standing_of self.old) value.now ≡ None }
    {
        match value {
            Record::TxCeiling { an, ceiling } => self.replay_tx(*an, *ceiling),
            Record::RxCeiling { sci, an, ceiling } => self.replay_rx(*sci, *an, *ceiling),
            _ => match self.judge(value) {
                Some(checked) => {
                    self.accept_checked(&checked);
                    true
                }
                None => false,
            },
        }
    }

    /// The verdict on the command that a record keeps; `None` if it keeps none, or if the
    /// configuration refuses the command.
    fn judge(&self, value: &Record) -> Option<Checked>
        ensures fits { IfSome result (λ command. (command_of value.now ≡ Some command)
            × IsOk (accept (standing_of self.now) command)) }
        ensures refused { result ≡ None
            → standing_after_command (standing_of self.now) (command_of value.now) ≡ None }
    {
        match value {
            Record::TxInstall { an, sa, start } => self.config.check_tx(*an, *sa, *start).ok(),
            Record::RxInstall { sci, an, sa, start } => {
                self.config.check_rx(*sci, *an, *sa, *start).ok()
            }
            _ => self.config.check(&plain_command_of(value)?).ok(),
        }
    }

    /// Applies what a record keeps that follows from the standing: a command with the verdict of
    /// its check, or a raised ceiling.
    pub(crate) fn keep(&mut self, kept: &Kept)
        requires follows { IsSome (standing_after_record (standing_of self.old)
            (record_kept kept.now)) }
        ensures { standing_after_record (standing_of self.old) (record_kept kept.now)
            ≡ Some (standing_of self.new) }
    {
        match kept {
            Kept::Command(checked) => {
                let _judged = checked.judged(); // Its offset is one of the three.
                self.accept_checked(checked);
            }
            Kept::TxCeiling { an, ceiling } => {
                self.replay_tx(*an, *ceiling);
            }
            Kept::RxCeiling { sci, an, ceiling } => {
                self.replay_rx(*sci, *an, *ceiling);
            }
        }
    }

    /// Replays a raised ceiling of a transmit association, and returns whether it is higher.
    fn replay_tx(&mut self, an: An, ceiling: Ceiling) -> bool
        ensures fits { result ≡ is_raise ((standing_of self.old).ceilings.tx an) ceiling }
        ensures raised { result ≡ true
            → standing_of self.new ≡ standing_with_tx_ceiling (standing_of self.old) an ceiling }
    {
        let is_raised = rises(self.ceilings.tx(an), ceiling);
        if is_raised {
            self.raise_tx(an, ceiling);
        }
        is_raised
    }

    /// Replays a raised ceiling of a receive association, and returns whether it is higher.
    fn replay_rx(&mut self, sci: Sci, an: An, ceiling: Ceiling) -> bool
        ensures fits { result ≡ is_raise ((standing_of self.old).ceilings.rx sci an) ceiling }
        ensures raised { result ≡ true → standing_of self.new
            ≡ standing_with_rx_ceiling (standing_of self.old) sci an ceiling }
    {
        let is_raised = rises(self.ceilings.rx(sci, an), ceiling);
        if is_raised {
            self.raise_rx(sci, an, ceiling);
        }
        is_raised
    }

    /// Raises the ceiling of an existing transmit association.
    pub(crate) fn raise_tx(&mut self, an: An, ceiling: Ceiling)
        requires stands { IsSome ((standing_of self.old).ceilings.tx an) }
        ensures { standing_of self.new
            ≡ standing_with_tx_ceiling (standing_of self.old) an ceiling }
    {
        self.ceilings.put_tx(an, Some(ceiling));
    }

    /// Raises the ceiling of an existing receive association.
    pub(crate) fn raise_rx(&mut self, sci: Sci, an: An, ceiling: Ceiling)
        requires stands { IsSome ((standing_of self.old).ceilings.rx sci an) }
        ensures { standing_of self.new
            ≡ standing_with_rx_ceiling (standing_of self.old) sci an ceiling }
    {
        self.ceilings.put_rx(sci, an, Some(ceiling));
    }

    /// The verdict on a command that fits the configuration, or the first refusal in the order of
    /// `Refusal`.
    pub(crate) fn check(&self, command: &Command) -> Result<Checked, Refusal>
        ensures fits { OnOk result (IsOk (accept (standing_of self.now) command.now)) }
        ensures checked { IfOk result (λ checked. checked ≡ command.now) }
        ensures refused { (refusal : Refusal) → (result ≡ Err refusal)
            ↔ (accept (standing_of self.now) command.now ≡ Err (Named refusal)) }
    {
        self.config.check(command)
    }

    /// Applies a command that fits the configuration, with the verdict of its check.
    fn accept_checked(&mut self, checked: &Checked)
        requires { IsOk (accept (standing_of self.old) checked.now) }
        ensures { accept (standing_of self.old) checked.now ≡ Ok (standing_of self.new) }
    {
        self.config.apply_checked(checked);
        adjust(&self.config, &mut self.ceilings, checked.judged());
    }
}

/// The ceilings in a snapshot with this configuration.
fn ceilings_in(config: &Config, records: &[Record]) -> CeilingTable
    requires restored { (parts : List Part) × (snapshot_parts records.now ≡ Some parts)
        × (config_of_parts this_edition config.now.identity parts ≡ Some (config_of config.now)) }
    ensures ceilings { table_ceilings result ≡ ceilings_with_records no_ceilings records.now }
    ensures channels { table_scis result ≡ (config_of config.now).channels }
{
    let mut ceilings = CeilingTable::new();
    ceilings.keep(config.channels().as_slice());
    for value in records {
        match value {
            Record::TxSa { an, ceiling, .. } => ceilings.put_tx(*an, Some(*ceiling)),
            Record::RxSa {
                sci,
                an,
                ceiling,
                ..
            } => ceilings.put_rx(*sci, *an, Some(*ceiling)),
            _ => {}
        }
    }
    ceilings
}

/// Changes the ceilings after a command that led to this configuration.
fn adjust(config: &Config, ceilings: &mut CeilingTable, judged: &Judged)
    requires { (old : spec.Config) × (table_scis ceilings.old ≡ old.channels)
        × (apply this_edition config.now.identity old (asked_by judged.now)
        ≡ Ok (config_of config.now)) }
    ensures ceilings { table_ceilings ceilings.new
        ≡ ceilings_after config.now.identity (asked_by judged.now) (table_ceilings ceilings.old) }
    ensures channels { table_scis ceilings.new ≡ (config_of config.now).channels }
{
    match *judged {
        Judged::SetValidate(_)
        | Judged::SetReplay { .. }
        | Judged::SetSciMode(_)
        | Judged::TxUse { .. } => {}
        Judged::TxInstall { an, start, .. } => {
            let ceiling = ahead(u64::from(start.get()), config.identity().tx_block());
            ceilings.put_tx(an, Some(ceiling));
        }
        Judged::TxRemove { an } => ceilings.put_tx(an, None),
        Judged::RxAdd { .. } | Judged::RxDrop { .. } => {
            ceilings.keep(config.channels().as_slice());
        }
        Judged::RxInstall { sci, an, start, .. } => {
            ceilings.put_rx(sci, an, Some(ahead(u64::from(start.get()), 0)));
        }
        Judged::RxRemove { sci, an } => ceilings.put_rx(sci, an, None),
    }
}

/// Whether a ceiling is greater than the present one.
fn rises(old: Option<Ceiling>, ceiling: Ceiling) -> bool
    ensures { result ≡ is_raise old ceiling }
{
    match old {
        Some(old) => old.get() < ceiling.get(),
        None => false,
    }
}
