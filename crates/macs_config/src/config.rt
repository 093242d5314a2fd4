//! The configuration.

ghost use Rattle.std.specs.Prelude.{◌≡◌, ◌≤◌, ◌↔◌, ℕ, List, false, if◌then◌else◌, length};
ghost use Rattle.std.specs.Prelude.{slice_get, IfSome, None, Some, Ok, Err, IfOk, OnOk, OnErr};
ghost use Rattle.std.specs.Option.{option_map};
ghost use Rattle.macs_aes.specs.Keys.{octets_of_key};
ghost use Rattle.macs_config.specs.Apply.{Named, answer_or_refusal, apply, refusal_of, with_reason};
ghost use Rattle.macs_config.specs.Config.{IsConfig, default, has_channel, is_spent};
ghost use Rattle.macs_config.specs.Config.{rx_fingerprint, spent_of, this_edition, tx_fingerprint};
ghost use Rattle.macs_config.specs.Judged.{rx_install, tx_install};
ghost use Rattle.macs_config.specs.Snapshot.{config_of_listed, config_of_parts};
ghost use Rattle.macs_config.specs.Value.{config_of};

use crate::association::{RxSa, TxSa};
use crate::change::change;
use crate::check::{check, check_rx, check_tx};
use crate::checked::Checked;
use crate::command::{Command, Replay, Role, SciMode, Validate};
use crate::contents::{Contents, MAX_CHANNELS};
use crate::fingerprint::{Fingerprint, rx_fingerprint, tx_fingerprint};
use crate::identity::Identity;
use crate::part::Part;
use crate::part_source::PartSource;
use crate::refusal::Refusal;
use crate::restore::restore;
use arrayvec::ArrayVec;
use macs_aes::Key;
use macs_fields::{An, Pn, Sci};
use std::marker::Model;

/// The configuration of an endpoint: the result of its operator's commands, and which keys are
/// spent. It holds no packet number.
#[derive(Drop)]
pub struct Config {
    identity: Identity,
    contents: Contents,
}

impl Model for Config {
    ghost use Rattle.macs_config.specs.Value.{ConfigValue, config_in};
    ghost use Rattle.macs_config.specs.Config.{IsConfig, this_edition};

    ghost Value = { ConfigValue };

    ghost view = { λ c. record { identity = c.identity; contents = c.contents } };

    ghost invariant = { λ c. IsConfig this_edition c.identity (config_in c.contents) };
}

impl Config {
    /// The configuration of a newly formatted endpoint: strict validation, replay protection with
    /// window 0, explicit SCIs, no association and no channel, and no key spent.
    pub fn new(identity: &Identity) -> Config
        ensures identity { result.identity ≡ identity.now }
        ensures default { config_of result ≡ default }
    {
        Config {
            identity: *identity,
            contents: Contents::new(),
        }
    }

    /// The configuration that the parts of a snapshot make up. `None` if they are not in a
    /// snapshot's order, with settings once; an association, a channel or, on one side, a
    /// fingerprint occurs twice; a channel is the endpoint's own SCI, or there are more than 32;
    /// more than 512 keys are spent on a side; a receive association has no channel; an installed
    /// key is not spent; the encoding association does not exist; or the mode is that of an end
    /// station, and the port of the endpoint's SCI is not 00-01.
    pub fn restore(identity: &Identity, parts: &[Part]) -> Option<Config>
        ensures restored { option_map config_of result
            ≡ config_of_parts this_edition identity.now parts.now }
        ensures identity { IfSome result (λ config. config.identity ≡ identity.now) }
    {
        let mut config = Config::new(identity);
        if config.restore_from(&parts) {
            Some(config)
        } else {
            None
        }
    }

    /// Replaces itself, in place, by the configuration that the parts of a snapshot make up under
    /// its identity, and returns whether there is one. If a position has no part, or `restore`
    /// refuses the parts, it is then the configuration of a newly formatted endpoint.
    pub fn restore_from<P: PartSource>(&mut self, parts: &P) -> bool
        ensures restored { config_of_listed this_edition self.old.identity (P.listed parts.now)
            ≡ (if result then Some (config_of self.new) else None) }
        ensures refused { result ≡ false → config_of self.new ≡ default }
        ensures identity { self.new.identity ≡ self.old.identity }
    {
        let is_restored = restore(&self.identity, &mut self.contents, parts);
        if !is_restored {
            self.contents.reset();
        }
        is_restored
    }

    /// The verdict on a command that may be applied, or the first refusal in the order of
    /// `Refusal`. An install's key is hashed here, and nowhere later.
    pub fn check(&self, command: &Command) -> Result<Checked, Refusal>
        ensures refused { (refusal : Refusal) → (result ≡ Err refusal)
            ↔ (refusal_of this_edition self.now.identity (config_of self.now) command.now
            ≡ Some (Named refusal)) }
        ensures fits { OnOk result
            (refusal_of this_edition self.now.identity (config_of self.now) command.now ≡ None) }
        ensures checked { IfOk result (λ checked. checked ≡ command.now) }
    {
        check(&self.contents, &self.identity, command)
    }

    /// The verdict of `check` on the command that installs this transmit association.
    pub fn check_tx(&self, an: An, sa: TxSa, start: Pn) -> Result<Checked, Refusal>
        ensures { with_reason result
            ≡ answer_or_refusal (refusal_of this_edition self.now.identity (config_of self.now)
            (tx_install an sa start)) (tx_install an sa start) }
    {
        check_tx(&self.contents, an, sa, start)
    }

    /// The verdict of `check` on the command that installs this receive association.
    pub fn check_rx(&self, sci: Sci, an: An, sa: RxSa, start: Pn) -> Result<Checked, Refusal>
        ensures { with_reason result
            ≡ answer_or_refusal (refusal_of this_edition self.now.identity (config_of self.now)
            (rx_install sci an sa start)) (rx_install sci an sa start) }
    {
        check_rx(&self.contents, sci, an, sa, start)
    }

    /// Applies a command that this configuration does not refuse, with the verdict of its check.
    pub fn apply_checked(&mut self, checked: &Checked)
        requires { refusal_of this_edition self.old.identity (config_of self.old)
            checked.now ≡ None }
        ensures applied { apply this_edition self.old.identity (config_of self.old) checked.now
            ≡ Ok (config_of self.new) }
        ensures identity { self.new.identity ≡ self.old.identity }
    {
        change(&mut self.contents, checked.judged());
    }

    /// Applies a command. A refusal, the first in the order of `Refusal`, changes nothing.
    pub fn apply(&mut self, command: &Command) -> Result<(), Refusal>
        ensures applied { OnOk result
            (apply this_edition self.old.identity (config_of self.old) command.now
            ≡ Ok (config_of self.new)) }
        ensures refused { (refusal : Refusal) → (result ≡ Err refusal)
            ↔ (apply this_edition self.old.identity (config_of self.old) command.now
            ≡ Err (Named refusal)) }
        ensures identity { self.new.identity ≡ self.old.identity }
        ensures same { OnErr result (self.new ≡ self.old) }
    {
        let checked = self.check(command)?;
        self.apply_checked(&checked);
        Ok(())
    }

    /// For proofs, does nothing: what holds of every configuration; and there is nothing at an
    /// association number above 3.
    pub fn facts(&self)
        ensures config { IsConfig this_edition self.now.identity (config_of self.now) }
        ensures tx_numbers { (an : ℕ) → 4 ≤ an → (config_of self.now).tx an ≡ None }
        ensures rx_numbers { (sci : List ℕ) (an : ℕ) → 4 ≤ an
            → (config_of self.now).rx sci an ≡ None }
    {
        self.contents.facts();
    }

    /// The identity that it was made with.
    pub fn identity(&self) -> Identity
        ensures { result ≡ self.now.identity }
    {
        self.identity
    }

    /// What is done with received frames that are not verified.
    pub fn validate(&self) -> Validate
        ensures { result ≡ (config_of self.now).validate }
    {
        self.contents.validate
    }

    /// Whether replay protection is on, and its window.
    pub fn replay(&self) -> Replay
        ensures { result ≡ (config_of self.now).replay }
    {
        self.contents.replay
    }

    /// How transmitted frames name the channel.
    pub fn sci_mode(&self) -> SciMode
        ensures { result ≡ (config_of self.now).mode }
    {
        self.contents.mode
    }

    /// The number of the association that frames are sent under.
    pub fn encoding(&self) -> Option<An>
        ensures { result ≡ (config_of self.now).encoding }
    {
        self.contents.encoding
    }

    /// A transmit association, `None` if there is none at that number.
    pub fn tx(&self, an: An) -> Option<TxSa>
        ensures { result ≡ (config_of self.now).tx an }
    {
        self.contents.tx[an.get() as usize]
    }

    /// Whether a receive channel with that SCI exists.
    pub fn has_channel(&self, sci: Sci) -> bool
        ensures { result ≡ has_channel (config_of self.now) sci }
    {
        self.contents.has_channel(sci)
    }

    /// The SCIs of the receive channels, ascending.
    pub fn channels(&self) -> ArrayVec<Sci, MAX_CHANNELS>
        ensures { result.items ≡ (config_of self.now).channels }
    {
        let mut scis = ArrayVec::new();
        for channel in self.contents.channels.iter() {
            scis.push(channel.sci);
        }
        scis
    }

    /// A receive association, `None` if there is none at that number of that channel.
    pub fn rx(&self, sci: Sci, an: An) -> Option<RxSa>
        ensures { result ≡ (config_of self.now).rx sci an }
    {
        self.contents.rx(sci, an)
    }

    /// How many keys are spent on the transmit side, at most 512.
    pub fn spent_tx(&self) -> usize
        ensures { result ≡ length (config_of self.now).spent_tx }
    {
        self.contents.spent_tx.len()
    }

    /// How many keys are spent on the receive side, at most 512.
    pub fn spent_rx(&self) -> usize
        ensures { result ≡ length (config_of self.now).spent_rx }
    {
        self.contents.spent_rx.len()
    }

    /// Whether a key is spent on the transmit side.
    pub fn is_spent_tx(&self, key: &Key) -> bool
        ensures { result
            ≡ is_spent (config_of self.now).spent_tx (tx_fingerprint (octets_of_key key.now)) }
    {
        let fingerprint = tx_fingerprint(key.as_slice());
        self.contents.spent_tx.contains(&fingerprint)
    }

    /// Whether a key is spent for an SCI on the receive side.
    pub fn is_spent_rx(&self, sci: Sci, key: &Key) -> bool
        ensures { result
            ≡ is_spent (config_of self.now).spent_rx (rx_fingerprint sci (octets_of_key key.now)) }
    {
        let fingerprint = rx_fingerprint(sci, key.as_slice());
        self.contents.spent_rx.contains(&fingerprint)
    }

    /// The fingerprint of the key that was spent at this index in the order of installation,
    /// counting from 0; `None` if fewer are spent on that side.
    pub fn spent_at(&self, role: Role, at: usize) -> Option<Fingerprint>
        ensures { result ≡ slice_get (spent_of role (config_of self.now)) at }
    {
        match role {
            Role::Transmit => self.contents.spent_tx.get(at),
            Role::Receive => self.contents.spent_rx.get(at),
        }
    }
}
