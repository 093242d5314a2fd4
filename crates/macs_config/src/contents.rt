//! The contents of a configuration, and how one command changes them.

use crate::association::{RxSa, TxSa};
use crate::command::{Replay, SciMode, Validate};
use crate::fingerprint::Fingerprint;
use crate::spent_keys::SpentKeys;
use arrayvec::ArrayVec;
use macs_fields::{ASSOCIATIONS, An, Sci};

/// The maximum number of receive channels.
pub const MAX_CHANNELS: usize = 32;

/// A receive channel, with its associations by number.
#[derive(Default, Drop)]
pub(crate) struct Channel {
    pub sci: Sci,
    pub associations: [Option<RxSa>; ASSOCIATIONS],
}

impl Channel {
    ghost use Rattle.std.specs.Prelude.{◌≡◌, ◌≤◌, ℕ, None, get_or};
    ghost use Rattle.macs_config.specs.Tables.{put};

    /// For proofs, does nothing: there is nothing at an association number above 3.
    fn facts(&self)
        ensures { (an : ℕ) → 4 ≤ an → get_or self.now.associations an None ≡ None }
    {
        let associations: &[Option<RxSa>] = &self.associations;
        let _count = associations.len();
    }

    /// The association at a number.
    fn at(&self, an: An) -> Option<RxSa>
        ensures { result ≡ get_or self.now.associations an None }
    {
        self.associations[an.get() as usize]
    }

    /// Sets or removes the association at a number.
    fn put(&mut self, an: An, sa: Option<RxSa>)
        ensures sci { self.new.sci ≡ self.old.sci }
        ensures association { (number : ℕ) → get_or self.new.associations number None
            ≡ put (λ other. get_or self.old.associations other None) an sa number }
    {
        self.associations[an.get() as usize] = sa;
    }
}

/// The contents of a configuration: transmit associations by number, receive channels by ascending
/// SCI, and the fingerprints of spent keys in the order of installation.
#[derive(Drop)]
pub(crate) struct Contents {
    pub validate: Validate,
    pub replay: Replay,
    pub mode: SciMode,
    pub encoding: Option<An>,
    pub tx: [Option<TxSa>; ASSOCIATIONS],
    pub channels: ArrayVec<Channel, MAX_CHANNELS>,
    pub spent_tx: SpentKeys,
    pub spent_rx: SpentKeys,
}

impl Contents {
    ghost use Rattle.std.specs.Prelude.{◌≡◌, ◌<◌, ◌≤◌, ◌++◌, [], ◌∷◌, ℕ, List, length, true, false};
    ghost use Rattle.std.specs.Prelude.{not, None, IfNone, IfSome, take, drop};
    ghost use Rattle.std.specs.List.{filter};
    ghost use Rattle.std.specs.Str.{bytes_eq};
    ghost use Rattle.macs_config.specs.Config.{default, has_channel, max_spent, put_among};
    ghost use Rattle.macs_config.specs.Config.{this_edition};
    ghost use Rattle.macs_config.specs.Places.{IsPlace};
    ghost use Rattle.macs_config.specs.Value.{config_in};
    ghost use Rattle.macs_config.specs.Tables.{put, put_at};

    /// The contents for a newly formatted endpoint.
    pub(crate) fn new() -> Contents
        ensures { config_in result ≡ default }
    {
        Contents {
            validate: Validate::Strict,
            replay: Replay {
                on: true,
                window: 0,
            },
            mode: SciMode::Explicit,
            encoding: None,
            tx: [None; ASSOCIATIONS],
            channels: ArrayVec::new(),
            spent_tx: SpentKeys::new(),
            spent_rx: SpentKeys::new(),
        }
    }

    /// Resets them to those for a newly formatted endpoint.
    pub(crate) fn reset(&mut self)
        ensures { config_in self.new ≡ default }
    {
        self.validate = Validate::Strict;
        self.replay = Replay {
            on: true,
            window: 0,
        };
        self.mode = SciMode::Explicit;
        self.encoding = None;
        let none = [None; ASSOCIATIONS];
        self.tx = none;
        self.channels.clear();
        self.spent_tx.clear();
        self.spent_rx.clear();
    }

    /// For proofs, does nothing: there is nothing at an association number above 3.
    pub(crate) fn facts(&self)
        ensures tx { (an : ℕ) → 4 ≤ an → (config_in self.now).tx an ≡ None }
        ensures rx { (sci : List ℕ) (an : ℕ) → 4 ≤ an → (config_in self.now).rx sci an ≡ None }
    {
        let tx: &[Option<TxSa>] = &self.tx;
        let _count = tx.len();
        for channel in self.channels.iter() {
            channel.facts();
        }
    }

    /// The index of a receive channel among those that exist.
    fn place(&self, sci: Sci) -> Option<usize>
        ensures stands { IfSome result (λ place. IsPlace (config_in self.now).channels sci place) }
        ensures none { IfNone result (has_channel (config_in self.now) sci ≡ false) }
    {
        for (place, channel) in self.channels.iter().enumerate() {
            if channel.sci == sci {
                return Some(place);
            }
        }
        None
    }

    /// Whether a receive channel with that SCI exists.
    pub(crate) fn has_channel(&self, sci: Sci) -> bool
        ensures { result ≡ has_channel (config_in self.now) sci }
    {
        self.place(sci).is_some()
    }

    /// A receive association.
    pub(crate) fn rx(&self, sci: Sci, an: An) -> Option<RxSa>
        ensures { result ≡ (config_in self.now).rx sci an }
    {
        let place = self.place(sci)?;
        self.channels[place].at(an)
    }

    /// Sets or removes the transmit association at a number.
    pub(crate) fn put_tx(&mut self, an: An, sa: Option<TxSa>)
        ensures { config_in self.new
            ≡ record (config_in self.old) { tx = put (config_in self.old).tx an sa } }
    {
        self.tx[an.get() as usize] = sa;
    }

    /// Sets or removes the receive association at a number of an existing channel.
    pub(crate) fn put_rx(&mut self, sci: Sci, an: An, sa: Option<RxSa>)
        requires { has_channel (config_in self.old) sci ≡ true }
        ensures { config_in self.new ≡ record (config_in self.old)
            { rx = put_at (config_in self.old).rx sci (put ((config_in self.old).rx sci) an sa) } }
    {
        if let Some(place) = self.place(sci) {
            self.channels[place].put(an, sa);
        }
    }

    /// Adds a receive channel that does not exist yet.
    pub(crate) fn add_channel(&mut self, sci: Sci)
        requires free { has_channel (config_in self.old) sci ≡ false }
        requires room { length (config_in self.old).channels < this_edition.channels }
        ensures { config_in self.new ≡ record (config_in self.old) {
          channels =
              put_among sci (config_in self.old).channels;
        } }
    {
        let place = self.place_after(sci);
        let associations = [None; ASSOCIATIONS];
        self.channels.insert(place, Channel { sci, associations });
    }

    /// How many of the existing channels come before the first whose SCI is greater.
    fn place_after(&self, sci: Sci) -> usize
        ensures within { result ≤ length (config_in self.now).channels }
        ensures between { put_among sci (config_in self.now).channels ≡
            take result (config_in self.now).channels
            ++ sci ∷ drop result (config_in self.now).channels }
    {
        for (place, channel) in self.channels.iter().enumerate() {
            if sci.get() < channel.sci.get() {
                return place;
            }
        }
        self.channels.len()
    }

    /// Drops a receive channel, with its associations.
    pub(crate) fn drop_channel(&mut self, sci: Sci)
        ensures { config_in self.new ≡ record (config_in self.old) {
          channels = filter (λ other. not (bytes_eq other sci)) (config_in self.old).channels;
          rx = put_at (config_in self.old).rx sci (λ an. None);
        } }
    {
        self.channels.retain(|channel| channel.sci != sci);
    }

    /// Adds a fingerprint to those that are spent on the transmit side.
    pub(crate) fn spend_tx(&mut self, fingerprint: Fingerprint)
        requires { length (config_in self.old).spent_tx < max_spent }
        ensures { config_in self.new ≡ record (config_in self.old) {
          spent_tx =
              (config_in self.old).spent_tx ++ fingerprint ∷ [];
        } }
    {
        self.spent_tx.push(fingerprint);
    }

    /// Adds a fingerprint to those that are spent on the receive side.
    pub(crate) fn spend_rx(&mut self, fingerprint: Fingerprint)
        requires { length (config_in self.old).spent_rx < max_spent }
        ensures { config_in self.new ≡ record (config_in self.old) {
          spent_rx =
              (config_in self.old).spent_rx ++ fingerprint ∷ [];
        } }
    {
        self.spent_rx.push(fingerprint);
    }
}
