//! The ceilings of associations.

ghost use Rattle.std.specs.Prelude.{◌≡◌, ◌≤◌, [], ℕ, None, true, if◌then◌else◌, get_or, length};
ghost use Rattle.std.specs.Prelude.{position};
ghost use Rattle.std.specs.Str.{bytes_eq};
ghost use Rattle.macs_config.specs.Config.{is_among};
ghost use Rattle.macs_config.specs.Tables.{put};
ghost use Rattle.macs_store.specs.Standing.{no_ceilings, ceilings_with_rx, ceilings_with_tx};
ghost use Rattle.macs_store.specs.Table.{table_ceilings, table_scis};
ghost use Rattle.macs_store.specs.declared.ceiling_table.ChannelCeilings.{ChannelCeilings};

use arrayvec::ArrayVec;
use macs_config::MAX_CHANNELS;
use macs_fields::{ASSOCIATIONS, An, Sci};
use macs_record::Ceiling;

/// The ceilings of a receive channel's associations, by number.
#[derive(Default, Drop)]
pub struct ChannelCeilings {
    pub sci: Sci,
    pub ceilings: [Option<Ceiling>; ASSOCIATIONS],
}

impl ChannelCeilings {
    /// The ceilings, by association number.
    fn all(&self) -> [Option<Ceiling>; ASSOCIATIONS]
        ensures { result ≡ self.now.ceilings }
    {
        let [first, second, third, fourth] = &self.ceilings;
        [*first, *second, *third, *fourth]
    }

    /// Sets or removes the ceiling of an association.
    fn put(&mut self, an: An, ceiling: Option<Ceiling>)
        ensures sci { self.new.sci ≡ self.old.sci }
        ensures ceiling { (number : ℕ) → get_or self.new.ceilings number None
            ≡ put (λ other. get_or self.old.ceilings other None) an ceiling number }
    {
        self.ceilings[an.get() as usize] = ceiling;
    }
}

/// The index of the channel with an SCI, `None` if there is none.
fn place(channels: &[ChannelCeilings], sci: Sci) -> Option<usize>
    ensures { result
        ≡ position (λ (channel : ChannelCeilings). bytes_eq channel.sci sci) channels.now }
{
    channels.iter().position(|channel| channel.sci == sci)
}

/// The ceilings of transmit associations, by number, and those of the receive channels that exist,
/// by ascending SCI.
#[derive(Drop)]
pub struct CeilingTable {
    pub tx: [Option<Ceiling>; ASSOCIATIONS],
    pub channels: ArrayVec<ChannelCeilings, MAX_CHANNELS>,
}

impl CeilingTable {
    /// No ceilings, and no channels.
    pub(crate) fn new() -> CeilingTable
        ensures none { table_ceilings result ≡ no_ceilings }
        ensures channels { table_scis result ≡ [] }
    {
        CeilingTable {
            tx: [None; ASSOCIATIONS],
            channels: ArrayVec::new(),
        }
    }

    /// The ceiling of a transmit association.
    pub(crate) fn tx(&self, an: An) -> Option<Ceiling>
        ensures { result ≡ (table_ceilings self.now).tx an }
    {
        self.tx[an.get() as usize]
    }

    /// The ceiling of a receive association.
    pub(crate) fn rx(&self, sci: Sci, an: An) -> Option<Ceiling>
        ensures { result ≡ (table_ceilings self.now).rx sci an }
    {
        self.of_channel(sci)[an.get() as usize]
    }

    /// The ceilings of a channel's associations.
    fn of_channel(&self, sci: Sci) -> [Option<Ceiling>; ASSOCIATIONS]
        ensures { (an : ℕ) → get_or result an None ≡ (table_ceilings self.now).rx sci an }
    {
        match place(self.channels.as_slice(), sci) {
            Some(place) => self.channels[place].all(),
            None => [None; ASSOCIATIONS],
        }
    }

    /// Sets or removes a ceiling of a transmit association.
    pub(crate) fn put_tx(&mut self, an: An, ceiling: Option<Ceiling>)
        ensures put { table_ceilings self.new
            ≡ ceilings_with_tx (table_ceilings self.old) an ceiling }
        ensures channels { table_scis self.new ≡ table_scis self.old }
    {
        self.tx[an.get() as usize] = ceiling;
    }

    /// Sets or removes a ceiling of a receive association, in an existing channel.
    pub(crate) fn put_rx(&mut self, sci: Sci, an: An, ceiling: Option<Ceiling>)
        requires { is_among (table_scis self.old) sci ≡ true }
        ensures put { table_ceilings self.new
            ≡ ceilings_with_rx (table_ceilings self.old) sci an ceiling }
        ensures channels { table_scis self.new ≡ table_scis self.old }
    {
        if let Some(place) = place(self.channels.as_slice(), sci) {
            self.channels[place].put(an, ceiling);
        }
    }

    /// Keeps the ceilings of these channels, the only ones that exist from now on; a new one has
    /// none.
    pub(crate) fn keep(&mut self, scis: &[Sci])
        requires few { length scis.now ≤ 32 }
        ensures tx { (table_ceilings self.new).tx ≡ (table_ceilings self.old).tx }
        ensures rx { (table_ceilings self.new).rx ≡ (λ sci. if is_among scis.now sci
            then (table_ceilings self.old).rx sci else (λ an. None)) }
        ensures channels { table_scis self.new ≡ scis.now }
    {
        let mut channels = ArrayVec::new();
        for sci in scis {
            channels.push(ChannelCeilings {
                sci: *sci,
                ceilings: self.of_channel(*sci),
            });
        }
        self.channels = channels;
    }
}
