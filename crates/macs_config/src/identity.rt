//! The identity that an endpoint is formatted with and keeps for good.

ghost use Rattle.std.specs.Prelude.{◌≡◌, ◌↔◌, ◌≤◌, IsSome, IfSome};
ghost use Rattle.macs_config.specs.Identity.{Identity, IsBlock};

use macs_fields::Sci;
use std::marker::Model;

/// The largest block of packet numbers.
const MAX_BLOCK: u32 = 65_536;

/// The SCI of an endpoint's transmit channel, and how many packet numbers it reserves at a time, 1
/// to 65,536 in each direction.
#[derive(Clone, Copy, Debug, PartialEq, Eq)]
pub struct Identity {
    sci: Sci,
    tx_block: u32,
    rx_block: u32,
}

impl Model for Identity {
    ghost Value = { Identity };

    ghost view = { λ i. record { sci = i.sci; tx_block = i.tx_block; rx_block = i.rx_block } };

    ghost invariant = { λ i. IsBlock i.tx_block × IsBlock i.rx_block };

    ghost inverse = { λ i. record { sci = i.sci; tx_block = i.tx_block; rx_block = i.rx_block } };
}

impl Identity {
    /// `None` unless both blocks are 1 to 65,536.
    pub fn new(sci: Sci, tx_block: u32, rx_block: u32) -> Option<Identity>
        ensures within { IsSome result ↔ (IsBlock tx_block × IsBlock rx_block) }
        ensures value { IfSome result
            (λ i. i ≡ record { sci = sci; tx_block = tx_block; rx_block = rx_block }) }
    {
        let is_block = |block: u32| (1..=MAX_BLOCK).contains(&block);
        if is_block(tx_block) && is_block(rx_block) {
            Some(Identity {
                sci,
                tx_block,
                rx_block,
            })
        } else {
            None
        }
    }

    /// The SCI of the transmit channel.
    pub fn sci(&self) -> Sci
        ensures { result ≡ self.now.sci }
    {
        self.sci
    }

    /// How many packet numbers a transmit association reserves at a time, 1 to 65,536.
    pub fn tx_block(&self) -> u32
        ensures value { result ≡ self.now.tx_block }
        ensures range { IsBlock result }
    {
        self.tx_block
    }

    /// How many packet numbers a receive association reserves at a time, 1 to 65,536.
    pub fn rx_block(&self) -> u32
        ensures value { result ≡ self.now.rx_block }
        ensures range { IsBlock result }
    {
        self.rx_block
    }
}
