//! The values of `format`: what an endpoint is formatted with.

ghost use Rattle.std.specs.Prelude.{◌≡◌, ◌↔◌, IfOk, IsTrue, Err, Some, option_map};
ghost use Rattle.macs_config.specs.Identity.{IsBlock};
ghost use Rattle.macs_fields.specs.First.{IsFirst};
ghost use Rattle.macs_cli.specs.Values.{SpellsIdentity, SpellsLayout, ValueFaultHolds};
ghost use Rattle.macs_cli.specs.Values.{value_faults};

use crate::open_input::sci_of;
use macs_config::Identity;
use macs_disk::Layout;

/// Why the values are not valid for an endpoint, in the order in which the faults are checked.
#[derive(Clone, Copy)]
pub enum ValueFault {
    /// The SCI is not 16 hex digits.
    Sci,
    /// The transmit block is not 1 to 65,536.
    TxBlock,
    /// The receive block is not 1 to 65,536.
    RxBlock,
    /// The block of the device is not `512` or `4096`.
    DeviceBlock,
}

impl ValueFault {
    ghost use Rattle.std.specs.Prelude.{◌≡◌};
    ghost use Rattle.macs_cli.specs.Failing.{value_fault_text};

    /// The program's message.
    pub fn text(self) -> &'static str
        ensures { result.now ≡ value_fault_text self }
    {
        match self {
            ValueFault::Sci => "SCI is not 16 hex digits",
            ValueFault::TxBlock => "TX is not 1 to 65536",
            ValueFault::RxBlock => "RX is not 1 to 65536",
            ValueFault::DeviceBlock => "--block is not 512 or 4096",
        }
    }
}

/// Whether this many packet numbers may be reserved at a time.
fn can_be_reserved(block: u32) -> bool
    ensures { IsTrue result ↔ IsBlock block }
{
    (1..=65_536).contains(&block)
}

/// The layout of a file for the named block size of the device in octets: that for 512 if none is
/// named. `None` for any other size.
fn layout_of(block: Option<&str>) -> Option<Layout>
    ensures { (layout : Layout)
        → (result ≡ Some layout) ↔ SpellsLayout (option_map (λ text. text.now) block.entry) layout }
{
    match block {
        None | Some("512") => Some(Layout::Packed),
        Some("4096") => Some(Layout::Spaced),
        Some(_) => None,
    }
}

/// The values given to `format`: those of the endpoint, and the layout of its file.
#[derive(Clone, Copy)]
pub struct FormatValues {
    pub identity: Identity,
    pub layout: Layout,
}

/// Parses the values given to `format`. Fails with the first of: `Sci` if the text is not 16 hex
/// digits, `TxBlock` and `RxBlock` if the number is not 1 to 65,536, `DeviceBlock` if a block size
/// is named that is not `512` or `4096`.
pub fn format_values(
    sci: &str,
    tx_block: u32,
    rx_block: u32,
    block: Option<&str>,
) -> Result<FormatValues, ValueFault>
    ensures identity { IfOk result
        (λ given. SpellsIdentity sci.now tx_block rx_block given.identity) }
    ensures layout { IfOk result
        (λ given. SpellsLayout (option_map (λ text. text.now) block.entry) given.layout) }
    ensures fault { (fault : ValueFault) → (result ≡ Err fault)
        ↔ IsFirst (ValueFaultHolds sci.now tx_block rx_block
        (option_map (λ text. text.now) block.entry)) value_faults fault }
{
    let Some(sci) = sci_of(sci.as_bytes()) else {
        return Err(ValueFault::Sci);
    };
    if !can_be_reserved(tx_block) {
        return Err(ValueFault::TxBlock);
    }
    let Some(identity) = Identity::new(sci, tx_block, rx_block) else {
        return Err(ValueFault::RxBlock);
    };
    match layout_of(block) {
        Some(layout) => Ok(FormatValues { identity, layout }),
        None => Err(ValueFault::DeviceBlock),
    }
}
