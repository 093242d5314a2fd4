//! Making the journal of a new endpoint in sectors that lie in memory. `macs_endpoint::format` is
//! for a disk, whose calls may fail: here there is none.

ghost use Rattle.std.specs.Prelude.{◌≡◌, ◌≢◌, ◌↔◌, ◌<◌, ◌≤◌, ◌+◌, ℕ, IsTrue, [], get_or, length};
ghost use Rattle.std.specs.Bool.{OnFalse, OnTrue};
ghost use Rattle.macs_c.specs.ImageDisks.{image_of};
ghost use Rattle.macs_disk.specs.States.{IsSector};
ghost use Rattle.macs_record.specs.Decoding.{IsSectorOf};
ghost use Rattle.macs_record.specs.Gates.{IsOpen, closed_gate};
ghost use Rattle.macs_record.specs.Heads.{IsHeadOf};
ghost use Rattle.macs_record.specs.Settings.{default_settings};
ghost use Rattle.macs_journal.specs.Areas.{gate, gates, least_sectors, slots};
ghost use Rattle.macs_journal.specs.Formatting.{HasOpenHead, first_head};
ghost use Rattle.macs_journal.specs.Found.{IsNotFormatted};
ghost use Rattle.macs_journal.specs.NewArea.{AreClosed, IsNoOpenGate};
ghost use Rattle.macs_c.specs.Formatted.{FormatAnswer, IsFilled};

use crate::answers::Answer;
use crate::fields::MacsSci;
use crate::image::{sector_at, sector_in_range};
use macs_config::Identity;
use macs_fields::Sci;
use macs_journal::{LEAST_SECTORS, SLOTS};
use macs_record::laws::{head_in_range, record_in_range};
use macs_record::{CLOSED_GATE, Format, Head, Record, encode, encode_head, is_open, open_gate};

/// The head of the first area.
const HEAD_BODY: u64 = 0;

/// The gate of that head: `MACS_HEAD_GATE`.
const HEAD_GATE: u64 = 1;

/// The body of the first slot.
const FIRST_BODY: u64 = 2;

/// The gate of the first slot.
const FIRST_GATE: u64 = 3;

/// The gate of the head of the second area.
const SECOND_HEAD_GATE: u64 = 515;

/// The identity of a new endpoint.
#[repr(C)]
#[derive(Clone, Copy)]
pub struct MacsIdentity {
    /// That of the transmit channel.
    pub sci: MacsSci,
    /// How many packet numbers of a transmit association are reserved at a time: 1 to 65,536.
    pub tx_block: u32,
    /// How many of a receive association: 1 to 65,536.
    pub rx_block: u32,
}

/// Whether a gate is open.
fn reads_open(sectors: &[[u8; 512]], at: u64) -> bool
    requires { at < length sectors.now }
    ensures { IsTrue result ↔ IsOpen (image_of sectors.now at) }
{
    is_open(&sector_at(sectors, at))
}

/// Whether a head gate is open.
fn has_open_head(sectors: &[[u8; 512]]) -> bool
    requires { least_sectors ≤ length sectors.now }
    ensures taken { OnTrue result (HasOpenHead (image_of sectors.now)) }
    ensures clear { OnFalse result (IsNotFormatted (image_of sectors.now)) }
{
    reads_open(sectors, HEAD_GATE) || reads_open(sectors, SECOND_HEAD_GATE)
}

/// Writes a sector.
fn put(sectors: &mut [[u8; 512]], at: u64, octets: [u8; 512])
    requires { at < length sectors.old }
    ensures size { length sectors.new ≡ length sectors.old }
    ensures written { image_of sectors.new at ≡ octets }
    ensures others { (i : ℕ) → i ≢ at → image_of sectors.new i ≡ image_of sectors.old i }
{
    sector_in_range(octets);
    sectors[at as usize] = octets;
}

/// Closes a gate if it is open.
fn close_gate(sectors: &mut [[u8; 512]], at: u64)
    requires { at < length sectors.old }
    ensures size { length sectors.new ≡ length sectors.old }
    ensures closed { IsOpen (image_of sectors.old at) → image_of sectors.new at ≡ closed_gate }
    ensures same { ¬ IsOpen (image_of sectors.old at) → sectors.new ≡ sectors.old }
    ensures others { (i : ℕ) → i ≢ at → image_of sectors.new i ≡ image_of sectors.old i }
{
    if reads_open(sectors, at) {
        put(sectors, at, CLOSED_GATE);
    }
}

/// The sector of the gate of a slot of the first area.
fn slot_gate(slot: u64) -> u64
    requires { slot < slots }
    ensures at { result ≡ gate 0 (slot + 1) }
    ensures within { result < least_sectors }
{
    FIRST_GATE + 2 * slot
}

/// Closes the gates of the first area's slots that are open.
fn close_gates(sectors: &mut [[u8; 512]])
    requires { least_sectors ≤ length sectors.old }
    ensures size { length sectors.new ≡ length sectors.old }
    ensures closed { AreClosed (image_of sectors.old) (image_of sectors.new) 0 1 gates }
    ensures others { (i : ℕ) → IsNoOpenGate (image_of sectors.old) 0 1 gates i
        → image_of sectors.new i ≡ image_of sectors.old i }
{
    for slot in 0..SLOTS {
        close_gate(sectors, slot_gate(slot));
    }
}

/// The head of a new journal.
fn first_head(identity: &Identity) -> Head
    ensures { result ≡ first_head identity.now }
{
    Head::new(Format::Two, 1, 1, *identity).unwrap()
}

/// The sector of the head of a new journal.
fn head_sector(identity: &Identity) -> [u8; 512]
    ensures { IsHeadOf (first_head identity.now) result }
{
    let head = first_head(identity);
    head_in_range(&head);
    encode_head(&head)
}

/// The sector of its one record: the settings of a new configuration.
fn record_sector() -> [u8; 512]
    ensures { IsSectorOf default_settings result }
{
    let settings = Record::default();
    record_in_range(&settings);
    encode(&settings)
}

/// Writes the journal of a new endpoint, where no head gate is open.
fn fill(sectors: &mut [[u8; 512]], identity: &Identity)
    requires { least_sectors ≤ length sectors.old }
    ensures size { length sectors.new ≡ length sectors.old }
    ensures filled { IsFilled (image_of sectors.old) identity.now (image_of sectors.new) }
{
    put(sectors, HEAD_BODY, head_sector(identity));
    put(sectors, FIRST_BODY, record_sector());
    close_gates(sectors);
    put(sectors, HEAD_GATE, open_gate());
}

/// Makes the journal of a new endpoint with this identity. Unless it answers `Success`, nothing
/// changes.
pub(crate) fn format(sectors: &mut [[u8; 512]], asked: &MacsIdentity) -> Answer
    ensures { FormatAnswer sectors.old asked.now result sectors.new }
{
    let sci = Sci(asked.sci.octets);
    let Some(identity) = Identity::new(sci, asked.tx_block, asked.rx_block) else {
        return Answer::Block;
    };
    if (sectors.len() as u64) < LEAST_SECTORS {
        return Answer::TooSmall;
    }
    if has_open_head(sectors) {
        return Answer::Formatted;
    }
    fill(sectors, &identity);
    Answer::Success
}
