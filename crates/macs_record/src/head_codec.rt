//! Heads as sectors, and sectors as heads.

ghost use Rattle.std.specs.Prelude.{◌≡◌, ◌↔◌, ◌++◌, List, ℕ, IfSome, Some};
ghost use Rattle.std.specs.Int.{to_be_bytes, w32};
ghost use Rattle.macs_config.specs.Identity.{Identity, IsBlock};
ghost use Rattle.macs_record.specs.Heads.{Head, IsHead, IsHeadOf, head_mark, head_octets};
ghost use Rattle.macs_record.specs.Heads.{head_sector_of, identity_octets, version_of};
ghost use Rattle.macs_fields.specs.Fields.{IsSci};
ghost use Rattle.macs_record.specs.declared.format.Format.{Format};

use crate::SECTOR;
use crate::format::Format;
use crate::head::Head;
use crate::reading::Reader;
use crate::writing::RecordWriter;
use macs_config::Identity;

/// The first octets of the sector of a head.
const MARK: [u8; 8] = *b"MSECHEAD";

/// The sector of a head: the mark `MSECHEAD`, the version (4 octets: 1 for format one, 2 for format
/// two), the generation (8), the count (4), the SCI (8), the block of the transmit side and that of
/// the receive side (4 each), and zeros.
pub fn encode_head(head: &Head) -> [u8; SECTOR]
    ensures { result ≡ head_sector_of head.now }
{
    let identity = head.identity();
    RecordWriter::new()
        .octets(&MARK)
        .u32(head.format().version())
        .u64(head.generation())
        .u32(head.count())
        .sci(identity.sci())
        .u32(identity.tx_block())
        .u32(identity.rx_block())
        .finish()
}

/// The head in a sector. `None` for another mark, a version that is neither 1 nor 2, a field out of
/// its range, or an octet after the fields that is not 0.
pub fn decode_head(sector: &[u8; SECTOR]) -> Option<Head>
    ensures { (head : Head) → (result ≡ Some head) ↔ IsHeadOf head sector.now }
{
    let mut reader = Reader::new(sector);
    let head = read_head(&mut reader)?;
    if reader.is_zero() { Some(head) } else { None }
}

/// Reads the mark, the version and the fields of a head.
fn read_head(from: &mut Reader<'_>) -> Option<Head>
    ensures some { IfSome result (λ head. IsHead head × (from.old ≡ head_octets head ++ from.new)) }
    ensures found { (head : Head) (rest : List ℕ) → IsHead head
        → from.old ≡ head_octets head ++ rest
        → (result ≡ Some head) × (from.new ≡ rest) }
{
    let format = read_format(from)?;
    let generation = from.u64()?;
    let count = from.u32()?;
    let identity = read_identity(from)?;
    Head::new(format, generation, count, identity)
}

/// Reads the mark and the version of a head.
fn read_format(from: &mut Reader<'_>) -> Option<Format>
    ensures some { IfSome result
        (λ format. from.old ≡ head_mark ++ to_be_bytes w32 (version_of format) ++ from.new) }
    ensures found { (format : Format) (rest : List ℕ)
        → from.old ≡ head_mark ++ to_be_bytes w32 (version_of format) ++ rest
        → (result ≡ Some format) × (from.new ≡ rest) }
{
    let mark: [u8; 8] = from.octets()?;
    let version = from.u32()?;
    if mark == MARK {
        Format::of(version)
    } else {
        None
    }
}

/// Reads an SCI and two blocks.
fn read_identity(from: &mut Reader<'_>) -> Option<Identity>
    ensures some { IfSome result
        (λ identity. IsSci identity.sci × IsBlock identity.tx_block × IsBlock identity.rx_block
        × (from.old ≡ identity_octets identity ++ from.new)) }
    ensures found { (identity : Identity) (rest : List ℕ) → IsSci identity.sci
        → IsBlock identity.tx_block → IsBlock identity.rx_block
        → from.old ≡ identity_octets identity ++ rest
        → (result ≡ Some identity) × (from.new ≡ rest) }
{
    let sci = from.sci()?;
    let tx_block = from.u32()?;
    let rx_block = from.u32()?;
    Identity::new(sci, tx_block, rx_block)
}
