//! The layout of a disk's sectors in its file.

ghost use Rattle.std.specs.Prelude.{◌≡◌, ◌<◌, ◌^◌};
ghost use Rattle.macs_disk.specs.Layouts.{block_of, is_marked, mark, place, sectors_in};

/// How many octets a sector has.
pub(crate) const SECTOR_OCTETS: u64 = 512;

/// How many octets a block of a spaced file has.
pub(crate) const BLOCK_OCTETS: u64 = 4_096;

/// How many sectors a disk in a spaced file has.
pub(crate) const SPACED_SECTORS: u64 = 1_028;

/// Where the mark of a spaced file is: in the block after its last sector.
pub(crate) const MARK_PLACE: u64 = BLOCK_OCTETS * SPACED_SECTORS;

/// The first octets of the mark of a spaced file.
const MARK: &[u8] = b"MSEC4096";

/// The layout of a disk's sectors in its file.
#[derive(Clone, Copy, Debug, PartialEq, Eq)]
pub enum Layout {
    /// Consecutive: sector `at` is the 512 octets from octet `512 * at` on. A power loss must not
    /// spoil any octet outside the sector that is being written.
    Packed,
    /// Each at the start of a block of its own: sector `at` is the 512 octets from octet
    /// `4096 * at` on. A power loss may spoil the whole block that is being written. A disk with
    /// this layout has 1,028 sectors, and the block after them has the mark by which the layout is
    /// found.
    Spaced,
}

impl Layout {
    /// How many octets of its file each sector takes up.
    pub fn block(self) -> u64
        ensures { result ≡ block_of self }
    {
        match self {
            Layout::Packed => SECTOR_OCTETS,
            Layout::Spaced => BLOCK_OCTETS,
        }
    }

    /// The octet in the file at which sector `at` begins.
    pub(crate) fn place(self, at: u64) -> u64
        requires { place self at < 2 ^ 64 }
        ensures { result ≡ place self at }
    {
        match self {
            Layout::Packed => at * SECTOR_OCTETS,
            Layout::Spaced => at * BLOCK_OCTETS,
        }
    }

    /// How many sectors a disk has in a file of `octets` octets.
    pub(crate) fn sectors_in(self, octets: u64) -> u64
        ensures { result ≡ sectors_in self octets }
    {
        match self {
            Layout::Packed => octets / SECTOR_OCTETS,
            Layout::Spaced => SPACED_SECTORS,
        }
    }
}

/// The sector that marks a spaced file, as it is written: `MSEC4096`, and zeros.
pub fn spaced_mark() -> [u8; 512]
    ensures { result ≡ mark }
{
    let mut sector = [0; 512];
    sector[..8].copy_from_slice(MARK);
    sector
}

/// Whether a sector marks a spaced file: it begins with `MSEC4096`, regardless of the rest.
pub(crate) fn is_mark(sector: &[u8; 512]) -> bool
    ensures { result ≡ is_marked sector.now }
{
    sector.starts_with(MARK)
}
