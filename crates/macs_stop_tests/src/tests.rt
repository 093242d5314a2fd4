//! A script is played on a disk in memory and stopped at each of its device calls. Then the power
//! goes, pending sectors come out in each of several ways, and what an opening finds is judged. How
//! many stops, runs and stopped openings there are is worked out in `docs/TESTING.md`. Programs
//! that lose power are run, too.

mod calls;
mod cutting;
mod disks;
mod failed_syncs;
mod frames;
mod heads;
mod judging;
mod kernel_files;
mod known;
mod life;
mod migrating;
mod programs;
mod script;
mod serving;
mod stops;
mod tearing;

use macs_frame::Sci;

/// How many sectors a disk needs.
const SECTORS: u64 = 1_028;

/// The endpoint's SCI.
const OWN: Sci = Sci([2, 0, 0, 0, 0, 1, 0, 1]);

/// How many packet numbers the blocks of either side have.
const BLOCK: u32 = 4;
