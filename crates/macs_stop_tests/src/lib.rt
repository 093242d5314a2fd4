//! Tests of an endpoint and its store that no story can be: the power goes at each device call of a
//! long script and of programs, a kernel's syncs fail, each bit of a head is changed, and a source
//! and a sink report what they have. A disk in a file in memory shows that what the theorem says of
//! disks in files that behave speaks of some.
#![tactic(auto)]

mod in_file;
#[cfg(test)]
mod tests;

pub use in_file::{new_disk, page_of_memory_files, run_in_file};
