//! Tests of the disks, in memory and in files, through the public calls.
#![tactic(auto)]

#[cfg(test)]
mod tests;
