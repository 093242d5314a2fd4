//! Tests of the configuration, of its records and of command files, through the public calls.
#![tactic(auto)]

#[cfg(test)]
mod tests;
