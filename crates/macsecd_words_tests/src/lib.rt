//! Runs of the program that need no disk and no capture, through its public calls.
#![tactic(auto)]

#[cfg(test)]
mod tests;
