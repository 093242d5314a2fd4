//! Tests of frames, of both channels against frames from outside, and of capture files, through the
//! public calls.
#![tactic(auto)]

#[cfg(test)]
mod tests;
