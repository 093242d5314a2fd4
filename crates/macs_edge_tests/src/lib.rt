//! Tests of the edge of an endpoint: captures, wires, requests and the desk, through the public
//! calls.
#![tactic(auto)]

#[cfg(test)]
mod tests;
