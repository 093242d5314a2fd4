//! Tests of the fields, the cipher, GHASH and GCM against published vectors and values from
//! outside, through the public calls.
#![tactic(auto)]

#[cfg(test)]
mod tests;
