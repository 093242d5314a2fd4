//! Tests of the program over files and sockets, and what they have in common with those of its
//! words: runs, and what they come to.
#![tactic(auto)]

mod closing;
mod outcome;
mod running;
#[cfg(test)]
mod tests;

pub use closing::Closing;
pub use outcome::Outcome;
pub use running::{status_of, wrong_part};

/// A link of one pair of keys, in a file.
pub const ONE_PAIR: &str = "[left]\nsci = '0200000000010001'\n[right]\nsci = '0200000000020001'\n\
    [[key]]\nan = 0\nleft = '5a1c7e93d04b26f8a97d31e4026fb85c'\n\
    right = 'E07B49D6158C32AF6E90B7C4FD2A8113'\n";
