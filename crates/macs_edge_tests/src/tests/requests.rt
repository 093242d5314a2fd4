//! Lines written by hand, and texts that are no line.

mod ends;
mod lines;
mod others;
