//! What a disk's keeper and its client tell each other, as octets.
//!
//! Every message of a kind has one length, whichever call it is about: a reader that has that many
//! octets has the whole message, and looks at none of them before.

mod answer;
mod greeting;
mod request;

pub use answer::{ANSWER, CallAnswer};
pub use greeting::{GREETING, Greeting};
pub use request::REQUEST;
