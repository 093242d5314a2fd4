//! Keys as text: hexadecimal digits that are read and written without a branch or an address that
//! depends on one, and octets that are overwritten once they are used.

mod digits;
mod secret_table;
mod wiping;

pub use digits::{digits_of, key_of, octets, sci_of, write_digits};
pub use secret_table::SecretTable;
pub use wiping::{SecretOctets, SecretText, wipe};
