//! A file's table, whose texts may be keys.

use crate::secrets::SecretText;
use toml::{Table, Value};

/// The table of a file. When it is dropped, the texts in the tables of its arrays, among which are
/// keys, are overwritten.
pub struct SecretTable(pub Table);

impl Drop for SecretTable {
    fn drop(self) {
        let SecretTable(file) = self;
        for value in file.into_values() {
            wipe_tables(value);
        }
    }
}

/// Overwrites the texts in the tables of an array.
fn wipe_tables(value: Value) {
    if let Value::Array(items) = value {
        for item in items {
            wipe_texts(item);
        }
    }
}

/// Overwrites the texts of a table.
fn wipe_texts(value: Value) {
    if let Value::Table(table) = value {
        for value in table.into_values() {
            wipe_text(value);
        }
    }
}

/// Overwrites a text.
fn wipe_text(value: Value) {
    if let Value::String(text) = value {
        let _text = SecretText(text);
    }
}
