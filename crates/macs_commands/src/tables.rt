//! The keys of a table, and the value at a key: `None` if the key is missing, or if its value is of
//! another type or out of range.

ghost use Rattle.std.specs.Prelude.{◌≡◌, option_map};
ghost use Rattle.toml.specs.Data.{get_member};
ghost use Rattle.toml.specs.View.{array_view, items_view, table_view, view};
ghost use Rattle.macs_commands.specs.Tables.{an_in, are_tables, count, flag_at, items_at, key_at};
ghost use Rattle.macs_commands.specs.Tables.{number_at, number_to};
ghost use Rattle.macs_commands.specs.Tables.{offset_in, sci_in, sci_mode_in, table_at, text_at};
ghost use Rattle.macs_commands.specs.Tables.{validate_in};

use crate::modes::{sci_mode_of, validate_of};
use crate::secrets::{key_of, sci_of};
use macs_aes::Key;
use macs_config::{SciMode, Validate};
use macs_fields::{An, Sci};
use toml::value::Array;
use toml::{Table, Value};

/// How many keys a table has.
pub(crate) fn keys(table: &Table) -> usize
    ensures { result ≡ count (table_view table.now) }
{
    table.len()
}

/// Whether each value is a table.
pub(crate) fn are_tables(values: &[Value]) -> bool
    ensures { result ≡ are_tables (items_view values.now) }
{
    for i in 0..values.len() {
        if !values[i].is_table() {
            return false;
        }
    }
    true
}

/// The value at a key.
pub fn value<'a>(table: &'a Table, key: &str) -> Option<&'a Value>
    ensures { option_map (λ v. view v.now) result ≡ get_member key.now (table_view table.now) }
{
    table.get(key)
}

/// The text at a key.
pub(crate) fn text<'a>(table: &'a Table, key: &str) -> Option<&'a str>
    ensures { option_map (λ s. s.now) result ≡ text_at key.now (table_view table.now) }
{
    value(table, key)?.as_str()
}

/// The table at a key.
pub(crate) fn table<'a>(table: &'a Table, key: &str) -> Option<&'a Table>
    ensures { option_map (λ t. table_view t.now) result ≡ table_at key.now (table_view table.now) }
{
    value(table, key)?.as_table()
}

/// The array at a key.
pub(crate) fn array<'a>(table: &'a Table, key: &str) -> Option<&'a Array>
    ensures { option_map (λ v. array_view v.now) result ≡ items_at key.now (table_view table.now) }
{
    value(table, key)?.as_array()
}

/// The flag at a key.
pub(crate) fn flag(table: &Table, key: &str) -> Option<bool>
    ensures { result ≡ flag_at key.now (table_view table.now) }
{
    value(table, key)?.as_bool()
}

/// The number, if it is from 0 to `most`.
fn number_to(value: &Value, most: u32) -> Option<u32>
    ensures { result ≡ number_to most (view value.now) }
{
    match u32::try_from(value.as_integer()?) {
        Ok(number) if number <= most => Some(number),
        _ => None,
    }
}

/// The number at a key, if it is from 0 to `most`.
pub(crate) fn number(table: &Table, key: &str, most: u32) -> Option<u32>
    ensures { result ≡ number_at key.now most (table_view table.now) }
{
    number_to(value(table, key)?, most)
}

/// The association number at `an`.
pub(crate) fn an(table: &Table) -> Option<An>
    ensures { result ≡ an_in (table_view table.now) }
{
    An::new(number(table, "an", 3)? as u8)
}

/// The SCI at `sci`.
pub(crate) fn sci(table: &Table) -> Option<Sci>
    ensures { result ≡ sci_in (table_view table.now) }
{
    sci_of(text(table, "sci")?.as_bytes())
}

/// The SAK at a key.
pub(crate) fn key(table: &Table, name: &str) -> Option<Key>
    ensures { result ≡ key_at name.now (table_view table.now) }
{
    key_of(text(table, name)?.as_bytes())
}

/// The confidentiality offset at `offset`, in octets.
pub(crate) fn offset(table: &Table) -> Option<u8>
    ensures { result ≡ offset_in (table_view table.now) }
{
    Some(number(table, "offset", 255)? as u8)
}

/// What is done with frames that do not verify, at `mode`.
pub(crate) fn validate(table: &Table) -> Option<Validate>
    ensures { result ≡ validate_in (table_view table.now) }
{
    validate_of(text(table, "mode")?)
}

/// How frames name the channel, at `mode`.
pub(crate) fn sci_mode(table: &Table) -> Option<SciMode>
    ensures { result ≡ sci_mode_in (table_view table.now) }
{
    sci_mode_of(text(table, "mode")?)
}
