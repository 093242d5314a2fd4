//! The link in a file.

ghost use Rattle.std.specs.Prelude.{◌≡◌, ◌≢◌, ◌<◌, ◌^◌, length, IfOk, IfErr, Ok, Err};
ghost use Rattle.toml.specs.View.{items_view, table_view};
ghost use Rattle.macs_commands.specs.Reading.{end_sci, file_link, has_tables, key_pair, key_pairs};
ghost use Rattle.macs_commands.specs.Reading.{tables_link};
ghost use Rattle.macs_commands.specs.declared.links.plan_fault.PlanFault.TheVariants.{Memory};

use crate::links::link::{KeyPair, Link};
use crate::links::plan_fault::{Place, PlanFault, ValueName};
use crate::links::soundness::sound_link;
use crate::tables::{an, are_tables, array, key, keys, sci, table};
use macs_fields::Sci;
use std::alloc::Allocator;
use toml::{Table, Value};

/// Reads the link in a file. Its keys are `left` and `right`, each a table with the SCI of that end
/// at `sci`, 16 hex digits, and `key`, an array of tables, one for each pair of keys, the newest
/// last. Such a table has the association number at `an`, 0 to 3, and the SAKs for the frames from
/// each end at `left` and `right`, 32 or 64 hex digits. Fails with the file's first fault, or with
/// `Memory`.
pub fn link_of<A: Allocator>(alloc: A, file: &Table) -> Result<Link, PlanFault>
    ensures link { IfOk result (λ link. file_link (table_view file.now) ≡ Ok link) }
    ensures fault { IfErr result (λ fault. fault ≢ Memory
        → file_link (table_view file.now) ≡ Err fault) }
{
    let Some(left) = table(file, "left") else {
        return Err(PlanFault::Shape);
    };
    let Some(right) = table(file, "right") else {
        return Err(PlanFault::Shape);
    };
    let Some(pairs) = array(file, "key") else {
        return Err(PlanFault::Shape);
    };
    if keys(file) != 3 || !has_tables(pairs) {
        return Err(PlanFault::Shape);
    }
    tables_link(alloc, left, right, pairs)
}

/// Whether there is at least one value, and each is a table.
fn has_tables(values: &[Value]) -> bool
    ensures { result ≡ has_tables (items_view values.now) }
{
    !values.is_empty() && are_tables(values)
}

/// The link in these tables.
fn tables_link<A: Allocator>(
    alloc: A,
    left: &Table,
    right: &Table,
    pairs: &[Value],
) -> Result<Link, PlanFault>
    requires { length pairs.now < 2 ^ 63 }
    ensures link { IfOk result (λ link.
        tables_link (table_view left.now) (table_view right.now) (items_view pairs.now) ≡ Ok link) }
    ensures fault { IfErr result (λ fault. fault ≢ Memory
        → tables_link (table_view left.now) (table_view right.now) (items_view pairs.now)
        ≡ Err fault) }
{
    let left = end_sci(Place::Left, left)?;
    let right = end_sci(Place::Right, right)?;
    let pairs = key_pairs(alloc, pairs)?;
    sound_link(left, right, pairs.as_slice())
}

/// The SCI of an end.
fn end_sci(place: Place, table: &Table) -> Result<Sci, PlanFault>
    ensures { result ≡ end_sci place (table_view table.now) }
{
    let Some(sci) = sci(table) else {
        return Err(PlanFault::Value {
            place,
            name: ValueName::Sci,
        });
    };
    if keys(table) > 1 {
        return Err(PlanFault::Extra { place });
    }
    Ok(sci)
}

/// The pairs of keys of these tables, counting from 1.
fn key_pairs<A: Allocator>(alloc: A, tables: &[Value]) -> Result<Vec<KeyPair, A>, PlanFault>
    requires { length tables.now < 2 ^ 63 }
    ensures pairs { IfOk result (λ pairs. key_pairs 1 (items_view tables.now) ≡ Ok pairs.items) }
    ensures fault { IfErr result (λ fault. fault ≢ Memory
        → key_pairs 1 (items_view tables.now) ≡ Err fault) }
{
    let mut pairs = Vec::new(alloc);
    for i in 0..tables.len() {
        let Some(table) = tables[i].as_table() else {
            return Err(PlanFault::Shape);
        };
        let pair = key_pair(i + 1, table)?;
        if pairs.push(pair).is_err() {
            return Err(PlanFault::Memory);
        }
    }
    Ok(pairs)
}

/// The pair of keys of table `at`, counting from 1.
fn key_pair(at: usize, table: &Table) -> Result<KeyPair, PlanFault>
    ensures { result ≡ key_pair at (table_view table.now) }
{
    let place = Place::Key { at };
    let Some(an) = an(table) else {
        return Err(PlanFault::Value {
            place,
            name: ValueName::An,
        });
    };
    let Some(left) = key(table, "left") else {
        return Err(PlanFault::Value {
            place,
            name: ValueName::Left,
        });
    };
    let Some(right) = key(table, "right") else {
        return Err(PlanFault::Value {
            place,
            name: ValueName::Right,
        });
    };
    if keys(table) > 3 {
        return Err(PlanFault::Extra { place });
    }
    Ok(KeyPair { an, left, right })
}
