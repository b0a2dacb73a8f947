//! Tables with their rows first.
ghost use Rattle.std.specs.Prelude.{◌≡◌, IfOk, IsTrue};
ghost use Rattle.basic_toml_value.specs.Data as d;
ghost use Rattle.basic_toml_value.specs.Entries.{seen};
ghost use Rattle.basic_toml_value.specs.Nesting.{nesting_limit};
ghost use Rattle.basic_toml_value.specs.View.{view, entries, items_view};
ghost use Rattle.basic_toml_layout.specs.Trees.{written_of};
ghost use Rattle.basic_toml_write.specs.Shapes.{is_unsupported};
ghost use Rattle.basic_toml_order.specs.RowsFirst as f;
ghost use Rattle.basic_toml_order.specs.Sound.{is_sound, are_sound, hold_sound};
ghost use Rattle.basic_toml_order.specs.Writable.{is_unwritable};

use crate::in_order::{are_elements_in_order, is_table_in_order};
use basic_toml_index::Index;
use basic_toml_layout::is_section;
use basic_toml_value::{Pair, Pairs, Table, Value};
use std::alloc::{AllocError, Global};

// On how many levels it is looked at whether a table or an array has its rows first already: the table itself, what
// stands in it, and what stands in that.
const LOOKS: usize = 3;

/// A copy of a table with its rows first, as [`into_rows_first`] makes it of the table itself.
///
/// # Errors
///
/// `AllocError` where memory was refused.
#[tactic(auto, using(crate::proofs::NoValueAfterTable::copy_written))]
pub fn rows_first(alloc: Global, table: &Table) -> Result<Table, AllocError>
    ensures order { IfOk result (λ copy. d.table (entries copy) ≡ f.rows_first (d.table (entries table.now))) }
    ensures written { IfOk result (λ copy. is_unsupported nesting_limit (written_of (d.table (entries copy)))
        ≡ is_unwritable (d.table (entries table.now))) }
{
    let copy = table.clone()?;
    into_rows_first(alloc, copy)
}

/// The table with its rows first: in each table, at every depth, the entries that are written as rows `key = value`
/// come before those that are sections, which are tables and arrays that begin with a table. Rows keep their order, and
/// so do sections. Keys and values are moved. (TOML v0.5.0, "Table" and "Array of Tables")
///
/// A row that stands after a section cannot be written, since it would belong to that section. A text gives such a
/// table where an inline table or a dotted key stands before a row. With its rows first each table can be written that
/// is nested at most [`NESTING_LIMIT`](basic_toml_value::NESTING_LIMIT) deep, and in which no array holds a table beside
/// another value, or an array that holds a table.
///
/// ```text
/// let table: Table = from_str(alloc, "size = { width = 2 }\nname = \"box\"\n")?;
/// let text = to_string(alloc, &into_rows_first(alloc, table)?)?; // name = "box", and then [size] with width = 2
/// ```
///
/// This is from `toml_vectors`.
///
/// # Errors
///
/// `AllocError` where memory was refused.
#[tactic(auto, using(crate::proofs::NoValueAfterTable::written))]
pub fn into_rows_first(alloc: Global, table: Table) -> Result<Table, AllocError>
    ensures order { IfOk result (λ moved. d.table (entries moved) ≡ f.rows_first (d.table (entries table))) }
    ensures written { IfOk result (λ moved. is_unsupported nesting_limit (written_of (d.table (entries moved)))
        ≡ is_unwritable (d.table (entries table))) }
{
    table_rows_first(alloc, table, LOOKS)
}

// A value, and elements, with their rows first. An array or a table that has them first already is answered as it is,
// if it stands on one of the `looks` upper levels. A look walks over all that is below, so each value is looked at at
// most that many times, however deep it stands.
#[cycle(moves)]
fn value_rows_first(alloc: Global, value: Value, looks: usize) -> Result<Value, AllocError>
    ensures order { IfOk result (λ moved. view moved ≡ f.rows_first (view value)) }
    ensures sound { IfOk result (λ _. IsTrue (is_sound (view value))) }
{
    match value {
        Value::Array(values) => Ok(Value::Array(elements_rows_first(alloc, values, looks)?)),
        Value::Table(table) => Ok(Value::Table(table_rows_first(alloc, table, looks)?)),
        scalar => Ok(scalar),
    }
}

#[cycle(moves)]
#[tactic(auto, using(crate::proofs::OrderIsSeen::items_as_they_are))]
fn elements_rows_first(
    alloc: Global,
    values: Vec<Value>,
    looks: usize,
) -> Result<Vec<Value>, AllocError>
    ensures order { IfOk result (λ moved. items_view moved.items ≡ f.items_rows_first (items_view values.items)) }
    ensures sound { IfOk result (λ _. IsTrue (are_sound (items_view values.items))) }
{
    if looks > 0 && are_elements_in_order(values.as_slice()) {
        return Ok(values);
    }
    let looks_below = looks.saturating_sub(1);
    let mut moved = Vec::with_capacity(alloc, values.len())?;
    for value in values {
        moved.push(value_rows_first(alloc, value, looks_below)?)?;
    }
    Ok(moved)
}

// A table with its rows first. Where it is moved its keys stand at other positions, so it gets an index anew.
#[cycle(moves)]
#[tactic(auto, using(crate::proofs::OrderIsSeen::members_as_they_are))]
fn table_rows_first(alloc: Global, table: Table, looks: usize) -> Result<Table, AllocError>
    ensures order { IfOk result (λ moved. entries moved ≡ f.members_rows_first (entries table)) }
    ensures sound { IfOk result (λ _. IsTrue (is_sound (d.table (entries table)))) }
{
    if looks > 0 && is_table_in_order(&table) {
        return Ok(table);
    }
    let pairs = pairs_rows_first(alloc, table.into_entries(), looks.saturating_sub(1))?;
    let index = Index::of(alloc, &pairs)?;
    Ok(Pairs::from_parts(pairs, index))
}

// The pairs of a table: those that are rows, and then those that are sections.
#[cycle(moves)]
fn pairs_rows_first(
    alloc: Global,
    pairs: Vec<Pair<Value>>,
    looks: usize,
) -> Result<Vec<Pair<Value>>, AllocError>
    ensures order { IfOk result
        (λ moved. entries (seen moved.items) ≡ f.members_rows_first (entries (seen pairs.items))) }
    ensures sound { IfOk result (λ _. IsTrue (hold_sound (entries (seen pairs.items)))) }
{
    let mut rows = Vec::with_capacity(alloc, pairs.len())?;
    let mut sections = Vec::new(alloc);
    for pair in pairs {
        let Pair { key, value } = pair;
        let is_section = is_section(&value);
        let value = value_rows_first(alloc, value, looks)?;
        if is_section {
            sections.push(Pair { key, value })?;
        } else {
            rows.push(Pair { key, value })?;
        }
    }
    for section in sections {
        rows.push(section)?;
    }
    Ok(rows)
}
