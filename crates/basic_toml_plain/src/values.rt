//! The values of a `Table` that plain ones become: scalars, arrays and tables.

ghost use Rattle.std.specs.Prelude.{◌≡◌, ◌==◌, ◌≤◌, true, false, IfErr, IfOk, ◌++◌, map, length, take, drop};
ghost use Rattle.basic_toml_value.specs.Data.{table as table_of_members};
ghost use Rattle.basic_toml_value.specs.View.{view, entries};
ghost use Rattle.basic_toml_plain.specs.Plain.{is_plain, are_plain, are_few_simple, plain_data, element_data, rows_data};
ghost use Rattle.basic_toml_plain.specs.Plain.{are_all_plain as all_plain};
ghost use Rattle.basic_toml_plain.specs.PlainTables.{tables_in};
ghost use Rattle.basic_toml_plain.specs.Values.{value_pair, row_pair, section_data};

use crate::items_left::{ItemsLeft, drain};
use crate::table_block::TableBlock;
use crate::tables::PlainTables;
use basic_toml_index::Index;
use basic_toml_read::{Element, Raw, Row};
use basic_toml_value::{Pair, Pairs, Table, Text, Value};
use std::alloc::{AllocError, Global};

// Of so many elements the memory is given back while they are moved. Fewer are moved in less by a plain iterator.
const MANY: usize = 1024;

/// A copy of a plain value.
///
/// # Errors
///
/// `AllocError` where memory was refused.
#[cycle(copies)]
pub fn plain_value(alloc: Global, value: &Raw<'_>) -> Result<Value, AllocError>
    requires { is_plain value.now 0 ≡ true }
    ensures { IfOk result (λ copy. view copy ≡ plain_data value.now) }
{
    match value {
        Raw::Integer(number) => Ok(Value::Integer(*number)),
        Raw::Float(float) => Ok(Value::Float(float.clone()?)),
        Raw::True => Ok(Value::Boolean(true)),
        Raw::False => Ok(Value::Boolean(false)),
        Raw::String(text) => Ok(Value::String(Text::from_str(alloc, text)?)),
        Raw::Escaped(text) => Ok(Value::String(Text::from_str(alloc, text.as_str())?)),
        Raw::Array(elements) => Ok(Value::Array(plain_values(alloc, elements.as_slice())?)),
        Raw::Inline(rows) => Ok(Value::Table(plain_table(alloc, rows.as_slice())?)),
        Raw::Dotted(_) => unreachable!(),
    }
}

/// Copies of the values of plain elements.
///
/// # Errors
///
/// `AllocError` where memory was refused.
#[cycle(copies)]
pub fn plain_values(alloc: Global, elements: &[Element<'_>]) -> Result<Vec<Value>, AllocError>
    requires { are_plain 0 elements.now ≡ true }
    ensures { IfOk result (λ copies. map view copies.items ≡ map element_data elements.now) }
{
    let mut copies = Vec::with_capacity(alloc, elements.len())?;
    for element in elements {
        copies.push(plain_value(alloc, &element.value)?)?;
    }
    Ok(copies)
}

/// A copy of the inline table of a few rows with plain values.
///
/// # Errors
///
/// `AllocError` where memory was refused. One without rows takes no memory.
#[cycle(copies)]
pub fn plain_table(alloc: Global, rows: &[Row<'_>]) -> Result<Table, AllocError>
    requires { are_few_simple 0 rows.now ≡ true }
    ensures table { IfOk result (λ copy. table_of_members (entries copy) ≡ rows_data rows.now) }
    ensures memory { IfErr result (λ _. (length rows.now == 0) ≡ false) }
{
    if rows.is_empty() {
        return Ok(Table::new(alloc));
    }
    let mut copies = Vec::with_capacity(alloc, rows.len())?;
    for row in rows {
        let key = Text::from_str(alloc, row.key.as_str())?;
        let value = plain_value(alloc, &row.value)?;
        copies.push(Pair { key, value })?;
    }
    Ok(Pairs::from_parts(copies, Index::none()))
}

/// Copies of the tables of an array of tables.
///
/// # Errors
///
/// `AllocError` where memory was refused.
pub fn plain_tables(alloc: Global, tables: &PlainTables<'_>) -> Result<Vec<Value>, AllocError>
    ensures { IfOk result (λ copies. map view copies.items ≡ map (λ t. section_data t.1) (tables_in tables.now)) }
{
    let count = tables.len();
    let mut copies = Vec::with_capacity(alloc, count)?;
    for at in 0..count {
        let Some((_, rows)) = tables.get(at) else {
            unreachable!();
        };
        copies.push_reserved(Value::Table(plain_table(alloc, rows)?));
    }
    Ok(copies)
}

// The value that a plain one becomes. It is inlined, since most elements are scalars.
#[cycle(moves)]
#[inline(always)]
fn into_plain_value(alloc: Global, value: Raw<'_>) -> Result<Value, AllocError>
    requires { is_plain value 0 ≡ true }
    ensures { IfOk result (λ moved. view moved ≡ plain_data value.entry) }
{
    match value {
        Raw::Integer(number) => Ok(Value::Integer(number)),
        Raw::Float(float) => Ok(Value::Float(float)),
        Raw::True => Ok(Value::Boolean(true)),
        Raw::False => Ok(Value::Boolean(false)),
        Raw::String(text) => Ok(Value::String(Text::from_str(alloc, text)?)),
        Raw::Escaped(text) => Ok(Value::String(Text::from(text))),
        Raw::Array(elements) => Ok(Value::Array(into_plain_values(alloc, elements)?)),
        Raw::Inline(rows) => into_plain_table(alloc, rows),
        Raw::Dotted(_) => unreachable!(),
    }
}

/// The values that plain elements become. Strings are moved, and memory is given back on the way.
///
/// # Errors
///
/// `AllocError` where memory was refused.
#[cycle(moves)]
#[inline(never)]
pub fn into_plain_values(
    alloc: Global,
    elements: Vec<Element<'_>>,
) -> Result<Vec<Value>, AllocError>
    requires { are_plain 0 elements.items ≡ true }
    ensures { IfOk result (λ moved. map view moved.items ≡ map element_data elements.entry.items) }
{
    if elements.len() >= MANY {
        return into_many(alloc, elements);
    }
    let mut moved = Vec::with_capacity(alloc, elements.len())?;
    for element in elements {
        moved.push_reserved(into_plain_value(alloc, element.value)?);
    }
    Ok(moved)
}

// The same, of many elements, whose memory is given back on the way.
#[cycle(moves)]
#[inline(never)]
fn into_many(alloc: Global, elements: Vec<Element<'_>>) -> Result<Vec<Value>, AllocError>
    requires { are_plain 0 elements.items ≡ true }
    ensures { IfOk result (λ moved. map view moved.items ≡ map element_data elements.entry.items) }
{
    let mut moved = Vec::with_capacity(alloc, elements.len())?;
    for element in drain(elements) {
        moved.push_reserved(into_plain_value(alloc, element.value)?);
    }
    Ok(moved)
}

// The entries that the first of the rows that are left become.
#[inline(always)]
fn first_plain_entries(
    alloc: Global,
    rows: &mut ItemsLeft<Row<'_>>,
    count: usize,
) -> Result<Vec<Pair<Value>>, AllocError>
    requires within { count ≤ length rows.old }
    requires plain { all_plain 0 rows.old ≡ true }
    ensures entries { IfOk result (λ moved. map value_pair moved.items ≡ map row_pair (take count rows.old)) }
    ensures left { IfOk result (λ _. rows.new ≡ drop count rows.old) }
{
    let mut moved = Vec::with_capacity(alloc, count)?;
    for _ in 0..count {
        let Some(row) = rows.next() else {
            unreachable!();
        };
        let Row { key, value, .. } = row;
        let value = into_plain_value(alloc, value)?;
        let key = Text::from_str(alloc, key.as_str())?;
        moved.push_reserved(Pair { key, value });
    }
    Ok(moved)
}

// Puts the values that the tables of a block become after others.
#[inline(never)]
fn push_tables(
    alloc: Global,
    block: TableBlock<'_>,
    moved: &mut Vec<Value>,
) -> Result<(), AllocError>
    ensures { IfOk result (λ _. map view moved.new.items
        ≡ map view moved.old.items ++ map (λ t. section_data t.1) (tables_in block.entry)) }
{
    let (mut rows, earlier, latest) = block.into_parts();
    for own in earlier {
        let entries = first_plain_entries(alloc, &mut rows, own.count)?;
        moved.push(Value::Table(Pairs::from_parts(entries, Index::none())))?;
    }
    let entries = first_plain_entries(alloc, &mut rows, latest.count)?;
    moved.push(Value::Table(Pairs::from_parts(entries, Index::none())))?;
    Ok(())
}

/// The values that the tables of an array of tables become. Strings are moved, and memory is given back on the way.
///
/// # Errors
///
/// `AllocError` where memory was refused.
#[inline(never)]
pub fn into_plain_tables(
    alloc: Global,
    tables: Box<PlainTables<'_>>,
) -> Result<Vec<Value>, AllocError>
    ensures { IfOk result (λ moved. map view moved.items
        ≡ map (λ t. section_data t.1) (tables_in tables.entry.value)) }
{
    let mut moved = Vec::with_capacity(alloc, tables.len())?;
    let (full, last) = Box::into_inner(tables).into_blocks();
    for block in full {
        push_tables(alloc, block, &mut moved)?;
    }
    push_tables(alloc, last, &mut moved)?;
    Ok(moved)
}

// The entries that a few rows with plain values become.
#[cycle(moves)]
#[inline(never)]
fn into_plain_entries(alloc: Global, rows: Vec<Row<'_>>) -> Result<Vec<Pair<Value>>, AllocError>
    requires { are_few_simple 0 rows.items ≡ true }
    ensures { IfOk result (λ moved. map value_pair moved.items ≡ map row_pair rows.entry.items) }
{
    let mut moved = Vec::with_capacity(alloc, rows.len())?;
    for row in rows {
        let Row { key, value, .. } = row;
        let value = into_plain_value(alloc, value)?;
        let key = Text::from_str(alloc, key.as_str())?;
        moved.push_reserved(Pair { key, value });
    }
    Ok(moved)
}

/// The value that a few rows with plain values become, a table. Strings are moved.
///
/// # Errors
///
/// `AllocError` where memory was refused.
#[cycle(moves)]
#[inline(always)]
pub fn into_plain_table(alloc: Global, rows: Vec<Row<'_>>) -> Result<Value, AllocError>
    requires { are_few_simple 0 rows.items ≡ true }
    ensures { IfOk result (λ table. view table ≡ rows_data rows.entry.items) }
{
    let moved = into_plain_entries(alloc, rows)?;
    Ok(Value::Table(Pairs::from_parts(moved, Index::none())))
}
