//! Values of a tree: copies of them, and the table that the tree becomes.
ghost use Rattle.std.specs.Prelude.{◌≡◌, IfErr, IfOk, map};
ghost use Rattle.basic_toml_value.specs.Data.{table as table_of_members};
ghost use Rattle.basic_toml_value.specs.View.{view, entries};
ghost use Rattle.basic_toml_plain.specs.Values.{value_pair};
ghost use Rattle.basic_toml_grow.specs.declared.item.Item.{Array, Plain, Sections, Tables};
ghost use Rattle.basic_toml_tree.specs.Data.{data_of, child_data, table_data, child_pair, HoldsAny};

use basic_toml_grow::{Child, Item, Table};
use basic_toml_plain::{
    PlainArray, PlainTables, drain, into_plain_table, into_plain_tables, into_plain_values,
    plain_table, plain_tables, plain_values,
};
use basic_toml_value as values;
use basic_toml_value::{Pair, Pairs, Text, Value};
use std::alloc::{AllocError, Global};

// Of so many entries the memory is given back while they are moved. Fewer are moved in less by a plain iterator.
const MANY: usize = 1024;

/// A copy of an item.
#[cycle(copies)]
pub(crate) fn value_of(alloc: Global, item: &Item<'_>) -> Result<Value, AllocError>
    ensures { IfOk result (λ value. view value ≡ data_of item.now) }
{
    match item {
        Item::Integer(number) => Ok(Value::Integer(*number)),
        Item::Float(float) => Ok(Value::Float(float.clone()?)),
        Item::True => Ok(Value::Boolean(true)),
        Item::False => Ok(Value::Boolean(false)),
        Item::String(text) => Ok(Value::String(Text::from_str(alloc, text)?)),
        Item::Escaped(text) => Ok(Value::String(Text::from_str(alloc, text.as_str())?)),
        Item::Plain(array) => Ok(Value::Array(plain_values(alloc, array.elements())?)),
        Item::Array(children) => Ok(Value::Array(elements_of(alloc, children.as_slice())?)),
        Item::Rows(table) => Ok(Value::Table(plain_table(alloc, table.rows())?)),
        Item::Inline(table) => Ok(Value::Table(table_of(alloc, table)?)),
        Item::Table(table) => Ok(Value::Table(table_of(alloc, table)?)),
        Item::Section(table) => Ok(Value::Table(plain_table(alloc, table.rows())?)),
        Item::Sections(tables) => Ok(Value::Array(plain_tables(alloc, tables)?)),
        Item::Tables(tables) => {
            let mut elements = tables_of(alloc, tables.0.as_slice())?;
            elements.push(Value::Table(table_of(alloc, &tables.1)?))?;
            Ok(Value::Array(elements))
        }
    }
}

#[cycle(copies)]
fn elements_of(alloc: Global, children: &[Child<'_>]) -> Result<Vec<Value>, AllocError>
    ensures { IfOk result (λ values. map view values.items ≡ map child_data children.now) }
{
    let mut elements = Vec::with_capacity(alloc, children.len())?;
    for child in children {
        elements.push(value_of(alloc, &child.item)?)?;
    }
    Ok(elements)
}

// Copies of tables, in a vector with room for one more.
#[cycle(copies)]
fn tables_of(alloc: Global, tables: &[Table<'_>]) -> Result<Vec<Value>, AllocError>
    ensures { IfOk result (λ values. map view values.items ≡ map table_data tables.now) }
{
    let mut elements = Vec::with_capacity(alloc, tables.len().saturating_add(1))?;
    for table in tables {
        elements.push(Value::Table(table_of(alloc, table)?))?;
    }
    Ok(elements)
}

#[cycle(copies)]
fn entries_of(alloc: Global, pairs: &[Pair<Child<'_>>]) -> Result<Vec<Pair<Value>>, AllocError>
    ensures { IfOk result (λ copies. map value_pair copies.items ≡ map child_pair pairs.now) }
{
    let mut copies = Vec::with_capacity(alloc, pairs.len())?;
    for pair in pairs {
        let key = pair.key.clone()?;
        let value = value_of(alloc, &pair.value.item)?;
        copies.push(Pair { key, value })?;
    }
    Ok(copies)
}

/// A copy of a table. One without entries takes no memory.
#[cycle(copies)]
pub(crate) fn table_of(alloc: Global, table: &Table<'_>) -> Result<values::Table, AllocError>
    ensures table { IfOk result (λ copy. table_of_members (entries copy) ≡ table_data table.now) }
    ensures memory { IfErr result (λ _. HoldsAny (table_data table.now)) }
{
    if table.entries.is_empty() {
        return Ok(values::Table::new(alloc));
    }
    let copies = entries_of(alloc, table.entries.entries())?;
    let index = table.entries.index().clone(alloc)?;
    Ok(Pairs::from_parts(copies, index))
}

// The value that an item becomes. It is inlined, since most items are scalars, which are moved in less than a call
// takes.
#[cycle(moves)]
#[inline(always)]
fn into_value(alloc: Global, item: Item<'_>) -> Result<Value, AllocError>
    ensures { IfOk result (λ value. view value ≡ data_of item.entry) }
{
    match item {
        Item::Integer(number) => Ok(Value::Integer(number)),
        Item::Float(float) => Ok(Value::Float(float)),
        Item::True => Ok(Value::Boolean(true)),
        Item::False => Ok(Value::Boolean(false)),
        Item::String(text) => Ok(Value::String(Text::from_str(alloc, text)?)),
        Item::Escaped(text) => Ok(Value::String(Text::from(text))),
        Item::Plain(array) => into_plain_array(alloc, array),
        Item::Array(children) => into_array(alloc, children),
        Item::Rows(table) => into_plain_table(alloc, table.into_rows()),
        Item::Inline(table) => into_inner_table(alloc, table),
        Item::Table(table) => into_inner_table(alloc, table),
        Item::Section(table) => into_plain_table(alloc, table.into_rows()),
        Item::Tables(tables) => into_array_of_tables(alloc, tables),
        Item::Sections(tables) => into_sections(alloc, tables),
    }
}

// What holds more values is moved by functions of their own, so that the room of their results is not cleared for each
// scalar.
#[cycle(moves)]
#[inline(always)]
fn into_array(alloc: Global, children: Vec<Child<'_>>) -> Result<Value, AllocError>
    ensures { IfOk result (λ value. view value ≡ data_of (Array children.entry)) }
{
    Ok(Value::Array(into_elements(alloc, children)?))
}

#[inline(always)]
fn into_plain_array(alloc: Global, array: PlainArray<'_>) -> Result<Value, AllocError>
    ensures { IfOk result (λ value. view value ≡ data_of (Plain array.entry)) }
{
    Ok(Value::Array(into_plain_values(alloc, array.into_elements())?))
}

#[inline(always)]
fn into_sections(alloc: Global, tables: Box<PlainTables<'_>>) -> Result<Value, AllocError>
    ensures { IfOk result (λ value. view value ≡ data_of (Sections tables.entry)) }
{
    Ok(Value::Array(into_plain_tables(alloc, tables)?))
}

#[cycle(moves)]
#[inline(always)]
fn into_inner_table(alloc: Global, table: Box<Table<'_>>) -> Result<Value, AllocError>
    ensures { IfOk result (λ value. view value ≡ table_data table.entry.value) }
{
    Ok(Value::Table(into_table(alloc, Box::into_inner(table))?))
}

#[cycle(moves)]
#[inline(always)]
fn into_array_of_tables(
    alloc: Global,
    tables: Box<(Vec<Table<'_>>, Table<'_>)>,
) -> Result<Value, AllocError>
    ensures { IfOk result (λ value. view value ≡ data_of (Tables tables.entry)) }
{
    let (earlier, latest) = Box::into_inner(tables);
    let mut elements = into_tables(alloc, earlier)?;
    elements.push(Value::Table(into_table(alloc, latest)?))?;
    Ok(Value::Array(elements))
}

#[cycle(moves)]
#[inline(never)]
fn into_elements(alloc: Global, children: Vec<Child<'_>>) -> Result<Vec<Value>, AllocError>
    ensures { IfOk result (λ values. map view values.items ≡ map child_data children.entry.items) }
{
    let mut elements = Vec::with_capacity(alloc, children.len())?;
    for child in drain(children) {
        elements.push(into_value(alloc, child.item)?)?;
    }
    Ok(elements)
}

// The values that tables become, in a vector with room for one more.
#[cycle(moves)]
#[inline(never)]
fn into_tables(alloc: Global, tables: Vec<Table<'_>>) -> Result<Vec<Value>, AllocError>
    ensures { IfOk result (λ values. map view values.items ≡ map table_data tables.entry.items) }
{
    let mut elements = Vec::with_capacity(alloc, tables.len().saturating_add(1))?;
    for table in drain(tables) {
        elements.push_reserved(Value::Table(into_table(alloc, table)?));
    }
    Ok(elements)
}

#[cycle(moves)]
fn into_entries(alloc: Global, pairs: Vec<Pair<Child<'_>>>) -> Result<Vec<Pair<Value>>, AllocError>
    ensures { IfOk result (λ moved. map value_pair moved.items ≡ map child_pair pairs.entry.items) }
{
    if pairs.len() >= MANY {
        return into_many_entries(alloc, pairs);
    }
    let mut moved = Vec::with_capacity(alloc, pairs.len())?;
    for pair in pairs {
        let Pair { key, value } = pair;
        let value = into_value(alloc, value.item)?;
        moved.push_reserved(Pair { key, value });
    }
    Ok(moved)
}

// The same, of many entries, whose memory is given back on the way.
#[cycle(moves)]
#[inline(never)]
fn into_many_entries(
    alloc: Global,
    pairs: Vec<Pair<Child<'_>>>,
) -> Result<Vec<Pair<Value>>, AllocError>
    ensures { IfOk result (λ moved. map value_pair moved.items ≡ map child_pair pairs.entry.items) }
{
    let mut moved = Vec::with_capacity(alloc, pairs.len())?;
    for pair in drain(pairs) {
        let Pair { key, value } = pair;
        let value = into_value(alloc, value.item)?;
        moved.push_reserved(Pair { key, value });
    }
    Ok(moved)
}

/// The table that a table of the tree becomes. Strings and keys are moved into it, and memory is given back on the
/// way. One without entries takes no memory.
#[cycle(moves)]
#[inline(never)]
pub(crate) fn into_table(alloc: Global, table: Table<'_>) -> Result<values::Table, AllocError>
    ensures table { IfOk result (λ moved. table_of_members (entries moved) ≡ table_data table.entry) }
    ensures memory { IfErr result (λ _. HoldsAny (table_data table.entry)) }
{
    if table.entries.is_empty() {
        return Ok(values::Table::new(alloc));
    }
    let (pairs, index) = table.entries.into_parts();
    let moved = into_entries(alloc, pairs)?;
    Ok(Pairs::from_parts(moved, index))
}
