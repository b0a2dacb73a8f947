//! The table that a list of items spells.
ghost use Rattle.std.specs.Prelude.{◌≡◌, ◌++◌, ◌∷◌, [], pos, map, IfOk, OnOk, string_bytes};
ghost use Rattle.basic_toml_value.specs.Data as d;
ghost use Rattle.basic_toml_value.specs.View.{view, entries, items_view};
ghost use Rattle.basic_toml_serde.specs.Listed.{item_of, listed};
ghost use Rattle.basic_toml_serde.specs.Built.{left, IsTableOf, IsBuilt, AreBuilt, EntriesBuilt, IsNextElement, IsNextKey, IsNextValue};

use crate::items::Item;
use basic_toml::{PushRefusal, Table, Text, Value, WriteError};
use basic_toml_value::NESTING_LIMIT;
use std::alloc::{AllocError, Global};
use std::vec::IntoIter;

/// Why items spell no table: the error, and the number of the item that met it.
#[derive(Drop)]
pub(crate) struct Unbuilt {
    pub(crate) error: WriteError,
    pub(crate) at: usize,
}

/// The table that items spell, without its absent options.
pub(crate) fn table_of(alloc: Global, items: Vec<Item>) -> Result<Table, Unbuilt>
    ensures { IfOk result (λ table. IsTableOf (listed items.items) (entries table)) }
{
    let count = items.len();
    let mut rest = items.into_iter();
    match whole_table(alloc, &mut rest) {
        Ok(table) => Ok(table),
        Err(error) => Err(Unbuilt {
            error,
            at: count.saturating_sub(rest.len()).saturating_sub(1),
        }),
    }
}

// The table that all items spell.
fn whole_table(alloc: Global, rest: &mut IntoIter<Item>) -> Result<Table, WriteError>
    ensures { IfOk result (λ table. IsTableOf (left rest.old) (entries table)) }
{
    let table = match rest.next() {
        Some(Item::OpenTable) => entries_of(alloc, rest, NESTING_LIMIT)?,
        Some(Item::Absent) => return Err(WriteError::UnsupportedNone),
        Some(_) => return Err(WriteError::UnsupportedType),
        None => return Err(WriteError::CallOrder),
    };
    match rest.next() {
        None => Ok(table),
        Some(_) => Err(WriteError::CallOrder),
    }
}

// The value that begins with this item.
#[cycle(builds)]
#[tactic(auto, using(crate::proofs::ItemsAreBuilt::value_built))]
fn value_of(
    alloc: Global,
    first: Item,
    rest: &mut IntoIter<Item>,
    depth: usize,
) -> Result<Value, WriteError>
    ensures { IfOk result (λ value. IsBuilt (item_of first ∷ left rest.old) (view value) (left rest.new)) }
{
    match first {
        Item::Boolean(truth) => Ok(Value::Boolean(truth)),
        Item::Integer(number) => Ok(Value::Integer(number)),
        Item::Float(float) => Ok(Value::Float(float)),
        Item::Text(text) => Ok(Value::String(Text::from(text))),
        Item::OtherText(text) => Ok(Value::String(Text::from(text))),
        Item::Octets(octets) => Ok(Value::Array(numbers_of(alloc, octets.as_slice())?)),
        Item::OpenArray if depth > 0 => Ok(Value::Array(elements_of(alloc, rest, depth - 1)?)),
        Item::OpenTable if depth > 0 => Ok(Value::Table(entries_of(alloc, rest, depth - 1)?)),
        Item::OpenArray | Item::OpenTable => Err(WriteError::NestedTooDeeply),
        Item::Absent => Err(WriteError::UnsupportedNone),
        Item::Large(_) | Item::NoForm => Err(WriteError::UnsupportedType),
        Item::Close | Item::Key | Item::Field(_) | Item::Element => Err(WriteError::CallOrder),
    }
}

// The elements of an array, to its end.
#[cycle(builds)]
fn elements_of(
    alloc: Global,
    rest: &mut IntoIter<Item>,
    depth: usize,
) -> Result<Vec<Value>, WriteError>
    ensures { IfOk result (λ values. AreBuilt (left rest.old) (items_view values.items) (left rest.new)) }
{
    let mut values = Vec::new(alloc);
    for _ in 0..u64::MAX {
        let Some(value) = next_element(alloc, rest, depth)? else {
            return Ok(values);
        };
        if values.push(value).is_err() {
            return Err(WriteError::OutOfMemory);
        }
    }
    Err(WriteError::CallOrder)
}

// The next element, if the array does not end here.
#[cycle(builds)]
#[tactic(auto, using(crate::proofs::ItemsAreBuilt::next_built))]
fn next_element(
    alloc: Global,
    rest: &mut IntoIter<Item>,
    depth: usize,
) -> Result<Option<Value>, WriteError>
    ensures { IfOk result (λ value. IsNextElement (left rest.old) value (left rest.new)) }
{
    match rest.next() {
        Some(Item::Close) => Ok(None),
        Some(first) => Ok(Some(value_of(alloc, first, rest, depth)?)),
        None => Err(WriteError::CallOrder),
    }
}

// The entries of a table that are there, to its end.
#[cycle(builds)]
fn entries_of(alloc: Global, rest: &mut IntoIter<Item>, depth: usize) -> Result<Table, WriteError>
    ensures { IfOk result (λ table. EntriesBuilt (left rest.old) (entries table) (left rest.new)) }
{
    let mut table = Table::new(alloc);
    for _ in 0..u64::MAX {
        let Some(key) = next_key(rest)? else {
            return Ok(table);
        };
        if let Some(value) = entry_value(alloc, rest, depth)? {
            put(&mut table, key, value)?;
        }
    }
    Err(WriteError::CallOrder)
}

// The key of the next entry, if the table does not end here.
#[tactic(auto, using(crate::proofs::ItemsAreBuilt::next_built))]
fn next_key(rest: &mut IntoIter<Item>) -> Result<Option<String>, WriteError>
    ensures { IfOk result (λ key. IsNextKey (left rest.old) key (left rest.new)) }
{
    match rest.next() {
        Some(Item::Close) => Ok(None),
        Some(Item::Field(name)) => Ok(Some(name)),
        Some(Item::Key) => match rest.next() {
            Some(Item::Text(text)) => Ok(Some(text)),
            _ => Err(WriteError::KeyNotString),
        },
        _ => Err(WriteError::CallOrder),
    }
}

// The value behind a key, if it is no absent option.
#[cycle(builds)]
#[tactic(auto, using(crate::proofs::ItemsAreBuilt::next_built))]
fn entry_value(
    alloc: Global,
    rest: &mut IntoIter<Item>,
    depth: usize,
) -> Result<Option<Value>, WriteError>
    ensures { IfOk result (λ value. IsNextValue (left rest.old) value (left rest.new)) }
{
    match rest.next() {
        Some(Item::Absent) => Ok(None),
        Some(first) => Ok(Some(value_of(alloc, first, rest, depth)?)),
        None => Err(WriteError::CallOrder),
    }
}

fn put(table: &mut Table, key: String, value: Value) -> Result<(), WriteError>
    ensures { OnOk result (table.new ≡ table.old ++ (string_bytes key, value) ∷ []) }
{
    match table.push(key, value) {
        Ok(()) => Ok(()),
        Err((PushRefusal::KeyPresent, key, _)) => Err(WriteError::DuplicateKey(key)),
        Err((PushRefusal::OutOfMemory, _, _)) => Err(WriteError::OutOfMemory),
    }
}

// Bytes as integers.
fn numbers_of(alloc: Global, octets: &[u8]) -> Result<Vec<Value>, AllocError>
    ensures { IfOk result (λ values. map view values.items ≡ map (λ n. d.integer (pos n)) octets.now) }
{
    let mut values = Vec::with_capacity(alloc, octets.len())?;
    for octet in octets {
        values.push(Value::Integer(i64::from(*octet)))?;
    }
    Ok(values)
}
