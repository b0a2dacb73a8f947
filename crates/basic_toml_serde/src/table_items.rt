//! The items of a table.
ghost use Rattle.std.specs.Prelude.{◌≡◌, ◌++◌, IfOk};
ghost use Rattle.basic_toml_value.specs.Data as d;
ghost use Rattle.basic_toml_value.specs.Entries.{seen};
ghost use Rattle.basic_toml_value.specs.View.{view, entries, items_view};
ghost use Rattle.basic_toml_write.specs.Impls.{data_calls, members_calls};
ghost use Rattle.basic_toml_serde.specs.Listed.{listed};

use crate::items::Item;
use basic_toml::{Table, Value};
use basic_toml_value::Pair;
use std::alloc::{AllocError, Global};

/// The items that a table is written as.
pub(crate) fn items_of(alloc: Global, table: &Table) -> Result<Vec<Item>, AllocError>
    ensures { IfOk result (λ items. listed items.items ≡ data_calls (d.table (entries table.now))) }
{
    let mut items = Vec::new(alloc);
    add_table(alloc, table, &mut items)?;
    Ok(items)
}

// Adds the items of a value.
#[cycle(lists)]
fn add_value(alloc: Global, value: &Value, items: &mut Vec<Item>) -> Result<(), AllocError>
    ensures { IfOk result (λ _. listed items.new.items ≡ listed items.old.items ++ data_calls (view value.now)) }
{
    match value {
        Value::Integer(number) => items.push(Item::Integer(*number))?,
        Value::Float(float) => items.push(Item::Float(float.clone()?))?,
        Value::Boolean(truth) => items.push(Item::Boolean(*truth))?,
        Value::String(text) => items.push(Item::Text(String::from_str(alloc, text.as_str())?))?,
        Value::Array(values) => add_array(alloc, values.as_slice(), items)?,
        Value::Table(table) => add_table(alloc, table, items)?,
    }
    Ok(())
}

#[cycle(lists)]
fn add_array(alloc: Global, values: &[Value], items: &mut Vec<Item>) -> Result<(), AllocError>
    ensures { IfOk result (λ _. listed items.new.items
        ≡ listed items.old.items ++ data_calls (d.array (items_view values.now))) }
{
    items.push(Item::OpenArray)?;
    for i in 0..values.len() {
        items.push(Item::Element)?;
        add_value(alloc, &values[i], items)?;
    }
    items.push(Item::Close)?;
    Ok(())
}

#[cycle(lists)]
fn add_table(alloc: Global, table: &Table, items: &mut Vec<Item>) -> Result<(), AllocError>
    ensures { IfOk result (λ _. listed items.new.items
        ≡ listed items.old.items ++ data_calls (d.table (entries table.now))) }
{
    items.push(Item::OpenTable)?;
    add_pairs(alloc, table.entries(), items)?;
    items.push(Item::Close)?;
    Ok(())
}

// Adds the keys of a table with their values.
#[cycle(lists)]
fn add_pairs(alloc: Global, pairs: &[Pair<Value>], items: &mut Vec<Item>) -> Result<(), AllocError>
    ensures { IfOk result (λ _. listed items.new.items
        ≡ listed items.old.items ++ members_calls (entries (seen pairs.now))) }
{
    for i in 0..pairs.len() {
        let pair = &pairs[i];
        items.push(Item::Field(String::from_str(alloc, pair.key.as_str())?))?;
        add_value(alloc, &pair.value, items)?;
    }
    Ok(())
}
