//! What some values have in common.

use crate::names::is_plain;
use basic_toml_value::{NESTING_LIMIT, Table, Value};
use std::alloc::{AllocError, Global};

/// What some values have in common: the type that they are all read as.
#[derive(Drop)]
pub struct Shape<'v> {
    /// The lists and maps that they are of, as a type begins with them.
    pub outer: String,
    pub inner: Inner<'v>,
}

/// What lists and maps are of.
#[derive(Drop)]
pub enum Inner<'v> {
    /// A type by its name.
    Named(&'static str),
    /// These tables, of a struct.
    Tables(Vec<&'v Table>),
}

/// The shape of some values.
pub fn shape_of<'v>(alloc: Global, mut values: Vec<&'v Value>) -> Result<Shape<'v>, AllocError> {
    let mut outer = String::new(alloc);
    for _ in 0..NESTING_LIMIT {
        if values.is_empty() {
            break;
        }
        if values.iter().all(|value| value.as_array().is_some()) {
            outer.push_str("Vec<")?;
            values = elements(alloc, values.as_slice())?;
        } else if are_maps(values.as_slice()) {
            outer.push_str("BTreeMap<String, ")?;
            values = members(alloc, values.as_slice())?;
        } else {
            break;
        }
    }
    Ok(Shape {
        outer,
        inner: inner_of(alloc, values.as_slice())?,
    })
}

fn inner_of<'v>(alloc: Global, values: &[&'v Value]) -> Result<Inner<'v>, AllocError> {
    let Some((first, others)) = values.split_first() else {
        return Ok(Inner::Named("Value"));
    };
    let name = kind_of(first);
    if others.iter().any(|value| kind_of(value) != name) {
        return Ok(Inner::Named("Value"));
    }
    let mut tables = Vec::new(alloc);
    for value in values {
        if let Some(table) = value.as_table() {
            tables.push(table)?;
        }
    }
    if tables.is_empty() {
        Ok(Inner::Named(name))
    } else {
        Ok(Inner::Tables(tables))
    }
}

// The type of a value by itself; of a table and an array one that no other value has.
fn kind_of(value: &Value) -> &'static str {
    match value {
        Value::Integer(_) => "i64",
        Value::Float(_) => "Float",
        Value::Boolean(_) => "bool",
        Value::String(_) => "String",
        Value::Array(_) => "Value",
        Value::Table(_) => "Table",
    }
}

// The elements of arrays, one array behind the other.
fn elements<'v>(alloc: Global, values: &[&'v Value]) -> Result<Vec<&'v Value>, AllocError> {
    let mut elements = Vec::new(alloc);
    for value in values {
        if let Value::Array(array) = value {
            for element in array {
                elements.push(element)?;
            }
        }
    }
    Ok(elements)
}

// The values of tables, one table behind the other.
fn members<'v>(alloc: Global, values: &[&'v Value]) -> Result<Vec<&'v Value>, AllocError> {
    let mut members = Vec::new(alloc);
    for value in values {
        if let Value::Table(table) = value {
            for (_, member) in table {
                members.push(member)?;
            }
        }
    }
    Ok(members)
}

// Whether some values are tables that no struct stands for: they have no keys, or one that no field can have.
fn are_maps(values: &[&Value]) -> bool {
    let are_tables = values.iter().all(|value| value.as_table().is_some());
    let are_empty = values.iter().all(|value| is_empty(value));
    are_tables && (are_empty || !values.iter().all(|value| has_fields(value)))
}

fn is_empty(value: &Value) -> bool {
    match value.as_table() {
        Some(table) => table.is_empty(),
        None => false,
    }
}

fn has_fields(value: &Value) -> bool {
    match value.as_table() {
        Some(table) => has_plain_keys(table),
        None => false,
    }
}

/// Whether fields can have all keys of a table.
pub fn has_plain_keys(table: &Table) -> bool {
    for (key, _) in table {
        if !is_plain(key) {
            return false;
        }
    }
    true
}
