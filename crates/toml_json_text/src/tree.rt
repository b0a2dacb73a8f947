//! Arrays and tables.
ghost use Rattle.std.specs.Prelude.{◌≡◌, ◌+◌, ◌++◌, false, IfOk, string_bytes};
ghost use Rattle.basic_toml_value.specs.Data as d;
ghost use Rattle.basic_toml_value.specs.Entries.{seen};
ghost use Rattle.basic_toml_value.specs.Text.{text_bytes};
ghost use Rattle.basic_toml_value.specs.View.{view, entries, items_view};
ghost use Rattle.toml_json_text.specs.Json as json;

use crate::form::Form;
use crate::layout::{Layout, level_below, push_last_break, push_separator};
use crate::scalar::{push_boolean, push_float, push_integer, push_name, push_string};
use basic_toml_value::{Pair, Table, Value};
use std::alloc::{AllocError, Global};

/// The JSON of a table, on one line.
///
/// # Errors
///
/// Want of memory alone.
pub fn json_of(alloc: Global, form: Form, table: &Table) -> Result<String, AllocError>
    ensures { IfOk result (λ text. string_bytes text ≡ json.json form (d.table (entries table.now))) }
{
    json_in(alloc, form, Layout::Line, table)
}

/// The JSON of a table, in a layout.
///
/// # Errors
///
/// Want of memory alone.
pub fn json_in(
    alloc: Global,
    form: Form,
    layout: Layout,
    table: &Table,
) -> Result<String, AllocError>
    ensures { IfOk result (λ text. string_bytes text ≡ json.json_in form layout (d.table (entries table.now))) }
{
    let mut text = String::new(alloc);
    push_table(&mut text, form, layout, 0, table)?;
    Ok(text)
}

/// The JSON of a value, on one line.
///
/// # Errors
///
/// Want of memory alone.
pub fn json_of_value(alloc: Global, form: Form, value: &Value) -> Result<String, AllocError>
    ensures { IfOk result (λ text. string_bytes text ≡ json.json form (view value.now)) }
{
    let mut text = String::new(alloc);
    push_value(&mut text, form, Layout::Line, 0, value)?;
    Ok(text)
}

#[cycle(values)]
fn push_value(
    text: &mut String,
    form: Form,
    layout: Layout,
    level: usize,
    value: &Value,
) -> Result<(), AllocError>
    ensures { IfOk result (λ _. string_bytes text.new
        ≡ string_bytes text.old ++ json.json_at form layout level (view value.now)) }
{
    match value {
        Value::Integer(number) => push_integer(text, form, layout, level, *number),
        Value::Float(float) => push_float(text, form, layout, level, float.as_str()),
        Value::Boolean(truth) => push_boolean(text, form, layout, level, *truth),
        Value::String(value) => push_string(text, form, layout, level, value.as_str()),
        Value::Array(values) => {
            text.push('[')?;
            push_elements(text, form, layout, level, values.as_slice())?;
            text.push(']')
        }
        Value::Table(table) => push_table(text, form, layout, level, table),
    }
}

#[cycle(values)]
fn push_elements(
    text: &mut String,
    form: Form,
    layout: Layout,
    level: usize,
    values: &[Value],
) -> Result<(), AllocError>
    ensures { IfOk result (λ _. string_bytes text.new ≡ string_bytes text.old
        ++ json.elements_text form layout level false (items_view values.now)) }
{
    let below = level_below(level)?;
    let mut is_later = false;
    for i in 0..values.len() {
        push_separator(text, layout, below, is_later)?;
        push_value(text, form, layout, below, &values[i])?;
        is_later = true;
    }
    push_last_break(text, layout, level, is_later)
}

#[cycle(values)]
fn push_table(
    text: &mut String,
    form: Form,
    layout: Layout,
    level: usize,
    table: &Table,
) -> Result<(), AllocError>
    ensures { IfOk result (λ _. string_bytes text.new ≡ string_bytes text.old
        ++ json.object_text form layout level (entries table.now)) }
{
    text.push('{')?;
    push_members(text, form, layout, level, table.entries())?;
    text.push('}')
}

#[cycle(values)]
fn push_members(
    text: &mut String,
    form: Form,
    layout: Layout,
    level: usize,
    pairs: &[Pair<Value>],
) -> Result<(), AllocError>
    ensures { IfOk result (λ _. string_bytes text.new ≡ string_bytes text.old
        ++ json.members_text form layout level false (entries (seen pairs.now))) }
{
    let below = level_below(level)?;
    let mut is_later = false;
    for i in 0..pairs.len() {
        push_member(text, form, layout, below, is_later, &pairs[i])?;
        is_later = true;
    }
    push_last_break(text, layout, level, is_later)
}

#[cycle(values)]
fn push_member(
    text: &mut String,
    form: Form,
    layout: Layout,
    level: usize,
    is_later: bool,
    pair: &Pair<Value>,
) -> Result<(), AllocError>
    ensures { IfOk result (λ _. string_bytes text.new ≡ string_bytes text.old
        ++ (json.name_text layout level is_later (text_bytes pair.now.key)
        ++ json.json_at form layout level (view pair.now.value))) }
{
    push_name(text, layout, level, is_later, pair.key.as_str())?;
    push_value(text, form, layout, level, &pair.value)
}
