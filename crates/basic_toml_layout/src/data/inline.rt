//! Values within a row: scalars, arrays and inline tables.
ghost use Rattle.std.specs.Prelude.{◌≡◌, ◌++◌, IfOk, string_bytes};
ghost use Rattle.basic_toml_value.specs.Entries.{seen};
ghost use Rattle.basic_toml_value.specs.View.{view, entries, items_view};
ghost use Rattle.basic_toml_layout.specs.Document.{inline, inline_items, inline_members};

use crate::scalar::Scalar;
use crate::text::write_key;
use basic_toml_value::{Pair, Value};
use std::alloc::AllocError;

/// Appends a value.
#[cycle(rows)]
#[inline(always)]
pub fn write_inline(text: &mut String, value: &Value) -> Result<(), AllocError>
    ensures { IfOk result (λ _. string_bytes text.new ≡ string_bytes text.old ++ inline (view value.now)) }
{
    match value {
        Value::Integer(n) => Scalar::Signed(*n).write(text),
        Value::Float(float) => Scalar::Float(float.as_str()).write(text),
        Value::Boolean(truth) => Scalar::Boolean(*truth).write(text),
        Value::String(value) => Scalar::Text(value.as_str()).write(text),
        Value::Array(values) => {
            text.push('[')?;
            write_elements(text, values.as_slice())?;
            text.push(']')
        }
        Value::Table(table) => {
            text.push('{')?;
            write_entries(text, table.entries())?;
            text.push('}')
        }
    }
}

#[cycle(rows)]
fn write_elements(text: &mut String, values: &[Value]) -> Result<(), AllocError>
    ensures { IfOk result (λ _. string_bytes text.new ≡ string_bytes text.old
        ++ inline_items (items_view values.now)) }
{
    for i in 0..values.len() {
        if i > 0 {
            text.push_str(", ")?;
        }
        write_inline(text, &values[i])?;
    }
    Ok(())
}

// What stands between the braces of an inline table.
#[cycle(rows)]
#[inline(never)]
fn write_entries(text: &mut String, pairs: &[Pair<Value>]) -> Result<(), AllocError>
    ensures { IfOk result (λ _. string_bytes text.new ≡ string_bytes text.old
        ++ inline_members (entries (seen pairs.now))) }
{
    for i in 0..pairs.len() {
        let pair = &pairs[i];
        text.push_str(if i > 0 { ", " } else { " " })?;
        write_key(text, pair.key.as_str())?;
        text.push_str(" = ")?;
        write_inline(text, &pair.value)?;
    }
    if pairs.is_empty() {
        return Ok(());
    }
    text.push(' ')
}
