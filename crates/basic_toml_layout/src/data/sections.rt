//! Which values of a table are rows of its text, and which are sections.
ghost use Rattle.std.specs.Prelude.{◌≡◌};
ghost use Rattle.basic_toml_value.specs.View.{view, items_view};
ghost use Rattle.basic_toml_layout.specs.Document as d;
ghost use Rattle.basic_toml_layout.specs.Sections as f;

use basic_toml_value::Value;

/// An array whose first element is a table is one section for each element.
pub fn begins_with_table(values: &[Value]) -> bool
    ensures { result ≡ f.begins_with_table (items_view values.now) }
{
    match values.first() {
        Some(Value::Table(_)) => true,
        _ => false,
    }
}

/// Whether an entry is no row.
pub fn is_section(value: &Value) -> bool
    ensures { result ≡ f.is_section (view value.now) }
{
    match value {
        Value::Table(_) => true,
        Value::Array(values) => begins_with_table(values.as_slice()),
        _ => false,
    }
}

// Whether all elements are tables.
fn are_tables(values: &[Value]) -> bool
    ensures { result ≡ d.are_tables (items_view values.now) }
{
    for i in 0..values.len() {
        let Value::Table(_) = &values[i] else {
            return false;
        };
    }
    true
}

/// Whether an entry is a row, where the text of any table has it: a value that is neither a table nor an array of
/// tables alone.
#[inline(always)]
pub fn is_row(value: &Value) -> bool
    ensures { result ≡ d.is_row (view value.now) }
{
    match value {
        Value::Table(_) => false,
        Value::Array(values) => values.is_empty() || !are_tables(values.as_slice()),
        _ => true,
    }
}
