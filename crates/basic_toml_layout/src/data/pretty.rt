//! The value of a row for people: strings and long arrays on several lines.
ghost use Rattle.std.specs.Prelude.{◌≡◌, ◌≤◌, ◌++◌, IfOk, string_bytes, drop, length};
ghost use Rattle.basic_toml_value.specs.View.{view, items_view};
ghost use Rattle.basic_toml_layout.specs.Pretty as p;

use super::inline::write_inline;
use crate::lines::{has_line_feed, write_lines};
use crate::text::write_quoted;
use basic_toml_value::Value;
use std::alloc::AllocError;

/// Appends the value of a row; its line begins at the byte offset `line`.
pub fn write_pretty(text: &mut String, line: usize, value: &Value) -> Result<(), AllocError>
    requires { line ≤ length (string_bytes text.old) }
    ensures { IfOk result (λ _. string_bytes text.new ≡ string_bytes text.old
        ++ p.pretty_value (drop line (string_bytes text.old)) (view value.now)) }
{
    match value {
        Value::String(value) => write_string(text, value.as_str()),
        Value::Array(values) => {
            let values = values.as_slice();
            let len = text.len();
            write_inline(text, value)?;
            if values.is_empty() || fits_line(&text.as_bytes()[line..]) {
                return Ok(());
            }
            text.truncate(len);
            write_array_lines(text, values)
        }
        _ => write_inline(text, value),
    }
}

// A string, on several lines where it has several.
fn write_string(text: &mut String, value: &str) -> Result<(), AllocError>
    ensures { IfOk result (λ _. string_bytes text.new ≡ string_bytes text.old ++ p.pretty_string value.now) }
{
    if has_line_feed(value) {
        write_lines(text, value)
    } else {
        write_quoted(text, value)
    }
}

// Whether a line fits into its columns.
fn fits_line(line: &[u8]) -> bool
    ensures { result ≡ p.fits_line line.now }
{
    let mut columns: usize = 0;
    for i in 0..line.len() {
        if is_first_byte(line[i]) {
            if columns == 80 {
                return false;
            }
            columns += 1;
        }
    }
    true
}

// Whether a character begins with a byte.
fn is_first_byte(byte: u8) -> bool
    ensures { result ≡ p.is_first_byte byte }
{
    byte < 128 || byte >= 192
}

// An array, with a line for each element.
fn write_array_lines(text: &mut String, values: &[Value]) -> Result<(), AllocError>
    ensures { IfOk result (λ _. string_bytes text.new ≡ string_bytes text.old
        ++ p.array_lines (items_view values.now)) }
{
    text.push_str("[\n")?;
    for i in 0..values.len() {
        text.push_str("    ")?;
        write_inline(text, &values[i])?;
        text.push_str(",\n")?;
    }
    text.push(']')
}
