//! What is printed of a value.
ghost use Rattle.std.specs.Prelude.{◌≡◌, ◌≤◌, IfErr, IfOk, Ok, option_map, string_bytes};
ghost use Rattle.basic_toml.specs.DataDepth.{depth};
ghost use Rattle.basic_toml.specs.Fault.{out_of_memory};
ghost use Rattle.basic_toml.specs.Nesting.{nesting_limit};
ghost use Rattle.basic_toml.specs.View.{view};
ghost use Rattle.toml_get.specs.Printed as spec;

use crate::format::Format;
use basic_toml::{Error, Value, table_to_string, value_to_string};
use std::alloc::{AllocError, Global};
use toml_json_text::{Form, json_of_value};

/// The text that is printed of a value; none of what is no table, where a document is wanted.
///
/// # Errors
///
/// Want of memory alone.
pub fn printed(alloc: Global, format: Format, value: &Value) -> Result<Option<String>, AllocError>
    requires { depth (view value.now) ≤ nesting_limit }
    ensures { IfOk result (λ text. option_map string_bytes text ≡ spec.printed format (view value.now)) }
{
    let line = match format {
        Format::Plain => plain(alloc, value)?,
        Format::Json => json_of_value(alloc, Form::Plain, value)?,
        Format::Toml => return document(alloc, value),
    };
    let mut line = line;
    line.push('\n')?;
    Ok(Some(line))
}

fn document(alloc: Global, value: &Value) -> Result<Option<String>, AllocError>
    requires { depth (view value.now) ≤ nesting_limit }
    ensures { IfOk result (λ text. option_map string_bytes text ≡ spec.document (view value.now)) }
{
    match value {
        Value::Table(table) => Ok(Some(text_of(table_to_string(alloc, table))?)),
        _ => Ok(None),
    }
}

// A string without its quotes, anything else as it stands in a row.
fn plain(alloc: Global, value: &Value) -> Result<String, AllocError>
    requires { depth (view value.now) ≤ nesting_limit }
    ensures { IfOk result (λ text. string_bytes text ≡ spec.plain (view value.now)) }
{
    match value {
        Value::String(text) => String::from_str(alloc, text.as_str()),
        _ => text_of(value_to_string(alloc, value)),
    }
}

// The text that was written, where only want of memory keeps it back.
fn text_of(written: Result<String, Error>) -> Result<String, AllocError>
    requires { IfErr written (λ fault. fault.kind ≡ out_of_memory) }
    ensures { IfOk result (λ text. written ≡ Ok text) }
{
    match written {
        Ok(text) => Ok(text),
        Err(error) => {
            let is_out_of_memory = error.is_out_of_memory();
            prove!(is_out_of_memory);
            Err(AllocError)
        }
    }
}
