//! Looks into the table of standard input, and writes another one made of it. What is wrong goes to standard error, as
//! `stdin:LINE:COLUMN: message` where it has a place, and then the status is 1.
#![tactic(auto)]

mod report;
mod tables;

use basic_toml::{Table, Value, from_str, to_string};
use report::report;
use std::io;
use std::process::ExitCode;
use tables::{moved_to, value_at};

fn main(rt: HostRuntime) -> io::Result<ExitCode> {
    let alloc = rt.alloc();
    let text = match io::read_to_string(alloc, rt.reader()) {
        Ok(text) => text,
        Err(e) => {
            eprintln!(rt; "stdin: {e}")?;
            return Ok(ExitCode::FAILURE);
        }
    };
    let table: Table = match from_str(alloc, text.as_str()) {
        Ok(table) => table,
        Err(e) => return report(&rt, e),
    };
    // A value by its key, or by the keys that lead to it.
    if let Some(title) = table.get("title").and_then(Value::as_str) {
        println!(rt; "# {title}")?;
    }
    if let Some(port) = value_at(&table, &["server", "port"]).and_then(Value::as_integer) {
        println!(rt; "# was on port {port}")?;
    }
    // All rows in their order.
    for (key, value) in &table {
        println!(rt; "# {key}: {}", kind_of(value))?;
    }
    // Another table, made of this one.
    let moved = moved_to(alloc, &table, 9090)?;
    match to_string(alloc, &moved) {
        Ok(text) => print!(rt; "{text}")?,
        Err(e) => return report(&rt, e.into()),
    }
    Ok(ExitCode::SUCCESS)
}

fn kind_of(value: &Value) -> &'static str {
    match value {
        Value::Integer(_) => "an integer",
        Value::Float(_) => "a float",
        Value::Boolean(true) => "yes",
        Value::Boolean(false) => "no",
        Value::String(_) => "a string",
        Value::Array(values) if values.is_empty() => "an empty array",
        Value::Array(_) => "an array",
        Value::Table(_) => "a table",
    }
}
