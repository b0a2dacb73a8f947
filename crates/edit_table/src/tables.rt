//! Tables by hand.

use basic_toml::{PushRefusal, Table, Value};
use std::alloc::{AllocError, Global};

/// The value that keys lead to, one table after another.
pub fn value_at<'t>(table: &'t Table, keys: &[&str]) -> Option<&'t Value> {
    let (last, before) = keys.split_last()?;
    let mut table = table;
    for key in before {
        table = table.get(key)?.as_table()?;
    }
    table.get(last)
}

/// The same rows, but that the server is on another port, and behind them the ports that it was on, and is.
pub fn moved_to(alloc: Global, table: &Table, port: i64) -> Result<Table, AllocError> {
    let mut moved = Table::new(alloc);
    let mut ports = Vec::new(alloc);
    for (key, value) in table {
        if key == "history" {
            continue;
        }
        let value = match value.as_table() {
            Some(server) if key == "server" => {
                if let Some(port) = server.get("port") {
                    ports.push(port.clone()?)?;
                }
                Value::Table(with_row(alloc, server, "port", Value::Integer(port))?)
            }
            _ => value.clone()?,
        };
        put(alloc, &mut moved, key, value)?;
    }
    ports.push(Value::Integer(port))?;
    let history = with_row(alloc, &Table::new(alloc), "ports", Value::Array(ports))?;
    put(alloc, &mut moved, "history", Value::Table(history))?;
    Ok(moved)
}

// A copy of a table with a value at a key, behind all other rows; the one that stood at the key is left out.
fn with_row(alloc: Global, table: &Table, key: &str, value: Value) -> Result<Table, AllocError> {
    let mut copy = Table::new(alloc);
    for (other, old) in table {
        if other != key {
            put(alloc, &mut copy, other, old.clone()?)?;
        }
    }
    put(alloc, &mut copy, key, value)?;
    Ok(copy)
}

// Puts a row behind the others; a table that has the key stays as it is.
fn put(alloc: Global, table: &mut Table, key: &str, value: Value) -> Result<(), AllocError> {
    let key = String::from_str(alloc, key)?;
    match table.push(key, value) {
        Ok(()) => Ok(()),
        Err((PushRefusal::KeyPresent, _, _)) => Ok(()),
        Err((PushRefusal::OutOfMemory, _, _)) => Err(AllocError),
    }
}
