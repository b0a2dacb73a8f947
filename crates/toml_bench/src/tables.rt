//! What is done with a table of keys, which are the lines of a text.
use crate::Ended;
use basic_toml::{Table, Value};
use std::alloc::Global;
use std::{io, str};

/// Makes a string of each line.
pub(crate) fn keys(alloc: Global, input: &[u8]) -> io::Result<Ended> {
    for line in text_of(input)?.lines() {
        let _key = String::from_str(alloc, line)?;
    }
    Ok(Ended::Well)
}

/// Pushes each line as a key.
pub(crate) fn push(alloc: Global, input: &[u8]) -> io::Result<Ended> {
    table_of(alloc, text_of(input)?)?;
    Ok(Ended::Well)
}

/// Pushes each line as a key, and then looks each up.
pub(crate) fn find(alloc: Global, input: &[u8]) -> io::Result<Ended> {
    let text = text_of(input)?;
    let table = table_of(alloc, text)?;
    for line in text.lines() {
        if table.get(line).is_none() {
            return Err(io::Error::from(io::ErrorKind::Other));
        }
    }
    Ok(Ended::Well)
}

pub(crate) fn text_of(input: &[u8]) -> io::Result<&str> {
    str::from_utf8(input).map_err(|_| io::Error::from(io::ErrorKind::InvalidData))
}

fn table_of(alloc: Global, text: &str) -> io::Result<Table> {
    let mut table = Table::new(alloc);
    for line in text.lines() {
        let key = String::from_str(alloc, line)?;
        if table.push(key, Value::Boolean(true)).is_err() {
            return Err(io::Error::from(io::ErrorKind::Other));
        }
    }
    Ok(table)
}
