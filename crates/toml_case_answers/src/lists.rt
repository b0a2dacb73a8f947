//! Section lists that a caller reorders or joins: their tables, or the clash that is named.
use basic_toml_read::{ReadError, Section, sections};
use basic_toml_tree::resolve;
use std::alloc::{AllocError, Global};
use toml_json_text::{Form, json_of};

fn reverse<'t>(alloc: Global, list: Vec<Section<'t>>) -> Result<Vec<Section<'t>>, AllocError> {
    let mut list = list;
    let mut reversed = Vec::new(alloc);
    for _ in 0..list.len() {
        if let Some(section) = list.pop() {
            reversed.push(section)?;
        }
    }
    Ok(reversed)
}

fn refusal_text(alloc: Global, error: &ReadError) -> Result<String, AllocError> {
    let offset = error.place();
    format!(in alloc; "{error} at offset {}", offset.unwrap_or(0))
}

// The table of the list's tree, or its error.
fn resolve_text(alloc: Global, list: Vec<Section<'_>>) -> Result<String, AllocError> {
    match resolve(alloc, list) {
        Ok(tree) => json_of(alloc, Form::Tagged, &tree.into_table(alloc)?),
        Err(error) => refusal_text(alloc, &error),
    }
}

/// What the sections of a text give in reverse.
pub(crate) fn of_reversed(alloc: Global, text: &str) -> Result<String, AllocError> {
    match sections(alloc, text) {
        Ok(list) => resolve_text(alloc, reverse(alloc, list)?),
        Err(error) => refusal_text(alloc, &error),
    }
}

/// What the sections of a text give with those of another after them.
pub(crate) fn of_joined(alloc: Global, text: &str, more: &str) -> Result<String, AllocError> {
    let mut list = match sections(alloc, text) {
        Ok(list) => list,
        Err(error) => return refusal_text(alloc, &error),
    };
    match sections(alloc, more) {
        Ok(rest) => {
            let mut rest = rest;
            list.append(&mut rest)?;
            resolve_text(alloc, list)
        }
        Err(error) => refusal_text(alloc, &error),
    }
}
