//! The nodes of a text, and where each comes from.
use crate::escapes::push_escaped;
use basic_toml::{Elements, Entries, Node};
use basic_toml_read::sections;
use basic_toml_tree::resolve;
use std::alloc::{AllocError, Global};

// More than the entries of a table or the elements of an array, and than the levels, of the texts that are shown.
const MANY: usize = 40;

const LEVELS: usize = 9;

// A number, or `-` where there is none.
fn push_offset(out: &mut String, offset: Option<usize>) -> Result<(), AllocError> {
    match offset {
        Some(offset) => write!(out, " {offset}"),
        None => out.push_str(" -"),
    }
}

// The scalar of a node, `[]` for an array and `{}` for a table.
fn push_data(out: &mut String, node: Node<'_, '_>) -> Result<(), AllocError> {
    if let Some(number) = node.as_integer() {
        write!(out, "{number}")?;
    }
    if let Some(truth) = node.as_bool() {
        write!(out, "{truth}")?;
    }
    if let Some(float) = node.as_float() {
        out.push_str(float.as_str())?;
    }
    if let Some(text) = node.text() {
        out.push('\'')?;
        push_escaped(out, text)?;
        out.push('\'')?;
    }
    if node.elements().is_some() {
        out.push_str("[]")?;
    }
    if node.entries().is_some() {
        out.push_str("{}")?;
    }
    Ok(())
}

// One line for each node: its path, what it holds, its type name, start, place, outer place and key path; so many levels
// of them.
#[cycle(nodes)]
fn push_node(
    out: &mut String,
    alloc: Global,
    path: &str,
    node: Node<'_, '_>,
    levels: usize,
) -> Result<(), AllocError> {
    if levels == 0 {
        return Ok(());
    }
    out.push_str(if path.is_empty() { "." } else { path })?;
    out.push_str(": ")?;
    push_data(out, node)?;
    out.push(' ')?;
    out.push_str(node.type_name())?;
    push_offset(out, node.start())?;
    push_offset(out, node.place())?;
    push_offset(out, node.outer_place())?;
    for key in node.key_path(alloc)?.iter() {
        out.push(' ')?;
        push_escaped(out, key.as_str())?;
    }
    out.push('\n')?;
    if let Some(entries) = node.entries() {
        push_entries(out, alloc, path, entries, levels - 1, MANY)?;
    }
    if let Some(elements) = node.elements() {
        push_elements(out, alloc, path, elements, levels - 1, MANY)?;
    }
    Ok(())
}

#[cycle(nodes)]
fn push_entries(
    out: &mut String,
    alloc: Global,
    path: &str,
    entries: Entries<'_, '_>,
    levels: usize,
    left: usize,
) -> Result<(), AllocError> {
    let mut entries = entries;
    if left == 0 {
        return Ok(());
    }
    if let Some((key, below)) = entries.next() {
        let mut at = String::from_str(alloc, path)?;
        at.push('.')?;
        push_escaped(&mut at, key)?;
        push_node(out, alloc, at.as_str(), below, levels)?;
        push_entries(out, alloc, path, entries, levels, left - 1)?;
    }
    Ok(())
}

#[cycle(nodes)]
fn push_elements(
    out: &mut String,
    alloc: Global,
    path: &str,
    elements: Elements<'_, '_>,
    levels: usize,
    left: usize,
) -> Result<(), AllocError> {
    let mut elements = elements;
    if left == 0 {
        return Ok(());
    }
    if let Some(below) = elements.next() {
        let at = format!(in alloc; "{path}[]")?;
        push_node(out, alloc, at.as_str(), below, levels)?;
        push_elements(out, alloc, path, elements, levels, left - 1)?;
    }
    Ok(())
}

/// The nodes of a text, a line each.
pub fn nodes_of(alloc: Global, text: &str) -> Result<String, AllocError> {
    let mut out = String::new(alloc);
    match sections(alloc, text) {
        Ok(list) => match resolve(alloc, list) {
            Ok(tree) => push_node(&mut out, alloc, "", tree.root(), LEVELS)?,
            Err(_) => out.push_str("a clash\n")?,
        },
        Err(_) => out.push_str("no section list\n")?,
    }
    Ok(out)
}
