//! The names that impls need, brought into a file.

ghost use Rattle.std.specs.Prelude.{◌≡◌};

use crate::imports::Import;
use crate::layout::in_lines;
use crate::uses::Use;
use std::alloc::{AllocError, Global};
use toml_rust_items::edits::{Edit, with_line};

// The width that a `use` line may have, and what a line of its names has behind its blanks where there are many.
const LINE: usize = 98;

const NAMES: usize = 95;

/// Adds the changes that bring in what a file has not yet, and leave out serde's derives. Lines go among those of their
/// kind, by their paths.
pub fn add_use_edits(
    alloc: Global,
    text: &str,
    uses: &[Use<'_>],
    imports: &[Import],
    edits: &mut Vec<Edit>,
) -> Result<(), AllocError> {
    for is_ghost in [true, false] {
        add_names(alloc, text, uses, imports, is_ghost, edits)?;
    }
    for line in uses {
        if line.is_serdes() && !edits.iter().any(|edit| edit.to == line.to) {
            let (from, to) = with_line(text, line.from, line.to);
            edits.push(Edit {
                from,
                to,
                text: String::new(alloc),
            })?;
        }
    }
    Ok(())
}

// Adds the changes that bring in the names of one kind that no line of the file has.
fn add_names(
    alloc: Global,
    text: &str,
    uses: &[Use<'_>],
    imports: &[Import],
    is_ghost: bool,
    edits: &mut Vec<Edit>,
) -> Result<(), AllocError> {
    let has_kind = uses
        .iter()
        .any(|line| line.is_ghost == is_ghost && !line.is_serdes());
    let mut block = String::new(alloc);
    for import in imports {
        if import.is_ghost == is_ghost {
            add_import(alloc, uses, import, has_kind, &mut block, edits)?;
        }
    }
    if !block.is_empty() {
        edits.push(new_block(alloc, text, uses, block, is_ghost)?)?;
    }
    Ok(())
}

// Adds the names of an import that no line of the file has: to its line where it has one, else as a new line, among
// those of its kind where the file has any, or to the block of the first ones.
fn add_import(
    alloc: Global,
    uses: &[Use<'_>],
    import: &Import,
    has_kind: bool,
    block: &mut String,
    edits: &mut Vec<Edit>,
) -> Result<(), AllocError> {
    let missing = missing(alloc, uses, import)?;
    if missing.is_empty() {
        return Ok(());
    }
    if let Some(line) = uses.iter().find(|line| line.is_plain && line.is_of(import)) {
        edits.push(longer(alloc, line, missing.as_slice())?)?;
        return Ok(());
    }
    let new = use_line(alloc, import.is_ghost, import.path, missing.as_slice())?;
    if has_kind {
        edits.push(among(alloc, uses, import, new.as_str())?)?;
    } else {
        block.push_str(if block.is_empty() { "" } else { "\n" })?;
        block.push_str(new.as_str())?;
    }
    Ok(())
}

// The names that no line of the file has.
fn missing(
    alloc: Global,
    uses: &[Use<'_>],
    import: &Import,
) -> Result<Vec<&'static str>, AllocError> {
    let mut names = Vec::new(alloc);
    for name in &import.names {
        if !uses.iter().any(|line| line.is_of(import) && line.has(name)) {
            names.push(*name)?;
        }
    }
    Ok(names)
}

// A line with more names, each before the first that it has behind that.
fn longer<'n>(alloc: Global, line: &Use<'n>, missing: &[&'n str]) -> Result<Edit, AllocError> {
    let mut names = Vec::from_slice(alloc, line.names.as_slice())?;
    for name in missing {
        let index = names
            .iter()
            .position(|other| is_behind(other, name))
            .unwrap_or(names.len());
        names.insert(index, *name)?;
    }
    Ok(Edit {
        from: line.from,
        to: line.to,
        text: use_line(alloc, line.is_ghost, line.path, names.as_slice())?,
    })
}

// Whether a name comes behind another: operators come first.
fn is_behind(name: &str, other: &str) -> bool {
    name != "self" && (is_word(name), name) > (is_word(other), other)
}

fn is_word(name: &str) -> bool {
    name.starts_with(|c: char| c.is_ascii_alphabetic())
}

// A `use` line as `rt fmt` lays it out.
fn use_line(
    alloc: Global,
    is_ghost: bool,
    path: &str,
    names: &[&str],
) -> Result<String, AllocError> {
    let all = names.join(alloc, ", ")?;
    if is_ghost {
        return format!(in alloc; "ghost use {path}.{{{all}}};");
    }
    if names.len() == 1 {
        return format!(in alloc; "use {path}::{all};");
    }
    let line = format!(in alloc; "use {path}::{{{all}}};")?;
    if line.len() <= LINE {
        return Ok(line);
    }
    let names = in_lines(alloc, names, "\n    ", NAMES)?;
    format!(in alloc; "use {path}::{{{names}\n}};")
}

// The first lines of their kind: those of clauses before all others, and those of code in place of serde's, or behind
// those of clauses.
fn new_block(
    alloc: Global,
    text: &str,
    uses: &[Use<'_>],
    block: String,
    is_ghost: bool,
) -> Result<Edit, AllocError> {
    let serdes = uses.iter().find(|line| !is_ghost && line.is_serdes());
    if let Some(line) = serdes {
        return Ok(Edit {
            from: line.from,
            to: line.to,
            text: block,
        });
    }
    Ok(match (uses.first(), uses.last()) {
        (Some(first), _) if is_ghost => insert(first.from, format!(in alloc; "{block}\n\n")?),
        (_, Some(last)) => insert(last.to, format!(in alloc; "\n\n{block}")?),
        _ => insert(head_len(text), format!(in alloc; "{block}\n\n")?),
    })
}

fn insert(at: usize, text: String) -> Edit
    ensures from { result.from ≡ at }
    ensures to { result.to ≡ at }
    ensures text { result.text ≡ text }
{
    Edit {
        from: at,
        to: at,
        text,
    }
}

// A line among those of its kind: before the first whose path comes behind its own, or behind the last.
fn among(alloc: Global, uses: &[Use<'_>], import: &Import, text: &str) -> Result<Edit, AllocError> {
    let mut last = 0;
    for line in uses {
        if line.is_ghost == import.is_ghost && !line.is_serdes() {
            if rank(line.path) > rank(import.path) {
                return Ok(insert(line.from, format!(in alloc; "{text}\n")?));
            }
            last = line.to;
        }
    }
    Ok(insert(last, format!(in alloc; "\n{text}")?))
}

// What paths are ordered by: std's come first in clauses, and the crate's own in code.
fn rank(path: &str) -> (u8, &str) {
    match path.split("::").next() {
        Some("self") => (0, path),
        Some("super") => (1, path),
        Some("crate") => (2, path),
        _ if path.starts_with("Rattle.std.") => (0, path),
        _ => (3, path),
    }
}

// The length of what stands before the first item: inner comments and attributes, and the modules that are named.
fn head_len(text: &str) -> usize {
    let mut length = 0usize;
    for line in text.split_inclusive('\n') {
        if !is_head(line.trim()) {
            break;
        }
        length = length.saturating_add(line.len());
    }
    length
}

fn is_head(line: &str) -> bool {
    line.is_empty()
        || line.starts_with("//!")
        || line.starts_with("#![")
        || ((line.starts_with("mod ") || line.starts_with("pub mod ")) && line.ends_with(';'))
}
