//! The section list of a text: each section by its offset, kind and header, each key and value by its offset.
use crate::escapes::push_escaped;
use basic_toml_read::{Element, Key, Raw, Row, Section, sections};
use std::alloc::{AllocError, Global};

fn push_key(out: &mut String, offset: usize, key: &str) -> Result<(), AllocError> {
    write!(out, " {offset}:")?;
    push_escaped(out, key)
}

// Each key with its offset, a period after each but the last, `=` and the offset of the value.
#[cycle(shown)]
fn push_rows<'de>(
    out: &mut String,
    parents: &[Key<'de>],
    rows: &[Row<'de>],
) -> Result<(), AllocError> {
    let mut left = parents;
    for row in rows {
        let own = row.own_parents(left);
        for key in own {
            push_key(out, key.offset, key.text.as_str())?;
            out.push('.')?;
        }
        push_key(out, row.offset, row.key.as_str())?;
        let start = row.start;
        write!(out, "={start}:")?;
        push_raw(out, &row.value)?;
        left = &left[own.len()..];
    }
    Ok(())
}

#[cycle(shown)]
fn push_elements(out: &mut String, elements: &[Element<'_>]) -> Result<(), AllocError> {
    for element in elements {
        let offset = element.offset;
        write!(out, " {offset}:")?;
        push_raw(out, &element.value)?;
    }
    Ok(())
}

// A string that stands in the text as it is in quotes, and one that does not after `copy`.
#[cycle(shown)]
fn push_raw(out: &mut String, value: &Raw<'_>) -> Result<(), AllocError> {
    match value {
        Raw::Integer(number) => {
            let number = *number;
            write!(out, "{number}")
        }
        Raw::Float(float) => out.push_str(float.as_str()),
        Raw::True => out.push_str("true"),
        Raw::False => out.push_str("false"),
        Raw::String(text) => push_quoted(out, text),
        Raw::Escaped(text) => {
            out.push_str("copy ")?;
            push_quoted(out, text.as_str())
        }
        Raw::Array(elements) => {
            out.push('[')?;
            push_elements(out, elements.as_slice())?;
            out.push_str(" ]")
        }
        Raw::Inline(rows) => {
            out.push('{')?;
            push_rows(out, &[], rows.as_slice())?;
            out.push_str(" }")
        }
        Raw::Dotted(rows) => {
            out.push('{')?;
            push_rows(out, rows.parents.as_slice(), rows.rows.as_slice())?;
            out.push_str(" }")
        }
    }
}

fn push_quoted(out: &mut String, text: &str) -> Result<(), AllocError> {
    out.push('\'')?;
    push_escaped(out, text)?;
    out.push('\'')
}

fn push_section(out: &mut String, section: &Section<'_>) -> Result<(), AllocError> {
    let at = section.at();
    let kind = if section.is_array() { "array" } else { "table" };
    write!(out, "{at} {kind}")?;
    for key in section.header() {
        out.push(' ')?;
        push_escaped(out, key.text.as_str())?;
    }
    out.push(':')?;
    push_rows(
        out,
        section.rows.parents.as_slice(),
        section.rows.rows.as_slice(),
    )?;
    out.push(';')
}

/// The sections of a text, or the error and its offset.
pub(crate) fn sections_of(alloc: Global, text: &str) -> Result<String, AllocError> {
    let mut out = String::new(alloc);
    match sections(alloc, text) {
        Ok(list) => {
            for section in &list {
                push_section(&mut out, section)?;
            }
        }
        Err(error) => {
            let offset = error.place();
            write!(out, "{error} at offset {}", offset.unwrap_or(0))?;
        }
    }
    Ok(out)
}
