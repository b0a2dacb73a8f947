//! The text of a table of data: its rows, and then its sections.
//!
//! The keys to a table stand in `path` as they are written, joined by periods; each section cuts it back to what it
//! was.
ghost use Rattle.std.specs.Prelude.{◌≡◌, ◌<◌, ℕ, List, [], ◌∷◌, ◌++◌, true, cond, length, IfOk, OnErr, string_bytes};
ghost use Rattle.basic_toml_value.specs.Data.{table as table_data};
ghost use Rattle.basic_toml_value.specs.Text.{text_bytes};
ghost use Rattle.basic_toml_value.specs.Entries.{seen};
ghost use Rattle.basic_toml_value.specs.View.{view, entries, items_view};
ghost use Rattle.basic_toml_layout.specs.Layout.{table_header, element_header};
ghost use Rattle.basic_toml_layout.specs.Texts.{joined};
ghost use Rattle.basic_toml_layout.specs.Document as d;
ghost use Rattle.basic_toml_layout.specs.Style.{style_of};
ghost use Rattle.basic_toml_layout.specs.Parts.{Extends, GoesOn, has_section};

use super::inline::write_inline;
use super::pretty::write_pretty;
use super::sections::is_row;
use super::style::Style;
use crate::text::write_key;
use basic_toml_value::{Pair, Table, Value};
use std::alloc::AllocError;

// Appends the rows of a table; whether there is a section.
fn write_rows(text: &mut String, style: Style, pairs: &[Pair<Value>]) -> Result<bool, AllocError>
    ensures text { IfOk result (λ _. string_bytes text.new ≡ string_bytes text.old
        ++ d.rows_text (style_of style) (entries (seen pairs.now))) }
    ensures section { IfOk result (λ has. has ≡ has_section (entries (seen pairs.now))) }
    ensures memory { OnErr result (0 < length pairs.now) }
{
    let mut has_section = false;
    for i in 0..pairs.len() {
        let is_row = write_row(text, style, &pairs[i])?;
        has_section = has_section || !is_row;
    }
    Ok(has_section)
}

// An entry, if it is a row; whether it is.
#[inline(always)]
fn write_row(text: &mut String, style: Style, pair: &Pair<Value>) -> Result<bool, AllocError>
    ensures text { let value = view pair.now.value in
        IfOk result (λ _. string_bytes text.new ≡ string_bytes text.old
        ++ cond (d.is_row value) (d.row_text (style_of style) (text_bytes pair.now.key) value) []) }
    ensures row { IfOk result (λ is. is ≡ d.is_row (view pair.now.value)) }
{
    if !is_row(&pair.value) {
        return Ok(false);
    }
    let line = text.len();
    write_key(text, pair.key.as_str())?;
    text.push_str(" = ")?;
    match style {
        Style::Plain => write_inline(text, &pair.value)?,
        Style::Pretty => write_pretty(text, line, &pair.value)?,
    }
    text.push('\n')?;
    Ok(true)
}

// Whether an entry of a table is a row.
fn has_row(pairs: &[Pair<Value>]) -> bool
    ensures { result ≡ d.has_row (entries (seen pairs.now)) }
{
    for i in 0..pairs.len() {
        if is_row(&pairs[i].value) {
            return true;
        }
    }
    false
}

// Whether the header of a table is written: it has no entry, or a row.
fn is_header_due(pairs: &[Pair<Value>]) -> bool
    ensures { result ≡ d.is_header_due (entries (seen pairs.now)) }
{
    pairs.is_empty() || has_row(pairs)
}

// A header between brackets.
fn write_header(text: &mut String, path: &str, is_later: bool) -> Result<(), AllocError>
    ensures { GoesOn path.now (string_bytes text.old) (string_bytes text.new) (table_header is_later) result }
{
    if is_later {
        text.push('\n')?;
    }
    text.push('[')?;
    text.push_str(path)?;
    text.push_str("]\n")
}

fn write_element_header(text: &mut String, path: &str, is_later: bool) -> Result<(), AllocError>
    ensures { GoesOn path.now (string_bytes text.old) (string_bytes text.new) (element_header is_later) result }
{
    if is_later {
        text.push('\n')?;
    }
    text.push_str("[[")?;
    text.push_str(path)?;
    text.push_str("]]\n")
}

// Goes down a key.
fn add_key(path: &mut String, key: &str) -> Result<(), AllocError>
    ensures keys { IfOk result (λ _. (keys : List (List ℕ)) → joined keys ≡ string_bytes path.old
        → joined (key.now ∷ keys) ≡ string_bytes path.new) }
    ensures front { IfOk result (λ _. Extends (string_bytes path.old) (string_bytes path.new)) }
{
    if !path.is_empty() {
        path.push('.')?;
    }
    write_key(path, key)
}

/// Appends what stands below the header of a table that the keys of `path` lead to. Where the table has no entry, it
/// asks for no memory.
#[cycle(sections)]
pub fn write_entries(
    text: &mut String,
    path: &mut String,
    style: Style,
    is_later: bool,
    pairs: &[Pair<Value>],
) -> Result<(), AllocError>
    ensures text { GoesOn (string_bytes path.old) (string_bytes text.old) (string_bytes text.new)
        (λ keys. d.table_text (style_of style) keys is_later (entries (seen pairs.now))) result }
    ensures path { IfOk result (λ _. string_bytes path.new ≡ string_bytes path.old) }
    ensures memory { OnErr result (0 < length pairs.now) }
{
    if !write_rows(text, style, pairs)? {
        return Ok(());
    }
    write_sections(text, path, style, is_later || has_row(pairs), pairs)
}

// The sections of a table.
#[cycle(sections)]
fn write_sections(
    text: &mut String,
    path: &mut String,
    style: Style,
    is_later: bool,
    pairs: &[Pair<Value>],
) -> Result<(), AllocError>
    ensures text { GoesOn (string_bytes path.old) (string_bytes text.old) (string_bytes text.new)
        (λ keys. d.sections_text (style_of style) keys is_later (entries (seen pairs.now))) result }
    ensures path { IfOk result (λ _. string_bytes path.new ≡ string_bytes path.old) }
    ensures memory { OnErr result (0 < length pairs.now) }
{
    let mut is_after = is_later;
    for i in 0..pairs.len() {
        is_after = write_entry(text, path, style, is_after, &pairs[i])?;
    }
    Ok(())
}

// An entry, if it is a section; whether the next entry is a later one then.
#[cycle(sections)]
fn write_entry(
    text: &mut String,
    path: &mut String,
    style: Style,
    is_later: bool,
    pair: &Pair<Value>,
) -> Result<bool, AllocError>
    ensures text { let value = view pair.now.value in
        GoesOn (string_bytes path.old) (string_bytes text.old) (string_bytes text.new)
        (λ keys. cond (d.is_row value) [] (d.section_text (style_of style) (text_bytes pair.now.key ∷ keys) is_later value)) result }
    ensures later { IfOk result (λ later. later ≡ cond (d.is_row (view pair.now.value)) is_later true) }
    ensures path { IfOk result (λ _. string_bytes path.new ≡ string_bytes path.old) }
{
    if is_row(&pair.value) {
        return Ok(is_later);
    }
    let len = path.len();
    add_key(path, pair.key.as_str())?;
    write_section(text, path, style, is_later, &pair.value)?;
    path.truncate(len);
    Ok(true)
}

// A section, at the keys that lead to it.
#[cycle(sections)]
fn write_section(
    text: &mut String,
    path: &mut String,
    style: Style,
    is_later: bool,
    value: &Value,
) -> Result<(), AllocError>
    ensures text { GoesOn (string_bytes path.old) (string_bytes text.old) (string_bytes text.new)
        (λ keys. d.section_text (style_of style) keys is_later (view value.now)) result }
    ensures path { IfOk result (λ _. string_bytes path.new ≡ string_bytes path.old) }
{
    match value {
        Value::Table(table) => write_table(text, path, style, is_later, table),
        Value::Array(values) => write_elements(text, path, style, is_later, values.as_slice()),
        _ => Ok(()),
    }
}

#[cycle(sections)]
fn write_table(
    text: &mut String,
    path: &mut String,
    style: Style,
    is_later: bool,
    table: &Table,
) -> Result<(), AllocError>
    ensures text { GoesOn (string_bytes path.old) (string_bytes text.old) (string_bytes text.new)
        (λ keys. d.section_text (style_of style) keys is_later (table_data (entries table.now))) result }
    ensures path { IfOk result (λ _. string_bytes path.new ≡ string_bytes path.old) }
{
    let pairs = table.entries();
    if is_header_due(pairs) {
        write_header(text, path.as_str(), is_later)?;
    }
    write_entries(text, path, style, style.is_spaced() && is_later, pairs)
}

// The elements of an array of tables.
#[cycle(sections)]
fn write_elements(
    text: &mut String,
    path: &mut String,
    style: Style,
    is_later: bool,
    values: &[Value],
) -> Result<(), AllocError>
    ensures text { GoesOn (string_bytes path.old) (string_bytes text.old) (string_bytes text.new)
        (λ keys. d.elements_text (style_of style) keys is_later (items_view values.now)) result }
    ensures path { IfOk result (λ _. string_bytes path.new ≡ string_bytes path.old) }
{
    let mut is_after = is_later;
    for i in 0..values.len() {
        write_element(text, path, style, is_after, &values[i])?;
        is_after = true;
    }
    Ok(())
}

#[cycle(sections)]
fn write_element(
    text: &mut String,
    path: &mut String,
    style: Style,
    is_later: bool,
    value: &Value,
) -> Result<(), AllocError>
    ensures text { GoesOn (string_bytes path.old) (string_bytes text.old) (string_bytes text.new)
        (λ keys. d.element_text (style_of style) keys is_later (view value.now)) result }
    ensures path { IfOk result (λ _. string_bytes path.new ≡ string_bytes path.old) }
{
    match value {
        Value::Table(table) => {
            write_element_header(text, path.as_str(), is_later)?;
            write_entries(text, path, style, style.is_spaced(), table.entries())
        }
        _ => Ok(()),
    }
}
