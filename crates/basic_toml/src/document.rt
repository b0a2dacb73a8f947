//! Writing any table, and any value.
ghost use Rattle.std.specs.Prelude.{◌≡◌, ◌<◌, length, IfOk, IfErr, string_bytes};
ghost use Rattle.basic_toml_value.specs.View.{view, entries};
ghost use Rattle.basic_toml_layout.specs.Document.{plain};
ghost use Rattle.basic_toml_layout.specs.Pretty.{pretty};
ghost use Rattle.basic_toml_layout.specs.Style.{style_of};
ghost use Rattle.basic_toml_error.specs.Fault.{want_of_memory};
ghost use Rattle.basic_toml.specs.TableText.{HasTheLayout, WritesTable, WritesValue};

use crate::Error;
use crate::nesting::{table_nests_within, value_nests_within};
use basic_toml_layout::{Style, document_text, inline_text};
use basic_toml_value::{NESTING_LIMIT, Table, Value};
use basic_toml_write::WriteError;
use std::alloc::Global;

/// The TOML text of any table, which reads back as the same data.
///
/// In each table the rows `key = value` come first, and then the sections, each in their order: a table has its header,
/// and an array of tables alone one for each element. What no header can say stands within a row, tables in it as inline
/// tables: `steps = ["build", { run = "test" }]`. So every table that was read can be written, whatever its order; one
/// that [`to_string`](crate::to_string) writes with its rows first has the same text here. (TOML v0.5.0, "Table",
/// "Inline Table" and "Array of Tables")
///
/// ```text
/// let table: Table = from_str(alloc, "size = { width = 2 }\nname = \"box\"\nsteps = [1, { b = 2 }]\n")?;
/// let text = table_to_string(alloc, &table)?; // name = "box", steps = [1, { b = 2 }], and [size] with width = 2
/// ```
///
/// This is from `toml_vectors`.
///
/// # Errors
///
/// `nested too deeply` where the table is nested more than [`NESTING_LIMIT`] deep, as none is that was read; and `out of
/// memory` where a growth was refused, which never is where the table has no entry.
#[tactic(auto, using(crate::proofs::DocumentOf::has_the_layout))]
pub fn table_to_string(alloc: Global, table: &Table) -> Result<String, Error>
    ensures text { WritesTable plain (entries table.now) result }
    ensures layout { IfOk result (λ text. HasTheLayout (entries table.now) (string_bytes text)) }
    ensures memory { IfErr result (λ fault. fault ≡ want_of_memory → 0 < length table.now) }
{
    text_in(alloc, Style::Plain, table)
}

/// The TOML text of any table, for people: what [`table_to_string`] writes, laid out over more lines.
///
/// A blank line stands before each header but one that begins the text. An array that does not fit into 80 columns with
/// its key has a line for each element, with a comma behind the last; an empty one stays as it is. A string with a line
/// feed stands on several lines, between `"""`. Nothing else is broken: an element of an array and an inline table
/// stand on one line, however long. A column is a character. (TOML v0.5.0, "Array" and "String")
///
/// ```text
/// let table: Table = from_str(alloc, "hosts = [\"alpha\", \"beta\"]\nnote = \"one\\ntwo\"\n")?;
/// let text = table_to_string_pretty(alloc, &table)?; // note = """, and one and two on lines of their own
/// ```
///
/// This is from `toml_vectors`.
///
/// # Errors
///
/// Those of [`table_to_string`].
pub fn table_to_string_pretty(alloc: Global, table: &Table) -> Result<String, Error>
    ensures text { WritesTable pretty (entries table.now) result }
    ensures memory { IfErr result (λ fault. fault ≡ want_of_memory → 0 < length table.now) }
{
    text_in(alloc, Style::Pretty, table)
}

#[tactic(auto, using(crate::proofs::DocumentOf::written, crate::proofs::DocumentOf::too_deep, crate::proofs::MemoryIsGrown::deep_wants_none))]
fn text_in(alloc: Global, style: Style, table: &Table) -> Result<String, Error>
    ensures text { WritesTable (style_of style) (entries table.now) result }
    ensures memory { IfErr result (λ fault. fault ≡ want_of_memory → 0 < length table.now) }
{
    if !table_nests_within(table, NESTING_LIMIT) {
        return Err(Error::from(WriteError::NestedTooDeeply));
    }
    Ok(document_text(alloc, style, table)?)
}

/// The text of any value as it stands in a row, on one line: `[1, { a = 2 }]`. A message shows a value so, and a program
/// that prints a part of a document. (TOML v0.5.0, "Key/Value Pair")
///
/// ```text
/// let text = value_to_string(alloc, steps)?; // [1, { b = 2 }]
/// ```
///
/// This is from `toml_vectors`.
///
/// # Errors
///
/// `nested too deeply` where the value is nested more than [`NESTING_LIMIT`] deep, and `out of memory`.
#[tactic(auto, using(crate::proofs::DocumentOf::too_deep, crate::proofs::DocumentOf::value_written))]
pub fn value_to_string(alloc: Global, value: &Value) -> Result<String, Error>
    ensures { WritesValue (view value.now) result }
{
    if !value_nests_within(value, NESTING_LIMIT) {
        return Err(Error::from(WriteError::NestedTooDeeply));
    }
    Ok(inline_text(alloc, value)?)
}
