//! Tables of data, which are laid out at once: their keys differ, so no key is looked for.
ghost use Rattle.std.specs.Prelude.{◌≡◌, ◌<◌, length, IfOk, OnErr, string_bytes};
ghost use Rattle.basic_toml_value.specs.View.{view, entries};
ghost use Rattle.basic_toml_layout.specs.Document as d;
ghost use Rattle.basic_toml_layout.specs.Style.{style_of};

mod inline;
mod pretty;
mod sections;
mod style;
mod text;

use basic_toml_value::{Table, Value};
use inline::write_inline;
pub use sections::{begins_with_table, is_section};
use std::alloc::{AllocError, Global};
pub use style::Style;
use text::write_entries;

/// The text of any table that is the whole value: its rows, and then its sections. Where the table has no entry, it
/// asks for no memory.
pub fn document_text(alloc: Global, style: Style, table: &Table) -> Result<String, AllocError>
    ensures text { IfOk result (λ text. string_bytes text ≡ d.document_text (style_of style) (entries table.now)) }
    ensures memory { OnErr result (0 < length table.now) }
{
    let mut text = String::new(alloc);
    let mut path = String::new(alloc);
    write_entries(&mut text, &mut path, style, false, table.entries())?;
    Ok(text)
}

/// The text of any value as it stands in a row.
pub fn inline_text(alloc: Global, value: &Value) -> Result<String, AllocError>
    ensures { IfOk result (λ text. string_bytes text ≡ d.inline (view value.now)) }
{
    let mut text = String::new(alloc);
    write_inline(&mut text, value)?;
    Ok(text)
}
