//! What stands before an offset.
ghost use Rattle.std.specs.Prelude.{◌≡◌, nat_lt};
ghost use Rattle.std.specs.List.{prefix_len};
ghost use Rattle.basic_toml_read.specs.declared.section.Row.{out-Row};
ghost use Rattle.basic_toml_read.specs.declared.section.Rows.{out-Rows};
ghost use Rattle.basic_toml_read.specs.SectionView.{rows_seen, rows_view, section_of};
ghost use Rattle.basic_toml_origin.specs.Before.{ends_up_to, rows_up_to};

use basic_toml_read::{Row, Rows, Section};

/// Whether the header of a section ends before an offset, or none is given.
pub(crate) fn ends_up_to(end: Option<usize>, section: &Section<'_>) -> bool
    ensures { result ≡ ends_up_to end (section_of section.now).header }
{
    match (end, section.header.last()) {
        (Some(offset), Some(key)) => key.offset < offset,
        _ => true,
    }
}

/// The rows whose value begins before an offset, or all of them where none is given.
pub(crate) fn rows_up_to<'r, 'de>(end: Option<usize>, rows: &'r Rows<'de>) -> &'r [Row<'de>]
    ensures { rows_seen (out-Rows rows.now).parents.items result.now ≡ rows_up_to end (rows_view rows.now) }
{
    let rows = rows.rows.as_slice();
    match end {
        Some(offset) => &rows[..count_before(offset, rows)],
        None => rows,
    }
}

// How many rows begin their value before an offset, up to the first that does not.
fn count_before(offset: usize, rows: &[Row<'_>]) -> usize
    ensures { result ≡ prefix_len (λ row. nat_lt (out-Row row).start offset) rows.now }
{
    rows.iter().take_while(|row| row.start < offset).count()
}
