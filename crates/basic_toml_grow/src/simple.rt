//! Rows of one key and a plain value each: where their keys differ, a table without entries takes them all at once.

ghost use Rattle.std.specs.Prelude.{◌≡◌, ◌≤◌, [], true, IfOk, IsTrue, length, map, take, drop};
ghost use Rattle.basic_toml_index.specs.Keys.{are_distinct, is_among};
ghost use Rattle.basic_toml_value.specs.Entries.{seen};
ghost use Rattle.basic_toml_index.specs.Index.{IsIndex, few};
ghost use Rattle.basic_toml_plain.specs.Plain.{are_few_simple as few_simple, key_of, is_plain};
ghost use Rattle.basic_toml_plain.specs.Plain.{are_all_plain as all_plain};
ghost use Rattle.basic_toml_grow.specs.Simple.{child_at, entries_of as new_entries, with_entries};
ghost use Rattle.basic_toml_grow.specs.Simple.{section_table as table_of_section};

use crate::item::{Child, Item, Table};
use basic_toml_index::{Index, Texts};
use basic_toml_plain::{ItemsLeft, PlainArray, PlainTable, SectionRows, drain};
use basic_toml_read::{Raw, Row};
use basic_toml_value::{Pair, Pairs, Text};
use std::alloc::{AllocError, Global};
use std::mem;

// A plain value that begins at an offset of a section.
#[inline(always)]
fn child_at<'de>(value: Raw<'de>, start: usize, section: usize) -> Child<'de>
    requires { is_plain value 0 ≡ true }
    ensures { result ≡ child_at section start value.entry }
{
    let item = match value {
        Raw::Integer(number) => Item::Integer(number),
        Raw::Float(float) => Item::Float(float),
        Raw::True => Item::True,
        Raw::False => Item::False,
        Raw::String(text) => Item::String(text),
        Raw::Escaped(text) => Item::Escaped(text),
        Raw::Array(elements) => Item::Plain(PlainArray::new(elements)),
        Raw::Inline(rows) => Item::Rows(PlainTable::new(rows)),
        Raw::Dotted(_) => unreachable!(),
    };
    Child {
        start,
        section,
        item,
    }
}

// The entries that the first of the rows that are left become, each of one key and a plain value.
#[inline(always)]
fn entries_of<'de>(
    alloc: Global,
    rows: &mut ItemsLeft<Row<'de>>,
    section: usize,
    count: usize,
) -> Result<Vec<Pair<Child<'de>>>, AllocError>
    requires within { count ≤ length rows.old }
    requires plain { all_plain 0 rows.old ≡ true }
    ensures entries { IfOk result (λ entries. seen entries.items ≡ new_entries section (take count rows.old)) }
    ensures left { IfOk result (λ entries. rows.new ≡ drop count rows.old) }
{
    let mut entries = Vec::with_capacity(alloc, count)?;
    for _ in 0..count {
        let Some(row) = rows.next() else {
            unreachable!();
        };
        let Row {
            key,
            start,
            value,
            ..
        } = row;
        let value = child_at(value, start, section);
        let key = Text::from_str(alloc, key.as_str())?;
        entries.push_reserved(Pair { key, value });
    }
    Ok(entries)
}

/// Puts a few rows of a section in the place of a table's entries: their keys differ, and each has one key and a plain
/// value. Their vector keeps its room.
#[inline(never)]
pub(crate) fn with_rows<'de>(
    alloc: Global,
    table: &mut Table<'de>,
    rows: &mut Vec<Row<'de>>,
    section: usize,
) -> Result<(), AllocError>
    requires plain { all_plain 0 rows.old.items ≡ true }
    requires distinct { IsTrue (are_distinct (map key_of rows.old.items)) }
    requires few { length rows.old.items ≤ few }
    ensures after { IfOk result (λ _. table.new ≡ with_entries table.old (new_entries section rows.old.items)) }
    ensures taken { IfOk result (λ _. rows.new.items ≡ []) }
{
    let count = rows.len();
    let mut left = drain(mem::replace(rows, Vec::new(alloc)));
    let entries = entries_of(alloc, &mut left, section, count)?;
    let _ = mem::replace(
        &mut table.entries,
        Pairs::from_parts(entries, Index::none()),
    );
    *rows = left.into_room();
    Ok(())
}

/// The table that the rows of one header stand for.
#[inline(never)]
pub(crate) fn section_table<'de>(
    alloc: Global,
    rows: Vec<Row<'de>>,
    section: usize,
) -> Result<Box<Table<'de>>, AllocError>
    requires { few_simple 0 rows.items ≡ true }
    ensures { IfOk result (λ table. table.value ≡ table_of_section section rows.entry.items) }
{
    let own = SectionRows {
        section,
        start: 0,
        count: rows.len(),
    };
    let table = first_table(alloc, &mut drain(rows), own)?;
    Ok(Box::new(alloc, table)?)
}

/// The table that the first of the rows that are left stand for, which are those of one header.
#[inline(always)]
pub(crate) fn first_table<'de>(
    alloc: Global,
    rows: &mut ItemsLeft<Row<'de>>,
    own: SectionRows,
) -> Result<Table<'de>, AllocError>
    requires within { own.count ≤ length rows.old }
    requires plain { all_plain 0 rows.old ≡ true }
    requires simple { few_simple 0 (take own.count rows.old) ≡ true }
    ensures table { IfOk result (λ table. table ≡ table_of_section own.section (take own.count rows.old)) }
    ensures left { IfOk result (λ _. rows.new ≡ drop own.count rows.old) }
{
    let entries = entries_of(alloc, rows, own.section, own.count)?;
    Ok(Table {
        passed: false,
        named: true,
        dotted: false,
        section: own.section,
        entries: Pairs::from_parts(entries, Index::none()),
    })
}

/// The keys of rows.
#[derive(Drop)]
pub(crate) struct RowKeys<'r, 'de> {
    pub rows: &'r [Row<'de>],
}

impl<'r, 'de> Texts for RowKeys<'r, 'de> {
    ghost use Rattle.std.specs.Prelude.{map};
    ghost use Rattle.basic_toml_plain.specs.Plain.{key_of};

    ghost texts = { λ keys. map key_of keys.rows.now };

    fn count(&self) -> usize {
        self.rows.len()
    }

    fn text(&self, position: usize) -> &str {
        self.rows[position].key.as_str()
    }
}

/// Puts the first of the rows of a section that are left in the place of a table's entries, with an index of their
/// keys: each has one key and a plain value. Memory is given back on the way.
#[inline(never)]
pub(crate) fn with_first_rows<'de>(
    alloc: Global,
    table: &mut Table<'de>,
    rows: &mut ItemsLeft<Row<'de>>,
    section: usize,
    index: Index,
    count: usize,
) -> Result<(), AllocError>
    requires within { count ≤ length rows.old }
    requires plain { all_plain 0 rows.old ≡ true }
    requires index { IsIndex (take count (map key_of rows.old)) index }
    ensures after { IfOk result (λ _. table.new
        ≡ with_entries table.old (new_entries section (take count rows.old))) }
    ensures left { IfOk result (λ _. rows.new ≡ drop count rows.old) }
{
    let entries = Pairs::from_parts(entries_of(alloc, rows, section, count)?, index);
    let _ = mem::replace(&mut table.entries, entries);
    Ok(())
}
