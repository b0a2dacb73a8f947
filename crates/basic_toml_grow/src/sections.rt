//! Tables of which one header alone speaks: few simple rows stay as they were read, until another header goes on from
//! their table, or other rows come into their array.

ghost use Rattle.std.specs.Prelude.{◌≡◌, ◌++◌, true, IfOk, map};
ghost use Rattle.basic_toml_plain.specs.PlainTables.{have_few_simple};
ghost use Rattle.basic_toml_grow.specs.Simple.{table_of};
ghost use Rattle.basic_toml_grow.specs.Takes.{Unfolds};

use crate::item::{Child, Item, Table};
use crate::simple::{first_table, section_table};
use basic_toml_plain::{PlainTable, PlainTables, TableBlock};
use std::alloc::{AllocError, Global};
use std::mem;

impl<'de> Child<'de> {
    /// Makes entries of the rows of sections, so that a header can go on from their tables. Nothing else is changed.
    #[inline(always)]
    pub(crate) fn unfold(&mut self, alloc: Global) -> Result<(), AllocError>
        ensures { Unfolds self.old self.new result }
    {
        match &self.item {
            Item::Section(_) => self.make_entries(alloc),
            Item::Sections(_) => self.make_entries(alloc),
            _other => Ok(()),
        }
    }

    // The same, not inlined: what it needs of the stack is not taken at each level of a header.
    #[inline(never)]
    fn make_entries(&mut self, alloc: Global) -> Result<(), AllocError>
        ensures { Unfolds self.old self.new result }
    {
        match &mut self.item {
            Item::Section(table) => {
                let table = mem::replace(table, PlainTable::new(Vec::new(alloc)));
                let table = section_table(alloc, table.into_rows(), self.section)?;
                self.item = Item::Table(table);
                Ok(())
            }
            Item::Sections(tables) => {
                let tables = tables_of(alloc, tables)?;
                self.item = Item::Tables(tables);
                Ok(())
            }
            _other => Ok(()),
        }
    }
}

// The tables that the rows of an array stand for. No row is left in it.
#[inline(never)]
fn tables_of<'de>(
    alloc: Global,
    tables: &mut PlainTables<'de>,
) -> Result<Box<(Vec<Table<'de>>, Table<'de>)>, AllocError>
    ensures earlier { IfOk result (λ made. made.value.0.items ≡ map table_of tables.old.0) }
    ensures latest { IfOk result (λ made. made.value.1 ≡ table_of tables.old.1) }
    ensures simple { IfOk result (λ _. have_few_simple tables.old ≡ true) }
{
    let mut earlier = Vec::with_capacity(alloc, tables.len() - 1)?;
    let (full, last) = tables.take(alloc).into_blocks();
    for block in full {
        let latest = block_tables(alloc, block, &mut earlier)?;
        earlier.push(latest)?;
    }
    let latest = block_tables(alloc, last, &mut earlier)?;
    Ok(Box::new(alloc, (earlier, latest))?)
}

// Puts the tables of a block but the latest after others, and answers the latest.
#[inline(never)]
fn block_tables<'de>(
    alloc: Global,
    block: TableBlock<'de>,
    earlier: &mut Vec<Table<'de>>,
) -> Result<Table<'de>, AllocError>
    ensures earlier { IfOk result (λ _. earlier.new.items ≡ earlier.old.items ++ map table_of block.entry.0) }
    ensures latest { IfOk result (λ latest. latest ≡ table_of block.entry.1) }
    ensures simple { IfOk result (λ _. have_few_simple block.entry ≡ true) }
{
    let (mut rows, sections, latest) = block.into_parts();
    for own in sections {
        earlier.push(first_table(alloc, &mut rows, own)?)?;
    }
    let latest = first_table(alloc, &mut rows, latest)?;
    Ok(latest)
}
