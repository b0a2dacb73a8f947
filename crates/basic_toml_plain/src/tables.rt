//! The tables of an array of tables, as their rows were read.

ghost use Rattle.std.specs.Prelude.{◌≡◌, ◌≤◌, ◌++◌, ◌∷◌, [], true, IfErr, IfOk, IfSome, MatchOption, length, slice_get, Some};
ghost use Rattle.basic_toml_plain.specs.Plain.{are_few_simple};
ghost use Rattle.basic_toml_plain.specs.PlainTables.{all_in, most_blocks, with_table, tables_in};

use crate::table_block::TableBlock;
use basic_toml_read::Row;
use std::alloc::{AllocError, Global};
use std::marker::Model;
use std::mem;

// So many tables stand in a block: its rows take at most 80 KB.
const IN_BLOCK: usize = 64;

// With more full blocks the number of a table might not be a `usize`. No memory is so large.
const MOST_BLOCKS: usize = 1 << 57;

/// The tables of an array of tables, at least one, of each of which one header alone speaks. Each has at most 16 rows,
/// with plain values and keys that differ. They stand in blocks of 64, so that no large vector moves to grow, and each block
/// is let go as soon as its rows are taken.
#[derive(Drop)]
pub struct PlainTables<'de> {
    full: Vec<TableBlock<'de>>,
    last: TableBlock<'de>,
}

// Seen as the tables before the latest, and the latest: each by the number of its section and its rows.
impl<'de> Model for PlainTables<'de> {
    ghost use Rattle.std.specs.Prelude.{◌≡◌, ◌≤◌, ◌++◌, [], true, length};
    ghost use Rattle.std.specs.Coded.{codes};
    ghost use mir.Syntax.{named};
    ghost use Rattle.basic_toml_read.specs.contracts.section.Row as r;
    ghost use Rattle.basic_toml_plain.specs.PlainTables.{SectionTables};

    ghost Value = { SectionTables };

    ghost coded = { Prim.hlevel (codes, (r.the_row (record { mir = named 0; lft = [] })).coded) };

    ghost use Rattle.basic_toml_plain.specs.PlainTables.{all_in, are_full, most_blocks, tables_in, block_size};

    ghost view = { λ t. (all_in t.full.items ++ t.last.0, t.last.1) };

    ghost invariant = { λ t. (are_full t.full.items ≡ true)
        × ((length t.full.items ≤ most_blocks) × (length (tables_in t.last) ≤ block_size)) };
}

// A table begins a new last block.
#[inline(never)]
fn begin_block<'de>(
    full: &mut Vec<TableBlock<'de>>,
    last: &mut TableBlock<'de>,
    rows: &mut Vec<Row<'de>>,
    section: usize,
) -> Result<(), AllocError>
    requires { are_few_simple 0 rows.old.items ≡ true }
    ensures full { IfOk result (λ _. full.new.items ≡ full.old.items ++ last.old ∷ []) }
    ensures count { IfOk result (λ _. length full.new.items ≤ most_blocks) }
    ensures last { IfOk result (λ _. last.new ≡ ([], (section, rows.old.items))) }
    ensures taken { IfOk result (λ _. rows.new.items ≡ []) }
    ensures kept { IfErr result (λ _. (full.new.items ≡ full.old.items) × (last.new ≡ last.old)) }
    ensures refused { IfErr result (λ _. rows.new.items ≡ rows.old.items) }
{
    if full.len() >= MOST_BLOCKS {
        return Err(AllocError);
    }
    let alloc = *full.allocator();
    full.try_reserve(1)?;
    let next = last.next(alloc, rows, section)?;
    full.push_reserved(mem::replace(last, next));
    Ok(())
}

impl<'de> PlainTables<'de> {
    /// An array of one table, which takes few simple rows.
    ///
    /// # Errors
    ///
    /// `AllocError` where memory was refused. The rows may be gone then.
    pub fn new(
        alloc: Global,
        rows: &mut Vec<Row<'de>>,
        section: usize,
    ) -> Result<Box<PlainTables<'de>>, AllocError>
        requires { are_few_simple 0 rows.old.items ≡ true }
        ensures tables { IfOk result (λ tables. tables.value ≡ ([], (section, rows.old.items))) }
        ensures taken { IfOk result (λ _. rows.new.items ≡ []) }
    {
        let tables = PlainTables {
            full: Vec::new(alloc),
            last: TableBlock::empty(alloc).next(alloc, rows, section)?,
        };
        Ok(Box::new(alloc, tables)?)
    }

    /// Adds a table, which takes few simple rows.
    ///
    /// # Errors
    ///
    /// `AllocError` where memory was refused. No table is added then, and the rows stay.
    #[inline(always)]
    pub fn push(&mut self, rows: &mut Vec<Row<'de>>, section: usize) -> Result<(), AllocError>
        requires { are_few_simple 0 rows.old.items ≡ true }
        ensures tables { IfOk result (λ _. self.new ≡ with_table self.old (section, rows.old.items)) }
        ensures taken { IfOk result (λ _. rows.new.items ≡ []) }
        ensures refused { IfErr result (λ _. (self.new ≡ self.old) × (rows.new.items ≡ rows.old.items)) }
    {
        if self.last.len() < IN_BLOCK {
            self.last.push(rows, section)
        } else {
            begin_block(&mut self.full, &mut self.last, rows, section)?;
            Ok(())
        }
    }

    /// Takes all tables out of it, and leaves one without rows.
    pub fn take(&mut self, alloc: Global) -> PlainTables<'de>
        ensures taken { result ≡ self.old }
        ensures left { self.new ≡ ([], (0, [])) }
    {
        mem::replace(
            self,
            PlainTables {
                full: Vec::new(alloc),
                last: TableBlock::empty(alloc),
            },
        )
    }

    /// How many tables it has.
    pub fn len(&self) -> usize
        ensures { result ≡ length (tables_in self.now) }
    {
        self.full.len() * IN_BLOCK + self.last.len()
    }

    /// The number of the latest section.
    pub fn section(&self) -> usize
        ensures { result ≡ self.now.1.0 }
    {
        self.last.section()
    }

    /// The table at a number: that of its section, and its rows.
    pub fn get(&self, at: usize) -> Option<(usize, &[Row<'de>])>
        ensures table { MatchOption result (length (tables_in self.now) ≤ at)
            (λ table. slice_get (tables_in self.now) at ≡ Some (table.0, table.1.now)) }
        ensures plain { IfSome result (λ table. are_few_simple 0 table.1.now ≡ true) }
    {
        match self.full.get(at / IN_BLOCK) {
            Some(block) => block.get(at % IN_BLOCK),
            None => self.last.get(at - self.full.len() * IN_BLOCK),
        }
    }

    /// Its blocks but the last, and the last.
    pub fn into_blocks(self) -> (Vec<TableBlock<'de>>, TableBlock<'de>)
        ensures { (all_in result.0.items ++ result.1.0, result.1.1) ≡ self.entry }
    {
        (self.full, self.last)
    }
}
