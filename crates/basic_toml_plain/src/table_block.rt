//! Some tables of an array of tables, as their rows were read.

ghost use Rattle.std.specs.Prelude.{◌≡◌, ◌≤◌, ◌++◌, ◌∷◌, [], true, IfErr, IfOk, IfSome, MatchOption, length, slice_get, Some, drop};
ghost use Rattle.basic_toml_plain.specs.Plain.{are_few_simple};
ghost use Rattle.basic_toml_plain.specs.PlainTables.{are_parts, parts, with_table, tables_in};

use crate::items_left::{ItemsLeft, drain};
use crate::section_rows::SectionRows;
use basic_toml_read::Row;
use std::alloc::{AllocError, Global};
use std::marker::Model;

/// Some tables of an array of tables, at least one, of each of which one header alone speaks. Each has at most 16 rows,
/// with plain values and keys that differ. The rows of all stand in one vector, so that one more table asks for little
/// memory.
#[derive(Drop)]
pub struct TableBlock<'de> {
    rows: Vec<Row<'de>>,
    earlier: Vec<SectionRows>,
    latest: SectionRows,
}

// Seen as the tables before the latest, and the latest: each by the number of its section and its rows.
impl<'de> Model for TableBlock<'de> {
    ghost use Rattle.std.specs.Prelude.{◌≡◌, ◌++◌, ◌∷◌, [], true, drop};
    ghost use Rattle.std.specs.Coded.{codes};
    ghost use mir.Syntax.{named};
    ghost use Rattle.basic_toml_read.specs.contracts.section.Row as r;
    ghost use Rattle.basic_toml_plain.specs.PlainTables.{SectionTables};

    ghost Value = { SectionTables };

    ghost coded = { Prim.hlevel (codes, (r.the_row (record { mir = named 0; lft = [] })).coded) };

    ghost use Rattle.basic_toml_plain.specs.PlainTables.{are_parts, parts};

    ghost view = { λ t. (parts t.rows.items t.earlier.items, (t.latest.section, drop t.latest.start t.rows.items)) };

    ghost invariant = { λ t. are_parts 0 t.rows.items (t.earlier.items ++ t.latest ∷ []) ≡ true };
}

impl<'de> TableBlock<'de> {
    /// One table without rows, which takes no memory.
    pub(crate) fn empty(alloc: Global) -> TableBlock<'de>
        ensures { result ≡ ([], (0, [])) }
    {
        TableBlock {
            rows: Vec::new(alloc),
            earlier: Vec::new(alloc),
            latest: SectionRows {
                section: 0,
                start: 0,
                count: 0,
            },
        }
    }

    /// One table that begins the next block, which takes few simple rows.
    ///
    /// # Errors
    ///
    /// `AllocError` where memory was refused. The rows stay then.
    pub(crate) fn next(
        &self,
        alloc: Global,
        rows: &mut Vec<Row<'de>>,
        section: usize,
    ) -> Result<TableBlock<'de>, AllocError>
        requires { are_few_simple 0 rows.old.items ≡ true }
        ensures table { IfOk result (λ block. block ≡ ([], (section, rows.old.items))) }
        ensures taken { IfOk result (λ _. rows.new.items ≡ []) }
        ensures refused { IfErr result (λ _. rows.new.items ≡ rows.old.items) }
    {
        let count = rows.len();
        // As much room as this block takes, since blocks are often alike.
        let mut all = Vec::with_capacity(alloc, self.rows.len().max(count))?;
        let earlier = Vec::with_capacity(alloc, self.earlier.len())?;
        all.append(rows)?;
        Ok(TableBlock {
            rows: all,
            earlier,
            latest: SectionRows {
                section,
                start: 0,
                count,
            },
        })
    }

    /// Adds a table, which takes few simple rows.
    ///
    /// # Errors
    ///
    /// `AllocError` where memory was refused. No table is added then, and the rows stay.
    #[inline(always)]
    pub(crate) fn push(
        &mut self,
        rows: &mut Vec<Row<'de>>,
        section: usize,
    ) -> Result<(), AllocError>
        requires { are_few_simple 0 rows.old.items ≡ true }
        ensures tables { IfOk result (λ _. self.new ≡ with_table self.old (section, rows.old.items)) }
        ensures taken { IfOk result (λ _. rows.new.items ≡ []) }
        ensures refused { IfErr result (λ _. (self.new ≡ self.old) × (rows.new.items ≡ rows.old.items)) }
    {
        let start = self.rows.len();
        let count = rows.len();
        self.earlier.try_reserve(1)?;
        self.rows.append(rows)?;
        self.earlier.push_reserved(self.latest);
        self.latest = SectionRows {
            section,
            start,
            count,
        };
        Ok(())
    }

    /// How many tables it has.
    pub(crate) fn len(&self) -> usize
        ensures { result ≡ length (tables_in self.now) }
    {
        self.earlier.len() + 1
    }

    /// The number of the latest section.
    pub(crate) fn section(&self) -> usize
        ensures { result ≡ self.now.1.0 }
    {
        self.latest.section
    }

    /// The table at a number: that of its section, and its rows.
    pub(crate) fn get(&self, at: usize) -> Option<(usize, &[Row<'de>])>
        ensures table { MatchOption result (length (tables_in self.now) ≤ at)
            (λ table. slice_get (tables_in self.now) at ≡ Some (table.0, table.1.now)) }
        ensures plain { IfSome result (λ table. are_few_simple 0 table.1.now ≡ true) }
    {
        let own = if at == self.earlier.len() {
            self.latest
        } else {
            *self.earlier.get(at)?
        };
        Some((own.section, &self.rows[own.start..own.start + own.count]))
    }

    /// All rows, and where those of each section stand among them: of the tables before the latest, and of the latest.
    pub fn into_parts(self) -> (ItemsLeft<Row<'de>>, Vec<SectionRows>, SectionRows)
        ensures earlier { parts result.0 result.1.items ≡ self.entry.0 }
        ensures latest { (result.2.section, drop result.2.start result.0) ≡ self.entry.1 }
        ensures plain { are_parts 0 result.0 (result.1.items ++ result.2 ∷ []) ≡ true }
    {
        (drain(self.rows), self.earlier, self.latest)
    }
}
