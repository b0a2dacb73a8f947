//! Arrays and inline tables of plain values, which a tree keeps as they were read.

ghost use Rattle.std.specs.Prelude.{◌≡◌, true};
ghost use Rattle.basic_toml_plain.specs.Plain.{are_plain, are_few_simple};

use basic_toml_read::{Element, Row};
use std::marker::Model;

/// The elements of an array of plain values: scalars, arrays of plain values, and [`PlainTable`]s.
#[derive(Drop)]
pub struct PlainArray<'de> {
    elements: Vec<Element<'de>>,
}

impl<'de> Model for PlainArray<'de> {
    ghost use Rattle.std.specs.Prelude.{◌≡◌, List, [], true};
    ghost use Rattle.std.specs.Coded.{codes};
    ghost use mir.Syntax.{named};
    ghost use Rattle.basic_toml_read.specs.declared.section.Element.{Element};
    ghost use Rattle.basic_toml_read.specs.contracts.section.Element as e;

    ghost Value = { List Element };

    ghost coded = { Prim.hlevel (codes, (e.the_row (record { mir = named 0; lft = [] })).coded) };

    ghost use Rattle.basic_toml_plain.specs.Plain.{are_plain};

    ghost view = { λ array. array.elements.items };

    ghost invariant = { λ array. are_plain 0 array.elements.items ≡ true };
}

impl<'de> PlainArray<'de> {
    /// An array of plain elements.
    #[inline(always)]
    pub fn new(elements: Vec<Element<'de>>) -> PlainArray<'de>
        requires { are_plain 0 elements.items ≡ true }
        ensures { result ≡ elements.entry.items }
    {
        PlainArray { elements }
    }

    /// Its elements in order.
    #[inline]
    pub fn elements(&self) -> &[Element<'de>]
        ensures elements { result.now ≡ self.now }
        ensures plain { are_plain 0 self.now ≡ true }
    {
        self.elements.as_slice()
    }

    /// The vector of its elements.
    #[inline]
    pub fn into_elements(self) -> Vec<Element<'de>>
        ensures elements { result.items ≡ self.entry }
        ensures plain { are_plain 0 result.items ≡ true }
    {
        self.elements
    }
}

/// The rows of an inline table of at most 16 rows: each has a key that no other has, and a plain value.
#[derive(Drop)]
pub struct PlainTable<'de> {
    rows: Vec<Row<'de>>,
}

impl<'de> Model for PlainTable<'de> {
    ghost use Rattle.std.specs.Prelude.{◌≡◌, List, [], true};
    ghost use Rattle.std.specs.Coded.{codes};
    ghost use mir.Syntax.{named};
    ghost use Rattle.basic_toml_read.specs.declared.section.Row.{Row};
    ghost use Rattle.basic_toml_read.specs.contracts.section.Row as r;

    ghost Value = { List Row };

    ghost coded = { Prim.hlevel (codes, (r.the_row (record { mir = named 0; lft = [] })).coded) };

    ghost use Rattle.basic_toml_plain.specs.Plain.{are_few_simple};

    ghost view = { λ table. table.rows.items };

    ghost invariant = { λ table. are_few_simple 0 table.rows.items ≡ true };
}

impl<'de> PlainTable<'de> {
    /// A table of few simple rows.
    #[inline(always)]
    pub fn new(rows: Vec<Row<'de>>) -> PlainTable<'de>
        requires { are_few_simple 0 rows.items ≡ true }
        ensures { result ≡ rows.entry.items }
    {
        PlainTable { rows }
    }

    /// Its rows in order.
    #[inline]
    pub fn rows(&self) -> &[Row<'de>]
        ensures rows { result.now ≡ self.now }
        ensures plain { are_few_simple 0 self.now ≡ true }
    {
        self.rows.as_slice()
    }

    /// The vector of its rows.
    #[inline]
    pub fn into_rows(self) -> Vec<Row<'de>>
        ensures rows { result.items ≡ self.entry }
        ensures plain { are_few_simple 0 result.items ≡ true }
    {
        self.rows
    }
}
