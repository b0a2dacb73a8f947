//! Plain values: scalars, arrays of plain values, and inline tables of a few rows, each of one key that no other has and
//! a plain value. Nothing clashes in them, so a tree keeps them as they were read.
//!
//! [`is_plain`] tells whether a value is one, [`are_few_simple`] whether rows have such values and keys that differ.
//! [`PlainArray`], [`PlainTable`] and [`PlainTables`] keep them. [`into_plain_values`] and its like make the values of a
//! `Table` of them, [`plain_value`] and its like copy them.
//!
//! `basic_toml_grow` keeps them in the items of a tree, and `basic_toml_tree` reads them there.
#![tactic(auto)]

mod items;
mod items_left;
mod plain;
mod section_rows;
mod table_block;
mod tables;
mod values;

pub use items::{PlainArray, PlainTable};
pub use items_left::{ItemsLeft, drain};
pub use plain::{are_all_plain, are_few_simple, are_plain, is_plain};
pub use section_rows::SectionRows;
pub use table_block::TableBlock;
pub use tables::PlainTables;
pub use values::{
    into_plain_table, into_plain_tables, into_plain_values, plain_table, plain_tables, plain_value,
    plain_values,
};
