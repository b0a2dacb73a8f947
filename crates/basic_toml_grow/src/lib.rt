//! A table that grows by the sections of a text, one after another ([`enter_section`]), or what stops one: a clash, or
//! a level above the limit.
//!
//! What stands at each key and at each number is an [`Item`]; a [`Table`] keeps what was said of it, and its entries. A
//! [`Clash`] is why a section is not entered, with the error that names it.
//!
//! [`crossed_value`] looks for rows that go on from a value, a clash that comes before all others.
//!
//! `basic_toml_tree` puts all sections of a list into one table, reads the items that stand in it then, and answers the
//! error of a clash.
#![tactic(auto)]

mod clash;
mod crossed;
mod headers;
mod item;
mod met;
mod row_clash;
mod rows;
mod sections;
mod simple;

pub use clash::{Clash, Repeated, key_texts};
pub use crossed::{crossed_value, first_crossed_value};
pub use headers::enter_section;
pub use item::{Child, Item, Table};
