//! Puts the rows of a table before its sections ([`into_rows_first`]): a row that stands after a section cannot be
//! written, since it would belong to that section. [`laws`] says what the order leaves as it was.
//!
//! `basic_toml` passes both calls on. The crate stands on the writer for its promise that what is in this order is
//! written, and uses only `is_section` of `basic_toml_layout`.
#![tactic(auto)]

mod in_order;
pub mod laws;
mod order;

pub use order::{into_rows_first, rows_first};
