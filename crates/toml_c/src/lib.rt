//! `basic_toml` for a program in C, and for what calls C: Python, JavaScript, Lua.
//!
//! - [`toml_c_check`] says what is wrong with a text, and where.
//! - [`toml_c_get`] finds the value at a path, as `dependencies.serde.version`.
//! - [`toml_c_json`] writes the whole document as JSON.
//! - [`toml_c_tidy`] writes it anew as TOML, and [`toml_c_tidy_rows_first`] the rows of each table before its sections.
//!
//! `tools/c` has the header, and programs in C and in Python that make the calls. Nothing is kept between calls: what a
//! call gives stands in its answer and in memory of the caller's.
#![tactic(auto)]

mod answer;
mod check;
mod document;
mod get;
mod json;
mod tidy;

pub use answer::TomlAnswer;
pub use check::{TomlFinding, toml_c_check};
pub use get::{TomlValue, toml_c_get};
pub use json::toml_c_json;
pub use tidy::{toml_c_tidy, toml_c_tidy_rows_first};
