//! Derived types over [`basic_toml`]: what derives the kit's `serde` is read from a text, and written as one.
//!
//! ```text
//! #[derive(Drop, Serialize, Deserialize)]
//! #[serde(rename_all = "kebab-case")]
//! pub struct Manifest {
//!     pub package: Package,
//!     #[serde(default)]
//!     pub dependencies: BTreeMap<String, Dependency>,
//! }
//!
//! let value: T = from_str(alloc, text)?;
//! to_string_rows_first(alloc, &value)
//! ```
//!
//! This is from the program `derived_manifest`.
//!
//! A record is a table, a list an array, a newtype what it holds, and an option that is not there a key that is left
//! out. A variant without data is a string; one with data is a table of one key, unless the type names a tag.
//! [`TomlValue`], [`TomlTable`] and [`TomlFloat`] are fields that hold what `basic_toml` has, and [`as_text`] is a `with`
//! for those that print and parse.
#![tactic(auto)]

pub mod as_text;
mod built;
mod de;
mod failure;
mod fault;
mod format;
mod items;
mod log;
mod names;
mod notes;
mod part;
mod piece;
mod reader;
mod refused;
mod sender;
mod ser;
mod sink;
mod source;
mod table_items;
mod trail;
mod values;
mod walk;
mod writer;

pub use basic_toml::Error;
pub use de::{from_slice, from_str};
pub use ser::{to_string, to_string_rows_first};
pub use values::{TomlFloat, TomlTable, TomlValue};
